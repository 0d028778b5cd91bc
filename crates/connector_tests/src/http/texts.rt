//! Streams and texts, put together of parts, and the rows of tables.

use std::alloc::Global;
use std::test::Fail;

/// These parts, one after the other.
pub(crate) fn joined(alloc: Global, parts: &[&[u8]]) -> Result<Vec<u8>, Fail> {
    let mut text = Vec::new(alloc);
    for part in parts {
        text.extend_from_slice(part)?;
    }
    Ok(text)
}

/// Whether a text is these two parts, one after the other.
pub(crate) fn is_joined(text: &[u8], front: &[u8], rest: &[u8]) -> bool {
    let (start, end) = text.split_at(front.len().min(text.len()));
    start == front && end == rest
}

/// Appends a part to a text so often.
pub(crate) fn repeat(text: &mut Vec<u8>, part: &[u8], times: usize) -> Result<(), Fail> {
    for _ in 0..times {
        text.extend_from_slice(part)?;
    }
    Ok(())
}

/// Fills a text with a byte until it has that size.
pub(crate) fn fill(text: &mut Vec<u8>, byte: u8, size: usize) -> Result<(), Fail> {
    for _ in text.len()..size {
        text.push(byte)?;
    }
    Ok(())
}

/// The first cell of a row whose cells have bars between them, and the others.
pub(crate) fn first_cell(row: &'static str) -> Result<(&'static str, &'static str), Fail> {
    Ok(row.split_once('|').ok_or("a bar")?)
}

/// The bytes of a cell, in which `\r`, `\n`, `\t` and `\0` are as in a literal.
pub(crate) fn bytes_of(alloc: Global, cell: &str) -> Result<Vec<u8>, Fail> {
    let mut bytes = Vec::new(alloc);
    let mut is_escape = false;
    for byte in cell.as_bytes() {
        if is_escape {
            bytes.push(escaped(*byte))?;
            is_escape = false;
        } else if *byte == b'\\' {
            is_escape = true;
        } else {
            bytes.push(*byte)?;
        }
    }
    Ok(bytes)
}

fn escaped(letter: u8) -> u8 {
    match letter {
        b'r' => b'\r',
        b'n' => b'\n',
        b't' => b'\t',
        b'0' => b'\0',
        other => other,
    }
}
