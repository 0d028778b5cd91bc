//! Packets of a crowd, and what comes back for them, in hexadecimal digits. (RFC 0027)

use std::alloc::{AllocError, Global};
use test_texts::Draws;

/// How many milliseconds a script's moments may go past its beginning: its dates are of one hour.
pub const HOUR: u64 = 3_600_000;

// The SHA-256 of 32 zero bytes.
const CONDITION: [u8; 32] = [
    0x66, 0x68, 0x7a, 0xad, 0xf8, 0x62, 0xbd, 0x77, 0x6c, 0x8f, 0xc1, 0x8b, 0x8e, 0x9f, 0x8e, 0x20,
    0x08, 0x97, 0x14, 0x85, 0x6e, 0xe2, 0x33, 0xb3, 0x90, 0x2a, 0x59, 0x1d, 0x0d, 0x5f, 0x29, 0x25,
];

const ZEROS: &str = "00000000000000000000000000000000000000000000000000000000000000";

/// A Prepare: its amount, how many milliseconds after 2030-01-01T00:00Z it expires, its destination, and how many
/// bytes of data it has.
#[derive(Clone, Copy)]
pub struct Prepare<'a> {
    pub amount: u64,
    pub expiry: u64,
    pub destination: &'a str,
    pub payload: usize,
}

// A number below 1,000 in so many digits, with zeros in front.
fn put_padded(
    alloc: Global,
    text: &mut String,
    number: u64,
    count: usize,
) -> Result<(), AllocError> {
    let digits = number.to_string(alloc)?;
    for _ in digits.len()..count {
        text.push_str("0")?;
    }
    text.push_str(digits.as_str())
}

// The 17 digits of a moment in the first hour of 2030.
fn timestamp(alloc: Global, millis: u64) -> Result<String, AllocError> {
    let mut text = String::from_str(alloc, "2030010100")?;
    put_padded(alloc, &mut text, millis / 60_000 % 60, 2)?;
    put_padded(alloc, &mut text, millis / 1_000 % 60, 2)?;
    put_padded(alloc, &mut text, millis % 1_000, 3)?;
    Ok(text)
}

fn put_string(out: &mut Vec<u8>, bytes: &[u8]) -> Result<(), AllocError> {
    put_length(out, bytes.len())?;
    out.extend_from_slice(bytes)
}

// A length up to 255 in its shortest spelling.
fn put_length(out: &mut Vec<u8>, length: usize) -> Result<(), AllocError> {
    let byte = u8::try_from(length).unwrap_or(255);
    if byte >= 128 {
        out.push(0x81)?;
    }
    out.push(byte)?;
    Ok(())
}

fn contents(alloc: Global, prepare: &Prepare<'_>) -> Result<Vec<u8>, AllocError> {
    let mut out = Vec::from_slice(alloc, &prepare.amount.to_be_bytes())?;
    out.extend_from_slice(timestamp(alloc, prepare.expiry)?.as_bytes())?;
    out.extend_from_slice(&CONDITION)?;
    put_string(&mut out, prepare.destination.as_bytes())?;
    let payload = vec![in alloc; 0xaa; prepare.payload.min(100)]?;
    put_string(&mut out, payload.as_slice())?;
    Ok(out)
}

/// The frame of a Prepare.
pub fn frame_of(alloc: Global, prepare: &Prepare<'_>) -> Result<Vec<u8>, AllocError> {
    let mut frame = Vec::from_slice(alloc, &[12])?;
    put_string(&mut frame, contents(alloc, prepare)?.as_slice())?;
    Ok(frame)
}

/// What a hostile peer sends: a frame that is not a packet, or a packet that is too late, too large, for nobody, for
/// its own configuration, or good.
pub fn hostile_frame(
    alloc: Global,
    draws: &mut Draws,
    name: &str,
    millis: u64,
) -> Result<String, AllocError> {
    let usual = ["g.", name, ".bob.x"].concat(alloc)?;
    let neighbour = ["peer.", name].concat(alloc)?;
    let mut prepare = Prepare {
        amount: draws.below(1_200),
        expiry: millis.saturating_add(draws.below(40_000)),
        destination: usual.as_str(),
        payload: 0,
    };
    match draws.below(24) {
        0 => return String::from_str(alloc, draws.one_of(&["0c80", "0c89", "-", "0d", "0cff"])),
        1 => prepare.expiry = millis,
        2 => prepare.amount = 1 << 63,
        3 => prepare.destination = "g.other",
        4 | 5 => prepare.destination = "peer.config",
        6 | 11 => {
            prepare.destination = "peer.config";
            prepare.amount = 0;
        }
        12 => prepare.destination = neighbour.as_str(),
        7..=9 => prepare.payload = 100,
        10 => prepare.destination = "g..x",
        _ => {}
    }
    let mut frame = frame_of(alloc, &prepare)?;
    change(alloc, draws, &mut frame)?;
    hex::encode(alloc, frame.as_slice())
}

// Seldom a byte more or less, or far too many.
fn change(alloc: Global, draws: &mut Draws, frame: &mut Vec<u8>) -> Result<(), AllocError> {
    match draws.below(40) {
        0 => frame.push(0)?,
        1 => {
            let _ = frame.pop();
        }
        2 if draws.is_one_in(4) => *frame = vec![in alloc; 12; 34_001]?,
        _ => {}
    }
    Ok(())
}

/// What comes back from a next peer: what fulfills, what does not, a Reject, bytes that are neither, or nothing.
pub fn answer(alloc: Global, draws: &mut Draws) -> Result<String, AllocError> {
    match draws.below(10) {
        0 => String::from_str(alloc, "fault"),
        1 => ["0d21", ZEROS, "0100"].concat(alloc),
        2 => String::from_str(alloc, "0e0746303001410000"),
        3 => String::from_str(alloc, draws.one_of(&["-", "0d21", "0e80", "0c00"])),
        _ => ["0d21", ZEROS, "0000"].concat(alloc),
    }
}
