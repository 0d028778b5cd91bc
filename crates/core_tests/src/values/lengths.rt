//! Lengths, octet strings and numbers (RFC 0030): spellings that were worked out by hand.

use super::rows::expect;
use oer_core::{
    OerFault, length_size, read_length, read_octets, read_u64, write_length, write_octets,
    write_u64,
};
use std::process::Abort;

// The bytes, the limit, and the length with the size of its spelling, or the fault.
type Length = (&'static [u8], usize, Result<(usize, usize), OerFault>);

static LENGTHS: [Length; 17] = [
    (&[5], 100, Ok((5, 1))),
    (&[127], 127, Ok((127, 1))),
    (&[0x88, 0, 0, 0, 0, 0, 0, 0, 5], 100, Ok((5, 9))),
    (&[0x88, 0, 0, 0, 0, 0, 0, 0, 5], 4, Err(OerFault::TooLong)),
    (&[0x82, 0], 100, Err(OerFault::Short)),
    (&[], 100, Err(OerFault::Short)),
    (&[0x80], 100, Err(OerFault::BadLength)),
    (&[0x89], 100, Err(OerFault::BadLength)),
    (&[0x81, 7], 7, Ok((7, 2))),
    (&[0x81, 7], 6, Err(OerFault::TooLong)),
    (&[0x82, 0, 7], 7, Ok((7, 3))),
    (&[0x83, 0, 0, 7], 7, Ok((7, 4))),
    (&[0x84, 0, 0, 0, 7], 7, Ok((7, 5))),
    (&[0x85, 0, 0, 0, 0, 7], 7, Ok((7, 6))),
    (&[0x86, 0, 0, 0, 0, 0, 7], 7, Ok((7, 7))),
    (&[0x87, 0, 0, 0, 0, 0, 0, 7], 7, Ok((7, 8))),
    (&[0x88, 0, 0, 0, 0, 0, 0, 0, 7], 7, Ok((7, 9))),
];

// The bytes, the limit, and the string with the bytes after it, or the fault.
type OctetString = (
    &'static [u8],
    usize,
    Result<(&'static [u8], &'static [u8]), OerFault>,
);

static STRINGS: [OctetString; 3] = [
    (&[0x81, 2, b'h', b'i', 9], 2, Ok((b"hi", &[9]))),
    (&[0x81, 2, b'h', b'i', 9], 1, Err(OerFault::TooLong)),
    (&[0x81, 2, b'h'], 9, Err(OerFault::Short)),
];

// The bytes, and the number with the bytes after it, or the fault.
type Number = (&'static [u8], Result<(u64, &'static [u8]), OerFault>);

static NUMBERS: [Number; 2] = [
    (&[0, 0, 0, 0, 0, 0, 3, 0xe8, 7], Ok((1000, &[7]))),
    (&[0, 0, 0, 0, 0, 0, 3], Err(OerFault::Short)),
];

fn expect_lengths(rt: &impl Abort, rows: &[Length]) {
    for (bytes, limit, wanted) in rows {
        expect(rt, bytes, read_length(bytes, *limit) == *wanted);
    }
}

fn expect_strings(rt: &impl Abort, rows: &[OctetString]) {
    for (bytes, limit, wanted) in rows {
        expect(rt, bytes, read_octets(bytes, *limit) == *wanted);
    }
}

fn expect_numbers(rt: &impl Abort, rows: &[Number]) {
    for (bytes, wanted) in rows {
        expect(rt, bytes, read_u64(bytes) == *wanted);
    }
}

#[test]
fn spellings_are_read(rt: HostRuntime) {
    expect_lengths(&rt, &LENGTHS);
    expect_strings(&rt, &STRINGS);
    expect_numbers(&rt, &NUMBERS);
}

// The place after what is written, or the fault.
type End = Result<usize, OerFault>;

// A length, the place, the place after it, and what six sevens have become.
static WRITTEN_LENGTHS: [(usize, usize, End, [u8; 6]); 5] = [
    (300, 1, Ok(4), [7, 0x82, 1, 44, 7, 7]),
    (5, 6, Err(OerFault::Short), [7; 6]),
    (5, 7, Err(OerFault::Short), [7; 6]),
    (127, 0, Ok(1), [127, 7, 7, 7, 7, 7]),
    (128, 4, Ok(6), [7, 7, 7, 7, 0x81, 128]),
];

fn expect_written_lengths(rt: &impl Abort, rows: &[(usize, usize, End, [u8; 6])]) {
    for (count, at, end, wanted) in rows {
        let mut out = [7; 6];
        assert!(rt; write_length(&mut out, *at, *count) == *end);
        assert!(rt; out == *wanted);
    }
}

fn expect_sizes(rt: &impl Abort, rows: &[(usize, usize)]) {
    for (count, size) in rows {
        assert!(rt; length_size(*count) == *size);
    }
}

// The place of a string, the place after it, and what six sevens have become.
static WRITTEN_STRINGS: [(usize, End, [u8; 6]); 2] = [
    (3, Ok(6), [7, 7, 7, 2, b'o', b'k']),
    (4, Err(OerFault::Short), [7; 6]),
];

fn expect_written_strings(rt: &impl Abort, rows: &[(usize, End, [u8; 6])]) {
    for (at, end, wanted) in rows {
        let mut out = [7; 6];
        assert!(rt; write_octets(&mut out, *at, b"ok") == *end);
        assert!(rt; out == *wanted);
    }
}

// The place of a number, the place after it, and what nine nines have become.
static WRITTEN_NUMBERS: [(usize, End, [u8; 9]); 2] = [
    (1, Ok(9), [9, 0, 0, 0, 0, 0, 0, 5, 0xdc]),
    (2, Err(OerFault::Short), [9; 9]),
];

fn expect_written_numbers(rt: &impl Abort, rows: &[(usize, End, [u8; 9])]) {
    for (at, end, wanted) in rows {
        let mut out = [9; 9];
        assert!(rt; write_u64(&mut out, *at, 1500) == *end);
        assert!(rt; out == *wanted);
    }
}

#[test]
fn spellings_are_written(rt: HostRuntime) {
    expect_written_lengths(&rt, &WRITTEN_LENGTHS);
    expect_sizes(&rt, &[(127, 1), (128, 2), (300, 3)]);
    expect_written_strings(&rt, &WRITTEN_STRINGS);
    expect_written_numbers(&rt, &WRITTEN_NUMBERS);
}
