//! Addresses, prefixes (RFC 0015) and moments (RFC 0027).

use super::rows::expect;
use common_types::ReadError;
use ilp_addr::{AddrFault, Address, Moment, Prefix, Stamp};
use std::alloc::Global;
use std::process::Abort;
use std::test::Fail;

// A text, and why it is no address.
static ADDRESSES: [(&[u8], Option<AddrFault>); 9] = [
    (b"g.a", None),
    (b"g", Some(AddrFault::Scheme)),
    (b"test4.a", Some(AddrFault::Scheme)),
    (b".g.a", Some(AddrFault::Scheme)),
    (b"g..a", Some(AddrFault::Segment)),
    (b"g.a.", Some(AddrFault::Segment)),
    (b"g.a b", Some(AddrFault::Segment)),
    (b"peer.config", None),
    (b"", Some(AddrFault::Scheme)),
];

fn expect_faults(rt: &impl Abort, rows: &[(&[u8], Option<AddrFault>)]) {
    for (bytes, fault) in rows {
        expect(rt, bytes, Address::parse(bytes).err() == *fault);
    }
}

fn length_of(bytes: &[u8]) -> Result<usize, AddrFault> {
    Ok(Address::parse(bytes)?.bytes().len())
}

// `g.` and then so many times `a` that there are that many bytes.
fn of_length(alloc: Global, length: usize) -> Result<Vec<u8>, Fail> {
    let mut bytes = Vec::from_slice(alloc, b"g.")?;
    for _ in 2..length {
        bytes.push(b'a')?;
    }
    Ok(bytes)
}

static SEGMENTS: [&[u8]; 3] = [b"test1", b"A0_~-", b"bob"];

fn expect_segments(rt: &impl Abort, address: &[u8], wanted: &[&[u8]]) -> Result<(), Fail> {
    let address = Address::parse(address).ok().ok_or("an address")?;
    let mut segments = Address::of_known(address.bytes()).segments();
    for segment in wanted {
        assert!(rt; segments.next() == Some(*segment));
    }
    assert!(rt; segments.next() == None);
    Ok(())
}

#[test]
fn addresses(rt: HostRuntime) -> Result<(), Fail> {
    expect_faults(&rt, &ADDRESSES);
    let alloc = rt.alloc();
    assert!(rt; length_of(&of_length(alloc, 1024)?) == Err(AddrFault::Length));
    assert!(rt; length_of(&of_length(alloc, 1023)?) == Ok(1023));
    expect_segments(&rt, b"test1.A0_~-.bob", &SEGMENTS)
}

#[test]
fn prefixes(rt: HostRuntime) -> Result<(), Fail> {
    let refused: [(&[u8], AddrFault); 4] = [
        (b".", AddrFault::Scheme),
        (b"..", AddrFault::Scheme),
        (b"h.a", AddrFault::Scheme),
        (b"g..", AddrFault::Segment),
    ];
    for (bytes, fault) in refused {
        let found = Prefix::parse(rt.alloc(), bytes).err();
        assert!(rt; found == Some(ReadError::Fault(fault)));
    }
    let address = Address::parse(b"g.acme.bob.x").ok().ok_or("an address")?;
    // What is read, what is kept of it, and whether the address begins with it.
    let read: [(&[u8], &[u8], bool); 8] = [
        (b"", b"", true),
        (b"g", b"g", true),
        (b"g.a.", b"g.a", false),
        (b"g.acme.", b"g.acme", true),
        (b"g.acme.bob.x", b"g.acme.bob.x", true),
        (b"g.acme.bo", b"g.acme.bo", false),
        (b"g.acme.bob.x.y", b"g.acme.bob.x.y", false),
        (b"test", b"test", false),
    ];
    for (bytes, kept, begins) in read {
        let prefix = Prefix::parse(rt.alloc(), bytes)?.copy(rt.alloc())?;
        assert!(rt; prefix.bytes() == kept);
        assert!(rt; address.begins_with(&prefix) == begins);
    }
    Ok(())
}

// A text and its moment: Python's datetime gives them.
static MOMENTS: [(&[u8; 17], u64); 10] = [
    (b"19700101000000000", 0),
    (b"19700101000000001", 1),
    (b"19720229010203004", 68_173_323_004),
    (b"20000229235959999", 951_868_799_999),
    (b"20000301000000000", 951_868_800_000),
    (b"20231231123456789", 1_704_026_096_789),
    (b"20240229000000000", 1_709_164_800_000),
    (b"21000301000000000", 4_107_542_400_000),
    (b"99991229235959999", 253_402_127_999_999),
    (b"99991230000000000", 253_402_128_000_000),
];

fn expect_moments(rt: &impl Abort, rows: &[(&[u8; 17], u64)]) {
    for (text, moment) in rows {
        assert!(rt; Stamp::parse(text) == Ok(*moment));
        assert!(rt; *moment <= 253_402_128_000_000);
        let mut written = [0; 17];
        Stamp::write(*moment, &mut written);
        assert!(rt; written.as_slice() == text.as_slice());
    }
}

#[test]
fn stamps(rt: HostRuntime) -> Result<(), Fail> {
    expect_moments(&rt, &MOMENTS);
    let moment = Moment::new(253_400_000_000_000).ok_or("the greatest moment")?;
    assert!(rt; moment.millis() == 253_400_000_000_000);
    assert!(rt; Moment::new(253_400_000_000_001).is_none());
    Ok(())
}

#[test]
fn dates_outside_and_texts_that_are_none(rt: HostRuntime) -> Result<(), Fail> {
    // Years before 1970 and days after 9999-12-30 are read as the first and the last moment.
    let outside: [(&[u8; 17], u64); 5] = [
        (b"00000101000000000", 0),
        (b"00000229000000000", 0),
        (b"19000228235959999", 0),
        (b"19691231235959999", 0),
        (b"99991231235959999", 253_402_128_000_000),
    ];
    for (text, moment) in outside {
        assert!(rt; Stamp::parse(text) == Ok(moment));
    }
    let refused: [&[u8; 17]; 11] = [
        b"19000229000000000",
        b"20230229000000000",
        b"20230431000000000",
        b"20230001000000000",
        b"20231301000000000",
        b"20230100000000000",
        b"20300101240000000",
        b"20300101006000000",
        b"20300101000060000",
        b"2030010100000000a",
        b"20301301000010000",
    ];
    for text in refused {
        assert!(rt; Stamp::parse(text) == Err(AddrFault::NotADate));
    }
    Ok(())
}
