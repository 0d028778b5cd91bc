//! The configuration of children (RFC 0031): answers that were worked out by hand, and what is refused.

use super::rows::{expect, expect_at};
use common_types::{AssetCode, Name};
use ildcp_core::{Child, ChildParts, IldcpFault, Role, answer, check, is_config};
use ilp_addr::{Address, OwnAddress};
use std::alloc::Global;
use std::process::Abort;
use std::test::Fail;

// The SHA-256 of 32 zero bytes: `head -c 32 /dev/zero | sha256sum` gives it.
const CONDITION: [u8; 32] = [
    0x66, 0x68, 0x7a, 0xad, 0xf8, 0x62, 0xbd, 0x77, 0x6c, 0x8f, 0xc1, 0x8b, 0x8e, 0x9f, 0x8e, 0x20,
    0x08, 0x97, 0x14, 0x85, 0x6e, 0xe2, 0x33, 0xb3, 0x90, 0x2a, 0x59, 0x1d, 0x0d, 0x5f, 0x29, 0x25,
];

// A name and the code of an asset.
fn parts(name: &[u8], code: &[u8]) -> Result<(Name, AssetCode), Fail> {
    let name = Name::new(name).ok_or("a name")?;
    Ok((name, AssetCode::new(code).ok_or("the code of an asset")?))
}

// A peer of a tenant of that address, with that name and asset, 9 decimal places to its unit.
fn peer<'a>(role: Role, tenant: &'a OwnAddress, parts: &'a (Name, AssetCode)) -> Child<'a> {
    Child::new(ChildParts {
        role,
        tenant,
        name: &parts.0,
        scale: 9,
        code: &parts.1,
    })
}

// The answer is these parts one after another, and every byte after it stays.
fn expect_answer(
    rt: &impl Abort,
    alloc: Global,
    child: &Child<'_>,
    parts: &[&[u8]],
) -> Result<(), Fail> {
    let mut wanted = parts.concat(alloc)?;
    let mut out = [7; 1000];
    assert!(rt; answer(child, &mut out) == wanted.len());
    for _ in wanted.len()..1000 {
        wanted.push(7)?;
    }
    assert!(rt; out.as_slice() == wanted.as_slice());
    Ok(())
}

#[test]
fn answers(rt: HostRuntime) -> Result<(), Fail> {
    let tenant = OwnAddress::new(b"g.acme").ok_or("an address")?;
    let parts = parts(b"bob", b"XRP")?;
    let bob = peer(Role::Child, &tenant, &parts);
    expect_answer(
        &rt,
        rt.alloc(),
        &bob,
        &[b"\x0d\x31", &[0; 32], b"\x10\x0ag.acme.bob\x09\x03XRP"],
    )
}

#[test]
fn longest_answer(rt: HostRuntime) -> Result<(), Fail> {
    let alloc = rt.alloc();
    let tenant = [&b"g."[..], &[b'a'; 898]].concat(alloc)?;
    let address = OwnAddress::new(&tenant).ok_or("an address")?;
    let parts = parts(&[b'-'; 32], &[b'C'; 16])?;
    let child = peer(Role::Child, &address, &parts);
    expect_answer(
        &rt,
        alloc,
        &child,
        &[
            b"\x0d\x82\x03\xdd",
            &[0; 32],
            b"\x82\x03\xba\x82\x03\xa5",
            &tenant,
            b".",
            &[b'-'; 32],
            b"\x09\x10",
            &[b'C'; 16],
        ],
    )
}

type Request = (Role, u64, u8, Result<(), IldcpFault>);

// Who asks, the amount, the last byte of the condition, and what is wrong.
static REQUESTS: [Request; 6] = [
    (Role::Child, 0, 0x25, Ok(())),
    (Role::Child, 0, 0x24, Err(IldcpFault::Condition)),
    (Role::Child, 1, 0x25, Err(IldcpFault::Amount)),
    (Role::Child, u64::MAX, 0x24, Err(IldcpFault::Amount)),
    (Role::Peer, 0, 0x25, Err(IldcpFault::NotChild)),
    (Role::Peer, 1, 0x24, Err(IldcpFault::NotChild)),
];

fn checked(child: &Child<'_>, amount: u64, last: u8) -> Result<(), IldcpFault> {
    let mut condition = CONDITION;
    condition[31] = last;
    check(child, amount, &condition)
}

fn expect_checked(rt: &impl Abort, rows: &[Request]) -> Result<(), Fail> {
    let tenant = OwnAddress::new(b"g.acme").ok_or("an address")?;
    let parts = parts(b"alice", b"USD")?;
    for (role, amount, last, wanted) in rows {
        let child = peer(*role, &tenant, &parts);
        expect_at(rt, *amount, checked(&child, *amount, *last) == *wanted);
    }
    Ok(())
}

// A destination, and whether it is the one that configurations are asked of.
static DESTINATIONS: [(&[u8], bool); 5] = [
    (b"peer.config", true),
    (b"peer.config.x", false),
    (b"peer.configs", false),
    (b"peer.Config", false),
    (b"g.config", false),
];

fn expect_destinations(rt: &impl Abort, rows: &[(&[u8], bool)]) -> Result<(), Fail> {
    for (destination, wanted) in rows {
        let address = Address::parse(destination).ok().ok_or("an address")?;
        expect(rt, destination, is_config(&address) == *wanted);
    }
    Ok(())
}

#[test]
fn requests(rt: HostRuntime) -> Result<(), Fail> {
    expect_checked(&rt, &REQUESTS)?;
    expect_destinations(&rt, &DESTINATIONS)
}

#[test]
fn texts_of_faults(rt: HostRuntime) -> Result<(), Fail> {
    for (fault, text) in [
        (IldcpFault::NotChild, "the peer is no child"),
        (IldcpFault::Amount, "the amount is not zero"),
        (
            IldcpFault::Condition,
            "the condition is not that of 32 zero bytes",
        ),
    ] {
        assert!(rt; format!(in rt.alloc(); "{fault}")?.as_str() == text);
    }
    Ok(())
}
