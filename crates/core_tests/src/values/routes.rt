//! Routes: the longest prefix by whole segments (RFC 0015).

use super::rows::expect;
use ilp_addr::{Address, Prefix};
use route_table::{Fee, Hop, PeerNo, RouteFault, Routes};
use std::alloc::Global;
use std::process::Abort;
use std::test::Fail;

// Each peer's routes have a fee of their own.
fn fee_of(peer: PeerNo) -> u64 {
    u64::from(peer).saturating_mul(10)
}

// What adding a route gives, and `None` if the bytes are no prefix.
fn add(
    alloc: Global,
    routes: &mut Routes,
    bytes: &[u8],
    peer: PeerNo,
) -> Option<Result<(), RouteFault>> {
    let prefix = Prefix::parse(alloc, bytes).ok()?;
    let fee = Fee::new(fee_of(peer))?;
    Some(routes.add(prefix, Hop { peer, fee }))
}

// What removing a route gives, and `None` if the bytes are no prefix.
fn remove(alloc: Global, routes: &mut Routes, bytes: &[u8]) -> Option<Result<(), RouteFault>> {
    let prefix = Prefix::parse(alloc, bytes).ok()?;
    Some(routes.remove(&prefix))
}

// Whether packets for that destination go to that peer, at its fee, or to nobody.
fn goes_to(routes: &Routes, destination: &[u8], peer: Option<PeerNo>) -> bool {
    let Ok(destination) = Address::parse(destination) else {
        return false;
    };
    match routes.find(&destination) {
        Some(hop) => Some(hop.peer) == peer && hop.fee.get() == fee_of(hop.peer),
        None => peer.is_none(),
    }
}

fn expect_peer(rt: &impl Abort, routes: &Routes, destination: &[u8], wanted: Option<PeerNo>) {
    expect(rt, destination, goes_to(routes, destination, wanted));
}

fn expect_add(
    rt: &impl Abort,
    alloc: Global,
    routes: &mut Routes,
    bytes: &[u8],
    peer: PeerNo,
    wanted: Result<(), RouteFault>,
) {
    expect(rt, bytes, add(alloc, routes, bytes, peer) == Some(wanted));
}

fn expect_remove(
    rt: &impl Abort,
    alloc: Global,
    routes: &mut Routes,
    bytes: &[u8],
    wanted: Result<(), RouteFault>,
) {
    expect(rt, bytes, remove(alloc, routes, bytes) == Some(wanted));
}

static ROWS: [(&[u8], PeerNo); 3] = [(b"g.acme", 1), (b"g.acme.bo", 2), (b"", 3)];

static FOUND: [(&[u8], PeerNo); 5] = [
    (b"g.acme.bob.x", 1),
    (b"g.acme.bo.x", 2),
    (b"g.acme.bo", 2),
    (b"g.acmes", 3),
    (b"test.x", 3),
];

fn expect_rows_added(rt: &impl Abort, alloc: Global, routes: &mut Routes) {
    assert!(rt; routes.is_empty());
    for (bytes, peer) in &ROWS {
        expect_add(rt, alloc, routes, bytes, *peer, Ok(()));
        expect_add(rt, alloc, routes, bytes, 4, Err(RouteFault::Present));
    }
}

fn expect_rows_copied(rt: &impl Abort, alloc: Global, routes: &Routes) -> Result<(), Fail> {
    let copied = copy_of(alloc, routes)?;
    expect_found(rt, &copied, &FOUND);
    Ok(())
}

fn expect_found(rt: &impl Abort, routes: &Routes, rows: &[(&[u8], PeerNo)]) {
    assert!(rt; routes.len() == 3);
    for (destination, peer) in rows {
        expect_peer(rt, routes, destination, Some(*peer));
    }
}

fn expect_default_removed(rt: &impl Abort, alloc: Global, routes: &mut Routes) {
    expect_remove(rt, alloc, routes, b"", Ok(()));
    expect_remove(rt, alloc, routes, b"", Err(RouteFault::Absent));
    expect_peer(rt, routes, b"test.x", None);
    expect_peer(rt, routes, b"g.acme.bo.x", Some(2));
    assert!(rt; routes.names_peer(2) && !routes.names_peer(3));
    assert!(rt; routes.names_only_below(3) && !routes.names_only_below(2));
}

#[test]
fn longest_prefix_by_segments(rt: HostRuntime) -> Result<(), Fail> {
    let alloc = rt.alloc();
    let mut routes = Routes::new(alloc);
    expect_rows_added(&rt, alloc, &mut routes);
    expect_rows_copied(&rt, alloc, &routes)?;
    expect_default_removed(&rt, alloc, &mut routes);
    Ok(())
}

fn add_all(alloc: Global, routes: &mut Routes, rows: &[(&[u8], PeerNo)]) -> Result<(), Fail> {
    for (bytes, peer) in rows {
        if add(alloc, routes, bytes, *peer) != Some(Ok(())) {
            return Err(Fail::from("a route"));
        }
    }
    Ok(())
}

fn routes_of(alloc: Global, rows: &[(&[u8], PeerNo)]) -> Result<Routes, Fail> {
    let mut routes = Routes::new(alloc);
    add_all(alloc, &mut routes, rows)?;
    Ok(routes)
}

fn copy_of(alloc: Global, routes: &Routes) -> Result<Routes, Fail> {
    Ok(routes.copy(alloc)?)
}

// `g` and 511 segments of one byte: the most segments that 1,023 bytes have room for.
fn deepest(alloc: Global) -> Result<Vec<u8>, Fail> {
    let mut bytes = Vec::from_slice(alloc, b"g")?;
    for _ in 0..511 {
        bytes.extend_from_slice(b".a")?;
    }
    Ok(bytes)
}

static NESTED: [(&[u8], PeerNo); 4] = [(b"", 1), (b"g", 2), (b"g.acme", 3), (b"g.acme.bob.x.y", 4)];

fn expect_next_best(rt: &impl Abort, alloc: Global, routes: &mut Routes, address: &[u8]) {
    expect_peer(rt, routes, b"g.acme.bob.x", Some(3));
    expect_peer(rt, routes, b"g.acme.bob.x.y.z", Some(4));
    expect_remove(rt, alloc, routes, b"g.acme", Ok(()));
    expect_peer(rt, routes, b"g.acme.bob.x", Some(2));
    expect_remove(rt, alloc, routes, b"g", Ok(()));
    expect_peer(rt, routes, b"g.acme.bob.x", Some(1));
    expect_peer(rt, routes, address, Some(1));
}

#[test]
fn next_best_once_the_best_is_gone(rt: HostRuntime) -> Result<(), Fail> {
    let alloc = rt.alloc();
    let address = deepest(alloc)?;
    let mut routes = routes_of(alloc, &NESTED)?;
    expect_next_best(&rt, alloc, &mut routes, &address);
    Ok(())
}

// What is removed from the routes stays in the copy.
fn expect_only_in_copy(
    rt: &impl Abort,
    alloc: Global,
    routes: &mut Routes,
    copied: &Routes,
    address: &[u8],
) {
    assert!(rt; copied.names_peer(2));
    expect_peer(rt, copied, address, Some(2));
    expect_remove(rt, alloc, routes, address, Ok(()));
    expect_peer(rt, routes, address, Some(1));
    expect_peer(rt, copied, address, Some(2));
}

#[test]
fn deepest_prefix(rt: HostRuntime) -> Result<(), Fail> {
    let alloc = rt.alloc();
    let address = deepest(alloc)?;
    let mut routes = routes_of(alloc, &[(b"g.a.a", 1), (address.as_slice(), 2)])?;
    let copied = copy_of(alloc, &routes)?;
    expect_only_in_copy(&rt, alloc, &mut routes, &copied, &address);
    Ok(())
}

// The routes that the two sides change, each in its own way.
static BEFORE: [(&[u8], PeerNo); 5] = [
    (b"g", 1),
    (b"g.a", 2),
    (b"g.a.b.c", 3),
    (b"g.a.d", 4),
    (b"test", 5),
];

// A destination, and its peer in the original, in the copy, and in a copy of the copy that nobody changed.
type Told = (
    &'static [u8],
    Option<PeerNo>,
    Option<PeerNo>,
    Option<PeerNo>,
);

static TOLD: [Told; 7] = [
    (b"g.a.b.c.e.x", Some(6), Some(8), Some(3)),
    (b"g.a.b.c.x", Some(6), Some(3), Some(3)),
    (b"g.a.b.x", Some(6), Some(1), Some(2)),
    (b"g.a.d.x", Some(4), Some(1), Some(4)),
    (b"g.x", Some(1), Some(1), Some(1)),
    (b"test.x", Some(7), Some(5), Some(5)),
    (b"private.x", Some(7), None, None),
];

fn change_original(rt: &impl Abort, alloc: Global, routes: &mut Routes) {
    expect_remove(rt, alloc, routes, b"g.a.b.c", Ok(()));
    expect_add(rt, alloc, routes, b"g.a.b", 6, Ok(()));
    expect_add(rt, alloc, routes, b"", 7, Ok(()));
    expect_remove(rt, alloc, routes, b"test", Ok(()));
    expect_remove(rt, alloc, routes, b"g.a.b.c", Err(RouteFault::Absent));
    assert!(rt; routes.len() == 5);
}

fn change_copy(rt: &impl Abort, alloc: Global, routes: &mut Routes) {
    expect_remove(rt, alloc, routes, b"g.a", Ok(()));
    expect_add(rt, alloc, routes, b"g.a.b.c.e", 8, Ok(()));
    expect_remove(rt, alloc, routes, b"g.a.d", Ok(()));
    expect_add(rt, alloc, routes, b"g.a.b.c", 9, Err(RouteFault::Present));
    assert!(rt; routes.len() == 4);
}

fn expect_told(rt: &impl Abort, routes: &Routes, copied: &Routes, kept: &Routes, rows: &[Told]) {
    for (destination, here, there, before) in rows {
        expect_peer(rt, routes, destination, *here);
        expect_peer(rt, copied, destination, *there);
        expect_peer(rt, kept, destination, *before);
    }
}

fn expect_changed_apart(
    rt: &impl Abort,
    alloc: Global,
    routes: &mut Routes,
    copied: &mut Routes,
    kept: &Routes,
) {
    change_original(rt, alloc, routes);
    change_copy(rt, alloc, copied);
    expect_told(rt, routes, copied, kept, &TOLD);
    assert!(rt; routes.names_peer(6) && !copied.names_peer(6) && !kept.names_peer(6));
    assert!(rt; !routes.names_peer(3) && copied.names_peer(3) && kept.names_peer(3));
}

#[test]
fn each_copy_as_it_was_told(rt: HostRuntime) -> Result<(), Fail> {
    let alloc = rt.alloc();
    let mut routes = routes_of(alloc, &BEFORE)?;
    let mut copied = copy_of(alloc, &routes)?;
    let kept = copy_of(alloc, &copied)?;
    expect_changed_apart(&rt, alloc, &mut routes, &mut copied, &kept);
    Ok(())
}

// The places of many routes' prefixes in the trie.
#[derive(Clone, Copy)]
enum Shape {
    BelowOneNode,
    Spread,
}

fn push_numbered(alloc: Global, bytes: &mut Vec<u8>, text: &[u8], number: u16) -> Result<(), Fail> {
    let digits = number.to_string(alloc)?;
    bytes.extend_from_slice(text)?;
    bytes.extend_from_slice(digits.as_bytes())?;
    Ok(())
}

fn push_spread(alloc: Global, bytes: &mut Vec<u8>, n: u16) -> Result<(), Fail> {
    push_numbered(alloc, bytes, b"g.a", n / 256)?;
    push_numbered(alloc, bytes, b".b", n / 16 % 16)?;
    push_numbered(alloc, bytes, b".c", n % 16)
}

fn numbered(alloc: Global, shape: Shape, n: u16) -> Result<Vec<u8>, Fail> {
    let mut bytes = Vec::new(alloc);
    match shape {
        Shape::BelowOneNode => push_numbered(alloc, &mut bytes, b"g.acme.r", n)?,
        Shape::Spread => push_spread(alloc, &mut bytes, n)?,
    }
    Ok(bytes)
}

// Whom what lies below the prefix goes to.
fn expect_below(
    rt: &impl Abort,
    alloc: Global,
    routes: &Routes,
    prefix: &[u8],
    wanted: Option<PeerNo>,
) -> Result<(), Fail> {
    let mut destination = Vec::from_slice(alloc, prefix)?;
    destination.extend_from_slice(b".x.y")?;
    expect_peer(rt, routes, &destination, wanted);
    Ok(())
}

fn expect_all_added(
    rt: &impl Abort,
    alloc: Global,
    routes: &mut Routes,
    shape: Shape,
) -> Result<(), Fail> {
    for n in 0..4096 {
        let bytes = numbered(alloc, shape, n)?;
        expect_add(rt, alloc, routes, &bytes, n, Ok(()));
    }
    expect_add(rt, alloc, routes, b"test.x", 1, Err(RouteFault::Full));
    Ok(())
}

fn expect_all_found(
    rt: &impl Abort,
    alloc: Global,
    routes: &Routes,
    shape: Shape,
) -> Result<(), Fail> {
    for n in 0..4096 {
        let bytes = numbered(alloc, shape, n)?;
        expect_below(rt, alloc, routes, &bytes, Some(n))?;
    }
    Ok(())
}

fn expect_all_removed(
    rt: &impl Abort,
    alloc: Global,
    routes: &mut Routes,
    shape: Shape,
) -> Result<(), Fail> {
    // 2,731 and 4,096 have no common divisor, so each number comes once.
    for n in 0..4096u32 {
        let bytes = numbered(alloc, shape, (n * 2731 % 4096) as u16)?;
        expect_remove(rt, alloc, routes, &bytes, Ok(()));
        expect_below(rt, alloc, routes, &bytes, None)?;
    }
    assert!(rt; routes.is_empty());
    Ok(())
}

fn expect_room(
    rt: &impl Abort,
    alloc: Global,
    routes: &mut Routes,
    shape: Shape,
) -> Result<(), Fail> {
    expect_all_added(rt, alloc, routes, shape)?;
    expect_all_found(rt, alloc, routes, shape)?;
    expect_all_removed(rt, alloc, routes, shape)
}

#[test]
fn as_many_routes_as_there_may_be(rt: HostRuntime) -> Result<(), Fail> {
    let alloc = rt.alloc();
    for shape in [Shape::BelowOneNode, Shape::Spread] {
        let mut routes = Routes::new(alloc);
        expect_room(&rt, alloc, &mut routes, shape)?;
    }
    Ok(())
}
