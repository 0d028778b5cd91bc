//! Books of two peers: what is agreed with them, what they are asked, and a closed period.

use common_types::{AssetCode, Between, Name, Token};
use ilp_addr::{Address, Moment, OwnAddress, Prefix, Target};
use money_core::Rate;
use std::alloc::Global;
use std::test::Fail;
use tenant_core::{
    AnswerKey, Answered, Balance, Book, BookFault, BucketTerms, Command, CommandFault, Expiry, Fee,
    HoldFault, Hop, Level, Network, Order, PeerLimits, PeerTerms, Period, PrepareKey, RateTerms,
    Role, TenantSetup, TenantTerms, Verdict, number_named,
};

/// 2030-01-01T00:00:00Z.
pub const START: u64 = 1_893_456_000_000;

/// What the rows vary of what is agreed with each peer.
#[derive(Clone, Copy)]
pub struct Agreed {
    pub cap: u64,
    pub ceiling: u64,
    pub credit: u64,
    pub burst: u64,
    pub per_second: u64,
    pub rate: (u64, u64),
}

/// What most rows agree.
pub const USUAL: Agreed = Agreed {
    cap: 1_500,
    ceiling: 1_000_000,
    credit: 1_000_000,
    burst: 100,
    per_second: 100,
    rate: (3, 2),
};

/// The name of these bytes.
pub fn name(bytes: &[u8]) -> Result<Name, Fail> {
    Ok(Name::new(bytes).ok_or("a name")?)
}

/// The token of these bytes.
pub fn token(bytes: &[u8]) -> Result<Token, Fail> {
    Ok(Token::new(bytes).ok_or("a token")?)
}

/// That number, within its limits.
pub fn number<const LOW: u64, const HIGH: u64>(n: u64) -> Result<Between<LOW, HIGH>, Fail> {
    Ok(Between::new(n).ok_or("a number within limits")?)
}

/// What is agreed with the peer of that number: p0, p1 and so on, with tokens by the same names.
pub fn terms(alloc: Global, place: u32, agreed: Agreed) -> Result<PeerTerms, Fail> {
    let called = format!(in alloc; "p{place}")?;
    Ok(PeerTerms {
        name: name(called.as_bytes())?,
        role: Role::Peer,
        token: token(called.as_bytes())?,
        target: Target::new(b"http://127.0.0.1:7801/ilp", b"out").ok_or("a target")?,
        asset: AssetCode::new(b"USD").ok_or("an asset")?,
        scale: 2,
        limits: PeerLimits {
            cap: number(agreed.cap)?,
            ceiling: number(agreed.ceiling)?,
            credit: number(agreed.credit)?,
        },
        bucket: BucketTerms {
            burst: number(agreed.burst)?,
            per_second: number(agreed.per_second)?,
        },
    })
}

// The level that a book gives a new bucket itself.
const FULL: Level = Level {
    credit: 0,
    clock: 0,
    entries: 0,
};

/// Adds the peer of that number, who owes nothing.
pub fn add_peer(
    alloc: Global,
    network: &mut Network,
    place: u32,
    agreed: Agreed,
) -> Result<Result<(), CommandFault>, Fail> {
    Ok(network.add_peer(terms(alloc, place, agreed)?, Balance::zero(), FULL))
}

/// The name of the peer of that number.
pub fn called(alloc: Global, place: u32) -> Result<Name, Fail> {
    let called = format!(in alloc; "p{place}")?;
    name(called.as_bytes())
}

// A rate between two peers of the network.
fn set_rate_between(
    network: &mut Network,
    from: &Name,
    to: &Name,
    rate: Rate,
) -> Result<Result<(), CommandFault>, Fail> {
    let from = number_named(network, from).ok_or("the first peer")?;
    let to = number_named(network, to).ok_or("the second peer")?;
    if from == to {
        return Err(Fail::from("two peers"));
    }
    Ok(network.set_rate(&RateTerms { from, to, rate }))
}

/// A rate between the peers of these numbers.
pub fn set_rate(
    alloc: Global,
    network: &mut Network,
    from: u32,
    to: u32,
    rate: (u64, u64),
) -> Result<Result<(), CommandFault>, Fail> {
    let from = called(alloc, from)?;
    let to = called(alloc, to)?;
    set_rate_between(network, &from, &to, Rate::new(rate.0, rate.1)?)
}

/// A route to a peer of the network.
pub fn add_route_to(
    network: &mut Network,
    prefix: Prefix,
    to: &Name,
    fee: Fee,
) -> Result<Result<(), CommandFault>, Fail> {
    match number_named(network, to) {
        Some(peer) => Ok(network.add_route(prefix, Hop { peer, fee })),
        None => Err(Fail::from("the peer of the route")),
    }
}

/// A route without a fee to a peer of the network.
pub fn add_route(
    alloc: Global,
    network: &mut Network,
    prefix: &[u8],
    to: &[u8],
) -> Result<Result<(), CommandFault>, Fail> {
    let to = name(to)?;
    let fee = number(0)?;
    add_route_to(network, Prefix::parse(alloc, prefix)?, &to, fee)
}

fn agree(alloc: Global, network: &mut Network, agreed: Agreed, peers: u32) -> Result<(), Fail> {
    for place in 0..peers {
        add_peer(alloc, network, place, agreed)??;
    }
    add_route(alloc, network, b"g.acme.bob", b"p1")??;
    set_rate(alloc, network, 0, 1, agreed.rate)??;
    Ok(())
}

/// p0, p1 and so on, with a route for g.acme.bob to p1, and a rate from p0 to p1.
pub fn network(alloc: Global, agreed: Agreed, peers: u32) -> Result<Network, Fail> {
    let mut network = Network::new(alloc);
    agree(alloc, &mut network, agreed, peers)?;
    Ok(network)
}

// The tenant's name, its address and the token of its orders.
fn named() -> Result<(Name, OwnAddress, Token), Fail> {
    let address = OwnAddress::new(b"g.acme").ok_or("an address")?;
    Ok((name(b"acme")?, address, token(b"root-a")?))
}

/// A tenant with that network.
pub fn tenant_of(
    journal: u64,
    margin: u64,
    hold: u64,
    network: Network,
) -> Result<Option<TenantSetup>, Fail> {
    let (name, address, admin) = named()?;
    Ok(TenantSetup::new(TenantTerms {
        name,
        address,
        admin,
        journal,
        margin,
        hold,
        network,
    }))
}

/// A tenant of two peers.
pub fn tenant(
    alloc: Global,
    journal: u64,
    margin: u64,
    hold: u64,
    agreed: Agreed,
) -> Result<Option<TenantSetup>, Fail> {
    tenant_of(journal, margin, hold, network(alloc, agreed, 2)?)
}

/// The moment of so many milliseconds.
pub fn moment(millis: u64) -> Result<Moment, Fail> {
    Ok(Moment::new(millis).ok_or("a moment")?)
}

/// The book of the tenant of that number.
pub fn begun(
    alloc: Global,
    number: usize,
    setup: &TenantSetup,
    start: Moment,
) -> Result<Book, Fail> {
    if number >= 64 {
        return Err(Fail::from("a tenant"));
    }
    Ok(Book::new(alloc, number, setup, start)?)
}

/// The setup of a tenant of two peers, with so many places in its journal.
pub fn setup_of(alloc: Global, journal: u64, agreed: Agreed) -> Result<TenantSetup, Fail> {
    let setup = tenant(alloc, journal, 1_000, 30_000, agreed)?;
    Ok(setup.ok_or("a setup")?)
}

/// The first book of such a tenant.
pub fn book(alloc: Global, journal: u64, agreed: Agreed, start: u64) -> Result<Book, Fail> {
    let start = moment(start)?;
    let setup = setup_of(alloc, journal, agreed)?;
    begun(alloc, 0, &setup, start)
}

/// What is owed by p0 and p1, and what is held from p0 and for p1.
pub fn owed_and_held(book: &Book) -> Result<(i64, i64, u64, u64), Fail> {
    let sender = book.balance(0).ok_or("p0")?;
    let receiver = book.balance(1).ok_or("p1")?;
    Ok((
        sender.balance,
        receiver.balance,
        sender.held_in,
        receiver.held_out,
    ))
}

/// The SHA-256 of 32 zero bytes, which is the condition that 32 zero bytes fulfill.
pub const CONDITION: [u8; 32] = [
    0x66, 0x68, 0x7a, 0xad, 0xf8, 0x62, 0xbd, 0x77, 0x6c, 0x8f, 0xc1, 0x8b, 0x8e, 0x9f, 0x8e, 0x20,
    0x08, 0x97, 0x14, 0x85, 0x6e, 0xe2, 0x33, 0xb3, 0x90, 0x2a, 0x59, 0x1d, 0x0d, 0x5f, 0x29, 0x25,
];

/// A packet of 1,000 from p0 to p1.
pub fn send(book: &mut Book, now: u64) -> Result<Verdict, Fail> {
    let destination = Address::parse(b"g.acme.bob.x")?;
    let key = PrepareKey {
        amount: 1_000,
        expiry: Expiry::new(START + 30_000).ok_or("an expiry")?,
        condition: &CONDITION,
        destination: &destination,
    };
    let now = moment(now)?;
    Ok(book.decide(b"p0", &key, now))
}

/// The answer for a hold.
pub fn answer(
    book: &mut Book,
    hold: u64,
    now: u64,
    key: AnswerKey,
) -> Result<Result<Verdict, HoldFault>, Fail> {
    let now = moment(now)?;
    Ok(book.answer(hold, now, key))
}

/// A moment at which nothing else happens.
pub fn tick(book: &mut Book, now: u64) -> Result<Result<u32, BookFault>, Fail> {
    let now = moment(now)?;
    Ok(book.tick(now))
}

/// A command to close the period, a millisecond after the start.
pub fn roll(alloc: Global, book: &mut Book) -> Result<Result<Answered, CommandFault>, Fail> {
    let now = moment(START + 1)?;
    Ok(book.command(alloc, &Command::Roll, now))
}

/// The period that it closes.
pub fn closed(alloc: Global, book: &mut Book) -> Result<Period, Fail> {
    match roll(alloc, book)?? {
        Answered::Rolled(period) => Ok(period),
        Answered::Done | Answered::Balances(_) => Err(Fail::from("a period")),
    }
}

fn take_route(alloc: Global, book: &mut Book) -> Result<(), Fail> {
    let order = Order::RemoveRoute(Prefix::parse(alloc, b"g.acme.bob")?);
    let now = moment(START + 1)?;
    let _ = book.command(alloc, &Command::Order(order), now)?;
    Ok(())
}

fn enter_each(alloc: Global, book: &mut Book) -> Result<Period, Fail> {
    send(book, START)?;
    answer(book, 0, START + 1, AnswerKey::Rejected)?.ok();
    tick(book, START + 1)?.ok();
    take_route(alloc, book)?;
    closed(alloc, book)
}

/// A period in which each kind of entry came once: a packet of 1,000 that goes on for 1,500 and is rejected a millisecond later, a
/// moment, a route that is taken away, and the roll.
pub fn period_of_each(alloc: Global) -> Result<Period, Fail> {
    let mut book = book(alloc, 8, USUAL, START)?;
    enter_each(alloc, &mut book)
}
