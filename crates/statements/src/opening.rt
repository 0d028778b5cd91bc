//! What a period begins with, as it is taken off lines.

ghost use Rattle.std.specs.Prelude.{◌≡◌, IfOk};
ghost use Rattle.statements.specs.ReadOpening.{amount_spelled, balance_spelled, peer_read, route_read, start_read, tenant_read};

use crate::checked::StatementFault;
use crate::terms::{hop_in, prefix_in, rate_in, terms_in};
use crate::words::{LineWords, Lines};
use common_types::{Name, ReadError, number_in};
use ilp_addr::OwnAddress;
use route_table::Route;
use std::alloc::{AllocError, Global};
use tenant_core::{Balance, CommandFault, Level, Money, Network, Opening, PeerNo, PeerTerms};

type Read<T> = Result<T, ReadError<StatementFault>>;

/// The most lines of peers, routes and rates.
const MOST_LINES: usize = 256 + 4_096 + 4_096;

const BAD: ReadError<StatementFault> = ReadError::Fault(StatementFault::Opening);

fn amount_in(digits: &[u8]) -> Option<Money>
    ensures { result ≡ amount_spelled digits.now }
{
    number_in(digits).ok()
}

// A balance: digits, after a `-` where it is below 0.
#[tactic(auto, unfolding(crate::specs::ReadOpening::balance_spelled))]
fn balance_in(word: &[u8]) -> Option<Balance>
    ensures { result ≡ balance_spelled word.now }
{
    match word {
        [] => None,
        [b'-', digits @ ..] => Balance::new(-(amount_in(digits)?.get() as i64)),
        digits => Balance::new(amount_in(digits)?.get() as i64),
    }
}

#[derive(Drop)]
struct StatedPeer {
    number: PeerNo,
    terms: PeerTerms,
    balance: Balance,
    credit: u64,
}

#[tactic(auto, unfolding(crate::specs::ReadOpening::peer_read))]
fn peer_in(words: &mut LineWords<'_>) -> Option<StatedPeer>
    ensures { result ≡ peer_read words.old }
{
    let number = words.peer()?;
    Some(StatedPeer {
        number,
        terms: terms_in(words, number)?,
        balance: balance_in(words.next()?)?,
        credit: words.number()?,
    })
}

fn refused(fault: CommandFault) -> ReadError<StatementFault> {
    match fault {
        CommandFault::Memory => ReadError::Memory,
        _ => BAD,
    }
}

fn add_peer(network: &mut Network, clock: u64, words: &mut LineWords<'_>) -> Read<()> {
    let peer = peer_in(words).ok_or(BAD)?;
    if !network.skip_to(peer.number) {
        return Err(BAD);
    }
    let level = Level {
        credit: peer.credit,
        clock,
        entries: 0,
    };
    network
        .add_peer(peer.terms, peer.balance, level)
        .map_err(refused)
}

#[tactic(auto, unfolding(crate::specs::ReadOpening::route_read))]
fn route_in(alloc: Global, words: &mut LineWords<'_>) -> Result<Option<Route>, AllocError>
    ensures { IfOk result (λ route. route ≡ route_read words.old) }
{
    let Some(word) = words.next() else {
        return Ok(None);
    };
    match (prefix_in(alloc, word)?, hop_in(words)) {
        (Some(prefix), Some(hop)) => Ok(Some(Route { prefix, hop })),
        _ => Ok(None),
    }
}

fn add_route(alloc: Global, network: &mut Network, words: &mut LineWords<'_>) -> Read<()> {
    let Route { prefix, hop } = route_in(alloc, words)?.ok_or(BAD)?;
    if network.place_numbered(hop.peer).is_none() {
        return Err(BAD);
    }
    network.add_route(prefix, hop).map_err(refused)
}

fn set_rate(network: &mut Network, words: &mut LineWords<'_>) -> Read<()> {
    let rate = rate_in(words).ok_or(BAD)?;
    if rate.from == rate.to
        || network.place_numbered(rate.from).is_none()
        || network.place_numbered(rate.to).is_none()
    {
        return Err(BAD);
    }
    network.set_rate(&rate).map_err(refused)
}

// Adds a line of the network; `false` if it is no such line.
fn add_line(alloc: Global, network: &mut Network, clock: u64, line: &[u8]) -> Read<bool> {
    let mut words = LineWords::of(line);
    let verb = words.next().ok_or(BAD)?;
    if verb == b"peer".as_slice() {
        add_peer(network, clock, &mut words)?;
    } else if verb == b"route".as_slice() {
        add_route(alloc, network, &mut words)?;
    } else if verb == b"rate".as_slice() {
        set_rate(network, &mut words)?;
    } else {
        return Ok(false);
    }
    Ok(true)
}

// The network of a period that begins at that clock. The line after it is left.
fn network_in(alloc: Global, clock: u64, lines: &mut Lines<'_>) -> Read<Network> {
    let mut network = Network::new(alloc);
    for _ in 0..=MOST_LINES {
        let before = *lines;
        let line = lines.next().ok_or(BAD)?;
        if !add_line(alloc, &mut network, clock, line)? {
            *lines = before;
            break;
        }
    }
    Ok(network)
}

/// The tenant's own terms.
#[derive(Drop)]
struct StatedTenant {
    tenant: usize,
    name: Name,
    address: OwnAddress,
    journal: u64,
    margin: u64,
    hold: u64,
}

#[tactic(auto, unfolding(crate::specs::ReadOpening::tenant_read))]
fn tenant_in(words: &mut LineWords<'_>) -> Option<StatedTenant>
    ensures { result ≡ tenant_read words.old }
{
    words.next()?;
    Some(StatedTenant {
        tenant: words.number()? as usize,
        name: Name::new(words.next()?)?,
        address: OwnAddress::new(words.next()?)?,
        journal: words.number()?,
        margin: words.number()?,
        hold: words.number()?,
    })
}

/// Where the period's numbers begin.
#[derive(Drop)]
struct StatedStart {
    period: u64,
    clock: u64,
    next_hold: u64,
    next_peer: PeerNo,
}

#[tactic(auto, unfolding(crate::specs::ReadOpening::start_read))]
fn start_in(words: &mut LineWords<'_>) -> Option<StatedStart>
    ensures { result ≡ start_read words.old }
{
    words.next()?;
    Some(StatedStart {
        period: words.number()?,
        clock: words.number()?,
        next_hold: words.number()?,
        next_peer: words.peer()?,
    })
}

fn next_words<'a>(lines: &mut Lines<'a>) -> Read<LineWords<'a>> {
    Ok(LineWords::of(lines.next().ok_or(BAD)?))
}

/// The opening that lines begin with, after the line of the version.
pub fn opening_in(alloc: Global, lines: &mut Lines<'_>) -> Read<Opening> {
    lines.next().ok_or(BAD)?;
    let tenant = tenant_in(&mut next_words(lines)?).ok_or(BAD)?;
    let start = start_in(&mut next_words(lines)?).ok_or(BAD)?;
    let mut network = network_in(alloc, start.clock, lines)?;
    if !network.skip_to(start.next_peer) {
        return Err(BAD);
    }
    Ok(Opening {
        tenant: tenant.tenant,
        name: tenant.name,
        address: tenant.address,
        journal: tenant.journal,
        margin: tenant.margin,
        hold: tenant.hold,
        period: start.period,
        clock: start.clock,
        next_hold: start.next_hold,
        network,
    })
}
