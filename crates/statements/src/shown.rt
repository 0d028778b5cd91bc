//! Where a text is not good, for people: which line, and what the rules lead to there. No clause says which line is
//! shown.

ghost use Rattle.std.specs.Prelude.{IfOk};
ghost use Rattle.statements.specs.Due.{opening_due};
ghost use Rattle.statements.specs.Statement.{IsNextHead};

use crate::chain::{Chain, ChainFault, present};
use crate::checked::{StatementFault, first_difference, gone_over};
use crate::put::{put_number, put_prefix, put_signed, put_terms, put_word};
use crate::words::Lines;
use crate::written::{write_head, write_statement};
use common_types::{ReadError, first_word};
use route_table::Route;
use std::alloc::{AllocError, Global};
use tenant_core::{Network, Peer, PeerNo, RateTerms, TenantSetup, TenantTerms};

/// The most lines before the records.
const HEAD_LINES: usize = 3 + 256 + 4_096 + 4_096;

/// The line of that number, counted from 1, without its line feed; `None` if there are not so many.
pub fn line_at(text: &[u8], line: usize) -> Option<&[u8]> {
    text.split(|byte| *byte == b'\n').nth(line.checked_sub(1)?)
}

fn is_of_head(line: &[u8]) -> bool {
    let (verb, _) = first_word(line);
    verb == b"peer".as_slice() || verb == b"route".as_slice() || verb == b"rate".as_slice()
}

// How many lines come before the records: those of the version, the tenant and the period, and its peers, routes and
// rates.
fn head_lines(text: &[u8]) -> usize {
    let mut lines = Lines::of(text);
    let mut count: usize = 0;
    for place in 0..HEAD_LINES {
        match lines.next() {
            Some(line) if place < 3 || is_of_head(line) => count = place.saturating_add(1),
            _ => break,
        }
    }
    count
}

/// The line that a fault of a text is about, counted from 1, if it is about one.
pub fn line_of(text: &[u8], fault: ChainFault) -> Option<usize> {
    match fault {
        ChainFault::Apart(line)
        | ChainFault::Unlike(line)
        | ChainFault::Statement(StatementFault::Differs(line)) => Some(line),
        ChainFault::Statement(StatementFault::Entry(place) | StatementFault::Refused(place)) => {
            Some(head_lines(text).saturating_add(place).saturating_add(1))
        }
        _ => None,
    }
}

/// The text that the rules lead to, from the opening and the entries of a text on. If they lead to none, the fault is
/// that of the text.
pub fn ruled(alloc: Global, text: &[u8]) -> Result<Vec<u8>, ReadError<StatementFault>> {
    Ok(write_statement(alloc, &gone_over(alloc, text)?.period)?)
}

// The place of the peer of that number.
fn place_of(network: &Network, number: PeerNo) -> u64 {
    network.place_numbered(number).unwrap_or(0) as u64
}

fn put_peer(out: &mut Vec<u8>, place: usize, peer: &Peer) -> Result<(), AllocError> {
    out.extend_from_slice(b"peer")?;
    put_number(out, place as u64)?;
    put_terms(out, &peer.terms)?;
    put_signed(out, peer.balance.get())?;
    out.extend_from_slice(b"\n")
}

fn put_route(out: &mut Vec<u8>, network: &Network, route: &Route) -> Result<(), AllocError> {
    out.extend_from_slice(b"route")?;
    put_prefix(out, &route.prefix)?;
    put_number(out, place_of(network, route.hop.peer))?;
    put_number(out, route.hop.fee.get())?;
    out.extend_from_slice(b"\n")
}

fn put_rate(out: &mut Vec<u8>, network: &Network, rate: &RateTerms) -> Result<(), AllocError> {
    out.extend_from_slice(b"rate")?;
    put_number(out, place_of(network, rate.from))?;
    put_number(out, place_of(network, rate.to))?;
    put_number(out, rate.rate.numerator())?;
    put_number(out, rate.rate.denominator())?;
    out.extend_from_slice(b"\n")
}

fn put_tenant(out: &mut Vec<u8>, terms: &TenantTerms) -> Result<(), AllocError> {
    out.extend_from_slice(b"tenant")?;
    put_word(out, terms.name.as_bytes())?;
    put_word(out, terms.address.as_bytes())?;
    put_number(out, terms.journal)?;
    put_number(out, terms.margin)?;
    put_number(out, terms.hold)?;
    out.extend_from_slice(b"\n")
}

// What a setup says of a tenant, in the words of a statement: peers by their places, and nothing of their buckets.
fn setup_text(alloc: Global, terms: &TenantTerms) -> Result<Vec<u8>, AllocError> {
    let network = &terms.network;
    let mut out = Vec::new(alloc);
    put_tenant(&mut out, terms)?;
    for (place, peer) in network.peers().iter().enumerate() {
        put_peer(&mut out, place, peer)?;
    }
    for route in &network.routes().list(alloc)? {
        put_route(&mut out, network, route)?;
    }
    for rate in network.rates() {
        put_rate(&mut out, network, rate)?;
    }
    Ok(out)
}

/// The first line in which a setup differs from what was due of a tenant, in the words of a statement: as it is, and
/// as it has to be. Empty if there is no such line on one side.
#[derive(Drop)]
pub struct SetupLines {
    pub said: Vec<u8>,
    pub due: Vec<u8>,
}

fn line_in(alloc: Global, text: &[u8], line: usize) -> Result<Vec<u8>, AllocError> {
    Vec::from_slice(alloc, line_at(text, line).unwrap_or(&[]))
}

// The lines in which what a setup says of a tenant differs from what is due.
fn first_differing(
    alloc: Global,
    said: &TenantTerms,
    due: &TenantTerms,
) -> Result<SetupLines, AllocError> {
    let said = setup_text(alloc, said)?;
    let due = setup_text(alloc, due)?;
    let line = first_difference(said.as_slice(), due.as_slice());
    Ok(SetupLines {
        said: line_in(alloc, said.as_slice(), line)?,
        due: line_in(alloc, due.as_slice(), line)?,
    })
}

impl Chain {
    /// How the next statement must begin: all that comes before its records; empty if nothing came before it. Fails
    /// only if it is out of memory.
    pub fn next_head(&self, alloc: Global) -> Result<Vec<u8>, AllocError>
        ensures { IfOk result (λ text. IsNextHead (opening_due self.now.due) text.items) }
    {
        match self.opening_due() {
            Some(opening) => write_head(alloc, opening),
            None => Ok(Vec::new(alloc)),
        }
    }

    /// The lines in which a setup differs from what is due of the tenant. `None` if nothing is due, or if what is due
    /// cannot be made into a setup. It fails only if it is out of memory for the lines.
    pub fn differing_lines(
        &self,
        alloc: Global,
        setup: &TenantSetup,
    ) -> Result<Option<SetupLines>, AllocError> {
        let Some(opening) = self.opening_due() else {
            return Ok(None);
        };
        let said = setup.terms();
        match present(alloc, opening, said.admin.copy()) {
            Ok(due) => Ok(Some(first_differing(alloc, said, due.terms())?)),
            Err(_) => Ok(None),
        }
    }
}
