//! Statements, as they are written.

ghost use Rattle.std.specs.Prelude.{◌≡◌, ◌++◌, IfOk, OnOk, Some};
ghost use Rattle.std.specs.List.{flat_map, slice_get};
ghost use Rattle.statements.specs.Statement.{spaced, decide_words, entry_words, record_line, tenant_line, period_line, peer_line, route_line, rate_line};
ghost use Rattle.statements.specs.Statement.{tenant_words, period_words, peer_words};
ghost use Rattle.statements.specs.Statement.{opening_text, version_line, head_text, ending_text, statement_text, IsHead, IsStatement};
ghost use Rattle.tenant_core.specs.State.{entered_at};
ghost use Rattle.tenant_core.specs.declared.journal.Record.{Record};
ghost use Rattle.tenant_core.specs.Views.{decide_of, entry_of, record_of};

use crate::put::{
    put_answer, put_change, put_decimal, put_hash, put_hop, put_number, put_outcome, put_rate,
    put_signed, put_terms, put_word,
};
use route_table::Route;
use std::alloc::{AllocError, Global};
use tenant_core::{
    DecideEntry, DecideView, Entry, EntryView, Opening, Peer, Period, RateTerms, RecordView,
    Records,
};

fn decide_view(decide: &DecideEntry) -> DecideView<'_>
    ensures { decide_of result ≡ decide.entry.now }
{
    DecideView {
        peer: decide.peer,
        amount: decide.amount,
        expiry: decide.expiry,
        condition: &decide.condition,
        destination: decide.destination.as_slice(),
        now: decide.now,
    }
}

/// An entry, as a journal would lend it.
pub fn view_of(entry: &Entry) -> EntryView<'_>
    ensures { entry_of result ≡ entry.now }
{
    match entry {
        Entry::Decide(decide) => EntryView::Decide(decide_view(decide)),
        Entry::Answer(answer) => EntryView::Answer(answer),
        Entry::Tick(tick) => EntryView::Tick(*tick),
        Entry::Change(change) => EntryView::Change(change),
        Entry::Roll(roll) => EntryView::Roll(*roll),
    }
}

#[tactic(auto, unfolding(crate::specs::Statement::decide_words))]
fn put_decide(out: &mut Vec<u8>, decide: &DecideView<'_>) -> Result<(), AllocError>
    ensures { OnOk result (out.new.items ≡ out.old.items ++ spaced (decide_words (decide_of decide.entry.now))) }
{
    out.extend_from_slice(b" prepare")?;
    put_number(out, decide.peer as u64)?;
    put_number(out, decide.amount)?;
    put_number(out, decide.expiry)?;
    put_hash(out, decide.condition)?;
    put_word(out, decide.destination)
}

fn put_entry(out: &mut Vec<u8>, entry: &EntryView<'_>) -> Result<(), AllocError>
    ensures { OnOk result (out.new.items ≡ out.old.items ++ spaced (entry_words (entry_of entry.now))) }
{
    match entry {
        EntryView::Decide(decide) => put_decide(out, decide),
        EntryView::Answer(answer) => put_answer(out, answer.hold, &answer.key),
        EntryView::Tick(_) => out.extend_from_slice(b" tick"),
        EntryView::Change(entry) => put_change(out, &entry.change),
        EntryView::Roll(_) => out.extend_from_slice(b" roll"),
    }
}

fn moment_of(entry: &EntryView<'_>) -> u64
    ensures { result ≡ entered_at (entry_of entry.now) }
{
    match entry {
        EntryView::Decide(decide) => decide.now,
        EntryView::Answer(answer) => answer.now,
        EntryView::Tick(tick) => tick.now,
        EntryView::Change(entry) => entry.now,
        EntryView::Roll(roll) => roll.now,
    }
}

/// Appends the line of a record to a text. Fails only if it is out of memory.
#[tactic(auto, unfolding(crate::specs::Statement::record_line))]
pub fn put_record(out: &mut Vec<u8>, view: &RecordView<'_>) -> Result<(), AllocError>
    ensures { OnOk result (out.new.items ≡ out.old.items ++ record_line (record_of view.now)) }
{
    put_decimal(out, moment_of(&view.entry))?;
    put_entry(out, &view.entry)?;
    put_outcome(out, view.outcome)?;
    Ok(out.push(b'\n')?)
}

fn put_record_at(out: &mut Vec<u8>, records: &Records, place: usize) -> Result<(), AllocError>
    ensures { OnOk result ((r : Record) → slice_get records.now place ≡ Some r → out.new.items ≡ out.old.items ++ record_line r) }
{
    match records.get(place) {
        Some(record) => put_record(out, &record),
        None => Ok(()),
    }
}

fn put_records(out: &mut Vec<u8>, records: &Records) -> Result<(), AllocError>
    ensures { OnOk result (out.new.items ≡ out.old.items ++ flat_map record_line records.now) }
{
    for place in 0..records.len() {
        put_record_at(out, records, place)?;
    }
    Ok(())
}

#[tactic(auto, unfolding(crate::specs::Statement::tenant_words))]
fn put_tenant_words(out: &mut Vec<u8>, opening: &Opening) -> Result<(), AllocError>
    ensures { OnOk result (out.new.items ≡ out.old.items ++ spaced (tenant_words opening.now)) }
{
    put_number(out, opening.tenant as u64)?;
    put_word(out, opening.name.as_bytes())?;
    put_word(out, opening.address.as_bytes())?;
    put_number(out, opening.journal)?;
    put_number(out, opening.margin)?;
    put_number(out, opening.hold)
}

#[tactic(auto, unfolding(crate::specs::Statement::tenant_line))]
fn put_tenant(out: &mut Vec<u8>, opening: &Opening) -> Result<(), AllocError>
    ensures { OnOk result (out.new.items ≡ out.old.items ++ tenant_line opening.now) }
{
    out.extend_from_slice(b"tenant")?;
    put_tenant_words(out, opening)?;
    Ok(out.push(b'\n')?)
}

#[tactic(auto, unfolding(crate::specs::Statement::period_words))]
fn put_period_words(out: &mut Vec<u8>, opening: &Opening) -> Result<(), AllocError>
    ensures { OnOk result (out.new.items ≡ out.old.items ++ spaced (period_words opening.now)) }
{
    put_number(out, opening.period)?;
    put_number(out, opening.clock)?;
    put_number(out, opening.next_hold)?;
    put_number(out, opening.network.next_peer() as u64)
}

#[tactic(auto, unfolding(crate::specs::Statement::period_line))]
fn put_period(out: &mut Vec<u8>, opening: &Opening) -> Result<(), AllocError>
    ensures { OnOk result (out.new.items ≡ out.old.items ++ period_line opening.now) }
{
    out.extend_from_slice(b"period")?;
    put_period_words(out, opening)?;
    Ok(out.push(b'\n')?)
}

#[tactic(auto, unfolding(crate::specs::Statement::peer_words))]
fn put_peer_words(out: &mut Vec<u8>, peer: &Peer) -> Result<(), AllocError>
    ensures { OnOk result (out.new.items ≡ out.old.items ++ spaced (peer_words peer.now)) }
{
    put_number(out, peer.number as u64)?;
    put_terms(out, &peer.terms)?;
    put_signed(out, peer.balance.get())?;
    put_number(out, peer.bucket.credit)
}

#[tactic(auto, unfolding(crate::specs::Statement::peer_line))]
fn put_peer(out: &mut Vec<u8>, peer: &Peer) -> Result<(), AllocError>
    ensures { OnOk result (out.new.items ≡ out.old.items ++ peer_line peer.now) }
{
    out.extend_from_slice(b"peer")?;
    put_peer_words(out, peer)?;
    Ok(out.push(b'\n')?)
}

fn put_peers(out: &mut Vec<u8>, peers: &[Peer]) -> Result<(), AllocError>
    ensures { OnOk result (out.new.items ≡ out.old.items ++ flat_map peer_line peers.now) }
{
    for peer in peers {
        put_peer(out, peer)?;
    }
    Ok(())
}

#[tactic(auto, unfolding(crate::specs::Statement::route_line))]
fn put_route(out: &mut Vec<u8>, route: &Route) -> Result<(), AllocError>
    ensures { OnOk result (out.new.items ≡ out.old.items ++ route_line route.now) }
{
    out.extend_from_slice(b"route")?;
    put_hop(out, &route.prefix, &route.hop)?;
    Ok(out.push(b'\n')?)
}

fn put_routes(out: &mut Vec<u8>, routes: &[Route]) -> Result<(), AllocError>
    ensures { OnOk result (out.new.items ≡ out.old.items ++ flat_map route_line routes.now) }
{
    for route in routes {
        put_route(out, route)?;
    }
    Ok(())
}

#[tactic(auto, unfolding(crate::specs::Statement::rate_line))]
fn put_rate_line(out: &mut Vec<u8>, rate: &RateTerms) -> Result<(), AllocError>
    ensures { OnOk result (out.new.items ≡ out.old.items ++ rate_line rate.now) }
{
    out.extend_from_slice(b"rate")?;
    put_rate(out, rate)?;
    Ok(out.push(b'\n')?)
}

fn put_rates(out: &mut Vec<u8>, rates: &[RateTerms]) -> Result<(), AllocError>
    ensures { OnOk result (out.new.items ≡ out.old.items ++ flat_map rate_line rates.now) }
{
    for rate in rates {
        put_rate_line(out, rate)?;
    }
    Ok(())
}

/// Appends the lines of an opening to a text, with these routes. Fails only if it is out of memory.
#[tactic(auto, unfolding(crate::specs::Statement::opening_text))]
pub fn put_opening(out: &mut Vec<u8>, routes: &[Route], opening: &Opening) -> Result<(), AllocError>
    ensures { OnOk result (out.new.items ≡ out.old.items ++ opening_text routes.now opening.now) }
{
    put_tenant(out, opening)?;
    put_period(out, opening)?;
    put_peers(out, opening.network.peers())?;
    put_routes(out, routes)?;
    put_rates(out, opening.network.rates())
}

#[tactic(auto, unfolding(crate::specs::Statement::version_line))]
fn put_version(out: &mut Vec<u8>) -> Result<(), AllocError>
    ensures { OnOk result (out.new.items ≡ out.old.items ++ version_line) }
{
    out.extend_from_slice(b"statement 1\n")
}

#[tactic(auto, unfolding(crate::specs::Statement::head_text))]
fn put_head(out: &mut Vec<u8>, routes: &[Route], opening: &Opening) -> Result<(), AllocError>
    ensures { OnOk result (out.new.items ≡ out.old.items ++ head_text routes.now opening.now) }
{
    put_version(out)?;
    put_opening(out, routes, opening)
}

#[tactic(auto, unfolding(crate::specs::Statement::ending_text))]
fn put_ending(out: &mut Vec<u8>, routes: &[Route], opening: &Opening) -> Result<(), AllocError>
    ensures { OnOk result (out.new.items ≡ out.old.items ++ ending_text routes.now opening.now) }
{
    out.extend_from_slice(b"ending\n")?;
    put_opening(out, routes, opening)
}

#[tactic(auto, unfolding(crate::specs::Statement::statement_text))]
fn put_statement(
    out: &mut Vec<u8>,
    routes: &[Route],
    next: &[Route],
    period: &Period,
) -> Result<(), AllocError>
    ensures { OnOk result (out.new.items ≡ out.old.items ++ statement_text routes.now next.now period.now) }
{
    put_head(out, routes, period.opening())?;
    put_records(out, period.records())?;
    put_ending(out, next, period.ending())
}

/// How a statement of a period with that opening begins: all that comes before its records. Fails only if it is out of
/// memory.
pub fn write_head(alloc: Global, opening: &Opening) -> Result<Vec<u8>, AllocError>
    ensures { IfOk result (λ text. IsHead text.items opening.now) }
{
    let routes = opening.network.routes().list(alloc)?;
    let mut out = Vec::new(alloc);
    put_head(&mut out, routes.as_slice(), opening)?;
    Ok(out)
}

/// The text of a closed period, in room for so many bytes, which grows if they are too few. Fails only if it is out of
/// memory.
pub fn written_in_room(alloc: Global, period: &Period, room: usize) -> Result<Vec<u8>, AllocError>
    ensures { IfOk result (λ text. IsStatement text.items period.now) }
{
    let routes = period.opening().network.routes().list(alloc)?;
    let next = period.ending().network.routes().list(alloc)?;
    let mut out = Vec::with_capacity(alloc, room)?;
    put_statement(&mut out, routes.as_slice(), next.as_slice(), period)?;
    Ok(out)
}

/// The text of a closed period. Fails only if it is out of memory.
pub fn write_statement(alloc: Global, period: &Period) -> Result<Vec<u8>, AllocError>
    ensures { IfOk result (λ text. IsStatement text.items period.now) }
{
    written_in_room(alloc, period, 0)
}
