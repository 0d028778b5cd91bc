//! That a line can hold the records of books, and that they are read back: what the types of their parts keep.

ghost use Rattle.std.specs.Prelude.{◌≡◌, drop, slice_index_or, true};
ghost use Rattle.std.specs.List.{All};
ghost use Rattle.book_journal.specs.Loggable.{HasAddress};
ghost use Rattle.book_journal.specs.Noted.{unnoted};
ghost use Rattle.book_journal.specs.Written.{closed_state, new_records};
ghost use Rattle.book_log.specs.Written.{AreChangeSecrets, AreEntrySecrets, AreSecrets, IsLoggable};
ghost use Rattle.statements.specs.ReadBack.{AreWritable, IsChange, IsEntry, IsHash, IsHop, IsKey, IsNumber, IsOutcome, IsRate};
ghost use Rattle.tenant_core.specs.State.{entered_at};
ghost use Rattle.tenant_core.specs.Terms.{are_limits_within, is_bucket_within};
ghost use Rattle.tenant_core.specs.Views.{entry_of, record_of};

use crate::lines::{place_after, place_in};
use book_log::{LinePlace, place_of};
use tenant_core::{
    AnswerKey, Book, BucketTerms, Change, EntryView, Hop, Journal, Outcome, PeerLimits, PeerTerms,
    Period, RateTerms, RecordView,
};

fn limits_are_kept(limits: PeerLimits)
    ensures { are_limits_within limits ≡ true }
{}

fn bucket_is_kept(bucket: BucketTerms)
    ensures { is_bucket_within bucket ≡ true }
{}

fn terms_are_kept(terms: &PeerTerms)
    ensures stated { AreWritable terms.now }
    ensures secrets { AreSecrets terms.now }
{
    terms.name.as_bytes();
    terms.asset.as_bytes();
    terms.token.as_bytes();
    terms.target.url();
    let _scale = terms.scale;
    limits_are_kept(terms.limits);
    bucket_is_kept(terms.bucket);
}

fn rate_is_kept(rate: RateTerms)
    ensures { IsRate rate }
{}

fn hop_is_kept(hop: Hop)
    ensures { IsHop hop }
{}

fn change_is_kept(change: &Change)
    ensures stated { IsChange change.now }
    ensures secrets { AreChangeSecrets change.now }
{
    match change {
        Change::PeerAdded(terms) => terms_are_kept(terms),
        Change::PeerRemoved(peer) => {
            let _peer = *peer;
        }
        Change::LimitsSet { peer, limits } => {
            let _peer = *peer;
            limits_are_kept(*limits);
        }
        Change::BucketSet { peer, bucket } => {
            let _peer = *peer;
            bucket_is_kept(*bucket);
        }
        Change::RouteAdded { prefix, hop } => {
            prefix.bytes();
            hop_is_kept(*hop);
        }
        Change::RouteRemoved(prefix) => {
            prefix.bytes();
        }
        Change::RateSet(rate) => rate_is_kept(*rate),
        Change::Settled { peer, amount, .. } => {
            let _peer = *peer;
            amount.get();
        }
    }
}

fn hash_is_kept(hash: [u8; 32])
    ensures { IsHash hash }
{}

fn key_is_kept(key: AnswerKey)
    ensures { IsKey key }
{}

fn entry_is_kept(view: EntryView<'_>)
    requires { HasAddress (entry_of view) }
    ensures moment { IsNumber (entered_at (entry_of view.entry)) }
    ensures stated { IsEntry (entry_of view.entry) }
    ensures secrets { AreEntrySecrets (entry_of view.entry) }
{
    match view {
        EntryView::Decide(packet) => hash_is_kept(*packet.condition),
        EntryView::Answer(answer) => {
            let _hold = answer.hold;
            let _now = answer.now;
            key_is_kept(answer.key);
        }
        EntryView::Change(entry) => {
            let _now = entry.now;
            change_is_kept(&entry.change);
        }
        EntryView::Tick(_) | EntryView::Roll(_) => {}
    }
}

fn outcome_is_kept(outcome: Outcome)
    ensures { IsOutcome outcome }
{}

fn record_is_kept(view: &RecordView<'_>)
    requires { HasAddress (entry_of view.now.entry) }
    ensures { IsLoggable (record_of view.now) }
{
    entry_is_kept(view.entry);
    outcome_is_kept(view.outcome);
}

// A line can hold each record from that place on.
fn are_kept(records: &Journal, from: u64)
    requires { All (λ r. HasAddress r.entry) records.now.records }
    ensures { All IsLoggable (drop from records.now.records) }
{
    let end = records.len() as u64;
    for place in from..end {
        if let Some(view) = records.get(place as usize) {
            record_is_kept(&view);
        }
    }
}

/// A line can hold each record of a book that has none, by the place of the first one.
pub fn book_is_loggable_from(place: LinePlace, book: &Book)
    ensures { All IsLoggable (unnoted place book.now) }
{
    tenant_core::laws::book_is_sound(book);
    ilp_addr::laws::addresses();
    are_kept(book.journal(), place_in(place, book.period()).number);
}

/// A line can hold each record of a closed period that has none, by the place of the first one.
pub fn period_is_loggable_from(place: LinePlace, period: &Period)
    ensures { All IsLoggable (unnoted place (closed_state period.now)) }
{
    tenant_core::laws::period_is_kept(period);
    ilp_addr::laws::addresses();
    are_kept(
        period.records().journal(),
        place_in(place, period.number()).number,
    );
}

// The place of a tenant's first record without a line by these places; `next`, after its last record, if none is kept for it.
fn place_by(places: &[LinePlace], next: LinePlace) -> LinePlace
    ensures { result ≡ slice_index_or places.now next.tenant next }
{
    match places.get(next.tenant) {
        Some(place) => *place,
        None => next,
    }
}

/// A line can hold each record of a book that has none by these places.
pub fn book_is_loggable(places: &[LinePlace], book: &Book)
    ensures { All IsLoggable (new_records places.now book.now) }
{
    book_is_loggable_from(place_by(places, place_of(book)), book);
}

/// A line can hold each record of a closed period that has none by these places.
pub fn period_is_loggable(places: &[LinePlace], period: &Period)
    ensures { All IsLoggable (new_records places.now (closed_state period.now)) }
{
    period_is_loggable_from(place_by(places, place_after(period)), period);
}

/// A line can hold each record of the books that has none by these places.
pub fn books_are_loggable(places: &[LinePlace], books: &[Book])
    ensures { All (λ b. All IsLoggable (new_records places.now b)) books.now }
{
    for book in books {
        book_is_loggable(places, book);
    }
}
