//! The entry of a record's line. Its outcome is not read, since the checker computes it again.

ghost use Rattle.std.specs.Prelude.{◌≡◌, IfOk};
ghost use Rattle.common_types.specs.Words.{words_of};
ghost use Rattle.statements.specs.Reading.{answer_read, change_read, decide_read, entry_read, fulfill_read, happened_read};
ghost use Rattle.statements.specs.Reading.{peer_change_read, peers_change_read, rate_change_read, route_change_read};
ghost use Rattle.statements.specs.Reading.{settle_change_read, side_named};

use crate::terms::{bucket_in, hop_in, limits_in, prefix_in, rate_in, terms_in};
use crate::words::LineWords;
use common_types::Bytes;
use std::alloc::{AllocError, Global};
use tenant_core::{
    AnswerEntry, AnswerKey, Change, ChangeEntry, DecideEntry, Entry, PeerNo, RollEntry, Side,
    TickEntry,
};

#[tactic(auto, unfolding(crate::specs::Reading::decide_read))]
fn decide_in(
    alloc: Global,
    words: &mut LineWords<'_>,
    now: u64,
) -> Result<Option<Entry>, AllocError>
    ensures { IfOk result (λ entry. entry ≡ decide_read now words.old) }
{
    let (Some(peer), Some(amount), Some(expiry)) = (words.peer(), words.number(), words.number())
    else {
        return Ok(None);
    };
    let (Some(condition), Some(destination)) = (words.hash(), words.next()) else {
        return Ok(None);
    };
    Ok(Some(Entry::Decide(DecideEntry {
        peer,
        amount,
        expiry,
        condition,
        destination: Bytes::from_vec(Vec::from_slice(alloc, destination)?),
        now,
    })))
}

#[tactic(auto, unfolding(crate::specs::Reading::fulfill_read))]
fn fulfill_in(words: &mut LineWords<'_>, now: u64) -> Option<Entry>
    ensures { result ≡ fulfill_read now words.old }
{
    let hold = words.number()?;
    let key = AnswerKey::Fulfilled(words.hash()?);
    Some(Entry::Answer(AnswerEntry { hold, now, key }))
}

#[tactic(auto, unfolding(crate::specs::Reading::answer_read))]
fn answer_in(words: &mut LineWords<'_>, now: u64, key: AnswerKey) -> Option<Entry>
    ensures { result ≡ answer_read key now words.old }
{
    let hold = words.number()?;
    Some(Entry::Answer(AnswerEntry { hold, now, key }))
}

#[tactic(auto, unfolding(crate::specs::Reading::peer_change_read))]
fn peer_change_in(words: &mut LineWords<'_>, verb: &[u8]) -> Option<Change>
    ensures { result ≡ peer_change_read verb.now words.old }
{
    let peer = words.peer()?;
    if verb == b"remove".as_slice() {
        Some(Change::PeerRemoved(peer))
    } else if verb == b"limits".as_slice() {
        let limits = limits_in(words)?;
        Some(Change::LimitsSet { peer, limits })
    } else {
        let bucket = bucket_in(words)?;
        Some(Change::BucketSet { peer, bucket })
    }
}

// The next peer that is added gets that number.
#[tactic(auto, unfolding(crate::specs::Reading::peers_change_read))]
fn peers_change_in(words: &mut LineWords<'_>, next_peer: PeerNo) -> Option<Change>
    ensures { result ≡ peers_change_read next_peer words.old }
{
    let verb = words.next()?;
    if verb == b"add".as_slice() {
        Some(Change::PeerAdded(terms_in(words, next_peer)?))
    } else {
        peer_change_in(words, verb)
    }
}

#[tactic(auto, unfolding(crate::specs::Reading::route_change_read))]
fn route_change_in(alloc: Global, words: &mut LineWords<'_>) -> Result<Option<Change>, AllocError>
    ensures { IfOk result (λ change. change ≡ route_change_read words.old) }
{
    let (Some(verb), Some(word)) = (words.next(), words.next()) else {
        return Ok(None);
    };
    let Some(prefix) = prefix_in(alloc, word)? else {
        return Ok(None);
    };
    if verb == b"remove".as_slice() {
        return Ok(Some(Change::RouteRemoved(prefix)));
    }
    match hop_in(words) {
        Some(hop) => Ok(Some(Change::RouteAdded { prefix, hop })),
        None => Ok(None),
    }
}

#[tactic(auto, unfolding(crate::specs::Reading::rate_change_read))]
fn rate_change_in(words: &mut LineWords<'_>) -> Option<Change>
    ensures { result ≡ rate_change_read words.old }
{
    words.next()?;
    Some(Change::RateSet(rate_in(words)?))
}

fn side_in(verb: &[u8]) -> Side
    ensures { result ≡ side_named verb.now }
{
    if verb == b"in".as_slice() {
        Side::In
    } else {
        Side::Out
    }
}

#[tactic(auto, unfolding(crate::specs::Reading::settle_change_read))]
fn settle_change_in(words: &mut LineWords<'_>) -> Option<Change>
    ensures { result ≡ settle_change_read words.old }
{
    let side = side_in(words.next()?);
    Some(Change::Settled {
        peer: words.peer()?,
        side,
        amount: words.between()?,
    })
}

#[tactic(auto, unfolding(crate::specs::Reading::change_read))]
fn change_in(
    alloc: Global,
    verb: &[u8],
    words: &mut LineWords<'_>,
    next_peer: PeerNo,
) -> Result<Option<Change>, AllocError>
    ensures { IfOk result (λ change. change ≡ change_read next_peer verb.now words.old) }
{
    if verb == b"peer".as_slice() {
        Ok(peers_change_in(words, next_peer))
    } else if verb == b"route".as_slice() {
        route_change_in(alloc, words)
    } else if verb == b"rate".as_slice() {
        Ok(rate_change_in(words))
    } else if verb == b"settle".as_slice() {
        Ok(settle_change_in(words))
    } else {
        Ok(None)
    }
}

// What happened at that moment, after a verb.
#[tactic(auto, unfolding(crate::specs::Reading::happened_read))]
fn happened_in(
    alloc: Global,
    now: u64,
    verb: &[u8],
    words: &mut LineWords<'_>,
    next_peer: PeerNo,
) -> Result<Option<Entry>, AllocError>
    ensures { IfOk result (λ entry. entry ≡ happened_read next_peer now verb.now words.old) }
{
    if verb == b"prepare".as_slice() {
        decide_in(alloc, words, now)
    } else if verb == b"fulfill".as_slice() {
        Ok(fulfill_in(words, now))
    } else if verb == b"reject".as_slice() {
        Ok(answer_in(words, now, AnswerKey::Rejected))
    } else if verb == b"fault".as_slice() {
        Ok(answer_in(words, now, AnswerKey::Fault))
    } else if verb == b"tick".as_slice() {
        Ok(Some(Entry::Tick(TickEntry { now })))
    } else if verb == b"roll".as_slice() {
        Ok(Some(Entry::Roll(RollEntry { now })))
    } else {
        let change = change_in(alloc, verb, words, next_peer)?;
        Ok(change.map(|change| Entry::Change(ChangeEntry { change, now })))
    }
}

/// The entry of a line, if the next peer that is added gets that number.
#[tactic(auto, unfolding(crate::specs::Reading::entry_read))]
pub fn entry_in(alloc: Global, line: &[u8], next_peer: PeerNo) -> Result<Option<Entry>, AllocError>
    ensures { IfOk result (λ entry. entry ≡ entry_read next_peer (words_of line.now)) }
{
    let mut words = LineWords::of(line);
    let (Some(now), Some(verb)) = (words.number(), words.next()) else {
        return Ok(None);
    };
    happened_in(alloc, now, verb, &mut words, next_peer)
}
