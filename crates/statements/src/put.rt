//! The words of a statement.

ghost use Rattle.std.specs.Prelude.{◌≡◌, ◌++◌, OnOk};
ghost use Rattle.hex.specs.Hex.{encode_lower};
ghost use Rattle.std.specs.Fmt.{decimal, signed_decimal};
ghost use Rattle.statements.specs.Statement.{word, spaced, number, role_word, prefix_word, limits_words, bucket_words, terms_words, hop_words};
ghost use Rattle.statements.specs.Statement.{rate_words, verdict_words, outcome_words, answer_words, change_verb, change_parts, change_words};

use ilp_addr::Prefix;
use itoa::Buffer;
use std::alloc::AllocError;
use tenant_core::{
    AnswerKey, BucketTerms, Change, Hop, Outcome, PeerLimits, PeerTerms, RateTerms, Role, Side,
    Verdict,
};

/// Appends a space and a word to a text. Fails only if it is out of memory.
pub fn put_word(out: &mut Vec<u8>, text: &[u8]) -> Result<(), AllocError>
    ensures { OnOk result (out.new.items ≡ out.old.items ++ word text.now) }
{
    out.push(b' ')?;
    out.extend_from_slice(text)
}

/// Appends a number in decimal digits to a text. Fails only if it is out of memory.
pub fn put_decimal(out: &mut Vec<u8>, value: u64) -> Result<(), AllocError>
    ensures { OnOk result (out.new.items ≡ out.old.items ++ decimal value) }
{
    let mut digits = Buffer::new();
    out.extend_from_slice(digits.format(value).as_bytes())
}

/// Appends a space and a number to a text. Fails only if it is out of memory.
pub fn put_number(out: &mut Vec<u8>, value: u64) -> Result<(), AllocError>
    ensures { OnOk result (out.new.items ≡ out.old.items ++ number value) }
{
    let mut digits = Buffer::new();
    put_word(out, digits.format(value).as_bytes())
}

pub fn put_signed(out: &mut Vec<u8>, value: i64) -> Result<(), AllocError>
    ensures { OnOk result (out.new.items ≡ out.old.items ++ word (signed_decimal value)) }
{
    let mut digits = Buffer::new();
    put_word(out, digits.format(value).as_bytes())
}

pub fn put_hash(out: &mut Vec<u8>, bytes: &[u8; 32]) -> Result<(), AllocError>
    ensures { OnOk result (out.new.items ≡ out.old.items ++ word (encode_lower bytes.now)) }
{
    let mut digits = [0; 64];
    match hex::encode_to_slice(bytes.as_slice(), &mut digits) {
        Ok(()) => put_word(out, &digits),
        Err(_) => Err(AllocError),
    }
}

fn role_word(role: Role) -> &'static [u8]
    ensures { result.now ≡ role_word role }
{
    match role {
        Role::Child => b"child",
        Role::Peer => b"peer",
    }
}

fn prefix_word(prefix: &Prefix) -> &[u8]
    ensures { result.now ≡ prefix_word prefix.now }
{
    match prefix.bytes() {
        [] => b"*",
        bytes => bytes,
    }
}

pub fn put_prefix(out: &mut Vec<u8>, prefix: &Prefix) -> Result<(), AllocError>
    ensures { OnOk result (out.new.items ≡ out.old.items ++ word (prefix_word prefix.now)) }
{
    put_word(out, prefix_word(prefix))
}

#[tactic(auto, unfolding(crate::specs::Statement::limits_words))]
pub fn put_limits(out: &mut Vec<u8>, limits: &PeerLimits) -> Result<(), AllocError>
    ensures { OnOk result (out.new.items ≡ out.old.items ++ spaced (limits_words limits.now)) }
{
    put_number(out, limits.cap.get())?;
    put_number(out, limits.ceiling.get())?;
    put_number(out, limits.credit.get())
}

pub fn put_bucket(out: &mut Vec<u8>, bucket: &BucketTerms) -> Result<(), AllocError>
    ensures { OnOk result (out.new.items ≡ out.old.items ++ spaced (bucket_words bucket.now)) }
{
    put_number(out, bucket.burst.get())?;
    put_number(out, bucket.per_second.get())
}

#[tactic(auto, unfolding(crate::specs::Statement::terms_words))]
pub fn put_terms(out: &mut Vec<u8>, terms: &PeerTerms) -> Result<(), AllocError>
    ensures { OnOk result (out.new.items ≡ out.old.items ++ spaced (terms_words terms.now)) }
{
    put_word(out, terms.name.as_bytes())?;
    put_word(out, role_word(terms.role))?;
    put_word(out, terms.asset.as_bytes())?;
    put_number(out, terms.scale as u64)?;
    put_limits(out, &terms.limits)?;
    put_bucket(out, &terms.bucket)
}

pub fn put_hop(out: &mut Vec<u8>, prefix: &Prefix, hop: &Hop) -> Result<(), AllocError>
    ensures { OnOk result (out.new.items ≡ out.old.items ++ spaced (hop_words prefix.now hop.now.peer hop.now.fee)) }
{
    put_prefix(out, prefix)?;
    put_number(out, hop.peer as u64)?;
    put_number(out, hop.fee.get())
}

pub fn put_rate(out: &mut Vec<u8>, rate: &RateTerms) -> Result<(), AllocError>
    ensures { OnOk result (out.new.items ≡ out.old.items ++ spaced (rate_words rate.now)) }
{
    put_number(out, rate.from as u64)?;
    put_number(out, rate.to as u64)?;
    put_number(out, rate.rate.numerator())?;
    put_number(out, rate.rate.denominator())
}

#[tactic(auto, unfolding(crate::specs::Statement::verdict_words))]
fn put_verdict(out: &mut Vec<u8>, verdict: Verdict) -> Result<(), AllocError>
    ensures { OnOk result (out.new.items ≡ out.old.items ++ spaced (verdict_words verdict)) }
{
    match verdict {
        Verdict::Unknown => out.extend_from_slice(b" unknown"),
        Verdict::NoRoom => out.extend_from_slice(b" full"),
        Verdict::Refuse {
            code,
            amounts: None,
        } => {
            out.extend_from_slice(b" refuse")?;
            put_word(out, code.letters().as_slice())
        }
        Verdict::Refuse {
            code,
            amounts: Some((amount, greatest)),
        } => {
            out.extend_from_slice(b" refuse")?;
            put_word(out, code.letters().as_slice())?;
            put_number(out, amount)?;
            put_number(out, greatest)
        }
        Verdict::Fulfil => out.extend_from_slice(b" fulfil"),
        Verdict::Forward {
            hold,
            peer,
            amount,
            expiry,
        } => {
            out.extend_from_slice(b" forward")?;
            put_number(out, hold)?;
            put_number(out, peer as u64)?;
            put_number(out, amount)?;
            put_number(out, expiry)
        }
        Verdict::Relay => out.extend_from_slice(b" relay"),
    }
}

pub fn put_outcome(out: &mut Vec<u8>, outcome: Outcome) -> Result<(), AllocError>
    ensures { OnOk result (out.new.items ≡ out.old.items ++ spaced (outcome_words outcome)) }
{
    match outcome {
        Outcome::Packet(verdict) => {
            out.extend_from_slice(b" =")?;
            put_verdict(out, verdict)
        }
        Outcome::Ticked(count) => {
            out.extend_from_slice(b" =")?;
            put_number(out, count as u64)
        }
        Outcome::Done | Outcome::Rolled => Ok(()),
    }
}

pub fn put_answer(out: &mut Vec<u8>, hold: u64, key: &AnswerKey) -> Result<(), AllocError>
    ensures { OnOk result (out.new.items ≡ out.old.items ++ spaced (answer_words hold key.now)) }
{
    match key {
        AnswerKey::Fulfilled(fulfillment) => {
            out.extend_from_slice(b" fulfill")?;
            put_number(out, hold)?;
            put_hash(out, fulfillment)
        }
        AnswerKey::Rejected => {
            out.extend_from_slice(b" reject")?;
            put_number(out, hold)
        }
        AnswerKey::Fault => {
            out.extend_from_slice(b" fault")?;
            put_number(out, hold)
        }
    }
}

#[tactic(auto, unfolding(crate::specs::Statement::change_verb))]
fn change_verb(change: &Change) -> &'static [u8]
    ensures { result.now ≡ spaced (change_verb change.now) }
{
    match change {
        Change::PeerAdded(_) => b" peer add",
        Change::PeerRemoved(_) => b" peer remove",
        Change::LimitsSet { .. } => b" peer limits",
        Change::BucketSet { .. } => b" peer bucket",
        Change::RouteAdded { .. } => b" route add",
        Change::RouteRemoved(_) => b" route remove",
        Change::RateSet(_) => b" rate set",
        Change::Settled { side: Side::In, .. } => b" settle in",
        Change::Settled {
            side: Side::Out,
            ..
        } => b" settle out",
    }
}

fn put_change_parts(out: &mut Vec<u8>, change: &Change) -> Result<(), AllocError>
    ensures { OnOk result (out.new.items ≡ out.old.items ++ spaced (change_parts change.now)) }
{
    match change {
        Change::PeerAdded(terms) => put_terms(out, terms),
        Change::PeerRemoved(peer) => put_number(out, *peer as u64),
        Change::LimitsSet { peer, limits } => {
            put_number(out, *peer as u64)?;
            put_limits(out, limits)
        }
        Change::BucketSet { peer, bucket } => {
            put_number(out, *peer as u64)?;
            put_bucket(out, bucket)
        }
        Change::RouteAdded { prefix, hop } => put_hop(out, prefix, hop),
        Change::RouteRemoved(prefix) => put_prefix(out, prefix),
        Change::RateSet(rate) => put_rate(out, rate),
        Change::Settled { peer, amount, .. } => {
            put_number(out, *peer as u64)?;
            put_number(out, amount.get())
        }
    }
}

pub fn put_change(out: &mut Vec<u8>, change: &Change) -> Result<(), AllocError>
    ensures { OnOk result (out.new.items ≡ out.old.items ++ spaced (change_words change.now)) }
{
    out.extend_from_slice(change_verb(change))?;
    put_change_parts(out, change)
}
