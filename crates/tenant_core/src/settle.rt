//! Answers: the verdict on what came back for a hold.

ghost use Rattle.std.specs.Prelude.{◌≡◌};
ghost use Rattle.tenant_core.specs.Answer.{is_late, fits, is_misfit, is_fault, settle_answer};

use crate::hold::{Fate, Hold};
use crate::journal::AnswerKey;
use crate::verdict::{RejectCode, Verdict, refuse};
use sha2::{Digest, Sha256};

fn is_late(hold: &Hold, clock: u64) -> bool
    ensures { result ≡ is_late hold.now clock }
{
    matches!(hold.fate, Fate::Marked) || hold.expiry <= clock
}

fn fits(fulfillment: &[u8; 32], condition: &[u8; 32]) -> bool
    ensures { result ≡ fits fulfillment.now condition.now }
{
    Sha256::digest(fulfillment.as_slice()) == *condition
}

fn is_misfit(key: &AnswerKey, condition: &[u8; 32]) -> bool
    ensures { result ≡ is_misfit key.now condition.now }
{
    match key {
        AnswerKey::Fulfilled(fulfillment) => !fits(fulfillment, condition),
        _ => false,
    }
}

fn is_fault(key: &AnswerKey) -> bool
    ensures { result ≡ is_fault key.now }
{
    matches!(key, AnswerKey::Fault)
}

/// The verdict on the answer to an open hold, at the clock after it.
pub fn settle_answer(hold: &Hold, clock: u64, key: &AnswerKey) -> Verdict
    ensures { result ≡ settle_answer hold.now clock key.now }
{
    if is_late(hold, clock) {
        return refuse(RejectCode::TimedOut);
    }
    if is_misfit(key, &hold.condition) {
        return refuse(RejectCode::WrongCondition);
    }
    if is_fault(key) {
        return refuse(RejectCode::PeerUnreachable);
    }
    Verdict::Relay
}
