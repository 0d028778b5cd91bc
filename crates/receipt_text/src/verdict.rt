//! What an entry led to, as it is taken off a line. No clause says what is read: it is written again and compared.

use statements::LineWords;
use tenant_core::{Entry, Outcome, RejectCode, Verdict};

static CODES: [RejectCode; 12] = [
    RejectCode::BadRequest,
    RejectCode::Unreachable,
    RejectCode::InvalidAmount,
    RejectCode::WrongCondition,
    RejectCode::AmountTooLarge,
    RejectCode::PeerUnreachable,
    RejectCode::Busy,
    RejectCode::InsufficientLiquidity,
    RejectCode::RateLimited,
    RejectCode::TimedOut,
    RejectCode::InsufficientSource,
    RejectCode::InsufficientTimeout,
];

fn code_in(word: &[u8]) -> Option<RejectCode> {
    for code in &CODES {
        if code.letters().as_slice() == word {
            return Some(*code);
        }
    }
    None
}

// Both amounts of a refusal, if it names them.
fn refusal_in(words: &mut LineWords<'_>) -> Option<Verdict> {
    let code = code_in(words.next()?)?;
    let amounts = match words.number() {
        Some(amount) => Some((amount, words.number()?)),
        None => None,
    };
    Some(Verdict::Refuse { code, amounts })
}

fn forward_in(words: &mut LineWords<'_>) -> Option<Verdict> {
    Some(Verdict::Forward {
        hold: words.number()?,
        peer: words.peer()?,
        amount: words.number()?,
        expiry: words.number()?,
    })
}

fn verdict_in(words: &mut LineWords<'_>) -> Option<Verdict> {
    let verb = words.next()?;
    if verb == b"forward".as_slice() {
        forward_in(words)
    } else if verb == b"refuse".as_slice() {
        refusal_in(words)
    } else if verb == b"relay".as_slice() {
        Some(Verdict::Relay)
    } else if verb == b"fulfil".as_slice() {
        Some(Verdict::Fulfil)
    } else if verb == b"full".as_slice() {
        Some(Verdict::NoRoom)
    } else if verb == b"unknown".as_slice() {
        Some(Verdict::Unknown)
    } else {
        None
    }
}

// The words after `=`.
fn words_told(line: &[u8]) -> Option<LineWords<'_>> {
    let told = line.split(|byte| *byte == b'=').nth(1)?;
    let mut words = LineWords::of(told);
    words.next()?;
    Some(words)
}

/// What the line says that its entry led to.
pub fn outcome_in(line: &[u8], entry: &Entry) -> Option<Outcome> {
    match entry {
        Entry::Decide(_) | Entry::Answer(_) => {
            Some(Outcome::Packet(verdict_in(&mut words_told(line)?)?))
        }
        Entry::Tick(_) => {
            let count = words_told(line)?.between::<0, 4_294_967_295>()?;
            Some(Outcome::Ticked(count.get() as u32))
        }
        Entry::Change(_) => Some(Outcome::Done),
        Entry::Roll(_) => Some(Outcome::Rolled),
    }
}
