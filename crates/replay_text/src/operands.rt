//! The words after a verb: what each says, or why it is wrong.

ghost use Rattle.std.specs.Prelude.{◌≡◌, is_ok, is_some, option_and_then, option_copied, IfOk};
ghost use Rattle.std.specs.List.{position};
ghost use Rattle.std.specs.Result.{result_ok};
ghost use Rattle.std.specs.Str.{bytes_eq};
ghost use Rattle.hex.specs.Hex.{decode_of};
ghost use Rattle.replay_text.specs.Spelled.{given_spelled};
ghost use Rattle.replay_text.specs.Script.{frame_word, moment_spelled, number_below, tenant_named, token_word};

use crate::causes::{LineFault, Operand, Verb};
use crate::numbers::number_below;
use crate::scans::place_of;
use crate::words::is_word;
use common_types::{Name, is_numeral, is_token};
use floor_core::{Octets, PeerAnswer};
use ilp_addr::Moment;
use output_text::hexadecimal::{are_digits, decode, spells_bytes};
use std::alloc::AllocError;

/// Whom a script may name: the tenants by their names, numbered from 0, and so many workers.
#[derive(Clone, Copy)]
pub(crate) struct Parties<'a> {
    pub(crate) names: &'a [Name],
    pub(crate) workers: usize,
}

// What is wrong with a word that spells no number up to the greatest.
fn number_fault(operand: Operand, word: &[u8], most: u64) -> LineFault<'_> {
    if is_numeral(word) {
        LineFault::Above(operand, word, most)
    } else {
        LineFault::Malformed(operand, word)
    }
}

/// The number of a worker.
#[inline(always)]
pub(crate) fn worker_of<'a>(parties: Parties<'_>, word: &'a [u8]) -> Result<usize, LineFault<'a>>
    ensures { result_ok result ≡ number_below parties.entry.workers word.now }
{
    let workers = parties.workers as u64;
    match number_below(workers, word) {
        Some(worker) => Ok(worker as usize),
        None => Err(number_fault(Operand::Worker, word, workers.saturating_sub(1))),
    }
}

fn is_name(name: &Name, word: &[u8]) -> bool
    ensures { result ≡ bytes_eq name.now word.now }
{
    name.as_bytes() == word
}

fn place_of_name(names: &[Name], word: &[u8]) -> Option<usize>
    ensures { result ≡ position (λ name. bytes_eq name word.now) names.now }
{
    names.iter().position(|name| is_name(name, word))
}

/// The number of the first tenant of that name.
#[inline(always)]
pub(crate) fn tenant_of<'a>(parties: Parties<'_>, word: &'a [u8]) -> Result<usize, LineFault<'a>>
    ensures { result_ok result ≡ tenant_named parties.entry.names.now word.now }
{
    match place_of_name(parties.names, word) {
        Some(tenant) if !word.is_empty() => Ok(tenant),
        _ => Err(LineFault::NoTenant(word)),
    }
}

/// A word that is a token.
pub(crate) fn token_of(word: &[u8]) -> Result<&[u8], LineFault<'_>>
    ensures { option_copied (result_ok result) ≡ token_word word.now }
{
    if is_token(word) {
        Ok(word)
    } else {
        Err(LineFault::Malformed(Operand::Token, word))
    }
}

// What is wrong with the last word of a verb. The word is looked at with all that follows it.
fn last_fault<'a>(verb: Verb, word: &'a [u8], fault: LineFault<'a>) -> LineFault<'a> {
    match place_of(b' ', word) {
        Some(_) => LineFault::TooMany(verb),
        None => fault,
    }
}

fn moment_spelled(word: &[u8]) -> Option<Moment>
    ensures { result ≡ moment_spelled word.now }
{
    Moment::new(number_below(Moment::MAX_MILLIS + 1, word)?)
}

/// The moment that a word spells.
#[inline(always)]
pub(crate) fn moment_of(verb: Verb, word: &[u8]) -> Result<Moment, LineFault<'_>>
    ensures { result_ok result ≡ moment_spelled word.now }
{
    match moment_spelled(word) {
        Some(now) => Ok(now),
        None => Err(last_fault(
            verb,
            word,
            number_fault(Operand::Now, word, Moment::MAX_MILLIS),
        )),
    }
}

fn bytes_fault(verb: Verb, operand: Operand, word: &[u8]) -> LineFault<'_> {
    if word.len() % 2 == 1 && are_digits(word) {
        LineFault::Odd(operand, word)
    } else {
        last_fault(verb, word, LineFault::Malformed(operand, word))
    }
}

// The digits of the bytes that a word spells, if it does.
#[tactic(auto, unfolding(hex::specs::Hex::decode_pairs))]
fn digits_of(word: &[u8]) -> Option<&[u8]>
    ensures { frame_word word.now ≡ option_and_then (λ digits. result_ok (decode_of digits)) (option_copied result) }
{
    if is_word(word, b"-") {
        return Some(&[]);
    }
    (!word.is_empty()).then_some(word)
}

/// Whether a word spells bytes, which are not stored.
pub(crate) fn check_frame(verb: Verb, operand: Operand, word: &[u8]) -> Result<(), LineFault<'_>>
    ensures { is_ok result ≡ is_some (frame_word word.now) }
{
    match digits_of(word) {
        Some(digits) if spells_bytes(digits) => Ok(()),
        _ => Err(bytes_fault(verb, operand, word)),
    }
}

/// The bytes that a word spells, in the room, if it spells any.
pub(crate) fn frame_of<'a>(
    word: &[u8],
    room: &'a mut Vec<u8>,
) -> Result<Option<Octets<'a>>, AllocError>
    ensures { IfOk result (λ frame. frame ≡ frame_word word.now) }
{
    let Some(digits) = digits_of(word) else {
        return Ok(None);
    };
    match decode(digits, room)? {
        Some(bytes) => Ok(Some(Octets::of(bytes))),
        None => Ok(None),
    }
}

/// What came back: the bytes that a word spells, in the room, if it spells any; or a fault if there is no word.
pub(crate) fn given_of<'a>(
    word: Option<&[u8]>,
    room: &'a mut Vec<u8>,
) -> Result<Option<PeerAnswer<'a>>, AllocError>
    ensures { IfOk result (λ given. given ≡ given_spelled (option_copied word.entry)) }
{
    let Some(word) = word else {
        return Ok(Some(PeerAnswer::Fault));
    };
    match frame_of(word, room)? {
        Some(bytes) => Ok(Some(PeerAnswer::Bytes(bytes))),
        None => Ok(None),
    }
}
