//! What a line of a script spells, or why it is bad.

ghost use Rattle.std.specs.Prelude.{◌≡◌, is_none, is_some, option_and_then, option_copied, IfOk};
ghost use Rattle.std.specs.Result.{result_ok};
ghost use Rattle.common_types.specs.Words.{words_left};
ghost use Rattle.admin_text.specs.Commands.{command_in};
ghost use Rattle.replay_text.specs.Script.{load_of, decide_step, answer_of, tick_of, govern_of, step_behind};
ghost use Rattle.replay_text.specs.Script.{is_bad, is_skipped, meaning_of};
ghost use Rattle.replay_text.specs.Spelled.{meaning_of_words, meaning_read, step_of_spelled};
ghost use Rattle.replay_text.specs.Words.{two_of, three_of, four_of};

use crate::causes::{LineFault, Operand, Verb};
use crate::operands::{
    Parties, check_frame, frame_of, given_of, moment_of, tenant_of, token_of, worker_of,
};
use crate::scans::is_ascii;
use crate::script::MAX_LINE;
use crate::words::{first_word, four_words, is_word, three_words, two_words};
use admin_text::{TextFault, parse_command};
use common_types::{Boxed, Name, ReadError};
use floor_core::{Octets, Step};
use ilp_addr::Moment;
use std::alloc::{AllocError, Global};
use tenant_core::Command;

/// What a line spells. Its last word is still text if it takes room to read it: the digits of a frame, and a command.
#[derive(Clone, Copy)]
pub(crate) enum Spelled<'a> {
    Load {
        worker: usize,
        tenant: usize,
        token: &'a [u8],
        frame: &'a [u8],
    },
    Decide {
        worker: usize,
        now: Moment,
    },
    Answer {
        worker: usize,
        now: Moment,
        /// `None` of a fault.
        frame: Option<&'a [u8]>,
    },
    Tick {
        tenant: usize,
        now: Moment,
    },
    Govern {
        tenant: usize,
        now: Moment,
        command: &'a [u8],
    },
}

// ---- the words after a verb

// The operand that is missing if there are only these words.
fn missing<'a>(verb: Verb, words: Option<&'a [u8]>) -> LineFault<'a> {
    let given = words.map_or(0, |words| words.split(|b| *b == b' ').count());
    match verb.operands().get(given) {
        Some(operand) => LineFault::Missing(verb, *operand),
        None => LineFault::TooMany(verb),
    }
}

fn read_load<'a>(
    parties: Parties<'_>,
    words: Option<&'a [u8]>,
) -> Result<Spelled<'a>, LineFault<'a>>
    ensures { option_and_then step_of_spelled (result_ok result)
        ≡ option_and_then (load_of parties.entry.names.now parties.entry.workers) (four_of (words_left (option_copied words.entry))) }
{
    let Some((worker, tenant, token, frame)) = four_words(words) else {
        return Err(missing(Verb::Load, words));
    };
    Ok(Spelled::Load {
        worker: worker_of(parties, worker)?,
        tenant: tenant_of(parties, tenant)?,
        token: token_of(token)?,
        frame,
    })
}

fn read_decide<'a>(
    parties: Parties<'_>,
    words: Option<&'a [u8]>,
) -> Result<Spelled<'a>, LineFault<'a>>
    ensures { option_and_then step_of_spelled (result_ok result)
        ≡ option_and_then (decide_step parties.entry.workers) (two_of (words_left (option_copied words.entry))) }
{
    let Some((worker, now)) = two_words(words) else {
        return Err(missing(Verb::Decide, words));
    };
    Ok(Spelled::Decide {
        worker: worker_of(parties, worker)?,
        now: moment_of(Verb::Decide, now)?,
    })
}

fn read_answer<'a>(
    parties: Parties<'_>,
    words: Option<&'a [u8]>,
) -> Result<Spelled<'a>, LineFault<'a>>
    ensures { option_and_then step_of_spelled (result_ok result)
        ≡ option_and_then (answer_of parties.entry.workers) (three_of (words_left (option_copied words.entry))) }
{
    let Some((worker, now, given)) = three_words(words) else {
        return Err(missing(Verb::Answer, words));
    };
    Ok(Spelled::Answer {
        worker: worker_of(parties, worker)?,
        now: moment_of(Verb::Answer, now)?,
        frame: (given != b"fault".as_slice()).then_some(given),
    })
}

fn read_tick<'a>(
    parties: Parties<'_>,
    words: Option<&'a [u8]>,
) -> Result<Spelled<'a>, LineFault<'a>>
    ensures { option_and_then step_of_spelled (result_ok result)
        ≡ option_and_then (tick_of parties.entry.names.now) (two_of (words_left (option_copied words.entry))) }
{
    let Some((tenant, now)) = two_words(words) else {
        return Err(missing(Verb::Tick, words));
    };
    Ok(Spelled::Tick {
        tenant: tenant_of(parties, tenant)?,
        now: moment_of(Verb::Tick, now)?,
    })
}

#[tactic(auto, using(crate::proofs::Governs::govern_of_few))]
fn read_do<'a>(parties: Parties<'_>, words: Option<&'a [u8]>) -> Result<Spelled<'a>, LineFault<'a>>
    ensures { option_and_then step_of_spelled (result_ok result)
        ≡ govern_of parties.entry.names.now (words_left (option_copied words.entry)) }
{
    let Some((tenant, now, command)) = three_words(words) else {
        return Err(missing(Verb::Do, words));
    };
    Ok(Spelled::Govern {
        tenant: tenant_of(parties, tenant)?,
        now: moment_of(Verb::Do, now)?,
        command,
    })
}

// ---- lines

// The step that a verb and the words after it spell.
fn read_behind<'a>(
    parties: Parties<'_>,
    verb: &'a [u8],
    words: Option<&'a [u8]>,
) -> Result<Spelled<'a>, LineFault<'a>>
    ensures { option_and_then step_of_spelled (result_ok result)
        ≡ step_behind parties.entry.names.now parties.entry.workers verb.now (words_left (option_copied words.entry)) }
{
    if is_word(verb, b"load") {
        read_load(parties, words)
    } else if is_word(verb, b"decide") {
        read_decide(parties, words)
    } else if is_word(verb, b"answer") {
        read_answer(parties, words)
    } else if is_word(verb, b"tick") {
        read_tick(parties, words)
    } else if is_word(verb, b"do") {
        read_do(parties, words)
    } else {
        Err(LineFault::NoVerb(verb))
    }
}

fn is_skipped(line: &[u8]) -> bool
    ensures { result ≡ is_skipped line.now }
{
    match line {
        [] => true,
        [first, ..] => *first == b'#',
    }
}

// What the words of a line spell, `None` if it is skipped; or why it is bad. The first wrong word decides, unless one is
// missing.
fn read_words<'a>(
    parties: Parties<'_>,
    line: &'a [u8],
) -> Result<Option<Spelled<'a>>, LineFault<'a>>
    ensures { meaning_read result ≡ meaning_of_words parties.entry.names.now parties.entry.workers line.now }
{
    if is_skipped(line) {
        return Ok(None);
    }
    let (verb, words) = first_word(line);
    match read_behind(parties, verb, words) {
        Ok(spelled) => Ok(Some(spelled)),
        Err(fault) => Err(fault),
    }
}

/// What a line spells, `None` if it is skipped; or why it is bad. A last word that takes room is not read yet.
#[tactic(auto, unfolding(crate::specs::Script::meaning_of))]
#[inline(always)]
pub(crate) fn read_line<'a>(
    parties: Parties<'_>,
    line: &'a [u8],
) -> Result<Option<Spelled<'a>>, LineFault<'a>>
    ensures { meaning_read result ≡ meaning_of parties.entry.names.now parties.entry.workers line.now }
{
    if line.len() > MAX_LINE {
        return Err(LineFault::Long(MAX_LINE));
    }
    if !is_ascii(line) {
        return Err(LineFault::NoAscii);
    }
    read_words(parties, line)
}

// ---- the last word

// The command that a text spells, or why it spells none.
fn command_in(alloc: Global, text: &[u8]) -> Result<Result<Command, TextFault>, AllocError>
    ensures { IfOk result (λ command. command ≡ command_in text.now) }
{
    match parse_command(alloc, text) {
        Ok(command) => Ok(Ok(command)),
        Err(ReadError::Fault(fault)) => Ok(Err(fault)),
        Err(ReadError::Memory) => Err(AllocError),
    }
}

/// What is wrong with the last word, if it was left as text. Frames are not stored.
pub(crate) fn last_fault<'a>(
    alloc: Global,
    spelled: &Spelled<'a>,
) -> Result<Option<LineFault<'a>>, AllocError>
    ensures { IfOk result (λ fault. is_none fault ≡ is_some (step_of_spelled spelled.now)) }
{
    match *spelled {
        Spelled::Load { frame, .. } => Ok(check_frame(Verb::Load, Operand::Frame, frame).err()),
        Spelled::Answer {
            frame: Some(frame),
            ..
        } => Ok(check_frame(Verb::Answer, Operand::PeerAnswer, frame).err()),
        Spelled::Govern { command, .. } => match command_in(alloc, command)? {
            Ok(_) => Ok(None),
            Err(fault) => Ok(Some(LineFault::Command(fault))),
        },
        Spelled::Decide { .. } | Spelled::Answer { frame: None, .. } | Spelled::Tick { .. } => {
            Ok(None)
        }
    }
}

// The fault of a line that is reported: that the line ends in a carriage return, if it does.
fn told<'a>(line: &[u8], fault: LineFault<'a>) -> LineFault<'a> {
    match fault {
        LineFault::Long(_) | LineFault::NoAscii => fault,
        _ if line.ends_with(b"\r") => LineFault::EndsInReturn,
        _ => fault,
    }
}

/// Why a line says nothing that a script may say, for the tenants of these names and so many workers; `None` if it
/// does say something, or is skipped. The first word that is wrong decides, unless one is missing or the line ends in
/// a carriage return. Fails only if it is out of memory.
pub fn line_fault<'a>(
    alloc: Global,
    names: &[Name],
    workers: usize,
    line: &'a [u8],
) -> Result<Option<LineFault<'a>>, AllocError>
    ensures { IfOk result (λ fault. is_some fault ≡ is_bad (meaning_of names.now workers line.now)) }
{
    let fault = match read_line(Parties { names, workers }, line) {
        Ok(Some(spelled)) => last_fault(alloc, &spelled)?,
        Ok(None) => None,
        Err(fault) => Some(fault),
    };
    Ok(fault.map(|fault| told(line, fault)))
}

// The command that a text spells, in a box, if it spells one.
fn boxed_command(alloc: Global, text: &[u8]) -> Result<Option<Boxed<Command>>, AllocError>
    ensures { IfOk result (λ command. command ≡ result_ok (command_in text.now)) }
{
    match command_in(alloc, text)? {
        Ok(command) => Ok(Some(Boxed::new(alloc, command)?)),
        Err(_) => Ok(None),
    }
}

/// The step that was spelled, a frame's bytes in the room; `None` if its last word is wrong. Fails only if it is out of
/// memory.
pub(crate) fn step_of<'a>(
    alloc: Global,
    spelled: &Spelled<'a>,
    room: &'a mut Vec<u8>,
) -> Result<Option<Step<'a>>, AllocError>
    ensures { IfOk result (λ step. step ≡ step_of_spelled spelled.now) }
{
    Ok(match *spelled {
        Spelled::Load {
            worker,
            tenant,
            token,
            frame,
        } => frame_of(frame, room)?.map(|bytes| Step::Load {
            worker,
            tenant,
            token: Octets::of(token),
            bytes,
        }),
        Spelled::Decide { worker, now } => Some(Step::Decide { worker, now }),
        Spelled::Answer { worker, now, frame } => {
            match given_of(frame, room)? {
                Some(given) => Some(Step::Answer { worker, now, given }),
                None => None,
            }
        }
        Spelled::Tick { tenant, now } => Some(Step::Tick { tenant, now }),
        Spelled::Govern {
            tenant,
            now,
            command,
        } => boxed_command(alloc, command)?.map(|command| Step::Govern {
            tenant,
            now,
            command,
        }),
    })
}
