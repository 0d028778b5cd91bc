//! Replay scripts: what each line has a worker do.

ghost use Rattle.std.specs.Prelude.{◌≡◌, ◌<◌, ◌≤◌, ◌↔◌, ◌+◌, ℕ, List, Ok, Err, length, option_map, IfOk, OnOk};
ghost use Rattle.std.specs.Result.{result_err};
ghost use Rattle.replay_text.specs.Script.{lines_of, meaning_of, steps_from, steps_of_script};
ghost use Rattle.replay_text.specs.Script.{AreSteps, IsCheckedAs, IsFirstBad};
ghost use Rattle.replay_text.specs.ScriptWrong.{script_fault_alone, script_fault_of};
ghost use Rattle.floor_core.specs.declared.step.Step.{Step};

use crate::causes::LineFault;
use crate::lines::{line_fault, read_line, step_of};
use crate::operands::Parties;
use crate::words::first_line;
use common_types::{Name, ReadError};
use floor_core::Step;
use std::alloc::{AllocError, Global};
use std::fmt;
use thiserror::Error;

/// The most bytes of a script.
pub const MAX_SCRIPT: usize = 16_777_216;

/// The most bytes of a line, without its end.
pub const MAX_LINE: usize = 70_000;

/// What is wrong with a script.
#[derive(Clone, Copy, Debug, PartialEq, Eq, Error)]
pub enum ScriptFault {
    /// It has too many bytes.
    #[error("script: size")]
    Size,
    /// The line of that number, from 1, is the first that is not valid.
    #[error("script: line {0}")]
    Line(usize),
}

/// What is wrong with a script, and why.
#[derive(Clone, Copy)]
pub enum ScriptWrong<'a> {
    /// It has too many bytes.
    Size,
    /// The line of that number, from 1, is the first that is not valid.
    Line(usize, LineFault<'a>),
}

impl ScriptWrong<'_> {
    ghost use Rattle.std.specs.Prelude.{◌≡◌};
    ghost use Rattle.replay_text.specs.ScriptWrong.{script_fault_of};

    /// Its fault.
    pub fn fault(&self) -> ScriptFault
        ensures { result ≡ script_fault_of self.now }
    {
        match self {
            ScriptWrong::Size => ScriptFault::Size,
            ScriptWrong::Line(number, _) => ScriptFault::Line(*number),
        }
    }
}

impl fmt::Display for ScriptWrong<'_> {
    fn fmt<W: fmt::Write>(&self, f: &mut fmt::Formatter<W>) -> fmt::Result {
        let fault = self.fault();
        match self {
            ScriptWrong::Size => write!(f, "{fault}: at most {MAX_SCRIPT} bytes"),
            ScriptWrong::Line(_, cause) => write!(f, "{fault}: {cause}"),
        }
    }
}

/// The meaning of a script's line.
#[derive(Drop)]
pub enum Meaning<'a> {
    /// It is empty or a comment.
    Skipped,
    /// A step.
    Runs(Step<'a>),
    /// It is not valid.
    Bad,
}

/// What a line of a script says, for the tenants of these names, numbered from 0, and so many workers. A frame's bytes
/// are put into the room. Fails only if it is out of memory.
pub fn meaning_of<'a>(
    alloc: Global,
    names: &[Name],
    workers: usize,
    line: &'a [u8],
    room: &'a mut Vec<u8>,
) -> Result<Meaning<'a>, AllocError>
    ensures { IfOk result (λ meaning. meaning ≡ meaning_of names.now workers line.now) }
{
    match read_line(Parties { names, workers }, line) {
        Ok(Some(spelled)) => match step_of(alloc, &spelled, room)? {
            Some(step) => Ok(Meaning::Runs(step)),
            None => Ok(Meaning::Bad),
        },
        Ok(None) => Ok(Meaning::Skipped),
        Err(_) => Ok(Meaning::Bad),
    }
}

// Whether no line of a text is bad, the first of which has that number.
fn check_lines<'a>(
    alloc: Global,
    names: &[Name],
    workers: usize,
    first: usize,
    text: &'a [u8],
) -> Result<(), ReadError<ScriptWrong<'a>>>
    requires { first + length text.now ≤ MAX_SCRIPT + 1 }
    ensures { IsCheckedAs (script_fault_alone result) (steps_from names.now workers first (lines_of text.now)) }
{
    let mut rest = text;
    let mut number = first;
    while !rest.is_empty() {
        let (line, after) = first_line(rest);
        if let Some(cause) = line_fault(alloc, names, workers, line)? {
            return Err(ReadError::Fault(ScriptWrong::Line(number, cause)));
        }
        rest = after;
        number += 1;
    }
    Ok(())
}

/// Whether no line of a text is bad, the first of which has that number. The fault has the number of the first bad line.
pub(crate) fn lines_checked(
    alloc: Global,
    names: &[Name],
    workers: usize,
    first: usize,
    text: &[u8],
) -> Result<(), ReadError<ScriptFault>>
    requires { first + length text.now ≤ MAX_SCRIPT + 1 }
    ensures { IsCheckedAs result (steps_from names.now workers first (lines_of text.now)) }
{
    match check_lines(alloc, names, workers, first, text) {
        Ok(()) => Ok(()),
        Err(ReadError::Memory) => Err(ReadError::Memory),
        Err(ReadError::Fault(wrong)) => Err(ReadError::Fault(wrong.fault())),
    }
}

/// Whether a text is a script, for the tenants of these names, numbered from 0, and so many workers.
///
/// A script has at most [`MAX_SCRIPT`] bytes, otherwise the fault is `Size`. Its lines are ASCII, of at most
/// [`MAX_LINE`] bytes without the line feed that ends each. The last line may lack it. Empty lines and those that
/// begin with `#` are skipped. Any other line is one of these, with one space between two words:
///
/// - `load W TENANT TOKEN HEX`
/// - `decide W NOW`
/// - `answer W NOW HEX` or `answer W NOW fault`
/// - `tick TENANT NOW`
/// - `do TENANT NOW COMMAND`
///
/// The fault `Line` has the number, from 1, of the first line that is not valid.
pub fn check_script(
    alloc: Global,
    names: &[Name],
    workers: usize,
    text: &[u8],
) -> Result<(), ReadError<ScriptFault>>
    // What is good has steps.
    ensures found { OnOk result ((steps : List Step) × AreSteps names.now workers (lines_of text.now) steps) }
    // What has steps is good, unless memory runs out.
    ensures only { (steps : List Step) → length text.now ≤ MAX_SCRIPT
        → AreSteps names.now workers (lines_of text.now) steps → IsCheckedAs result (Ok steps) }
    // A line that is named is the first bad one.
    ensures first_bad { (number : ℕ) → result ≡ Err (ReadError.Fault (ScriptFault.Line number))
        → IsFirstBad names.now workers (lines_of text.now) number }
    // A text that is too long for a script has no other fault.
    ensures size { (result ≡ Err (ReadError.Fault ScriptFault.Size)) ↔ (MAX_SCRIPT < length text.now) }
    ensures exact { IsCheckedAs result (steps_of_script names.now workers text.now) }
{
    if text.len() > MAX_SCRIPT {
        return Err(ReadError::Fault(ScriptFault::Size));
    }
    lines_checked(alloc, names, workers, 1, text)
}

/// What is wrong with a script and why, `None` if it is good: the fault that [`check_script`] finds, and what would be
/// right in that line.
#[tactic(auto, unfolding(crate::specs::Script::steps_of_script))]
pub fn explain_script<'a>(
    alloc: Global,
    names: &[Name],
    workers: usize,
    text: &'a [u8],
) -> Result<Option<ScriptWrong<'a>>, AllocError>
    ensures exact { IfOk result (λ wrong. option_map script_fault_of wrong ≡ result_err (steps_of_script names.now workers text.now)) }
{
    if text.len() > MAX_SCRIPT {
        return Ok(Some(ScriptWrong::Size));
    }
    match check_lines(alloc, names, workers, 1, text) {
        Ok(()) => Ok(None),
        Err(ReadError::Memory) => Err(AllocError),
        Err(ReadError::Fault(wrong)) => Ok(Some(wrong)),
    }
}
