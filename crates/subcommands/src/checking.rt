//! What `check` says of a setup, and of a script for its tenants.

ghost use Rattle.std.specs.Prelude.{◌≡◌, ◌++◌, Some, None, IfOk, IfSome, OnOk, IsErr};
ghost use Rattle.std.specs.List.{flat_map};
ghost use Rattle.std.specs.Result.{result_err};
ghost use Rattle.admin_text.specs.Setup.{setup_of};
ghost use Rattle.replay_text.specs.Replay.{refusal_of};
ghost use Rattle.subcommands.specs.Checking.{good_text, key_line, note_line, SaysGood};

use crate::ending::Ending;
use admin_text::{IgnoredKey, Note, explain, ignored_keys, notes, read_setup};
use common_types::ReadError;
use replay_text::{ReplayFault, explain_script};
use std::alloc::{AllocError, Global};
use std::io;
use std::io::{ErrorKind, Write};

/// A script, and how many workers it has.
#[derive(Clone, Copy)]
pub struct Script<'a> {
    pub text: &'a [u8],
    pub workers: usize,
}

fn put_line(text: &mut Vec<u8>, key: &IgnoredKey) -> Result<(), AllocError>
    ensures { OnOk result (text.new.items ≡ text.old.items ++ key_line key.now) }
{
    text.extend_from_slice(key.words.as_bytes())?;
    text.extend_from_slice(b"\n")
}

fn put_lines(text: &mut Vec<u8>, keys: &[IgnoredKey]) -> Result<(), AllocError>
    ensures { OnOk result (text.new.items ≡ text.old.items ++ flat_map key_line keys.now) }
{
    for key in keys {
        put_line(text, key)?;
    }
    Ok(())
}

fn put_note(text: &mut Vec<u8>, note: &Note) -> Result<(), AllocError>
    ensures { OnOk result (text.new.items ≡ text.old.items ++ note_line note.now) }
{
    note.put_words(text)?;
    text.extend_from_slice(b"\n")
}

fn put_notes(text: &mut Vec<u8>, notes: &[Note]) -> Result<(), AllocError>
    ensures { OnOk result (text.new.items ≡ text.old.items ++ flat_map note_line notes.now) }
{
    for note in notes {
        put_note(text, note)?;
    }
    Ok(())
}

// `good`, and a line for each key that is ignored and for each note.
fn good_text(alloc: Global, keys: &[IgnoredKey], notes: &[Note]) -> Result<Vec<u8>, AllocError>
    ensures { IfOk result (λ text. text.items ≡ good_text keys.now notes.now) }
{
    let mut text = Vec::new(alloc);
    text.extend_from_slice(b"good\n")?;
    put_lines(&mut text, keys)?;
    put_notes(&mut text, notes)?;
    Ok(text)
}

fn memory_refused(_: AllocError) -> Ending {
    Ending::Fault(ReplayFault::Memory)
}

/// How a run ends whose file or stream failed so.
pub fn ending_of(why: ErrorKind) -> Ending {
    Ending::Fault(if why == ErrorKind::OutOfMemory {
        ReplayFault::Memory
    } else {
        ReplayFault::Device
    })
}

/// How a run ends whose standard output failed.
pub fn printing(error: io::Error) -> Ending {
    ending_of(error.kind())
}

// Says in a line what is wrong.
fn refuse<W: Write>(writer: &mut W, words: &str, fault: ReplayFault) -> Result<(), Ending>
    ensures { IsErr result }
{
    writer.write_all(words.as_bytes()).map_err(printing)?;
    writer.write_all(b"\n").map_err(printing)?;
    Err(Ending::Fault(fault))
}

// Says what is wrong with a script for the tenants of a setup, and nothing if it is good.
fn check_script<W: Write>(
    alloc: Global,
    setup: &[u8],
    script: Script<'_>,
    writer: &mut W,
) -> Result<(), Ending>
    ensures good { OnOk result (refusal_of (setup_of setup.now) script.entry.workers script.entry.text.now ≡ None) }
    ensures silent { OnOk result (writer.new ≡ writer.old) }
{
    let setup = match read_setup(alloc, setup) {
        Ok(setup) => setup,
        Err(ReadError::Memory) => return Err(Ending::Fault(ReplayFault::Memory)),
        Err(ReadError::Fault(fault)) => return Err(Ending::Fault(ReplayFault::Setup(fault))),
    };
    let names = setup.names(alloc).map_err(memory_refused)?;
    let found = explain_script(alloc, names.as_slice(), script.workers, script.text).map_err(
        memory_refused,
    )?;
    match found {
        None => Ok(()),
        Some(wrong) => {
            let words = wrong.to_string(alloc).map_err(memory_refused)?;
            refuse(writer, words.as_str(), ReplayFault::Script(wrong.fault()))
        }
    }
}

/// Says whether a setup is good, and a script for its tenants, if there is one. Prints `good`, a line for each key of
/// the setup that is ignored, and one for each thing that may be wrong with its money. If one of the two is bad, it
/// says in a line what is wrong, and ends with the fault that a replay has for it.
pub fn check<W: Write>(
    alloc: Global,
    setup: &[u8],
    script: Option<Script<'_>>,
    writer: &mut W,
) -> Result<(), Ending>
    ensures setup { OnOk result (result_err (setup_of setup.now) ≡ None) }
    ensures script { OnOk result (IfSome script.entry (λ s. refusal_of (setup_of setup.now) s.workers s.text.now ≡ None)) }
    ensures said { OnOk result (SaysGood setup.now (W.contents writer.old) (W.contents writer.new)) }
{
    let found = explain(alloc, setup).map_err(memory_refused)?;
    if let Some(explained) = found {
        return refuse(
            writer,
            explained.words.as_str(),
            ReplayFault::Setup(explained.fault),
        );
    }
    if let Some(script) = script {
        check_script(alloc, setup, script, writer)?;
    }
    let keys = ignored_keys(alloc, setup).map_err(memory_refused)?;
    let found = notes(alloc, setup).map_err(memory_refused)?;
    let text = good_text(alloc, keys.as_slice(), found.as_slice()).map_err(memory_refused)?;
    writer.write_all(text.as_slice()).map_err(printing)
}
