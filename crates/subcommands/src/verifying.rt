//! What `verify` says of the statements of a tenant, one after another.

ghost use Rattle.std.specs.Prelude.{◌≡◌, [], ◌∷◌, ◌++◌, List, Ok, IfOk, OnOk, IsErr, option_map};
ghost use Rattle.admin_text.specs.Setup.{setup_of};
ghost use Rattle.statements.specs.Chain.{IsChain, Link};
ghost use Rattle.statements.specs.Chain.Link.{Stated};
ghost use Rattle.statements.specs.Due.{opening_due};
ghost use Rattle.statements.specs.Gone.{IsGood};
ghost use Rattle.subcommands.specs.Verifying.{GoesOnBy, IsSummaryOf, TellsSummary};
ghost use Rattle.std.specs.Io.KnownBytes.{Appends};

use crate::checking::printing;
use crate::ending::Ending;
use admin_text::{Setup, read_setup};
use common_types::{Name, ReadError};
use replay_text::ReplayFault;
use statements::{Chain, ChainFault, GoodStatement, Long, StatementFault, line_at, line_of, ruled};
use std::alloc::{AllocError, Global};
use std::io::Write;
use tenant_core::TenantSetup;

/// How a run ends that is out of memory.
pub fn memory_refused(_: AllocError) -> Ending {
    Ending::Fault(ReplayFault::Memory)
}

// A digit of a byte's number, in base 16.
fn digit_of(value: u8) -> u8 {
    let value = value % 16;
    if value < 10 {
        b'0' + value
    } else {
        b'a' + (value - 10)
    }
}

// The bytes of a text that somebody else has written, as far as they can be printed; the others by their numbers, as \x1b.
fn put_shown(out: &mut Vec<u8>, text: &[u8]) -> Result<(), AllocError> {
    for byte in text {
        match *byte {
            b' '..=b'~' => out.push(*byte)?,
            other => {
                out.extend_from_slice(b"\\x")?;
                out.push(digit_of(other / 16))?;
                out.push(digit_of(other))?;
            }
        }
    }
    Ok(())
}

// A line of a text after these words; the text may have ended before it.
fn put_line(out: &mut Vec<u8>, words: &str, text: &[u8], line: usize) -> Result<(), AllocError> {
    out.extend_from_slice(words.as_bytes())?;
    match line_at(text, line) {
        Some(bytes) => put_shown(out, bytes)?,
        None => out.extend_from_slice(b"(nothing)")?,
    }
    out.extend_from_slice(b"\n")
}

/// `FILE: line N: REASON`, the line as it is, and the line that it has to be, if that is known.
pub fn put_place(
    out: &mut Vec<u8>,
    alloc: Global,
    text: &[u8],
    line: Option<usize>,
    reason: &str,
    right: Option<&[u8]>,
) -> Result<(), AllocError> {
    let Some(line) = line else {
        out.extend_from_slice(reason.as_bytes())?;
        return out.extend_from_slice(b"\n");
    };
    let digits = line.to_string(alloc)?;
    out.extend_from_slice(b"line ")?;
    out.extend_from_slice(digits.as_bytes())?;
    out.extend_from_slice(b": ")?;
    out.extend_from_slice(reason.as_bytes())?;
    out.extend_from_slice(b"\n")?;
    put_line(out, "it says: ", text, line)?;
    match right {
        Some(right) => put_line(out, "it has to say: ", right, line),
        None => Ok(()),
    }
}

/// What is said of a file begins with its name.
pub fn begun(alloc: Global, file: &str) -> Result<Vec<u8>, AllocError> {
    let mut out = Vec::from_slice(alloc, file.as_bytes())?;
    out.extend_from_slice(b": ")?;
    Ok(out)
}

/// Says what is wrong, and returns how the run ends.
pub fn refuse<W: Write>(writer: &mut W, words: &[u8]) -> Result<(), Ending>
    ensures { IsErr result }
{
    writer.write_all(words).map_err(printing)?;
    Err(Ending::NotGood)
}

// Why a text does not go on with a chain, but for the number of the line.
fn reason_of(alloc: Global, fault: ChainFault) -> Result<String, AllocError> {
    match fault {
        ChainFault::Statement(StatementFault::Differs(_)) => {
            String::from_str(alloc, "not what the rules lead to")
        }
        ChainFault::Apart(_) => {
            String::from_str(alloc, "not what the statement before it ended with")
        }
        ChainFault::Unlike(_) => String::from_str(alloc, "not what the setup leads to"),
        other => other.to_string(alloc),
    }
}

// The right text for one that is wrong, if that is known.
fn right_text(
    alloc: Global,
    chain: &Chain,
    text: &[u8],
    fault: ChainFault,
) -> Result<Option<Vec<u8>>, AllocError> {
    match fault {
        ChainFault::Apart(_) | ChainFault::Unlike(_) => Ok(Some(chain.next_head(alloc)?)),
        ChainFault::Statement(StatementFault::Differs(_)) => match ruled(alloc, text) {
            Ok(ruled) => Ok(Some(ruled)),
            Err(ReadError::Memory) => Err(AllocError),
            Err(ReadError::Fault(_)) => Ok(None),
        },
        _ => Ok(None),
    }
}

// What is said of a text that does not go on with a chain.
fn fault_words(
    alloc: Global,
    chain: &Chain,
    file: &str,
    text: &[u8],
    fault: ChainFault,
) -> Result<Vec<u8>, AllocError> {
    let reason = reason_of(alloc, fault)?;
    let line = line_of(text, fault);
    let mut out = begun(alloc, file)?;
    match right_text(alloc, chain, text, fault)? {
        Some(right) => {
            let right = right.as_slice();
            put_place(&mut out, alloc, text, line, reason.as_str(), Some(right))?;
        }
        None => put_place(&mut out, alloc, text, line, reason.as_str(), None)?,
    }
    Ok(out)
}

/// What the text of a file states, if it is good. Otherwise it says why it is not, and the run ends.
pub fn good_in<'a, W: Write>(
    alloc: Global,
    file: &str,
    text: &'a [u8],
    writer: &mut W,
) -> Result<GoodStatement<'a>, Ending>
    ensures text { IfOk result (λ good. good.text.now ≡ text.now) }
    ensures good { IfOk result IsGood }
    ensures silent { OnOk result (writer.new ≡ writer.old) }
{
    match GoodStatement::of(alloc, text) {
        Ok(good) => Ok(good),
        Err(ReadError::Memory) => Err(Ending::Fault(ReplayFault::Memory)),
        Err(ReadError::Fault(fault)) => {
            let chain = Chain::new(alloc);
            let fault = ChainFault::Statement(fault);
            Err(refusal(alloc, &chain, file, text, fault, writer))
        }
    }
}

// Says why the text of a file does not go on with a chain, and returns how the run ends.
fn refusal<W: Write>(
    alloc: Global,
    chain: &Chain,
    file: &str,
    text: &[u8],
    fault: ChainFault,
    writer: &mut W,
) -> Ending {
    let told = match fault_words(alloc, chain, file, text, fault) {
        Ok(words) => refuse(writer, words.as_slice()),
        Err(error) => Err(memory_refused(error)),
    };
    match told {
        Ok(()) => Ending::NotGood,
        Err(ending) => ending,
    }
}

/// Takes the next statement of a chain, which is in that file. If it does not go on, it says so, with the line as it is
/// written and as it has to be, and the run ends.
pub fn join<W: Write>(
    alloc: Global,
    chain: &mut Chain,
    file: &str,
    good: &GoodStatement<'_>,
    writer: &mut W,
) -> Result<(), Ending>
    requires { IsGood good.now }
    ensures chain { OnOk result ((links : List Link) → IsChain links chain.old → IsChain (links ++ Stated good.now.text.now ∷ []) chain.new) }
    ensures silent { OnOk result (writer.new ≡ writer.old) }
{
    match chain.join(alloc, good) {
        Ok(()) => Ok(()),
        Err(ReadError::Memory) => Err(Ending::Fault(ReplayFault::Memory)),
        Err(ReadError::Fault(fault)) => {
            Err(refusal(alloc, chain, file, good.text(), fault, writer))
        }
    }
}

/// Takes the text of a file as the next statement of a chain. If it is not good, or does not go on, it says so, with
/// the line as it is written and as it has to be, and the run ends.
pub fn take<W: Write>(
    alloc: Global,
    chain: &mut Chain,
    file: &str,
    text: &[u8],
    writer: &mut W,
) -> Result<(), Ending>
    ensures chain { OnOk result ((links : List Link) → IsChain links chain.old → IsChain (links ++ Stated text.now ∷ []) chain.new) }
    ensures silent { OnOk result (writer.new ≡ writer.old) }
{
    let good = good_in(alloc, file, text, writer)?;
    join(alloc, chain, file, &good, writer)
}

// The summary of a chain's statements.
fn summary_of(alloc: Global, chain: &Chain) -> Result<Vec<u8>, ReadError<Long>>
    ensures { IfOk result (λ text. IsSummaryOf chain.now text.items) }
{
    chain.summary(alloc)
}

/// Writes a text.
pub fn write<W: Write>(writer: &mut W, text: &[u8]) -> Result<(), Ending>
    ensures { OnOk result (Appends (W.contents writer.old) (W.contents writer.new) text.now) }
{
    writer.write_all(text).map_err(printing)
}

/// Prints the summary of a chain's statements.
pub fn tell<W: Write>(alloc: Global, chain: &Chain, writer: &mut W) -> Result<(), Ending>
    ensures { OnOk result (TellsSummary chain.now (W.contents writer.old) (W.contents writer.new)) }
{
    match summary_of(alloc, chain) {
        Ok(text) => write(writer, text.as_slice()),
        Err(ReadError::Memory) => Err(Ending::Fault(ReplayFault::Memory)),
        Err(ReadError::Fault(Long)) => refuse(writer, b"too long to be summed up\n"),
    }
}

/// The name of the tenant whose statement a text is, by its line `tenant PLACE NAME ..`.
pub fn name_in(text: &[u8]) -> &[u8] {
    let line = line_at(text, 2).unwrap_or(&[]);
    line.split(|byte| *byte == b' ').nth(2).unwrap_or(&[])
}

/// The name of the tenant whose statements a chain took, if it took any.
pub fn tenant_of(chain: &Chain) -> Option<Name>
    ensures { result ≡ option_map (λ opening. opening.name) (opening_due chain.now.due) }
{
    Some(chain.opening_due()?.name.copy())
}

// The place of the tenant of that name, or the number of tenants if none has it.
fn place_in(setup: &Setup, name: &[u8]) -> usize {
    let tenants = setup.tenants.as_slice();
    for place in 0..tenants.len() {
        if tenants[place].terms().name.as_bytes() == name {
            return place;
        }
    }
    tenants.len()
}

fn setup_in(alloc: Global, text: &[u8]) -> Result<Setup, Ending>
    ensures { IfOk result (λ setup. setup_of text.now ≡ Ok setup) }
{
    match read_setup(alloc, text) {
        Ok(setup) => Ok(setup),
        Err(ReadError::Memory) => Err(Ending::Fault(ReplayFault::Memory)),
        Err(ReadError::Fault(fault)) => Err(Ending::Fault(ReplayFault::Setup(fault))),
    }
}

// What is said of a setup that does not go on.
fn setup_words(
    alloc: Global,
    chain: &Chain,
    file: &str,
    tenant: &TenantSetup,
    fault: ChainFault,
) -> Result<Vec<u8>, AllocError> {
    let reason = fault.to_string(alloc)?;
    let mut out = begun(alloc, file)?;
    put_place(&mut out, alloc, b"", None, reason.as_str(), None)?;
    if let Some(lines) = chain.differing_lines(alloc, tenant)? {
        put_line(&mut out, "it says: ", lines.said.as_slice(), 1)?;
        put_line(&mut out, "it has to say: ", lines.due.as_slice(), 1)?;
    }
    Ok(out)
}

// What is said of a setup without the tenant of the statements.
fn stranger_words(alloc: Global, file: &str, name: &[u8]) -> Result<Vec<u8>, AllocError> {
    let mut out = begun(alloc, file)?;
    out.extend_from_slice(b"no tenant is called ")?;
    out.extend_from_slice(name)?;
    out.extend_from_slice(b"\n")?;
    Ok(out)
}

/// A file that the command line names, and all that is in it.
#[derive(Clone, Copy)]
pub struct TextFile<'a> {
    pub file: &'a str,
    pub text: &'a [u8],
}

/// Takes a setup that the service began with as what a chain goes on with, for the tenant of that name. If it does not
/// go on, or has no such tenant, the run ends with words that say what is wrong with the setup's file.
pub fn begin<W: Write>(
    alloc: Global,
    chain: &mut Chain,
    setup: &[u8],
    name: &[u8],
    file: &str,
    writer: &mut W,
) -> Result<(), Ending>
    ensures begins { OnOk result (GoesOnBy (setup_of setup.now) chain.old chain.new) }
    ensures silent { OnOk result (writer.new ≡ writer.old) }
{
    let setup = setup_in(alloc, setup)?;
    let place = place_in(&setup, name);
    let Some(tenant) = setup.tenants.as_slice().get(place) else {
        let words = stranger_words(alloc, file, name).map_err(memory_refused)?;
        return refuse(writer, words.as_slice());
    };
    match chain.begin(alloc, place, tenant, setup.start) {
        Ok(()) => Ok(()),
        Err(ReadError::Memory) => Err(Ending::Fault(ReplayFault::Memory)),
        Err(ReadError::Fault(fault)) => {
            let words = setup_words(alloc, chain, file, tenant, fault).map_err(memory_refused)?;
            refuse(writer, words.as_slice())
        }
    }
}
