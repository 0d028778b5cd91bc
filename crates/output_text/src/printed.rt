//! The lines that are printed of outputs and answers.

ghost use Rattle.std.specs.Prelude.{◌≡◌, ◌++◌, ◌∷◌, [], IfOk, OnOk, codes};
ghost use Rattle.std.specs.Fmt.{decimal, signed_decimal};
ghost use Rattle.hex.specs.Hex.{encode_lower};
ghost use Rattle.output_text.specs.Printed.{tenant_name, malformed_word, tick_text, output_words, output_line, printed_lines};
ghost use Rattle.output_text.specs.Printed.{Puts, answer_lines, refusal_word, row_line, command_text};
ghost use Rattle.std.specs.List.{flat_map};
ghost use Rattle.floor_core.specs.Outputs.{shown};

use crate::hexadecimal::put_hex;
use common_types::Name;
use floor_core::{Floor, Malformed, Output, StepOutput};
use itoa::Buffer;
use std::alloc::{AllocError, Global};
use tenant_core::{Answered, BookFault, CommandFault, Row};

fn name_of(names: &[Name], tenant: usize) -> &[u8]
    ensures { result.now ≡ tenant_name names.now tenant }
{
    match names.get(tenant) {
        Some(name) => name.as_bytes(),
        None => &[],
    }
}

fn word_of(kind: Malformed) -> &'static [u8]
    ensures { result.now ≡ malformed_word kind }
{
    match kind {
        Malformed::Token => b"token",
        Malformed::Kind => b"kind",
        Malformed::Oer => b"oer",
        Malformed::Field => b"field",
        Malformed::AfterEnd => b"after",
        Malformed::Size => b"size",
    }
}

fn put_decimal(out: &mut Vec<u8>, number: u64) -> Result<(), AllocError>
    ensures { Puts result out.old out.new (decimal number) }
{
    let mut digits = Buffer::new();
    out.extend_from_slice(digits.format(number).as_bytes())
}

// The words for a packet that goes on, after the tenant's name.
fn put_send(out: &mut Vec<u8>, peer: &[u8], hold: u64, frame: &[u8]) -> Result<(), AllocError>
    ensures { Puts result out.old out.new (codes " send " ++ peer.now ++ codes " " ++ decimal hold ++ codes " " ++ encode_lower frame.now) }
{
    out.extend_from_slice(b" send ")?;
    out.extend_from_slice(peer)?;
    out.push(b' ')?;
    put_decimal(out, hold)?;
    out.push(b' ')?;
    put_hex(out, frame)
}

// The words for a tick, after the tenant's name.
fn put_ticked(out: &mut Vec<u8>, answer: Result<u32, BookFault>) -> Result<(), AllocError>
    ensures { Puts result out.old out.new (tick_text answer) }
{
    match answer {
        Ok(count) => {
            out.extend_from_slice(b" ticked ")?;
            put_decimal(out, count as u64)
        }
        Err(BookFault::Full) => out.extend_from_slice(b" refused full"),
    }
}

fn refusal_word(fault: CommandFault) -> &'static [u8]
    ensures { result.now ≡ refusal_word fault }
{
    match fault {
        CommandFault::Full => b"full",
        CommandFault::InUse => b"in-use",
        CommandFault::Present => b"present",
        CommandFault::Absent => b"absent",
        CommandFault::Limit => b"limit",
        CommandFault::Memory => b"memory",
    }
}

fn put_signed(out: &mut Vec<u8>, number: i64) -> Result<(), AllocError>
    ensures { Puts result out.old out.new (signed_decimal number) }
{
    let mut digits = Buffer::new();
    out.extend_from_slice(digits.format(number).as_bytes())
}

// What a peer owes, and what is held from it and for it.
#[tactic(auto, unfolding(crate::specs::Printed::row_line))]
fn put_row(out: &mut Vec<u8>, name: &[u8], row: &Row) -> Result<(), AllocError>
    ensures { Puts result out.old out.new (row_line name.now row.now) }
{
    out.extend_from_slice(name)?;
    out.extend_from_slice(b" balance ")?;
    out.extend_from_slice(row.name.as_bytes())?;
    out.push(b' ')?;
    put_signed(out, row.balance)?;
    out.push(b' ')?;
    put_decimal(out, row.held_in)?;
    out.push(b' ')?;
    put_decimal(out, row.held_out)?;
    out.push(b'\n')?;
    Ok(())
}

fn put_rows(out: &mut Vec<u8>, name: &[u8], rows: &[Row]) -> Result<(), AllocError>
    ensures { Puts result out.old out.new (flat_map (row_line name.now) rows.now) }
{
    for row in rows {
        put_row(out, name, row)?;
    }
    Ok(())
}

// The answer to a command.
fn put_governed(
    out: &mut Vec<u8>,
    name: &[u8],
    answer: &Result<Answered, CommandFault>,
) -> Result<(), AllocError>
    ensures { Puts result out.old out.new (command_text name.now answer.now) }
{
    match answer {
        Ok(Answered::Done) => {
            out.extend_from_slice(name)?;
            out.extend_from_slice(b" ok")
        }
        Ok(Answered::Balances(rows)) => {
            put_rows(out, name, rows.as_slice())?;
            out.extend_from_slice(name)?;
            out.extend_from_slice(b" ok")
        }
        Ok(Answered::Rolled(period)) => {
            put_rows(out, name, period.rows())?;
            out.extend_from_slice(name)?;
            out.extend_from_slice(b" rolled ")?;
            put_decimal(out, period.number())?;
            out.push(b' ')?;
            put_decimal(out, period.len() as u64)
        }
        Err(fault) => {
            out.extend_from_slice(name)?;
            out.extend_from_slice(b" refused ")?;
            out.extend_from_slice(refusal_word(*fault))
        }
    }
}

/// Appends the lines of a command's answer to a text, each ended by a line feed, for the tenant of that number among
/// these names. Fails only if it is out of memory.
pub fn put_answer(
    names: &[Name],
    tenant: usize,
    out: &mut Vec<u8>,
    answer: &Result<Answered, CommandFault>,
) -> Result<(), AllocError>
    ensures { OnOk result (out.new.items ≡ out.old.items ++ answer_lines (tenant_name names.now tenant) answer.now) }
{
    put_governed(out, name_of(names, tenant), answer)?;
    out.push(b'\n')?;
    Ok(())
}

// The tenant's name, and words after it.
#[inline(always)]
fn put_named(
    names: &[Name],
    tenant: usize,
    out: &mut Vec<u8>,
    words: &[u8],
) -> Result<(), AllocError>
    ensures { Puts result out.old out.new (tenant_name names.now tenant ++ words.now) }
{
    out.extend_from_slice(name_of(names, tenant))?;
    out.extend_from_slice(words)
}

// The reply to the sender of a packet.
fn put_reply(
    names: &[Name],
    tenant: usize,
    out: &mut Vec<u8>,
    reply: &[u8],
) -> Result<(), AllocError>
    ensures { Puts result out.old out.new (tenant_name names.now tenant ++ codes " reply " ++ encode_lower reply.now) }
{
    put_named(names, tenant, out, b" reply ")?;
    put_hex(out, reply)
}

fn put_text(names: &[Name], out: &mut Vec<u8>, output: &Output) -> Result<(), AllocError>
    ensures { Puts result out.old out.new (output_words names.now output.now) }
{
    match output {
        Output::Busy => out.extend_from_slice(b"- busy"),
        Output::Idle => out.extend_from_slice(b"- idle"),
        Output::Loaded { tenant, call } => {
            put_named(names, *tenant, out, b" loaded ")?;
            put_decimal(out, *call)
        }
        Output::Bad { tenant, kind } => {
            put_named(names, *tenant, out, b" bad ")?;
            out.extend_from_slice(word_of(*kind))
        }
        Output::Stranger { tenant } => put_named(names, *tenant, out, b" stranger"),
        Output::Reply { tenant, bytes } => put_reply(names, *tenant, out, bytes.as_slice()),
        Output::Ticked { tenant, answer } => {
            out.extend_from_slice(name_of(names, *tenant))?;
            put_ticked(out, *answer)
        }
        Output::Governed { tenant, answer } => {
            put_governed(out, name_of(names, *tenant), answer)
        }
        Output::Send {
            tenant,
            peer,
            hold,
            frame,
        } => {
            out.extend_from_slice(name_of(names, *tenant))?;
            put_send(out, peer.as_bytes(), *hold, frame.as_slice())
        }
    }
}

#[tactic(auto, unfolding(crate::specs::Printed::output_line))]
fn put_line(names: &[Name], out: &mut Vec<u8>, output: &Output) -> Result<(), AllocError>
    ensures { OnOk result (out.new.items ≡ out.old.items ++ output_line names.now output.now) }
{
    put_text(names, out, output)?;
    out.push(b'\n')?;
    Ok(())
}

// The output of a step, in words.
fn put_told_text(
    names: &[Name],
    out: &mut Vec<u8>,
    floor: &Floor,
    told: &StepOutput,
) -> Result<(), AllocError>
    ensures { Puts result out.old out.new (output_words names.now (shown floor.now.seats told.now)) }
{
    match told {
        StepOutput::Whole(output) => put_text(names, out, output),
        StepOutput::Reply { worker, tenant } => put_reply(
            names,
            *tenant,
            out,
            floor.reply(*worker),
        ),
        StepOutput::Send {
            worker,
            tenant,
            peer,
            hold,
        } => {
            out.extend_from_slice(name_of(names, *tenant))?;
            put_send(out, peer.as_bytes(), *hold, floor.frame(*worker))
        }
    }
}

/// Appends the lines for the output of a step of the floor to a text, for the tenants of these names. Fails only if it
/// is out of memory.
#[tactic(auto, unfolding(crate::specs::Printed::output_line))]
pub fn put_told(
    names: &[Name],
    out: &mut Vec<u8>,
    floor: &Floor,
    told: &StepOutput,
) -> Result<(), AllocError>
    ensures { Puts result out.old out.new (output_line names.now (shown floor.now.seats told.now)) }
{
    put_told_text(names, out, floor, told)?;
    out.push(b'\n')?;
    Ok(())
}

// The lines of some outputs.
fn put_lines(names: &[Name], out: &mut Vec<u8>, outputs: &[Output]) -> Result<(), AllocError>
    ensures { OnOk result (out.new.items ≡ out.old.items ++ printed_lines names.now outputs.now) }
{
    for output in outputs {
        put_line(names, out, output)?;
    }
    Ok(())
}

/// The lines of some outputs, one or more for each, each ended by a line feed, for the tenants of these names,
/// numbered from 0. Fails only if it is out of memory.
pub fn print_lines(alloc: Global, names: &[Name], outputs: &[Output]) -> Result<Vec<u8>, AllocError>
    ensures { IfOk result (λ text. text.items ≡ printed_lines names.now outputs.now) }
{
    let mut out = Vec::new(alloc);
    put_lines(names, &mut out, outputs)?;
    Ok(out)
}
