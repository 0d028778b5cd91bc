//! What a service audits at the end.

ghost use Rattle.std.specs.Prelude.{◌≡◌, ◌<◌, [], List, map, vec_len, true, false, All, IfErr, IfOk, OnOk};
ghost use Rattle.books_shared.specs.Shares.{receipts_told};
ghost use Rattle.receipts.specs.declared.fault.AuditFault.TheVariants as faults;
ghost use Rattle.tenant_core.specs.declared.period.PeriodParts.{PeriodParts};
ghost use Rattle.service.specs.Auditing.{AreLacking, HadMemory, HaveClosed, HaveEnded, HaveRolled, IsAudited, IsCount, IsAuditText, IsWrong, WasRolled};
ghost use Rattle.service.specs.Auditing.{audit_line, closed_also, fault_word, lists_of};
ghost use Rattle.service.specs.Lines.{audit_told};
ghost use Rattle.service.specs.Journal.{in_office};

use crate::office::Office;
use crate::running::ending::AuditEnd;
use crate::system::System;
use books_shared::Share;
use meters::{MeterSeat, Meters};
use one_list::Run;
use receipts::{AuditFault, Receipt, audit};
use std::alloc::{AllocError, Global};
use std::sync::Wait;
use tenant_core::{Answered, Command, CommandFault, Period};
use workers::{Clock, GovernFault, Tools, govern};

// Rolls a tenant, and keeps the period that it closes. A roll that is refused is left to the audit, unless it is out
// of memory.
fn roll<'x, J: Run, H: Wait + std::time::Clock, C: Clock>(
    system: &System<'x, H, C>,
    office: &'x Office<J>,
    meters: &'x Meters,
    seat: &mut MeterSeat,
    share: &mut Share<J>,
    tenant: usize,
    periods: &mut Vec<Period>,
) -> Result<(), AllocError>
    requires seat { seat.old.meters ≡ meters.now.id }
    requires books { tenant < office.now.books.tenants }
    requires meters { tenant < meters.now.tenants }
    ensures rolled { OnOk result (WasRolled (in_office (C.gives system.now.clock.now) office.now) tenant
        (record { share = share.old; closed = periods.old.items }) (record { share = share.new; closed = periods.new.items })) }
    ensures same_meters { seat.new.meters ≡ seat.old.meters }
{
    periods.reserve(1)?;
    let keeper = office.keeper(system.handle);
    let tools = Tools {
        rt: system.handle,
        alloc: system.alloc,
        books: &office.books,
        meters,
        clock: system.clock,
        keeping: &keeper,
    };
    let answer = govern(&tools, seat, share, tenant, &Command::Roll);
    keep(answer, periods)
}

// Keeps the period that a roll closed, in room that was made for it.
fn keep(answer: Result<Answered, GovernFault>, periods: &mut Vec<Period>) -> Result<(), AllocError>
    ensures kept { OnOk result (periods.new.items ≡ closed_also answer periods.old.items) }
    ensures memory { OnOk result (HadMemory answer) }
{
    match answer {
        Ok(Answered::Rolled(period)) => Ok(periods.push(period)?),
        Err(GovernFault::Memory | GovernFault::Refused(CommandFault::Memory)) => Err(AllocError),
        Ok(Answered::Done | Answered::Balances(_)) | Err(_) => Ok(()),
    }
}

// Rolls all tenants, one after another, with these meters.
fn roll_below<'x, J: Run, H: Wait + std::time::Clock, C: Clock>(
    system: &System<'x, H, C>,
    office: &'x Office<J>,
    meters: &'x Meters,
    seat: &mut MeterSeat,
    share: &mut Share<J>,
    periods: &mut Vec<Period>,
) -> Result<(), AllocError>
    requires seat { seat.old.meters ≡ meters.now.id }
    requires meters { meters.now.tenants ≡ office.now.books.tenants }
    ensures { OnOk result (HaveRolled (in_office (C.gives system.now.clock.now) office.now) office.now.books.tenants
        (record { share = share.old; closed = periods.old.items }) (record { share = share.new; closed = periods.new.items })) }
{
    for tenant in 0..office.books.tenants() {
        roll(system, office, meters, seat, share, tenant, periods)?;
    }
    Ok(())
}

// The same, with meters that nobody reads.
fn roll_each<J: Run, H: Wait + std::time::Clock, C: Clock>(
    system: &System<'_, H, C>,
    office: &Office<J>,
    share: &mut Share<J>,
    periods: &mut Vec<Period>,
) -> Result<(), AllocError>
    ensures { OnOk result (HaveRolled (in_office (C.gives system.now.clock.now) office.now) office.now.books.tenants
        (record { share = share.old; closed = periods.old.items }) (record { share = share.new; closed = periods.new.items })) }
{
    let tenants = office.books.tenants();
    if tenants == 0 {
        return Ok(());
    }
    let (meters, mut seat) = Meters::new(system.alloc, tenants)?;
    let near = System {
        handle: system.handle,
        alloc: system.alloc,
        clock: system.clock,
    };
    roll_below(&near, office, &meters, &mut seat, share, periods)
}

/// Closes the running period of each tenant by one of the shares, if `wanted`, and keeps what was closed. Fails only
/// if it is out of memory.
pub fn roll_all<J: Run, H: Wait + std::time::Clock, C: Clock>(
    system: &System<'_, H, C>,
    wanted: bool,
    office: &Office<J>,
    shares: &mut Vec<Share<J>>,
    periods: &mut Vec<Period>,
) -> Result<(), AllocError>
    requires { 0 < vec_len shares.old }
    ensures { OnOk result (HaveClosed (in_office (C.gives system.now.clock.now) office.now) wanted office.now.books.tenants
        shares.old.items shares.new.items periods.old.items periods.new.items) }
{
    if !wanted {
        return Ok(());
    }
    let Some(mut share) = shares.pop() else {
        unreachable!();
    };
    let rolled = roll_each(system, office, &mut share, periods);
    shares.push_reserved(share);
    rolled
}

/// The receipts of each worker, if all have kept them.
pub fn lists_of<J: Run>(alloc: Global, shares: &[Share<J>]) -> Result<Vec<&[Receipt]>, AuditFault>
    ensures lists { IfOk result (λ lists. map (λ list. list.now) lists.items ≡ lists_of shares.now) }
    ensures kept { IfOk result (λ lists. All (λ s. s.audited ≡ true) shares.now) }
    ensures lacking { IfErr result (AreLacking shares.now) }
{
    let mut lists = Vec::with_capacity(alloc, shares.len())?;
    for share in shares {
        lists.push_reserved(list_of(share)?);
    }
    Ok(lists)
}

// The receipts of a worker. If it has kept none, each of its records has no receipt.
fn list_of<J: Run>(share: &Share<J>) -> Result<&[Receipt], AuditFault>
    ensures list { IfOk result (λ list. list.now ≡ receipts_told share.now.steps) }
    ensures kept { IfOk result (λ list. share.now.audited ≡ true) }
    ensures lacking { IfErr result (λ fault. (fault ≡ faults.Missing) × (share.now.audited ≡ false)) }
{
    match share.receipts() {
        Some(list) => Ok(list),
        None => Err(AuditFault::Missing),
    }
}

// How many receipts the workers have, if they are complete.
fn count_audited<J: Run>(
    alloc: Global,
    periods: &[Period],
    shares: &[Share<J>],
) -> Result<usize, AuditFault>
    ensures count { IfOk result (IsCount periods.now shares.now) }
    ensures fault { IfErr result (IsWrong periods.now shares.now) }
{
    let lists = lists_of(alloc, shares)?;
    let audited = audit(alloc, periods, lists.as_slice())?;
    Ok(audited.receipts)
}

/// What an audit found.
#[derive(Drop)]
pub struct AuditReport {
    /// The line that reports it: empty without an audit, or if it was out of memory for it.
    pub line: Vec<u8>,
    pub end: AuditEnd,
}

/// Nothing, since it was out of memory.
pub fn lacked(alloc: Global) -> AuditReport
    ensures end { result.end ≡ AuditEnd.Lacked }
    ensures line { result.line.items ≡ [] }
{
    AuditReport {
        line: Vec::new(alloc),
        end: AuditEnd::Lacked,
    }
}

/// Audits what the workers did, if `wanted`, by all periods that were closed. Fails only if it is out of memory.
pub fn audited<J: Run>(
    alloc: Global,
    wanted: bool,
    periods: &[Period],
    shares: &[Share<J>],
) -> Result<AuditReport, AllocError>
    ensures good { IfOk result (λ found. found.end ≡ AuditEnd.Good → IsAudited wanted shares.now found.line.items) }
    ensures found { IfOk result (λ found. IsAuditText wanted periods.now shares.now found.end found.line.items) }
{
    if !wanted {
        return Ok(AuditReport {
            line: Vec::new(alloc),
            end: AuditEnd::Good,
        });
    }
    match count_audited(alloc, periods, shares) {
        Ok(receipts) => Ok(AuditReport {
            line: good_line(alloc, receipts)?,
            end: AuditEnd::Good,
        }),
        Err(fault) => Ok(AuditReport {
            line: audit_told(alloc, word_of(&fault)?)?,
            end: AuditEnd::Bad,
        }),
    }
}

/// The line of an audit that says yes to that many receipts.
pub fn good_line(alloc: Global, receipts: usize) -> Result<Vec<u8>, AllocError>
    ensures { IfOk result (λ line. line.items ≡ audit_line receipts) }
{
    let mut line = Vec::new(alloc);
    line.extend_from_slice(b"audit ok ")?;
    let count = receipts.to_string(alloc)?;
    line.extend_from_slice(count.as_bytes())?;
    line.push(b'\n')?;
    Ok(line)
}

/// The line of an audit with that outcome.
pub fn audit_told(alloc: Global, words: &[u8]) -> Result<Vec<u8>, AllocError>
    ensures { IfOk result (λ line. line.items ≡ audit_told words.now) }
{
    let mut line = Vec::new(alloc);
    line.extend_from_slice(b"audit ")?;
    line.extend_from_slice(words)?;
    line.push(b'\n')?;
    Ok(line)
}

/// The word for a fault. `Memory` has none: it is the error.
pub fn word_of(fault: &AuditFault) -> Result<&'static [u8], AllocError>
    ensures { IfOk result (λ word. word.now ≡ fault_word fault.now) }
{
    match fault {
        AuditFault::NoPeriod => Ok(b"no-period"),
        AuditFault::Gap => Ok(b"gap"),
        AuditFault::Twice => Ok(b"twice"),
        AuditFault::Missing => Ok(b"missing"),
        AuditFault::Differs => Ok(b"differs"),
        AuditFault::Order(_) => Ok(b"order"),
        AuditFault::Memory => Err(AllocError),
    }
}
