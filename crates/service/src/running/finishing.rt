//! What a service does once no worker works any more: it closes periods, writes statements and audits receipts.

ghost use Rattle.std.specs.Prelude.{◌≡◌, ◌≢◌, ◌<◌, ◌++◌, [], List, vec_len, true, false, IfOk, OnOk};
ghost use Rattle.tenant_core.specs.declared.period.PeriodParts.{PeriodParts};
ghost use Rattle.service.specs.Auditing.{HaveEnded, IsAudited, IsAuditText};
ghost use Rattle.service.specs.Extents.{closes_at_end};
ghost use Rattle.service.specs.Journal.{in_office};

use crate::filing::disk::Disk;
use crate::filing::file_each;
use crate::filing::folder::Folder;
use crate::filing::receipt_store::file_receipts;
use crate::office::Office;
use crate::running::auditing::{AuditReport, audited, lacked, roll_all};
use crate::running::ending::AuditEnd;
use crate::running::plan::Plan;
use crate::system::System;
use books_shared::Share;
use one_list::Run;
use std::alloc::AllocError;
use std::sync::Wait;
use tenant_core::Period;
use workers::Clock;

/// What a service prints last: a line for each period whose statement is not kept, one if the receipts are not, and
/// what an audit found.
#[derive(Drop)]
pub struct Last {
    pub missing: Vec<u8>,
    pub audit: AuditReport,
}

/// Periods and more of them, if there is memory to put them together.
pub fn with_more(periods: Option<Vec<Period>>, more: Vec<Period>) -> Option<Vec<Period>> {
    let mut all = periods?;
    for period in more {
        all.push(period).ok()?;
    }
    Some(all)
}

// The periods whose statements are not written yet, taken out of the backlog. Fails only if it is out of memory.
fn waiting_periods<J: Run, H: Wait, C>(
    system: &System<'_, H, C>,
    office: &Office<J>,
) -> Result<Vec<Period>, AllocError> {
    let mut all = Vec::new(system.alloc);
    let Some(filing) = &office.filing else {
        return Ok(all);
    };
    for tenant in 0..office.books.tenants() {
        for _ in 0..filing.backlog.len(system.handle, tenant) {
            all.reserve(1)?;
            let Some((period, written)) = filing.backlog.take(system.handle, tenant) else {
                break;
            };
            written.set_written(system.handle);
            all.push_reserved(period);
        }
    }
    Ok(all)
}

// Writes the statements of these periods, if statements are kept. Returns a line for each that is not kept now. Fails
// only if it is out of memory.
fn file_late<J: Run, H: Disk, C>(
    system: &System<'_, H, C>,
    office: &Office<J>,
    periods: &[Period],
) -> Result<Vec<u8>, AllocError> {
    match &office.filing {
        Some(filing) => {
            let path = filing.folder.as_str();
            let mut folder = Folder::new(system.handle, system.alloc, path);
            file_each(system.alloc, &mut folder, periods)
        }
        None => Ok(Vec::new(system.alloc)),
    }
}

// Writes the receipts of all workers, if they are kept and statements are. Appends a line to a text if they are not
// kept now. Fails only if it is out of memory.
fn file_receipts_late<J: Run, H: Disk, C>(
    system: &System<'_, H, C>,
    plan: Plan<'_>,
    office: &Office<J>,
    shares: &[Share<J>],
    lines: &mut Vec<u8>,
) -> Result<(), AllocError> {
    let Some(filing) = &office.filing else {
        return Ok(());
    };
    if !plan.report.audit {
        return Ok(());
    }
    let mut folder = Folder::new(system.handle, system.alloc, filing.folder.as_str());
    if file_receipts(system.alloc, &mut folder, shares) {
        return Ok(());
    }
    lines.extend_from_slice(b"receipts missing\n")
}

// Closes the periods that the plan closes, writes statements and receipts, and audits receipts. Fails only if it is
// out of memory.
fn finished<J: Run, H: Wait + std::time::Clock + Disk, C: Clock>(
    system: &System<'_, H, C>,
    plan: Plan<'_>,
    office: &Office<J>,
    shares: &mut Vec<Share<J>>,
    periods: Option<Vec<Period>>,
) -> Result<Last, AllocError>
    requires { 0 < vec_len shares.old }
    ensures ended { OnOk result (HaveEnded (in_office (C.gives system.now.clock.now) office.now) (closes_at_end plan.entry)
        office.now.books.tenants shares.old.items shares.new.items) }
    ensures audited { IfOk result (λ last. last.audit.end ≡ AuditEnd.Good
        → IsAudited plan.entry.report.audit shares.new.items last.audit.line.items) }
    ensures found { IfOk result (λ last. (closed : List PeriodParts)
        × IsAuditText plan.entry.report.audit closed shares.new.items last.audit.end last.audit.line.items) }
{
    let mut late = waiting_periods(system, office)?;
    roll_all(system, plan.closes(), office, shares, &mut late)?;
    let mut missing = file_late(system, office, late.as_slice())?;
    file_receipts_late(system, plan, office, shares.as_slice(), &mut missing)?;
    let closed = with_more(periods, late).ok_or(AllocError)?;
    let wanted = plan.report.audit;
    let audit = audited(system.alloc, wanted, closed.as_slice(), shares.as_slice())?;
    Ok(Last { missing, audit })
}

/// Closes the running periods, if the plan has an audit or statements, by one of the workers. Then writes the
/// statements that are not written yet, and the receipts, if both are kept. Then audits what the workers did, if the
/// plan has an audit. The audit uses the periods that were closed before, if there was memory to put them together.
pub fn finish<J: Run, H: Wait + std::time::Clock + Disk, C: Clock>(
    system: &System<'_, H, C>,
    plan: Plan<'_>,
    office: &Office<J>,
    shares: &mut Vec<Share<J>>,
    periods: Option<Vec<Period>>,
) -> Last
    requires { 0 < vec_len shares.old }
    ensures ended { result.audit.end ≡ AuditEnd.Good → HaveEnded (in_office (C.gives system.now.clock.now) office.now)
        (closes_at_end plan.entry) office.now.books.tenants shares.old.items shares.new.items }
    ensures audited { result.audit.end ≡ AuditEnd.Good → IsAudited plan.entry.report.audit shares.new.items result.audit.line.items }
    ensures found { (closed : List PeriodParts)
        × IsAuditText plan.entry.report.audit closed shares.new.items result.audit.end result.audit.line.items }
{
    match finished(system, plan, office, shares, periods) {
        Ok(last) => last,
        Err(AllocError) => Last {
            missing: Vec::new(system.alloc),
            audit: lacked(system.alloc),
        },
    }
}

/// What a service prints last, as a text.
#[derive(Drop)]
pub struct LastText {
    pub text: Vec<u8>,
    /// Whether all statements and receipts are kept: then the text is only what the audit found.
    pub is_stated: bool,
}

/// The lines of what is not kept, and after them the line of the audit.
pub fn followed_by(mut lines: Vec<u8>, last: &[u8]) -> Result<LastText, AllocError>
    ensures all { IfOk result (λ told. told.text.items ≡ lines.items ++ last.now) }
    ensures kept { IfOk result (λ told. told.is_stated ≡ true → told.text.items ≡ last.now) }
    ensures missing { IfOk result (λ told. told.is_stated ≡ false → lines.items ≢ []) }
{
    let is_stated = lines.is_empty();
    lines.extend_from_slice(last)?;
    Ok(LastText {
        text: lines,
        is_stated,
    })
}
