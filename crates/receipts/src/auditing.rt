//! The audit.

ghost use Rattle.std.specs.Prelude.{◌≡◌, length, map, count_by, ◌==◌, IfOk, IfErr};
ghost use Rattle.receipts.specs.Audits.{AreMatched, IsComplete, points_of, receipts_of, tenant_count};
ghost use Rattle.joint_order.specs.Orders.{AreHeld};
ghost use Rattle.receipts.specs.Layout.{AreOfRolls, IsAuditFault};
ghost use Rattle.receipts.specs.Runs.{AreOfRun};

use crate::chains::{are_kept, check_joined, index_of};
use crate::check::{are_held_whole, note_lists};
use crate::fault::AuditFault;
use crate::layout::{Laid, lay_out};
use crate::receipt::Receipt;
use common_types::Items;
use joint_order::{Joined, ListPoint, join};
use std::alloc::Global;
use tenant_core::Period;

/// What an audit found right.
#[derive(Drop)]
pub struct Audited {
    /// How many tenants have a period.
    pub tenants: usize,
    /// How many periods there are.
    pub periods: usize,
    /// How many receipts there are.
    pub receipts: usize,
    /// The numbers of the lists, in an order in which each takes its next receipt.
    pub order: Items<usize>,
}

fn tenants_of(periods: &[Period]) -> usize
    ensures { result ≡ tenant_count periods.now }
{
    let mut count = 0;
    for period in periods {
        if period.number() == 0 {
            count += 1;
        }
    }
    count
}

// Checks that receipts and periods fit, but for an order, and gives the places of all receipts, and of each entry the list that
// holds its receipt.
fn matched(
    alloc: Global,
    periods: &[Period],
    lists: &[&[Receipt]],
) -> Result<(Vec<Items<ListPoint>>, Vec<Items<Option<usize>>>), AuditFault>
    requires kept { AreOfRolls periods.now }
    ensures matched { IfOk result (λ found. AreMatched periods.now (map (λ list. list.now) lists.now)) }
    ensures points { IfOk result (λ found. found.0.items ≡ points_of periods.now (map (λ list. list.now) lists.now)) }
    ensures held { IfOk result (λ found. AreHeld found.0.items found.1.items) }
    ensures fault { IfErr result (IsAuditFault periods.now (map (λ list. list.now) lists.now)) }
{
    let index = index_of(alloc, periods)?;
    check_joined(&index, periods)?;
    let (offsets, mut holders) = lay_out(alloc, &index, periods)?;
    let laid = Laid {
        periods,
        index: &index,
        offsets: &offsets,
    };
    let points = note_lists(alloc, &laid, &mut holders, lists)?;
    if !are_held_whole(&laid, &holders) {
        return Err(AuditFault::Missing);
    }
    let holders = holders.into_items(alloc)?;
    Ok((points, holders))
}

/// Checks receipts, a list for each worker, against closed periods:
///
/// - Each tenant's periods are all there from the first on, and join.
/// - Each record of them has one receipt, which shows just that record.
/// - There is an order of all receipts that keeps each tenant's journal and each list.
///
/// Then the receipts, in that order, are the records of a run. It starts from the tenants' first periods and ends as
/// the last ones did. Periods and lists may come in any order. The audit does not trust the one who kept the receipts.
/// A `Period` says what a roll closed, by its type. The time grows in proportion to the receipts, plus a search for
/// the period of each.
///
/// Each error says that its fault is there. `Order` comes only if none of the others is there. If there are several,
/// any of them may be returned. `Memory` means out of memory.
pub fn audit(alloc: Global, periods: &[Period], lists: &[&[Receipt]]) -> Result<Audited, AuditFault>
    ensures complete { IfOk result (λ audited. IsComplete periods.now (map (λ list. list.now) lists.now) audited.order) }
    ensures run { IfOk result (λ audited. AreOfRun periods.now (map (λ list. list.now) lists.now) audited.order) }
    ensures counts { IfOk result (λ audited. (audited.tenants ≡ tenant_count periods.now) × (audited.periods ≡ length periods.now)
        × (audited.receipts ≡ receipts_of (map (λ list. list.now) lists.now))) }
    ensures fault { IfErr result (IsAuditFault periods.now (map (λ list. list.now) lists.now)) }
{
    are_kept(periods);
    crate::laws::complete_receipts_are_a_run();
    let (points, holders) = matched(alloc, periods, lists)?;
    match join(alloc, &points, &holders)? {
        Joined::Order(order) => Ok(Audited {
            tenants: tenants_of(periods),
            periods: periods.len(),
            receipts: order.len(),
            order: Items::from_vec(order),
        }),
        Joined::Stuck(front) => Err(AuditFault::Order(front)),
    }
}
