//! Laws of receipts, each the contract of a function that does nothing.

ghost use Rattle.std.specs.Prelude.{◌≡◌, List, ℕ};
ghost use Rattle.tenant_core.specs.declared.period.PeriodParts.{PeriodParts};
ghost use Rattle.receipts.specs.Audits.{AreMatched, IsComplete, IsStuckAt};
ghost use Rattle.receipts.specs.Layout.{AreOfRolls, IsAuditFault};
ghost use Rattle.receipts.specs.Runs.{AreOfRun};
ghost use Rattle.receipts.specs.declared.fault.AuditFault.{AuditFault};
ghost use Rattle.receipts.specs.declared.fault.AuditFault.TheVariants.{Memory};
ghost use Rattle.receipts.specs.declared.receipt.Receipt.{Receipt};

/// If receipts that match the periods are stuck at a front, no order completes them. So an audit says yes exactly if
/// some order does, unless it is out of memory.
pub fn no_order_where_stuck()
    ensures { (periods : List PeriodParts) (lists : List (List Receipt)) (front : ℕ → ℕ) (order : List ℕ)
        → AreMatched periods lists → IsStuckAt periods lists front → IsComplete periods lists order → ⊥ }
{
    joint_order::laws::no_order_behind_a_stuck_front();
}

/// If receipts are complete, their audit has one possible fault: it is out of memory. Otherwise it says yes.
pub fn complete_receipts_have_no_fault()
    ensures { (periods : List PeriodParts) (lists : List (List Receipt)) (order : List ℕ) (fault : AuditFault)
        → IsComplete periods lists order → IsAuditFault periods lists fault → fault ≡ Memory }
{
    no_order_where_stuck();
}

/// If receipts are complete, and rolls closed the periods, the receipts are the records of a run. Its steps start from
/// the openings of the tenants' first periods, and make just the records that the receipts show, in the order. They
/// leave each tenant's book as its last period ended. No receipt has the frame of a packet or an answer: the run has
/// some that say the same.
pub fn complete_receipts_are_a_run()
    ensures { (periods : List PeriodParts) (lists : List (List Receipt)) (order : List ℕ)
        → AreOfRolls periods → IsComplete periods lists order → AreOfRun periods lists order }
{
    oer_core::laws::lengths();
    ilp_addr::laws::addresses();
    ilp_addr::laws::timestamps();
    ilp_view::laws::each_prepare_is_read();
    ilp_view::laws::written_is_read_back();
    ilp_view::laws::written_frames_are_short();
    floor_core::laws::records_are_a_run();
}
