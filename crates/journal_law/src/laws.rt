//! Laws of the definitions, each the contract of a function that does nothing.

ghost use Rattle.std.specs.Prelude.{◌≡◌, ◌++◌, ℕ, All, List, [], Ok, length, map, take};
ghost use Rattle.book_journal.specs.Writer.{WriterState};
ghost use Rattle.book_journal.specs.Written.{Written, commit_text};
ghost use Rattle.book_log.specs.Base.{IsBase, admins_of, states_of};
ghost use Rattle.book_log.specs.OneBase.{IsJournal, IsStart};
ghost use Rattle.book_log.specs.declared.base.TenantStart.{TenantStart};
ghost use Rattle.book_log.specs.Written.{IsLoggable, IsTextWritten};
ghost use Rattle.books_shared.specs.Begun.{AreNumbered};
ghost use Rattle.journal_shared.specs.Fronts.{Front};
ghost use Rattle.journal_shared.specs.Kept.{AreLinesOfAll, IsWritten};
ghost use Rattle.tenant_core.specs.declared.opening.Opening.{Opening};
ghost use Rattle.floor_core.specs.World.{Event, FitsIn, Tenant, World, effect_of, world_at_start};
ghost use Rattle.floor_core.specs.declared.step.Step.{Step};
ghost use Rattle.journal_law.specs.Crashes.{AddsToLog, HasAdded};
ghost use Rattle.journal_law.specs.Earlier.{LeavesFronts};
ghost use Rattle.journal_law.specs.Growth.{GoesOnOrRolls};
ghost use Rattle.journal_law.specs.Kept.{AreFirstStarts, HasAllRecords, HasAllWritten, HaveBegun, IsNewJournal, KeepsJournal};
ghost use Rattle.line_log.specs.File.{Only};
ghost use Rattle.line_log.specs.Log.{lines, recovered};
ghost use Rattle.replay_text.specs.Recorded.{HasRecorded, by_recorder};
ghost use Rattle.replay_text.specs.Script.{steps_of_script};
ghost use Rattle.tenant_core.specs.State.{State};
ghost use Rattle.tenant_core.specs.declared.terms.TenantTerms.{TenantTerms};

use line_log::LogFile;
use replay_text::{PeriodKeeper, Recorder};

/// An event closes no period and at most adds a record to the book of its tenant, or it closes the period of the book.
pub fn books_go_on_or_are_rolled()
    ensures { (s : Tenant) (e : Event) → GoesOnOrRolls s.book (effect_of s e) }
{}

/// A recorder keeps a new journal while steps are done from the openings of its tenants on. Then the log has the records of
/// all tenants, a line each, with the sum of each commit after its lines. They lead from the openings to the books that the
/// steps leave, and there are no others.
pub fn kept_log_has_all_records<D: LogFile, K: PeriodKeeper + Recorder>()
    ensures { (journal : K → Written D) (starts : List TenantStart) (sum : List ℕ) (workers : ℕ) (world left : World)
        (steps : List Step) (first last : K)
        → KeepsJournal (λ r. Unit {0}) D.seen (by_recorder K.takes K.keeps) journal
        → IsNewJournal D.seen sum starts (journal first) → HaveBegun world starts → All (FitsIn workers (length starts)) steps
        → HasRecorded (by_recorder K.takes K.keeps) world steps left first last
        → HasAllRecords (λ r. Unit {0}) sum (lines (recovered (D.seen (journal last).log.file))) starts left }
{
    floor_core::laws::one_list_of_outputs();
    floor_core::laws::outputs_are_there();
}

/// The same of records that a statement can state: the text of the log is a written journal.
pub fn kept_log_is_written<D: LogFile, K: PeriodKeeper + Recorder>()
    ensures { (journal : K → Written D) (starts : List TenantStart) (sum : List ℕ) (workers : ℕ) (world left : World)
        (steps : List Step) (first last : K) → KeepsJournal IsLoggable D.seen (by_recorder K.takes K.keeps) journal
        → IsNewJournal D.seen sum starts (journal first) → HaveBegun world starts → All (FitsIn workers (length starts)) steps
        → HasRecorded (by_recorder K.takes K.keeps) world steps left first last
        → HasAllWritten sum (lines (recovered (D.seen (journal last).log.file))) starts left }
{
    floor_core::laws::one_list_of_outputs();
    floor_core::laws::outputs_are_there();
}

/// A recorder adds records to the file of a log, and leaves it as it is otherwise. Whenever a crash comes while steps are done, it
/// leaves the records that were there at first, and the first of those that were added.
pub fn crashes_leave_the_first_records<D: LogFile, K: PeriodKeeper + Recorder>()
    ensures { (file : K → D) (world left : World) (steps : List Step) (first last : K)
        → AddsToLog D.seen D.moment D.left_since (by_recorder K.takes K.keeps) file
        → Only (D.seen (file first)) (D.may_leave (file first)) → HasRecorded (by_recorder K.takes K.keeps) world steps left first last
        → HasAdded D.seen D.moment D.left_since (file first) (file last) }
{}

/// The log of a journal that threads share (`Keeper`) is a written journal from the openings of its tenants on. It leaves the books to
/// which these fronts of their histories led.
pub fn shared_log_is_written<D: LogFile>()
    ensures { (openings : List Opening) (w : WriterState D) (fronts : List Front)
        → (kept : IsWritten D.seen D.may_leave openings w fronts) → AreNumbered openings
        → IsTextWritten kept.first.sum (lines (recovered (D.seen w.log.file))) (states_of kept.begins.starts) (map (λ f. f.state) fronts) }
{}

/// A crash comes while a text is committed to such a log. It leaves the records that were there, and the first of those of the text.
/// That is a written journal, which leaves the books to which fronts of the tenants' histories led. They are at least those that were
/// kept before, and at most those that the text leads to.
pub fn crashes_leave_fronts<D: LogFile>()
    ensures { (openings : List Opening) (w : WriterState D) (fronts after : List Front) (text : List ℕ) (n : ℕ)
        → (kept : IsWritten D.seen D.may_leave openings w fronts) → AreNumbered openings → AreLinesOfAll openings fronts text after
        → LeavesFronts kept.begins.starts kept.first.sum (lines (recovered (D.seen w.log.file) ++ take n (recovered (commit_text w.sum text)))) fronts after }
{
    book_log::laws::lines_are_read_back();
}

/// What a crash leaves beside the base is a journal of the books to which those fronts led. So `book_log::reopen` gives just these.
pub fn left_fronts_are_a_journal()
    ensures { (starts : List TenantStart) (base sum text : List ℕ) (first last : List Front)
        → (leaves : LeavesFronts starts sum text first last) → All IsStart starts → IsBase base starts sum
        → IsJournal base text (map (λ f. f.state) leaves.left) (admins_of starts) }
{}

/// A front of the records of a written log, as a crash leaves it, is a written log.
pub fn fronts_are_written()
    ensures { (first text : List ℕ) (before after : List State) (n : ℕ) → IsTextWritten first text before after
        → (between : List State) × IsTextWritten first (lines (take n (recovered text))) before between }
{
    book_log::laws::lines_are_read_back();
}

/// The steps of a script name workers and tenants that are there.
pub fn scripts_fit()
    ensures { (names : List (List ℕ)) (workers : ℕ) (text : List ℕ) (steps : List Step)
        → steps_of_script names workers text ≡ Ok steps → All (FitsIn workers (length names)) steps }
{}

/// In the world of a setup at its start each tenant has just begun its first period.
pub fn tenants_have_begun()
    ensures { (setups : List TenantTerms) (start : ℕ) (starts : List TenantStart) → AreFirstStarts setups start starts
        → HaveBegun (world_at_start setups start) starts }
{}
