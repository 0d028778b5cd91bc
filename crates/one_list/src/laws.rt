//! Laws of histories and lists, each the contract of a function that does nothing.

ghost use denote.Param.Send.{IsSend, IsSync};
ghost use Rattle.one_list.specs.History.{HistoryLaws};
ghost use Rattle.one_list.specs.Holds.{HoldLaws, OwnAnswerLaws};
ghost use Rattle.one_list.specs.contracts.chronicle.Chronicle as Chronicle;
ghost use Rattle.one_list.specs.contracts.parts.TenantPart as TenantPart;
ghost use Rattle.one_list.specs.contracts.parts.WorkerPart as WorkerPart;

use crate::run::Run;

/// A tenant's history begins with its opening, and goes on with each step that made its record.
pub fn histories()
    ensures { HistoryLaws }
{}

/// A step of a history sent a packet on, and the state at the end of the history no longer awaits it. Then a later
/// step answered it: another worker's if its own worker has done nothing since for the tenant. No other step begins
/// its hold.
pub fn answered_holds()
    ensures { HoldLaws }
{}

/// If each worker answers only packets that it sent on itself, a packet is awaited until its worker answers it.
pub fn own_answers()
    ensures { OwnAnswerLaws }
{}

/// Threads may share a run's list, and a part of it may go from one thread to another. Call it ahead of a call that hands
/// them to threads: what that call requires is proved by it.
pub fn chronicle_is_shared<J: Run>()
    ensures shared { IsSync (Chronicle.the_row J.row J.Run) }
    ensures tenants { IsSend (TenantPart.the_row J.row J.Run) }
    ensures workers { IsSend (WorkerPart.the_row J.row J.Run) }
{}
