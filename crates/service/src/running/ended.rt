//! That no worker works any more.

ghost use Rattle.std.specs.Prelude.{◌≡◌, ◌<◌, ℕ, length, OnErr, OnOk, slice_index_or};

use crate::running::meeting::Missed;
use std::sync::Wait;
use std::thread::Threads;
use workers::{Lane, StartFault, run_workers};

/// Evidence that no worker works any more: all have ended, or none begins. Only this module has it.
#[derive(Drop)]
pub struct Ended(());

impl Ended {
    /// No worker begins, since a meeting was missed.
    pub fn before_it_began(_missed: Missed) -> Ended {
        Ended(())
    }
}

/// Lets each lane work on its own thread, if both have met, and waits until all have ended.
pub fn work_to_the_end<R: Threads + Wait + Sync, W: Lane>(
    rt: &R,
    lanes: &mut [W],
    met: Result<(), Missed>,
) -> (Result<(), StartFault>, Ended)
    ensures ok { OnOk result.0 ((i : ℕ) (d : W) → i < length lanes.old
        → W.works (slice_index_or lanes.old i d) (slice_index_or lanes.new i d)) }
    ensures err { OnErr result.0 (lanes.new ≡ lanes.old) }
{
    match met {
        Ok(()) => (run_workers(rt, lanes), Ended(())),
        Err(missed) => (Err(StartFault), Ended::before_it_began(missed)),
    }
}
