//! Workers at once, on threads.

ghost use Rattle.std.specs.Prelude.{◌≡◌, ◌<◌, ℕ, length, OnOk, OnErr, slice_index_or};

use std::sync::{Condvar, Mutex, Wait};
use std::thread;
use std::thread::Threads;
use thiserror::Error;

/// What one worker does.
pub trait Lane: Send {
    /// What one call of `work` leaves of a lane.
    ghost works: { Self → Self → Type 0 };

    /// Does all that the worker has to do.
    fn work<R: Threads + Wait + Sync>(&mut self, rt: &R)
        ensures { works self.old self.new };
}

/// Not as many threads could be started as there are workers. No lane has worked.
#[derive(Clone, Copy, Debug, PartialEq, Eq, Error)]
#[error("a thread could not be started")]
pub struct StartFault;

// Sleeps until the gate is open.
fn wait_for<R: Wait>(rt: &R, open: &Mutex<bool>, bell: &Condvar) {
    bell.wait_while(rt, open.lock(rt), |open| !*open);
}

// Whether so many threads can be there at once.
fn can_start<R: Threads + Wait + Sync>(rt: &R, count: usize) -> bool {
    let (open, bell) = (Mutex::new(false), Condvar::new());
    let (open, bell) = (&open, &bell);
    thread::scope(thread::scope_env(), rt, |scope| {
        let mut all = true;
        for _ in 0..count {
            if scope.spawn(move || wait_for(rt, open, bell)).is_err() {
                all = false;
            }
        }
        *open.lock(rt) = true;
        bell.notify_all();
        all
    })
}

/// Lets each lane work once, and waits for all of them. As a probe, a thread for each lane is started and ended first.
///
/// `StartFault` if the probe could not start them all. No lane has worked then. If a thread can't be started after the
/// probe, lanes share a thread and work one after another.
pub fn run_workers<R: Threads + Wait + Sync, W: Lane>(
    rt: &R,
    lanes: &mut [W],
) -> Result<(), StartFault>
    ensures ok { OnOk result ((i : ℕ) (d : W) → i < length lanes.old
        → W.works (slice_index_or lanes.old i d) (slice_index_or lanes.new i d)) }
    ensures err { OnErr result (lanes.new ≡ lanes.old) }
{
    let count = lanes.len();
    if !can_start(rt, count) {
        return Err(StartFault);
    }
    if count > 0 {
        thread::for_each_mut(rt, lanes, count, &|_, lane| lane.work(rt));
    }
    Ok(())
}
