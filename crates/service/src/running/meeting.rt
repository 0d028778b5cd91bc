//! A meeting at which two threads learn that both are there.

use std::sync::atomic::{AtomicU8, Ordering};
use std::thread;
use std::time::{Clock, Duration};

/// Nobody has come.
const NOBODY: u8 = 0;

/// One waits for the other.
const ONE: u8 = 1;

/// Both have come.
const BOTH: u8 = 2;

/// One has come and gone.
const MISSED: u8 = 3;

/// For how many milliseconds one waits for the other.
const PATIENCE: u64 = 3_000;

/// Evidence that one of two missed a meeting. Neither begins then.
#[derive(Drop)]
pub struct Missed(());

/// A meeting of two threads before they begin, since one may never have been started.
#[derive(Drop)]
pub struct Meeting {
    stage: AtomicU8,
}

impl Meeting {
    pub fn new() -> Meeting {
        Meeting {
            stage: AtomicU8::new(NOBODY),
        }
    }

    // Whether the stage was the first of these, and is the second from now on.
    fn moves(&self, from: u8, to: u8) -> bool {
        self.stage
            .compare_exchange(from, to, Ordering::SeqCst, Ordering::SeqCst)
            .is_ok()
    }

    /// Attends the meeting, and waits for the other one. Each calls it once, and both get the same result.
    pub fn attend(&self, clock: &impl Clock) -> Result<(), Missed> {
        if self.have_met(clock) {
            Ok(())
        } else {
            Err(Missed(()))
        }
    }

    // Whether the other one came.
    fn have_met(&self, clock: &impl Clock) -> bool {
        if !self.moves(NOBODY, ONE) {
            return self.moves(ONE, BOTH);
        }
        for _ in 0..PATIENCE {
            if self.stage.load(Ordering::SeqCst) == BOTH {
                return true;
            }
            thread::sleep(clock, Duration::from_millis(1));
        }
        !self.moves(ONE, MISSED)
    }
}
