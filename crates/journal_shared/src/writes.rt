//! When a journal is written, and when it was.

ghost use Rattle.std.specs.Prelude.{◌≡◌};
ghost use Rattle.journal_shared.specs.Writes.{time_under_way};

use std::sync::atomic::{AtomicU64, Ordering};
use std::time::{Clock, Instant};

/// When the write began that is under way, and when the last one ended. A moment is how many milliseconds after the origin it is.
#[derive(Drop)]
pub(crate) struct Writes {
    origin: Instant,
    // 0 if none is under way.
    begun: AtomicU64,
    synced: AtomicU64,
}

// For how many milliseconds a write is under way that began at that moment; none if it is 0.
fn time_under_way(begun: u64, now: u64) -> u64
    ensures { result ≡ time_under_way begun now }
{
    if begun == 0 {
        0
    } else {
        now.saturating_sub(begun)
    }
}

impl Writes {
    // None is under way, and all that there is was synced at the origin.
    pub(crate) fn new(origin: Instant) -> Writes {
        Writes {
            origin,
            begun: AtomicU64::new(0),
            synced: AtomicU64::new(0),
        }
    }

    // The present moment; 0 if the clock can't be read.
    fn now(&self, clock: &impl Clock) -> u64 {
        match Instant::now(clock) {
            Ok(now) => {
                let age = now.saturating_duration_since(self.origin).as_millis();
                age.min(u128::from(u64::MAX)) as u64
            }
            Err(_) => 0,
        }
    }

    // A write begins. One that begins with the origin counts from one millisecond later on.
    pub(crate) fn begin(&self, clock: &impl Clock) {
        self.begun.store(self.now(clock).max(1), Ordering::SeqCst);
    }

    // The write has ended, and is synced unless it failed.
    pub(crate) fn end(&self, clock: &impl Clock, is_synced: bool) {
        self.begun.store(0, Ordering::SeqCst);
        if is_synced {
            self.synced.store(self.now(clock), Ordering::SeqCst);
        }
    }

    // For how many milliseconds the write is under way; none if none is.
    pub(crate) fn time(&self, clock: &impl Clock) -> u64 {
        time_under_way(self.begun.load(Ordering::SeqCst), self.now(clock))
    }

    // How many milliseconds ago the last write was synced.
    pub(crate) fn since_sync(&self, clock: &impl Clock) -> u64 {
        self.now(clock)
            .saturating_sub(self.synced.load(Ordering::SeqCst))
    }
}
