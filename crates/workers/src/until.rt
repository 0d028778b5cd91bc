//! How long it is until a moment.

use std::time::{Clock, Duration, Instant};

/// How much time is left until that moment; none if the clock can't be read.
pub fn left_until(clock: &impl Clock, until: Instant) -> Duration {
    match Instant::now(clock) {
        Ok(now) => until.saturating_duration_since(now),
        Err(_) => Duration::ZERO,
    }
}
