//! What time it is, by the system's clock.

ghost use Rattle.std.specs.Prelude.{◌≡◌, min};
ghost use Rattle.ilp_addr.specs.Timestamp.{last_moment};

use ilp_addr::Moment;
use std::time::Clock;

/// The system's clock. A moment that it can't tell is 1970-01-01T00:00Z, and one past the greatest moment is the greatest:
/// a tenant's own clock never goes back, whatever it is handed.
#[derive(Clone, Copy)]
pub struct SystemClock<'a, H> {
    handle: &'a H,
}

impl<'a, H: Clock> SystemClock<'a, H> {
    pub fn new(handle: &'a H) -> SystemClock<'a, H> {
        SystemClock { handle }
    }
}

impl<H: Clock> workers::Clock for SystemClock<'_, H> {
    // Nothing is known of what the system says.
    ghost gives = { λ clock moment. Unit {0} };

    fn now(&self) -> Moment {
        let millis = match self.handle.since_1970() {
            Ok(since) => since.as_millis(),
            Err(_) => 0,
        };
        moment_at(millis)
    }
}

// The moment of that many milliseconds, or the greatest one.
fn moment_at(millis: u128) -> Moment
    ensures { result ≡ min millis last_moment }
{
    let capped = millis.min(Moment::MAX_MILLIS as u128) as u64;
    Moment::new(capped).unwrap_or_else(|| unreachable!())
}
