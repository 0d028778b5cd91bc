//! How long a connection may do what, and when it gives up its thread.

ghost use Rattle.std.specs.Prelude.{◌≡◌};
ghost use Rattle.service.specs.Pace.{rush_of, time_for, time_left, wait_of, yields};

/// For how many milliseconds a read or write waits at most before it looks whether it may go on.
pub const SLICE: u64 = 250;

/// What a service's connections have to hurry for.
#[derive(Clone, Copy, Debug, PartialEq, Eq)]
pub enum Rush {
    /// Nothing: for a while a thread has waited for the next connection.
    Calm,
    /// Others: a connection that comes has to wait for a thread, or had to just now, or the system refuses it.
    Crowded,
    /// The end: the service stops.
    Stopping,
}

/// What a connection does.
#[derive(Clone, Copy, Debug, PartialEq, Eq)]
pub enum Activity {
    /// Its next request has not begun to come.
    Idle,
    /// Its first request comes: the time that it waited for that counts too.
    First,
    /// A request comes, or an answer goes.
    Busy,
}

/// What to hurry for: first the end of a service that is closed, then others, if the system has just refused a connection, or if
/// fewer than a quarter of a second ago as many were open as may be. That was `since` milliseconds ago, and is so now if it is 0.
pub fn rush_of(is_closed: bool, since: u64, is_refused: bool) -> Rush
    ensures { result ≡ rush_of is_closed since is_refused }
{
    if is_closed {
        Rush::Stopping
    } else if since < SLICE || is_refused {
        Rush::Crowded
    } else {
        Rush::Calm
    }
}

/// For how many milliseconds in all a connection may do that. In a crowd a connection has a quarter of a second for all of its first
/// request, and each later one a second. If the service stops, these count from the stop on. Then bytes that an idle connection has
/// sent by the stop are read, and a request that has begun has five seconds.
pub fn time_for(activity: Activity, rush: Rush) -> u64
    ensures { result ≡ time_for activity rush }
{
    match (activity, rush) {
        (Activity::First, Rush::Calm) => 60_000,
        (Activity::Idle | Activity::Busy, Rush::Calm) => 30_000,
        (Activity::Idle | Activity::First, Rush::Crowded) => 250,
        (Activity::Busy, Rush::Crowded) => 1_000,
        (Activity::Idle, Rush::Stopping) => 1,
        (Activity::First | Activity::Busy, Rush::Stopping) => 5_000,
    }
}

// For how many more milliseconds a connection may do what it does. It has done it for `spent` milliseconds, the last
// `stopping` of them in a service that stops.
fn left_of(activity: Activity, rush: Rush, spent: u64, stopping: u64) -> u64
    ensures { result ≡ time_left activity rush spent stopping }
{
    let gone = if rush == Rush::Stopping {
        stopping
    } else {
        spent
    };
    time_for(activity, rush).saturating_sub(gone)
}

/// For how many milliseconds a connection waits at once for what it does: as long as it still may do that, a slice at most.
pub fn wait_of(activity: Activity, rush: Rush, spent: u64, stopping: u64) -> u64
    ensures { result ≡ wait_of activity rush spent stopping }
{
    left_of(activity, rush, spent, stopping).min(SLICE)
}

/// Whether a connection ends after an answer of that status, `served` milliseconds after it came, and gives its thread
/// to another. It does so only if others wait: at once after 400 and 401, and otherwise after a second in all.
pub fn yields(rush: Rush, status: u16, served: u64) -> bool
    ensures { result ≡ yields rush status served }
{
    rush == Rush::Crowded && (status == 400 || status == 401 || served >= 1_000)
}
