//! What a service does.

ghost use Rattle.std.specs.Prelude.{◌≡◌, ◌≤◌};
ghost use Rattle.allotment.specs.Loans.{max_places};
ghost use Rattle.books_shared.specs.Gathers.{max_workers};
ghost use Rattle.service.specs.Extents.{closes_at_end, connection_total, desk_count, most_waiting_of};

use books_shared::MAX_WORKERS;

/// How many threads serve, how many packets are exchanged with next peers at once, and how many connections are served.
#[derive(Clone, Copy)]
pub struct Extent {
    /// 1 to 64: so many packets may be on their way to next peers at once.
    pub workers: usize,
    /// 1 to 4,096: so many connections may be open at once, each on a thread of its own. If operators have a door, it takes the
    /// place of the last one of 4,096.
    pub connections: usize,
    /// How many connections are served for each of `workers` before the service ends, if it does.
    pub rounds: Option<u32>,
}

/// What a service prints at the end beside the lines of its tenants.
#[derive(Clone, Copy, Debug, PartialEq, Eq)]
pub struct Report {
    /// Whether to print the answer of each tenant to the command `balances`, before these lines.
    pub balances: bool,
    /// Whether to keep receipts of all that is done, audit them, and print what the audit found, after these lines.
    pub audit: bool,
}

/// What a service does: how much it serves, and what it prints at the end. It may keep the statements of closed periods in a
/// folder. It may close a tenant's period by itself, at so many hundredths of its entries, 1 to 100. It may take commands where
/// packets come, at `/admin/NAME`. Peers that give no answer may rest for a while.
#[derive(Clone, Copy)]
pub struct Plan<'a> {
    pub extent: Extent,
    pub report: Report,
    pub statements: Option<&'a str>,
    pub roll_at: Option<u8>,
    pub admin: bool,
    pub breakers: bool,
}

impl Plan<'_> {
    /// Whether each tenant's running period is closed at the end: for an audit, or for its statement.
    pub fn closes(&self) -> bool
        ensures { result ≡ closes_at_end self.now }
    {
        self.report.audit || self.statements.is_some()
    }
}

/// How many connections are served in all: so many rounds for each worker, or as many as can be counted.
pub fn total_of(extent: Extent) -> u64
    requires { extent.workers ≤ max_places }
    ensures { result ≡ connection_total extent.workers extent.rounds }
{
    match extent.rounds {
        Some(rounds) => extent.workers as u64 * u64::from(rounds),
        None => u64::MAX,
    }
}

/// How many desks count in the books: one for each connection's worker, and one for who answers operators, if they have a door.
/// Then the last one of 4,096 is theirs.
pub fn desk_count(extent: Extent, operated: bool) -> usize
    requires { (1 ≤ extent.connections) × (extent.connections ≤ max_workers) }
    ensures count { result ≡ desk_count extent.connections operated }
    ensures some { 1 ≤ result }
    ensures few { result ≤ max_workers }
{
    if operated {
        extent.connections.min(MAX_WORKERS - 1) + 1
    } else {
        extent.connections
    }
}

/// How many packets of each tenant may wait for a place: an equal part of half of the connections beyond the places.
pub fn most_waiting_of(extent: Extent, tenants: usize) -> usize
    requires { 1 ≤ tenants }
    ensures { result ≡ most_waiting_of extent.connections extent.workers tenants }
{
    extent.connections.saturating_sub(extent.workers) / 2 / tenants
}
