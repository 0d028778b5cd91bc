//! What became of a tenant's packets, counted by the records of its steps.

ghost use Rattle.std.specs.Prelude.{◌≡◌, ◌<◌, []};
ghost use Rattle.one_list.specs.Steps.{done_last, grown, has_met, of_tenant, of_worker, worked};
ghost use Rattle.tenant_core.specs.Journals.{last_of};
ghost use Rattle.tenant_core.specs.Views.{entry_of, record_of};
ghost use Rattle.books_shared.specs.Outcomes.{code_place, outcome_in, place_of, record_counted, relayed_outcome};

use one_list::{Chronicle, Run, TenantPart, Watcher, WorkerPart};
use std::marker::Model;
use tenant_core::{EntryView, Journal, Outcome, RecordView, RejectCode, Verdict};

const OUTCOMES: usize = 15;

/// What became of a packet, as the tenant's journal says.
#[derive(Clone, Copy, Debug, PartialEq, Eq)]
pub enum PacketOutcome {
    /// The next peer's Fulfill went back to the sender.
    Fulfilled,
    /// The next peer's Reject went back to the sender.
    Rejected,
    /// The sender asked for its configuration, and got it (RFC 0031).
    Configured,
    /// The tenant refused it with this code, at once or in place of what came back.
    Refused(RejectCode),
}

impl PacketOutcome {
    // Its place among the counts.
    fn place(self) -> usize
        ensures value { result ≡ place_of self }
        ensures below { result < 15 }
    {
        match self {
            PacketOutcome::Fulfilled => 0,
            PacketOutcome::Rejected => 1,
            PacketOutcome::Configured => 2,
            PacketOutcome::Refused(code) => 3 + code_place(code),
        }
    }
}

// The place of a code among the twelve.
fn code_place(code: RejectCode) -> usize
    ensures value { result ≡ code_place code }
    ensures below { result < 12 }
{
    match code {
        RejectCode::BadRequest => 0,
        RejectCode::Unreachable => 1,
        RejectCode::InvalidAmount => 2,
        RejectCode::WrongCondition => 3,
        RejectCode::AmountTooLarge => 4,
        RejectCode::PeerUnreachable => 5,
        RejectCode::Busy => 6,
        RejectCode::InsufficientLiquidity => 7,
        RejectCode::RateLimited => 8,
        RejectCode::TimedOut => 9,
        RejectCode::InsufficientSource => 10,
        RejectCode::InsufficientTimeout => 11,
    }
}

/// What became of a packet by that record, if it says so.
pub fn outcome_of(made: &RecordView<'_>) -> Option<PacketOutcome>
    ensures { result ≡ outcome_in (record_of made.now) }
{
    match made.outcome {
        Outcome::Packet(Verdict::Refuse { code, .. }) => Some(PacketOutcome::Refused(code)),
        Outcome::Packet(Verdict::Fulfil) => Some(PacketOutcome::Configured),
        Outcome::Packet(Verdict::Relay) => relayed_outcome(&made.entry),
        _ => None,
    }
}

fn relayed_outcome(entry: &EntryView<'_>) -> Option<PacketOutcome>
    ensures { result ≡ relayed_outcome (entry_of entry.now) }
{
    let EntryView::Answer(answer) = entry else {
        return None;
    };
    Some(if answer.key.is_fulfill() {
        PacketOutcome::Fulfilled
    } else {
        PacketOutcome::Rejected
    })
}

/// How many of a tenant's packets had each outcome. A count ends at 2^64 - 1.
#[derive(Clone, Copy, Debug)]
pub struct PacketCounts {
    pub counts: [u64; OUTCOMES],
}

impl PacketCounts {
    ghost use Rattle.std.specs.Prelude.{◌≡◌, Some};
    ghost use Rattle.tenant_core.specs.Journals.{last_of};
    ghost use Rattle.books_shared.specs.Outcomes.{count_at, counted, record_counted};

    /// No packet was counted.
    pub const NONE: PacketCounts = PacketCounts {
        counts: [0; OUTCOMES],
    };

    /// How many packets had that outcome.
    pub fn get(&self, outcome: PacketOutcome) -> u64
        ensures { result ≡ count_at outcome self.now }
    {
        self.counts[outcome.place()]
    }

    /// The counts with one packet more of that outcome.
    pub fn counted(mut self, outcome: PacketOutcome) -> PacketCounts
        ensures { result ≡ counted (Some outcome) self }
    {
        let place = outcome.place();
        self.counts[place] = self.counts[place].saturating_add(1);
        self
    }

    // Counts what became of a packet by the last record of the journal.
    fn count_last(&mut self, journal: &Journal)
        ensures { self.new ≡ record_counted (last_of journal.now.records) self.old }
    {
        if let Some(made) = journal.last()
            && let Some(outcome) = outcome_of(&made)
        {
            *self = self.counted(outcome);
        }
    }
}

/// A tenant's part of the one list, and what became of its packets by the steps of it. Contracts see the part.
#[derive(Drop)]
pub struct TenantLog<J: Run> {
    part: TenantPart<J>,
    packets: PacketCounts,
}

impl<J: Run> Model for TenantLog<J> {
    ghost use Rattle.one_list.specs.Steps.{PartView};
    ghost use Rattle.books_shared.specs.Outcomes.{AreCounted};

    ghost Value = { PartView };

    ghost view = { λ l. l.part };

    ghost invariant = { λ l. AreCounted l.packets l.part.steps };
}

impl<J: Run> TenantLog<J> {
    ghost use Rattle.std.specs.Prelude.{All, ◌≡◌, ◌<◌, [], ◌∷◌, ◌++◌};
    ghost use Rattle.one_list.specs.Steps.{GoesOnFrom, done_last, grown, has_met, of_tenant, of_worker, worked};
    ghost use Rattle.books_shared.specs.Outcomes.{AreCounted};

    /// A part that has no steps yet.
    pub fn new(part: TenantPart<J>) -> TenantLog<J>
        requires { part.steps ≡ [] }
        ensures { result ≡ part }
    {
        TenantLog {
            part,
            packets: PacketCounts::NONE,
        }
    }

    /// The tenant's number.
    pub fn number(&self) -> u64
        ensures value { result ≡ self.now.number }
        ensures below { result < J.size.tenants }
    {
        self.part.number()
    }

    /// How many packets had each outcome by the steps.
    pub fn packets(&self) -> PacketCounts
        ensures { AreCounted result self.now.steps }
    {
        self.packets
    }

    /// What `Chronicle::record` does, counted.
    pub fn record(
        &mut self,
        chronicle: &Chronicle<J>,
        worker: &mut WorkerPart<J>,
        period: u64,
        journal: &Journal,
    )
        ensures tenant { self.new ≡ grown self.old (done_last worker.old.number self.old.number period journal.now.records) }
        ensures worker { worker.new ≡ worked worker.old (done_last worker.old.number self.old.number period journal.now.records) }
    {
        chronicle.record(&mut self.part, worker, period, journal);
        self.packets.count_last(journal);
    }

    /// What `Chronicle::meet` does.
    pub fn meet(&mut self, chronicle: &Chronicle<J>, worker: &mut WorkerPart<J>)
        ensures tenant { self.new ≡ self.old }
        ensures worker { worker.new ≡ has_met worker.old self.old }
        ensures shared { of_worker worker.old.number self.old.steps ≡ of_tenant self.old.number worker.old.steps }
    {
        chronicle.meet(&mut self.part, worker);
    }

    /// What `Chronicle::watch` does.
    pub fn watch(&mut self, chronicle: &Chronicle<J>, watcher: &mut Watcher<J>)
        ensures tenant { self.new ≡ self.old }
        ensures watcher { watcher.new ≡ watcher.old ++ record { tenant = self.old.number; steps = self.old.steps } ∷ [] }
        ensures goes_on { All (GoesOnFrom self.old.number self.old.steps) watcher.old }
    {
        chronicle.watch(&mut self.part, watcher);
    }

    /// The part.
    pub fn into_part(self) -> TenantPart<J>
        ensures { result ≡ self }
    {
        let TenantLog { part, packets: _ } = self;
        part
    }
}
