//! What a worker has before it.

ghost use Rattle.std.specs.Prelude.{◌≡◌, false};
ghost use Rattle.floor_core.specs.Work.Job.{NoJob};
ghost use Rattle.service.specs.Served.{told_text};

use books_shared::Share;
use floor_core::Slot;
use http_link::RequestKind;
use meters::MeterSeat;
use one_list::Run;
use std::alloc::Global;
use tenant_core::Period;

/// What a worker counts, the slot that it carries packets in, and what it answered last.
#[derive(Drop)]
pub struct Desk<J: Run> {
    pub share: Share<J>,
    pub seat: MeterSeat,
    pub slot: Slot,
    /// How many packets it has sent to next peers.
    pub sent: u64,
    /// The lines of the last command that was answered.
    pub printed: Vec<u8>,
    /// Whether it was a packet or a command that was answered last.
    pub told: RequestKind,
    /// The periods that its commands closed, if the run is audited and statements are not kept.
    pub periods: Vec<Period>,
    /// The number of the period that the last command closed, among those of its tenant whose statements wait to be written.
    pub ticket: Option<u64>,
    ghost plain: { seat.first ≡ false },
    ghost idle: { slot.job ≡ NoJob },
}

impl<J: Run> Desk<J> {
    /// A desk at which nothing was answered.
    pub fn new(alloc: Global, share: Share<J>, seat: MeterSeat, slot: Slot) -> Desk<J>
        requires plain { seat.first ≡ false }
        requires idle { slot.job ≡ NoJob }
        ensures share { result.share ≡ share }
        ensures seat { result.seat ≡ seat }
    {
        Desk {
            share,
            seat,
            slot,
            sent: 0,
            printed: Vec::new(alloc),
            told: RequestKind::Ilp,
            periods: Vec::new(alloc),
            ticket: None,
        }
    }

    /// The bytes of the last answer of status 200.
    pub fn told(&self) -> &[u8]
        ensures { result.now ≡ told_text self.now.told self.now.slot.reply self.now.printed.items }
    {
        match self.told {
            RequestKind::Ilp => self.slot.reply(),
            RequestKind::Admin => self.printed.as_slice(),
        }
    }
}
