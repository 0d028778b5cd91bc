//! What a worker is given: where packets go, what happens between the steps of a job, and what time it is.

ghost use Rattle.std.specs.Prelude.{ℕ, ◌≡◌, ◌+◌, ◌<◌, ◌≤◌, ◌^◌, length};
ghost use Rattle.ilp_view.specs.Packet.{max_frame};
ghost use Rattle.workers.specs.Replies.{Sending};

use crate::keeping::Durable;
use floor_core::Got;
use ilp_addr::{Moment, Target};

/// A packet that a tenant sends on.
#[derive(Drop)]
pub struct Outgoing<'a> {
    pub tenant: usize,
    pub target: &'a Target,
    pub frame: &'a [u8],
    /// When the frame expires, in milliseconds since 1970-01-01.
    pub expiry: u64,
    /// What led to it is kept.
    pub durable: Durable,
}

/// Where packets go.
pub trait Link {
    /// How many packets it has sent.
    ghost sent: { Self → ℕ };

    /// What one send makes of a link: the link before, what was sent and what came back, and the link after.
    ghost sends_so: { Self → Sending → Self → Type 0 };

    /// How many packets it has sent.
    fn sends(&self) -> u64
        ensures { result ≡ sent self.now };

    /// Sends the frame to the target, and writes what comes back to the front of the room, which has 34,000 bytes or more. It
    /// has sent fewer than 2^62 packets.
    ///
    /// The result says how many bytes came back, or that there is no answer (`Fault`).
    fn send(&mut self, packet: Outgoing<'_>, out: &mut [u8]) -> Got
        requires few { sent self.old < 2 ^ 62 }
        requires room { max_frame ≤ length out.old }
        ensures counted { sent self.new ≡ sent self.old + 1 }
        ensures so { sends_so self.old
            (record {
              tenant = packet.entry.tenant;
              target = packet.entry.target.now;
              frame = packet.entry.frame.now;
              expiry = packet.entry.expiry;
              got = result;
              room = out.new;
            })
            self.new }
        ensures room { length out.new ≡ length out.old };
}

/// A point of a job, after the step that it names.
#[derive(Clone, Copy, Debug, PartialEq, Eq)]
pub enum Point {
    /// The frame was taken in.
    Loaded,
    /// The tenant's book has decided, and its lock is free again.
    Decided,
    /// The frame was sent on, and what came back is there.
    Sent,
    /// The tenant's book has settled what came back, and its lock is free again.
    Answered,
}

/// What happens between the steps of a job. No lock is held while a worker passes.
pub trait Gate {
    /// Lets the worker of that number go on after a point of its job.
    fn pass(&self, worker: usize, point: Point);
}

/// What time it is.
pub trait Clock {
    /// Whether that is a moment which the clock may give, in milliseconds since 1970.
    ghost gives: { Self → ℕ → Type 0 };

    fn now(&self) -> Moment
        ensures { gives self.now result };
}
