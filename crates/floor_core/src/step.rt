//! Steps, and the output of each.

use crate::octets::Octets;
use common_types::{Boxed, Bytes, Text};
use ilp_addr::Moment;
use tenant_core::{Answered, BookFault, Command, CommandFault};

/// A step of the floor. Frames and tokens are borrowed from where they came in.
#[derive(Drop)]
pub enum Step<'a> {
    /// A worker with nothing in hand takes a frame that came for a tenant, with the token that the sender showed.
    Load {
        /// The worker's number, from 0.
        worker: usize,
        /// The tenant's number, from 0 in the order of the setup.
        tenant: usize,
        /// The token's bytes as they came.
        token: Octets<'a>,
        /// The frame's bytes as they came.
        bytes: Octets<'a>,
    },
    /// The tenant whose packet a worker has in hand decides, at this moment, what becomes of it.
    Decide {
        worker: usize,
        now: Moment,
    },
    /// The tenant whose packet a worker sent on settles it by what the next peer gave, at this moment.
    Answer {
        worker: usize,
        now: Moment,
        given: PeerAnswer<'a>,
    },
    /// Gives a tenant the moment. The tenant gives up what is overdue.
    Tick {
        tenant: usize,
        now: Moment,
    },
    /// An operator commands a tenant's book, at this moment.
    Govern {
        tenant: usize,
        now: Moment,
        command: Boxed<Command>,
    },
}

const _: () = prove!(size_of::<Step<'static>>() == 56);

/// What came back from the next peer.
#[derive(Drop)]
pub enum PeerAnswer<'a> {
    /// Bytes as they came, of whatever kind.
    Bytes(Octets<'a>),
    /// No answer.
    Fault,
}

/// Why a tenant can't take what was loaded.
///
/// The token is tested first. Then come the frame's size, its kind, and its length with what follows it (`Size`,
/// `Kind`, `Oer`, `AfterEnd`). Then come its fields, one after another (`Oer`, `Field`, and `Size` for the data).
#[derive(Clone, Copy, Debug, PartialEq, Eq)]
pub enum Malformed {
    /// The token is malformed: it has no byte or over 64, or a byte that no token may have.
    Token,
    /// The frame is over 34,000 bytes, or its data over 32,768.
    Size,
    /// The frame is empty, or its first byte is not the type of a Prepare.
    Kind,
    /// A length is not spelled by the rules of RFC 0030, or what it announces passes the end of the frame or of the
    /// contents.
    Oer,
    /// Bytes follow the end of the packet.
    AfterEnd,
    /// The expiry is no date, or the destination no address.
    Field,
}

/// The output of a step.
#[derive(Drop)]
pub enum Output {
    /// The worker has a packet in hand already.
    Busy,
    /// The worker has no packet to decide, or none that awaits an answer.
    Idle,
    /// The frame was taken, as the call of that number of its tenant.
    Loaded {
        tenant: usize,
        call: u64,
    },
    /// The token or the frame can't be read.
    Bad {
        tenant: usize,
        kind: Malformed,
    },
    /// The token is no peer's of the tenant.
    Stranger {
        tenant: usize,
    },
    /// An answer to the sender of the frame.
    Reply {
        tenant: usize,
        bytes: Bytes,
    },
    /// A frame for the next peer, by its name, under the number of the hold that awaits its answer.
    Send {
        tenant: usize,
        peer: Text<32>,
        hold: u64,
        frame: Bytes,
    },
    /// How many packets are overdue since this tick, or that the journal has no place for it.
    Ticked {
        tenant: usize,
        answer: Result<u32, BookFault>,
    },
    /// The command's answer, or why it is refused.
    Governed {
        tenant: usize,
        answer: Result<Answered, CommandFault>,
    },
}

const _: () = prove!(size_of::<Output>() == 88);

/// The output of a step. The bytes of a reply or of a frame are still the worker's, until its next step.
#[derive(Drop)]
pub enum StepOutput {
    /// All of it.
    Whole(Output),
    /// An answer to the sender of the frame: `Floor::reply` of the worker.
    Reply {
        worker: usize,
        tenant: usize,
    },
    /// A frame for the next peer, by its name, under the number of the hold that awaits its answer: `Floor::frame` of the
    /// worker.
    Send {
        worker: usize,
        tenant: usize,
        peer: Text<32>,
        hold: u64,
    },
}
