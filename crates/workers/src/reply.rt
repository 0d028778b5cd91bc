//! The answer to a job.

use floor_core::Got;
use meters::Kind;

/// The status of an answer over HTTP (RFC 9110, 15).
#[derive(Clone, Copy, Debug, PartialEq, Eq)]
pub enum Status {
    /// 200: the body is the slot's reply.
    Answered,
    /// 400
    Malformed,
    /// 401
    Unauthorized,
    /// 503
    Unavailable,
}

impl Status {
    ghost use Rattle.std.specs.Prelude.{◌≡◌};
    ghost use Rattle.workers.specs.Replies.{http_code, kind_of};

    /// Its number.
    pub fn code(self) -> u16
        ensures { result ≡ http_code self }
    {
        match self {
            Status::Answered => 200,
            Status::Malformed => 400,
            Status::Unauthorized => 401,
            Status::Unavailable => 503,
        }
    }

    // What it is counted as.
    pub(crate) fn kind(self) -> Kind
        ensures { result ≡ kind_of self }
    {
        match self {
            Status::Answered => Kind::Answered,
            Status::Malformed | Status::Unauthorized => Kind::ClientError,
            Status::Unavailable => Kind::Unavailable,
        }
    }
}

/// What became of a packet that a worker had to carry.
#[derive(Clone, Copy, Debug, PartialEq, Eq)]
pub enum Reply {
    /// The frame is not a Prepare (400).
    Malformed,
    /// The token is malformed (401).
    Nameless,
    /// The token is no peer's of the tenant (401).
    Stranger,
    /// One of the worker's counts is full, or its link has sent 2^62 packets (503). Nothing was decided.
    Spent,
    /// Out of memory for receipts (503). Nothing was decided. Only a share that keeps receipts leads to it.
    Memory,
    /// There is no room to keep what would be decided (503). Nothing was decided.
    NoRoom,
    /// The tenant has decided, and it is not known whether that is kept (503). Nothing was sent, and nothing is held.
    Unkept,
    /// The tenant has decided, and its book has the answer (200).
    Decided,
    /// The packet was sent on, this came back, and the book has settled it (200).
    Settled(Got),
    /// The packet was sent on, this came back, and the book has settled it. It is not known whether that is kept (503).
    Untold(Got),
    /// The packet was sent on, this came back, and the book awaited it no longer: another worker had answered it (503).
    Lost(Got),
}

impl Reply {
    ghost use Rattle.std.specs.Prelude.{◌≡◌};
    ghost use Rattle.workers.specs.Replies.{got_of, status_of};

    /// The status of the answer.
    pub fn status(self) -> Status
        ensures { result ≡ status_of self }
    {
        match self {
            Reply::Malformed => Status::Malformed,
            Reply::Nameless | Reply::Stranger => Status::Unauthorized,
            Reply::Spent | Reply::Memory | Reply::NoRoom | Reply::Unkept => Status::Unavailable,
            Reply::Untold(_) | Reply::Lost(_) => Status::Unavailable,
            Reply::Decided | Reply::Settled(_) => Status::Answered,
        }
    }

    // What came back, if the packet was sent on.
    pub(crate) fn got(self) -> Option<Got>
        ensures { result ≡ got_of self }
    {
        match self {
            Reply::Settled(got) | Reply::Untold(got) | Reply::Lost(got) => Some(got),
            _ => None,
        }
    }
}
