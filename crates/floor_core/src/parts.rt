//! The results of a slot's calls.

use ilp_view::ViewFault;
use route_table::PeerNo;
use thiserror::Error;

/// Why a slot takes no frame, in the order of the tests. Nothing has changed then.
#[derive(Clone, Copy, Debug, PartialEq, Eq, Error)]
pub enum LoadFault {
    /// The slot carries a call already.
    #[error("a call is carried already")]
    Busy,
    /// The token is malformed: it has no byte or over 64, or a byte that no token may have.
    #[error("the token is malformed")]
    Token,
    /// The frame is not a Prepare.
    #[error("{0}")]
    Bad(ViewFault),
}

/// The answer of the next peer, in a slot's buffer for it.
#[derive(Clone, Copy, Debug, PartialEq, Eq)]
pub enum Got {
    /// That many bytes, at the front of the buffer. More than 34,000 count as a fault.
    Filled(usize),
    /// No answer.
    Fault,
}

/// The result of a call of a slot with a book.
#[derive(Clone, Copy, Debug, PartialEq, Eq)]
pub enum Turn {
    /// The slot carries nothing that the call is for. Nothing has changed.
    Idle,
    /// The book is another tenant's, or the hold does not await an answer in it. Nothing has changed.
    Stray,
    /// The token is no peer's of the tenant. The slot is idle.
    Stranger,
    /// The slot's reply is the answer to the sender of the frame. The slot is idle.
    Reply,
    /// The slot's frame goes on to the peer of that number, under that hold. The slot awaits its answer.
    Send { peer: PeerNo, hold: u64 },
}
