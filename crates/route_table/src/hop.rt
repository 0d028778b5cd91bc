//! Where packets for a prefix go.

use common_types::Between;

/// The number of a peer of the operator.
pub type PeerNo = u16;

/// The fee that a tenant keeps of each packet that it sends on, in the units of the peer that it sends it to: from 0
/// to 2^62.
pub type Fee = Between<0, 4_611_686_018_427_387_904>;

/// The peer that packets go to, and the fee that is kept of each.
#[derive(Clone, Copy, Debug, PartialEq, Eq)]
pub struct Hop {
    pub peer: PeerNo,
    pub fee: Fee,
}
