//! Where a packet goes, and by when.

ghost use Rattle.std.specs.Prelude.{◌≡◌, ◌≤◌};
ghost use Rattle.ilp_addr.specs.Timestamp.{last_moment};
ghost use Rattle.std.specs.Option.{option_copied};
ghost use Rattle.tenant_core.specs.Limits.{max_hold};
ghost use Rattle.tenant_core.specs.Network.{peer_numbered, peer_with_token};
ghost use Rattle.tenant_core.specs.Routing.{outgoing_expiry};

use crate::network::Network;
use crate::opening::Opening;
use crate::peer::Peer;
use route_table::PeerNo;

/// The peer that shows this token.
pub fn peer_with_token<'a>(network: &'a Network, token: &[u8]) -> Option<&'a Peer>
    ensures { option_copied result ≡ peer_with_token token.now network.now.peers }
{
    let place = network.place_with_token(token)?;
    network.peers().get(place)
}

/// The peer of this number.
pub fn peer_numbered(network: &Network, number: PeerNo) -> Option<&Peer>
    ensures { option_copied result ≡ peer_numbered number network.now.peers }
{
    let place = network.place_numbered(number)?;
    network.peers().get(place)
}

/// The expiry that a packet goes on with.
pub fn outgoing_expiry(opening: &Opening, expiry: u64, clock: u64) -> u64
    requires clock { clock ≤ last_moment }
    requires hold { opening.now.hold ≤ max_hold }
    ensures { result ≡ outgoing_expiry opening.now expiry clock }
{
    expiry
        .saturating_sub(opening.margin)
        .min(clock + opening.hold)
}
