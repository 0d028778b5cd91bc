//! Requests for the configuration.

ghost use Rattle.std.specs.Prelude.{◌≡◌, ◌≢◌, ◌↔◌, codes, IsTrue, IsOk, Err};
ghost use Rattle.ildcp_core.specs.Request as spec;
ghost use Rattle.ildcp_core.specs.Request.{config_condition, checked_request};

use crate::child::{Child, Role};
use crate::fault::IldcpFault;
use ilp_addr::Address;

// The SHA-256 of 32 zero bytes.
const CONFIG_CONDITION: [u8; 32] = [
    0x66, 0x68, 0x7a, 0xad, 0xf8, 0x62, 0xbd, 0x77, 0x6c, 0x8f, 0xc1, 0x8b, 0x8e, 0x9f, 0x8e, 0x20,
    0x08, 0x97, 0x14, 0x85, 0x6e, 0xe2, 0x33, 0xb3, 0x90, 0x2a, 0x59, 0x1d, 0x0d, 0x5f, 0x29, 0x25,
];

/// Whether a packet to this address asks for the configuration: it is `peer.config` exactly.
/// (RFC 0031)
pub fn is_config(destination: &Address<'_>) -> bool
    ensures exact { result ≡ spec.is_config destination.now }
    ensures same { IsTrue result ↔ (destination.now ≡ codes "peer.config") }
{
    destination.bytes() == b"peer.config".as_slice()
}

#[tactic(auto, using(crate::proofs::Digest::digest_of_zeros))]
fn is_config_condition(condition: &[u8; 32]) -> bool
    ensures { result ≡ spec.is_config_condition condition.now }
{
    *condition == CONFIG_CONDITION
}

/// Whether a Prepare of that amount, in the peer's units, and that condition may ask for the
/// configuration. (RFC 0031)
///
/// Errors, in the order of the tests: `NotChild` if the peer is not a child, `Amount` if the amount
/// is not 0, `Condition` if the condition is not the SHA-256 of 32 zero bytes.
pub fn check(child: &Child<'_>, amount: u64, condition: &[u8; 32]) -> Result<(), IldcpFault>
    ensures exact { result ≡ checked_request child.now.role amount condition.now }
    ensures good { IsOk result
        ↔ ((child.now.role ≡ Role.Child) × (amount ≡ 0) × (condition.now ≡ config_condition)) }
    ensures not_child { (result ≡ Err IldcpFault.NotChild) ↔ (child.now.role ≡ Role.Peer) }
    ensures amount { (result ≡ Err IldcpFault.Amount) ↔ ((child.now.role ≡ Role.Child) × (amount ≢ 0)) }
    ensures condition { (result ≡ Err IldcpFault.Condition)
        ↔ ((child.now.role ≡ Role.Child) × (amount ≡ 0) × (condition.now ≢ config_condition)) }
{
    if child.parts().role != Role::Child {
        return Err(IldcpFault::NotChild);
    }
    if amount != 0 {
        return Err(IldcpFault::Amount);
    }
    if !is_config_condition(condition) {
        return Err(IldcpFault::Condition);
    }
    Ok(())
}
