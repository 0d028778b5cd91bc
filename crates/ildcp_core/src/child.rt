//! A peer, as far as its configuration goes.

ghost use Rattle.std.specs.Prelude.{◌≡◌};

use common_types::{AssetCode, Name};
use ilp_addr::OwnAddress;
use std::marker::Model;

/// What a peer is to the tenant.
#[derive(Clone, Copy, Debug, PartialEq, Eq)]
pub enum Role {
    /// A customer below the tenant, with an address below the tenant's own.
    Child,
    /// A neighbour beside it.
    Peer,
}

/// What the configuration of a peer is made of.
#[derive(Clone, Copy)]
pub struct ChildParts<'a> {
    pub role: Role,
    /// The tenant's own address.
    pub tenant: &'a OwnAddress,
    /// The peer's name.
    pub name: &'a Name,
    /// How many decimal places a unit of the peer's asset has.
    pub scale: u8,
    /// The code of the peer's asset.
    pub code: &'a AssetCode,
}

/// A peer that may ask for its configuration. Its client address is the tenant's address, a dot and its name. The
/// limits of both make it an address. (RFC 0031)
#[derive(Drop)]
pub struct Child<'a> {
    parts: ChildParts<'a>,
}

impl<'a> Model for Child<'a> {
    ghost use Rattle.ildcp_core.specs.Client.{Client, IsClient};
    ghost use Rattle.ildcp_core.specs.Seen.{client_of};

    ghost Value = { Client };

    ghost view = { λ c. client_of c.parts };

    ghost invariant = { λ c. IsClient (client_of c.parts) };
}

impl<'a> Child<'a> {
    ghost use Rattle.ildcp_core.specs.Client.{IsClient};
    ghost use Rattle.ildcp_core.specs.Seen.{client_of};

    /// The child of these parts.
    pub fn new(parts: ChildParts<'a>) -> Child<'a>
        ensures { result ≡ client_of parts.entry }
    {
        let _ = parts.tenant.as_bytes();
        let _ = parts.name.as_bytes();
        let _ = parts.code.as_bytes();
        Child { parts }
    }

    /// What the child is made of.
    pub fn parts(&self) -> &ChildParts<'a>
        ensures same { client_of result.now ≡ self.now }
        ensures limits { IsClient self.now }
    {
        &self.parts
    }
}
