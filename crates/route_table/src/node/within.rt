//! Whether the routes of one node are among another's.

ghost use Rattle.std.specs.Prelude.{◌↔◌, ◌≡◌, IsTrue, Some};
ghost use Rattle.route_table.specs.Within.{IsWithin};
ghost use Rattle.route_table.specs.declared.hop.Hop.{Hop};

use super::Node;
use crate::hop::Hop;

impl Node {
    /// Whether the other node has each route of this one.
    pub(crate) fn is_within(&self, other: &Node) -> bool
        ensures { IsTrue result ↔ IsWithin self.now.routes other.now.routes }
    {
        if !is_hop_of(self.hop, other.hop()) {
            return false;
        }
        for child in &self.children {
            let Some(node) = other.child(&child.segment) else {
                return false;
            };
            if !child.node.is_within(node) {
                return false;
            }
        }
        true
    }
}

// There is no hop, or the other is the same.
fn is_hop_of(hop: Option<Hop>, other: Option<Hop>) -> bool
    ensures { IsTrue result ↔ ((h : Hop) → hop ≡ Some h → other ≡ Some h) }
{
    match (hop, other) {
        (None, _) => true,
        (Some(hop), Some(other)) => hop == other,
        (Some(_), None) => false,
    }
}
