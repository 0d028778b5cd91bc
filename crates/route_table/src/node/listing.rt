//! The routes of a node, one after the other.

ghost use Rattle.std.specs.Prelude.{◌≡◌, ◌++◌, IfOk, OnOk, option_copied};
ghost use Rattle.std.specs.FinMap.{entries};
ghost use Rattle.ilp_addr.specs.Address.{IsPrefix};
ghost use Rattle.route_table.specs.Listing.{AreSpelled, spelled, front_with};
ghost use Rattle.route_table.specs.Nodes.{own_row};

use super::Node;
use crate::hop::Hop;
use crate::route::Route;
use ilp_addr::Prefix;
use std::alloc::{AllocError, Global};

// The prefix that these bytes are.
fn prefix_of(alloc: Global, bytes: &[u8]) -> Result<Prefix, AllocError>
    ensures { IfOk result (λ prefix. IsPrefix bytes.now → prefix ≡ bytes.now) }
{
    ilp_addr::laws::prefix_words();
    match Prefix::parse(alloc, bytes) {
        Ok(prefix) => Ok(prefix),
        Err(_) => Err(AllocError),
    }
}

// The prefix that leads to the paths one segment further down.
fn front_with(alloc: Global, front: Option<&[u8]>, segment: &[u8]) -> Result<Vec<u8>, AllocError>
    ensures { IfOk result (λ more. more.items ≡ front_with (option_copied front.entry) segment.now) }
{
    let Some(front) = front else {
        return Vec::from_slice(alloc, segment);
    };
    let mut more = Vec::from_slice(alloc, front)?;
    more.push(b'.')?;
    more.extend_from_slice(segment)?;
    Ok(more)
}

// Appends the node's own route, if it has one.
fn put_own(
    alloc: Global,
    front: Option<&[u8]>,
    hop: Option<Hop>,
    routes: &mut Vec<Route>,
) -> Result<(), AllocError>
    ensures { OnOk result (AreSpelled (option_copied front.entry) (own_row hop)
        → routes.new.items ≡ routes.old.items ++ spelled (option_copied front.entry) (own_row hop)) }
{
    let Some(hop) = hop else {
        return Ok(());
    };
    let prefix = prefix_of(alloc, front.unwrap_or(&[]))?;
    routes.push(Route { prefix, hop })?;
    Ok(())
}

impl Node {
    /// Appends the routes from the node down, in the order of their paths. `front` is the prefix that leads to the
    /// node, `None` at the root.
    pub(crate) fn list(
        &self,
        alloc: Global,
        front: Option<&[u8]>,
        routes: &mut Vec<Route>,
    ) -> Result<(), AllocError>
        ensures { OnOk result (AreSpelled (option_copied front.entry) (entries self.now.routes)
            → routes.new.items ≡ routes.old.items ++ spelled (option_copied front.entry) (entries self.now.routes)) }
    {
        put_own(alloc, front, self.hop, routes)?;
        for child in &self.children {
            let front = front_with(alloc, front, &child.segment)?;
            child.node.list(alloc, Some(&front), routes)?;
        }
        Ok(())
    }
}
