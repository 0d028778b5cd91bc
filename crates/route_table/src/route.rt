//! Routes as they are listed.

use crate::hop::Hop;
use ilp_addr::Prefix;

/// A route: packets for the prefix go on by the hop.
#[derive(Debug, Drop)]
pub struct Route {
    pub prefix: Prefix,
    pub hop: Hop,
}
