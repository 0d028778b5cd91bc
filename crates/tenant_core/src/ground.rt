//! What stays as it is while amounts move.

use crate::arena::Journal;
use crate::network::Network;
use crate::opening::Opening;

/// What a period began with, whom the tenant deals with, and the records so far.
#[derive(Clone, Copy)]
pub struct Ground<'a> {
    pub opening: &'a Opening,
    pub network: &'a Network,
    pub journal: &'a Journal,
}
