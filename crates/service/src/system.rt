//! What a service runs on.

use std::alloc::Global;

/// What a service asks of the system: to wait and to reach others, memory, and what time it is.
#[derive(Drop)]
pub struct System<'a, H, C> {
    pub handle: &'a H,
    pub alloc: Global,
    pub clock: &'a C,
}
