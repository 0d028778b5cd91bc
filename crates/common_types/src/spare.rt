//! Room for bytes that are not known yet.

use std::alloc::{AllocError, Global};
use std::marker::Model;

/// Room for so many bytes, allocated before they are known: filling it allocates nothing. Contracts see how
/// many.
#[derive(Drop)]
pub struct Spare {
    room: usize,
    bytes: Vec<u8>,
}

impl Model for Spare {
    ghost use Rattle.std.specs.Prelude.{ℕ, ◌≡◌, ◌≤◌, [], vec_capacity};

    ghost Value = { ℕ };

    ghost view = { λ s. s.room };

    ghost invariant = { λ s. (s.bytes.items ≡ []) × (s.room ≤ vec_capacity s.bytes) };
}

impl Spare {
    ghost use Rattle.std.specs.Prelude.{◌≡◌, ◌≤◌, length, IfOk};

    /// An empty buffer for `room` bytes. Fails only if it is out of memory.
    pub fn new(alloc: Global, room: usize) -> Result<Spare, AllocError>
        ensures { IfOk result (λ spare. spare ≡ room) }
    {
        let bytes = Vec::with_capacity(alloc, room)?;
        Ok(Spare { room, bytes })
    }

    /// A vector of these bytes, in this room.
    pub fn fill(self, bytes: &[u8]) -> Vec<u8>
        requires { length bytes.now ≤ self }
        ensures { result.items ≡ bytes.now }
    {
        let Spare {
            bytes: mut filled,
            ..
        } = self;
        let _ = filled.extend_from_slice(bytes);
        filled
    }
}
