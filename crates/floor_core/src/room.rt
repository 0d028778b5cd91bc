//! Buffers for frames.

ghost use Rattle.std.specs.Prelude.{◌≡◌, ◌≤◌, length, IfOk};
ghost use Rattle.std.specs.Borrow.{Lends, Array, sem, u8 as byte};
ghost use Rattle.ilp_view.specs.Packet.{max_frame};
ghost use Rattle.oer_core.specs.Writing.{overwritten};

use ilp_view::MAX_FRAME;
use oer_core::put_bytes;
use std::alloc::{AllocError, Global};
use std::marker::Model;

/// As many bytes as a frame may have, allocated once. Contracts see them all.
#[derive(Drop)]
pub struct Room {
    bytes: Vec<u8>,
}

impl Model for Room {
    ghost use Rattle.std.specs.Prelude.{List, ℕ, ◌≡◌, length};
    ghost use Rattle.ilp_view.specs.Packet.{max_frame};

    ghost Value = { List ℕ };

    ghost view = { λ r. r.bytes.items };

    ghost invariant = { λ r. length r.bytes.items ≡ max_frame };
}

impl Room {
    ghost use Rattle.floor_core.specs.Rooms.{refilled};
    ghost use Rattle.floor_core.specs.contracts.room.Room.{the_row};

    /// Such a buffer. Fails only if it is out of memory.
    pub fn new(alloc: Global) -> Result<Room, AllocError>
        ensures { IfOk result (λ room. length room ≡ max_frame) }
    {
        Ok(Room {
            bytes: vec![in alloc; 0; MAX_FRAME]?,
        })
    }

    /// The bytes.
    pub fn as_slice(&self) -> &[u8]
        ensures value { result.now ≡ self.now }
        ensures size { length self.now ≡ max_frame }
    {
        self.bytes.as_slice()
    }

    /// The bytes, to be written.
    pub fn as_mut_slice(&mut self) -> &mut [u8]
        ensures* writes_back { sem 𝓛 (Lends the_row (Array byte 0) self.entry result (refilled self.old)) }
        ensures value { result.now ≡ self.old }
        ensures size { length self.old ≡ max_frame }
    {
        self.bytes.as_mut_slice()
    }

    /// Puts these bytes at the front. Every other byte stays.
    pub fn put(&mut self, bytes: &[u8])
        requires { length bytes.now ≤ max_frame }
        ensures { self.new ≡ overwritten self.old 0 bytes.now }
    {
        put_bytes(self.as_mut_slice(), 0, bytes);
    }
}
