//! Values in a box. Contracts see the values.

use std::alloc::{AllocError, Global};
use std::marker::Model;

/// A value on the heap, of the size of a pointer. Contracts see the value.
#[derive(Drop)]
pub struct Boxed<T> {
    place: Box<T>,
}

impl<T> Model for Boxed<T> {
    ghost Value = { T };

    ghost view = { λ b. b.place.value };
}

impl<T: Drop> Boxed<T> {
    ghost use Rattle.std.specs.Prelude.{◌≡◌, IfOk};

    /// Puts a value on the heap. Fails only if it is out of memory, and drops the value then.
    pub fn new(alloc: Global, value: T) -> Result<Boxed<T>, AllocError>
        ensures { IfOk result (λ b. b ≡ value) }
    {
        Ok(Boxed {
            place: Box::new(alloc, value)?,
        })
    }
}

impl<T> Boxed<T> {
    ghost use Rattle.std.specs.Prelude.{◌≡◌};
    ghost use Rattle.std.specs.Borrow.{Lends, sem};
    ghost use Rattle.common_types.specs.contracts.boxed.Boxed.{the_row};

    /// A reference to the value.
    pub fn get(&self) -> &T
        ensures { result.now ≡ self.now }
    {
        self.place.as_ref()
    }

    /// A mutable reference to the value.
    pub fn get_mut(&mut self) -> &mut T
        ensures* writes_back { sem 𝓛 (Lends (the_row T.row) T.row self.entry result (λ w. w)) }
        ensures value { result.now ≡ self.old }
    {
        self.place.as_mut()
    }

    /// The value, moved out. Its memory is freed.
    pub fn into_inner(self) -> T
        ensures { result ≡ self }
    {
        let Boxed { place } = self;
        Box::into_inner(place)
    }
}
