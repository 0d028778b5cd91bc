//! Values that several hold together. Contracts see the values.

ghost use Rattle.std.specs.Prelude.{◌≡◌, IfOk};

use std::alloc::{AllocError, Global};
use std::marker::Model;
use std::ops::Deref;
use std::sync::Arc;

/// A value on the heap that several hold together, of the size of a pointer. Contracts see the value.
#[derive(Drop)]
pub struct Shared<T> {
    place: Arc<T>,
}

impl<T> Model for Shared<T> {
    ghost Value = { T };

    ghost view = { λ s. s.place.value };
}

impl<T: Drop> Shared<T> {
    /// Puts a value on the heap. Fails only if it is out of memory, and drops the value then.
    pub fn new(alloc: Global, value: T) -> Result<Shared<T>, AllocError>
        ensures { IfOk result (λ s. s ≡ value) }
    {
        Ok(Shared {
            place: Arc::new(alloc, value)?,
        })
    }
}

impl<T> Shared<T> {
    /// The same value, which both hold. Fails only if its owners can't be counted any more.
    pub fn share(&self) -> Result<Shared<T>, AllocError>
        ensures { IfOk result (λ s. s ≡ self.now) }
    {
        Ok(Shared {
            place: Arc::try_clone(&self.place)?,
        })
    }
}

impl<T> Deref for Shared<T> {
    type Target = T;

    ghost deref_gives = { λ s x. x ≡ s };

    fn deref(&self) -> &T
        ensures { result.now ≡ self.now }
    {
        &self.place
    }
}
