//! The calls on a file so far. Only clauses read them: at run time there is nothing of them.

ghost use Rattle.std.specs.Prelude.{◌≡◌, List, [], ◌∷◌};
ghost use Rattle.std.specs.Borrow.{ftrue};
ghost use Rattle.log_folder.specs.Calls.{Call, call_of};

use std::marker::{Model, PhantomData};

/// The calls on a file, the newest first.
#[derive(Drop)]
pub struct History {
    marker: PhantomData<u8>,
    pub ghost calls: { List Call },
}

impl Model for History {
    ghost also_owns = { λ _. ftrue };
}

// It owns nothing.
unsafe impl Send for History {}

impl History {
    // No call yet.
    pub(crate) fn new() -> History
        ensures { result.calls ≡ [] }
    {
        History {
            marker: PhantomData,
        }
    }

    // One call more: which one it is, a place or a count, and 1 if it succeeded; and its bytes.
    pub(crate) fn note(&mut self, _numbers: &[u64], _bytes: &[u8])
        ensures { self.new.calls ≡ call_of _numbers.now _bytes.now ∷ self.old.calls }
    {}
}
