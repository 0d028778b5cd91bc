//! Records that are written together.

ghost use Rattle.std.specs.Prelude.{◌≡◌, ◌++◌, ◌↔◌, IsTrue, [], ◌∷◌, length, OnOk, OnErr, IsErrOf};
ghost use Rattle.line_log.specs.declared.batch.BatchFault.TheVariants.{Memory};
ghost use Rattle.line_log.specs.Log.{recovered, IsLines, IsRecord};

use std::alloc::{AllocError, AllocFailed, Global};
use std::marker::Model;
use thiserror::Error;

/// Why a batch does not take a record.
#[derive(Clone, Copy, Debug, PartialEq, Eq, Error)]
pub enum BatchFault {
    /// An allocation failed.
    #[error("out of memory")]
    Memory,
    /// The record has a byte 0 or a line feed.
    #[error("a record has no byte 0 and no line feed")]
    Byte,
}

impl From<AllocError> for BatchFault {
    ghost from_gives = { λ _ e. e ≡ Memory };

    fn from(_: AllocError) -> Self {
        BatchFault::Memory
    }
}

impl<T: Drop> From<AllocFailed<T>> for BatchFault {
    ghost from_gives = { λ _ e. e ≡ Memory };

    fn from(_: AllocFailed<T>) -> Self {
        BatchFault::Memory
    }
}

/// Records that are written together, a line each. Contracts see the list of them.
#[derive(Drop)]
pub struct Batch {
    text: Vec<u8>,
}

impl Model for Batch {
    ghost use Rattle.std.specs.Prelude.{List, ℕ};
    ghost use Rattle.line_log.specs.Log.{recovered, IsLines};

    ghost Value = { List (List ℕ) };

    ghost view = { λ b. recovered b.text.items };

    ghost invariant = { λ b. IsLines b.text.items };
}

impl Batch {
    /// A batch without a record.
    pub fn new(alloc: Global) -> Batch
        ensures { result ≡ [] }
    {
        Batch {
            text: Vec::new(alloc),
        }
    }

    /// Adds a record of these bytes. `Byte` if one of them is 0 or a line feed, `Memory` if an allocation fails. After
    /// an error the batch is what it was.
    pub fn push(&mut self, bytes: &[u8]) -> Result<(), BatchFault>
        ensures ok { OnOk result (self.new ≡ self.old ++ bytes.now ∷ []) }
        ensures is_record { OnOk result (IsRecord bytes.now) }
        ensures err { OnErr result (self.new ≡ self.old) }
        ensures byte { IsErrOf result BatchFault.Byte → IsRecord bytes.now → ⊥ }
        ensures memory { IsErrOf result BatchFault.Memory → IsRecord bytes.now }
    {
        push_line(&mut self.text, bytes)?;
        Ok(())
    }

    /// Its lines.
    pub fn as_bytes(&self) -> &[u8]
        ensures whole { IsLines result.now }
        ensures records { recovered result.now ≡ self.now }
    {
        &self.text
    }
}

// Whether no byte is 0 or a line feed.
fn is_record(bytes: &[u8]) -> bool
    ensures { IsTrue result ↔ IsRecord bytes.now }
{
    bytes.iter().all(|byte| *byte != 0 && *byte != b'\n')
}

fn push_line(text: &mut Vec<u8>, bytes: &[u8]) -> Result<(), BatchFault>
    ensures ok { OnOk result ((text.new.items ≡ text.old.items ++ bytes.now ++ 10 ∷ []) × IsRecord bytes.now) }
    ensures err { OnErr result (text.new.items ≡ text.old.items) }
    ensures byte { IsErrOf result BatchFault.Byte → IsRecord bytes.now → ⊥ }
    ensures memory { IsErrOf result BatchFault.Memory → IsRecord bytes.now }
{
    if !is_record(bytes) {
        return Err(BatchFault::Byte);
    }
    text.reserve(bytes.len() + 1)?;
    text.extend_from_slice(bytes)?;
    text.push_reserved(b'\n');
    Ok(())
}
