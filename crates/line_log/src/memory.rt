//! A file in memory, for tests. A call is done at once, so a crash leaves what is there. It keeps each past content.

ghost use Rattle.std.specs.Prelude.{◌≡◌, ◌⊎◌, ◌+◌, ◌≤◌, false, IfOk, [], ◌∷◌, ◌++◌, length, drop, OnOk, OnErr};
ghost use Rattle.std.proofs.Common.{inl};
ghost use Rattle.line_log.specs.File.{overwritten};
ghost use Rattle.line_log.specs.Past.{HadBeen, only_bytes};

use crate::{FileFailed, LogFile};
use std::alloc::{AllocError, Global};

/// A file in memory, of which a call can be made to fail.
#[derive(Drop)]
pub struct Memory {
    alloc: Global,
    bytes: Vec<u8>,
    past: Vec<Vec<u8>>,
    calls: usize,
    failed: bool,
}

impl Memory {
    ghost use Rattle.line_log.specs.Memory.{memory_bytes, memory_calls, memory_failed};

    /// A file with these bytes, all of them on the disk. That many calls succeed, unless an allocation fails.
    pub fn new(alloc: Global, bytes: Vec<u8>, calls: usize) -> Self
        ensures bytes { memory_bytes result ≡ bytes.items }
        ensures sound { memory_failed result ≡ false }
        ensures calls { memory_calls result ≡ calls }
    {
        Memory {
            alloc,
            bytes,
            past: Vec::new(alloc),
            calls,
            failed: false,
        }
    }

    /// What is there.
    pub fn bytes(&self) -> &[u8]
        ensures { result.now ≡ memory_bytes self.now }
    {
        &self.bytes
    }
}

// The file with these bytes at that offset.
fn placed(alloc: Global, file: &[u8], at: usize, bytes: &[u8]) -> Result<Vec<u8>, AllocError>
    requires { at + length bytes.now ≤ length file.now }
    ensures { IfOk result (λ next. next.items ≡ overwritten file.now at bytes.now) }
{
    let mut next = file[..at].to_vec(alloc)?;
    next.extend_from_slice(bytes)?;
    next.extend_from_slice(&file[at + bytes.len()..])?;
    Ok(next)
}

// Puts other bytes in the place of those that are there, which it keeps.
fn replace(
    alloc: Global,
    bytes: &mut Vec<u8>,
    past: &mut Vec<Vec<u8>>,
    next: Vec<u8>,
) -> Result<(), AllocError>
    ensures ok { OnOk result (bytes.new.items ≡ next.items) }
    ensures err { OnErr result (bytes.new.items ≡ bytes.old.items) }
    ensures past { OnOk result ((v : _) × (v.items ≡ bytes.old.items)
        × (past.new.items ≡ past.old.items ++ v ∷ [])) }
    ensures past_err { OnErr result (past.new.items ≡ past.old.items) }
{
    past.push(bytes.to_vec(alloc)?)?;
    *bytes = next;
    Ok(())
}

// Places bytes in the file, and keeps what was there.
fn place(
    alloc: Global,
    file: &mut Vec<u8>,
    past: &mut Vec<Vec<u8>>,
    at: usize,
    bytes: &[u8],
) -> Result<(), AllocError>
    requires { at + length bytes.now ≤ length file.old.items }
    ensures ok { OnOk result (file.new.items ≡ overwritten file.old.items at bytes.now) }
    ensures err { OnErr result (file.new.items ≡ file.old.items) }
    ensures past { OnOk result ((v : _) × (v.items ≡ file.old.items)
        × (past.new.items ≡ past.old.items ++ v ∷ [])) }
    ensures past_err { OnErr result (past.new.items ≡ past.old.items) }
{
    let next = placed(alloc, file, at, bytes)?;
    replace(alloc, file, past, next)
}

impl LogFile for Memory {
    ghost seen = { λ m. m.bytes.items };

    ghost may_leave = { λ m c. c ≡ m.bytes.items };

    ghost moment = { λ m. length m.past.items };

    ghost left_since = { λ m t c. (c ≡ m.bytes.items) ⊎ HadBeen (drop t m.past.items) c };

    ghost has_failed = { λ m. m.failed };

    ghost counts_now = { λ m t c le now. inl now };

    ghost only_now = { λ m c left. only_bytes m.past.items m.bytes.items c left };

    fn write_at(&mut self, at: usize, bytes: &[u8]) -> Result<(), FileFailed> {
        if self.calls == 0 {
            self.failed = true;
            return Err(FileFailed);
        }
        self.calls -= 1;
        match place(self.alloc, &mut self.bytes, &mut self.past, at, bytes) {
            Ok(()) => Ok(()),
            Err(_) => {
                self.failed = true;
                Err(FileFailed)
            }
        }
    }

    fn sync(&mut self) -> Result<(), FileFailed> {
        if self.calls == 0 {
            self.failed = true;
            return Err(FileFailed);
        }
        self.calls -= 1;
        Ok(())
    }
}
