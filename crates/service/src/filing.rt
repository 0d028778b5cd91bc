//! The statements of closed periods: where they are kept, and which could not be written.

ghost use Rattle.std.specs.Prelude.{◌≡◌, ◌++◌, Bool, List, OnOk, ℕ};
ghost use Rattle.std.specs.Fmt.{decimal};
ghost use Rattle.service.specs.Filing.{AreFiled, IsFiled, StatementToKeep, line_unless, missing_line};

pub mod disk;
pub mod folder;
pub mod receipt_store;
pub mod scribe;

use common_types::Name;
use statements::write_statement;
use std::alloc::{AllocError, Global};
use tenant_core::Period;
use workers::Backlog;

/// What a service knows of its statements: their folder, and the periods whose statements are not written yet.
#[derive(Drop)]
pub struct Filing {
    pub folder: String,
    pub backlog: Backlog,
}

/// What a store has of a period.
#[derive(Clone, Copy, Debug, PartialEq, Eq)]
pub enum Found {
    /// Nothing.
    Nothing,
    /// Exactly that statement.
    Same,
    /// Another text.
    Other,
    /// It is not known what it has.
    Unknown,
}

/// A store of statements.
pub trait StatementStore {
    ghost use Rattle.std.specs.Prelude.{Bool};
    ghost use Rattle.service.specs.Filing.{StatementToKeep};
    ghost use Rattle.service.specs.declared.filing.Found.{Found};

    /// What a question does: the store before, the statement that was asked for, the answer, and the store after.
    ghost tells: { Self → StatementToKeep → Found → Self → Type 0 };

    /// What keeping does: the store before, the statement, whether it is kept now, and the store after.
    ghost keeps: { Self → StatementToKeep → Bool → Self → Type 0 };

    /// What there is of a tenant's period, whose statement is that text. The same text is on the disk if it is answered so.
    fn find(&mut self, name: &Name, period: u64, text: &[u8]) -> Found
        ensures { tells self.old (record { name = name.now; period = period; text = text.now }) result self.new };

    /// Keeps the statement of a tenant's period for good. There is none yet. Returns whether it is kept now.
    fn keep(&mut self, name: &Name, period: u64, text: &[u8]) -> bool
        ensures { keeps self.old (record { name = name.now; period = period; text = text.now }) result self.new };
}

/// Writes the statement of a closed period, unless there is a text of that period. Returns whether it is kept now: also if exactly
/// that text was there already, or is there after all. It is not if it is out of memory.
pub fn file<S: StatementStore>(alloc: Global, store: &mut S, period: &Period) -> bool
    ensures { IsFiled S.tells S.keeps period.now result store.old store.new }
{
    let Ok(text) = write_statement(alloc, period) else {
        return false;
    };
    let (name, number) = (&period.opening().name, period.number());
    let text = text.as_slice();
    match store.find(name, number, text) {
        Found::Nothing => {
            store.keep(name, number, text) || store.find(name, number, text) == Found::Same
        }
        Found::Same => true,
        Found::Other | Found::Unknown => false,
    }
}

/// Writes the statements of closed periods, one after another, and a line for each that is not kept now. Fails only if
/// it is out of memory for a line.
pub fn file_each<S: StatementStore>(
    alloc: Global,
    store: &mut S,
    periods: &[Period],
) -> Result<Vec<u8>, AllocError>
    ensures { OnOk result ((lines : List ℕ) × AreFiled S.tells S.keeps periods.now store.old store.new lines) }
{
    let mut lines = Vec::new(alloc);
    for period in periods {
        file_or_tell(alloc, store, period, &mut lines)?;
    }
    Ok(lines)
}

// Writes the statement of a closed period, or a line if it is not kept now.
fn file_or_tell<S: StatementStore>(
    alloc: Global,
    store: &mut S,
    period: &Period,
    lines: &mut Vec<u8>,
) -> Result<(), AllocError>
    ensures { OnOk result ((kept : Bool) × IsFiled S.tells S.keeps period.now kept store.old store.new
        × (lines.new.items ≡ lines.old.items ++ line_unless kept period.now)) }
{
    if file(alloc, store, period) {
        return Ok(());
    }
    put_missing(alloc, lines, period)
}

// The line of a period whose statement is not kept.
#[tactic(auto, unfolding(crate::specs::Filing::missing_line))]
fn put_missing(alloc: Global, lines: &mut Vec<u8>, period: &Period) -> Result<(), AllocError>
    ensures { OnOk result (lines.new.items ≡ lines.old.items ++ missing_line period.now) }
{
    lines.extend_from_slice(b"statement ")?;
    lines.extend_from_slice(period.opening().name.as_bytes())?;
    lines.extend_from_slice(b" ")?;
    let number = period.number().to_string(alloc)?;
    lines.extend_from_slice(number.as_bytes())?;
    lines.extend_from_slice(b" missing\n")
}
