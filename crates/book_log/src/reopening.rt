//! Books from a base and a log.

ghost use Rattle.std.specs.Prelude.{◌≡◌, List, ℕ, IfOk, OnOk};
ghost use Rattle.book_log.specs.Base.{AreReopened, HasLogFault, admins_of, states_of};
ghost use Rattle.book_log.specs.Faults.{IsFaultAt, IsLimit, IsLogFault, IsReopening, OnFault, Opens};
ghost use Rattle.book_log.specs.OneBase.{IsJournal};
ghost use Rattle.book_log.specs.Sums.{IsTextTaken};
ghost use Rattle.book_log.specs.Written.{IsNotWritten, IsOnlyEnd};
ghost use Rattle.tenant_core.specs.State.{State, opened};

use crate::base::{BaseFault, TenantStart, read_base};
use crate::laws::one_base;
use crate::taking::{LineFault, take_text};
use common_types::{ReadError, Token};
use std::alloc::{AllocError, Global};
use tenant_core::{Book, OpeningFault};
use thiserror::Error;

/// What is wrong with a journal on disk.
#[derive(Clone, Copy, Debug, PartialEq, Eq, Error)]
pub enum JournalFault {
    #[error("base: {0}")]
    Base(BaseFault),
    /// No period begins with the opening of that tenant.
    #[error("base: tenant {0}: no period begins so: {1}")]
    Limit(usize, OpeningFault),
    #[error("log: {0}")]
    Log(LineFault),
}

/// Books as a journal on disk leaves them, with what they still hold.
#[derive(Drop)]
pub struct Reopened {
    pub books: Vec<Book>,
    /// The token of each tenant's operator.
    pub admins: Vec<Token>,
}

// The book of that tenant, in which nothing has happened.
fn begun_one(
    alloc: Global,
    tenant: usize,
    start: &TenantStart,
) -> Result<Book, ReadError<JournalFault>>
    ensures begun { IfOk result (λ book. book ≡ opened start.now.opening) }
    ensures fault { HasLogFault result → ⊥ }
    ensures opens { IfOk result (λ book. Opens start.now) }
    ensures limit { OnFault result (IsLimit tenant start.now.opening) }
{
    match Book::reopened(alloc, start.opening.copy(alloc)?) {
        Ok(book) => Ok(book),
        Err(ReadError::Memory) => Err(ReadError::Memory),
        Err(ReadError::Fault(fault)) => Err(ReadError::Fault(JournalFault::Limit(tenant, fault))),
    }
}

// The books of these tenants.
fn begun(alloc: Global, starts: &[TenantStart]) -> Result<Vec<Book>, ReadError<JournalFault>>
    ensures begun { IfOk result (λ books. books.items ≡ states_of starts.now) }
    ensures fault { HasLogFault result → ⊥ }
{
    let mut books = Vec::new(alloc);
    for (tenant, start) in starts.iter().enumerate() {
        books.push(begun_one(alloc, tenant, start)?)?;
    }
    Ok(books)
}

// The tokens of these tenants' operators.
fn admins_of(alloc: Global, starts: &[TenantStart]) -> Result<Vec<Token>, AllocError>
    ensures { IfOk result (λ admins. admins.items ≡ admins_of starts.now) }
{
    let mut admins = Vec::new(alloc);
    for start in starts {
        admins.push(start.admin.copy())?;
    }
    Ok(admins)
}

// Takes up what a log says.
fn take_log(
    alloc: Global,
    books: &mut Vec<Book>,
    log: &[u8],
    first: &[u8; 32],
) -> Result<(), ReadError<JournalFault>>
    ensures taken { OnOk result (IsTextTaken first.now log.now books.old.items books.new.items) }
    ensures written { OnOk result (IsOnlyEnd first.now log.now books.old.items books.new.items) }
    ensures refused { HasLogFault result → IsNotWritten first.now log.now books.old.items }
    ensures fault { OnFault result (IsLogFault first.now log.now books.old.items) }
{
    match take_text(alloc, books, log, first) {
        Ok(()) => Ok(()),
        Err(ReadError::Memory) => Err(ReadError::Memory),
        Err(ReadError::Fault(fault)) => Err(ReadError::Fault(JournalFault::Log(fault))),
    }
}

/// The books of a base, after what a log says, which is whole lines.
///
/// The fault names the first line that is not as it would have been written, by the file that it is in. A journal that was written,
/// of tenants at the beginning of a period, has no fault of the log. Its books are those that its lines left.
pub fn reopen(alloc: Global, base: &[u8], log: &[u8]) -> Result<Reopened, ReadError<JournalFault>>
    ensures reopened { IfOk result (λ r. AreReopened base.now log.now r.books.items) }
    ensures written { IfOk result (λ r. (books : List State) (admins : List (List ℕ)) → IsJournal base.now log.now books admins
        → (r.books.items ≡ books) × (r.admins.items ≡ admins)) }
    ensures refused { HasLogFault result → (books : List State) (admins : List (List ℕ)) → IsJournal base.now log.now books admins → ⊥ }
    ensures left { IfOk result (λ r. IsReopening base.now log.now r.books.items r.admins.items) }
    ensures fault { OnFault result (IsFaultAt base.now log.now) }
{
    one_base();
    let (starts, first) = match read_base(alloc, base) {
        Ok(read) => read,
        Err(ReadError::Memory) => return Err(ReadError::Memory),
        Err(ReadError::Fault(fault)) => return Err(ReadError::Fault(JournalFault::Base(fault))),
    };
    let mut books = begun(alloc, &starts)?;
    let admins = admins_of(alloc, &starts)?;
    take_log(alloc, &mut books, log, &first)?;
    Ok(Reopened { books, admins })
}
