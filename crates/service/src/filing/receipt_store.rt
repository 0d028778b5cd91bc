//! The receipts of all workers as a text that is kept.

ghost use Rattle.std.specs.Prelude.{Bool, List, Option, ℕ};
ghost use Rattle.service.specs.ReceiptFiling.{AreReceiptsFiled};

use crate::running::auditing::lists_of;
use books_shared::Share;
use one_list::Run;
use receipt_text::write_receipts;
use std::alloc::Global;

/// A store of the receipts of all workers.
pub trait ReceiptStore {
    /// What a question does: the store before, the answer, and the store after.
    ghost tells_receipts: { Self → Option Bool → Self → Type 0 };

    /// What keeping does: the store before, the text of the receipts, whether it is kept now, and the store after.
    ghost keeps_receipts: { Self → List ℕ → Bool → Self → Type 0 };

    /// Whether there are receipts; `None` if that is not known.
    fn has_receipts(&mut self) -> Option<bool>
        ensures { tells_receipts self.old result self.new };

    /// Keeps a text of receipts for good. There are none yet. Returns whether it is kept now.
    fn keep_receipts(&mut self, text: &[u8]) -> bool
        ensures { keeps_receipts self.old text.now result self.new };
}

/// Writes the receipts of all workers, unless there are receipts already. Returns whether they are kept now. They are
/// not if it is out of memory, or if a worker has kept none.
pub fn file_receipts<S: ReceiptStore, J: Run>(
    alloc: Global,
    store: &mut S,
    shares: &[Share<J>],
) -> bool
    ensures { AreReceiptsFiled S.tells_receipts S.keeps_receipts shares.now result store.old store.new }
{
    let Ok(lists) = lists_of(alloc, shares) else {
        return false;
    };
    let Ok(text) = write_receipts(alloc, lists.as_slice()) else {
        return false;
    };
    store.has_receipts() == Some(false) && store.keep_receipts(text.as_slice())
}
