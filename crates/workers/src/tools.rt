//! What a worker works with.

use books_shared::Books;
use meters::Meters;
use one_list::Run;
use std::alloc::Global;

/// What a worker works with: how it waits for a lock, where its memory comes from, the books and the meters, what time it is,
/// and who keeps what is done to the books.
#[derive(Drop)]
pub struct Tools<'a, J: Run, R, C, K> {
    pub rt: &'a R,
    pub alloc: Global,
    pub books: &'a Books<J>,
    pub meters: &'a Meters,
    pub clock: &'a C,
    pub keeping: &'a K,
}
