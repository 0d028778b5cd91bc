//! A journal on disk of books under locks, as the threads of a service share it.
//!
//! What is done to the books is kept there before anything of it leaves. There is one pen, and nobody writes without it. A thread
//! that waits for a record takes the pen if it is free. It notes what all books have got, writes that by one call, syncs it, and puts
//! the pen back. Others wait meanwhile, and one of them is next.
#![tactic(auto)]

mod keeper;
pub mod laws;
mod noted;
mod pen;
mod progress;
mod shared;
mod writes;

pub use keeper::Keeper;
pub use shared::{Limits, SharedJournal};
