//! What the tests of several crates are written in: the usual setup and changes of it, books of two peers, frames by their names,
//! and numbers that look random.
#![tactic(auto)]

pub mod books;
mod draws;
mod frames;
mod setups;
mod texts;

pub use draws::Draws;
pub use frames::{filled, filled_in, frame};
pub use setups::{ABSENT, Line, PEER, RATE, ROUTE, TENANT, setup_by, setup_in, setup_with};
pub use texts::{put, replaced};
