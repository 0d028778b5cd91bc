//! What is in a journal that a replay keeps.
#![tactic(auto)]

pub mod laws;
