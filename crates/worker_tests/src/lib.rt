//! Tests of workers, with threads: packets and commands, books and their locks, places, meters and audits. The crate has only tests: a
//! crate with tests is proved twice, so the crates below have none of their own.
#![tactic(auto)]

#[cfg(test)]
mod working;

// 2030-01-01T00:00:00Z, when books begin.
#[cfg(test)]
const START: u64 = 1_893_456_000_000;
