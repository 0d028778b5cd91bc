//! Tests of the service on loopback, with threads; and of the command line, of what the subcommands say, and of exit statuses. The
//! crate has only tests: a crate with tests is proved twice, so the crates below have none of their own.
#![tactic(auto)]

#[cfg(test)]
mod commands;
#[cfg(test)]
mod serving;

// 2030-01-01T00:00:00Z, when books begin.
#[cfg(test)]
const START: u64 = 1_893_456_000_000;
