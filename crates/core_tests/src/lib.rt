//! Tests of the libraries that hold no handle and read no scripts, as tables of cases: of single values, of setups and
//! the text of commands, of the books of tenants, and of floors on which workers carry packets.
//!
//! The crate has only tests: a crate with tests is proved twice, so the crates below have none of their own.
#![tactic(auto)]

#[cfg(test)]
mod books;
#[cfg(test)]
mod floors;
#[cfg(test)]
mod setups;
#[cfg(test)]
mod values;
