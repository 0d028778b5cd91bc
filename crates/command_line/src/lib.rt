//! The command line of `ilpd`: its words, and what they ask for.
#![tactic(auto)]

mod usage;

pub use usage::{CommandLine, HostWords, Task, arguments};
