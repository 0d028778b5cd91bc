//! The texts by which an operator governs tenants: setups and commands.
#![tactic(auto)]

mod commands;
mod expected;
mod explained;
mod fields;
mod ignored;
mod keys;
pub mod laws;
mod networks;
mod noted;
mod places;
mod secrets;
mod setup;
mod setup_text;
mod tables;
mod version;
mod words;
mod written;
mod wrong;

pub use commands::{TextFault, parse_command};
pub use explained::{Explained, explain};
pub use ignored::{IgnoredKey, ignored_keys};
pub use noted::{Note, notes};
pub use places::{TableKind, TablePlace};
pub use setup::{Setup, SetupFault, read_setup};
pub use setup_text::write_setup;
pub use tenant_core::limits::MAX_TENANTS;
pub use written::write_command;
