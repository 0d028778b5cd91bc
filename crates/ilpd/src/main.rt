//! The connector's program.
#![tactic(auto)]

pub use command_line::arguments;
pub use replay_text::{ReplayFault, replay};
use std::process::ExitCode;

fn main(rt: HostRuntime) -> ExitCode {
    ExitCode::from(subcommands::run(&rt))
}
