//! Replays: scripts as steps, outputs as lines, and the whole way from the bytes of a setup and a script to the bytes
//! that are written.
#![tactic(auto)]

mod causes;
mod keeping;
pub mod laws;
mod lines;
mod numbers;
mod operands;
mod recording;
mod replays;
mod scans;
mod script;
mod streams;
mod words;

pub use causes::{LineFault, Operand, Verb};
pub use keeping::PeriodKeeper;
pub use lines::line_fault;
pub use output_text::{print_lines, put_answer};
pub use recording::{NotRecorded, RecordedFault, Recorder, replay_recorded};
pub use replays::{ReplayFault, replay, replay_keeping};
pub use script::{
    MAX_LINE, MAX_SCRIPT, Meaning, ScriptFault, ScriptWrong, check_script, explain_script,
    meaning_of,
};
