//! The lines that are printed of outputs and answers, and hexadecimal digits.
//!
//! - [`print_lines`] has the lines of some outputs, [`put_told`] appends those of a step's output, and [`put_answer`] those of a
//!   command's answer.
//! - [`hexadecimal`] tests, reads and writes digits.
#![tactic(auto)]

pub mod hexadecimal;
mod printed;

pub use printed::{print_lines, put_answer, put_told};
