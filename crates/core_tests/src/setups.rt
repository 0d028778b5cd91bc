//! Setups, what is said of bad ones, which keys are ignored, setups that are written again, and the text of commands.

mod changes;
mod commands;
mod ignored_keys;
mod limits;
mod notes;
mod texts;
mod words;
mod written;
