//! Tests of scripts and replays, and of HTTP, through public functions, as tables of cases. The crate has only tests:
//! a crate with tests is proved twice, so the crates below have none of their own.
#![tactic(auto)]

#[cfg(test)]
mod answers;
#[cfg(test)]
mod configured;
#[cfg(test)]
mod crowds;
#[cfg(test)]
mod devices;
#[cfg(test)]
mod fees;
#[cfg(test)]
mod governed;
#[cfg(test)]
mod http;
#[cfg(test)]
mod kept;
#[cfg(test)]
mod replays;
#[cfg(test)]
mod rows;
#[cfg(test)]
mod script_words;
#[cfg(test)]
mod scripts;
#[cfg(test)]
mod verdicts;
