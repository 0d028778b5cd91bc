//! Tests of journals on disk: runs as text, what is left of them, and notes; over real files, pairs of files, locks, folders that
//! are only read, and what is refused.
//!
//! The crate has only tests: a crate with tests is proved twice, so the crates below have none of their own.
#![tactic(auto)]

#[cfg(test)]
mod journal_texts;
#[cfg(test)]
mod journals;
#[cfg(test)]
mod locks;
#[cfg(test)]
mod notes;
#[cfg(test)]
mod pairs;
#[cfg(test)]
mod refusals;

#[cfg(test)]
use std::test::Fail;
#[cfg(test)]
use std::{env, fs, process};

// A new folder for a test of that name, and of this process, among the temporary ones.
#[cfg(test)]
fn new_folder(rt: &HostRuntime, name: &str) -> Result<String, Fail> {
    let among = env::temp_dir(rt)?;
    let id = process::id(rt.process());
    let path = format!(in rt.alloc(); "{}/ilpd_journal.{id}.{name}", among.as_str())?;
    let _ = fs::remove_dir_all(rt, path.as_str());
    fs::create_dir(rt, path.as_str())?;
    Ok(path)
}

// The path of a file in a folder.
#[cfg(test)]
fn path_in(rt: &HostRuntime, folder: &str, name: &str) -> Result<String, Fail> {
    Ok(format!(in rt.alloc(); "{folder}/{name}")?)
}

// Writes a text to a file in a folder.
#[cfg(test)]
fn put(rt: &HostRuntime, folder: &str, name: &str, text: &[u8]) -> Result<(), Fail> {
    let path = path_in(rt, folder, name)?;
    Ok(fs::write(rt, path.as_str(), text)?)
}

// Whether a file is there.
#[cfg(test)]
fn is_there(rt: &HostRuntime, folder: &str, name: &str) -> Result<bool, Fail> {
    let path = path_in(rt, folder, name)?;
    Ok(fs::exists(rt, path.as_str())?)
}
