//! What is wrong with a setup, in words for people.

ghost use Rattle.std.specs.Prelude.{◌≡◌, option_map, IfOk};
ghost use Rattle.std.specs.Result.{result_err};
ghost use Rattle.admin_text.specs.Setup.{setup_of};

use crate::setup::{SetupFault, document_of, setup_of_table};
use common_types::ReadError;
use std::alloc::{AllocError, Global};

/// What is wrong with a setup: the fault, and a line that says where it is and what would be right.
#[derive(Drop)]
pub struct Explained {
    pub fault: SetupFault,
    pub words: String,
}

// The text of an error of several lines, in one.
fn one_line(alloc: Global, error: &toml::de::Error) -> Result<String, AllocError> {
    let lines = error.to_string(alloc)?;
    lines.trim_end().replace(alloc, "\n", ": ")
}

/// What is wrong with a setup, `None` if it is good: the first fault that [`read_setup`](crate::read_setup) finds, and
/// words that say where it is and what would be right. They name a tenant by its number from 0, and its peers, routes
/// and rates by theirs from 1.
pub fn explain(alloc: Global, text: &[u8]) -> Result<Option<Explained>, AllocError>
    ensures exact { IfOk result (λ found. option_map (λ e. e.fault) found ≡ result_err (setup_of text.now)) }
{
    let table = match document_of(alloc, text) {
        Ok(table) => table,
        Err(ReadError::Memory) => return Err(AllocError),
        Err(ReadError::Fault(error)) => {
            let fault = SetupFault::Toml;
            return Ok(Some(Explained {
                fault,
                words: one_line(alloc, &error)?,
            }));
        }
    };
    match setup_of_table(alloc, &table) {
        Ok(_) => Ok(None),
        Err(ReadError::Memory) => Err(AllocError),
        Err(ReadError::Fault(wrong)) => {
            let (fault, words) = (wrong.fault(), wrong.to_string(alloc)?);
            Ok(Some(Explained { fault, words }))
        }
    }
}
