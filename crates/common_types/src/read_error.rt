//! Why a text was not read.

use std::alloc::{AllocError, AllocFailed};
use std::fmt;

/// Why a reader that allocates returned no value.
#[derive(Clone, Copy, Debug, PartialEq, Eq, Drop)]
pub enum ReadError<F> {
    /// Out of memory. This says nothing about the text.
    Memory,
    /// The first fault of the text.
    Fault(F),
}

impl<F: fmt::Display> fmt::Display for ReadError<F> {
    fn fmt<W: fmt::Write>(&self, f: &mut fmt::Formatter<W>) -> fmt::Result {
        match self {
            ReadError::Memory => write!(f, "out of memory"),
            ReadError::Fault(fault) => write!(f, "{fault}"),
        }
    }
}

impl<F> From<AllocError> for ReadError<F> {
    ghost use Rattle.std.specs.Prelude.{◌≡◌};
    ghost use Rattle.common_types.specs.declared.read_error.ReadError.TheVariants.{Memory};

    ghost from_gives = { λ _ e. e ≡ Memory };

    fn from(_e: AllocError) -> ReadError<F> {
        ReadError::Memory
    }
}

impl<T: Drop, F> From<AllocFailed<T>> for ReadError<F> {
    ghost use Rattle.std.specs.Prelude.{◌≡◌};
    ghost use Rattle.common_types.specs.declared.read_error.ReadError.TheVariants.{Memory};

    ghost from_gives = { λ _ e. e ≡ Memory };

    fn from(_e: AllocFailed<T>) -> ReadError<F> {
        ReadError::Memory
    }
}
