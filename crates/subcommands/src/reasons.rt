//! Why a file or a socket failed, in words for people.

ghost use Rattle.std.specs.Prelude.{◌≡◌};
ghost use Rattle.subcommands.specs.Reasons.{failure_words};

use std::io::ErrorKind;

/// Why something failed that the system was asked for.
pub fn reason_of(kind: ErrorKind) -> &'static str
    ensures { result.now ≡ failure_words kind }
{
    match kind {
        ErrorKind::NotFound => "no such file",
        ErrorKind::PermissionDenied => "permission denied",
        ErrorKind::AddrInUse => "address in use",
        ErrorKind::AddrNotAvailable => "address not available",
        ErrorKind::NotADirectory => "a part of its path is no directory",
        ErrorKind::IsADirectory => "is a directory",
        ErrorKind::FilesystemLoop => "its symbolic links go in a circle",
        ErrorKind::TimedOut => "timed out",
        ErrorKind::InvalidFilename => "its name is too long",
        ErrorKind::Interrupted => "interrupted",
        ErrorKind::Unsupported => "not supported",
        ErrorKind::OutOfMemory => "out of memory",
        _ => "the system gave an error",
    }
}
