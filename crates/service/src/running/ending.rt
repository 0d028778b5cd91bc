//! How a service ends.

ghost use Rattle.std.specs.Prelude.{◌≡◌, OnOk, true};
ghost use Rattle.service.specs.Ending.{end_of, ungathered_end};

use books_shared::GatherFault;
use one_list::Run;
use std::alloc::AllocError;
use std::io;
use std::io::ErrorKind;
use thiserror::Error;

/// Why a service ended, other than after its rounds or because its host stopped it.
#[derive(Clone, Copy, Debug, PartialEq, Eq, Error)]
pub enum ServeFault {
    /// Out of memory.
    #[error("out of memory")]
    Memory,
    /// A thread could not be started, the lines or a statement not be written, or, unless its host stopped the service, a
    /// connection not be accepted.
    #[error("device")]
    Device,
    /// The books at the end are not what the workers have counted. This cannot happen if each lock returns what was
    /// left in it.
    #[error("books differ")]
    Differs,
    /// An audit found a fault. Its line says which.
    #[error("audit")]
    Audit,
}

impl From<AllocError> for ServeFault {
    ghost use Rattle.std.specs.Prelude.{◌≡◌};
    ghost use Rattle.service.specs.declared.running.ending.ServeFault.TheVariants.{Memory};

    ghost from_gives = { λ error told. told ≡ Memory };

    fn from(_: AllocError) -> ServeFault {
        ServeFault::Memory
    }
}

impl From<io::Error> for ServeFault {
    ghost use Rattle.std.specs.Prelude.{◌≡◌, ◌⊎◌};
    ghost use Rattle.service.specs.declared.running.ending.ServeFault.TheVariants.{Memory, Device};

    ghost from_gives = { λ error told. (told ≡ Memory) ⊎ (told ≡ Device) };

    fn from(error: io::Error) -> ServeFault {
        if error.kind() == ErrorKind::OutOfMemory {
            ServeFault::Memory
        } else {
            ServeFault::Device
        }
    }
}

/// What became of the audit of a service.
#[derive(Clone, Copy, Debug, PartialEq, Eq)]
pub enum AuditEnd {
    /// It found no fault, or there was no audit.
    Good,
    /// It found a fault.
    Bad,
    /// Out of memory for it.
    Lacked,
}

/// How a service ends after its books were gathered and its lines written. It depends on whether an accept has failed,
/// whether the host stopped it, whether its statements are all kept, and how its audit ended.
pub fn end_of(
    has_failed: bool,
    was_stopped: bool,
    is_stated: bool,
    audit: AuditEnd,
) -> Result<(), ServeFault>
    ensures end { result ≡ end_of has_failed was_stopped is_stated audit }
    ensures good { OnOk result ((audit ≡ AuditEnd.Good) × (is_stated ≡ true)) }
{
    match audit {
        AuditEnd::Lacked => Err(ServeFault::Memory),
        AuditEnd::Good | AuditEnd::Bad if has_failed && !was_stopped => Err(ServeFault::Device),
        AuditEnd::Good | AuditEnd::Bad if !is_stated => Err(ServeFault::Device),
        AuditEnd::Good => Ok(()),
        AuditEnd::Bad => Err(ServeFault::Audit),
    }
}

/// How a service ends whose books were not gathered. If it is audited, the audit has found that they differ.
pub fn ungathered_end<J: Run>(fault: &GatherFault<J>, audited: bool) -> ServeFault
    ensures { result ≡ ungathered_end fault.now audited }
{
    match fault {
        GatherFault::Memory(..) => ServeFault::Memory,
        GatherFault::Missing(..) | GatherFault::Differs(..) if audited => ServeFault::Audit,
        GatherFault::Missing(..) | GatherFault::Differs(..) => ServeFault::Differs,
    }
}
