//! Why a frame could not be read or written.

ghost use Rattle.std.specs.Prelude.{◌≡◌};
ghost use Rattle.ilp_view.specs.declared.fault.ViewFault.TheVariants.{Oer, Field};

use ilp_addr::AddrFault;
use oer_core::OerFault;
use thiserror::Error;

/// The first thing that is wrong with a frame.
#[derive(Clone, Copy, Debug, PartialEq, Eq, Error)]
pub enum ViewFault {
    /// The frame is empty, or its first byte is not the type that was asked for.
    #[error("the packet is of another type")]
    Kind,
    /// A length cannot be read, or a field passes the end.
    #[error("a length cannot be read or a field passes the end")]
    Oer,
    /// A field is not a date, or not an address.
    #[error("a field is not a date or not an address")]
    Field,
    /// Bytes follow the contents.
    #[error("bytes stand after the end of the packet")]
    AfterEnd,
    /// The frame is over 34,000 bytes, or its data over 32,768.
    #[error("the packet or its data is too large")]
    Size,
    /// The packet to write does not fit.
    #[error("the packet does not fit")]
    Short,
}

impl From<OerFault> for ViewFault {
    ghost from_gives = { λ _ e. e ≡ Oer };

    fn from(_fault: OerFault) -> ViewFault {
        ViewFault::Oer
    }
}

impl From<AddrFault> for ViewFault {
    ghost from_gives = { λ _ e. e ≡ Field };

    fn from(_fault: AddrFault) -> ViewFault {
        ViewFault::Field
    }
}
