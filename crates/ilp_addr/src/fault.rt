//! Why a text is no address, no prefix or no expiry.

use thiserror::Error;

/// The first rule that the bytes break.
#[derive(Clone, Copy, Debug, PartialEq, Eq, Error)]
pub enum AddrFault {
    /// The part before the first dot is no allocation scheme, or no dot follows it.
    #[error("the address does not begin with an allocation scheme")]
    Scheme,
    /// A segment is empty, or has a byte other than a letter, a digit, `_`, `~` or `-`.
    #[error("a segment of the address is empty or has a byte that is not allowed")]
    Segment,
    /// There are more than 1,023 bytes.
    #[error("the address is longer than 1023 bytes")]
    Length,
    /// The text is not `YYYYMMDDHHMMSSfff` in digits, or names no moment of the calendar.
    #[error("the expiry is not a date and time")]
    NotADate,
}
