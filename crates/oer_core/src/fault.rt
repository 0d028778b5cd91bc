use thiserror::Error;

/// Why bytes could not be read, or not be written.
#[derive(Clone, Copy, Debug, PartialEq, Eq, Error)]
pub enum OerFault {
    /// The bytes end inside a value, or a value to write does not fit.
    #[error("the bytes end too soon")]
    Short,
    /// The first byte begins no length: it is 128, or over 136.
    #[error("the first byte begins no length")]
    BadLength,
    /// The length is over the limit of the reader.
    #[error("the length is over its limit")]
    TooLong,
}
