use thiserror::Error;

/// Why a request for the configuration is refused, in the order of the tests.
#[derive(Clone, Copy, Debug, PartialEq, Eq, Error)]
pub enum IldcpFault {
    /// The peer that asks is no child.
    #[error("the peer is no child")]
    NotChild,
    /// The packet brings an amount.
    #[error("the amount is not zero")]
    Amount,
    /// The condition is not the one that 32 zero bytes fulfill.
    #[error("the condition is not that of 32 zero bytes")]
    Condition,
}
