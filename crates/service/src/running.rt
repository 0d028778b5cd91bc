//! How a service begins, runs and ends.

pub mod auditing;
pub mod balances;
pub mod ended;
pub mod ending;
pub mod files;
pub mod finishing;
pub mod meeting;
pub mod opening;
pub mod plan;
pub mod serving;
