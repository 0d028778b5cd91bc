//! Money: prices by exact fractions, and what a peer owes.
//!
//! - [`Rate`] is a fraction of two numbers of at most [`Rate::MAX_TERM`]. [`Rate::price`] is the exact price of an
//!   amount, [`Rate::price_less`] that price less a fee, [`Rate::greatest`] the greatest amount within a bound.
//! - [`Purse`] is what a peer owes, and what is held from it and for it, between its ceiling and its credit.
//! - [`RateFault`] says why two numbers are not a rate, [`PurseFault`] what a purse refuses. [`laws`] says that each
//!   amount has one price.
#![tactic(auto)]

pub mod laws;
mod purse;
mod rate;

pub use purse::{MAX_MONEY, Purse, PurseFault};
pub use rate::{Rate, RateFault};
