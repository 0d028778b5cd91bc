//! What a connection is: how many may come, how long each may do what, and when it gives way to others.

pub mod door;
pub mod pace;
pub mod timed;
