//! The operators' door: what an operator may ask of its tenant, the commands that it sends, and what is answered.

pub mod answering;
pub mod asking;
pub mod explaining;
pub mod hidden;
pub mod peers;
pub mod question;
