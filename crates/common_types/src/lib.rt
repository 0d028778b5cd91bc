//! Small types that the connector's crates share.
//!
//! - Texts of limited length, names, tokens, asset codes, and the words and numerals of a text.
//! - Numbers within limits, and limits that several crates use.
//! - Boxed values, lists and bytes that contracts see as plain values and lists, and buffers for bytes.
//! - The errors of readers that allocate.
#![tactic(auto)]

mod between;
mod boxed;
mod bytes;
mod items;
pub mod laws;
pub mod limits;
mod names;
mod numerals;
mod order;
mod read_error;
mod spare;
mod text;
mod token;
mod words;

pub use between::Between;
pub use boxed::Boxed;
pub use bytes::Bytes;
pub use items::Items;
pub use names::{AssetCode, MAX_ASSET_CODE, MAX_NAME, Name, Token, is_asset_code, is_name};
pub use numerals::{NumberFault, are_digits, is_numeral, number_in, value_of};
pub use order::order_of;
pub use read_error::ReadError;
pub use spare::Spare;
pub use text::Text;
pub use token::{MAX_TOKEN, is_token};
pub use words::{Words, first_word};
