//! The value that each key of a setup needs, and its words for people.

use crate::places::TableKind;
use crate::secrets::{Hidden, ShownValue};
use common_types::MAX_TOKEN;
use std::fmt;
use tenant_core::limits::{MAX_MONEY, MAX_TENANTS};
use toml::Value;

/// What a key may have as its value.
#[derive(Clone, Copy)]
pub(crate) enum Expected {
    Version,
    Tenants,
    Tables(TableKind),
    Name,
    Token,
    Address,
    Role,
    Url,
    Asset,
    Prefix,
    PeerName,
    /// A whole number from the first to the second.
    Whole(u64, u64),
    /// A whole number at most as far from 0 as money goes.
    Balance,
}

/// What a key should have, given the wrong value that it has.
#[derive(Clone, Copy)]
pub(crate) struct Right<'a> {
    pub(crate) expected: Expected,
    pub(crate) found: ShownValue<'a>,
}

// The words for a key that needs a whole number from the first to the second.
fn put_whole<W: fmt::Write>(
    f: &mut fmt::Formatter<W>,
    least: u64,
    most: u64,
    found: ShownValue<'_>,
) -> fmt::Result {
    match found {
        ShownValue::Plain(Value::Integer(number)) => match u64::try_from(*number) {
            Ok(number) if number >= least => write!(f, "at most {most}"),
            _ => write!(f, "at least {least}"),
        },
        _ => write!(f, "a whole number from {least} to {most}"),
    }
}

// The words for a key that needs a balance.
fn put_balance<W: fmt::Write>(f: &mut fmt::Formatter<W>, found: ShownValue<'_>) -> fmt::Result {
    match found {
        ShownValue::Plain(Value::Integer(number)) if *number < 0 => write!(
            f,
            "at least -{MAX_MONEY}"
        ),
        ShownValue::Plain(Value::Integer(_)) => write!(f, "at most {MAX_MONEY}"),
        _ => write!(f, "a whole number from -{MAX_MONEY} to {MAX_MONEY}"),
    }
}

impl fmt::Display for Right<'_> {
    fn fmt<W: fmt::Write>(&self, f: &mut fmt::Formatter<W>) -> fmt::Result {
        match (self.expected, self.found) {
            (Expected::Whole(least, most), found) => put_whole(f, least, most, found),
            (Expected::Balance, found) => put_balance(f, found),
            (Expected::Tenants, _) => {
                write!(f, "1 to {MAX_TENANTS} tables, each begun by [[tenant]]")
            }
            (Expected::Tables(kind), _) => {
                write!(f, "an array of tables, each begun by [[{}]]", kind.header())
            }
            (Expected::Version, _) => f.write_str("1 and 2 are the versions"),
            (Expected::Name, _) => f.write_str("a text of 1 to 32 of a-z 0-9 -"),
            (Expected::Token, ShownValue::Hidden(Hidden::Character(number))) => {
                write!(f, "character {number} is none of A-Z a-z 0-9 - . _ ~ + / =")
            }
            (Expected::Token, ShownValue::Hidden(Hidden::Text(_))) => {
                write!(f, "at most {MAX_TOKEN}")
            }
            (Expected::Token, _) => {
                f.write_str("a text of 1 to 64 of A-Z a-z 0-9 - . _ ~ + / =")
            }
            (Expected::Address, _) => f.write_str(
                "an address as \"g.acme\", of at most 900 bytes: one of the schemes g private example self test \
                test1 test2 test3 local, and segments of A-Z a-z 0-9 _ ~ -",
            ),
            (Expected::Role, _) => f.write_str("\"child\" or \"peer\""),
            (Expected::Url, _) => f.write_str(
                "\"http://HOST/PATH\" or \"http://HOST:PORT/PATH\", of at most 255 bytes, HOST being localhost, an \
                IPv4 address, or an IPv6 address in brackets",
            ),
            (Expected::Asset, _) => f.write_str("a text of 1 to 16 of A-Z a-z 0-9"),
            (Expected::Prefix, _) => f.write_str(
                "an address as \"g.acme.bob\", a scheme as \"g\", or \"*\" for every destination",
            ),
            (Expected::PeerName, _) => f.write_str("the name of a peer of this tenant"),
        }
    }
}

// The most bytes of a text that are shown.
const MAX_SHOWN: usize = 100;

/// The value at a key, as it is written after the key's name.
#[derive(Clone, Copy)]
pub(crate) struct Shown<'a>(pub(crate) &'a Value);

impl fmt::Display for Shown<'_> {
    fn fmt<W: fmt::Write>(&self, f: &mut fmt::Formatter<W>) -> fmt::Result {
        match self.0 {
            Value::String(text) if text.len() <= MAX_SHOWN => write!(f, " = {:?}", text.as_str()),
            Value::String(text) => write!(f, " is a text of {} bytes", text.len()),
            Value::Integer(number) => write!(f, " = {number}"),
            Value::Boolean(truth) => write!(f, " = {truth}"),
            Value::Float(_) => f.write_str(" is a float"),
            Value::Datetime(_) => f.write_str(" is a date or a time"),
            Value::Array(_) => f.write_str(" is an array"),
            Value::Table(_) => f.write_str(" is a table"),
        }
    }
}
