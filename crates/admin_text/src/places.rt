//! Places in a setup, as people find them. A tenant has its number from 0, and its peers, routes and rates have
//! theirs from 1. Each place has the names that it gives itself.

ghost use Rattle.std.specs.Prelude.{◌≡◌};
ghost use Rattle.admin_text.specs.Ignored.{table_place};

use crate::expected::Shown;
use crate::fields::{peer, rate, route, tenant};
use crate::keys::string_under;
use std::fmt;
use toml::{Table, Value};

/// What a setup, or a tenant, has several of.
#[derive(Clone, Copy, Debug, PartialEq, Eq)]
pub enum TableKind {
    Tenant,
    Peer,
    Route,
    Rate,
}

impl TableKind {
    /// The word for one.
    pub(crate) fn word(self) -> &'static str {
        match self {
            TableKind::Tenant => "tenant",
            TableKind::Peer => "peer",
            TableKind::Route => "route",
            TableKind::Rate => "rate",
        }
    }

    /// What the header of one says.
    pub(crate) fn header(self) -> &'static str {
        match self {
            TableKind::Tenant => "tenant",
            TableKind::Peer => "tenant.peer",
            TableKind::Route => "tenant.route",
            TableKind::Rate => "tenant.rate",
        }
    }

    // Writes the names that one gives itself.
    fn write_names<W: fmt::Write>(self, f: &mut fmt::Formatter<W>, table: &Table) -> fmt::Result {
        match self {
            TableKind::Tenant => write_word(f, table, tenant::NAME),
            TableKind::Peer => write_word(f, table, peer::NAME),
            TableKind::Route => write_word(f, table, route::PREFIX),
            TableKind::Rate => {
                write_word(f, table, rate::FROM)?;
                f.write_str(" to")?;
                write_word(f, table, rate::TO)
            }
        }
    }
}

/// One of a kind, by its number and its value.
#[derive(Clone, Copy)]
pub(crate) struct Place<'a> {
    pub(crate) kind: TableKind,
    pub(crate) number: usize,
    value: &'a Value,
}

impl<'a> Place<'a> {
    pub(crate) fn new(kind: TableKind, number: usize, value: &'a Value) -> Place<'a>
        ensures kind { result.kind ≡ kind }
        ensures number { result.number ≡ number }
    {
        Place {
            kind,
            number,
            value,
        }
    }
}

// The most bytes of a name that is shown with a place.
const MAX_SHOWN: usize = 64;

// The text at a key, if it is short and one word.
fn word_under<'a>(table: &'a Table, key: &str) -> Option<&'a str> {
    let text = string_under(table, key)?;
    let is_shown = text.len() <= MAX_SHOWN && text.bytes().all(|b| b.is_ascii_graphic());
    is_shown.then_some(text)
}

fn write_word<W: fmt::Write>(f: &mut fmt::Formatter<W>, table: &Table, key: &str) -> fmt::Result {
    match word_under(table, key) {
        Some(word) => write!(f, " {word}"),
        None => Ok(()),
    }
}

impl fmt::Display for Place<'_> {
    fn fmt<W: fmt::Write>(&self, f: &mut fmt::Formatter<W>) -> fmt::Result {
        let (word, number) = (self.kind.word(), self.number);
        write!(f, "{word} {number}")?;
        match self.value {
            Value::Table(table) => self.kind.write_names(f, table),
            value => write!(f, "{}", Shown(value)),
        }
    }
}

/// Which table of a setup.
#[derive(Clone, Copy, Debug, PartialEq, Eq)]
pub enum TablePlace {
    /// The setup's own.
    Top,
    /// That of the tenant of that number, from 0.
    Tenant(usize),
    /// Of the tenant of the first number, from 0, that of the peer, route or rate of the second, from 1.
    Part(usize, TableKind, usize),
}

/// A table of a setup, as people find it.
#[derive(Clone, Copy)]
pub(crate) enum Spot<'a> {
    Top,
    Tenant(Place<'a>),
    /// One of the peers, routes or rates of a tenant.
    Part(Place<'a>, Place<'a>),
}

impl Spot<'_> {
    /// Which table it is.
    pub(crate) fn table(self) -> TablePlace
        ensures { result ≡ table_place self.entry }
    {
        match self {
            Spot::Top => TablePlace::Top,
            Spot::Tenant(tenant) => TablePlace::Tenant(tenant.number),
            Spot::Part(tenant, part) => TablePlace::Part(tenant.number, part.kind, part.number),
        }
    }
}

/// Writes the place before what is said of it.
impl fmt::Display for Spot<'_> {
    fn fmt<W: fmt::Write>(&self, f: &mut fmt::Formatter<W>) -> fmt::Result {
        match self {
            Spot::Top => Ok(()),
            Spot::Tenant(tenant) => write!(f, "{tenant}: "),
            Spot::Part(tenant, part) => write!(f, "{tenant}: {part}: "),
        }
    }
}
