//! What is wrong with a setup, and its words for people.

use crate::expected::{Expected, Right};
use crate::keys::value_under;
use crate::places::{Place, TableKind};
use crate::secrets::ShownValue;
use crate::setup::SetupFault;
use common_types::ReadError;
use route_table::MAX_ROUTES;
use std::fmt;
use tenant_core::CommandFault;
use tenant_core::limits::{MAX_PEERS, MAX_RATES, MAX_TENANTS};
use toml::Table;

/// A key of a table, and what is shown of its value.
#[derive(Clone, Copy)]
pub(crate) struct Key<'a> {
    name: &'a str,
    found: ShownValue<'a>,
}

impl<'a> Key<'a> {
    ghost use Rattle.std.specs.Prelude.{◌≡◌};
    ghost use Rattle.toml.specs.Data.{get_member};
    ghost use Rattle.toml.specs.View.{table_view};
    ghost use Rattle.admin_text.specs.Shown.{value_shown, value_to_show};

    pub(crate) fn of(table: &'a Table, name: &'a str) -> Key<'a>
        ensures name { result.name.now ≡ name.now }
        ensures found { value_shown result.found ≡ value_to_show name.now (get_member name.now (table_view table.now)) }
    {
        Key {
            name,
            found: ShownValue::at(name, value_under(table, name)),
        }
    }
}

impl fmt::Display for Key<'_> {
    fn fmt<W: fmt::Write>(&self, f: &mut fmt::Formatter<W>) -> fmt::Result {
        write!(f, "{}{}", self.name, self.found)
    }
}

/// What is wrong with what should be a table of a setup.
#[derive(Clone, Copy)]
pub(crate) enum Wrong<'a> {
    /// It is not a table.
    NoTable(TableKind),
    /// The key needs another value.
    Key(Key<'a>, Expected),
    /// No peer of the tenant has the name at the key.
    NoPeer(Key<'a>),
    /// A rate goes to the peer that it comes from.
    SamePeer(Key<'a>),
    /// The other of that kind and number has the value at the key.
    Taken(Key<'a>, TableKind, usize),
    /// There are too many of that kind.
    TooMany(TableKind),
    /// A command for it would be refused.
    Refused(CommandFault),
}

impl<'a> Wrong<'a> {
    /// The key of the table needs another value than it has.
    pub(crate) fn at(table: &'a Table, key: &'a str, expected: Expected) -> Wrong<'a> {
        Wrong::Key(Key::of(table, key), expected)
    }
}

impl<'a> From<Wrong<'a>> for ReadError<Wrong<'a>> {
    ghost use Rattle.std.specs.Prelude.{◌≡◌};
    ghost use Rattle.common_types.specs.declared.read_error.ReadError.TheVariants.{Fault};

    ghost from_gives = { λ wrong e. e ≡ Fault wrong };

    fn from(wrong: Wrong<'a>) -> ReadError<Wrong<'a>> {
        ReadError::Fault(wrong)
    }
}

impl fmt::Display for Wrong<'_> {
    fn fmt<W: fmt::Write>(&self, f: &mut fmt::Formatter<W>) -> fmt::Result {
        match *self {
            Wrong::NoTable(kind) => write!(f, "a table, begun by [[{}]]", kind.header()),
            Wrong::Key(key, expected) => {
                let found = key.found;
                write!(f, "{key}: {}", Right { expected, found })
            }
            Wrong::NoPeer(key) => write!(f, "{key}: no peer of this tenant has that name"),
            Wrong::SamePeer(key) => write!(f, "{key}: another peer than from names"),
            Wrong::Taken(key, kind, number) => {
                let (word, name) = (kind.word(), key.name);
                write!(f, "{key}: {word} {number} has that {name} too")
            }
            Wrong::TooMany(TableKind::Tenant) => write!(
                f,
                "a setup has at most {MAX_TENANTS} tenants"
            ),
            Wrong::TooMany(TableKind::Peer) => write!(f, "a tenant has at most {MAX_PEERS} peers"),
            Wrong::TooMany(TableKind::Route) => write!(
                f,
                "a tenant has at most {MAX_ROUTES} routes"
            ),
            Wrong::TooMany(TableKind::Rate) => {
                write!(
                    f,
                    "its rates are for more than {MAX_RATES} ordered pairs of peers"
                )
            }
            Wrong::Refused(fault) => write!(f, "{fault}"),
        }
    }
}

/// What is wrong with a tenant.
#[derive(Clone, Copy)]
pub(crate) enum TenantWrong<'a> {
    /// With its own table.
    Own(Wrong<'a>),
    /// With one of its peers, routes or rates.
    Part(Place<'a>, Wrong<'a>),
}

impl<'a> From<Wrong<'a>> for ReadError<TenantWrong<'a>> {
    ghost use Rattle.std.specs.Prelude.{◌≡◌};
    ghost use Rattle.common_types.specs.declared.read_error.ReadError.TheVariants.{Fault};
    ghost use Rattle.admin_text.specs.declared.wrong.TenantWrong.TheVariants.{Own};

    ghost from_gives = { λ wrong e. e ≡ Fault (Own wrong) };

    fn from(wrong: Wrong<'a>) -> ReadError<TenantWrong<'a>> {
        ReadError::Fault(TenantWrong::Own(wrong))
    }
}

impl fmt::Display for TenantWrong<'_> {
    fn fmt<W: fmt::Write>(&self, f: &mut fmt::Formatter<W>) -> fmt::Result {
        match *self {
            TenantWrong::Own(wrong)
            | TenantWrong::Part(_, wrong @ Wrong::TooMany(TableKind::Rate)) => {
                write!(f, "{wrong}")
            }
            TenantWrong::Part(part, wrong) => write!(f, "{part}: {wrong}"),
        }
    }
}

/// What is wrong with a setup that is a TOML document.
#[derive(Clone, Copy)]
pub(crate) enum SetupWrong<'a> {
    AtVersion(Wrong<'a>),
    AtStart(Wrong<'a>),
    NoTenants(Wrong<'a>),
    /// The tenant of that number, from 0, is one too many.
    OneTooMany(usize),
    InTenant(Place<'a>, TenantWrong<'a>),
}

impl SetupWrong<'_> {
    ghost use Rattle.std.specs.Prelude.{◌≡◌};
    ghost use Rattle.admin_text.specs.Wrong.{setup_fault_of};

    /// Its fault.
    pub(crate) fn fault(&self) -> SetupFault
        ensures { result ≡ setup_fault_of self.now }
    {
        match self {
            SetupWrong::AtVersion(_) => SetupFault::Version,
            SetupWrong::AtStart(_) => SetupFault::Start,
            SetupWrong::NoTenants(_) => SetupFault::Tenant(0),
            SetupWrong::OneTooMany(number) => SetupFault::Tenant(*number),
            SetupWrong::InTenant(tenant, _) => SetupFault::Tenant(tenant.number),
        }
    }
}

impl fmt::Display for SetupWrong<'_> {
    fn fmt<W: fmt::Write>(&self, f: &mut fmt::Formatter<W>) -> fmt::Result {
        match self {
            SetupWrong::AtVersion(wrong)
            | SetupWrong::AtStart(wrong)
            | SetupWrong::NoTenants(wrong) => write!(f, "{wrong}"),
            SetupWrong::OneTooMany(number) => {
                let (kind, wrong) = (TableKind::Tenant, Wrong::TooMany(TableKind::Tenant));
                write!(f, "{} {number}: {wrong}", kind.word())
            }
            SetupWrong::InTenant(tenant, wrong) => write!(f, "{tenant}: {wrong}"),
        }
    }
}
