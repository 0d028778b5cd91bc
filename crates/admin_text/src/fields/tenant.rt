//! What a tenant says of itself.

ghost use Rattle.std.specs.Prelude.{◌≡◌, IfOk};
ghost use Rattle.std.specs.Result.{result_ok};
ghost use Rattle.toml.specs.View.{items_view, table_view};
ghost use Rattle.admin_text.specs.Keys.{address_under};
ghost use Rattle.admin_text.specs.Made.{tenant_members};
ghost use Rattle.admin_text.specs.TenantTable.{own_terms_of, terms_with};

use crate::expected::Expected;
use crate::fields::names::{name_under, token_under};
use crate::keys::{between_or, made, text_under};
use crate::tables::{no_keys, set_number, set_tables, set_text};
use crate::wrong::Wrong;
use common_types::{Between, Name, Token};
use ilp_addr::OwnAddress;
use std::alloc::{AllocError, Global};
use tenant_core::limits::{MAX_HOLD, MAX_JOURNAL, MAX_MARGIN};
use tenant_core::{Network, TenantSetup, TenantTerms};
use toml::{Table, Value};

pub(crate) const NAME: &str = "name";

const ADDRESS: &str = "address";

const ADMIN: &str = "admin";

const JOURNAL: &str = "journal";

const MARGIN: &str = "margin";

const HOLD: &str = "hold";

pub(crate) const PEER: &str = "peer";

pub(crate) const ROUTE: &str = "route";

pub(crate) const RATE: &str = "rate";

/// The keys of its table.
pub(crate) const KEYS: [&str; 9] = [
    NAME, ADDRESS, ADMIN, JOURNAL, MARGIN, HOLD, PEER, ROUTE, RATE,
];

/// What the keys of its table say, except for its peers, routes and rates.
#[derive(Drop)]
pub(crate) struct OwnTerms {
    pub(crate) name: Name,
    address: OwnAddress,
    admin: Token,
    journal: Between<2, { MAX_JOURNAL }>,
    margin: Between<0, { MAX_MARGIN }>,
    hold: Between<1, { MAX_HOLD }>,
}

#[tactic(auto, unfolding(crate::specs::Keys::address_under))]
fn address_under<'a>(table: &'a Table, key: &'a str) -> Result<OwnAddress, Wrong<'a>>
    ensures { result_ok result ≡ address_under key.now (table_view table.now) }
{
    let text = text_under(table, key, Expected::Address)?;
    made(
        OwnAddress::new(text.as_bytes()),
        table,
        key,
        Expected::Address,
    )
}

/// What a table says of its tenant.
pub(crate) fn own_terms_of(table: &Table) -> Result<OwnTerms, Wrong<'_>>
    ensures { result_ok result ≡ own_terms_of (table_view table.now) }
{
    Ok(OwnTerms {
        name: name_under(table, NAME, Expected::Name)?,
        address: address_under(table, ADDRESS)?,
        admin: token_under(table, ADMIN)?,
        journal: between_or(1024, table, JOURNAL)?,
        margin: between_or(1000, table, MARGIN)?,
        hold: between_or(30_000, table, HOLD)?,
    })
}

impl OwnTerms {
    /// The setup of the tenant that deals with these.
    pub(crate) fn with(self, network: Network) -> TenantSetup
        ensures { result ≡ terms_with self network }
    {
        let terms = TenantTerms {
            name: self.name,
            address: self.address,
            admin: self.admin,
            journal: self.journal.get(),
            margin: self.margin.get(),
            hold: self.hold.get(),
            network,
        };
        TenantSetup::new(terms).unwrap()
    }
}

/// The table of a tenant, with those of its peers, routes and rates.
#[tactic(auto, unfolding(crate::specs::Made::tenant_members))]
pub(crate) fn tenant_members(
    alloc: Global,
    terms: &TenantTerms,
    peers: Vec<Value>,
    routes: Vec<Value>,
    rates: Vec<Value>,
) -> Result<Table, AllocError>
    ensures { IfOk result (λ table. table_view table
        ≡ tenant_members terms.now (items_view peers.items) (items_view routes.items) (items_view rates.items)) }
{
    let mut table = no_keys(alloc);
    set_text(alloc, &mut table, NAME, terms.name.as_bytes())?;
    set_text(alloc, &mut table, ADDRESS, terms.address.as_bytes())?;
    set_text(alloc, &mut table, ADMIN, terms.admin.as_bytes())?;
    set_number(alloc, &mut table, JOURNAL, terms.journal)?;
    set_number(alloc, &mut table, MARGIN, terms.margin)?;
    set_number(alloc, &mut table, HOLD, terms.hold)?;
    set_tables(alloc, &mut table, PEER, peers)?;
    set_tables(alloc, &mut table, ROUTE, routes)?;
    set_tables(alloc, &mut table, RATE, rates)?;
    Ok(table)
}
