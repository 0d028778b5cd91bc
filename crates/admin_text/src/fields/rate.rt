//! A rate: between which peers, and at what price.

ghost use Rattle.std.specs.Prelude.{◌≡◌, ◌==◌, false, IfOk, IsSome, OnOk};
ghost use Rattle.std.specs.Result.{result_ok};
ghost use Rattle.toml.specs.View.{table_view};
ghost use Rattle.money_core.specs.Price.{rate_at};
ghost use Rattle.tenant_core.specs.Network.{peer_numbered};
ghost use Rattle.admin_text.specs.Fields.{PAIR, IsPut, field_taken};
ghost use Rattle.admin_text.specs.Made.{rate_members};
ghost use Rattle.admin_text.specs.Networks.{rate_of};

use crate::commands::TextFault;
use crate::expected::Expected;
use crate::fields::names::{next_name, peer_under, put_name};
use crate::keys::u64_under;
use crate::tables::{no_keys, set_number, set_text};
use crate::wrong::{Key, Wrong};
use common_types::{Name, Words};
use money_core::{Rate, RateFault};
use std::alloc::{AllocError, Global};
use tenant_core::{Network, Pair, RateTerms};
use toml::Table;

pub(crate) const FROM: &str = "from";

pub(crate) const TO: &str = "to";

const NUM: &str = "num";

const DEN: &str = "den";

/// The keys of its table.
pub(crate) const KEYS: [&str; 4] = [FROM, TO, NUM, DEN];

// A term of a rate.
const TERM: Expected = Expected::Whole(1, Rate::MAX_TERM);

// The rate of a table's two numbers.
fn rate_between(table: &Table, num: u64, den: u64) -> Result<Rate, Wrong<'_>>
    ensures { result_ok result ≡ result_ok (rate_at num den) }
{
    let first_wrong = if (1..=Rate::MAX_TERM).contains(&num) {
        DEN
    } else {
        NUM
    };
    match Rate::new(num, den) {
        Ok(rate) => Ok(rate),
        Err(RateFault::Zero | RateFault::Limit) => Err(Wrong::at(table, first_wrong, TERM)),
    }
}

/// The rate in a table, between two different peers.
#[tactic(auto, unfolding(crate::specs::Networks::rate_of))]
pub(crate) fn rate_of<'a>(network: &Network, table: &'a Table) -> Result<RateTerms, Wrong<'a>>
    ensures exact { result_ok result ≡ rate_of network.now (table_view table.now) }
    ensures from { IfOk result (λ r. IsSome (peer_numbered r.from network.now.peers)) }
    ensures to { IfOk result (λ r. IsSome (peer_numbered r.to network.now.peers)) }
    ensures apart { IfOk result (λ r. (r.from == r.to) ≡ false) }
{
    let from = peer_under(network, table, FROM)?;
    let to = peer_under(network, table, TO)?;
    let num = u64_under(table, NUM, TERM)?;
    let den = u64_under(table, DEN, TERM)?;
    let rate = rate_between(table, num, den)?;
    if from == to {
        Err(Wrong::SamePeer(Key::of(table, TO)))
    } else {
        Ok(RateTerms { from, to, rate })
    }
}

/// The table of a rate between the peers of these names.
#[tactic(auto, unfolding(crate::specs::Made::rate_members))]
pub(crate) fn rate_members(
    alloc: Global,
    from: &Name,
    to: &Name,
    rate: Rate,
) -> Result<Table, AllocError>
    ensures { IfOk result (λ table. table_view table ≡ rate_members from.now to.now rate) }
{
    let mut table = no_keys(alloc);
    set_text(alloc, &mut table, FROM, from.as_bytes())?;
    set_text(alloc, &mut table, TO, to.as_bytes())?;
    set_number(alloc, &mut table, NUM, rate.numerator())?;
    set_number(alloc, &mut table, DEN, rate.denominator())?;
    Ok(table)
}

/// The names of two different peers at the front of words.
#[tactic(auto, unfolding(crate::specs::Fields::field_taken))]
pub(crate) fn next_pair(words: Words<'_>) -> Result<(Pair, Words<'_>), TextFault>
    ensures { result ≡ field_taken PAIR words.entry }
{
    let (from, words) = next_name(words)?;
    let (to, words) = next_name(words)?;
    let pair = Pair::new(from, to).ok_or(TextFault::Argument)?;
    Ok((pair, words))
}

/// Appends the names of a pair.
pub(crate) fn put_pair(out: &mut Vec<u8>, pair: &Pair) -> Result<(), AllocError>
    ensures { OnOk result (IsPut PAIR pair.now out.old.items out.new.items) }
{
    put_name(out, pair.from())?;
    put_name(out, pair.to())
}
