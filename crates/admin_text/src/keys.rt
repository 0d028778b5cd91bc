//! The values at the keys of a table.

ghost use Rattle.std.specs.Prelude.{◌≡◌, option_and_then, option_copied, option_map};
ghost use Rattle.std.specs.List.{list_any};
ghost use Rattle.std.specs.Result.{result_ok};
ghost use Rattle.std.specs.Str.{bytes_eq};
ghost use Rattle.toml.specs.Data.{as_table, get_member};
ghost use Rattle.toml.specs.View.{view, items_view, table_view};
ghost use Rattle.admin_text.specs.Keys.{string_under, integer_under, number_under, integer_or, number_or, between_under, within};
ghost use Rattle.admin_text.specs.Keys.{array_under, items_under};

use crate::expected::Expected;
use crate::places::TableKind;
use crate::wrong::Wrong;
use common_types::Between;
use toml::{Table, Value};

/// Whether a key is one of these.
pub(crate) fn is_among(key: &str, keys: &[&str]) -> bool
    ensures { result ≡ list_any (λ known. bytes_eq key.now known.now) keys.now }
{
    keys.contains(&key)
}

/// The value at a key.
pub(crate) fn value_under<'a>(table: &'a Table, key: &str) -> Option<&'a Value>
    ensures { option_map (λ v. view v.now) result ≡ get_member key.now (table_view table.now) }
{
    table.get(key)
}

/// The string at a key.
#[tactic(auto, unfolding(crate::specs::Keys::string_under))]
pub(crate) fn string_under<'a>(table: &'a Table, key: &str) -> Option<&'a str>
    ensures { option_copied result ≡ string_under key.now (table_view table.now) }
{
    match value_under(table, key) {
        Some(value) => value.as_str(),
        None => None,
    }
}

/// The value that was made at a key. Without one, the key needs what is `expected`.
pub(crate) fn made<'a, T: Drop>(
    value: Option<T>,
    table: &'a Table,
    key: &'a str,
    expected: Expected,
) -> Result<T, Wrong<'a>>
    ensures { result_ok result ≡ value }
{
    match value {
        Some(value) => Ok(value),
        None => Err(Wrong::at(table, key, expected)),
    }
}

/// The text at a key, which needs what is `expected`.
pub(crate) fn text_under<'a>(
    table: &'a Table,
    key: &'a str,
    expected: Expected,
) -> Result<&'a str, Wrong<'a>>
    ensures { option_copied (result_ok result) ≡ string_under key.now (table_view table.now) }
{
    match string_under(table, key) {
        Some(text) => Ok(text),
        None => Err(Wrong::at(table, key, expected)),
    }
}

#[tactic(auto, unfolding(crate::specs::Keys::integer_under))]
fn integer_under<'a>(table: &'a Table, key: &'a str, expected: Expected) -> Result<i64, Wrong<'a>>
    ensures { result_ok result ≡ integer_under key.now (table_view table.now) }
{
    let integer = match value_under(table, key) {
        Some(value) => value.as_integer(),
        None => None,
    };
    made(integer, table, key, expected)
}

/// The number at a key, which needs what is `expected`.
#[tactic(auto, unfolding(crate::specs::Keys::number_under))]
pub(crate) fn u64_under<'a>(
    table: &'a Table,
    key: &'a str,
    expected: Expected,
) -> Result<u64, Wrong<'a>>
    ensures { result_ok result ≡ number_under key.now (table_view table.now) }
{
    let integer = integer_under(table, key, expected)?;
    made(u64::try_from(integer).ok(), table, key, expected)
}

/// The number within limits at a key.
#[tactic(auto, unfolding(crate::specs::Keys::between_under))]
pub(crate) fn between_under<'a, const LOW: u64, const HIGH: u64>(
    table: &'a Table,
    key: &'a str,
) -> Result<Between<LOW, HIGH>, Wrong<'a>>
    ensures { result_ok result ≡ between_under LOW HIGH key.now (table_view table.now) }
{
    let expected = Expected::Whole(LOW, HIGH);
    let number = u64_under(table, key, expected)?;
    made(Between::new(number), table, key, expected)
}

#[tactic(auto, unfolding(crate::specs::Keys::number_or))]
fn u64_or<'a>(
    default: u64,
    table: &'a Table,
    key: &'a str,
    expected: Expected,
) -> Result<u64, Wrong<'a>>
    ensures { result_ok result ≡ number_or default key.now (table_view table.now) }
{
    match value_under(table, key) {
        Some(_) => u64_under(table, key, expected),
        None => Ok(default),
    }
}

/// The number within limits at a key, or the default if the key is missing.
pub(crate) fn between_or<'a, const LOW: u64, const HIGH: u64>(
    default: u64,
    table: &'a Table,
    key: &'a str,
) -> Result<Between<LOW, HIGH>, Wrong<'a>>
    ensures { result_ok result ≡ option_and_then (within LOW HIGH) (number_or default key.now (table_view table.now)) }
{
    let expected = Expected::Whole(LOW, HIGH);
    let number = u64_or(default, table, key, expected)?;
    made(Between::new(number), table, key, expected)
}

/// The integer at a key, or the default if the key is missing.
#[tactic(auto, unfolding(crate::specs::Keys::integer_or))]
pub(crate) fn integer_or<'a>(
    default: i64,
    table: &'a Table,
    key: &'a str,
    expected: Expected,
) -> Result<i64, Wrong<'a>>
    ensures { result_ok result ≡ integer_or default key.now (table_view table.now) }
{
    match value_under(table, key) {
        Some(_) => integer_under(table, key, expected),
        None => Ok(default),
    }
}

/// The values of the array at a key, which needs what is `expected`.
#[tactic(auto, unfolding(crate::specs::Keys::array_under))]
pub(crate) fn array_under<'a>(
    table: &'a Table,
    key: &'a str,
    expected: Expected,
) -> Result<&'a [Value], Wrong<'a>>
    ensures { option_map (λ a. items_view a.now) (result_ok result) ≡ array_under key.now (table_view table.now) }
{
    let array = match value_under(table, key) {
        Some(value) => value.as_array(),
        None => None,
    };
    match array {
        Some(values) => Ok(values.as_slice()),
        None => Err(Wrong::at(table, key, expected)),
    }
}

/// The values of the array of such tables at a key; none if the key is missing.
#[tactic(auto, unfolding(crate::specs::Keys::items_under))]
pub(crate) fn items_under<'a>(
    table: &'a Table,
    key: &'a str,
    kind: TableKind,
) -> Result<&'a [Value], Wrong<'a>>
    ensures { option_map (λ a. items_view a.now) (result_ok result) ≡ items_under key.now (table_view table.now) }
{
    match value_under(table, key) {
        Some(_) => array_under(table, key, Expected::Tables(kind)),
        None => Ok(&[]),
    }
}

/// The value, which is a table of that kind.
pub(crate) fn table_in(value: &Value, kind: TableKind) -> Result<&Table, Wrong<'_>>
    ensures { option_map (λ t. table_view t.now) (result_ok result) ≡ as_table (view value.now) }
{
    match value.as_table() {
        Some(table) => Ok(table),
        None => Err(Wrong::NoTable(kind)),
    }
}
