//! TOML tables, made key by key.

ghost use Rattle.std.specs.Prelude.{◌≡◌, ◌<◌, ◌^◌, pos, IfOk, OnOk};
ghost use Rattle.toml.specs.Data.{string, integer, array, no_members};
ghost use Rattle.toml.specs.View.{view, items_view, table_view};
ghost use Rattle.admin_text.specs.Made.{with_member, number_data};

use std::alloc::{AllocError, Global};
use std::str;
use toml::{Table, Value};

/// No keys.
pub(crate) fn no_keys(alloc: Global) -> Table
    ensures { table_view result ≡ no_members }
{
    Table::new(alloc)
}

// Another value at a key.
fn set(alloc: Global, table: &mut Table, key: &str, value: Value) -> Result<(), AllocError>
    ensures { OnOk result (table_view table.new ≡ with_member key.now (view value) (table_view table.old)) }
{
    let key = String::from_str(alloc, key)?;
    match table.insert(key, value) {
        Ok(_) => Ok(()),
        Err(_) => Err(AllocError),
    }
}

// The string of these bytes, which are UTF-8.
fn string_of(alloc: Global, bytes: &[u8]) -> Result<Value, AllocError>
    ensures { IfOk result (λ value. view value ≡ string bytes.now) }
{
    match str::from_utf8(bytes) {
        Ok(text) => Value::string(alloc, text),
        Err(_) => Err(AllocError),
    }
}

/// The text of these bytes, which are UTF-8, at a key.
pub(crate) fn set_text(
    alloc: Global,
    table: &mut Table,
    key: &str,
    bytes: &[u8],
) -> Result<(), AllocError>
    ensures { OnOk result (table_view table.new ≡ with_member key.now (string bytes.now) (table_view table.old)) }
{
    let value = string_of(alloc, bytes)?;
    set(alloc, table, key, value)
}

fn integer_of(owed: i64) -> Value
    ensures { view result ≡ integer owed }
{
    Value::Integer(owed)
}

/// The integer at a key.
pub(crate) fn set_integer(
    alloc: Global,
    table: &mut Table,
    key: &str,
    value: i64,
) -> Result<(), AllocError>
    ensures { OnOk result (table_view table.new ≡ with_member key.now (integer value) (table_view table.old)) }
{
    set(alloc, table, key, integer_of(value))
}

/// The number, which is below 2^63, at a key.
pub(crate) fn set_number(
    alloc: Global,
    table: &mut Table,
    key: &str,
    value: u64,
) -> Result<(), AllocError>
    ensures { OnOk result (table_view table.new ≡ with_member key.now (number_data value) (table_view table.old)) }
{
    match i64::try_from(value) {
        Ok(integer) => set_integer(alloc, table, key, integer),
        Err(_) => Err(AllocError),
    }
}

fn tables_of(tables: Vec<Value>) -> Value
    ensures { view result ≡ array (items_view tables.items) }
{
    Value::Array(tables)
}

/// The tables at a key.
pub(crate) fn set_tables(
    alloc: Global,
    table: &mut Table,
    key: &str,
    tables: Vec<Value>,
) -> Result<(), AllocError>
    ensures { OnOk result
        (table_view table.new ≡ with_member key.now (array (items_view tables.items)) (table_view table.old)) }
{
    set(alloc, table, key, tables_of(tables))
}
