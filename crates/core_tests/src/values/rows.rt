//! Assertions on the rows of tables. If one fails, it names the row.

use std::process::Abort;

/// What is to hold of the row that begins with these bytes.
pub fn expect(rt: &impl Abort, row: &[u8], holds: bool) {
    assert!(rt; holds, "{row:?}");
}

/// What is to hold of the row that begins with this number.
pub fn expect_at(rt: &impl Abort, row: u64, holds: bool) {
    assert!(rt; holds, "{row}");
}
