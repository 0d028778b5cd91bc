//! Texts of parts.

use std::alloc::{AllocError, Global};

/// Appends these texts, one after the other.
pub fn put(text: &mut String, parts: &[&str]) -> Result<(), AllocError> {
    for part in parts {
        text.push_str(part)?;
    }
    Ok(())
}

/// The text with these values in place of the names beside them, one name after the other.
pub fn replaced(alloc: Global, text: &str, values: &[(&str, &str)]) -> Result<String, AllocError> {
    let mut whole = String::from_str(alloc, text)?;
    for (name, value) in values {
        whole = whole.replace(alloc, *name, *value)?;
    }
    Ok(whole)
}
