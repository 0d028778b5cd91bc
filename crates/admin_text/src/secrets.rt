//! What is shown of the value at a key. A token, or what may be meant as one, is never shown.

ghost use Rattle.std.specs.Prelude.{◌≡◌, codes, option_map};
ghost use Rattle.toml.specs.View.{view};
ghost use Rattle.admin_text.specs.Secrets.{begins_with_word, has_word, is_secret};
ghost use Rattle.admin_text.specs.Shown.{ignored_to_show, value_shown, value_to_show};

use crate::expected::Shown;
use common_types::{MAX_TOKEN, is_token};
use std::fmt;
use toml::Value;

// Whether a text begins with a word, in letters of either case.
fn begins_with(text: &[u8], word: &[u8]) -> bool
    ensures { result ≡ begins_with_word text.now word.now }
{
    text.len() >= word.len() && text[..word.len()].eq_ignore_ascii_case(word)
}

// Whether a word occurs somewhere in a text, in letters of either case.
fn has_word(text: &[u8], word: &[u8]) -> bool
    ensures { result ≡ has_word text.now word.now }
{
    for at in 0..text.len() {
        if begins_with(&text[at..], word) {
            return true;
        }
    }
    false
}

/// Whether the value of a key of that name is a token, or may be meant as one: the key begins with `admin` or
/// contains `token`.
pub(crate) fn is_secret(key: &str) -> bool
    ensures { result ≡ is_secret key.now }
{
    begins_with(key.as_bytes(), b"admin") || has_word(key.as_bytes(), b"token")
}

/// What is shown of a value in the place of a token: its type, its length or where it is wrong, never its content.
#[derive(Clone, Copy)]
pub(crate) enum Hidden {
    Integer,
    Boolean,
    Float,
    Datetime,
    Array,
    Table,
    /// A text without a character.
    Empty,
    /// A text whose character of that number, from 1, is in no token.
    Character(usize),
    /// A text of so many characters, each of which may be in a token.
    Text(usize),
}

impl Hidden {
    fn of_text(text: &str) -> Hidden {
        if text.is_empty() {
            return Hidden::Empty;
        }
        match text.bytes().position(|b| !is_token(&[b])) {
            Some(at) => Hidden::Character(at.saturating_add(1)),
            None => Hidden::Text(text.len()),
        }
    }

    // Writes it after the name of the key.
    fn write<W: fmt::Write>(self, f: &mut fmt::Formatter<W>) -> fmt::Result {
        match self {
            Hidden::Integer => f.write_str(" is an integer"),
            Hidden::Boolean => f.write_str(" is a boolean"),
            Hidden::Float => f.write_str(" is a float"),
            Hidden::Datetime => f.write_str(" is a date or a time"),
            Hidden::Array => f.write_str(" is an array"),
            Hidden::Table => f.write_str(" is a table"),
            Hidden::Empty => f.write_str(" is an empty text"),
            Hidden::Text(count) if count > MAX_TOKEN => write!(f, " has {count} characters"),
            Hidden::Text(_) | Hidden::Character(_) => Ok(()),
        }
    }

    fn of(value: &Value) -> Hidden {
        match value {
            Value::String(text) => Hidden::of_text(text.as_str()),
            Value::Integer(_) => Hidden::Integer,
            Value::Boolean(_) => Hidden::Boolean,
            Value::Float(_) => Hidden::Float,
            Value::Datetime(_) => Hidden::Datetime,
            Value::Array(_) => Hidden::Array,
            Value::Table(_) => Hidden::Table,
        }
    }
}

/// What is shown of the value at a key.
#[derive(Clone, Copy)]
pub(crate) enum ShownValue<'a> {
    Nothing,
    Plain(&'a Value),
    Hidden(Hidden),
}

impl<'a> ShownValue<'a> {
    /// What may be shown of the value at the key of that name.
    pub(crate) fn at(name: &str, value: Option<&'a Value>) -> ShownValue<'a>
        ensures { value_shown result ≡ value_to_show name.now (option_map (λ v. view v.now) value.entry) }
    {
        match value {
            None => ShownValue::Nothing,
            Some(value) if is_secret(name) => ShownValue::Hidden(Hidden::of(value)),
            Some(value) => ShownValue::Plain(value),
        }
    }

    /// What may be shown of the value at an ignored key of that name. A text is never shown: its key may be a misspelled token's.
    pub(crate) fn at_ignored(name: &str, value: &'a Value) -> ShownValue<'a>
        ensures { value_shown result ≡ ignored_to_show name.now (view value.now) }
    {
        match value {
            Value::String(_) => ShownValue::Nothing,
            _ => ShownValue::at(name, Some(value)),
        }
    }
}

/// Writes it after the name of the key.
impl fmt::Display for ShownValue<'_> {
    fn fmt<W: fmt::Write>(&self, f: &mut fmt::Formatter<W>) -> fmt::Result {
        match *self {
            ShownValue::Nothing => f.write_str(" is missing"),
            ShownValue::Plain(value) => write!(f, "{}", Shown(value)),
            ShownValue::Hidden(hidden) => hidden.write(f),
        }
    }
}
