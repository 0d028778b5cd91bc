//! Texts that identify peers and tenants.

ghost use Rattle.std.specs.Prelude.{◌≡◌, ◌≤◌, length, true, Some, None, if◌then◌else◌};
ghost use Rattle.std.specs.List.{list_all};
ghost use Rattle.common_types.specs.Names.{is_name_byte, is_name, is_asset_byte, is_asset_code};
ghost use Rattle.common_types.specs.Token.{is_token};

use crate::text::Text;
use crate::token::{MAX_TOKEN, is_token};
use std::marker::Model;

/// The most bytes of a name.
pub const MAX_NAME: usize = 32;

/// The most bytes of an asset's code.
pub const MAX_ASSET_CODE: usize = 16;

fn is_name_byte(b: u8) -> bool
    ensures { result ≡ is_name_byte b }
{
    matches!(b, b'a'..=b'z' | b'0'..=b'9' | b'-')
}

fn all_name_bytes(bytes: &[u8]) -> bool
    ensures { result ≡ list_all is_name_byte bytes.now }
{
    bytes.iter().all(|b| is_name_byte(*b))
}

fn is_asset_byte(b: u8) -> bool
    ensures { result ≡ is_asset_byte b }
{
    b.is_ascii_alphanumeric()
}

fn all_asset_bytes(bytes: &[u8]) -> bool
    ensures { result ≡ list_all is_asset_byte bytes.now }
{
    bytes.iter().all(|b| is_asset_byte(*b))
}

/// Whether the bytes are a name: 1 to 32 lower-case letters, digits and `-`.
pub fn is_name(bytes: &[u8]) -> bool
    ensures { result ≡ is_name bytes.now }
{
    !bytes.is_empty() && bytes.len() <= MAX_NAME && all_name_bytes(bytes)
}

/// Whether the bytes are the code of an asset: 1 to 16 letters and digits.
pub fn is_asset_code(bytes: &[u8]) -> bool
    ensures { result ≡ is_asset_code bytes.now }
{
    !bytes.is_empty() && bytes.len() <= MAX_ASSET_CODE && all_asset_bytes(bytes)
}

/// The name of a tenant or a peer, stored inline.
#[derive(Drop)]
pub struct Name {
    text: Text<MAX_NAME>,
}

impl Model for Name {
    ghost use Rattle.std.specs.Prelude.{List, ℕ, ◌≡◌, true};
    ghost use Rattle.common_types.specs.Names.{is_name};

    ghost Value = { List ℕ };

    ghost view = { λ n. n.text };

    ghost invariant = { λ n. is_name n.text ≡ true };
}

impl Name {
    /// The name with these bytes, or `None` if they are not a name.
    pub fn new(bytes: &[u8]) -> Option<Name>
        ensures { result ≡ (if is_name bytes.now then Some bytes.now else None) }
    {
        if !is_name(bytes) {
            return None;
        }
        let text = Text::from_bytes(bytes)?;
        Some(Name { text })
    }

    /// The bytes of the name.
    pub fn as_bytes(&self) -> &[u8]
        ensures value { result.now ≡ self.now }
        ensures short { length result.now ≤ 32 }
        ensures name { is_name result.now ≡ true }
    {
        self.text.as_bytes()
    }

    /// A copy of the name.
    pub fn copy(&self) -> Name
        ensures { result ≡ self.now }
    {
        Name {
            text: self.text.copy(),
        }
    }
}

/// The token of a peer or an operator, stored inline (RFC 6750, "Authorization Request Header
/// Field").
#[derive(Drop)]
pub struct Token {
    text: Text<MAX_TOKEN>,
}

impl Model for Token {
    ghost use Rattle.std.specs.Prelude.{List, ℕ, ◌≡◌, true};
    ghost use Rattle.common_types.specs.Token.{is_token};

    ghost Value = { List ℕ };

    ghost view = { λ t. t.text };

    ghost invariant = { λ t. is_token t.text ≡ true };
}

impl Token {
    /// The token with these bytes, or `None` if they are not a token.
    pub fn new(bytes: &[u8]) -> Option<Token>
        ensures { result ≡ (if is_token bytes.now then Some bytes.now else None) }
    {
        if !is_token(bytes) {
            return None;
        }
        let text = Text::from_bytes(bytes)?;
        Some(Token { text })
    }

    /// The bytes of the token.
    pub fn as_bytes(&self) -> &[u8]
        ensures value { result.now ≡ self.now }
        ensures short { length result.now ≤ 64 }
        ensures token { is_token result.now ≡ true }
    {
        self.text.as_bytes()
    }

    /// A copy of the token.
    pub fn copy(&self) -> Token
        ensures { result ≡ self.now }
    {
        Token {
            text: self.text.copy(),
        }
    }
}

/// The code of an asset, stored inline.
#[derive(Drop)]
pub struct AssetCode {
    text: Text<MAX_ASSET_CODE>,
}

impl Model for AssetCode {
    ghost use Rattle.std.specs.Prelude.{List, ℕ, ◌≡◌, true};
    ghost use Rattle.common_types.specs.Names.{is_asset_code};

    ghost Value = { List ℕ };

    ghost view = { λ a. a.text };

    ghost invariant = { λ a. is_asset_code a.text ≡ true };
}

impl AssetCode {
    /// The code with these bytes, or `None` if they are not an asset code.
    pub fn new(bytes: &[u8]) -> Option<AssetCode>
        ensures { result ≡ (if is_asset_code bytes.now then Some bytes.now else None) }
    {
        if !is_asset_code(bytes) {
            return None;
        }
        let text = Text::from_bytes(bytes)?;
        Some(AssetCode { text })
    }

    /// The bytes of the code.
    pub fn as_bytes(&self) -> &[u8]
        ensures value { result.now ≡ self.now }
        ensures short { length result.now ≤ 16 }
        ensures code { is_asset_code result.now ≡ true }
    {
        self.text.as_bytes()
    }

    /// A copy of the code.
    pub fn copy(&self) -> AssetCode
        ensures { result ≡ self.now }
    {
        AssetCode {
            text: self.text.copy(),
        }
    }
}
