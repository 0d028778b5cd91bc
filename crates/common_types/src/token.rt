//! Tokens that peers and operators show.

ghost use Rattle.std.specs.Prelude.{◌≡◌};
ghost use Rattle.std.specs.List.{list_all};
ghost use Rattle.common_types.specs.Token.{is_token_byte, is_token};

/// The most bytes of a token.
pub const MAX_TOKEN: usize = 64;

// At the index of a byte that a token may have is the byte itself. Any other index has a comma.
static BYTE_MAP: [u8; 256] = *b"\
    ,,,,,,,,,,,,,,,,,,,,,,,,,,,,,,,,\
    ,,,,,,,,,,,+,-./0123456789,,,=,,\
    ,ABCDEFGHIJKLMNOPQRSTUVWXYZ,,,,_\
    ,abcdefghijklmnopqrstuvwxyz,,,~,\
    ,,,,,,,,,,,,,,,,,,,,,,,,,,,,,,,,\
    ,,,,,,,,,,,,,,,,,,,,,,,,,,,,,,,,\
    ,,,,,,,,,,,,,,,,,,,,,,,,,,,,,,,,\
    ,,,,,,,,,,,,,,,,,,,,,,,,,,,,,,,,";

fn is_token_byte(b: u8) -> bool
    ensures { result ≡ is_token_byte b }
{
    BYTE_MAP[b as usize] != b','
}

// It goes on after a byte that no token may have.
fn all_token_bytes(bytes: &[u8]) -> bool
    ensures { result ≡ list_all is_token_byte bytes.now }
{
    let mut all = true;
    for byte in bytes {
        all &= is_token_byte(*byte);
    }
    all
}

/// Whether the bytes are a token: 1 to 64 letters, digits and `-._~+/=` (RFC 6750, "Authorization Request Header
/// Field"; here `=` may come anywhere).
pub fn is_token(bytes: &[u8]) -> bool
    ensures { result ≡ is_token bytes.now }
{
    !bytes.is_empty() && bytes.len() <= MAX_TOKEN && all_token_bytes(bytes)
}
