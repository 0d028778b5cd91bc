//! The token that a file holds.

ghost use Rattle.std.specs.Prelude.{◌≡◌};
ghost use Rattle.subcommands.specs.TokenFile.{token_in_file};

use common_types::Token;
use service::without_line_feed;

/// The token of the text of a file, which a line feed may end; none if that is not 1 to 64 of `A-Z a-z 0-9 - . _ ~ + / =`.
pub fn token_of(text: &[u8]) -> Option<Token>
    ensures { result ≡ token_in_file text.now }
{
    Token::new(without_line_feed(text))
}
