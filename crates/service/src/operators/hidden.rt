//! Setups whose tokens are hidden.

ghost use Rattle.std.specs.Prelude.{◌≡◌, ◌++◌, ◌∷◌, [], IfOk, OnOk};
ghost use Rattle.service.specs.Hidden.{hidden_line, hidden_text};

use crate::worker::answering::without_line_feed;
use http_link::parted;
use std::alloc::{AllocError, Global};

// A line of a setup, without the token that it may give.
fn hidden_line(line: &[u8]) -> &[u8]
    ensures { result.now ≡ hidden_line line.now }
{
    if line.starts_with(b"admin = ".as_slice()) {
        b"admin = \"hidden\""
    } else if line.starts_with(b"token = ".as_slice()) {
        b"token = \"hidden\""
    } else if line.starts_with(b"out_token = ".as_slice()) {
        b"out_token = \"hidden\""
    } else {
        line
    }
}

// Such a line, with its line feed.
fn put_line(text: &mut Vec<u8>, line: &[u8]) -> Result<(), AllocError>
    ensures { OnOk result (text.new.items ≡ text.old.items ++ (hidden_line line.now ++ 10 ∷ [])) }
{
    text.extend_from_slice(hidden_line(line))?;
    text.push(b'\n')?;
    Ok(())
}

/// The text of a setup, with `hidden` in place of each token, after a line that says so. The setup gives each token on a line of
/// its own. Fails only if it is out of memory.
pub fn hidden_text(alloc: Global, setup: &[u8]) -> Result<Vec<u8>, AllocError>
    ensures { IfOk result (λ text. text.items ≡ hidden_text setup.now) }
{
    let mut text = Vec::from_slice(alloc, b"# Tokens are hidden.\n")?;
    let mut rest = without_line_feed(setup);
    while let Some((line, after)) = parted(rest, b'\n') {
        put_line(&mut text, line)?;
        rest = after;
    }
    put_line(&mut text, rest)?;
    Ok(text)
}
