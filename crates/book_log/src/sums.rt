//! Sums in the text of a log.

ghost use Rattle.std.specs.Prelude.{◌≡◌, ◌++◌, ◌∷◌, [], List, ℕ, ◌<◌, length, IfOk, IfSome, IsSome, OnOk, MatchOption, None};
ghost use Rattle.sha2.specs.Sha256.{sha256};
ghost use Rattle.statements.specs.Reading.{text_lines};
ghost use Rattle.book_log.specs.Sums.{IsCommit, commit_read, is_sum, sum_line};

use line_log::next_sum;
use memchr::memchr;
use std::alloc::AllocError;

/// Appends the line of a sum to a text. Fails only if it is out of memory.
#[tactic(auto, unfolding(crate::specs::Sums::sum_line))]
pub fn put_sum(out: &mut Vec<u8>, sum: &[u8; 32]) -> Result<(), AllocError>
    ensures { OnOk result (out.new.items ≡ out.old.items ++ sum_line sum.now) }
{
    let mut digits = [0; 64];
    out.extend_from_slice(b"sum ")?;
    match hex::encode_to_slice(sum.as_slice(), &mut digits) {
        Ok(()) => out.extend_from_slice(&digits)?,
        Err(_) => return Err(AllocError),
    }
    Ok(out.push(b'\n')?)
}

/// The first line of a text, without its line feed, and what follows it.
pub fn first_line(text: &[u8]) -> Option<(&[u8], &[u8])>
    ensures parts { IfSome result (λ r. text.now ≡ r.0.now ++ 10 ∷ r.1.now) }
    ensures shorter { IfSome result (λ r. length r.1.now < length text.now) }
    ensures first { MatchOption result (text_lines text.now ≡ text.now ∷ []) (λ r. text_lines text.now ≡ r.0.now ∷ text_lines r.1.now) }
    ensures line { IfSome result (λ r. (others : List ℕ) → text_lines (r.0.now ++ 10 ∷ others) ≡ r.0.now ∷ text_lines others) }
{
    let end = memchr(b'\n', text)?;
    Some((&text[..end], &text[end + 1..]))
}

#[tactic(auto, unfolding(crate::specs::Sums::is_sum))]
fn is_sum(line: &[u8]) -> bool
    ensures { result ≡ is_sum line.now }
{
    line.starts_with(b"sum ")
}

// What is before the rest of a text.
fn before<'a>(text: &'a [u8], rest: &[u8]) -> &'a [u8]
    ensures { (front : List ℕ) → text.now ≡ front ++ rest.now → result.now ≡ front }
{
    &text[..text.len().saturating_sub(rest.len())]
}

/// The lines of a commit, the sum after them, and what follows.
#[derive(Clone, Copy)]
pub struct Commit<'a> {
    pub lines: &'a [u8],
    /// The line of its sum, as the text has it.
    pub stated: &'a [u8],
    pub rest: &'a [u8],
}

/// The first commit of a text; `None` if no sum ends one.
pub fn first_commit(text: &[u8]) -> Option<Commit<'_>>
    ensures parts { IfSome result (λ commit. text.now ≡ commit.lines.now ++ commit.stated.now ++ commit.rest.now) }
    ensures shorter { IfSome result (λ commit. length commit.rest.now < length text.now) }
    ensures first { MatchOption result (commit_read (text_lines text.now) ≡ None)
        (λ commit. IsCommit (text_lines text.now) commit.lines.now commit.stated.now commit.rest.now) }
{
    let mut rest = text;
    while let Some((line, others)) = first_line(rest) {
        if is_sum(line) {
            return Some(Commit {
                lines: before(text, rest),
                stated: before(rest, others),
                rest: others,
            });
        }
        rest = others;
    }
    None
}

/// The sum after a commit, if the text states just that. `written` is room to write in.
pub fn sum_of(
    written: &mut Vec<u8>,
    before: &[u8; 32],
    commit: &Commit<'_>,
) -> Result<Option<[u8; 32]>, AllocError>
    ensures stated { IfOk result (λ sum. IfSome sum (λ s. (s ≡ sha256 (before.now ++ commit.now.lines.now)) × (commit.now.stated.now ≡ sum_line s))) }
    ensures other { IfOk result (λ sum. commit.now.stated.now ≡ sum_line (sha256 (before.now ++ commit.now.lines.now)) → IsSome sum) }
{
    let sum = next_sum(before, commit.lines);
    written.clear();
    put_sum(written, &sum)?;
    if written.as_slice() == commit.stated {
        Ok(Some(sum))
    } else {
        Ok(None)
    }
}
