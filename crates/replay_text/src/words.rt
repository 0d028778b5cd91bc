//! Lines and words, taken off the front of a text.

ghost use Rattle.std.specs.Prelude.{◌≡◌, ◌≢◌, ◌<◌, ◌∷◌, ◌++◌, [], ℕ, List, length, option_copied, IfSome, MatchOption};
ghost use Rattle.std.specs.Str.{bytes_eq};
ghost use Rattle.common_types.specs.Words.{words_of, words_left};
ghost use Rattle.replay_text.specs.Script.{lines_of};

use crate::scans::{near_place_of, place_of};

/// Whether a word is this one. Its length is known, so the bytes are compared at once.
#[inline(always)]
pub(crate) fn is_word<const N: usize>(word: &[u8], known: &[u8; N]) -> bool
    ensures { result ≡ bytes_eq word.now known.now }
{
    match <&[u8; N]>::try_from(word) {
        Ok(word) => word == known,
        Err(_) => false,
    }
}

/// The first line of a text that is not empty, without its end, and what follows it.
pub(crate) fn first_line(text: &[u8]) -> (&[u8], &[u8])
    requires { text.now ≢ [] }
    ensures value { lines_of text.now ≡ result.0.now ∷ lines_of result.1.now }
    ensures shorter { length result.1.now < length text.now }
{
    match place_of(b'\n', text) {
        Some(end) => (&text[..end], &text[end + 1..]),
        None => (text, &[]),
    }
}

/// The first line of a text whose end is in it, without its end, and what follows it. More may follow the text.
pub(crate) fn ended_line(text: &[u8]) -> Option<(&[u8], &[u8])>
    ensures value { IfSome result (λ r. (more : List ℕ) → lines_of (text.now ++ more) ≡ r.0.now ∷ lines_of (r.1.now ++ more)) }
    ensures shorter { IfSome result (λ r. length r.1.now < length text.now) }
{
    match place_of(b'\n', text) {
        Some(end) => Some((&text[..end], &text[end + 1..])),
        None => None,
    }
}

/// The first word of a text, and what follows the space after it.
#[inline(always)]
pub(crate) fn first_word(text: &[u8]) -> (&[u8], Option<&[u8]>)
    ensures value { words_of text.now ≡ result.0.now ∷ words_left (option_copied result.1) }
{
    match near_place_of(b' ', text) {
        Some(end) => (&text[..end], Some(&text[end + 1..])),
        None => (text, None),
    }
}

/// Two words: the second is all that follows the first.
#[inline(always)]
pub(crate) fn two_words(words: Option<&[u8]>) -> Option<(&[u8], &[u8])>
    ensures { MatchOption result (length (words_left (option_copied words.entry)) < 2)
        (λ w. words_left (option_copied words.entry) ≡ w.0.now ∷ words_of w.1.now) }
{
    let (first, rest) = first_word(words?);
    Some((first, rest?))
}

/// Three words: the third is all that follows the second.
#[inline(always)]
pub(crate) fn three_words(words: Option<&[u8]>) -> Option<(&[u8], &[u8], &[u8])>
    ensures { MatchOption result (length (words_left (option_copied words.entry)) < 3)
        (λ w. words_left (option_copied words.entry) ≡ w.0.now ∷ w.1.now ∷ words_of w.2.now) }
{
    let (first, rest) = first_word(words?);
    let (second, third) = two_words(rest)?;
    Some((first, second, third))
}

/// Four words: the fourth is all that follows the third.
#[inline(always)]
pub(crate) fn four_words(words: Option<&[u8]>) -> Option<(&[u8], &[u8], &[u8], &[u8])>
    ensures { MatchOption result (length (words_left (option_copied words.entry)) < 4)
        (λ w. words_left (option_copied words.entry) ≡ w.0.now ∷ w.1.now ∷ w.2.now ∷ words_of w.3.now) }
{
    let (first, rest) = first_word(words?);
    let (second, third, fourth) = three_words(rest)?;
    Some((first, second, third, fourth))
}
