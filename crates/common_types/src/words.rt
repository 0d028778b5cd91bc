//! Words with single spaces between them.

ghost use Rattle.std.specs.Prelude.{◌≡◌, ◌==◌, ◌∷◌, [], option_copied, MatchOption};
ghost use Rattle.std.specs.List.{position};
ghost use Rattle.common_types.specs.Words.{words_of, parts};

use std::marker::Model;

/// The remaining words of a text, taken off its front without an allocation. A text has at least one word. A word is
/// empty if nothing is before, after or between the spaces.
#[derive(Drop)]
pub struct Words<'a> {
    rest: Option<&'a [u8]>,
}

impl<'a> Model for Words<'a> {
    ghost use Rattle.std.specs.Prelude.{List, ℕ, option_copied};
    ghost use Rattle.common_types.specs.Words.{words_left};

    ghost Value = { List (List ℕ) };

    ghost view = { λ w. words_left (option_copied w.rest) };
}

impl<'a> Words<'a> {
    /// The words of a text.
    pub fn of(text: &'a [u8]) -> Words<'a>
        ensures { result ≡ words_of text.now }
    {
        Words { rest: Some(text) }
    }

    /// The first word and the words after it, or `None` if no word is left.
    pub fn split_first(self) -> Option<(&'a [u8], Words<'a>)>
        ensures { MatchOption result (self.entry ≡ []) (λ w. self.entry ≡ w.0.now ∷ w.1) }
    {
        let (first, rest) = first_word(self.rest?);
        Some((first, Words { rest }))
    }
}

fn first_space(text: &[u8]) -> Option<usize>
    ensures { result ≡ position (λ b. b == 32) text.now }
{
    text.iter().position(|b| *b == b' ')
}

/// The first word of a text, and what follows the space after it.
pub fn first_word(text: &[u8]) -> (&[u8], Option<&[u8]>)
    ensures value { words_of text.now ≡ parts words_of result.0.now (option_copied result.1) }
{
    match first_space(text) {
        Some(end) => (&text[..end], Some(&text[end + 1..])),
        None => (text, None),
    }
}
