//! Words of a line, as they are taken off its front.

ghost use Rattle.std.specs.Prelude.{◌≡◌, ◌≤◌, IfSome, option_copied};
ghost use Rattle.common_types.specs.Words.{words_left};
ghost use Rattle.statements.specs.Reading.{IsReadOff, number_read, word_read};

use common_types::{first_word, number_in};
use std::marker::Model;

/// The words of a line that are left, and the text of them.
#[derive(Drop)]
pub struct WordsLeft<'a> {
    rest: Option<&'a [u8]>,
}

impl<'a> Model for WordsLeft<'a> {
    ghost use Rattle.std.specs.Prelude.{List, ℕ, option_copied};
    ghost use Rattle.common_types.specs.Words.{words_left};

    ghost Value = { List (List ℕ) };

    ghost view = { λ w. words_left (option_copied w.rest) };
}

impl<'a> WordsLeft<'a> {
    /// The words of a text, if one is left.
    pub fn of(rest: Option<&'a [u8]>) -> WordsLeft<'a>
        ensures { result ≡ words_left (option_copied rest.entry) }
    {
        WordsLeft { rest }
    }

    /// The next word.
    pub fn next(&mut self) -> Option<&'a [u8]>
        ensures { IsReadOff (option_copied result) self.new (word_read self.old) }
    {
        let (word, rest) = first_word(self.rest?);
        self.rest = rest;
        Some(word)
    }

    /// A number up to that one.
    #[tactic(auto, unfolding(statements::specs::Reading::number_read))]
    pub fn number<const HIGH: u64>(&mut self) -> Option<u64>
        ensures number { IsReadOff result self.new (number_read 0 HIGH self.old) }
        ensures within { IfSome result (λ n. n ≤ HIGH) }
    {
        Some(number_in::<0, HIGH>(self.next()?).ok()?.get())
    }

    /// The text of the words that are left, if one is.
    pub fn text(self) -> Option<&'a [u8]>
        ensures { words_left (option_copied result) ≡ self.entry }
    {
        self.rest
    }
}
