//! Lines and words, as they are taken off a text.

ghost use Rattle.std.specs.Prelude.{◌≡◌, ◌==◌, option_copied};
ghost use Rattle.std.specs.List.{position};
ghost use Rattle.common_types.specs.Words.{words_of};
ghost use Rattle.statements.specs.Reading.{IsReadOff, hash_read, line_read, text_lines, number_read, peer_number_read, word_read};

use common_types::{Between, first_word, number_in};
use memchr::memchr;
use std::marker::Model;
use tenant_core::PeerNo;

/// The lines of a text that are left.
#[derive(Clone, Copy)]
pub struct Lines<'a> {
    rest: &'a [u8],
}

fn first_line_feed(text: &[u8]) -> Option<usize>
    ensures { result ≡ position (λ b. b == 10) text.now }
{
    memchr(b'\n', text)
}

impl<'a> Lines<'a> {
    /// The lines of a text.
    pub fn of(text: &'a [u8]) -> Lines<'a>
        ensures { result.rest.now ≡ text.now }
    {
        Lines { rest: text }
    }

    /// The next line, without its line feed; `None` where no line feed is left.
    pub fn next(&mut self) -> Option<&'a [u8]>
        ensures { IsReadOff (option_copied result) (text_lines self.new.rest.now) (line_read (text_lines self.old.rest.now)) }
    {
        let end = first_line_feed(self.rest)?;
        let line = &self.rest[..end];
        self.rest = &self.rest[end + 1..];
        Some(line)
    }
}

/// The words of a line that are left.
#[derive(Drop)]
pub struct LineWords<'a> {
    rest: Option<&'a [u8]>,
}

impl<'a> Model for LineWords<'a> {
    ghost use Rattle.std.specs.Prelude.{List, ℕ, option_copied};
    ghost use Rattle.common_types.specs.Words.{words_left};

    ghost Value = { List (List ℕ) };

    ghost view = { λ w. words_left (option_copied w.rest) };
}

impl<'a> LineWords<'a> {
    /// The words of a line.
    pub fn of(line: &'a [u8]) -> LineWords<'a>
        ensures { result ≡ words_of line.now }
    {
        LineWords { rest: Some(line) }
    }

    /// The next word.
    pub fn next(&mut self) -> Option<&'a [u8]>
        ensures { IsReadOff (option_copied result) self.new (word_read self.old) }
    {
        let (word, rest) = first_word(self.rest?);
        self.rest = rest;
        Some(word)
    }

    /// A number within those limits.
    #[tactic(auto, unfolding(crate::specs::Reading::number_read))]
    pub fn between<const LOW: u64, const HIGH: u64>(&mut self) -> Option<Between<LOW, HIGH>>
        ensures { IsReadOff result self.new (number_read LOW HIGH self.old) }
    {
        number_in::<LOW, HIGH>(self.next()?).ok()
    }

    /// A number of 64 bits.
    pub fn number(&mut self) -> Option<u64>
        ensures { IsReadOff result self.new (number_read 0 u64.MAX self.old) }
    {
        Some(self.between::<0, { u64::MAX }>()?.get())
    }

    /// The number of a peer.
    pub fn peer(&mut self) -> Option<PeerNo>
        ensures { IsReadOff result self.new (peer_number_read self.old) }
    {
        Some(self.between::<0, 65_535>()?.get() as PeerNo)
    }

    /// 32 bytes in hexadecimal digits.
    #[tactic(auto, unfolding(crate::specs::Reading::hash_read))]
    pub fn hash(&mut self) -> Option<[u8; 32]>
        ensures { IsReadOff result self.new (hash_read self.old) }
    {
        let mut hash = [0; 32];
        hex::decode_to_slice(self.next()?, hash.as_mut_slice()).ok()?;
        Some(hash)
    }
}
