//! The summary of statements, in lines.

ghost use Rattle.std.specs.Prelude.{◌≡◌, ◌++◌, IfOk, List, OnOk};
ghost use Rattle.std.specs.List.{flat_map};
ghost use Rattle.statements.specs.Chain.{IsChain, Link};
ghost use Rattle.statements.specs.Sums.{OnLong};
ghost use Rattle.statements.specs.Summary.{IsLongPast, chain_text, good_line, in_words, keyed, keyed_signed, summary_line};
ghost use Rattle.statements.specs.Summary.{out_words, seen_words, summary_text, told_line};

use crate::chain::Chain;
use crate::line::{Line, PeerSums, lines_of};
use crate::put::{put_number, put_signed, put_word};
use crate::seen::PeerSeen;
use crate::tally::Summed;
use itoa::Buffer;
use std::alloc::{AllocError, Global};

#[tactic(auto, unfolding(crate::specs::Summary::keyed))]
fn put_keyed(out: &mut Vec<u8>, key: &[u8], value: u128) -> Result<(), AllocError>
    ensures { OnOk result (out.new.items ≡ out.old.items ++ keyed key.now value) }
{
    let mut digits = Buffer::new();
    put_word(out, key)?;
    put_word(out, digits.format(value).as_bytes())
}

#[tactic(auto, unfolding(crate::specs::Summary::keyed_signed))]
fn put_keyed_signed(out: &mut Vec<u8>, key: &[u8], value: i64) -> Result<(), AllocError>
    ensures { OnOk result (out.new.items ≡ out.old.items ++ keyed_signed key.now value) }
{
    put_word(out, key)?;
    put_signed(out, value)
}

#[tactic(auto, unfolding(crate::specs::Summary::in_words))]
fn put_in(out: &mut Vec<u8>, told: &PeerSums) -> Result<(), AllocError>
    ensures { OnOk result (out.new.items ≡ out.old.items ++ in_words told.now) }
{
    put_keyed(out, b"packets-in", told.came)?;
    put_keyed(out, b"fulfilled-in", told.fulfilled_in)?;
    put_keyed(out, b"settled-in", told.settled_in)
}

#[tactic(auto, unfolding(crate::specs::Summary::out_words))]
fn put_out(out: &mut Vec<u8>, told: &PeerSums) -> Result<(), AllocError>
    ensures { OnOk result (out.new.items ≡ out.old.items ++ out_words told.now) }
{
    put_keyed(out, b"packets-out", told.went)?;
    put_keyed(out, b"fulfilled-out", told.fulfilled_out)?;
    put_keyed(out, b"settled-out", told.settled_out)
}

#[tactic(auto, unfolding(crate::specs::Summary::seen_words))]
fn put_words(out: &mut Vec<u8>, seen: &PeerSeen, told: &PeerSums) -> Result<(), AllocError>
    ensures { OnOk result (out.new.items ≡ out.old.items ++ seen_words seen.now told.now) }
{
    out.extend_from_slice(b"peer")?;
    put_number(out, seen.number as u64)?;
    put_word(out, seen.name.as_bytes())?;
    put_keyed_signed(out, b"began", seen.began)?;
    put_keyed_signed(out, b"ended", told.ended)
}

#[tactic(auto, unfolding(crate::specs::Summary::told_line))]
fn put_line(out: &mut Vec<u8>, seen: &PeerSeen, told: &PeerSums) -> Result<(), AllocError>
    ensures { OnOk result (out.new.items ≡ out.old.items ++ told_line seen.now told.now) }
{
    put_words(out, seen, told)?;
    put_in(out, told)?;
    put_out(out, told)?;
    put_keyed(out, b"fees", told.fees)?;
    Ok(out.push(b'\n')?)
}

fn put_lines(out: &mut Vec<u8>, lines: &[Line]) -> Result<(), AllocError>
    ensures { OnOk result (out.new.items ≡ out.old.items ++ flat_map summary_line lines.now) }
{
    for line in lines {
        put_line(out, &line.seen, &line.told)?;
    }
    Ok(())
}

#[tactic(auto, unfolding(crate::specs::Summary::good_line))]
fn put_good(out: &mut Vec<u8>, periods: u64, entries: u64) -> Result<(), AllocError>
    ensures { OnOk result (out.new.items ≡ out.old.items ++ good_line periods entries) }
{
    out.extend_from_slice(b"good")?;
    put_number(out, periods)?;
    put_number(out, entries)?;
    Ok(out.push(b'\n')?)
}

// The lines, by the chain's own sums.
fn chain_text(alloc: Global, chain: &Chain) -> Summed<Vec<u8>>
    ensures text { IfOk result (λ text. text.items ≡ chain_text chain.now) }
    ensures long { OnLong result (IsLongPast chain.now) }
{
    let (periods, entries) = chain.counts()?;
    let lines = lines_of(alloc, chain)?;
    let mut out = Vec::new(alloc);
    put_good(&mut out, periods, entries)?;
    put_lines(&mut out, lines.as_slice())?;
    Ok(out)
}

impl Chain {
    /// The summary of the statements: `good`, how many there are and how many records they have. Then a line for
    /// each peer that was there: what it owed at first and at the end, what came in from it and went out to it, and
    /// the fees. Fails if a sum has no room, or if it is out of memory.
    #[tactic(auto, using(crate::proofs::SummarySteps::chain_text_is))]
    pub fn summary(&self, alloc: Global) -> Summed<Vec<u8>>
        ensures long { OnLong result (IsLongPast self.now) }
        ensures summary { IfOk result (λ text. (links : List Link) (chain : IsChain links self.now) → text.items ≡ summary_text chain.done chain.periods) }
    {
        chain_text(alloc, self)
    }
}
