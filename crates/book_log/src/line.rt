//! The line of a record, as it is written and read.

ghost use Rattle.std.specs.Prelude.{◌≡◌, ◌++◌, ◌∷◌, [], IfOk, IsTrue, OnOk, Some, None, option_copied, if◌then◌else◌};
ghost use Rattle.book_log.specs.Lines.{entry_secrets, log_line, secrets_of};
ghost use Rattle.book_log.specs.Reading.{added_read, change_with, entry_said, entry_with, line_said, place_read, secrets_read};
ghost use Rattle.common_types.specs.Words.{words_left, words_of};
ghost use Rattle.statements.specs.Reading.{IsReadOff};
ghost use Rattle.statements.specs.Statement.{spaced};
ghost use Rattle.tenant_core.specs.Views.{entry_of, record_of};

use crate::words::WordsLeft;
use common_types::{Token, first_word};
use ilp_addr::Target;
use statements::{entry_in, put_decimal, put_number, put_record, put_word, view_of};
use std::alloc::{AllocError, Global};
use tenant_core::{Change, Entry, EntryView, Outcome, PeerTerms, RecordView};

/// Which record a line is of: the tenant's number, its period, and how many records of that period come before it.
#[derive(Clone, Copy, Debug, PartialEq, Eq)]
pub struct LinePlace {
    pub tenant: usize,
    pub period: u64,
    pub number: u64,
}

/// Appends the secrets of a peer to a text: its token, its URL, and the token that its packets have.
pub fn put_secrets(out: &mut Vec<u8>, terms: &PeerTerms) -> Result<(), AllocError>
    ensures { OnOk result (out.new.items ≡ out.old.items ++ spaced (secrets_of terms.now)) }
{
    put_word(out, terms.token.as_bytes())?;
    put_word(out, terms.target.url())?;
    put_word(out, terms.target.token())
}

fn put_entry_secrets(out: &mut Vec<u8>, entry: &EntryView<'_>) -> Result<(), AllocError>
    ensures { OnOk result (out.new.items ≡ out.old.items ++ spaced (entry_secrets (entry_of entry.now))) }
{
    let EntryView::Change(entry) = entry else {
        return Ok(());
    };
    let Change::PeerAdded(terms) = &entry.change else {
        return Ok(());
    };
    out.extend_from_slice(b" with")?;
    put_secrets(out, terms)
}

/// Appends the line of a record to a text. Fails only if it is out of memory.
#[tactic(auto, unfolding(crate::specs::Lines::log_line))]
pub fn put_line(
    out: &mut Vec<u8>,
    place: LinePlace,
    view: &RecordView<'_>,
) -> Result<(), AllocError>
    ensures { OnOk result (out.new.items ≡ out.old.items ++ log_line place (record_of view.now)) }
{
    put_decimal(out, place.tenant as u64)?;
    put_number(out, place.period)?;
    put_number(out, place.number)?;
    put_entry_secrets(out, &view.entry)?;
    out.push(b' ')?;
    put_record(out, view)
}

/// Whether a line, without its line feed, is that of an entry with that outcome. `written` is room to write in.
pub fn is_line_of(
    written: &mut Vec<u8>,
    place: LinePlace,
    entry: &Entry,
    outcome: Outcome,
    line: &[u8],
) -> Result<bool, AllocError>
    ensures is { IfOk result (λ is. IsTrue is → line.now ++ 10 ∷ [] ≡ log_line place (record { entry = entry.now; outcome = outcome })) }
    ensures only { IfOk result (λ is. line.now ++ 10 ∷ [] ≡ log_line place (record { entry = entry.now; outcome = outcome }) → IsTrue is) }
{
    written.clear();
    let view = RecordView {
        entry: view_of(entry),
        outcome,
    };
    put_line(written, place, &view)?;
    match written.pop() {
        Some(b'\n') => Ok(written.as_slice() == line),
        _ => Ok(false),
    }
}

/// The secrets of a peer: the token that it shows, and the URL at which it takes packets with the token for it.
#[derive(Drop)]
pub struct Secrets {
    pub token: Token,
    pub target: Target,
}

/// The secrets that words spell.
#[tactic(auto, unfolding(crate::specs::Reading::secrets_read))]
pub fn secrets_in(words: &mut WordsLeft<'_>) -> Option<Secrets>
    ensures { IsReadOff result words.new (secrets_read words.old) }
{
    let (shown, url, other) = (words.next()?, words.next()?, words.next()?);
    let token = Token::new(shown)?;
    let target = Target::new(url, other)?;
    Some(Secrets { token, target })
}

#[tactic(auto, unfolding(crate::specs::Reading::place_read))]
fn place_in(words: &mut WordsLeft<'_>) -> Option<LinePlace>
    ensures { IsReadOff result words.new (place_read words.old) }
{
    let tenant = words.number::<65_535>()? as usize;
    let period = words.number::<{ u64::MAX }>()?;
    let number = words.number::<{ u64::MAX }>()?;
    Some(LinePlace {
        tenant,
        period,
        number,
    })
}

// Gives a change that adds a peer its secrets. Whether it does.
fn set_change_secrets(change: &mut Change, secrets: &Secrets) -> bool
    ensures { (if result then Some change.new else None) ≡ change_with secrets.now change.old }
{
    let Change::PeerAdded(terms) = change else {
        return false;
    };
    terms.token = secrets.token.copy();
    terms.target = secrets.target.copy();
    true
}

// The same of an entry.
fn set_secrets(entry: &mut Entry, secrets: &Secrets) -> bool
    ensures { (if result then Some entry.new else None) ≡ entry_with secrets.now entry.old }
{
    match entry {
        Entry::Change(entry) => set_change_secrets(&mut entry.change, secrets),
        _ => false,
    }
}

// The entry of a line's record, after the word `with`.
#[tactic(auto, unfolding(crate::specs::Reading::added_read, statements::specs::Reading::entry_read, statements::specs::Reading::number_read))]
fn added_in(alloc: Global, words: Option<&[u8]>) -> Result<Option<Entry>, AllocError>
    ensures { IfOk result (λ entry. entry ≡ added_read (words_left (option_copied words.entry))) }
{
    let mut words = WordsLeft::of(words);
    let Some(secrets) = secrets_in(&mut words) else {
        return Ok(None);
    };
    let Some(record) = words.text() else {
        return Ok(None);
    };
    let mut entry = entry_in(alloc, record, 0)?;
    let Some(added) = &mut entry else {
        return Ok(None);
    };
    if set_secrets(added, &secrets) {
        Ok(entry)
    } else {
        Ok(None)
    }
}

// The entry of a line, after the place.
#[tactic(auto, unfolding(crate::specs::Reading::entry_said))]
fn entry_after(alloc: Global, text: &[u8]) -> Result<Option<Entry>, AllocError>
    ensures { IfOk result (λ entry. entry ≡ entry_said (words_of text.now)) }
{
    let (first, others) = first_word(text);
    if first == b"with".as_slice() {
        added_in(alloc, others)
    } else {
        entry_in(alloc, text, 0)
    }
}

/// The place and the entry that a line says, if it says any. Its outcome is not read, since the rules give it again.
#[tactic(auto, unfolding(crate::specs::Reading::line_said, crate::specs::Reading::entry_said))]
pub fn line_in(alloc: Global, line: &[u8]) -> Result<Option<(LinePlace, Entry)>, AllocError>
    ensures { IfOk result (λ said. said ≡ line_said line.now) }
{
    let mut words = WordsLeft::of(Some(line));
    let Some(place) = place_in(&mut words) else {
        return Ok(None);
    };
    let Some(text) = words.text() else {
        return Ok(None);
    };
    match entry_after(alloc, text)? {
        Some(entry) => Ok(Some((place, entry))),
        None => Ok(None),
    }
}
