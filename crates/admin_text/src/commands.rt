//! Commands: lines of text by which an operator governs a tenant.

ghost use Rattle.std.specs.Prelude.{◌≡◌, ◌∷◌, ◌&&◌, Ok, IfOk, IsOkAnd};
ghost use Rattle.std.specs.Str.{bytes_eq};
ghost use Rattle.common_types.specs.Outcomes.{GivesUnlessMemory, OnMemory};
ghost use Rattle.common_types.specs.Words.{words_of};
ghost use Rattle.tenant_core.specs.declared.command.Command as spec;
ghost use Rattle.admin_text.specs.Commands.{two_word_verbs, verb_among, verb_taken, command_behind, command_among};
ghost use Rattle.admin_text.specs.Commands.{command_in, IsCommandText, TakesMemory, BeginsWithPrefix};
ghost use Rattle.admin_text.specs.declared.commands.Verb.TheVariants as verb;

use crate::fields::bucket::next_bucket;
use crate::fields::limits::next_limits;
use crate::fields::names::next_name;
use crate::fields::peer::peer_terms_in;
use crate::fields::prefix::next_prefix;
use crate::fields::rate::next_pair;
use crate::fields::route::last_fee;
use crate::words::{end, next_number};
use common_types::{ReadError, Words};
use money_core::Rate;
use std::alloc::Global;
use tenant_core::{Command, Order, Side};
use thiserror::Error;

/// What is wrong with a command.
#[derive(Clone, Copy, Debug, PartialEq, Eq, Drop, Error)]
pub enum TextFault {
    /// Its first word or words name no command.
    #[error("command: verb")]
    Verb,
    /// A word is missing, malformed or one too many, or a rate's two peers are the same.
    #[error("command: argument")]
    Argument,
    /// A number is outside its limits.
    #[error("command: range")]
    Range,
}

/// What a command begins with.
#[derive(Clone, Copy, Drop)]
enum Verb {
    Balances,
    Roll,
    PeerAdd,
    PeerRemove,
    PeerLimits,
    PeerBucket,
    RouteAdd,
    RouteRemove,
    RateSet,
    SettleIn,
    SettleOut,
}

#[tactic(auto, unfolding(crate::specs::Commands::command_behind))]
fn added_peer(words: Words<'_>) -> Result<Command, TextFault>
    ensures { result ≡ command_behind verb.PeerAdd words.entry }
{
    let terms = peer_terms_in(words)?;
    Ok(Command::Order(Order::AddPeer(terms)))
}

#[tactic(auto, unfolding(crate::specs::Commands::command_behind))]
fn removed_peer(words: Words<'_>) -> Result<Command, TextFault>
    ensures { result ≡ command_behind verb.PeerRemove words.entry }
{
    let (peer, words) = next_name(words)?;
    end(words)?;
    Ok(Command::Order(Order::RemovePeer(peer)))
}

#[tactic(auto, unfolding(crate::specs::Commands::command_behind))]
fn limited_peer(words: Words<'_>) -> Result<Command, TextFault>
    ensures { result ≡ command_behind verb.PeerLimits words.entry }
{
    let (peer, words) = next_name(words)?;
    let (limits, words) = next_limits(words)?;
    end(words)?;
    Ok(Command::Order(Order::SetLimits { peer, limits }))
}

#[tactic(auto, unfolding(crate::specs::Commands::command_behind))]
fn bucketed_peer(words: Words<'_>) -> Result<Command, TextFault>
    ensures { result ≡ command_behind verb.PeerBucket words.entry }
{
    let (peer, words) = next_name(words)?;
    let (bucket, words) = next_bucket(words)?;
    end(words)?;
    Ok(Command::Order(Order::SetBucket { peer, bucket }))
}

#[tactic(auto, unfolding(crate::specs::Commands::command_behind))]
fn set_rate(words: Words<'_>) -> Result<Command, TextFault>
    ensures { result ≡ command_behind verb.RateSet words.entry }
{
    let (pair, words) = next_pair(words)?;
    let (numerator, words) = next_number::<1, { Rate::MAX_TERM }>(words)?;
    let (denominator, words) = next_number::<1, { Rate::MAX_TERM }>(words)?;
    end(words)?;
    let rate = Rate::new(numerator.get(), denominator.get())
        .ok()
        .ok_or(TextFault::Range)?;
    Ok(Command::Order(Order::SetRate { pair, rate }))
}

#[tactic(auto, unfolding(crate::specs::Commands::command_behind))]
fn settled_in(words: Words<'_>) -> Result<Command, TextFault>
    ensures { result ≡ command_behind verb.SettleIn words.entry }
{
    let (peer, words) = next_name(words)?;
    let (amount, words) = next_number(words)?;
    end(words)?;
    let side = Side::In;
    Ok(Command::Order(Order::Settle { peer, side, amount }))
}

#[tactic(auto, unfolding(crate::specs::Commands::command_behind))]
fn settled_out(words: Words<'_>) -> Result<Command, TextFault>
    ensures { result ≡ command_behind verb.SettleOut words.entry }
{
    let (peer, words) = next_name(words)?;
    let (amount, words) = next_number(words)?;
    end(words)?;
    let side = Side::Out;
    Ok(Command::Order(Order::Settle { peer, side, amount }))
}

#[tactic(auto, unfolding(crate::specs::Commands::command_behind))]
fn balances(words: Words<'_>) -> Result<Command, TextFault>
    ensures { result ≡ command_behind verb.Balances words.entry }
{
    end(words)?;
    Ok(Command::Balances)
}

#[tactic(auto, unfolding(crate::specs::Commands::command_behind))]
fn roll(words: Words<'_>) -> Result<Command, TextFault>
    ensures { result ≡ command_behind verb.Roll words.entry }
{
    end(words)?;
    Ok(Command::Roll)
}

// A reading that allocates nothing, with the errors of those that do.
fn given<T>(read: Result<T, TextFault>) -> Result<T, ReadError<TextFault>>
    ensures exact { GivesUnlessMemory (λ t. t) result read }
    ensures memory { OnMemory result ⊥ }
{
    match read {
        Ok(value) => Ok(value),
        Err(fault) => Err(ReadError::Fault(fault)),
    }
}

#[tactic(auto, unfolding(crate::specs::Commands::command_behind))]
fn added_route(alloc: Global, words: Words<'_>) -> Result<Command, ReadError<TextFault>>
    ensures exact { GivesUnlessMemory (λ c. c) result (command_behind verb.RouteAdd words.entry) }
    ensures memory { OnMemory result (TakesMemory verb.RouteAdd words.entry) }
{
    let (prefix, words) = next_prefix(alloc, words)?;
    let (peer, words) = given(next_name(words))?;
    let fee = given(last_fee(words))?;
    Ok(Command::Order(Order::AddRoute { prefix, peer, fee }))
}

#[tactic(auto, unfolding(crate::specs::Commands::command_behind))]
fn removed_route(alloc: Global, words: Words<'_>) -> Result<Command, ReadError<TextFault>>
    ensures exact { GivesUnlessMemory (λ c. c) result (command_behind verb.RouteRemove words.entry) }
    ensures memory { OnMemory result (TakesMemory verb.RouteRemove words.entry) }
{
    let (prefix, words) = next_prefix(alloc, words)?;
    given(end(words))?;
    Ok(Command::Order(Order::RemoveRoute(prefix)))
}

fn are(words: (&[u8], &[u8]), verb: (&[u8], &[u8])) -> bool
    ensures { result ≡ (bytes_eq words.entry.1.now verb.entry.1.now && bytes_eq words.entry.0.now verb.entry.0.now) }
{
    words.0 == verb.0 && words.1 == verb.1
}

fn two_word_verb<'a>(
    first: &[u8],
    second: &[u8],
    words: Words<'a>,
) -> Result<(Verb, Words<'a>), TextFault>
    ensures { result ≡ verb_among two_word_verbs (first.now ∷ second.now ∷ words.entry) }
{
    let found = (first, second);
    if are(found, (b"peer", b"add")) {
        Ok((Verb::PeerAdd, words))
    } else if are(found, (b"peer", b"remove")) {
        Ok((Verb::PeerRemove, words))
    } else if are(found, (b"peer", b"limits")) {
        Ok((Verb::PeerLimits, words))
    } else if are(found, (b"peer", b"bucket")) {
        Ok((Verb::PeerBucket, words))
    } else if are(found, (b"route", b"add")) {
        Ok((Verb::RouteAdd, words))
    } else if are(found, (b"route", b"remove")) {
        Ok((Verb::RouteRemove, words))
    } else if are(found, (b"rate", b"set")) {
        Ok((Verb::RateSet, words))
    } else if are(found, (b"settle", b"in")) {
        Ok((Verb::SettleIn, words))
    } else if are(found, (b"settle", b"out")) {
        Ok((Verb::SettleOut, words))
    } else {
        Err(TextFault::Verb)
    }
}

#[tactic(auto, unfolding(crate::specs::Commands::verb_taken))]
fn next_verb(words: Words<'_>) -> Result<(Verb, Words<'_>), TextFault>
    ensures { result ≡ verb_taken words.entry }
{
    let (first, words) = words.split_first().ok_or(TextFault::Verb)?;
    if first == b"balances".as_slice() {
        Ok((Verb::Balances, words))
    } else if first == b"roll".as_slice() {
        Ok((Verb::Roll, words))
    } else {
        let (second, words) = words.split_first().ok_or(TextFault::Verb)?;
        two_word_verb(first, second, words)
    }
}

fn command_behind(
    alloc: Global,
    verb: Verb,
    words: Words<'_>,
) -> Result<Command, ReadError<TextFault>>
    ensures exact { GivesUnlessMemory (λ c. c) result (command_behind verb words.entry) }
    ensures memory { OnMemory result (TakesMemory verb words.entry) }
{
    match verb {
        Verb::Balances => given(balances(words)),
        Verb::Roll => given(roll(words)),
        Verb::PeerAdd => given(added_peer(words)),
        Verb::PeerRemove => given(removed_peer(words)),
        Verb::PeerLimits => given(limited_peer(words)),
        Verb::PeerBucket => given(bucketed_peer(words)),
        Verb::RouteAdd => added_route(alloc, words),
        Verb::RouteRemove => removed_route(alloc, words),
        Verb::RateSet => given(set_rate(words)),
        Verb::SettleIn => given(settled_in(words)),
        Verb::SettleOut => given(settled_out(words)),
    }
}

#[tactic(auto, unfolding(crate::specs::Commands::command_among))]
fn command_among(alloc: Global, words: Words<'_>) -> Result<Command, ReadError<TextFault>>
    ensures exact { GivesUnlessMemory (λ c. c) result (command_among words.entry) }
    ensures memory { OnMemory result (IsOkAnd (verb_taken words.entry) (λ first. TakesMemory first.0 first.1)) }
{
    let (verb, words) = given(next_verb(words))?;
    command_behind(alloc, verb, words)
}

/// The command that a text spells.
///
/// A text is words with one space between two: `peer add NAME ROLE TOKEN URL OUTTOKEN ASSET SCALE LIMITS BUCKET`,
/// `peer remove NAME`, `peer limits NAME LIMITS`, `peer bucket NAME BUCKET`, `route add PREFIX PEER [FEE]`,
/// `route remove PREFIX`, `rate set FROM TO NUM DEN`, `settle in NAME AMOUNT`, `settle out NAME AMOUNT`, `balances` or
/// `roll`. A role is `child` or `peer`, the empty prefix `*`, a fee that is left out 0, and a number `0` or digits without
/// a zero in front. LIMITS and BUCKET are the numbers of [`PeerLimits`](tenant_core::PeerLimits) and of
/// [`BucketTerms`](tenant_core::BucketTerms), in the order of their fields.
///
/// The first word that fails decides: the first one or two with `Verb`, a number outside its limits with `Range`, any
/// other and one that is missing or too many with `Argument`. `Memory` comes only for a text that begins with `route add` or
/// `route remove` and a prefix.
pub fn parse_command(alloc: Global, text: &[u8]) -> Result<Command, ReadError<TextFault>>
    // What is read is spelled so.
    ensures found { IfOk result (λ c. IsCommandText text.now c) }
    // Each spelling of a command is read as that command, unless memory runs out.
    ensures only { (c : spec.Command) → IsCommandText text.now c → GivesUnlessMemory (λ c. c) result (Ok c) }
    // Which fault comes: that of the first word that fails.
    ensures exact { GivesUnlessMemory (λ c. c) result (command_in text.now) }
    // It runs out of memory only for `route add` or `route remove` and a prefix.
    ensures memory { OnMemory result (BeginsWithPrefix (words_of text.now)) }
{
    crate::laws::commands();
    command_among(alloc, Words::of(text))
}
