//! Which check decides on a packet, in words.

ghost use Rattle.std.specs.Prelude.{◌≡◌, ◌++◌, ◌∷◌, [], ◌≤◌, IfOk, OnOk, codes, option_copied};
ghost use Rattle.std.specs.Fmt.{decimal, signed_decimal};
ghost use Rattle.service.specs.Explaining.{answer_line, asked_line, deciding_line, explained, figure, figures_of, money_figures};
ghost use Rattle.service.specs.Explaining.{next_line, onward_lines, next_peer, passed_before, passed_line, passed_upto};
ghost use Rattle.service.specs.Questions.{question_at};

use crate::operators::question::Question;
use std::alloc::{AllocError, Global};
use tenant_core::{Finding, PeerNo, Verdict};

// How many checks pass before the deciding one.
fn passed_before(finding: &Finding) -> usize
    ensures count { result ≡ passed_before finding.now }
    ensures few { result ≤ 16 }
{
    match finding {
        Finding::NoPeer => 0,
        Finding::JournalFull { .. } => 1,
        Finding::BucketEmpty { .. } => 2,
        Finding::Expired { .. } => 3,
        Finding::NoChild
        | Finding::ConfigAmount { .. }
        | Finding::ConfigCondition
        | Finding::Config => 4,
        Finding::ForNeighbors => 5,
        Finding::OwnAddress => 6,
        Finding::OverCap { .. } => 7,
        Finding::NoRoute | Finding::LeadsBack => 8,
        Finding::NoRate { .. } => 9,
        Finding::BelowFee { .. } => 10,
        Finding::OverNextCap { .. } => 11,
        Finding::ExpiresOnward { .. } => 12,
        Finding::OverCeiling { .. } => 13,
        Finding::OverCredit { .. } => 14,
        Finding::TooManyHeld { .. } => 15,
        Finding::GoesOn { .. } => 16,
    }
}

// The line of a check that passes, by its number from 0 on.
#[tactic(auto, unfolding(crate::specs::Explaining::passed_line))]
fn passed_line(check: usize) -> &'static [u8]
    ensures { result.now ≡ passed_line check }
{
    match check {
        0 => b"ok token: a peer shows it\n",
        1 => b"ok journal: it has room for the packet and its answer\n",
        2 => b"ok bucket: it admits the packet\n",
        3 => b"ok expiry: it is after the clock\n",
        4 => b"ok configuration: the packet does not ask for it\n",
        5 => b"ok destination: it is no neighbor's\n",
        6 => b"ok destination: it is not the tenant's own\n",
        7 => b"ok cap: the amount is within the sender's\n",
        8 => b"ok route: the best one leads to another peer\n",
        9 => b"ok rate: there is one from the sender to the next peer\n",
        10 => b"ok fee: the price is not below it\n",
        11 => b"ok cap: the outgoing amount is within the next peer's\n",
        12 => b"ok expiry: the outgoing one is after the clock\n",
        13 => b"ok ceiling: the sender stays within it\n",
        14 => b"ok credit: the next peer stays within it\n",
        _ => b"ok answers: fewer than 1024 packets await theirs\n",
    }
}

// The lines of so many checks that pass, from the first one on.
fn put_passed(text: &mut Vec<u8>, many: usize) -> Result<(), AllocError>
    ensures { OnOk result (text.new.items ≡ text.old.items ++ passed_upto many) }
{
    for check in 0..many {
        text.extend_from_slice(passed_line(check))?;
    }
    Ok(())
}

// The line of the deciding check, unless all pass.
fn deciding_line(finding: &Finding) -> &'static [u8]
    ensures { result.now ≡ deciding_line finding.now }
{
    match finding {
        Finding::NoPeer => b"no token: no peer has that name\n",
        Finding::JournalFull { .. } =>
            b"no journal: it has no room for the packet and its answer\n",
        Finding::BucketEmpty { .. } =>
            b"no bucket: it has less than the 1000 that a packet costs\n",
        Finding::Expired { .. } => b"no expiry: it is not after the clock\n",
        Finding::NoChild => b"no configuration: the sender is no child\n",
        Finding::ConfigAmount { .. } => b"no configuration: the amount is not 0\n",
        Finding::ConfigCondition =>
            b"no configuration: the condition is not that of 32 zero bytes\n",
        Finding::Config => b"ok configuration: the packet asks for it\n",
        Finding::ForNeighbors => b"no destination: it is a neighbor's\n",
        Finding::OwnAddress => b"no destination: it is the tenant's own\n",
        Finding::OverCap { .. } => b"no cap: the amount is over the sender's\n",
        Finding::NoRoute => b"no route: none leads there\n",
        Finding::LeadsBack => b"no route: the best one leads back to the sender\n",
        Finding::NoRate { .. } => b"no rate: there is none from the sender to the next peer\n",
        Finding::BelowFee { .. } => b"no fee: the price is below it\n",
        Finding::OverNextCap { .. } => b"no cap: the outgoing amount is over the next peer's\n",
        Finding::ExpiresOnward { .. } => b"no expiry: the outgoing one is not after the clock\n",
        Finding::OverCeiling { .. } => b"no ceiling: the sender would pass it\n",
        Finding::OverCredit { .. } => b"no credit: the next peer would pass it\n",
        Finding::TooManyHeld { .. } => b"no answers: 1024 packets await theirs\n",
        Finding::GoesOn { .. } => b"",
    }
}

// The line of a number that a check compared.
fn put_figure(
    alloc: Global,
    text: &mut Vec<u8>,
    words: &[u8],
    number: u64,
) -> Result<(), AllocError>
    ensures { OnOk result (text.new.items ≡ text.old.items ++ figure words.now (decimal number)) }
{
    let number = number.to_string(alloc)?;
    put_words(text, words, number.as_bytes())
}

#[tactic(auto, unfolding(crate::specs::Explaining::figure))]
fn put_words(text: &mut Vec<u8>, words: &[u8], said: &[u8]) -> Result<(), AllocError>
    ensures { OnOk result (text.new.items ≡ text.old.items ++ figure words.now said.now) }
{
    text.extend_from_slice(b"   ")?;
    text.extend_from_slice(words)?;
    text.push(b' ')?;
    text.extend_from_slice(said)?;
    text.push(b'\n')?;
    Ok(())
}

// A peer's balance, the amount that is held, and that of the packet.
#[tactic(auto, unfolding(crate::specs::Explaining::money_figures))]
fn put_money(
    alloc: Global,
    text: &mut Vec<u8>,
    balance: i64,
    held: u64,
    amount: u64,
) -> Result<(), AllocError>
    ensures { OnOk result (text.new.items ≡ text.old.items ++ money_figures balance held amount) }
{
    let balance = balance.to_string(alloc)?;
    put_words(text, b"balance", balance.as_bytes())?;
    put_figure(alloc, text, b"held", held)?;
    put_figure(alloc, text, b"amount", amount)
}

// Two numbers that a check compared.
fn put_two(
    alloc: Global,
    text: &mut Vec<u8>,
    first: (&[u8], u64),
    second: (&[u8], u64),
) -> Result<(), AllocError>
    ensures { OnOk result (text.new.items ≡ text.old.items
        ++ figure first.entry.0.now (decimal first.entry.1) ++ figure second.entry.0.now (decimal second.entry.1)) }
{
    put_figure(alloc, text, first.0, first.1)?;
    put_figure(alloc, text, second.0, second.1)
}

// A price, and the cap that it is over.
fn put_price(alloc: Global, text: &mut Vec<u8>, price: u128, cap: u64) -> Result<(), AllocError>
    ensures { OnOk result (text.new.items ≡ text.old.items
        ++ figure (codes "amount") (decimal price) ++ figure (codes "cap") (decimal cap)) }
{
    let price = price.to_string(alloc)?;
    put_words(text, b"amount", price.as_bytes())?;
    put_figure(alloc, text, b"cap", cap)
}

// The numbers that the deciding check compared.
fn put_figures(alloc: Global, text: &mut Vec<u8>, finding: &Finding) -> Result<(), AllocError>
    ensures { OnOk result (text.new.items ≡ text.old.items ++ figures_of finding.now) }
{
    match *finding {
        Finding::JournalFull {
            entries,
            awaited,
            places,
        } => {
            put_figure(alloc, text, b"entries", entries)?;
            put_two(alloc, text, (b"awaited", awaited), (b"places", places))
        }
        Finding::BucketEmpty { credit } => put_figure(alloc, text, b"thousandths", credit),
        Finding::Expired { expiry, clock } | Finding::ExpiresOnward { expiry, clock } => {
            put_two(alloc, text, (b"expiry", expiry), (b"clock", clock))
        }
        Finding::ConfigAmount { amount } => put_figure(alloc, text, b"amount", amount),
        Finding::OverCap { amount, cap } => {
            put_two(alloc, text, (b"amount", amount), (b"cap", cap))
        }
        Finding::BelowFee { price, fee } => {
            put_two(alloc, text, (b"price", price), (b"fee", fee))
        }
        Finding::OverNextCap { price, cap, .. } => put_price(alloc, text, price, cap),
        Finding::OverCeiling {
            balance,
            held,
            amount,
            ceiling,
        } => {
            put_money(alloc, text, balance, held, amount)?;
            put_figure(alloc, text, b"ceiling", ceiling)
        }
        Finding::OverCredit {
            balance,
            held,
            price,
            credit,
            ..
        } => {
            put_money(alloc, text, balance, held, price)?;
            put_figure(alloc, text, b"credit", credit)
        }
        Finding::TooManyHeld { awaited } => put_figure(alloc, text, b"awaited", awaited),
        _ => Ok(()),
    }
}

/// The next peer, where a finding names it.
pub fn next_peer(finding: &Finding) -> Option<PeerNo>
    ensures { result ≡ next_peer finding.now }
{
    match *finding {
        Finding::NoRate { to }
        | Finding::OverNextCap { to, .. }
        | Finding::OverCredit { to, .. }
        | Finding::GoesOn { to, .. } => Some(to),
        _ => None,
    }
}

// The line with the next peer's name, if there is one.
fn put_next(text: &mut Vec<u8>, next: Option<&[u8]>) -> Result<(), AllocError>
    ensures { OnOk result (text.new.items ≡ text.old.items ++ next_line (option_copied next.entry)) }
{
    match next {
        Some(name) => put_words(text, b"next peer", name),
        None => Ok(()),
    }
}

// The lines of a packet that goes on.
#[tactic(auto, unfolding(crate::specs::Explaining::onward_lines))]
fn put_onward(alloc: Global, text: &mut Vec<u8>, amount: u64, expiry: u64) -> Result<(), AllocError>
    ensures { OnOk result (text.new.items ≡ text.old.items ++ onward_lines amount expiry) }
{
    text.extend_from_slice(b"now: it goes on\n")?;
    put_figure(alloc, text, b"amount", amount)?;
    put_figure(alloc, text, b"expiry", expiry)
}

// The book's answer.
fn put_answer(alloc: Global, text: &mut Vec<u8>, verdict: Verdict) -> Result<(), AllocError>
    ensures { OnOk result (text.new.items ≡ text.old.items ++ answer_line verdict) }
{
    match verdict {
        Verdict::Unknown => text.extend_from_slice(b"now: 401\n"),
        Verdict::NoRoom => text.extend_from_slice(b"now: T03, which is not recorded\n"),
        Verdict::Refuse { code, .. } => {
            text.extend_from_slice(b"now: ")?;
            text.extend_from_slice(code.letters())?;
            text.push(b'\n')?;
            Ok(())
        }
        Verdict::Fulfil => text.extend_from_slice(b"now: fulfilled with the configuration\n"),
        Verdict::Forward { amount, expiry, .. } => put_onward(alloc, text, amount, expiry),
        Verdict::Relay => Ok(()),
    }
}

// The line of the question.
fn put_asked(alloc: Global, text: &mut Vec<u8>, question: &Question<'_>) -> Result<(), AllocError>
    ensures { OnOk result (text.new.items ≡ text.old.items ++ asked_line (question_at question.now)) }
{
    text.extend_from_slice(question.peer)?;
    text.extend_from_slice(b" sends ")?;
    let amount = question.amount.to_string(alloc)?;
    text.extend_from_slice(amount.as_bytes())?;
    text.extend_from_slice(b" to ")?;
    text.extend_from_slice(question.destination.bytes())?;
    text.push(b'\n')?;
    Ok(())
}

/// The explanation of a packet: the question, the checks in their order up to the deciding one, the numbers that it compared, and
/// the book's answer. Fails only if it is out of memory.
#[tactic(auto, unfolding(crate::specs::Explaining::explained))]
pub fn explained(
    alloc: Global,
    question: &Question<'_>,
    finding: &Finding,
    next: Option<&[u8]>,
) -> Result<Vec<u8>, AllocError>
    ensures { IfOk result (λ text. text.items ≡ explained (question_at question.now) finding.now (option_copied next.entry)) }
{
    let mut text = Vec::new(alloc);
    put_asked(alloc, &mut text, question)?;
    put_passed(&mut text, passed_before(finding))?;
    text.extend_from_slice(deciding_line(finding))?;
    put_figures(alloc, &mut text, finding)?;
    put_next(&mut text, next)?;
    put_answer(alloc, &mut text, finding.verdict())?;
    Ok(text)
}
