//! Chains of statements.

ghost use Rattle.std.specs.Prelude.{◌≡◌, ◌+◌, ◌∷◌, ◌++◌, [], ℕ, ◌↔◌, false, Err, IfErr, IfOk, IsTrue, List, OnErr, OnOk, map, option_copied};
ghost use Rattle.common_types.specs.declared.read_error.ReadError.TheVariants as read_error;
ghost use Rattle.statements.specs.Chain.{Continues, IsApart, IsChain, Link, Opens};
ghost use Rattle.statements.specs.Chain.Link.{Begun, Stated};
ghost use Rattle.statements.specs.Due.{opening_due, peers_of, start_at};
ghost use Rattle.statements.specs.Gone.{IsGood};
ghost use Rattle.statements.specs.Known.{IsSameSetup};
ghost use Rattle.statements.specs.Line.{line_anew};
ghost use Rattle.statements.specs.Refused.{IsApartFrom, IsChanged, IsNotAdded, IsNotBegun, IsNotContinued, IsNotGood, IsNotJoined, IsUnlike, IsUnopened};
ghost use Rattle.statements.specs.Summary.{IsLongPast, chain_lines};
ghost use Rattle.statements.specs.Sums.{OnLong};
ghost use Rattle.statements.specs.declared.chain.ChainFault.TheVariants as fault;
ghost use Rattle.tenant_core.specs.PresentSetup.{present_setup};
ghost use Rattle.tenant_core.specs.State.{opened};

use crate::checked::{StatementFault, first_difference};
use crate::due::Due;
use crate::good::GoodStatement;
use crate::known::{goes_on, opens_as};
use crate::line::{Line, lines_anew, lines_of};
use crate::tally::{Long, Summed};
use crate::totals::{Totals, raised};
use crate::written::write_head;
use common_types::{ReadError, Token};
use ilp_addr::Moment;
use std::alloc::{AllocError, Global};
use tenant_core::{Book, Opening, Peer, Period, TenantSetup, laws};
use thiserror::Error;

/// Why a text or a setup does not go on with a chain of statements.
#[derive(Clone, Copy, Debug, PartialEq, Eq, Error)]
pub enum ChainFault {
    /// The text is not good.
    #[error("{0}")]
    Statement(StatementFault),
    /// The text is good, and does not begin with what the statement before it ended with, from that line on. Lines are counted
    /// from 1.
    #[error("line {0} is not what the statement before it ended with")]
    Apart(usize),
    /// The text is good, and does not begin with what the setup before it leads to, from that line on.
    #[error("line {0} is not what the setup leads to")]
    Unlike(usize),
    /// The setup does not have what the statement before it ended with.
    #[error("not what the statement before it ended with")]
    Changed,
    /// It goes on, and a sum has no room for what it adds.
    #[error("too long to be summed up")]
    Long,
}

/// The sums of the service's runs that ended: how many periods they had and how many records, and a line for each
/// peer.
#[derive(Drop)]
struct Past {
    periods: u64,
    entries: u64,
    lines: Vec<Line>,
}

/// Statements one after another, and setups that the service began with between them, as far as they were checked: how
/// the next one must begin, and the sums of all. It needs no more memory than one period, and sums for each peer.
#[derive(Drop)]
pub struct Chain {
    due: Due,
    past: Past,
    totals: Totals,
}

// What a good text states.
fn good_in(alloc: Global, text: &[u8]) -> Result<GoodStatement<'_>, ReadError<ChainFault>>
    ensures text { IfOk result (λ good. good.text.now ≡ text.now) }
    ensures good { IfOk result IsGood }
    ensures not { IfErr result IsNotGood }
{
    match GoodStatement::of(alloc, text) {
        Ok(good) => Ok(good),
        Err(ReadError::Memory) => Err(ReadError::Memory),
        Err(ReadError::Fault(fault)) => Err(ReadError::Fault(ChainFault::Statement(fault))),
    }
}

// The book of a tenant whose next period opens so.
fn book_of(alloc: Global, opening: &Opening) -> Result<Book, ReadError<ChainFault>>
    ensures book { IfOk result (λ book. book ≡ opened opening.now) }
    ensures fault { IfErr result (IsUnopened opening.now) }
{
    match Book::reopened(alloc, opening.copy(alloc)?) {
        Ok(book) => Ok(book),
        Err(ReadError::Memory) => Err(ReadError::Memory),
        Err(ReadError::Fault(_)) => Err(ReadError::Fault(ChainFault::Changed)),
    }
}

// The setup of a tenant whose next period opens so, as a service writes it, with that token of its operator.
pub fn present(
    alloc: Global,
    opening: &Opening,
    admin: Token,
) -> Result<TenantSetup, ReadError<ChainFault>>
    ensures present { IfOk result (λ setup. setup ≡ present_setup (opened opening.now) admin) }
    ensures fault { IfErr result (IsUnopened opening.now) }
{
    let book = book_of(alloc, opening)?;
    Ok(book.present_setup(alloc, admin)?)
}

// Whether a setup has what a tenant has whose next period opens so.
fn has(alloc: Global, opening: &Opening, setup: &TenantSetup) -> Result<bool, ReadError<ChainFault>>
    ensures has { IfOk result (λ has. IsTrue has → IsSameSetup (present_setup (opened opening.now) setup.now.admin) setup.now) }
    ensures not { IfOk result (λ has. has ≡ false → IsUnlike opening.now setup.now) }
    ensures fault { IfErr result (IsUnopened opening.now) }
{
    let present = present(alloc, opening, setup.terms().admin.copy())?;
    Ok(goes_on(alloc, present.terms(), setup.terms())?)
}

fn peers_of(opening: Option<&Opening>) -> &[Peer]
    ensures { result.now ≡ peers_of (option_copied opening.entry) }
{
    match opening {
        Some(opening) => opening.network.peers(),
        None => &[],
    }
}

impl Chain {
    // Whether the period opens with what is due.
    fn is_followed(&self, period: &Period) -> bool
        ensures { IsTrue result ↔ Opens self.now.due period.now }
    {
        match &self.due {
            Due::Anything => true,
            Due::Ending(ending) => period.opening().is_same(ending),
            Due::Setup(opening) => opens_as(period.opening(), opening),
        }
    }

    // Whether a setup has what is due of the tenant.
    fn is_continued(
        &self,
        alloc: Global,
        setup: &TenantSetup,
    ) -> Result<bool, ReadError<ChainFault>>
        ensures is { IfOk result (λ is. (place clock : ℕ) → IsTrue is → Continues self.now.due (start_at place setup.now clock)) }
        ensures not { IfOk result (λ is. is ≡ false → IsChanged self.now.due setup.now) }
        ensures fault { IfErr result (IsNotContinued self.now.due setup.now) }
    {
        match &self.due {
            Due::Anything => Ok(true),
            Due::Ending(opening) | Due::Setup(opening) => has(alloc, opening, setup),
        }
    }

    // From which line on a text does not begin with what is due, and which fault that is.
    fn apart(&self, alloc: Global, text: &[u8]) -> Result<ChainFault, AllocError>
        ensures { IfOk result (IsApartFrom self.now.due) }
    {
        match &self.due {
            Due::Anything => Ok(ChainFault::Apart(1)),
            Due::Ending(ending) => Ok(ChainFault::Apart(first_difference(
                text,
                write_head(alloc, ending)?.as_slice(),
            ))),
            Due::Setup(opening) => Ok(ChainFault::Unlike(first_difference(
                text,
                write_head(alloc, opening)?.as_slice(),
            ))),
        }
    }

    // The sums of all runs when the service begins again, with the numbers that peers have by that setup.
    fn past_anew(&self, alloc: Global, setup: &TenantSetup) -> Summed<Past>
        ensures past { IfOk result (λ past. (past.periods ≡ self.now.past.periods + self.now.totals.periods)
            × (past.entries ≡ self.now.past.entries + self.now.totals.entries)
            × (past.lines.items ≡ map (line_anew (peers_of (opening_due self.now.due)) setup.now.network.peers) (chain_lines self.now))) }
        ensures long { OnLong result (IsLongPast self.now) }
    {
        let lines = lines_of(alloc, self)?;
        let peers = peers_of(self.due.opening());
        Ok(Past {
            periods: raised(self.past.periods, self.totals.periods)?,
            entries: raised(self.past.entries, self.totals.entries)?,
            lines: lines_anew(
                alloc,
                peers,
                setup.terms().network.peers(),
                lines.as_slice(),
            )?,
        })
    }

    /// Nothing yet.
    pub fn new(alloc: Global) -> Chain
        ensures { IsChain [] result }
    {
        Chain {
            due: Due::Anything,
            past: Past {
                periods: 0,
                entries: 0,
                lines: Vec::new(alloc),
            },
            totals: Totals::new(alloc),
        }
    }

    /// How the next statement must begin, if anything came. The tokens and targets of a setup do not count.
    pub fn opening_due(&self) -> Option<&Opening>
        ensures { option_copied result ≡ opening_due self.now.due }
    {
        self.due.opening()
    }

    /// The totals of the statements since the last setup.
    pub fn totals(&self) -> &Totals
        ensures { result.now ≡ self.now.totals }
    {
        &self.totals
    }

    /// The lines of the peers of the runs that ended.
    pub fn past_lines(&self) -> &[Line]
        ensures { result.now ≡ self.now.past.lines.items }
    {
        self.past.lines.as_slice()
    }

    /// How many periods and records there are.
    pub fn counts(&self) -> Summed<(u64, u64)>
        ensures counts { IfOk result (λ counts. (counts.0 ≡ self.now.past.periods + self.now.totals.periods)
            × (counts.1 ≡ self.now.past.entries + self.now.totals.entries)) }
        ensures long { OnLong result (IsLongPast self.now) }
    {
        let periods = raised(self.past.periods, self.totals.periods)?;
        let entries = raised(self.past.entries, self.totals.entries)?;
        Ok((periods, entries))
    }

    /// Takes the next statement of the tenant, as [`GoodStatement::of`] gives it. It must begin with what the one before it ended with, or as the first
    /// period of the setup before it does.
    ///
    /// So there are closed periods of one tenant, one for each text so far. Each of them is what the rules lead to
    /// from its opening on. Each goes on where the one before it ended, or begins as the setup between them, which has
    /// what the one before it ended with.
    ///
    /// `Apart` comes exactly if the period does not open so, after a setup `Unlike`; `Long` only if it does, and a sum has
    /// no room. No other fault comes, but it may be out of memory. If the statement is refused, nothing has changed.
    pub fn join(
        &mut self,
        alloc: Global,
        good: &GoodStatement<'_>,
    ) -> Result<(), ReadError<ChainFault>>
        requires { IsGood good.now }
        ensures opens { OnOk result (Opens self.old.due good.now.gone.period) }
        ensures fault { IfErr result (IsNotJoined self.old good.now.gone.period) }
        ensures chain { OnOk result ((links : List Link) → IsChain links self.old → IsChain (links ++ Stated good.now.text.now ∷ []) self.new) }
        ensures apart { (line : ℕ) → result ≡ Err (read_error.Fault (fault.Apart line)) → IsApart good.now.text.now self.old.due }
        ensures err { OnErr result (self.new ≡ self.old) }
    {
        let gone = &good.gone;
        laws::period_is_kept(&gone.period);
        if !self.is_followed(&gone.period) {
            return Err(ReadError::Fault(self.apart(alloc, good.text)?));
        }
        let ending = gone.period.ending().copy(alloc)?;
        match self.totals.with(alloc, gone) {
            Ok(totals) => {
                self.totals = totals;
                self.due = Due::Ending(ending);
                Ok(())
            }
            Err(ReadError::Memory) => Err(ReadError::Memory),
            Err(ReadError::Fault(Long)) => Err(ReadError::Fault(ChainFault::Long)),
        }
    }

    /// Takes a text as the next statement of the tenant, as [`join`](Chain::join) does, if it is good.
    pub fn add(&mut self, alloc: Global, text: &[u8]) -> Result<(), ReadError<ChainFault>>
        ensures fault { IfErr result (IsNotAdded self.old text.now) }
        ensures chain { OnOk result ((links : List Link) → IsChain links self.old → IsChain (links ++ Stated text.now ∷ []) self.new) }
        ensures apart { (line : ℕ) → result ≡ Err (read_error.Fault (fault.Apart line)) → IsApart text.now self.old.due }
        ensures err { OnErr result (self.new ≡ self.old) }
    {
        let good = good_in(alloc, text)?;
        laws::period_is_kept(&good.gone.period);
        self.join(alloc, &good)
    }

    /// Takes a setup that the service began with, which has the tenant at that place and starts at that moment. If
    /// anything came before, the setup must have what was due of the tenant, as a running service writes it. It must
    /// have the same terms, peers with the same balances, routes and rates. Tokens and targets are not compared.
    ///
    /// `Changed` comes only if the setup does not have that, or the lists of routes differ, whose order no clause says;
    /// `Long` only if it has it, and a sum has no room. If the setup is refused, nothing has changed.
    pub fn begin(
        &mut self,
        alloc: Global,
        place: usize,
        setup: &TenantSetup,
        start: Moment,
    ) -> Result<(), ReadError<ChainFault>>
        ensures fault { IfErr result (IsNotBegun self.old (start_at place setup.now start)) }
        ensures chain { OnOk result ((links : List Link) → IsChain links self.old → IsChain (links ++ Begun (start_at place setup.now start) ∷ []) self.new) }
        ensures err { OnErr result (self.new ≡ self.old) }
    {
        if !self.is_continued(alloc, setup)? {
            return Err(ReadError::Fault(ChainFault::Changed));
        }
        let opening = Opening::first(alloc, place, setup, start)?;
        match self.past_anew(alloc, setup) {
            Ok(past) => {
                self.past = past;
                self.totals = Totals::new(alloc);
                self.due = Due::Setup(opening);
                Ok(())
            }
            Err(ReadError::Memory) => Err(ReadError::Memory),
            Err(ReadError::Fault(Long)) => Err(ReadError::Fault(ChainFault::Long)),
        }
    }
}
