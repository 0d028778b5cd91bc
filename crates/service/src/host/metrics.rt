//! The counts of a service that runs, in the text format of Prometheus (version 0.0.4).

ghost use Rattle.std.specs.Prelude.{◌≡◌, ◌++◌, ◌∷◌, [], ◌<◌, ◌≤◌, ℕ, length, vec_len, Some, IfOk, OnOk};
ghost use Rattle.std.specs.List.{slice_get};
ghost use Rattle.atomic_table.specs.Seated.{TableId};
ghost use Rattle.meters.specs.declared.kind.Kind as meter;
ghost use Rattle.service.specs.declared.host.metrics.TenantCounts as told;
ghost use Rattle.service.specs.Metrics.{AreRead, all_outcomes, answers_of, bit, detail_line, detail_name, details_of, details_text, each_text};
ghost use Rattle.service.specs.Metrics.{family_head, family_line, family_name, figure_of, figures_of, help_of, label_of, log_text, metrics_text, number_text};
ghost use Rattle.service.specs.Metrics.{outcome_word, outcomes_text, packets_of, service_text, single_text, statements_text, tenants_text, type_of, unanswered_of};

use crate::breakers::BreakerUse;
use books_shared::{PacketCounts, PacketOutcome};
use common_types::Name;
use meters::{Kind, MeterSeat};
use std::alloc::{AllocError, Global};
use tenant_core::{Book, RejectCode};
use workers::PlaceUse;

/// The figures of a tenant's book.
#[derive(Clone, Copy)]
pub struct BookFigures {
    /// The running period, its entries, and how many it has room for.
    pub period: u64,
    pub entries: u64,
    pub journal_places: u64,
    /// How many packets await their answers.
    pub open_holds: u64,
}

/// What became of a tenant's packets since the service began.
#[derive(Clone, Copy)]
pub struct PacketFigures {
    /// By what the journal says.
    pub outcomes: PacketCounts,
    /// How many packets found the journal full. They are no entries.
    pub full_journals: u64,
    /// For how many packets a peer's answer was neither a Fulfill nor a Reject.
    pub bad_answers: u64,
}

/// What is counted of a tenant, at one moment.
#[derive(Clone, Copy)]
pub struct TenantCounts<'a> {
    pub name: &'a Name,
    /// How many packets and commands were answered with status 200, with a 4xx, and with 503.
    pub answered: u64,
    pub refused: u64,
    pub unavailable: u64,
    /// How often a peer gave no usable answer, or no place was free in time.
    pub link_faults: u64,
    /// How many commands and questions came under a token that is not the operator's.
    pub refused_tokens: u64,
    pub places: PlaceUse,
    pub breakers: BreakerUse,
    pub packets: PacketFigures,
    pub book: BookFigures,
    /// How many closed periods wait for their statements to be written.
    pub statements: u64,
}

/// What is counted of the journal on disk, at one moment.
#[derive(Clone, Copy)]
pub struct LogCounts {
    /// How many bytes of its log are left.
    pub left: u64,
    /// For how many milliseconds the write that is under way has taken; none if none is.
    pub write_time: u64,
    /// How many milliseconds ago the last write was synced.
    pub since_sync: u64,
}

/// What is counted of the whole service, at one moment.
#[derive(Clone, Copy)]
pub struct ServiceCounts {
    /// Whether connections are accepted.
    pub accepts: bool,
    /// How many connections are open, and how many threads wait for one.
    pub open: u64,
    pub waiting: u64,
    /// Whether statements of closed periods are kept.
    pub states: bool,
    /// The journal on disk, if one is kept.
    pub log: Option<LogCounts>,
}

/// The source of the present numbers of tenants.
pub trait Gauges {
    ghost use Rattle.workers.specs.declared.places.PlaceUse.{PlaceUse};
    ghost use Rattle.service.specs.declared.breakers.BreakerUse.{BreakerUse};
    ghost use Rattle.service.specs.declared.host.metrics.BookFigures.{BookFigures};
    ghost use Rattle.service.specs.declared.host.metrics.PacketFigures.{PacketFigures};

    /// How many tenants there are, and which meters are read.
    ghost tenants: { Self → ℕ };

    ghost meters: { Self → TableId };

    /// That it told that number: of a tenant and a kind, of its refused tokens, of its places, of its breakers, of its packets, of
    /// its book, and of its statements that wait.
    ghost tells: { Self → ℕ → meter.Kind → ℕ → Type 0 };

    ghost tells_tokens: { Self → ℕ → ℕ → Type 0 };

    ghost tells_places: { Self → ℕ → PlaceUse → Type 0 };

    ghost tells_breakers: { Self → ℕ → BreakerUse → Type 0 };

    ghost tells_packets: { Self → ℕ → PacketFigures → Type 0 };

    ghost tells_book: { Self → ℕ → BookFigures → Type 0 };

    ghost tells_statements: { Self → ℕ → ℕ → Type 0 };

    /// How many of a kind were counted for a tenant, read through a seat of the meters.
    fn counted(&self, seat: &mut MeterSeat, tenant: usize, kind: Kind) -> u64
        requires seat { seat.old.meters ≡ meters self.now }
        requires tenant { tenant < tenants self.now }
        ensures told { tells self.now tenant kind result }
        ensures same { seat.new ≡ seat.old };

    /// How many commands and questions came for a tenant under a token that is not its operator's.
    fn refused_tokens(&self, tenant: usize) -> u64
        ensures { tells_tokens self.now tenant result };

    /// The places of a tenant: its share, those in use, and the packets that wait.
    fn places(&self, tenant: usize) -> PlaceUse
        ensures { tells_places self.now tenant result };

    /// The breakers of a tenant's peers: how many rest, and the packets that were not sent.
    fn breakers(&self, tenant: usize) -> BreakerUse
        ensures { tells_breakers self.now tenant result };

    /// What became of a tenant's packets.
    fn packets(&self, tenant: usize) -> PacketFigures
        requires { tenant < tenants self.now }
        ensures { tells_packets self.now tenant result };

    /// The figures of a tenant's book.
    fn book(&self, tenant: usize) -> BookFigures
        requires { tenant < tenants self.now }
        ensures { tells_book self.now tenant result };

    /// How many closed periods of a tenant wait for their statements to be written.
    fn statements(&self, tenant: usize) -> u64
        ensures { tells_statements self.now tenant result };
}

/// The figures of a book.
pub fn figures_of(book: &Book) -> BookFigures
    ensures { result ≡ figures_of book.now }
{
    BookFigures {
        period: book.period(),
        entries: book.entries() as u64,
        journal_places: book.journal_places(),
        open_holds: book.open_holds() as u64,
    }
}

/// The counts of the tenant with that number and name.
pub fn counts_of<'a, G: Gauges>(
    gauges: &G,
    seat: &mut MeterSeat,
    tenant: usize,
    name: &'a Name,
) -> TenantCounts<'a>
    requires seat { seat.old.meters ≡ G.meters gauges.now }
    requires tenant { tenant < G.tenants gauges.now }
    ensures same { seat.new ≡ seat.old }
    ensures name { result.name.now ≡ name.now }
    ensures read { AreRead (G.tells gauges.now tenant) (G.tells_tokens gauges.now tenant) (G.tells_places gauges.now tenant)
        (G.tells_breakers gauges.now tenant) (G.tells_packets gauges.now tenant) (G.tells_book gauges.now tenant) (G.tells_statements gauges.now tenant) result }
{
    TenantCounts {
        name,
        answered: gauges.counted(seat, tenant, Kind::Answered),
        refused: gauges.counted(seat, tenant, Kind::ClientError),
        unavailable: gauges.counted(seat, tenant, Kind::Unavailable),
        link_faults: gauges.counted(seat, tenant, Kind::LinkFault),
        refused_tokens: gauges.refused_tokens(tenant),
        places: gauges.places(tenant),
        breakers: gauges.breakers(tenant),
        packets: gauges.packets(tenant),
        book: gauges.book(tenant),
        statements: gauges.statements(tenant),
    }
}

/// The counts of the tenants of these names, in their order. Fails only if it is out of memory.
pub fn all_counts<'a, G: Gauges>(
    alloc: Global,
    gauges: &G,
    seat: &mut MeterSeat,
    names: &'a [Name],
) -> Result<Vec<TenantCounts<'a>>, AllocError>
    requires seat { seat.old.meters ≡ G.meters gauges.now }
    requires tenants { length names.now ≤ G.tenants gauges.now }
    ensures same { seat.new ≡ seat.old }
    ensures each { IfOk result (λ all. vec_len all ≡ length names.now) }
    ensures read { IfOk result (λ all. (tenant : ℕ) (counts : told.TenantCounts) → slice_get all.items tenant ≡ Some counts
        → (slice_get names.now tenant ≡ Some counts.name.now)
        × AreRead (G.tells gauges.now tenant) (G.tells_tokens gauges.now tenant) (G.tells_places gauges.now tenant)
        (G.tells_breakers gauges.now tenant) (G.tells_packets gauges.now tenant) (G.tells_book gauges.now tenant) (G.tells_statements gauges.now tenant) counts) }
{
    let mut all = Vec::with_capacity(alloc, names.len())?;
    for tenant in 0..names.len() {
        all.push_reserved(counts_of(gauges, seat, tenant, &names[tenant]));
    }
    Ok(all)
}

/// Numbers of one name.
#[derive(Clone, Copy, Debug, PartialEq, Eq)]
enum Family {
    /// Of the whole service.
    Accepts,
    Open,
    Waiting,
    /// Of the whole service, if it keeps a journal on disk.
    LogLeft,
    LogWrite,
    LogSynced,
    /// Of each tenant, three by the status of the answer.
    Answers,
    /// Of each tenant, sixteen by what became of the packet.
    Packets,
    /// Of each tenant, three by the cause.
    Unanswered,
    /// Of each tenant, one.
    PeersResting,
    PacketsSkipped,
    LinkFaults,
    RefusedTokens,
    PlacesShare,
    PlacesUsed,
    PlacesAwaited,
    Period,
    Entries,
    JournalPlaces,
    OpenHolds,
    StatementsWaiting,
}

impl Family {
    fn name(self) -> &'static [u8]
        ensures { result.now ≡ family_name self }
    {
        match self {
            Family::Accepts => b"ilpd_accepts_connections",
            Family::Open => b"ilpd_connections_open",
            Family::Waiting => b"ilpd_threads_waiting",
            Family::LogLeft => b"ilpd_log_left_bytes",
            Family::LogWrite => b"ilpd_log_write_milliseconds",
            Family::LogSynced => b"ilpd_log_synced_milliseconds",
            Family::Answers => b"ilpd_answers_total",
            Family::Packets => b"ilpd_packets_total",
            Family::Unanswered => b"ilpd_unanswered_total",
            Family::PeersResting => b"ilpd_peers_resting",
            Family::PacketsSkipped => b"ilpd_packets_skipped_total",
            Family::LinkFaults => b"ilpd_link_faults_total",
            Family::RefusedTokens => b"ilpd_operator_tokens_refused_total",
            Family::PlacesShare => b"ilpd_places_share",
            Family::PlacesUsed => b"ilpd_places_used",
            Family::PlacesAwaited => b"ilpd_places_awaited",
            Family::Period => b"ilpd_period",
            Family::Entries => b"ilpd_journal_entries",
            Family::JournalPlaces => b"ilpd_journal_places",
            Family::OpenHolds => b"ilpd_holds_open",
            Family::StatementsWaiting => b"ilpd_statements_waiting",
        }
    }

    fn help(self) -> &'static [u8]
        ensures { result.now ≡ help_of self }
    {
        match self {
            Family::Accepts => b"Whether connections are accepted: 1 or 0.",
            Family::Open => b"Connections that are open.",
            Family::Waiting => b"Threads that wait for a connection.",
            Family::LogLeft => b"Bytes of the journal's log on disk that are left.",
            Family::LogWrite =>
                b"For how many milliseconds the write of the log has taken that is under way, or 0.",
            Family::LogSynced => b"How many milliseconds ago the log was synced last.",
            Family::Answers =>
                b"Packets and commands that were answered, by the status of the answer.",
            Family::Packets => b"Packets that the tenant decided, by what became of them.",
            Family::Unanswered => b"Packets that went on and got no usable answer, by the cause.",
            Family::PeersResting => b"Peers that rest: five packets in a row got no answer.",
            Family::PacketsSkipped => b"Packets that were not sent on, since the peer rested.",
            Family::LinkFaults =>
                b"Packets that no peer answered with status 200, or for which no place was free in time. A bad answer is not counted.",
            Family::RefusedTokens =>
                b"Commands and questions under a token that is not the operator's.",
            Family::PlacesShare => b"Places of which the tenant is sure.",
            Family::PlacesUsed =>
                b"Places that the tenant uses: its packets that are with a next peer.",
            Family::PlacesAwaited => b"Packets of the tenant that wait for a place.",
            Family::Period => b"The number of the running period.",
            Family::Entries => b"Entries of the running period.",
            Family::JournalPlaces => b"Entries that a period has room for, beside its roll.",
            Family::OpenHolds => b"Packets that went on and await their answers.",
            Family::StatementsWaiting =>
                b"Closed periods whose statements are still to be written.",
        }
    }

    // What its lines tell apart beside the tenant.
    fn detail(self) -> &'static [u8]
        ensures { result.now ≡ detail_name self }
    {
        match self {
            Family::Answers => b"status",
            Family::Packets => b"outcome",
            Family::Unanswered => b"cause",
            _ => b"",
        }
    }

    // Whether its numbers only grow.
    fn kind(self) -> &'static [u8]
        ensures { result.now ≡ type_of self }
    {
        match self {
            Family::Answers
            | Family::Packets
            | Family::Unanswered
            | Family::PacketsSkipped
            | Family::LinkFaults
            | Family::RefusedTokens => b"counter",
            _ => b"gauge",
        }
    }
}

impl TenantCounts<'_> {
    // The number that a family has of a tenant.
    fn get(&self, family: Family) -> u64
        ensures { result ≡ figure_of family self.now }
    {
        match family {
            Family::PeersResting => self.breakers.resting,
            Family::PacketsSkipped => self.breakers.skipped,
            Family::LinkFaults => self.link_faults,
            Family::RefusedTokens => self.refused_tokens,
            Family::PlacesShare => self.places.share as u64,
            Family::PlacesUsed => self.places.used as u64,
            Family::PlacesAwaited => self.places.waiting as u64,
            Family::Period => self.book.period,
            Family::Entries => self.book.entries,
            Family::JournalPlaces => self.book.journal_places,
            Family::OpenHolds => self.book.open_holds,
            Family::StatementsWaiting => self.statements,
            Family::Accepts | Family::Open | Family::Waiting => 0,
            Family::LogLeft | Family::LogWrite | Family::LogSynced => 0,
            Family::Answers | Family::Packets | Family::Unanswered => 0,
        }
    }
}

// The lines before the numbers of a family.
#[tactic(auto, unfolding(crate::specs::Metrics::family_head))]
fn put_head(text: &mut Vec<u8>, family: Family) -> Result<(), AllocError>
    ensures { OnOk result (text.new.items ≡ text.old.items ++ family_head family) }
{
    text.extend_from_slice(b"# HELP ")?;
    text.extend_from_slice(family.name())?;
    text.extend_from_slice(b" ")?;
    text.extend_from_slice(family.help())?;
    text.extend_from_slice(b"\n# TYPE ")?;
    text.extend_from_slice(family.name())?;
    text.extend_from_slice(b" ")?;
    text.extend_from_slice(family.kind())?;
    text.extend_from_slice(b"\n")
}

/// The number that ends a line.
pub fn put_number(alloc: Global, text: &mut Vec<u8>, number: u64) -> Result<(), AllocError>
    ensures { OnOk result (text.new.items ≡ text.old.items ++ number_text number) }
{
    text.extend_from_slice(b" ")?;
    let digits = number.to_string(alloc)?;
    text.extend_from_slice(digits.as_bytes())?;
    text.extend_from_slice(b"\n")
}

// A family of one number.
#[tactic(auto, unfolding(crate::specs::Metrics::single_text))]
fn put_single(
    alloc: Global,
    text: &mut Vec<u8>,
    family: Family,
    number: u64,
) -> Result<(), AllocError>
    ensures { OnOk result (text.new.items ≡ text.old.items ++ single_text family number) }
{
    put_head(text, family)?;
    text.extend_from_slice(family.name())?;
    put_number(alloc, text, number)
}

// Whose number it is.
#[tactic(auto, unfolding(crate::specs::Metrics::label_of))]
fn put_label(text: &mut Vec<u8>, family: Family, tenant: &Name) -> Result<(), AllocError>
    ensures { OnOk result (text.new.items ≡ text.old.items ++ label_of family tenant.now) }
{
    text.extend_from_slice(family.name())?;
    text.extend_from_slice(b"{tenant=\"")?;
    text.extend_from_slice(tenant.as_bytes())?;
    text.extend_from_slice(b"\"")
}

// The line of a tenant's number.
#[tactic(auto, unfolding(crate::specs::Metrics::family_line))]
fn put_line(
    alloc: Global,
    text: &mut Vec<u8>,
    family: Family,
    tenant: &Name,
    number: u64,
) -> Result<(), AllocError>
    ensures { OnOk result (text.new.items ≡ text.old.items ++ family_line family tenant.now number) }
{
    put_label(text, family, tenant)?;
    text.extend_from_slice(b"}")?;
    put_number(alloc, text, number)
}

// The line of a tenant's number that has a detail.
#[tactic(auto, unfolding(crate::specs::Metrics::detail_line))]
fn put_detail(
    alloc: Global,
    text: &mut Vec<u8>,
    family: Family,
    tenant: &Name,
    detail: &[u8],
    number: u64,
) -> Result<(), AllocError>
    ensures { OnOk result (text.new.items ≡ text.old.items ++ detail_line family tenant.now detail.now number) }
{
    put_label(text, family, tenant)?;
    text.extend_from_slice(b",")?;
    text.extend_from_slice(family.detail())?;
    text.extend_from_slice(b"=\"")?;
    text.extend_from_slice(detail)?;
    text.extend_from_slice(b"\"}")?;
    put_number(alloc, text, number)
}

// How many answers of a tenant had each status.
#[tactic(auto, unfolding(crate::specs::Metrics::answers_of))]
fn put_answers(
    alloc: Global,
    text: &mut Vec<u8>,
    counts: &TenantCounts<'_>,
) -> Result<(), AllocError>
    ensures { OnOk result (text.new.items ≡ text.old.items ++ answers_of counts.now) }
{
    let (family, name) = (Family::Answers, counts.name);
    put_detail(alloc, text, family, name, b"200", counts.answered)?;
    put_detail(alloc, text, family, name, b"4xx", counts.refused)?;
    put_detail(alloc, text, family, name, b"503", counts.unavailable)
}

// How many packets of a tenant got no usable answer, by the cause.
#[tactic(auto, unfolding(crate::specs::Metrics::unanswered_of))]
fn put_unanswered(
    alloc: Global,
    text: &mut Vec<u8>,
    counts: &TenantCounts<'_>,
) -> Result<(), AllocError>
    ensures { OnOk result (text.new.items ≡ text.old.items ++ unanswered_of counts.now) }
{
    let (family, name) = (Family::Unanswered, counts.name);
    put_detail(alloc, text, family, name, b"no_place", counts.places.missed)?;
    put_detail(
        alloc,
        text,
        family,
        name,
        b"no_answer",
        counts.places.unanswered,
    )?;
    put_detail(
        alloc,
        text,
        family,
        name,
        b"bad_answer",
        counts.packets.bad_answers,
    )
}

/// The word for an outcome: its code, if the packet was refused.
pub fn outcome_word(outcome: PacketOutcome) -> &'static [u8]
    ensures { result.now ≡ outcome_word outcome }
{
    match outcome {
        PacketOutcome::Fulfilled => b"fulfilled",
        PacketOutcome::Rejected => b"rejected",
        PacketOutcome::Configured => b"configured",
        PacketOutcome::Refused(code) => code.letters(),
    }
}

/// All outcomes that a journal has.
pub fn all_outcomes() -> [PacketOutcome; 15]
    ensures { result ≡ all_outcomes }
{
    [
        PacketOutcome::Fulfilled,
        PacketOutcome::Rejected,
        PacketOutcome::Configured,
        PacketOutcome::Refused(RejectCode::BadRequest),
        PacketOutcome::Refused(RejectCode::Unreachable),
        PacketOutcome::Refused(RejectCode::InvalidAmount),
        PacketOutcome::Refused(RejectCode::WrongCondition),
        PacketOutcome::Refused(RejectCode::AmountTooLarge),
        PacketOutcome::Refused(RejectCode::PeerUnreachable),
        PacketOutcome::Refused(RejectCode::Busy),
        PacketOutcome::Refused(RejectCode::InsufficientLiquidity),
        PacketOutcome::Refused(RejectCode::RateLimited),
        PacketOutcome::Refused(RejectCode::TimedOut),
        PacketOutcome::Refused(RejectCode::InsufficientSource),
        PacketOutcome::Refused(RejectCode::InsufficientTimeout),
    ]
}

// How many packets of a tenant had each of these outcomes.
#[tactic(auto, unfolding(crate::specs::Metrics::outcomes_text))]
fn put_outcomes(
    alloc: Global,
    text: &mut Vec<u8>,
    counts: &TenantCounts<'_>,
    outcomes: &[PacketOutcome],
) -> Result<(), AllocError>
    ensures { OnOk result (text.new.items ≡ text.old.items ++ outcomes_text counts.now outcomes.now) }
{
    for outcome in outcomes {
        let number = counts.packets.outcomes.get(*outcome);
        let word = outcome_word(*outcome);
        put_detail(alloc, text, Family::Packets, counts.name, word, number)?;
    }
    Ok(())
}

// What became of a tenant's packets.
#[tactic(auto, unfolding(crate::specs::Metrics::packets_of))]
fn put_packets(
    alloc: Global,
    text: &mut Vec<u8>,
    counts: &TenantCounts<'_>,
) -> Result<(), AllocError>
    ensures { OnOk result (text.new.items ≡ text.old.items ++ packets_of counts.now) }
{
    put_outcomes(alloc, text, counts, &all_outcomes())?;
    let full = counts.packets.full_journals;
    put_detail(
        alloc,
        text,
        Family::Packets,
        counts.name,
        b"journal_full",
        full,
    )
}

// The lines of a tenant in a family of several.
fn put_details(
    alloc: Global,
    text: &mut Vec<u8>,
    family: Family,
    counts: &TenantCounts<'_>,
) -> Result<(), AllocError>
    ensures { OnOk result (text.new.items ≡ text.old.items ++ details_of family counts.now) }
{
    match family {
        Family::Answers => put_answers(alloc, text, counts),
        Family::Packets => put_packets(alloc, text, counts),
        Family::Unanswered => put_unanswered(alloc, text, counts),
        _ => Ok(()),
    }
}

// A family of several numbers of each tenant.
#[tactic(auto, unfolding(crate::specs::Metrics::details_text))]
fn put_all_details(
    alloc: Global,
    text: &mut Vec<u8>,
    family: Family,
    all: &[TenantCounts<'_>],
) -> Result<(), AllocError>
    ensures { OnOk result (text.new.items ≡ text.old.items ++ details_text family all.now) }
{
    put_head(text, family)?;
    for counts in all {
        put_details(alloc, text, family, counts)?;
    }
    Ok(())
}

// A number of each tenant.
#[tactic(auto, unfolding(crate::specs::Metrics::each_text))]
fn put_each(
    alloc: Global,
    text: &mut Vec<u8>,
    family: Family,
    all: &[TenantCounts<'_>],
) -> Result<(), AllocError>
    ensures { OnOk result (text.new.items ≡ text.old.items ++ each_text family all.now) }
{
    put_head(text, family)?;
    for counts in all {
        put_line(alloc, text, family, counts.name, counts.get(family))?;
    }
    Ok(())
}

// The lines of the whole service.
#[tactic(auto, unfolding(crate::specs::Metrics::service_text))]
fn put_service(alloc: Global, text: &mut Vec<u8>, service: ServiceCounts) -> Result<(), AllocError>
    ensures { OnOk result (text.new.items ≡ text.old.items ++ service_text service) }
{
    put_single(alloc, text, Family::Accepts, bit(service.accepts))?;
    put_single(alloc, text, Family::Open, service.open)?;
    put_single(alloc, text, Family::Waiting, service.waiting)
}

// The lines of the journal on disk, if one is kept.
fn put_log(alloc: Global, text: &mut Vec<u8>, log: Option<LogCounts>) -> Result<(), AllocError>
    ensures { OnOk result (text.new.items ≡ text.old.items ++ log_text log) }
{
    let Some(log) = log else {
        return Ok(());
    };
    put_single(alloc, text, Family::LogLeft, log.left)?;
    put_single(alloc, text, Family::LogWrite, log.write_time)?;
    put_single(alloc, text, Family::LogSynced, log.since_sync)
}

fn bit(holds: bool) -> u64
    ensures { result ≡ bit holds }
{
    u64::from(holds)
}

// The lines of the tenants.
#[tactic(auto, unfolding(crate::specs::Metrics::tenants_text))]
fn put_tenants(
    alloc: Global,
    text: &mut Vec<u8>,
    all: &[TenantCounts<'_>],
) -> Result<(), AllocError>
    ensures { OnOk result (text.new.items ≡ text.old.items ++ tenants_text all.now) }
{
    put_all_details(alloc, text, Family::Answers, all)?;
    put_all_details(alloc, text, Family::Packets, all)?;
    put_all_details(alloc, text, Family::Unanswered, all)?;
    put_each(alloc, text, Family::PeersResting, all)?;
    put_each(alloc, text, Family::PacketsSkipped, all)?;
    put_each(alloc, text, Family::LinkFaults, all)?;
    put_each(alloc, text, Family::RefusedTokens, all)?;
    put_each(alloc, text, Family::PlacesShare, all)?;
    put_each(alloc, text, Family::PlacesUsed, all)?;
    put_each(alloc, text, Family::PlacesAwaited, all)?;
    put_each(alloc, text, Family::Period, all)?;
    put_each(alloc, text, Family::Entries, all)?;
    put_each(alloc, text, Family::JournalPlaces, all)?;
    put_each(alloc, text, Family::OpenHolds, all)
}

// The lines of the statements, if they are kept.
fn put_statements(
    alloc: Global,
    text: &mut Vec<u8>,
    states: bool,
    all: &[TenantCounts<'_>],
) -> Result<(), AllocError>
    ensures { OnOk result (text.new.items ≡ text.old.items ++ statements_text states all.now) }
{
    if states {
        put_each(alloc, text, Family::StatementsWaiting, all)?;
    }
    Ok(())
}

/// The metrics of a service and of its tenants. Fails only if it is out of memory.
pub fn metrics_text(
    alloc: Global,
    service: ServiceCounts,
    all: &[TenantCounts<'_>],
) -> Result<Vec<u8>, AllocError>
    ensures { IfOk result (λ text. text.items ≡ metrics_text service all.now) }
{
    let mut text = Vec::new(alloc);
    put_service(alloc, &mut text, service)?;
    put_log(alloc, &mut text, service.log)?;
    put_tenants(alloc, &mut text, all)?;
    put_statements(alloc, &mut text, service.states, all)?;
    Ok(text)
}

/// The metrics of one tenant: its rows of the service's metrics, also of statements if the service keeps some. Fails only if it is
/// out of memory.
pub fn tenant_metrics_text(
    alloc: Global,
    states: bool,
    counts: TenantCounts<'_>,
) -> Result<Vec<u8>, AllocError>
    ensures { IfOk result (λ text. text.items ≡ tenants_text (counts.entry ∷ []) ++ statements_text states (counts.entry ∷ [])) }
{
    let mut text = Vec::new(alloc);
    let all = [counts];
    put_tenants(alloc, &mut text, &all)?;
    put_statements(alloc, &mut text, states, &all)?;
    Ok(text)
}
