//! What an operator asks of a service that runs.

ghost use Rattle.std.specs.Prelude.{◌≡◌, ◌≢◌, ◌<◌, ◌^◌, ◌-◌, ◌↔◌, ℕ, List, Option, Some, None, Err, IfOk, IfSome, true, false};
ghost use Rattle.std.specs.Str.{bytes_eq};
ghost use Rattle.atomic_table.specs.Seated.{TableId};
ghost use Rattle.http_link.specs.declared.operator_request.Topic.TheVariants as about;
ghost use Rattle.common_types.specs.Numerals.{number_in};
ghost use Rattle.service.specs.Operating.{Explains, OrMemory, States};
ghost use Rattle.service.specs.Questions.{Question as QuestionOf, question_at, question_in};

use crate::operators::question::{Question, QuestionFault, question_in};
use crate::worker::desk::Desk;
use common_types::number_in;
use http_link::{OperatorWanted, Topic};
use meters::MeterSeat;
use one_list::Run;
use std::alloc::AllocError;

/// A service that runs, as the operators of its tenants ask it.
pub trait Operated {
    /// How many tenants there are, the number of the tenant of a name, and the token of a tenant's operator.
    ghost tenants: { Self → ℕ };

    ghost numbered: { Self → List ℕ → Option ℕ };

    ghost token: { Self → ℕ → List ℕ };

    /// That a text is the present setup of a tenant; its metrics; the explanation of a packet; and the statement of a closed
    /// period.
    ghost presents: { Self → ℕ → List ℕ → Type 0 };

    ghost measures: { Self → ℕ → List ℕ → Type 0 };

    ghost explains: { Self → ℕ → QuestionOf → List ℕ → Type 0 };

    ghost states: { Self → ℕ → ℕ → List ℕ → Type 0 };

    /// Which meters are read.
    ghost read: { Self → TableId };

    /// The number of the tenant of that name.
    fn tenant_named(&self, name: &[u8]) -> Option<usize>
        ensures value { result ≡ numbered self.now name.now }
        ensures there { IfSome result (λ tenant. tenant < tenants self.now) };

    /// Whether that is the token of the tenant's operator.
    fn is_operator(&self, tenant: usize, shown: &[u8]) -> bool
        requires { tenant < tenants self.now }
        ensures { result ≡ bytes_eq (token self.now tenant) shown.now };

    /// The present setup of a tenant. Fails only if it is out of memory.
    fn present(&self, tenant: usize) -> Result<Vec<u8>, AllocError>
        requires { tenant < tenants self.now }
        ensures { IfOk result (λ text. presents self.now tenant text.items) };

    /// The metrics of a tenant, read through a seat of the meters. Fails only if it is out of memory.
    fn metrics(&self, seat: &mut MeterSeat, tenant: usize) -> Result<Vec<u8>, AllocError>
        requires seat { seat.old.meters ≡ read self.now }
        requires tenant { tenant < tenants self.now }
        ensures told { IfOk result (λ text. measures self.now tenant text.items) }
        ensures same { seat.new ≡ seat.old };

    /// Which check of a tenant decides on a packet now. Fails only if it is out of memory.
    fn explain(&self, tenant: usize, question: &Question<'_>) -> Result<Vec<u8>, AllocError>
        requires { tenant < tenants self.now }
        ensures { IfOk result (λ text. explains self.now tenant (question_at question.now) text.items) };

    /// The statement of a tenant's closed period, if there is one that can be read.
    fn statement(&self, tenant: usize, period: u64) -> Option<Vec<u8>>
        requires { tenant < tenants self.now }
        ensures { IfSome result (λ text. states self.now tenant period text.items) };
}

/// Why an operator gets no answer to its question.
#[derive(Clone, Copy, Debug, PartialEq, Eq)]
pub enum Unanswered {
    /// No tenant has the name.
    Tenant,
    /// The token is not that of the tenant's operator.
    Token,
    /// There is no such statement.
    Statement,
    /// The words are not a question.
    Question(QuestionFault),
    /// Out of memory.
    Memory,
}

impl From<AllocError> for Unanswered {
    ghost use Rattle.std.specs.Prelude.{◌≡◌};
    ghost use Rattle.service.specs.declared.operators.asking.Unanswered.TheVariants.{Memory};

    ghost from_gives = { λ error told. told ≡ Memory };

    fn from(_: AllocError) -> Unanswered {
        Unanswered::Memory
    }
}

// Which check decides on a packet now, if the words are a question.
fn explained<S: Operated>(service: &S, tenant: usize, words: &[u8]) -> Result<Vec<u8>, Unanswered>
    requires { tenant < S.tenants service.now }
    ensures told { Explains (question_in words.now) (λ question text. S.explains service.now tenant question text.items) result }
    ensures tenant { result ≢ Err Unanswered.Tenant }
    ensures token { result ≢ Err Unanswered.Token }
{
    match question_in(words) {
        Ok(question) => Ok(service.explain(tenant, &question)?),
        Err(fault) => Err(Unanswered::Question(fault)),
    }
}

// The statement of the period whose number the words are.
fn stated<S: Operated>(service: &S, tenant: usize, words: &[u8]) -> Result<Vec<u8>, Unanswered>
    requires { tenant < S.tenants service.now }
    ensures told { States (number_in 0 (2 ^ 64 - 1) words.now) (λ period text. S.states service.now tenant period text.items) result }
    ensures tenant { result ≢ Err Unanswered.Tenant }
    ensures token { result ≢ Err Unanswered.Token }
{
    let Ok(period) = number_in::<0, { u64::MAX }>(words) else {
        return Err(Unanswered::Statement);
    };
    match service.statement(tenant, period.get()) {
        Some(text) => Ok(text),
        None => Err(Unanswered::Statement),
    }
}

/// The answer to what an operator asks about its tenant, under a token. The meters are read through a desk's seat.
pub fn told_to_operator<S: Operated, J: Run>(
    service: &S,
    desk: &mut Desk<J>,
    wanted: &OperatorWanted<'_>,
    topic: Topic,
) -> Result<Vec<u8>, Unanswered>
    requires { desk.old.seat.meters ≡ S.read service.now }
    ensures unknown { (result ≡ Err Unanswered.Tenant) ↔ (S.numbered service.now wanted.now.tenant.now ≡ None) }
    ensures refused { (tenant : ℕ) → S.numbered service.now wanted.now.tenant.now ≡ Some tenant
        → ((result ≡ Err Unanswered.Token) ↔ (bytes_eq (S.token service.now tenant) wanted.now.token.now ≡ false)) }
    ensures setup { (tenant : ℕ) → S.numbered service.now wanted.now.tenant.now ≡ Some tenant
        → topic ≡ about.Setup → bytes_eq (S.token service.now tenant) wanted.now.token.now ≡ true
        → OrMemory (λ text. S.presents service.now tenant text.items) result }
    ensures metrics { (tenant : ℕ) → S.numbered service.now wanted.now.tenant.now ≡ Some tenant
        → topic ≡ about.Metrics → bytes_eq (S.token service.now tenant) wanted.now.token.now ≡ true
        → OrMemory (λ text. S.measures service.now tenant text.items) result }
    ensures explain { (tenant : ℕ) → S.numbered service.now wanted.now.tenant.now ≡ Some tenant
        → topic ≡ about.Explain → bytes_eq (S.token service.now tenant) wanted.now.token.now ≡ true
        → Explains (question_in wanted.now.words.now) (λ question text. S.explains service.now tenant question text.items) result }
    ensures statement { (tenant : ℕ) → S.numbered service.now wanted.now.tenant.now ≡ Some tenant
        → topic ≡ about.Statement → bytes_eq (S.token service.now tenant) wanted.now.token.now ≡ true
        → States (number_in 0 (2 ^ 64 - 1) wanted.now.words.now) (λ period text. S.states service.now tenant period text.items) result }
    ensures same { desk.new ≡ desk.old }
{
    let Some(tenant) = service.tenant_named(wanted.tenant) else {
        return Err(Unanswered::Tenant);
    };
    if !service.is_operator(tenant, wanted.token) {
        return Err(Unanswered::Token);
    }
    match topic {
        Topic::Setup => Ok(service.present(tenant)?),
        Topic::Metrics => Ok(service.metrics(&mut desk.seat, tenant)?),
        Topic::Explain => explained(service, tenant, wanted.words),
        Topic::Statement => stated(service, tenant, wanted.words),
    }
}
