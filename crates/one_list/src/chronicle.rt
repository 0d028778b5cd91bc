//! The list of a run, and the parts of it that are not handed out yet.

ghost use Rattle.std.specs.Prelude.{All, ◌≡◌, ◌+◌, ◌^◌, ◌<◌, ◌≤◌, ℕ, true, false, List, [], ◌∷◌, ◌++◌};
ghost use Rattle.one_list.specs.declared.step.Beginning.{Beginning};
ghost use Rattle.one_list.specs.declared.step.Done.{Done};
ghost use Rattle.one_list.specs.Rules.{AreOfOneList, claim, claims_of, first_claim, first_view, met_claims, new_claims, other_claims, table_words};
ghost use Rattle.one_list.specs.Steps.{GoesOnFrom, done_last, grown, has_met, of_tenant, of_worker, worked};
ghost use Rattle.tenant_core.specs.Limits.{max_tenants};

use crate::opened::LINE_WORDS;
use crate::parts::{TenantPart, Watcher, WorkerPart};
use crate::rule::{Add, Blank, Both, First, Look, Meet, Pass, Watch, Words, Workers};
use crate::run::Run;
use atomic_table::Badge;
use std::marker::{Model, PhantomData};
use std::mem;
use tenant_core::Journal;

/// The list of a run. Threads share it, and add their steps to it.
#[derive(Drop)]
pub struct Chronicle<J: Run> {
    words: Words,
    run: PhantomData<J>,
}

impl<J: Run> Model for Chronicle<J> {
    ghost use Rattle.one_list.specs.Parts.{IsChronicle};

    ghost Value = { Unit {0} };

    ghost view = { λ c. tt };

    ghost invariant = { λ c. IsChronicle J.table J.size c.words.shared.table_id c.words.shared.key };
}

/// The parts of a run's list that have not been handed out. Contracts see how many tenants' and how many workers' have.
#[derive(Drop)]
pub struct Unclaimed<J: Run> {
    tenants: u64,
    workers: u64,
    tenants_pass: Pass,
    workers_pass: Pass,
    run: PhantomData<J>,
}

impl<J: Run> Model for Unclaimed<J> {
    ghost use Rattle.std.specs.Prelude.{true, false};
    ghost use Rattle.one_list.specs.Parts.{UnclaimedView, IsUnclaimed};

    ghost Value = { UnclaimedView };

    ghost view = { λ u. record { tenants = u.tenants; workers = u.workers } };

    ghost invariant = { λ u. IsUnclaimed J.table false u.tenants J.size.tenants u.tenants_pass.table_id u.tenants_pass.me
        × IsUnclaimed J.table true u.workers J.size.workers u.workers_pass.table_id u.workers_pass.me };
}

impl<J: Run> Unclaimed<J> {
    // All parts, of which these passes claim no step.
    pub(crate) fn new(tenants_pass: Pass, workers_pass: Pass) -> Unclaimed<J>
        requires countable { (J.size.tenants < 2 ^ 64) × (J.size.workers < 2 ^ 64) }
        requires tables { (tenants_pass.table_id ≡ J.table) × (workers_pass.table_id ≡ J.table) }
        requires tenants { tenants_pass.me ≡ (new_claims false 0 J.size.tenants, []) }
        requires workers { workers_pass.me ≡ (new_claims true 0 J.size.workers, []) }
        ensures { result ≡ record { tenants = 0; workers = 0 } }
    {
        Unclaimed {
            tenants: 0,
            workers: 0,
            tenants_pass,
            workers_pass,
            run: PhantomData,
        }
    }
}

impl<J: Run> Chronicle<J> {
    // The list that is added to by these words.
    pub(crate) fn new(words: Words) -> Chronicle<J>
        requires table { words.shared.table_id ≡ J.table }
        requires size { words.shared.key ≡ J.size }
        requires words { J.table.words ≡ table_words }
        requires few { J.size.tenants ≤ max_tenants }
    {
        Chronicle {
            words,
            run: PhantomData,
        }
    }

    /// Hands out the part of the next tenant. They come in the order of their numbers.
    pub fn tenant_part(&self, unclaimed: &mut Unclaimed<J>) -> TenantPart<J>
        requires { unclaimed.old.tenants < J.size.tenants }
        ensures part { result ≡ record { number = unclaimed.old.tenants; steps = [] } }
        ensures rest { unclaimed.new ≡ record unclaimed.old { tenants = unclaimed.old.tenants + 1 } }
    {
        let number = unclaimed.tenants;
        let pass = self.first(&mut unclaimed.tenants_pass);
        unclaimed.tenants = number + 1;
        TenantPart::new(number, pass)
    }

    /// Hands out the part of the next worker. They come in the order of their numbers.
    pub fn worker_part(&self, unclaimed: &mut Unclaimed<J>) -> WorkerPart<J>
        requires { unclaimed.old.workers < J.size.workers }
        ensures part { result ≡ record { number = unclaimed.old.workers; steps = []; met = [] } }
        ensures rest { unclaimed.new ≡ record unclaimed.old { workers = unclaimed.old.workers + 1 } }
    {
        let number = unclaimed.workers;
        let pass = self.first(&mut unclaimed.workers_pass);
        unclaimed.workers = number + 1;
        WorkerPart::new(number, pass)
    }

    /// Adds the last record of the journal of that period to the list, as a step of this tenant by this worker. It
    /// can't fail and allocates nothing.
    pub fn record(
        &self,
        tenant: &mut TenantPart<J>,
        worker: &mut WorkerPart<J>,
        period: u64,
        journal: &Journal,
    )
        ensures tenant { tenant.new ≡ grown tenant.old (done_last worker.old.number tenant.old.number period journal.now.records) }
        ensures worker { worker.new ≡ worked worker.old (done_last worker.old.number tenant.old.number period journal.now.records) }
    {
        let mine = mem::replace(&mut tenant.pass, Badge::blank()).into_seat();
        let theirs = mem::replace(&mut worker.pass, Badge::blank()).into_seat();
        let (mine, theirs) = self.add(worker.number, tenant.number, mine, theirs, period, journal);
        tenant.pass = mine.into_badge();
        worker.pass = theirs.into_badge();
    }

    /// A tenant's part and a worker's part meet. The tenant's steps by the worker are the worker's steps for the
    /// tenant, in one order. The worker's part keeps which steps of the tenant it has met. It allocates nothing.
    pub fn meet(&self, tenant: &mut TenantPart<J>, worker: &mut WorkerPart<J>)
        ensures tenant { tenant.new ≡ tenant.old }
        ensures worker { worker.new ≡ has_met worker.old tenant.old }
        ensures shared { of_worker worker.old.number tenant.old.steps ≡ of_tenant tenant.old.number worker.old.steps }
    {
        let mine = mem::replace(&mut tenant.pass, Badge::blank()).into_seat();
        let theirs = mem::replace(&mut worker.pass, Badge::blank()).into_seat();
        let (mine, theirs) = self.introduce(tenant.number, mine, theirs);
        tenant.pass = mine.into_badge();
        worker.pass = theirs.into_badge();
    }

    /// One who has met nothing yet. There may be any number of them. It allocates nothing.
    pub fn watcher(&self) -> Watcher<J>
        ensures { result ≡ [] }
    {
        Watcher::new(self.words.shared.load_new_seat::<Watch<J>>(0).1)
    }

    /// A tenant's part and a watcher meet. The tenant's steps go on from those that the watcher has met before. The watcher keeps
    /// which steps of the tenant it has met. It allocates nothing.
    pub fn watch(&self, tenant: &mut TenantPart<J>, watcher: &mut Watcher<J>)
        ensures tenant { tenant.new ≡ tenant.old }
        ensures watcher { watcher.new ≡ watcher.old ++ record { tenant = tenant.old.number; steps = tenant.old.steps } ∷ [] }
        ensures goes_on { All (GoesOnFrom tenant.old.number tenant.old.steps) watcher.old }
    {
        let mine = mem::replace(&mut tenant.pass, Badge::blank()).into_seat();
        let theirs = mem::replace(&mut watcher.pass, Badge::blank()).into_seat();
        let (mine, theirs) = self.introduce(tenant.number, mine, theirs);
        tenant.pass = mine.into_badge();
        watcher.pass = theirs.into_badge();
    }

    // Has the pass of a worker meet that of a tenant.
    fn introduce(&self, tenant: u64, mine: Pass, theirs: Pass) -> (Pass, Pass)
        requires tables { (mine.table_id ≡ J.table) × (theirs.table_id ≡ J.table) }
        requires below { tenant < J.size.tenants }
        requires mine { (steps : List Done) × (mine.me ≡ (claim false tenant steps [] ∷ [], [])) }
        requires theirs { (worker : ℕ) × (steps : List Done) × (met : List Beginning) × (theirs.me ≡ (claim true worker steps met ∷ [], [])) }
        ensures tables { (result.0.table_id ≡ J.table) × (result.1.table_id ≡ J.table) }
        ensures free { (result.0.me.1 ≡ []) × (result.1.me.1 ≡ []) }
        ensures mine { result.0.me ≡ mine.me }
        ensures theirs { (worker : ℕ) (steps others : List Done) (met : List Beginning) → mine.me ≡ (claim false tenant steps [] ∷ [], [])
            → theirs.me ≡ (claim true worker others met ∷ [], [])
            → result.1.me ≡ (claim true worker others (met ++ record { tenant = tenant; steps = steps } ∷ []) ∷ [], []) }
        ensures shared { (worker : ℕ) (steps others : List Done) (met : List Beginning) → mine.me ≡ (claim false tenant steps [] ∷ [], [])
            → theirs.me ≡ (claim true worker others met ∷ [], []) → of_worker worker steps ≡ of_tenant tenant others }
        ensures goes_on { (worker : ℕ) (steps others : List Done) (met : List Beginning) → mine.me ≡ (claim false tenant steps [] ∷ [], [])
            → theirs.me ≡ (claim true worker others met ∷ [], []) → All (GoesOnFrom tenant steps) met }
    {
        let words = &self.words.shared;
        let mut both = theirs;
        words.join_seat::<Both>(&mut both, mine);
        words.load::<Meet<J>>(&mut both, word_of(tenant));
        let theirs = words.split_seat::<First>(&mut both);
        (both, theirs)
    }

    // Adds the last record of the journal of that period to the list, for the tenant and the worker whose passes these are.
    fn add(
        &self,
        worker: u64,
        tenant: u64,
        mine: Pass,
        theirs: Pass,
        period: u64,
        journal: &Journal,
    ) -> (Pass, Pass)
        requires tables { (mine.table_id ≡ J.table) × (theirs.table_id ≡ J.table) }
        requires below { (tenant < J.size.tenants) × (worker < J.size.workers) }
        requires mine { (steps : List Done) × (mine.me ≡ (claim false tenant steps [] ∷ [], [])) }
        requires theirs { (steps : List Done) × (met : List Beginning) × (theirs.me ≡ (claim true worker steps met ∷ [], [])) }
        ensures tables { (result.0.table_id ≡ J.table) × (result.1.table_id ≡ J.table) }
        ensures free { (result.0.me.1 ≡ []) × (result.1.me.1 ≡ []) }
        ensures mine { (steps : List Done) → mine.me ≡ (claim false tenant steps [] ∷ [], [])
            → result.0.me ≡ (claim false tenant (steps ++ done_last worker tenant period journal.now.records) [] ∷ [], []) }
        ensures theirs { (steps : List Done) (met : List Beginning) → theirs.me ≡ (claim true worker steps met ∷ [], [])
            → result.1.me ≡ (claim true worker (steps ++ done_last worker tenant period journal.now.records) met ∷ [], []) }
    {
        let words = &self.words.shared;
        let mut both = theirs;
        words.join_seat::<Both>(&mut both, mine);
        let word = word_of(tenant);
        words.compare_exchange_with::<Add>(&mut both, word, 0, period, journal);
        let theirs = words.split_seat::<First>(&mut both);
        (both, theirs)
    }

    // A pass with no claim.
    pub(crate) fn blank(&self) -> Pass
        ensures { (result.table_id ≡ J.table) × (result.me ≡ ([], [])) }
    {
        self.words.shared.load_new_seat::<Blank>(0).1
    }

    // Puts two passes together.
    pub(crate) fn join(&self, pass: &mut Pass, other: Pass)
        requires tables { (pass.old.table_id ≡ J.table) × (other.table_id ≡ J.table) }
        requires other { other.me.1 ≡ [] }
        ensures table { pass.new.table_id ≡ J.table }
        ensures me { pass.new.me ≡ (pass.old.me.0 ++ other.me.0, pass.old.me.1) }
    {
        self.words.shared.join_seat::<Both>(pass, other);
    }

    // Takes the first claim of a pass.
    fn first(&self, pass: &mut Pass) -> Pass
        requires { pass.old.table_id ≡ J.table }
        ensures tables { (pass.new.table_id ≡ J.table) × (result.table_id ≡ J.table) }
        ensures rest { pass.new.me ≡ (other_claims pass.old.me.0, pass.old.me.1) }
        ensures first { result.me ≡ (first_claim pass.old.me.0, []) }
    {
        self.words.shared.split_seat::<First>(pass)
    }

    // Takes the workers' claims of a pass, and leaves the tenants'.
    pub(crate) fn workers(&self, pass: &mut Pass) -> Pass
        requires { pass.old.table_id ≡ J.table }
        ensures tables { (pass.new.table_id ≡ J.table) × (result.table_id ≡ J.table) }
        ensures rest { pass.new.me ≡ (claims_of false pass.old.me.0, pass.old.me.1) }
        ensures workers { result.me ≡ (claims_of true pass.old.me.0, []) }
    {
        self.words.shared.split_seat::<Workers>(pass)
    }

    // There is one list by which the claims of the pass are right. They stay the same. That word is read.
    pub(crate) fn look(&self, pass: &mut Pass, word: usize)
        requires table { pass.old.table_id ≡ J.table }
        requires word { word < table_words }
        ensures told { AreOfOneList J.size pass.old.me.0 }
        ensures table { pass.new.table_id ≡ J.table }
        ensures same { pass.new.me ≡ pass.old.me }
    {
        self.words.shared.load::<Look<J>>(pass, word);
    }
}

// The word of a tenant, on a line of its own.
fn word_of(tenant: u64) -> usize
    requires { tenant < max_tenants }
    ensures { result < table_words }
{
    (tenant as usize + 1) * LINE_WORDS
}
