//! Parts of the list: one for each tenant, and one for each worker.

ghost use Rattle.std.specs.Prelude.{◌≡◌, ◌<◌, true, false, [], ◌∷◌};
ghost use Rattle.one_list.specs.Rules.{claim, watching};

use crate::rule::{Pass, View};
use crate::run::Run;
use atomic_table::Badge;
use std::marker::{Model, PhantomData};

/// A tenant's part of the list. Contracts see the tenant's number, and the steps of it so far.
#[derive(Drop)]
pub struct TenantPart<J: Run> {
    pub(crate) number: u64,
    pub(crate) pass: Badge<View>,
    run: PhantomData<J>,
}

impl<J: Run> Model for TenantPart<J> {
    ghost use Rattle.std.specs.Prelude.{false, []};
    ghost use Rattle.one_list.specs.Steps.{PartView};
    ghost use Rattle.one_list.specs.Parts.{part_of, IsPart};

    ghost Value = { PartView };

    ghost view = { λ p. part_of p.number p.pass.views };

    ghost invariant = { λ p. IsPart J.table false p.number J.size.tenants [] p.pass.table_id p.pass.views };
}

/// A worker's part of the list. Contracts see the worker's number, the steps of it so far, and the tenants' steps that it has met,
/// each time as far as they had come then.
#[derive(Drop)]
pub struct WorkerPart<J: Run> {
    pub(crate) number: u64,
    pub(crate) pass: Badge<View>,
    run: PhantomData<J>,
}

impl<J: Run> Model for WorkerPart<J> {
    ghost use Rattle.std.specs.Prelude.{true};
    ghost use Rattle.one_list.specs.Steps.{WorkerView};
    ghost use Rattle.one_list.specs.Parts.{worker_part_of, met_in, IsPart};

    ghost Value = { WorkerView };

    ghost view = { λ p. worker_part_of p.number p.pass.views };

    ghost invariant = { λ p. IsPart J.table true p.number J.size.workers (met_in p.pass.views) p.pass.table_id p.pass.views };
}

/// One who meets tenants' parts of the list, and does nothing. Contracts see the tenants' steps that it has met, each time as far
/// as they had come then.
#[derive(Drop)]
pub struct Watcher<J: Run> {
    pub(crate) pass: Badge<View>,
    run: PhantomData<J>,
}

impl<J: Run> Model for Watcher<J> {
    ghost use Rattle.std.specs.Prelude.{List};
    ghost use Rattle.one_list.specs.declared.step.Beginning.{Beginning};
    ghost use Rattle.one_list.specs.Parts.{met_in, IsWatcher};

    ghost Value = { List Beginning };

    ghost view = { λ w. met_in w.pass.views };

    ghost invariant = { λ w. IsWatcher J.table J.size (met_in w.pass.views) w.pass.table_id w.pass.views };
}

impl<J: Run> Watcher<J> {
    // One whose pass has met nothing.
    pub(crate) fn new(pass: Pass) -> Watcher<J>
        requires table { pass.table_id ≡ J.table }
        requires claims { pass.me ≡ (watching J.size [], []) }
        ensures { result ≡ [] }
    {
        Watcher {
            pass: pass.into_badge(),
            run: PhantomData,
        }
    }
}

impl<J: Run> TenantPart<J> {
    // The part of which the pass claims no step.
    pub(crate) fn new(number: u64, pass: Pass) -> TenantPart<J>
        requires below { number < J.size.tenants }
        requires table { pass.table_id ≡ J.table }
        requires claims { pass.me ≡ (claim false number [] [] ∷ [], []) }
        ensures { result ≡ record { number = number; steps = [] } }
    {
        TenantPart {
            number,
            pass: pass.into_badge(),
            run: PhantomData,
        }
    }

    /// The tenant's number.
    pub fn number(&self) -> u64
        ensures value { result ≡ self.now.number }
        ensures below { result < J.size.tenants }
    {
        self.number
    }

    // The part's pass.
    pub(crate) fn into_pass(self) -> Pass
        ensures table { result.table_id ≡ J.table }
        ensures claims { result.me ≡ (claim false self.number self.steps [] ∷ [], []) }
    {
        let TenantPart {
            number: _,
            pass,
            run: _,
        } = self;
        pass.into_seat()
    }
}

impl<J: Run> WorkerPart<J> {
    // The part of which the pass claims no step.
    pub(crate) fn new(number: u64, pass: Pass) -> WorkerPart<J>
        requires below { number < J.size.workers }
        requires table { pass.table_id ≡ J.table }
        requires claims { pass.me ≡ (claim true number [] [] ∷ [], []) }
        ensures { result ≡ record { number = number; steps = []; met = [] } }
    {
        WorkerPart {
            number,
            pass: pass.into_badge(),
            run: PhantomData,
        }
    }

    /// The worker's number.
    pub fn number(&self) -> u64
        ensures value { result ≡ self.now.number }
        ensures below { result < J.size.workers }
    {
        self.number
    }

    // The part's pass.
    pub(crate) fn into_pass(self) -> Pass
        ensures table { result.table_id ≡ J.table }
        ensures claims { result.me ≡ (claim true self.number self.steps self.met ∷ [], []) }
    {
        let WorkerPart {
            number: _,
            pass,
            run: _,
        } = self;
        pass.into_seat()
    }
}
