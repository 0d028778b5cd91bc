//! Parts of a list that are put together again.

ghost use Rattle.std.specs.Prelude.{◌≡◌, [], ◌∷◌, ◌++◌};
ghost use Rattle.one_list.specs.Steps.{HaveOneList};

use crate::chronicle::Chronicle;
use crate::parts::{TenantPart, WorkerPart};
use crate::rule::Pass;
use crate::run::Run;
use std::marker::{Model, PhantomData};

/// Parts of a run's list that are put together again. Contracts see the tenants' parts and the workers', each in the order
/// in which they came.
#[derive(Drop)]
pub struct Gathering<J: Run> {
    pass: Pass,
    run: PhantomData<J>,
}

impl<J: Run> Model for Gathering<J> {
    ghost use Rattle.one_list.specs.Parts.{GatheringView, IsGathering, gathered};

    ghost Value = { GatheringView };

    ghost view = { λ g. gathered g.pass.me.0 };

    ghost invariant = { λ g. IsGathering J.table g.pass.table_id g.pass.me };
}

impl<J: Run> Gathering<J> {
    /// No part yet.
    pub fn new(chronicle: &Chronicle<J>) -> Gathering<J>
        ensures { result ≡ record { tenants = []; workers = [] } }
    {
        Gathering {
            pass: chronicle.blank(),
            run: PhantomData,
        }
    }

    /// Takes in a tenant's part.
    pub fn add_tenant(&mut self, chronicle: &Chronicle<J>, part: TenantPart<J>)
        ensures { self.new ≡ record self.old { tenants = self.old.tenants ++ part ∷ [] } }
    {
        chronicle.join(&mut self.pass, part.into_pass());
    }

    /// Takes in a worker's part.
    pub fn add_worker(&mut self, chronicle: &Chronicle<J>, part: WorkerPart<J>)
        ensures { self.new ≡ record self.old { workers = self.old.workers ++ part ∷ [] } }
    {
        chronicle.join(&mut self.pass, part.into_pass());
    }

    /// Ends it. There is one list, of which it has each of these parts: just those steps, in their order. And every step of
    /// it is of one of the tenants by one of the workers.
    pub fn close(self, chronicle: &Chronicle<J>)
        ensures { HaveOneList J.size self.tenants self.workers }
    {
        let Gathering { mut pass, run: _ } = self;
        chronicle.look(&mut pass, 0);
    }
}
