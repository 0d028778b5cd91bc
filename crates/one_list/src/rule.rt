//! The rule of the list's table, and the kinds of atomic step. At run time only the table and its passes exist as
//! values.

use crate::run::Run;
use crate::step::{Beginning, Done, Size};
use atomic_table::{Join, Play, Seat, Split, Table, TableRule};
use std::alloc::Global;
use std::collections::LinkedList;
use std::marker::PhantomData;
use tenant_core::Journal;

/// What a pass knows of a worker, or of a tenant: all its steps, in their order. And the tenants' steps that the
/// worker has met, each time as far as they had got then.
pub struct Claim {
    pub of_worker: bool,
    pub number: u64,
    pub steps: LinkedList<Done>,
    pub met: LinkedList<Beginning>,
}

/// All that a pass knows.
pub type View = LinkedList<Claim>;

/// Leave to add the steps of those that it claims. It has no bytes.
pub type Pass = Seat<Journal, View>;

/// The words that the steps are added by. What they hold says nothing.
pub type Words = Table<Journal, View, Size, OneList, Global>;

/// There is one list by which all claims are right.
pub struct OneList;

impl TableRule<Journal, View, Size> for OneList {
    ghost use Rattle.one_list.specs.Rules.{ChronicleInvariant, first_view};

    ghost holds = { λ size s. ChronicleInvariant size s.views };

    ghost first = { first_view };
}

/// Adds the last record of a period's journal, as a step of the worker and the tenant that are claimed. The word is
/// offered the number of the period.
pub struct Add;

impl Play<Journal, View> for Add {
    ghost use Rattle.one_list.specs.Rules.{Adds};

    ghost then = { Adds };
}

/// The claims are right, and stay the same.
pub struct Look<J: Run> {
    run: PhantomData<J>,
}

impl<J: Run> Play<Journal, View> for Look<J> {
    ghost use Rattle.one_list.specs.Rules.{LookShows};

    ghost then = { LookShows J.size };
}

/// The claims are right, and the worker that is claimed has met the steps of the tenant that is.
pub struct Meet<J: Run> {
    run: PhantomData<J>,
}

impl<J: Run> Play<Journal, View> for Meet<J> {
    ghost use Rattle.one_list.specs.Rules.{Meets};

    ghost then = { Meets J.size };
}

/// A pass begins with no claim.
pub struct Blank;

impl Play<Journal, View> for Blank {
    ghost use Rattle.std.specs.Prelude.{◌≡◌, []};

    ghost then = { λ st me n after. after.0 ≡ [] };
}

/// A pass begins with the claim of one who watches: it does nothing, and its number is that of no worker.
pub struct Watch<J: Run> {
    run: PhantomData<J>,
}

impl<J: Run> Play<Journal, View> for Watch<J> {
    ghost use Rattle.std.specs.Prelude.{◌≡◌, []};
    ghost use Rattle.one_list.specs.Rules.{watching};

    ghost then = { λ st me n after. after.0 ≡ watching J.size [] };
}

/// A pass gives its first claim away.
pub struct First;

impl Split<View> for First {
    ghost use Rattle.one_list.specs.Rules.{first_claim, other_claims};

    ghost left = { other_claims };

    ghost right = { first_claim };
}

/// A pass gives away what it claims of workers, and keeps what it claims of tenants.
pub struct Workers;

impl Split<View> for Workers {
    ghost use Rattle.std.specs.Prelude.{true, false};
    ghost use Rattle.one_list.specs.Rules.{claims_of};

    ghost left = { claims_of false };

    ghost right = { claims_of true };
}

/// A pass takes in the claims of another.
pub struct Both;

impl Join<View> for Both {
    ghost use Rattle.std.specs.Prelude.{◌++◌, []};

    ghost both = { λ v w. v ++ w };

    ghost spent = { [] };
}
