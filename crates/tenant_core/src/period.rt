//! Closed periods.

use crate::arena::Journal;
use crate::opening::Opening;
use crate::record_view::RecordView;
use crate::row::Row;
use common_types::{Boxed, Items};
use std::alloc::{AllocError, Global};
use std::marker::Model;

/// The records of a closed period. Contracts see the list of them.
#[derive(Drop)]
pub struct Records {
    journal: Journal,
}

impl Model for Records {
    ghost use Rattle.std.specs.Prelude.{List};
    ghost use Rattle.tenant_core.specs.declared.journal.Record.{Record};

    ghost Value = { List Record };

    ghost view = { λ r. r.journal.records };
}

impl Records {
    ghost use Rattle.std.specs.Prelude.{◌≡◌, [], length, option_map};
    ghost use Rattle.std.specs.List.{slice_get};
    ghost use Rattle.tenant_core.specs.Views.{record_of};

    /// No records. It allocates nothing.
    pub(crate) fn none(alloc: Global) -> Records
        ensures { result ≡ [] }
    {
        Records {
            journal: Journal::without_room(alloc),
        }
    }

    /// The records of a journal.
    pub(crate) fn new(journal: Journal) -> Records
        ensures { result ≡ journal.records }
    {
        Records { journal }
    }

    /// The journal that they came from.
    pub fn journal(&self) -> &Journal
        ensures { result.now.records ≡ self.now }
    {
        &self.journal
    }

    /// How many there are.
    pub fn len(&self) -> usize
        ensures { result ≡ length self.now }
    {
        self.journal.len()
    }

    /// The record at that place, in the order in which they came.
    pub fn get(&self, place: usize) -> Option<RecordView<'_>>
        ensures { option_map record_of result ≡ slice_get self.now place }
    {
        self.journal.get(place)
    }
}

/// What a roll closes.
#[derive(Drop)]
pub struct PeriodParts {
    /// What the period began with: the tenant and the number of the period are there.
    pub opening: Opening,
    /// Its entries with what each led to; the last is the roll's.
    pub records: Records,
    /// What each peer owed at its end, in the order of their numbers.
    pub rows: Items<Row>,
    /// What the next period begins with.
    pub ending: Opening,
}

impl PeriodParts {
    ghost use Rattle.std.specs.Prelude.{◌≡◌, [], IfOk};

    /// The boxed parts of the period that a roll will close, with what each peer owed. `next` is its ending, and fills
    /// the place of its opening until the roll. Fails only if it is out of memory.
    pub(crate) fn begun(
        alloc: Global,
        next: Opening,
        rows: Vec<Row>,
    ) -> Result<Boxed<PeriodParts>, AllocError>
        ensures { IfOk result (λ parts. parts
            ≡ record { opening = next; records = []; rows = rows.items; ending = next }) }
    {
        let ending = next.copy(alloc)?;
        Boxed::new(
            alloc,
            PeriodParts {
                opening: next,
                records: Records::none(alloc),
                rows: Items::from_vec(rows),
                ending,
            },
        )
    }
}

/// A period that a roll closed, of the size of a pointer. Only rolls make one. By its type, its records are what their
/// entries lead to from its opening on, and the last is the roll's. Its ending is the opening of the next period.
#[derive(Drop)]
pub struct Period {
    parts: Boxed<PeriodParts>,
}

impl Model for Period {
    ghost use Rattle.tenant_core.specs.declared.period.PeriodParts.{PeriodParts};
    ghost use Rattle.std.specs.Coded.{codes};
    ghost use Rattle.route_table.specs.contracts.routes.Routes as routes;

    ghost Value = { PeriodParts };

    ghost coded = { Prim.hlevel (codes, routes.the_row.coded) };

    ghost view = { λ p. p.parts };

    ghost use Rattle.tenant_core.specs.Closing.{IsPeriod};

    ghost invariant = { λ p. IsPeriod p.parts };
}

impl Period {
    ghost use Rattle.std.specs.Prelude.{◌≡◌, ◌≤◌, ◌<◌, ◌+◌, length};
    ghost use Rattle.tenant_core.specs.Closing.{IsPeriod};
    ghost use Rattle.tenant_core.specs.Limits.{max_tenants, max_journal};

    /// The period of what a roll closes.
    pub(crate) fn new(parts: Boxed<PeriodParts>) -> Period
        requires { IsPeriod parts }
        ensures { result ≡ parts }
    {
        Period { parts }
    }

    /// The tenant's place among all tenants.
    pub fn tenant(&self) -> usize
        ensures value { result ≡ self.now.opening.tenant }
        ensures few { result < max_tenants }
    {
        self.parts.get().opening.tenant
    }

    /// The number of the period: a tenant's first one has 0.
    pub fn number(&self) -> u64
        ensures { result ≡ self.now.opening.period }
    {
        self.parts.get().opening.period
    }

    /// What the period began with.
    pub fn opening(&self) -> &Opening
        ensures { result.now ≡ self.now.opening }
    {
        &self.parts.get().opening
    }

    /// What the next period begins with.
    pub fn ending(&self) -> &Opening
        ensures { result.now ≡ self.now.ending }
    {
        &self.parts.get().ending
    }

    /// Its entries with what each led to; the last is the roll's.
    pub fn records(&self) -> &Records
        ensures { result.now ≡ self.now.records }
    {
        &self.parts.get().records
    }

    /// How many records it has.
    pub fn len(&self) -> usize
        ensures value { result ≡ length self.now.records }
        ensures few { result ≤ max_journal + 1 }
    {
        self.parts.get().records.len()
    }

    /// What each peer owed at its end, in the order of their numbers.
    pub fn rows(&self) -> &[Row]
        ensures { result.now ≡ self.now.rows }
    {
        self.parts.get().rows.as_slice()
    }

    // The invariant of the type, for any holder of a period.
    pub(crate) fn is_kept(&self)
        ensures { IsPeriod self.now }
    {
        let _parts = self.parts.get();
    }
}
