//! A list that has no steps yet.

ghost use Rattle.std.specs.Prelude.{◌≡◌, ◌≤◌, IfOk};
ghost use Rattle.tenant_core.specs.Limits.{max_tenants};

use crate::chronicle::{Chronicle, Unclaimed};
use crate::rule::{Pass, Words};
use crate::run::Run;
use crate::step::Size;
use std::alloc::{AllocError, Global};
use std::marker::Model;
use tenant_core::limits::MAX_TENANTS;

/// How many words a cache line has: no two tenants have words on the same one.
pub(crate) const LINE_WORDS: usize = 8;

/// A line for each tenant, and one before them.
const TABLE_WORDS: usize = (MAX_TENANTS + 1) * LINE_WORDS;

const WORDS: [u64; TABLE_WORDS] = [0; TABLE_WORDS];

/// A list that has no steps yet, and of which no run has been picked. Contracts see its table, and how many tenants
/// and workers there are.
#[derive(Drop)]
pub struct Opened {
    words: Words,
    pass: Pass,
}

impl Model for Opened {
    ghost use Rattle.one_list.specs.Parts.{OpenedView, IsOpened};

    ghost Value = { OpenedView };

    ghost view = { λ o. record { table = o.words.shared.table_id; size = o.words.shared.key } };

    ghost invariant = { λ o. IsOpened o.words.shared.table_id o.words.shared.key o.pass.table_id o.pass.me };
}

impl Opened {
    /// A list of so many tenants and workers. Fails only if it is out of memory.
    pub fn new(alloc: Global, tenants: usize, workers: usize) -> Result<Opened, AllocError>
        requires few { tenants ≤ max_tenants }
        ensures size { IfOk result (λ o. o.size ≡ record { tenants = tenants; workers = workers }) }
    {
        let size = Size {
            tenants: tenants as u64,
            workers: workers as u64,
        };
        let (words, pass) = Words::of_words(alloc, &WORDS, &size)?;
        Ok(Opened { words, pass })
    }

    /// The list as that of a run, and all its parts, of which none has been handed out.
    pub fn named<J: Run>(self) -> (Chronicle<J>, Unclaimed<J>)
        requires table { self.table ≡ J.table }
        requires size { self.size ≡ J.size }
        ensures { result.1 ≡ record { tenants = 0; workers = 0 } }
    {
        let Opened {
            words,
            pass: mut tenants,
        } = self;
        let chronicle = Chronicle::<J>::new(words);
        let workers = chronicle.workers(&mut tenants);
        (chronicle, Unclaimed::new(tenants, workers))
    }
}
