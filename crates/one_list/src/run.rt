//! Which list it is.

use std::marker::Brand;

/// A run of a program: which list it is, of how many tenants and workers, and what each tenant's book began with. And
/// whether each worker answers only packets that it sent on itself. Proofs pick it, once for each list.
pub trait Run {
    ghost use Rattle.std.specs.Prelude.{Bool, List};
    ghost use Rattle.atomic_table.specs.Seated.{TableId};
    ghost use Rattle.one_list.specs.declared.step.Size.{Size};
    ghost use Rattle.tenant_core.specs.declared.opening.Opening.{Opening};

    ghost table: { TableId };

    ghost size: { Size };

    ghost openings: { List Opening };

    /// Whether each worker answers only packets that it sent on itself. A book of such a run asks for it at each answer.
    ghost own: { Bool };
}

impl Run for Brand {
    ghost use Rattle.std.specs.Prelude.{[], false};
    ghost use Rattle.one_list.specs.Rules.{no_table, no_size};

    ghost table = { no_table };

    ghost size = { no_size };

    ghost openings = { [] };

    ghost own = { false };
}
