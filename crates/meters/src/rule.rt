//! The rule of the table of words, and the four kinds of atomic step. These types have no values at run time.

use atomic_table::{Join, Play, Split, TableRule};
use std::collections::LinkedList;

/// What a seat knows: its counts, how often it was split and has joined, how many seats it counts for, and whether it
/// is the first one.
pub struct View {
    pub counts: LinkedList<u64>,
    pub splits: u64,
    pub joins: u64,
    pub parts: u64,
    pub first: bool,
}

/// Each word is the sum of that count over the views. The key is the number of tenants.
pub struct Sums;

impl TableRule<(), View, usize> for Sums {
    ghost use Rattle.std.specs.Prelude.{true};
    ghost use Rattle.meters.specs.Rule.{RuleHolds, empty_view};

    ghost holds = { RuleHolds };

    ghost first = { λ _. empty_view true };
}

/// A count: a word is raised by one.
pub struct Raise;

impl Play<(), View> for Raise {
    ghost use Rattle.meters.specs.Rule.{Raises};

    ghost then = { Raises };
}

/// A look at a word.
pub struct Look;

impl Play<(), View> for Look {
    ghost use Rattle.meters.specs.Rule.{Looks};

    ghost then = { Looks };
}

/// A new seat comes from the first one.
pub struct Cut;

impl Split<View> for Cut {
    ghost use Rattle.std.specs.Prelude.{false};
    ghost use Rattle.meters.specs.Rule.{split_view, empty_view};

    ghost left = { split_view };

    ghost right = { λ _. empty_view false };
}

/// A seat takes in another, whose view is spent.
pub struct Merge;

impl Join<View> for Merge {
    ghost use Rattle.meters.specs.Rule.{joined_view, spent_view};

    ghost both = { joined_view };

    ghost spent = { spent_view };
}
