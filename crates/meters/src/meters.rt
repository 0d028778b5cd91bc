//! The words, and the seats through which threads count.

ghost use Rattle.std.specs.Prelude.{◌≡◌, ◌+◌, ◌*◌, ◌<◌, ◌≤◌, ◌^◌, ◌↔◌, ℕ, true, false, IsTrue, IsOk, IfOk, OnOk, OnErr, slice_index};
ghost use Rattle.std.specs.Slots.{slots_items, slots_len, IsFull};
ghost use mathlib.Core.Option.{some};
ghost use lib.ListN.{get_elem?};
ghost use Rattle.common_types.specs.declared.limits.TheConstants.{MAX_TENANTS};
ghost use Rattle.meters.specs.declared.kind.Kind.{Kind};
ghost use Rattle.meters.specs.Counts.{both_rows};
ghost use Rattle.meters.specs.Seats.{count_of, total_of, empty_seat, counted, max_splits, split_seat, joined_seat};

use crate::kind::{Kind, word_of};
use crate::rule::{Cut, Look, Merge, Raise, Sums, View};
use crate::totals::Totals;
use atomic_table::{Closed, Seat, Table};
use std::alloc::{AllocError, Global};
use std::marker::Model;
use thiserror::Error;

/// The most of a seat's count. Only a join raises a count further.
const MOST: u64 = 1 << 40;

/// A seat's count of that kind for that tenant has reached 2^40. Only a join raises it further.
#[derive(Clone, Copy, Debug, PartialEq, Eq, Error)]
#[error("this seat has counted 2^40 of them")]
pub struct Spent;

/// A thread's access to the meters. Contracts see which meters it belongs to, what it has counted, how often it was
/// split and has joined another, and whether it came from `Meters::new`.
#[derive(Drop)]
pub struct MeterSeat {
    seat: Seat<(), View>,
    own: [u64; 256],
}

impl Model for MeterSeat {
    ghost use Rattle.std.specs.Prelude.{◌≡◌, ◌<◌, []};
    ghost use Rattle.meters.specs.Seats.{SeatState};
    ghost use Rattle.meters.specs.Rule.{seat_state};

    ghost Value = { SeatState };

    ghost view = { λ m. seat_state m.seat.table_id m.seat.me.0 };

    ghost invariant = { λ m. (m.seat.me.0.counts ≡ m.own) × (m.seat.me.1 ≡ []) × (0 < m.seat.me.0.parts) };
}

/// How many of each kind were counted for each of 1 to 64 tenants. Contracts see which meters they are, and the number
/// of tenants.
#[derive(Drop)]
pub struct Meters {
    table: Table<(), View, usize, Sums, Global>,
    tenants: usize,
}

impl Model for Meters {
    ghost use Rattle.std.specs.Prelude.{◌≡◌, ◌*◌, ◌≤◌};
    ghost use Rattle.common_types.specs.declared.limits.TheConstants.{MAX_TENANTS};
    ghost use Rattle.meters.specs.Seats.{MetersState};

    ghost Value = { MetersState };

    ghost view = { λ m. record { id = m.table.shared.table_id; tenants = m.tenants } };

    ghost invariant = { λ m. (m.table.shared.key ≡ m.tenants) × (m.table.shared.table_id.words ≡ 4 * m.tenants)
        × (m.table.shared.table_id.slots ≡ 0) × (1 ≤ m.tenants) × (m.tenants ≤ MAX_TENANTS) };
}

impl Meters {
    /// Meters for 1 to 64 tenants with all counts at zero, and their first seat. Fails only if it is out of memory.
    pub fn new(alloc: Global, tenants: usize) -> Result<(Meters, MeterSeat), AllocError>
        requires some { 1 ≤ tenants }
        requires few { tenants ≤ MAX_TENANTS }
        ensures tenants { IfOk result (λ m. m.0.tenants ≡ tenants) }
        ensures seat { IfOk result (λ m. m.1 ≡ empty_seat m.0.id true) }
        ensures zero { IfOk result (λ m. (t : ℕ) (k : Kind) → count_of t k m.1 ≡ 0) }
    {
        let words: Vec<u64> = vec![in alloc; 0; 4 * tenants]?;
        let (table, seat) = Table::<(), View, usize, Sums, Global>::of_words(
            alloc,
            words.as_slice(),
            &tenants,
        )?;
        Ok((
            Meters { table, tenants },
            MeterSeat {
                seat,
                own: [0; 256],
            },
        ))
    }

    /// Counts one of a kind for a tenant, through a seat of these meters. The tenant is below their number of tenants.
    ///
    /// # Errors
    ///
    /// `Spent` if the seat's count of that kind for that tenant has reached 2^40. Nothing is counted then.
    pub fn count(&self, seat: &mut MeterSeat, tenant: usize, kind: Kind) -> Result<(), Spent>
        requires here { seat.old.meters ≡ self.now.id }
        requires tenant { tenant < self.now.tenants }
        ensures room { IsOk result ↔ (count_of tenant kind seat.old < 2 ^ 40) }
        ensures counted { OnOk result (seat.new ≡ counted tenant kind seat.old) }
        ensures raised { OnOk result (count_of tenant kind seat.new ≡ count_of tenant kind seat.old + 1) }
        // every other count of the seat is as it was
        ensures others { (t : ℕ) (k : Kind) → ¬ ((t ≡ tenant) × (k ≡ kind))
            → count_of t k seat.new ≡ count_of t k seat.old }
        ensures err { OnErr result (seat.new ≡ seat.old) }
    {
        let words = &self.table.shared;
        let word = word_of(tenant, kind);
        if seat.own[word] >= MOST {
            return Err(Spent);
        }
        words.fetch_add::<Raise>(&mut seat.seat, word, 1);
        seat.own[word] += 1;
        Ok(())
    }

    /// How many of a kind all threads have counted for a tenant by now: no fewer than the seat itself, and at most
    /// 4,099 * 2^40. The seat is one of these meters, and the tenant is below their number of tenants.
    pub fn read(&self, seat: &mut MeterSeat, tenant: usize, kind: Kind) -> u64
        requires here { seat.old.meters ≡ self.now.id }
        requires tenant { tenant < self.now.tenants }
        ensures kept { seat.new ≡ seat.old }
        ensures least { count_of tenant kind seat.old ≤ result }
        ensures most { result ≤ (max_splits + 1) * 2 ^ 40 }
    {
        self.table
            .shared
            .load::<Look>(&mut seat.seat, word_of(tenant, kind))
    }

    /// A seat for another thread, with all counts at zero, from the seat of these meters that came from `new` and was
    /// split fewer than 4,098 times. It allocates nothing.
    pub fn split(&self, seat: &mut MeterSeat) -> MeterSeat
        requires here { seat.old.meters ≡ self.now.id }
        requires first { IsTrue seat.old.first }
        requires few { seat.old.splits < max_splits }
        ensures left { seat.new ≡ split_seat seat.old }
        ensures new { result ≡ empty_seat self.now.id false }
        ensures zero { (t : ℕ) (k : Kind) → count_of t k result ≡ 0 }
    {
        let theirs = self.table.shared.split_seat::<Cut>(&mut seat.seat);
        MeterSeat {
            seat: theirs,
            own: [0; 256],
        }
    }

    /// Takes the counts of another seat into this one. Both are seats of these meters, and the other is not the one that
    /// came from `new`.
    pub fn join(&self, seat: &mut MeterSeat, other: MeterSeat)
        requires here { seat.old.meters ≡ self.now.id }
        requires there { other.meters ≡ self.now.id }
        requires plain { other.first ≡ false }
        ensures both { seat.new ≡ joined_seat seat.old other }
        ensures each { (t : ℕ) (k : Kind)
            → count_of t k seat.new ≡ count_of t k seat.old + count_of t k other }
    {
        let MeterSeat {
            seat: mut theirs,
            own,
        } = other;
        // These looks show that the seats have counted too little for a sum to overflow.
        self.table.shared.load::<Look>(&mut seat.seat, 0);
        self.table.shared.load::<Look>(&mut theirs, 0);
        let sums = both_rows(&seat.own, &own);
        self.table.shared.join_seat::<Merge>(&mut seat.seat, theirs);
        seat.own = sums;
    }

    /// Ends the counting and returns the totals. The seat is one of these meters. If it came from `new` and has joined
    /// as many seats as it was split into, the totals are its counts. Otherwise they are at least its counts.
    pub fn close(self, seat: MeterSeat) -> Totals
        requires { seat.meters ≡ self.id }
        ensures tenants { result.tenants ≡ self.tenants }
        ensures exact { IsTrue seat.first → seat.joins ≡ seat.splits → (t : ℕ) (k : Kind)
            → t < self.tenants → total_of t k result ≡ count_of t k seat }
        ensures least { (t : ℕ) (k : Kind) → t < self.tenants
            → count_of t k seat ≤ total_of t k result }
    {
        let MeterSeat { seat: mine, own: _ } = seat;
        let Meters { table, tenants } = self;
        let closed = table.close_with(mine);
        let counts = words_of(&closed, tenants);
        closed.free();
        Totals::new(tenants, counts)
    }
}

// Two rows of counts added up.
fn both_rows(a: &[u64; 256], b: &[u64; 256]) -> [u64; 256]
    requires { (i : ℕ) → slice_index a.now i + slice_index b.now i < 2 ^ 64 }
    ensures { result ≡ both_rows a.now b.now }
{
    let mut sums = [0; 256];
    for i in 0..256 {
        sums[i] = a[i] + b[i];
    }
    sums
}

// The words of a table that was closed, four for each tenant, in a row of counts.
fn words_of(closed: &Closed<(), Global>, tenants: usize) -> [u64; 256]
    requires few { tenants ≤ MAX_TENANTS }
    requires full { IsFull closed.now.words × (slots_len closed.now.words ≡ 4 * tenants) }
    ensures { (i : ℕ) → i < 4 * tenants
        → get_elem? (slots_items closed.now.words) i ≡ some (slice_index result i) }
{
    let mut counts = [0; 256];
    for i in 0..4 * tenants {
        counts[i] = closed.word(i);
    }
    counts
}
