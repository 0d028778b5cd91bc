//! The search for an order.

ghost use Rattle.std.specs.Prelude.{◌≡◌, ◌≤◌, ◌<◌, ◌+◌, ℕ, length, nat_le, slice_get, slice_index, vec_len, Contains, IfOk, IfSome, OnOk, false, true};
ghost use Rattle.joint_order.specs.Orders.{AreHeld, IsStuck, OnOrder, OnStuck, TakesEveryPoint, list_at, points_count};
ghost use Rattle.joint_order.specs.Steps.{AreShort, CanCountPoint, Progress, holder_at, if_next, looked, next_at};

use crate::point::ListPoint;
use common_types::Items;
use std::alloc::{AllocError, Global};

/// What became of the search for an order.
#[derive(Drop)]
pub enum Joined {
    /// The numbers of the lists, in the order in which each takes its next point.
    Order(Vec<usize>),
    /// How many points of each list can be taken. No list goes on there, and a point is left.
    Stuck(Vec<usize>),
}

// The point, if it is the next one of its group.
fn if_next(done: &[usize], point: Option<ListPoint>) -> Option<ListPoint>
    ensures { result ≡ if_next done.now point }
{
    let point = point?;
    if point.group < done.len() && done[point.group] == point.place {
        Some(point)
    } else {
        None
    }
}

// The next point of the list of that number.
fn point_at(lists: &[Items<ListPoint>], taken: &[usize], i: usize) -> Option<ListPoint>
    requires { length taken.now ≡ length lists.now }
    ensures { result ≡ slice_get (list_at lists.now i) (slice_index taken.now i) }
{
    let list = lists.get(i)?;
    list.as_slice().get(taken[i]).copied()
}

// The number of the list that holds the point of that place, if there is one.
fn holder_at(holders: &[Items<Option<usize>>], group: usize, place: usize) -> Option<usize>
    ensures { result ≡ holder_at holders.now group place }
{
    *holders.get(group)?.as_slice().get(place)?
}

// The next point of the list of that number, if it is the next one of its group.
fn next_at(
    lists: &[Items<ListPoint>],
    holders: &[Items<Option<usize>>],
    taken: &[usize],
    done: &[usize],
    i: usize,
) -> Option<ListPoint>
    requires wide { length taken.now ≡ length lists.now }
    requires held { AreHeld lists.now holders.now }
    requires lists { AreShort lists.now }
    requires holders { AreShort holders.now }
    ensures value { result ≡ next_at lists.now taken.now done.now i }
    ensures fits { IfSome result (λ point. CanCountPoint taken.now done.now i point) }
{
    if_next(done, point_at(lists, taken, i))
}

// Looks at the list of that number: takes its next point, if that is the next one of its group.
fn look(
    lists: &[Items<ListPoint>],
    holders: &[Items<Option<usize>>],
    taken: &mut Vec<usize>,
    done: &mut Vec<usize>,
    order: &mut Vec<usize>,
    waiting: &mut Vec<usize>,
    i: usize,
) -> Result<(), AllocError>
    requires wide { vec_len taken.old ≡ length lists.now }
    requires held { AreHeld lists.now holders.now }
    requires lists { AreShort lists.now }
    requires holders { AreShort holders.now }
    ensures { OnOk result (
        (record { taken = taken.new.items; done = done.new.items; order = order.new.items; waiting = waiting.new.items })
        ≡ looked holders.now i (next_at lists.now taken.old.items done.old.items i)
        (record { taken = taken.old.items; done = done.old.items; order = order.old.items; waiting = waiting.old.items })) }
{
    let Some(point) = next_at(lists, holders, taken.as_slice(), done.as_slice(), i) else {
        return Ok(());
    };
    order.push(i)?;
    waiting.push(i)?;
    if let Some(holder) = holder_at(holders, point.group, point.place + 1) {
        waiting.push(holder)?;
    }
    taken[i] += 1;
    done[point.group] += 1;
    Ok(())
}

// What is known of the lists from their sizes.
fn lists_are_short(lists: &[Items<ListPoint>])
    ensures { AreShort lists.now }
{
    for i in 0..lists.len() {
        let _ = lists[i].as_slice().len();
    }
}

fn holders_are_short(holders: &[Items<Option<usize>>])
    ensures { AreShort holders.now }
{
    for group in 0..holders.len() {
        let _ = holders[group].as_slice().len();
    }
}

// The numbers of so many lists.
fn numbers(alloc: Global, count: usize) -> Result<Vec<usize>, AllocError>
    ensures { IfOk result (λ numbers. (i : ℕ) → i < count → Contains numbers.items i) }
{
    let mut numbers = Vec::with_capacity(alloc, count)?;
    for i in 0..count {
        numbers.push_reserved(i);
    }
    Ok(numbers)
}

// Whether all points of the list of that number were taken.
fn is_taken(lists: &[Items<ListPoint>], taken: &[usize], i: usize) -> bool
    requires { length taken.now ≡ length lists.now }
    ensures { result ≡ nat_le (length (list_at lists.now i)) (slice_index taken.now i) }
{
    match lists.get(i) {
        Some(list) => list.as_slice().len() <= taken[i],
        None => true,
    }
}

// Whether all points of all lists were taken.
fn all_taken(lists: &[Items<ListPoint>], taken: &[usize]) -> bool
    requires { length taken.now ≡ length lists.now }
    ensures yes { result ≡ true → (i : ℕ) → i < length lists.now
        → nat_le (length (list_at lists.now i)) (slice_index taken.now i) ≡ true }
    ensures no { result ≡ false → (i : ℕ) × (nat_le (length (list_at lists.now i)) (slice_index taken.now i) ≡ false) }
{
    for i in 0..lists.len() {
        if !is_taken(lists, taken, i) {
            return false;
        }
    }
    true
}

/// An order of the points of all lists, in which those of each list and those of each group come one after the other.
/// Or a front at which no list goes on. It takes time and memory in proportion to the points.
///
/// `holders` says of each group which list holds the point of each place. Fails only if it is out of memory.
pub fn join(
    alloc: Global,
    lists: &[Items<ListPoint>],
    holders: &[Items<Option<usize>>],
) -> Result<Joined, AllocError>
    requires { AreHeld lists.now holders.now }
    ensures order { IfOk result (OnOrder (TakesEveryPoint lists.now)) }
    ensures count { IfOk result (OnOrder (λ order. length order ≡ points_count lists.now)) }
    ensures stuck { IfOk result (OnStuck (IsStuck lists.now)) }
{
    lists_are_short(lists);
    holders_are_short(holders);
    let mut taken = vec![in alloc; 0usize; lists.len()]?;
    let mut done = vec![in alloc; 0usize; holders.len()]?;
    let mut order = Vec::new(alloc);
    let mut waiting = numbers(alloc, lists.len())?;
    while let Some(i) = waiting.pop() {
        look(
            lists,
            holders,
            &mut taken,
            &mut done,
            &mut order,
            &mut waiting,
            i,
        )?;
    }
    if all_taken(lists, taken.as_slice()) {
        Ok(Joined::Order(order))
    } else {
        Ok(Joined::Stuck(taken))
    }
}
