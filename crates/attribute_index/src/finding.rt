ghost use Rattle.std.specs.Prelude.{true, ◌≡◌, ℕ, ◌+◌, ◌*◌, ◌<◌, ◌≤◌, List, [], IfOk, filter, length, map, slice_index_or};
ghost use Rattle.kr_base.specs.IdLists.{has_id};
ghost use Rattle.attribute_index.specs.Index.{in_every};

use kr_base::{IdList, ItemId, OutOfMemory, Steps};
use std::alloc::Global;
use std::sync::ledger::Ledger;

/// The place of the list with fewer ids, of these two.
fn shorter(lists: &[&IdList], one: usize, other: usize) -> usize
    requires one { one < length lists.now }
    requires other { other < length lists.now }
    ensures within { result < length lists.now }
    ensures one { length (slice_index_or (map (λ l. l.now) lists.now) result [])
        ≤ length (slice_index_or (map (λ l. l.now) lists.now) one []) }
    ensures other { length (slice_index_or (map (λ l. l.now) lists.now) result [])
        ≤ length (slice_index_or (map (λ l. l.now) lists.now) other []) }
{
    if len_at(lists, other) < len_at(lists, one) {
        other
    } else {
        one
    }
}

/// How many ids the list at a place has.
fn len_at(lists: &[&IdList], place: usize) -> usize
    requires { place < length lists.now }
    ensures { result ≡ length (slice_index_or (map (λ l. l.now) lists.now) place []) }
{
    lists[place].len()
}

/// The place of the list with the fewest ids.
fn shortest(lists: &[&IdList]) -> usize
    requires { 0 < length lists.now }
    ensures within { result < length lists.now }
    ensures least { (place : ℕ) → place < length lists.now
        → length (slice_index_or (map (λ l. l.now) lists.now) result []) ≤ length
        (slice_index_or (map (λ l. l.now) lists.now) place []) }
{
    let mut best = 0;
    for place in 1..lists.len() {
        best = shorter(lists, best, place);
    }
    best
}

/// Whether the list at a place has an id. This is one step, and none at the place whose list is known to have
/// it.
fn has_at<L: Ledger>(
    lists: &[&IdList],
    place: usize,
    known: usize,
    id: ItemId,
    steps: &mut Steps<L>,
) -> bool
    requires within { place < length lists.now }
    requires known { has_id (slice_index_or (map (λ l. l.now) lists.now) known []) id.0 ≡ true }
    ensures value { result ≡ has_id (slice_index_or (map (λ l. l.now) lists.now) place []) id.0 }
    ensures few { steps.new ≤ steps.old + 1 }
    ensures counted { steps.old ≤ steps.new }
    ensures free { place ≡ known → steps.new ≡ steps.old }
{
    if place == known {
        return true;
    }
    lists[place].has(id, steps)
}

/// Whether each list has an id, which the list at one place is known to have. This is at most one step for
/// each of the other lists.
fn all_have<L: Ledger>(lists: &[&IdList], known: usize, id: ItemId, steps: &mut Steps<L>) -> bool
    requires within { known < length lists.now }
    requires known { has_id (slice_index_or (map (λ l. l.now) lists.now) known []) id.0 ≡ true }
    ensures value { result ≡ in_every (map (λ l. l.now) lists.now) id.0 }
    ensures few { steps.new + 1 ≤ steps.old + length lists.now }
    ensures counted { steps.old ≤ steps.new }
{
    for place in 0..lists.len() {
        if !has_at(lists, place, known, id, steps) {
            return false;
        }
    }
    true
}

/// The ids that all lists have, in rising order. This is at most as many steps as the shortest list has ids,
/// times the number of lists.
pub fn in_all<L: Ledger>(
    alloc: Global,
    lists: &[&IdList],
    steps: &mut Steps<L>,
) -> Result<Vec<ItemId>, OutOfMemory>
    requires { 0 < length lists.now }
    ensures ids { IfOk result (λ found. (place : ℕ) × (place < length lists.now)
        × (map (λ id. id.0) found.items ≡ filter (in_every (map
        (λ l. l.now) lists.now)) (slice_index_or (map (λ l. l.now) lists.now) place []))) }
    ensures few { (place : ℕ) → place < length lists.now
        → steps.new ≤ steps.old + length (slice_index_or (map
        (λ l. l.now) lists.now) place []) * length lists.now }
    ensures counted { IfOk result (λ found. steps.old + length found.items ≤ steps.new) }
{
    let least = shortest(lists);
    let first = lists[least];
    let mut found = Vec::new(alloc);
    for place in 0..first.len() {
        let id = first.at(place, steps);
        if all_have(lists, least, id, steps) {
            found.push(id)?;
        }
    }
    Ok(found)
}

/// All ids of a list. Each is one step.
pub fn all_of<L: Ledger>(
    alloc: Global,
    ids: &IdList,
    steps: &mut Steps<L>,
) -> Result<Vec<ItemId>, OutOfMemory>
    ensures ids { IfOk result (λ found. map (λ id. id.0) found.items ≡ ids.now) }
    ensures few { steps.new ≤ steps.old + length ids.now }
    ensures counted { IfOk result (λ found. steps.old + length found.items ≤ steps.new) }
{
    let mut found = Vec::new(alloc);
    for place in 0..ids.len() {
        found.push(ids.at(place, steps))?;
    }
    Ok(found)
}
