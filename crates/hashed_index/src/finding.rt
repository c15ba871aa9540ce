// The places of the items that have a key of a wanted attribute.

ghost use Rattle.std.specs.Prelude.{◌≡◌, ◌++◌, ◌<◌, ℕ, IfOk, OnOk, map, length};
ghost use Rattle.std.specs.List.{All, Contains};
ghost use Rattle.std.specs.List.Sorted.{IsStrictlyIncreasing};
ghost use Rattle.hashed_index.specs.Entries.{AreByKey, with_key as all_with_key, with_number as all_with_number, places_with};

use crate::entries::Entry;
use crate::keys::{Keys, wanted_keys};
use kr_base::{AttrValue, OutOfMemory, Text};
use std::alloc::Global;

/// The entries with a key.
fn with_key(entries: &[Entry], key: u64) -> &[Entry]
    requires { AreByKey entries.now }
    ensures { result.now ≡ all_with_key key entries.now }
{
    let first = entries.partition_point(|entry| entry.key < key);
    let rest = &entries[first..];
    let count = rest.partition_point(|entry| entry.key <= key);
    &rest[..count]
}

/// The entries with the key of the number, if there is one.
fn with_number<'a>(entries: &'a [Entry], keys: &Keys) -> &'a [Entry]
    requires { AreByKey entries.now }
    ensures { result.now ≡ all_with_number keys.now.number entries.now }
{
    match keys.number {
        Some(key) => with_key(entries, key),
        None => &[],
    }
}

/// How many entries have one of the keys.
fn count(entries: &[Entry], keys: &Keys) -> usize
    requires { AreByKey entries.now }
{
    with_key(entries, keys.text)
        .len()
        .saturating_add(with_number(entries, keys).len())
}

/// The one of two wanted attributes whose keys fewer entries have.
fn rarer(entries: &[Entry], wanted: &[(Text, AttrValue)], one: usize, other: usize) -> usize
    requires by_key { AreByKey entries.now }
    requires one { one < length wanted.now }
    requires other { other < length wanted.now }
    ensures { result < length wanted.now }
{
    if count_at(entries, wanted, other) < count_at(entries, wanted, one) {
        other
    } else {
        one
    }
}

/// How many entries have one of the keys of a wanted attribute.
fn count_at(entries: &[Entry], wanted: &[(Text, AttrValue)], place: usize) -> usize
    requires by_key { AreByKey entries.now }
    requires within { place < length wanted.now }
{
    count(entries, &wanted_keys(&wanted[place].0, &wanted[place].1))
}

/// The wanted attribute whose keys the fewest entries have.
pub fn rarest(entries: &[Entry], wanted: &[(Text, AttrValue)]) -> usize
    requires by_key { AreByKey entries.now }
    requires some { 0 < length wanted.now }
    ensures { result < length wanted.now }
{
    let mut best = 0;
    for place in 1..wanted.len() {
        best = rarer(entries, wanted, best, place);
    }
    best
}

/// Appends the places of the entries.
fn put_places(places: &mut Vec<usize>, entries: &[Entry]) -> Result<(), OutOfMemory>
    ensures { OnOk result (places.new.items
        ≡ places.old.items ++ map (λ entry. entry.place) entries.now) }
{
    for entry in entries {
        places.push(entry.place)?;
    }
    Ok(())
}

/// Sorts the places, and keeps each once.
fn in_order(places: &mut Vec<usize>)
    ensures rising { IsStrictlyIncreasing places.new.items }
    ensures all { (place : ℕ) → Contains places.old.items place → Contains places.new.items place }
    ensures within { (bound : ℕ) → All (λ place. place < bound) places.old.items
        → All (λ place. place < bound) places.new.items }
{
    places.sort_unstable();
    places.dedup();
}

/// The places of the items that have one of the keys.
pub fn places(alloc: Global, entries: &[Entry], keys: &Keys) -> Result<Vec<usize>, OutOfMemory>
    requires { AreByKey entries.now }
    ensures rising { IfOk result (λ places. IsStrictlyIncreasing places.items) }
    ensures all { IfOk result (λ places. (place : ℕ)
        → Contains (places_with keys.now.text keys.now.number entries.now) place
        → Contains places.items place) }
    ensures within { IfOk result (λ places. (bound : ℕ)
        → All (λ place. place < bound) (places_with keys.now.text keys.now.number entries.now)
        → All (λ place. place < bound) places.items) }
{
    let mut places = Vec::new(alloc);
    put_places(&mut places, with_key(entries, keys.text))?;
    put_places(&mut places, with_number(entries, keys))?;
    in_order(&mut places);
    Ok(places)
}
