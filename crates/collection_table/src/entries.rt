// The collections in a list by rising stems.
ghost use Rattle.std.specs.Prelude.{◌≡◌, ◌+◌, ◌-◌, ◌<◌, ◌≤◌, ◌++◌, ◌∷◌, [], vec_capacity, vec_len, IfSome, IfNone, IfOk, OnOk, None, Some, map, min};
ghost use Rattle.std.specs.Map.{keys_of};
ghost use Rattle.std.specs.Option.{option_copied};
ghost use Rattle.kr_base.specs.Attributes.{IsInOrder, value_at};
ghost use Rattle.collection_table.specs.Entries.{IsPlaceOf, changed, closed, inserted, loaded_from, row_of, rows_of, without};
ghost use Rattle.collection_table.specs.Rows.{HaveItems, bytes_in, found_in, items_in, most};

use crate::Matches;
use collection_store::Collection;
use folder_store::Ring;
use kr_base::{Attributes, OutOfMemory, Stem};
use kr_items::Items;
use kr_outside::Slot;
use std::alloc::Global;

/// The collections of these files, all of them locked, in the same order.
pub fn loaded<S: Slot>(
    alloc: Global,
    rings: Vec<Ring<S>>,
) -> Result<Vec<(Stem, Collection<S>)>, OutOfMemory>
    ensures { IfOk result (λ entries. entries.items ≡ map loaded_from rings.items) }
{
    let mut entries = Vec::with_capacity(alloc, rings.len())?;
    for ring in rings {
        put_loaded(alloc, &mut entries, ring)?;
    }
    Ok(entries)
}

// Puts the collection of a file after the others.
fn put_loaded<S: Slot>(
    alloc: Global,
    entries: &mut Vec<(Stem, Collection<S>)>,
    ring: Ring<S>,
) -> Result<(), OutOfMemory>
    ensures { OnOk result (entries.new.items ≡ entries.old.items ++ loaded_from ring ∷ []) }
{
    let (stem, cell, clear) = ring.into_parts();
    let collection = Collection::loaded(alloc, cell, clear)?;
    entries.push((stem, collection))?;
    Ok(())
}

/// The place of a stem, or None if it isn't there.
pub fn place_of<S: Slot>(entries: &[(Stem, Collection<S>)], stem: &Stem) -> Option<usize>
    requires { IsInOrder entries.now }
    ensures found { IfSome result (IsPlaceOf stem.now entries.now) }
    ensures none { IfNone result (value_at stem.now entries.now ≡ None) }
{
    match entries.binary_search_by(|entry| entry.0.cmp(stem)) {
        Ok(place) => Some(place),
        Err(_) => None,
    }
}

/// The collection of a stem, or None if there is none.
pub fn find<'a, S: Slot>(
    entries: &'a [(Stem, Collection<S>)],
    stem: &Stem,
) -> Option<&'a Collection<S>>
    requires { IsInOrder entries.now }
    ensures { option_copied result ≡ value_at stem.now entries.now }
{
    match place_of(entries, stem) {
        Some(place) => Some(&entries[place].1),
        None => None,
    }
}

/// Locks the collection of a stem, where there is one. It needs no memory.
pub fn lock<S: Slot>(entries: &mut Vec<(Stem, Collection<S>)>, stem: &Stem)
    requires { IsInOrder entries.old.items }
    ensures entries { entries.new.items ≡ changed stem.now closed entries.old.items }
    ensures room { vec_capacity entries.new - vec_len entries.new
        ≡ vec_capacity entries.old - vec_len entries.old }
{
    match place_of(entries.as_slice(), stem) {
        Some(place) => entries[place].1.lock(),
        None => {}
    }
}

/// Puts a collection in its place. It takes no memory.
pub fn insert<S: Slot>(
    entries: &mut Vec<(Stem, Collection<S>)>,
    stem: Stem,
    collection: Collection<S>,
)
    requires order { IsInOrder entries.old.items }
    requires none { value_at stem entries.old.items ≡ None }
    requires room { vec_len entries.old < vec_capacity entries.old }
    ensures entries { entries.new.items ≡ inserted stem collection entries.old.items }
    ensures room { vec_capacity entries.old - vec_len entries.old
        ≤ vec_capacity entries.new - vec_len entries.new + 1 }
{
    match entries.binary_search_by(|entry| entry.0.cmp(&stem)) {
        Ok(_) => unreachable!(),
        Err(place) => entries.insert(place, (stem, collection)).unwrap(),
    }
}

/// Takes the collection of a stem out, where there is one. It takes no memory.
pub fn remove<S: Slot>(
    entries: &mut Vec<(Stem, Collection<S>)>,
    stem: &Stem,
) -> Option<Collection<S>>
    requires { IsInOrder entries.old.items }
    ensures value { result ≡ value_at stem.now entries.old.items }
    ensures entries { entries.new.items ≡ without stem.now entries.old.items }
    ensures room { vec_capacity entries.old - vec_len entries.old
        ≤ vec_capacity entries.new - vec_len entries.new }
{
    match place_of(entries.as_slice(), stem) {
        Some(place) => Some(entries.remove(place).1),
        None => None,
    }
}

// What a search finds in one collection.
fn found_in<S: Slot>(
    entry: &(Stem, Collection<S>),
    wanted: &Attributes,
) -> Result<Matches, OutOfMemory>
    ensures { IfOk result (λ found.
        found ≡ found_in wanted.now (entry.now.0, row_of entry.now.1)) }
{
    let ids = entry.1.search(wanted)?;
    let stem = entry.0.copy()?;
    Ok(Matches {
        stem,
        is_open: entry.1.is_open(),
        ids: Items::new(ids),
    })
}

/// What a search finds in each collection, in order.
pub fn search<S: Slot>(
    alloc: Global,
    entries: &[(Stem, Collection<S>)],
    wanted: &Attributes,
) -> Result<Vec<Matches>, OutOfMemory>
    ensures { IfOk result (λ found. found.items
        ≡ map (found_in wanted.now) (rows_of entries.now)) }
{
    let mut found = Vec::with_capacity(alloc, entries.len())?;
    for place in 0..entries.len() {
        let matches = found_in(&entries[place], wanted)?;
        found.push(matches)?;
    }
    Ok(found)
}

/// Copies of the stems, in order.
pub fn stems<S: Slot>(
    alloc: Global,
    entries: &[(Stem, Collection<S>)],
) -> Result<Vec<Stem>, OutOfMemory>
    ensures { IfOk result (λ stems. stems.items ≡ keys_of entries.now) }
{
    let mut stems = Vec::with_capacity(alloc, entries.len())?;
    for place in 0..entries.len() {
        let stem = entries[place].0.copy()?;
        stems.push(stem)?;
    }
    Ok(stems)
}

/// The number of items in all collections together, at most the greatest number of its type.
pub fn items_in<S: Slot>(entries: &[(Stem, Collection<S>)]) -> usize
    ensures value { result ≡ min (items_in (rows_of entries.now)) most }
    ensures images { HaveItems (rows_of entries.now) result }
{
    let mut count: usize = 0;
    for place in 0..entries.len() {
        count = count.saturating_add(entries[place].1.most_items());
    }
    count
}

/// The bytes of all collections' files together, at most the greatest number of its type.
pub fn bytes_in<S: Slot>(entries: &[(Stem, Collection<S>)]) -> usize
    ensures { result ≡ min (bytes_in (rows_of entries.now)) most }
{
    let mut count: usize = 0;
    for place in 0..entries.len() {
        count = count.saturating_add(entries[place].1.longest());
    }
    count
}
