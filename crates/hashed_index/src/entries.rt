// The entries of an index are made once, and sorted.

ghost use Rattle.std.specs.Prelude.{◌≡◌, ◌++◌, ℕ, IfOk, OnOk, map};
ghost use Rattle.hashed_index.specs.Entries.{IsIndexOf, entries_from, entry_of};

use crate::keys::key;
use keyring_file::ClearItem;
use kr_base::{HashedPair, OutOfMemory};
use std::alloc::Global;

/// The key of a hashed attribute, and the place of its item.
#[derive(Clone, Copy)]
pub struct Entry {
    pub key: u64,
    pub place: usize,
}

/// How many hashed attributes the items have.
fn count(items: &[ClearItem]) -> usize {
    let mut count: usize = 0;
    for place in 0..items.len() {
        count = count.saturating_add(items[place].hashed.as_slice().len());
    }
    count
}

/// Appends the entries of an item's hashed attributes.
fn put_item(
    entries: &mut Vec<Entry>,
    hashed: &[HashedPair],
    place: usize,
) -> Result<(), OutOfMemory>
    ensures { OnOk result (entries.new.items
        ≡ entries.old.items ++ map (entry_of place) hashed.now) }
{
    for pair in hashed {
        entries.push(Entry {
            key: key(pair),
            place,
        })?;
    }
    Ok(())
}

/// The entries of all hashed attributes of the items.
fn all_entries(alloc: Global, items: &[ClearItem]) -> Result<Vec<Entry>, OutOfMemory>
    ensures { IfOk result (λ made. made.items ≡ entries_from 0 items.now) }
{
    let mut entries = Vec::with_capacity(alloc, count(items))?;
    for place in 0..items.len() {
        put_item(&mut entries, items[place].hashed.as_slice(), place)?;
    }
    Ok(entries)
}

/// The entries of all hashed attributes of the items, in order of their keys.
pub fn sorted_entries(alloc: Global, items: &[ClearItem]) -> Result<Vec<Entry>, OutOfMemory>
    ensures { IfOk result (λ made. IsIndexOf items.now made.items) }
{
    let mut entries = all_entries(alloc, items)?;
    entries.sort_unstable_by_key(|entry| entry.key);
    Ok(entries)
}
