// The entries of an index that is made at once, one for each attribute of each item. They are sorted, and have
// 16 bytes each.
ghost use Rattle.std.specs.Prelude.{◌≡◌, ◌++◌, OnOk, IfOk, map};
ghost use Rattle.attribute_match.specs.Match.{text_of};
ghost use Rattle.attribute_index.specs.Entries.{NotesAll, entries_of, entry_of};
ghost use Rattle.attribute_index.specs.Index.{pair_key};

use crate::keys::key_of_pair;
use kr_base::{AttrValue, Attributes, ItemId, OutOfMemory, Text};
use std::alloc::Global;
use std::marker::Model;

/// A pair of an item's attributes, with its key and the item's id.
#[derive(Drop)]
pub struct Entry<'a> {
    pub key: u32,
    pub id: ItemId,
    pub pair: &'a (Text, AttrValue),
}

impl<'a> Model for Entry<'a> {
    ghost use Rattle.std.specs.Prelude.{◌≡◌};
    ghost use Rattle.attribute_index.specs.Entries.{Noted, entry_of};
    ghost use Rattle.attribute_index.specs.Index.{pair_key};
    ghost use Rattle.attribute_match.specs.Match.{text_of};

    ghost Value = { Noted };

    ghost view = { λ e. entry_of e.id.0 e.pair.now };

    ghost invariant = { λ e. e.key ≡ pair_key (e.pair.now.0, text_of e.pair.now.1) };
}

/// The key of a name with the text of a value.
fn key_of_value(name: &Text, value: &AttrValue) -> u32
    ensures { result ≡ pair_key (name.now, text_of value.now) }
{
    match value {
        AttrValue::Text(text) => key_of_pair(name, text),
        AttrValue::Number(number) => key_of_pair(name, &Text::of_number(*number)),
    }
}

impl<'a> Entry<'a> {
    /// The entry of a pair.
    fn of_pair(id: ItemId, pair: &'a (Text, AttrValue)) -> Entry<'a>
        ensures { result ≡ entry_of id.0 pair.now }
    {
        Entry {
            key: key_of_value(&pair.0, &pair.1),
            id,
            pair,
        }
    }

    /// The same entry.
    pub fn copy(&self) -> Entry<'a>
        ensures { result ≡ self.now }
    {
        Entry {
            key: self.key,
            id: self.id,
            pair: self.pair,
        }
    }

    /// The entries are sorted by this: by the key, and by the id if the keys are the same.
    fn rank(&self) -> u64 {
        ((self.key as u64) << 32) | self.id.0 as u64
    }
}

/// How many attributes the items have.
fn count(items: &[(ItemId, &Attributes)]) -> usize {
    let mut count: usize = 0;
    for place in 0..items.len() {
        count = count.saturating_add(items[place].1.as_slice().len());
    }
    count
}

/// Appends the entries of an item's attributes.
fn put_item<'a>(
    entries: &mut Vec<Entry<'a>>,
    id: ItemId,
    pairs: &'a [(Text, AttrValue)],
) -> Result<(), OutOfMemory>
    ensures { OnOk result (entries.new.items
        ≡ entries.old.items ++ map (entry_of id.0) pairs.now) }
{
    for pair in pairs {
        entries.push(Entry::of_pair(id, pair))?;
    }
    Ok(())
}

/// The entries of the items' attributes.
fn all_entries<'a>(
    alloc: Global,
    items: &[(ItemId, &'a Attributes)],
) -> Result<Vec<Entry<'a>>, OutOfMemory>
    ensures { IfOk result (λ made. made.items ≡ entries_of items.now) }
{
    let mut entries = Vec::with_capacity(alloc, count(items))?;
    for place in 0..items.len() {
        let (id, attributes) = items[place];
        put_item(&mut entries, id, attributes.as_slice())?;
    }
    Ok(entries)
}

/// The entries of the items' attributes, in order of their keys.
pub fn sorted_entries<'a>(
    alloc: Global,
    items: &[(ItemId, &'a Attributes)],
) -> Result<Vec<Entry<'a>>, OutOfMemory>
    ensures { IfOk result (λ made. NotesAll items.now made.items) }
{
    let mut entries = all_entries(alloc, items)?;
    entries.sort_unstable_by_key(|entry| entry.rank());
    Ok(entries)
}
