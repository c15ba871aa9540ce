ghost use Rattle.std.specs.Prelude.{◌≡◌, ◌+◌, ◌<◌, ◌≤◌, IfOk, OnOk, Some, false, length, map, min};
ghost use Rattle.std.specs.Borrow.{Lends, LendsIf, sem};
ghost use Rattle.std.specs.Cmp.Lexicographic.{slice_cmp};
ghost use Rattle.std.specs.List.{slice_get};
ghost use Rattle.std.specs.List.Sorted.{IsStrictlySortedBy};
ghost use Rattle.std.specs.Map.{keys_of, values_of};
ghost use Rattle.std.specs.Option.{option_copied, option_copied_mut};
ghost use Rattle.std.specs.Ordering.{nat_cmp};
ghost use Rattle.kr_base.specs.Attributes.{IsInOrder, value_at};
ghost use Rattle.collection_table.specs.Entries.{changed, closed, inserted, loaded_from, row_of, rows_of, slots_of, with_collection, with_place, without};
ghost use Rattle.collection_table.specs.Rows.{HaveItems, bytes_in, content_of, found_in_all, has, has_item, is_full, is_open, item_of, items_in, locked, most, room_in};

use crate::{Matches, entries};
use collection_store::Collection;
use folder_store::{LIMITS, Ring};
use keyring_file::FullItem;
use kr_base::{Attributes, ItemId, OutOfMemory, Stem, Text};
use kr_outside::Slot;
use std::alloc::Global;
use std::marker::Model;

/// The collections of a service. A contract sees each with its stem, by rising stems in byte order.
#[derive(Drop)]
pub struct CollectionTable<S: Slot> {
    alloc: Global,
    entries: Vec<(Stem, Collection<S>)>,
}

impl<S: Slot> Model for CollectionTable<S> {
    ghost use Rattle.kr_base.specs.Attributes.{IsInOrder};
    ghost use Rattle.std.specs.Prelude.{◌-◌, vec_capacity, vec_len};
    ghost use Rattle.collection_table.specs.Entries.{TableState};

    ghost Value = { TableState S };

    ghost view = { λ t. record {
      entries = t.entries.items;
      room = vec_capacity t.entries - vec_len t.entries;
    } };

    ghost invariant = { λ t. IsInOrder t.entries.items };
}

impl<S: Slot> CollectionTable<S> {
    ghost use Rattle.collection_store.specs.contracts.collection.Collection.{the_row as collection_row};
    ghost use Rattle.collection_table.specs.contracts.table.CollectionTable.{the_row};

    /// The collections that a start lists, one for each of these files, in byte order of their stems. All
    /// of them are locked. Refused with `OutOfMemory` alone.
    pub fn loaded(alloc: Global, rings: Vec<Ring<S>>) -> Result<CollectionTable<S>, OutOfMemory>
        requires { IsStrictlySortedBy (slice_cmp nat_cmp) (map (λ ring. ring.stem) rings.items) }
        ensures { IfOk result (λ table. table.entries ≡ map loaded_from rings.items) }
    {
        let entries = entries::loaded(alloc, rings)?;
        Ok(CollectionTable { alloc, entries })
    }

    /// The number of collections.
    pub fn len(&self) -> usize
        ensures { result ≡ length self.now.entries }
    {
        self.entries.len()
    }

    /// The collections with their stems, lent in order.
    pub fn entries(&self) -> &[(Stem, Collection<S>)]
        ensures value { result.now ≡ self.now.entries }
        ensures ordered { IsInOrder self.now.entries }
    {
        &self.entries
    }

    /// Copies of the stems, in order.
    pub fn stems(&self) -> Result<Vec<Stem>, OutOfMemory>
        ensures { IfOk result (λ stems. stems.items ≡ keys_of (rows_of self.now.entries)) }
    {
        entries::stems(self.alloc, &self.entries)
    }

    /// The collection of a stem, or None if there is none.
    pub fn get(&self, stem: &Stem) -> Option<&Collection<S>>
        ensures { option_copied result ≡ value_at stem.now self.now.entries }
    {
        entries::find(&self.entries, stem)
    }

    /// Whether there is a collection of the stem.
    pub fn has(&self, stem: &Stem) -> bool
        ensures { result ≡ has stem.now (rows_of self.now.entries) }
    {
        self.get(stem).is_some()
    }

    /// Whether there is a collection of the stem, and it is unlocked.
    pub fn is_open(&self, stem: &Stem) -> bool
        ensures { result ≡ is_open stem.now (rows_of self.now.entries) }
    {
        match self.get(stem) {
            Some(collection) => collection.is_open(),
            None => false,
        }
    }

    /// Whether there is a collection of the stem, and it shows an item of the id, locked or not.
    pub fn has_item(&self, stem: &Stem, id: ItemId) -> bool
        ensures { result ≡ has_item stem.now id.0 (rows_of self.now.entries) }
    {
        self.content(stem, id).is_some()
    }

    /// The content type of an item, also while its collection is locked. None where there is no such
    /// collection, or it has no such item.
    pub fn content(&self, stem: &Stem, id: ItemId) -> Option<&Text>
        ensures { option_copied result ≡ content_of stem.now id.0 (rows_of self.now.entries) }
    {
        match self.get(stem) {
            Some(collection) => collection.content(id),
            None => None,
        }
    }

    /// An item (Secret Service API, interface Item). None exactly where there is no such collection, it is
    /// locked, or it has no such item.
    pub fn item(&self, stem: &Stem, id: ItemId) -> Option<&FullItem>
        ensures { option_copied result ≡ item_of stem.now id.0 (rows_of self.now.entries) }
    {
        match self.get(stem) {
            Some(collection) => collection.item(id),
            None => None,
        }
    }

    /// What a search finds in each collection, in byte order of their stems (Secret Service API,
    /// Service.SearchItems): by the items of an unlocked one, and by the hashes of a locked one. A collection
    /// in which nothing matches is listed too. Refused with `OutOfMemory` alone.
    pub fn search(&self, wanted: &Attributes) -> Result<Vec<Matches>, OutOfMemory>
        ensures { IfOk result (λ found. found.items
            ≡ found_in_all wanted.now (rows_of self.now.entries)) }
    {
        entries::search(self.alloc, &self.entries, wanted)
    }

    /// The number of items in all collections together, or 2^64 - 1 if it is greater. A file in doubt counts
    /// with the greater number of its two images. It takes no memory.
    pub fn items_in_all(&self) -> usize
        ensures value { result ≡ min (items_in (rows_of self.now.entries)) most }
        ensures images { HaveItems (rows_of self.now.entries) result }
    {
        entries::items_in(&self.entries)
    }

    /// Whether there are 100,000 items or more in all collections together. A file in doubt counts with the
    /// greater number of its two images. It takes no memory.
    pub fn is_full(&self) -> bool
        ensures { result ≡ is_full (rows_of self.now.entries) }
    {
        self.items_in_all() >= LIMITS.items
    }

    /// The number of bytes of all collections' files together, or 2^64 - 1 if it is greater. A file in doubt
    /// counts with the longer of its two images. It takes no memory.
    pub fn bytes_in_all(&self) -> usize
        ensures { result ≡ min (bytes_in (rows_of self.now.entries)) most }
    {
        entries::bytes_in(&self.entries)
    }

    /// How many bytes all collections' files together may still grow by: they have 268,435,456 at most. A
    /// file in doubt counts with the longer of its two images. It takes no memory.
    pub fn room(&self) -> u64
        ensures { result ≡ room_in (rows_of self.now.entries) }
    {
        LIMITS.all_files.saturating_sub(self.bytes_in_all()) as u64
    }

    /// Locks a collection: its key and its items are dropped (Secret Service API, Service.Lock). All others
    /// are as before, and if there is none of the stem nothing changes. It needs no memory.
    pub fn lock(&mut self, stem: &Stem)
        ensures closed { self.new
            ≡ record self.old { entries = changed stem.now closed self.old.entries } }
        ensures rows { rows_of self.new.entries
            ≡ changed stem.now locked (rows_of self.old.entries) }
        ensures slots { slots_of self.new.entries ≡ slots_of self.old.entries }
    {
        entries::lock(&mut self.entries, stem);
    }

    // The collection at a place, to be changed.
    fn place_mut(&mut self, place: usize) -> &mut Collection<S>
        requires { place < length self.old.entries }
        ensures* writes_back { sem 𝓛 (Lends (the_row S.row S.Slot)
            (collection_row S.row S.Slot) self.entry result (with_place self.old place)) }
        ensures value { slice_get (values_of self.old.entries) place ≡ Some result.now }
    {
        let entry = &mut self.entries[place];
        &mut entry.1
    }

    /// The collection of a stem, to be changed, or None if there is none. All others are as before. It takes
    /// no memory.
    pub fn get_mut(&mut self, stem: &Stem) -> Option<&mut Collection<S>>
        ensures* writes_back { sem 𝓛 (LendsIf (the_row S.row S.Slot)
            (collection_row S.row S.Slot) self.entry result (with_collection stem.now self.old)
            self.old) }
        ensures value { option_copied_mut result ≡ value_at stem.now self.old.entries }
    {
        match entries::place_of(&self.entries, stem) {
            Some(place) => Some(self.place_mut(place)),
            None => None,
        }
    }

    /// Makes room for one more collection, so that putting it in takes no memory.
    pub fn reserve(&mut self) -> Result<(), OutOfMemory>
        ensures room { OnOk result (0 < self.new.room) }
        ensures kept { self.old.room ≤ self.new.room }
        ensures entries { self.new.entries ≡ self.old.entries }
    {
        self.entries.reserve(1)
    }

    /// Puts a collection in its place by its stem. It takes no memory.
    pub fn insert(&mut self, stem: Stem, collection: Collection<S>)
        requires none { has stem (rows_of self.old.entries) ≡ false }
        requires room { 0 < self.old.room }
        ensures entries { self.new.entries ≡ inserted stem collection self.old.entries }
        ensures rows { rows_of self.new.entries
            ≡ inserted stem (row_of collection) (rows_of self.old.entries) }
        ensures room { self.old.room ≤ self.new.room + 1 }
    {
        entries::insert(&mut self.entries, stem, collection);
    }

    /// Takes the collection of a stem out. None if there is none, and then nothing changes. It takes no
    /// memory.
    pub fn remove(&mut self, stem: &Stem) -> Option<Collection<S>>
        ensures value { result ≡ value_at stem.now self.old.entries }
        ensures entries { self.new.entries ≡ without stem.now self.old.entries }
        ensures rows { rows_of self.new.entries ≡ without stem.now (rows_of self.old.entries) }
        ensures slots { slots_of self.new.entries ≡ without stem.now (slots_of self.old.entries) }
        ensures room { self.old.room ≤ self.new.room }
    {
        entries::remove(&mut self.entries, stem)
    }
}
