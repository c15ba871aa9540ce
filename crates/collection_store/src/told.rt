ghost use Rattle.std.specs.Prelude.{◌≡◌, IfOk, IfSome, map};
ghost use Rattle.std.specs.Option.{option_copied};
ghost use Rattle.hashed_index.specs.Entries.{IsIndexOf};
ghost use Rattle.hashed_index.specs.Matching.{matching_ids};
ghost use Rattle.collection_store.specs.CollectionReading.{content_at};
ghost use Rattle.collection_store.specs.State.{IsById, by_id};

use crate::order::in_order;
use hashed_index::{HashedIndex, all_matching};
use keyring_file::{Clear, ClearItem};
use kr_base::{Attributes, ItemId, OutOfMemory, Text};
use kr_items::Items;
use std::alloc::Global;
use std::marker::Model;

/// The clear part of an image, with its items in order of their ids. Contracts see the clear part.
#[derive(Drop)]
pub struct Told {
    clear: Clear,
    // The index of the items' hashes, by which a locked collection is searched, if there was memory for it. It is
    // kept while the collection is unlocked, until its first change.
    index: Option<HashedIndex>,
}

impl Model for Told {
    ghost use Rattle.keyring_file.specs.Clear.{ClearPart};
    ghost use Rattle.collection_store.specs.State.{IsById};

    ghost Value = { ClearPart };

    ghost view = { λ t. t.clear };

    ghost use Rattle.std.specs.Prelude.{IfSome};
    ghost use Rattle.hashed_index.specs.Entries.{IsIndexOf};

    ghost invariant = { λ t. IsById t.clear × IfSome t.index (IsIndexOf t.clear.items) };
}

impl Told {
    /// Takes a clear part whose items are in order of their ids. It takes no memory.
    pub fn rising(clear: Clear) -> Told
        requires { IsById clear }
        ensures { result ≡ clear }
    {
        Told { clear, index: None }
    }

    /// Takes the clear part of a file, and sorts its items by id.
    pub fn new(alloc: Global, clear: Clear) -> Result<Told, OutOfMemory>
        ensures { IfOk result (λ told. told ≡ by_id clear) }
    {
        let Clear {
            name,
            created,
            modified,
            flags,
            timeout,
            iterations,
            salt,
            items,
            minor,
        } = clear;
        let items = in_order(alloc, items.into_vec())?;
        let index = index_of(alloc, items.as_slice());
        let items = Items::new(items);
        Ok(Told {
            clear: Clear {
                name,
                created,
                modified,
                flags,
                timeout,
                iterations,
                salt,
                items,
                minor,
            },
            index,
        })
    }

    /// Borrows the clear part.
    pub fn clear(&self) -> &Clear
        ensures value { result.now ≡ self.now }
        ensures by_id { IsById self.now }
    {
        &self.clear
    }

    /// The content type of an item. None if there is no such item.
    pub fn content(&self, id: ItemId) -> Option<&Text>
        ensures { option_copied result ≡ content_at id.0 self.now.items }
    {
        let items = self.clear.items.as_slice();
        match items.binary_search_by(|item| item.id.0.cmp(&id.0)) {
            Ok(place) => Some(&items[place].content),
            Err(_) => None,
        }
    }

    /// Makes the index of the hashes, if there is none and there is memory for it. The clear part stays as it
    /// is.
    pub fn make_index(&mut self, alloc: Global)
        ensures { self.new ≡ self.old }
    {
        if self.index.is_none() {
            self.index = index_of(alloc, self.clear.items.as_slice());
        }
    }

    /// The ids of the items whose hashes match, in rising order. Without the index each item is compared.
    pub fn search(&self, alloc: Global, wanted: &Attributes) -> Result<Vec<ItemId>, OutOfMemory>
        ensures { IfOk result (λ ids. map (λ id. id.0) ids.items
            ≡ matching_ids wanted.now self.now.items) }
    {
        let items = self.clear.items.as_slice();
        match &self.index {
            Some(index) => index.search(alloc, items, wanted),
            None => all_matching(alloc, items, wanted),
        }
    }
}

/// The index of the items' hashes. None if there is no memory for it.
fn index_of(alloc: Global, items: &[ClearItem]) -> Option<HashedIndex>
    ensures { IfSome result (IsIndexOf items.now) }
{
    match HashedIndex::new(alloc, items) {
        Ok(index) => Some(index),
        Err(_) => None,
    }
}
