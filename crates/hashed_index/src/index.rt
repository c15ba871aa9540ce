ghost use Rattle.std.specs.Prelude.{◌≡◌, IfOk, map};
ghost use Rattle.hashed_index.specs.Entries.{IsIndexOf};
ghost use Rattle.hashed_index.specs.Matching.{matching_ids};

use crate::entries::{Entry, sorted_entries};
use crate::finding::{places, rarest};
use crate::keys::wanted_keys;
use crate::matching::{all_matching, matching_at};
use keyring_file::ClearItem;
use kr_base::{Attributes, ItemId, OutOfMemory};
use std::alloc::Global;
use std::marker::Model;

/// For each hashed attribute of a list of items its key, with the place of its item.
#[derive(Drop)]
pub struct HashedIndex {
    entries: Vec<Entry>,
}

impl Model for HashedIndex {
    ghost use Rattle.std.specs.Prelude.{List};
    ghost use Rattle.hashed_index.specs.declared.entries.Entry.{Entry};

    ghost Value = { List Entry };

    ghost view = { λ i. i.entries.items };
}

impl HashedIndex {
    /// The index of the items.
    pub fn new(alloc: Global, items: &[ClearItem]) -> Result<HashedIndex, OutOfMemory>
        ensures { IfOk result (λ index. IsIndexOf items.now index) }
    {
        let entries = sorted_entries(alloc, items)?;
        Ok(HashedIndex { entries })
    }

    /// The ids of the items whose hashes match, in their order. The items are those that the index was made
    /// of. Only those are compared that have a key of the rarest wanted attribute; if nothing is wanted, all.
    pub fn search(
        &self,
        alloc: Global,
        items: &[ClearItem],
        wanted: &Attributes,
    ) -> Result<Vec<ItemId>, OutOfMemory>
        requires { IsIndexOf items.now self.now }
        ensures { IfOk result (λ ids. map (λ id. id.0) ids.items
            ≡ matching_ids wanted.now items.now) }
    {
        let pairs = wanted.as_slice();
        if pairs.is_empty() {
            return all_matching(alloc, items, wanted);
        }
        let entries = self.entries.as_slice();
        let (name, value) = &pairs[rarest(entries, pairs)];
        let found = places(alloc, entries, &wanted_keys(name, value))?;
        matching_at(alloc, items, wanted, found.as_slice())
    }
}
