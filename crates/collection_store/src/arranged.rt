// A content that is in its file as a collection keeps it: with rising ids, and with the hashes of the items' own
// attributes. Its items are taken without a copy of their hashes.

ghost use Rattle.std.specs.Prelude.{◌≡◌, ◌↔◌, IfOk, IsTrue, length, map};
ghost use Rattle.std.specs.List.{AllByRecursion, zip};
ghost use Rattle.attribute_hash.specs.Hash.{hashes};
ghost use Rattle.keyring_seal.specs.Arranged.{IsSealable};
ghost use Rattle.collection_store.specs.State.{AreParts, IsInPlace, by_id};

use crate::order::is_rising;
use attribute_hash::are_hashes_of;
use item_store::{ItemStore, rising_rows_are_one_list};
use keyring_file::{Clear, ClearItem, FullItem};
use keyring_seal::Content;
use kr_base::{ItemId, OutOfMemory};
use std::alloc::Global;

/// Whether the item has the hashes of its own attributes.
fn has_own_hashes(one: &ClearItem, item: &FullItem) -> bool
    ensures { IsTrue result ↔ (one.now.hashed ≡ hashes item.now.attributes) }
{
    are_hashes_of(one.hashed.as_slice(), &item.attributes)
}

/// Whether each item has the hashes of its own attributes.
pub fn have_own_hashes(clear: &[ClearItem], items: &[FullItem]) -> bool
    requires { length items.now ≡ length clear.now }
    ensures { IsTrue result ↔ AllByRecursion (λ row. row.0.hashed ≡ hashes row.1.attributes)
        (zip clear.now items.now) }
{
    for place in 0..clear.len() {
        if !has_own_hashes(&clear[place], &items[place]) {
            return false;
        }
    }
    true
}

/// Whether the ids rise, and each item has the hashes of its own attributes.
pub fn is_in_place(content: &Content) -> bool
    requires { IsSealable content.now }
    ensures { IsTrue result ↔ IsInPlace content.now }
{
    let clear = content.clear.items.as_slice();
    is_rising(clear) && have_own_hashes(clear, content.items.as_slice())
}

/// The items, each with its id and its kind.
fn numbered(
    alloc: Global,
    clear: &[ClearItem],
    items: Vec<FullItem>,
) -> Result<Vec<(ItemId, u32, FullItem)>, OutOfMemory>
    ensures { IfOk result (λ made.
        made.items ≡ map (λ row. (row.0.id, row.0.kind, row.1)) (zip clear.now items.items)) }
{
    let mut numbered = Vec::with_capacity(alloc, clear.len())?;
    let mut items = items.into_iter();
    for one in clear {
        let Some(item) = items.next() else {
            break;
        };
        numbered.push((one.id, one.kind, item))?;
    }
    Ok(numbered)
}

/// The items of a content that is in its file as a collection keeps it.
pub fn items_in_place(
    alloc: Global,
    clear: &Clear,
    items: Vec<FullItem>,
) -> Result<ItemStore, OutOfMemory>
    requires sealable { IsSealable (record { clear = clear.now; items = items.items }) }
    requires in_place { IsInPlace (record { clear = clear.now; items = items.items }) }
    ensures { IfOk result (AreParts (record { clear = clear.now; items = items.items })
        (by_id clear.now)) }
{
    let given = numbered(alloc, clear.items.as_slice(), items)?;
    rising_rows_are_one_list();
    let store = ItemStore::loaded(given)?;
    Ok(store)
}
