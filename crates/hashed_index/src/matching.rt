// The items at the found places are compared with what is wanted.

ghost use Rattle.std.specs.Prelude.{◌≡◌, ◌++◌, ◌<◌, IfOk, OnOk, length, map};
ghost use Rattle.std.specs.List.{All, flat_map};
ghost use Rattle.hashed_index.specs.Matching.{id_at, id_if_matches, matching_ids};

use attribute_match::hashed_matches;
use keyring_file::ClearItem;
use kr_base::{Attributes, ItemId, OutOfMemory};
use std::alloc::Global;

/// Appends the id of an item if its hashes match.
fn put_match(
    ids: &mut Vec<ItemId>,
    wanted: &Attributes,
    item: &ClearItem,
) -> Result<(), OutOfMemory>
    ensures { OnOk result (map (λ id. id.0) ids.new.items
        ≡ map (λ id. id.0) ids.old.items ++ id_if_matches wanted.now item.now) }
{
    if hashed_matches(wanted, item.hashed.as_slice()) {
        ids.push(item.id)?;
    }
    Ok(())
}

/// Appends the id of the item at a place if its hashes match.
fn put_match_at(
    ids: &mut Vec<ItemId>,
    wanted: &Attributes,
    items: &[ClearItem],
    place: usize,
) -> Result<(), OutOfMemory>
    requires { place < length items.now }
    ensures { OnOk result (map (λ id. id.0) ids.new.items
        ≡ map (λ id. id.0) ids.old.items ++ id_at wanted.now items.now place) }
{
    put_match(ids, wanted, &items[place])
}

/// The ids of the items at these places whose hashes match.
pub fn matching_at(
    alloc: Global,
    items: &[ClearItem],
    wanted: &Attributes,
    places: &[usize],
) -> Result<Vec<ItemId>, OutOfMemory>
    requires { All (λ place. place < length items.now) places.now }
    ensures { IfOk result (λ ids. map (λ id. id.0) ids.items
        ≡ flat_map (id_at wanted.now items.now) places.now) }
{
    let mut ids = Vec::new(alloc);
    for next in 0..places.len() {
        put_match_at(&mut ids, wanted, items, places[next])?;
    }
    Ok(ids)
}

/// The ids of the items whose hashes match, in their order. Each item is compared.
pub fn all_matching(
    alloc: Global,
    items: &[ClearItem],
    wanted: &Attributes,
) -> Result<Vec<ItemId>, OutOfMemory>
    ensures { IfOk result (λ ids. map (λ id. id.0) ids.items ≡ matching_ids wanted.now items.now) }
{
    let mut ids = Vec::new(alloc);
    for place in 0..items.len() {
        put_match(&mut ids, wanted, &items[place])?;
    }
    Ok(ids)
}
