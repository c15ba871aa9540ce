// The clear part of a changed collection is a copy; the old one stays as it is.

ghost use Rattle.std.specs.Prelude.{◌≡◌, ◌++◌, ◌∷◌, [], IfOk, OnOk, filter, if◌then◌else◌, map};
ghost use Rattle.collection_store.specs.Copying.{content_set, hashes_set, is_other};

use attribute_hash::hashed;
use keyring_file::ClearItem;
use kr_base::{Attributes, HashedPair, ItemId, OutOfMemory, Text};
use kr_items::Items;
use std::alloc::Global;

/// Copies of the hashes.
fn copied_hashes(alloc: Global, pairs: &[HashedPair]) -> Result<Vec<HashedPair>, OutOfMemory>
    ensures { IfOk result (λ copied. copied.items ≡ pairs.now) }
{
    let mut copied = Vec::with_capacity(alloc, pairs.len())?;
    for pair in pairs {
        copied.push(pair.copy()?)?;
    }
    Ok(copied)
}

/// Appends a copy of an item.
fn put_copy(alloc: Global, items: &mut Vec<ClearItem>, item: &ClearItem) -> Result<(), OutOfMemory>
    ensures { OnOk result (items.new.items ≡ items.old.items ++ item.now ∷ []) }
{
    put_copy_of(alloc, items, item, &item.content)
}

/// Appends a copy of an item with another content type.
fn put_copy_of(
    alloc: Global,
    items: &mut Vec<ClearItem>,
    item: &ClearItem,
    content: &Text,
) -> Result<(), OutOfMemory>
    ensures { OnOk result (items.new.items
        ≡ items.old.items ++ record item.now { content = content.now } ∷ []) }
{
    items.push(ClearItem {
        id: item.id,
        kind: item.kind,
        hashed: Items::new(copied_hashes(alloc, item.hashed.as_slice())?),
        content: content.copy()?,
    })?;
    Ok(())
}

/// Appends a copy of an item, with another content type if it has the given id.
fn put_with_content(
    alloc: Global,
    items: &mut Vec<ClearItem>,
    item: &ClearItem,
    id: ItemId,
    content: &Text,
) -> Result<(), OutOfMemory>
    ensures { OnOk result (items.new.items ≡ items.old.items
        ++ content_set id.0 content.now item.now ∷ []) }
{
    if item.id.0 == id.0 {
        put_copy_of(alloc, items, item, content)
    } else {
        put_copy(alloc, items, item)
    }
}

/// Appends a copy of an item, with the hashes of these attributes if it has the given id.
fn put_with_hashes(
    alloc: Global,
    items: &mut Vec<ClearItem>,
    item: &ClearItem,
    id: ItemId,
    attributes: &Attributes,
) -> Result<(), OutOfMemory>
    ensures { OnOk result (items.new.items ≡ items.old.items
        ++ hashes_set id.0 attributes.now item.now ∷ []) }
{
    if item.id.0 == id.0 {
        items.push(ClearItem {
            id: item.id,
            kind: item.kind,
            hashed: Items::new(hashed(alloc, attributes)?),
            content: item.content.copy()?,
        })?;
        Ok(())
    } else {
        put_copy(alloc, items, item)
    }
}

/// Appends a copy of an item, unless it has the given id.
fn put_other(
    alloc: Global,
    items: &mut Vec<ClearItem>,
    item: &ClearItem,
    id: ItemId,
) -> Result<(), OutOfMemory>
    ensures { OnOk result (items.new.items
        ≡ items.old.items ++ (if is_other id.0 item.now then item.now ∷ [] else [])) }
{
    if item.id.0 != id.0 {
        put_copy(alloc, items, item)
    } else {
        Ok(())
    }
}

/// Copies of the items.
pub fn copies(alloc: Global, items: &[ClearItem]) -> Result<Vec<ClearItem>, OutOfMemory>
    ensures { IfOk result (λ copied. copied.items ≡ items.now) }
{
    let mut copied = Vec::with_capacity(alloc, items.len())?;
    for place in 0..items.len() {
        put_copy(alloc, &mut copied, &items[place])?;
    }
    Ok(copied)
}

/// Copies of the items, followed by a new one.
pub fn copies_and(
    alloc: Global,
    items: &[ClearItem],
    last: ClearItem,
) -> Result<Vec<ClearItem>, OutOfMemory>
    ensures { IfOk result (λ copied. copied.items ≡ items.now ++ last ∷ []) }
{
    let mut copied = copies(alloc, items)?;
    copied.push(last)?;
    Ok(copied)
}

/// Copies of the items, with another content type for the one with the given id.
pub fn copies_with_content(
    alloc: Global,
    items: &[ClearItem],
    id: ItemId,
    content: &Text,
) -> Result<Vec<ClearItem>, OutOfMemory>
    ensures { IfOk result (λ copied. copied.items ≡ map (content_set id.0 content.now) items.now) }
{
    let mut copied = Vec::with_capacity(alloc, items.len())?;
    for place in 0..items.len() {
        put_with_content(alloc, &mut copied, &items[place], id, content)?;
    }
    Ok(copied)
}

/// Copies of the items, with the hashes of these attributes for the one with the given id.
pub fn copies_with_hashes(
    alloc: Global,
    items: &[ClearItem],
    id: ItemId,
    attributes: &Attributes,
) -> Result<Vec<ClearItem>, OutOfMemory>
    ensures { IfOk result (λ copied. copied.items
        ≡ map (hashes_set id.0 attributes.now) items.now) }
{
    let mut copied = Vec::with_capacity(alloc, items.len())?;
    for place in 0..items.len() {
        put_with_hashes(alloc, &mut copied, &items[place], id, attributes)?;
    }
    Ok(copied)
}

/// Copies of all items except the one with the given id.
pub fn copies_without(
    alloc: Global,
    items: &[ClearItem],
    id: ItemId,
) -> Result<Vec<ClearItem>, OutOfMemory>
    ensures { IfOk result (λ copied. copied.items
        ≡ filter (is_other id.0) items.now) }
{
    let mut copied = Vec::with_capacity(alloc, items.len())?;
    for place in 0..items.len() {
        put_other(alloc, &mut copied, &items[place], id)?;
    }
    Ok(copied)
}
