// A change is prepared before any call of the device: everything that takes memory is made here.

ghost use Rattle.std.specs.Prelude.{◌≡◌, true, IfOk, IfErr, IfSome, IsErrOf, OnErr, Ok, Err, Some, None, [], ◌∷◌, ◌++◌, ◌≤◌, ◌<◌, length, map, if◌then◌else◌, nat_lt};
ghost use Rattle.std.specs.List.{zip};
ghost use Rattle.std.specs.List.Sorted.{IsStrictlyIncreasing};
ghost use Rattle.std.specs.Option.{is_some, option_map};
ghost use Rattle.keyring_file.specs.Clear.{ClearPart};
ghost use Rattle.keyring_file.specs.ClearText.{HasClear, most_iterations};
ghost use Rattle.keyring_seal.specs.Arranged.{of_rows};
ghost use Rattle.keyring_seal.specs.Whole.{opened, sealed};
ghost use Rattle.item_store.specs.Rows.{next_id, first_id, has_just, ids_where, most_attributes, row_at, rows_changed as items_changed};
ghost use Rattle.item_store.specs.Swapping.{with_parts};
ghost use Rattle.item_store.specs.declared.fault.ItemFault.{ItemFault as Fault};
ghost use Rattle.collection_store.specs.Changes.{equal_id, made_new, name_made, replaced, rows_changed, rows_made};
ghost use Rattle.collection_store.specs.Preparing.{AreHashed, IsInStep, IsPrepared, MayRefuse, looked, most_in, next_of};
ghost use Rattle.collection_store.specs.State.{ids_of, rows_with};

use crate::candidate::{Frame, next_told, sealed_next};
use crate::copying::{copies, copies_and, copies_with_content, copies_with_hashes, copies_without};
use crate::rest::{Rest, swap_back, take_out};
use crate::told::Told;
use crate::{Change, ChangeRefused, Changed};
use attribute_hash::hashed;
use item_store::{ItemFault, ItemStore, MOST_ATTRIBUTES, RowList, Swap};
use keyring_file::{ClearItem, FullItem};
use keyring_seal::SealRefused;
use kr_base::{Attributes, Bytes, ItemId, Text};
use kr_items::Items;
use replace_slot::Image;
use std::alloc::Global;
use std::mem;

/// A prepared change.
#[derive(Drop)]
pub struct Prepared {
    /// The clear part of the new file.
    pub next: Told,
    /// The new file.
    pub image: Image,
    /// What is left to do to the items.
    pub rest: Rest,
    /// The answer to the change.
    pub answer: Changed,
}

/// Prepares a change of the label, or of the salt and the iterations for a new key. No item changes.
pub fn prepare_front(
    alloc: Global,
    frame: &Frame,
    told: &Told,
    items: &ItemStore,
    name: Text,
    salt: [u8; 8],
    iterations: u32,
) -> Result<Prepared, ChangeRefused>
    requires step { IsInStep told.now items.now }
    requires iterations { iterations ≤ most_iterations }
    ensures prepared { IfOk result (IsPrepared frame.now
        (record told.now { name = name; salt = salt; iterations = iterations })
        (Ok (rows_with told.now items.now, Changed.Named)) items.now items.now) }
    ensures refused { IfErr result (MayRefuse frame.now
        (record told.now { name = name; salt = salt; iterations = iterations })
        (Ok (rows_with told.now items.now, Changed.Named))) }
{
    let clear = told.clear();
    let kept = match copies(alloc, clear.items.as_slice()) {
        Ok(kept) => kept,
        Err(_) => return Err(ChangeRefused::OutOfMemory),
    };
    let next = next_told(clear, name, salt, iterations, frame.time, kept);
    match sealed_next(alloc, frame, &next, items.rows()) {
        Ok(image) => Ok(Prepared {
            next,
            image,
            rest: Rest::Same,
            answer: Changed::Named,
        }),
        Err(SealRefused::TooLarge) => Err(ChangeRefused::TooLarge),
        Err(SealRefused::OutOfMemory) => Err(ChangeRefused::OutOfMemory),
    }
}

/// Prepares a new label for the collection.
fn prepare_name(
    alloc: Global,
    frame: &Frame,
    told: &Told,
    items: &ItemStore,
    label: Text,
) -> Result<Prepared, ChangeRefused>
    requires { IsInStep told.now items.now }
    ensures prepared { IfOk result (IsPrepared frame.now
        (record told.now { name = name_made (Change.SetName label) told.now.name })
        (rows_made (Change.SetName label) frame.now.time (rows_with told.now items.now))
        items.now items.now) }
    ensures refused { IfErr result (MayRefuse frame.now
        (record told.now { name = name_made (Change.SetName label) told.now.name })
        (rows_made (Change.SetName label) frame.now.time (rows_with told.now items.now))) }
{
    let clear = told.clear();
    prepare_front(
        alloc,
        frame,
        told,
        items,
        label,
        clear.salt,
        clear.iterations,
    )
}

/// The next clear part with these items, and its file. The rows have the same ids.
fn sealed_rows(
    alloc: Global,
    frame: &Frame,
    told: &Told,
    edited: Vec<ClearItem>,
    rows: &RowList,
) -> Result<(Told, Image), SealRefused>
    requires rising { IsStrictlyIncreasing (ids_of edited.items) }
    requires there { map (λ row. row.0) (looked edited.items rows.now) ≡ edited.items }
    requires hashed { AreHashed (looked edited.items rows.now) }
    requires iterations { told.now.iterations ≤ most_iterations }
    ensures next { IfOk result (λ made. made.0 ≡ next_of frame.now told.now edited.items) }
    ensures sealed { IfOk result (λ made. made.1 ≡ sealed
        (of_rows (next_of frame.now told.now edited.items) (looked edited.items rows.now))
        frame.now.key frame.now.vector) }
    ensures opens { IfOk result (λ made. opened made.1 frame.now.key frame.now.vector
        ≡ Ok (of_rows (next_of frame.now told.now edited.items)
        (looked edited.items rows.now))) }
    ensures clear { IfOk result (λ made. HasClear made.1
        (of_rows (next_of frame.now told.now edited.items)
        (looked edited.items rows.now)).clear) }
    ensures fits { IfOk result (λ made. length made.1 ≤ most_in frame.now) }
    ensures too_large { IsErrOf result SealRefused.TooLarge → most_in frame.now < length (sealed
        (of_rows (next_of frame.now told.now edited.items) (looked edited.items rows.now))
        frame.now.key frame.now.vector) }
{
    let clear = told.clear();
    let name = match clear.name.copy() {
        Ok(name) => name,
        Err(_) => return Err(SealRefused::OutOfMemory),
    };
    let next = next_told(
        clear,
        name,
        clear.salt,
        clear.iterations,
        frame.time,
        edited,
    );
    match sealed_next(alloc, frame, &next, rows) {
        Ok(image) => Ok((next, image)),
        Err(refused) => Err(refused),
    }
}

/// The next clear part with these items, and its file. The full items have the same ids.
fn sealed_with(
    alloc: Global,
    frame: &Frame,
    told: &Told,
    edited: Vec<ClearItem>,
    items: &ItemStore,
) -> Result<(Told, Image), SealRefused>
    requires rising { IsStrictlyIncreasing (ids_of edited.items) }
    requires there { map (λ row. row.0) (looked edited.items items.now) ≡ edited.items }
    requires hashed { AreHashed (looked edited.items items.now) }
    requires iterations { told.now.iterations ≤ most_iterations }
    ensures next { IfOk result (λ made. made.0 ≡ next_of frame.now told.now edited.items) }
    ensures sealed { IfOk result (λ made. made.1 ≡ sealed
        (of_rows (next_of frame.now told.now edited.items) (looked edited.items items.now))
        frame.now.key frame.now.vector) }
    ensures opens { IfOk result (λ made. opened made.1 frame.now.key frame.now.vector
        ≡ Ok (of_rows (next_of frame.now told.now edited.items)
        (looked edited.items items.now))) }
    ensures clear { IfOk result (λ made. HasClear made.1
        (of_rows (next_of frame.now told.now edited.items)
        (looked edited.items items.now)).clear) }
    ensures fits { IfOk result (λ made. length made.1 ≤ most_in frame.now) }
    ensures too_large { IsErrOf result SealRefused.TooLarge → most_in frame.now < length (sealed
        (of_rows (next_of frame.now told.now edited.items) (looked edited.items items.now))
        frame.now.key frame.now.vector) }
{
    sealed_rows(alloc, frame, told, edited, items.rows())
}

/// Whether there is an item with the id.
pub fn has_item(items: &ItemStore, id: ItemId) -> bool
    ensures { result ≡ is_some (row_at id.0 items.now) }
{
    items.item(id).is_some()
}

/// Prepares new parts for an item that is there. `edited` is what the clear part's items will be.
fn prepare_parts(
    alloc: Global,
    frame: &Frame,
    told: &Told,
    items: &mut ItemStore,
    id: ItemId,
    edited: Vec<ClearItem>,
    parts: Swap,
) -> Result<Prepared, ChangeRefused>
    requires step { IsInStep told.now items.old }
    requires ids { ids_of edited.items ≡ ids_of told.now.items }
    requires rising { IsStrictlyIncreasing (ids_of edited.items) }
    requires hashed { AreHashed (zip edited.items (map (λ row. row.1.item) (items_changed id.0
        (λ row. record row { item = with_parts parts row.item }) items.old))) }
    ensures prepared { IfOk result (IsPrepared frame.now told.now
        (Ok (
          zip edited.items (map (λ row. row.1.item) (items_changed id.0
              (λ row. record row { item = with_parts parts row.item }) items.old)),
          Changed.Changed id,
        )) items.old items.new) }
    ensures refused { IfErr result (MayRefuse frame.now
        told.now (Ok (
          zip edited.items (map (λ row. row.1.item) (items_changed id.0
              (λ row. record row { item = with_parts parts row.item }) items.old)),
          Changed.Changed id,
        ))) }
    ensures unchanged { OnErr result (items.new ≡ items.old) }
{
    let mut parts = parts;
    items.swap(id, &mut parts);
    match sealed_with(alloc, frame, told, edited, items) {
        Ok((next, image)) => Ok(Prepared {
            next,
            image,
            rest: Rest::Swapped(id, parts),
            answer: Changed::Changed(id),
        }),
        Err(SealRefused::TooLarge) => {
            swap_back(items, id, parts);
            Err(ChangeRefused::TooLarge)
        }
        Err(SealRefused::OutOfMemory) => {
            swap_back(items, id, parts);
            Err(ChangeRefused::OutOfMemory)
        }
    }
}

/// Prepares a new secret for an item.
fn prepare_secret(
    alloc: Global,
    frame: &Frame,
    told: &Told,
    items: &mut ItemStore,
    id: ItemId,
    value: Bytes,
    content: Text,
) -> Result<Prepared, ChangeRefused>
    requires { IsInStep told.now items.old }
    ensures prepared { IfOk result (IsPrepared frame.now told.now
        (rows_made (Change.SetSecret id value content) frame.now.time
        (rows_with told.now items.old)) items.old items.new) }
    ensures refused { IfErr result (MayRefuse frame.now
        told.now (rows_made (Change.SetSecret id value content) frame.now.time
        (rows_with told.now items.old))) }
    ensures unchanged { OnErr result (items.new ≡ items.old) }
{
    if !has_item(items, id) {
        return Err(ChangeRefused::Item(ItemFault::NoItem));
    }
    let clear = told.clear();
    let edited = match copies_with_content(alloc, clear.items.as_slice(), id, &content) {
        Ok(edited) => edited,
        Err(_) => return Err(ChangeRefused::OutOfMemory),
    };
    let parts = Swap {
        label: None,
        value: Some(value),
        modified: frame.time,
    };
    prepare_parts(alloc, frame, told, items, id, edited, parts)
}

/// Prepares a new label for an item.
fn prepare_label(
    alloc: Global,
    frame: &Frame,
    told: &Told,
    items: &mut ItemStore,
    id: ItemId,
    label: Text,
) -> Result<Prepared, ChangeRefused>
    requires { IsInStep told.now items.old }
    ensures prepared { IfOk result (IsPrepared frame.now told.now
        (rows_made (Change.SetLabel id label) frame.now.time
        (rows_with told.now items.old)) items.old items.new) }
    ensures refused { IfErr result (MayRefuse frame.now
        told.now (rows_made (Change.SetLabel id label) frame.now.time
        (rows_with told.now items.old))) }
    ensures unchanged { OnErr result (items.new ≡ items.old) }
{
    if !has_item(items, id) {
        return Err(ChangeRefused::Item(ItemFault::NoItem));
    }
    let clear = told.clear();
    let edited = match copies(alloc, clear.items.as_slice()) {
        Ok(edited) => edited,
        Err(_) => return Err(ChangeRefused::OutOfMemory),
    };
    let parts = Swap {
        label: Some(label),
        value: None,
        modified: frame.time,
    };
    prepare_parts(alloc, frame, told, items, id, edited, parts)
}

/// Prepares a new label, secret and content type for an item that is there.
fn prepare_replaced(
    alloc: Global,
    frame: &Frame,
    told: &Told,
    items: &mut ItemStore,
    id: ItemId,
    label: Text,
    value: Bytes,
    content: Text,
) -> Result<Prepared, ChangeRefused>
    requires { IsInStep told.now items.old }
    ensures prepared { IfOk result (IsPrepared frame.now told.now
        (Ok (
          rows_changed id.0 (replaced frame.now.time label value content)
              (rows_with told.now items.old),
          Changed.Changed id,
        )) items.old items.new) }
    ensures refused { IfErr result (MayRefuse frame.now
        told.now (Ok (
          rows_changed id.0 (replaced frame.now.time label value content)
              (rows_with told.now items.old),
          Changed.Changed id,
        ))) }
    ensures unchanged { OnErr result (items.new ≡ items.old) }
{
    let clear = told.clear();
    let edited = match copies_with_content(alloc, clear.items.as_slice(), id, &content) {
        Ok(edited) => edited,
        Err(_) => return Err(ChangeRefused::OutOfMemory),
    };
    let parts = Swap {
        label: Some(label),
        value: Some(value),
        modified: frame.time,
    };
    prepare_parts(alloc, frame, told, items, id, edited, parts)
}

/// Prepares the removal of an item.
fn prepare_removed(
    alloc: Global,
    frame: &Frame,
    told: &Told,
    items: &ItemStore,
    id: ItemId,
) -> Result<Prepared, ChangeRefused>
    requires { IsInStep told.now items.now }
    ensures prepared { IfOk result (IsPrepared frame.now told.now
        (rows_made (Change.Remove id) frame.now.time (rows_with told.now items.now))
        items.now items.now) }
    ensures refused { IfErr result (MayRefuse frame.now
        told.now (rows_made (Change.Remove id) frame.now.time
        (rows_with told.now items.now))) }
{
    if !has_item(items, id) {
        return Err(ChangeRefused::Item(ItemFault::NoItem));
    }
    let clear = told.clear();
    let edited = match copies_without(alloc, clear.items.as_slice(), id) {
        Ok(edited) => edited,
        Err(_) => return Err(ChangeRefused::OutOfMemory),
    };
    match sealed_with(alloc, frame, told, edited, items) {
        Ok((next, image)) => Ok(Prepared {
            next,
            image,
            rest: Rest::Leaving(id),
            answer: Changed::Removed(id),
        }),
        Err(SealRefused::TooLarge) => Err(ChangeRefused::TooLarge),
        Err(SealRefused::OutOfMemory) => Err(ChangeRefused::OutOfMemory),
    }
}

/// Prepares a new item.
fn prepare_added(
    alloc: Global,
    frame: &Frame,
    told: &Told,
    items: &mut ItemStore,
    label: Text,
    attributes: Attributes,
    value: Bytes,
    content: Text,
) -> Result<Prepared, ChangeRefused>
    requires { IsInStep told.now items.old }
    ensures prepared { IfOk result (IsPrepared frame.now told.now
        (made_new (next_id items.old) frame.now.time label attributes value content
        (rows_with told.now items.old)) items.old items.new) }
    ensures refused { IfErr result (MayRefuse frame.now told.now
        (made_new (next_id items.old) frame.now.time label attributes value content
        (rows_with told.now items.old))) }
    ensures unchanged { OnErr result (items.new ≡ items.old) }
{
    let clear = told.clear();
    let hashes = match hashed(alloc, &attributes) {
        Ok(hashes) => hashes,
        Err(_) => return Err(ChangeRefused::OutOfMemory),
    };
    let item = FullItem {
        label,
        value,
        created: frame.time,
        modified: frame.time,
        attributes,
        access: Items::empty(alloc),
    };
    let id = match items.add(item, 0) {
        Ok(id) => id,
        Err(ItemFault::NoItem) => unreachable!(),
        Err(ItemFault::IdsSpent) => return Err(ChangeRefused::Item(ItemFault::IdsSpent)),
        Err(ItemFault::TooManyAttributes) => {
            return Err(ChangeRefused::Item(ItemFault::TooManyAttributes));
        }
        Err(ItemFault::OutOfMemory) => return Err(ChangeRefused::OutOfMemory),
    };
    let last = ClearItem {
        id,
        kind: 0,
        hashed: Items::new(hashes),
        content,
    };
    let edited = match copies_and(alloc, clear.items.as_slice(), last) {
        Ok(edited) => edited,
        Err(_) => {
            take_out(items, id);
            return Err(ChangeRefused::OutOfMemory);
        }
    };
    match sealed_with(alloc, frame, told, edited, items) {
        Ok((next, image)) => Ok(Prepared {
            next,
            image,
            rest: Rest::Added(id),
            answer: Changed::Made(id),
        }),
        Err(SealRefused::TooLarge) => {
            take_out(items, id);
            Err(ChangeRefused::TooLarge)
        }
        Err(SealRefused::OutOfMemory) => {
            take_out(items, id);
            Err(ChangeRefused::OutOfMemory)
        }
    }
}

/// The least id of an item with exactly these attributes, if it is to be replaced.
pub fn equal_item(items: &ItemStore, replace: bool, attributes: &Attributes) -> Option<ItemId>
    ensures { option_map (λ id. id.0) result ≡ (if replace
        then first_id (ids_where (has_just attributes.now) items.now) else None) }
{
    if replace {
        items.by_equal(attributes)
    } else {
        None
    }
}

/// Whether a call brings too many attributes.
pub fn are_too_many(attributes: &Attributes) -> bool
    ensures { result ≡ nat_lt most_attributes (length attributes.now) }
{
    attributes.len() > MOST_ATTRIBUTES
}

/// Prepares a new item, or another label, secret and content type of an equal one.
fn prepare_add(
    alloc: Global,
    frame: &Frame,
    told: &Told,
    items: &mut ItemStore,
    label: Text,
    attributes: Attributes,
    value: Bytes,
    content: Text,
    replace: bool,
) -> Result<Prepared, ChangeRefused>
    requires { IsInStep told.now items.old }
    ensures prepared { IfOk result (IsPrepared frame.now told.now
        (rows_made (Change.Add label attributes value content replace) frame.now.time
        (rows_with told.now items.old)) items.old items.new) }
    ensures refused { IfErr result (MayRefuse frame.now told.now
        (rows_made (Change.Add label attributes value content replace) frame.now.time
        (rows_with told.now items.old))) }
    ensures unchanged { OnErr result (items.new ≡ items.old) }
{
    match equal_item(items, replace, &attributes) {
        Some(id) => {
            if are_too_many(&attributes) {
                return Err(ChangeRefused::Item(ItemFault::TooManyAttributes));
            }
            prepare_replaced(alloc, frame, told, items, id, label, value, content)
        }
        None => prepare_added(alloc, frame, told, items, label, attributes, value, content),
    }
}

/// Prepares a change, and takes all memory that it needs.
///
/// Refused as the change is, except for faults of the device. The items are then as before.
pub fn prepare(
    alloc: Global,
    frame: &Frame,
    told: &Told,
    items: &mut ItemStore,
    change: Change,
) -> Result<Prepared, ChangeRefused>
    requires { IsInStep told.now items.old }
    ensures prepared { IfOk result (IsPrepared frame.now
        (record told.now { name = name_made change told.now.name })
        (rows_made change frame.now.time (rows_with told.now items.old)) items.old items.new) }
    ensures refused { IfErr result (MayRefuse frame.now
        (record told.now { name = name_made change told.now.name })
        (rows_made change frame.now.time (rows_with told.now items.old))) }
    ensures unchanged { OnErr result (items.new ≡ items.old) }
{
    match change {
        Change::Add {
            label,
            attributes,
            value,
            content,
            replace,
        } => prepare_add(
            alloc, frame, told, items, label, attributes, value, content, replace,
        ),
        Change::SetSecret { id, value, content } => {
            prepare_secret(alloc, frame, told, items, id, value, content)
        }
        Change::SetLabel { id, label } => prepare_label(alloc, frame, told, items, id, label),
        Change::SetAttributes { id, attributes } => {
            prepare_attributes(alloc, frame, told, items, id, attributes)
        }
        Change::Remove { id } => prepare_removed(alloc, frame, told, items, id),
        Change::SetName { label } => prepare_name(alloc, frame, told, items, label),
    }
}

/// Prepares new attributes for an item.
fn prepare_attributes(
    alloc: Global,
    frame: &Frame,
    told: &Told,
    items: &mut ItemStore,
    id: ItemId,
    attributes: Attributes,
) -> Result<Prepared, ChangeRefused>
    requires { IsInStep told.now items.old }
    ensures prepared { IfOk result (IsPrepared frame.now told.now
        (rows_made (Change.SetAttributes id attributes) frame.now.time
        (rows_with told.now items.old)) items.old items.new) }
    ensures refused { IfErr result (MayRefuse frame.now told.now
        (rows_made (Change.SetAttributes id attributes) frame.now.time
        (rows_with told.now items.old))) }
    ensures unchanged { OnErr result (items.new ≡ items.old) }
{
    if !has_item(items, id) {
        return Err(ChangeRefused::Item(ItemFault::NoItem));
    }
    if are_too_many(&attributes) {
        return Err(ChangeRefused::Item(ItemFault::TooManyAttributes));
    }
    let clear = told.clear();
    let edited = match copies_with_hashes(alloc, clear.items.as_slice(), id, &attributes) {
        Ok(edited) => edited,
        Err(_) => return Err(ChangeRefused::OutOfMemory),
    };
    let taken = mem::replace(items, ItemStore::new(alloc));
    let moving = match taken.begin_attributes(id, attributes, frame.time) {
        Ok(moving) => moving,
        Err(back) => {
            *items = back;
            return Err(ChangeRefused::OutOfMemory);
        }
    };
    match sealed_rows(alloc, frame, told, edited, moving.rows()) {
        Ok((next, image)) => Ok(Prepared {
            next,
            image,
            rest: Rest::Moved(moving),
            answer: Changed::Changed(id),
        }),
        Err(SealRefused::TooLarge) => {
            *items = moving.undo();
            Err(ChangeRefused::TooLarge)
        }
        Err(SealRefused::OutOfMemory) => {
            *items = moving.undo();
            Err(ChangeRefused::OutOfMemory)
        }
    }
}
