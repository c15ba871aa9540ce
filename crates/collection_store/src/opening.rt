// The state of an unlocked collection, made of the content that its file decrypts to.

ghost use Rattle.std.specs.Prelude.{◌≡◌, ◌⊎◌, IfOk, IfSome, IfNone, IsErrOf, OnErr, Ok, map};
ghost use Rattle.std.specs.List.{AllByRecursion, zip};
ghost use Rattle.std.specs.Map.{keys_of};
ghost use Rattle.attribute_hash.specs.Hash.{hashes};
ghost use Rattle.key_derivation.specs.Kdf.{key_of, vector_of};
ghost use Rattle.keyring_file.specs.Clear.{ClearPart};
ghost use Rattle.keyring_seal.specs.Arranged.{IsSealable, arranged_rows, hashed_row};
ghost use Rattle.keyring_seal.specs.Whole.{IsFileOf, opened};
ghost use Rattle.collection_store.specs.CollectionReading.{Unlocks};
ghost use Rattle.collection_store.specs.State.{AreParts, IsById, by_id, ids_of, rows_with, without_hashes};
ghost use Rattle.collection_store.specs.Parts.{OpensIn};
ghost use Rattle.keyring_seal.specs.Told.{HasSorted};
ghost use Rattle.keyring_file.specs.ClearText.{HasClear};

use crate::UnlockRefused;
use crate::arranged::{have_own_hashes, is_in_place, items_in_place};
use crate::holding::take_own;
use crate::order::in_order;
use crate::told::Told;
use attribute_hash::hashed;
use item_store::{ItemStore, rising_rows_are_one_list};
use key_derivation::Derived;
use keyring_file::{AreaFault, Clear, ClearItem, FullItem, a_file_that_is_spelled_so_is_read};
use keyring_seal::{Content, OpenFault, a_file_of_a_content_opens_to_it, open, open_area};
use keyring_text::ReadRefused;
use kr_base::{ItemId, OutOfMemory};
use kr_items::Items;
use std::alloc::Global;

/// The content of a file whose clear part has been read.
fn content_of(alloc: Global, file: &[u8], key: &Derived) -> Result<Content, UnlockRefused>
    requires { (clear : ClearPart) × HasClear file.now clear }
    ensures opened { IfOk result (λ content.
        opened file.now (key_of key.now) (vector_of key.now) ≡ Ok content) }
    ensures is_file { IfOk result (IsFileOf file.now (key_of key.now) (vector_of key.now)) }
    ensures sealable { IfOk result IsSealable }
    ensures refused { (refused : UnlockRefused) → IsErrOf result refused
        → (refused ≡ UnlockRefused.OutOfMemory)
        ⊎ Unlocks (opened file.now (key_of key.now) (vector_of key.now)) refused }
{
    a_file_that_is_spelled_so_is_read();
    match open(alloc, file, key) {
        Ok(content) => Ok(content),
        Err(ReadRefused::Fault(OpenFault::Area(AreaFault::CheckDiffers))) => {
            Err(UnlockRefused::WrongPassword)
        }
        Err(ReadRefused::Fault(OpenFault::Area(fault))) => Err(UnlockRefused::Damaged(fault)),
        Err(ReadRefused::Fault(OpenFault::Clear(_))) => unreachable!(),
        Err(ReadRefused::OutOfMemory) => Err(UnlockRefused::OutOfMemory),
    }
}

/// The items of a file that begins with the clear part as it is known. None if it doesn't.
fn area_of(
    alloc: Global,
    file: &[u8],
    clear: &Clear,
    key: &Derived,
) -> Result<Option<Vec<FullItem>>, UnlockRefused>
    requires { HasSorted file.now clear.now }
    ensures found { IfOk result (λ found. IfSome found (λ items.
        IsFileOf file.now (key_of key.now) (vector_of key.now)
        (record { clear = clear.now; items = items.items }))) }
    ensures refused { (refused : UnlockRefused) → IsErrOf result refused
        → (refused ≡ UnlockRefused.OutOfMemory)
        ⊎ Unlocks (opened file.now (key_of key.now) (vector_of key.now)) refused }
{
    match open_area(alloc, file, clear, key) {
        Ok(found) => Ok(found),
        Err(ReadRefused::Fault(AreaFault::CheckDiffers)) => Err(UnlockRefused::WrongPassword),
        Err(ReadRefused::Fault(fault)) => Err(UnlockRefused::Damaged(fault)),
        Err(ReadRefused::OutOfMemory) => Err(UnlockRefused::OutOfMemory),
    }
}

/// The items of the two parts of a file, joined in pairs.
fn joined(
    alloc: Global,
    clear: Vec<ClearItem>,
    items: Vec<FullItem>,
) -> Result<Vec<(ClearItem, FullItem)>, OutOfMemory>
    ensures { IfOk result (λ made. made.items ≡ zip clear.items items.items) }
{
    let mut rows = Vec::with_capacity(alloc, clear.len())?;
    let mut items = items.into_iter();
    for clear_item in clear {
        let Some(item) = items.next() else {
            break;
        };
        rows.push((clear_item, item))?;
    }
    Ok(rows)
}

/// The items of the clear part, with the hashes of the items' own attributes, and the rows of the items.
fn parted(
    alloc: Global,
    rows: Vec<(ClearItem, FullItem)>,
) -> Result<(Vec<ClearItem>, Vec<(ItemId, u32, FullItem)>), OutOfMemory>
    ensures clear { IfOk result (λ made.
        made.0.items ≡ map (λ row. (hashed_row row).0) rows.items) }
    ensures items { IfOk result (λ made.
        made.1.items ≡ map (λ row. (row.0.id, row.0.kind, row.1)) rows.items) }
{
    let mut clear = Vec::with_capacity(alloc, rows.len())?;
    let mut items = Vec::with_capacity(alloc, rows.len())?;
    for (clear_item, item) in rows {
        let ClearItem {
            id,
            kind,
            content,
            ..
        } = clear_item;
        clear.push(ClearItem {
            id,
            kind,
            hashed: Items::new(hashed(alloc, &item.attributes)?),
            content,
        })?;
        items.push((id, kind, item))?;
    }
    Ok((clear, items))
}

/// A content's clear part in order of ids, with the hashes of the items' own attributes, and its items.
fn arranged_parts(alloc: Global, content: Content) -> Result<(Told, ItemStore), OutOfMemory>
    requires { IsSealable content }
    ensures rows { IfOk result (λ made. rows_with made.0 made.1 ≡ arranged_rows content) }
    ensures ids { IfOk result (λ made. ids_of made.0.items ≡ keys_of made.1) }
    ensures hashed { IfOk result (λ made. AllByRecursion
        (λ row. row.0.hashed ≡ hashes row.1.attributes) (rows_with made.0 made.1)) }
    ensures same { IfOk result (λ made.
        without_hashes made.0 ≡ without_hashes (by_id content.clear)) }
{
    let Content { clear, items } = content;
    let Clear {
        name,
        created,
        modified,
        flags,
        timeout,
        iterations,
        salt,
        items: clear_items,
        minor,
    } = clear;
    let rows = joined(alloc, clear_items.into_vec(), items.into_vec())?;
    let ordered = in_order(alloc, rows)?;
    let (clear_items, given) = parted(alloc, ordered)?;
    rising_rows_are_one_list();
    let items = ItemStore::loaded(given)?;
    let told = Told::rising(Clear {
        name,
        created,
        modified,
        flags,
        timeout,
        iterations,
        salt,
        items: Items::new(clear_items),
        minor,
    });
    Ok((told, items))
}

/// The items of a file that begins with the clear part as it is known and has the hashes of the items' own
/// attributes. None if the file isn't so.
fn told_items(
    alloc: Global,
    file: &[u8],
    clear: &Clear,
    key: &Derived,
) -> Result<Option<ItemStore>, UnlockRefused>
    requires told { HasSorted file.now clear.now }
    requires rising { IsById clear.now }
    ensures parts { IfOk result (λ made. IfSome made (OpensIn file.now (key_of key.now)
        (vector_of key.now) clear.now)) }
    ensures refused { (refused : UnlockRefused) → IsErrOf result refused
        → (refused ≡ UnlockRefused.OutOfMemory)
        ⊎ Unlocks (opened file.now (key_of key.now) (vector_of key.now)) refused }
{
    a_file_of_a_content_opens_to_it();
    let Some(items) = area_of(alloc, file, clear, key)? else {
        return Ok(None);
    };
    if !have_own_hashes(clear.items.as_slice(), items.as_slice()) {
        return Ok(None);
    }
    match items_in_place(alloc, clear, items) {
        Ok(store) => Ok(Some(store)),
        Err(_) => Err(UnlockRefused::OutOfMemory),
    }
}

/// Opens a locked collection to a content: its items, and the clear part as it is in the file, unless that has the
/// hashes of the items' own attributes. Otherwise the clear part with these hashes takes its place.
fn take_parts(
    alloc: Global,
    told: &mut Told,
    content: Content,
) -> Result<(ItemStore, Option<Told>), OutOfMemory>
    requires sealable { IsSealable content }
    requires shown { told.old ≡ by_id content.clear }
    ensures parts { IfOk result (λ made. AreParts content told.new made.0) }
    ensures apart { IfOk result (λ made. IfSome made.1 (λ written. written ≡ told.old)) }
    ensures same { IfOk result (λ made. IfNone made.1 (told.new.items ≡ told.old.items)) }
    ensures unchanged { OnErr result (told.new ≡ told.old) }
{
    // Most files are so, and their clear part stays with its index.
    if is_in_place(&content) {
        let Content { clear, items } = content;
        let store = items_in_place(alloc, &clear, items.into_vec())?;
        return Ok((store, None));
    }
    let (own, items) = arranged_parts(alloc, content)?;
    let written = take_own(told, own);
    Ok((items, written))
}

/// Opens a locked collection with its file and a key: its items, and the clear part as it is in the file, unless
/// that has the hashes of the items' own attributes. Otherwise the clear part with these hashes takes its place.
pub fn opened_parts(
    alloc: Global,
    file: &[u8],
    told: &mut Told,
    key: &Derived,
) -> Result<(ItemStore, Option<Told>), UnlockRefused>
    requires { HasSorted file.now told.old }
    ensures parts { IfOk result (λ made.
        OpensIn file.now (key_of key.now) (vector_of key.now) told.new made.0) }
    ensures apart { IfOk result (λ made. IfSome made.1 (λ written. written ≡ told.old)) }
    ensures same { IfOk result (λ made. IfNone made.1 (told.new.items ≡ told.old.items)) }
    ensures refused { (refused : UnlockRefused) → IsErrOf result refused
        → (refused ≡ UnlockRefused.OutOfMemory)
        ⊎ Unlocks (opened file.now (key_of key.now) (vector_of key.now)) refused }
    ensures unchanged { OnErr result (told.new ≡ told.old) }
{
    // Most files are as a collection keeps them, and their clear part isn't read again.
    if let Some(items) = told_items(alloc, file, told.clear(), key)? {
        return Ok((items, None));
    }
    a_file_that_is_spelled_so_is_read();
    let content = content_of(alloc, file, key)?;
    match take_parts(alloc, told, content) {
        Ok(parts) => Ok(parts),
        Err(_) => Err(UnlockRefused::OutOfMemory),
    }
}
