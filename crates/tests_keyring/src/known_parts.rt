// keyring_seal: files whose clear part is known.

ghost use Rattle.std.specs.Prelude.{◌≡◌, IfOk, IsTrue};
ghost use Rattle.keyring_seal.specs.Order.{by_number};
ghost use Rattle.keyring_seal.specs.Told.{HasSorted};

use crate::checks::{cell, same_text};
use crate::files::whole_files_of_others;
use crate::whole_files::{key_of, sealed_again};
use crate::words::{decimal, full_item_told, joined};
use key_derivation::Derived;
use keyring_file::{Clear, ClearItem, FullItem, read_clear};
use keyring_seal::{open, open_area};
use std::alloc::Global;
use std::test::Fail;

/// Whether the numbers of the items rise.
fn are_rising(items: &[ClearItem]) -> bool
    ensures { IsTrue result → by_number (λ item. item.id.0) items.now ≡ items.now }
{
    for i in 0..items.len().saturating_sub(1) {
        if items[i].id.0 >= items[i + 1].id.0 {
            return false;
        }
    }
    true
}

/// The clear part of a file, if the numbers of its items rise.
fn clear_of(alloc: Global, file: &[u8]) -> Result<Clear, Fail>
    ensures { IfOk result (HasSorted file.now) }
{
    let (clear, _) = read_clear(alloc, file).ok().ok_or("a clear part")?;
    match are_rising(clear.items.as_slice()) {
        true => Ok(clear),
        false => Err("rising numbers")?,
    }
}

fn items_told(alloc: Global, items: &[FullItem]) -> Result<String, Fail> {
    let mut told = String::new(alloc);
    for item in items {
        told.push_str(full_item_told(alloc, item)?.as_str())?;
        told.push('~')?;
    }
    Ok(told)
}

/// The items of a file whose clear part is known, in words, or `none`.
fn area_told(alloc: Global, file: &[u8], key: &Derived) -> Result<String, Fail> {
    let clear = clear_of(alloc, file)?;
    match open_area(alloc, file, &clear, key) {
        Ok(Some(items)) => items_told(alloc, items.as_slice()),
        Ok(None) => joined(alloc, &["none"]),
        Err(_) => Err("an area")?,
    }
}

/// The items of a file, in words.
fn content_told(alloc: Global, file: &[u8], key: &Derived) -> Result<String, Fail> {
    let content = open(alloc, file, key).ok().ok_or("a content")?;
    items_told(alloc, content.items.as_slice())
}

/// The file of a row, sealed again: the numbers of its items rise.
fn row_sealed(alloc: Global, row: &str, key: &Derived) -> Result<Vec<u8>, Fail> {
    let file = hex::decode(alloc, cell(row, 5))?;
    sealed_again(alloc, file.as_slice(), key)
}

#[test]
fn the_area_of_a_sealed_file_is_read_alone(rt: HostRuntime) -> Result<(), Fail> {
    for row in whole_files_of_others().lines() {
        let key = key_of(rt.alloc(), row, cell(row, 0))?;
        let file = row_sealed(rt.alloc(), row, &key)?;
        let found = area_told(rt.alloc(), file.as_slice(), &key)?;
        let want = content_told(rt.alloc(), file.as_slice(), &key)?;
        same_text(&rt, found.as_str(), want.as_str(), cell(row, 4));
    }
    Ok(())
}

/// Where the reserved numbers of a file begin.
fn reserved_place(alloc: Global, file: &[u8]) -> Result<usize, Fail> {
    let (clear, _) = read_clear(alloc, file).ok().ok_or("a clear part")?;
    Ok(clear.name.as_str().len().saturating_add(60))
}

/// What is read of the file of a row if one of the reserved bytes isn't 0.
fn told_with_reserved(alloc: Global, row: &str, place: usize) -> Result<String, Fail> {
    let key = key_of(alloc, row, cell(row, 0))?;
    let mut file = row_sealed(alloc, row, &key)?;
    let start = reserved_place(alloc, file.as_slice())?;
    if let Some(byte) = file.get_mut(start.saturating_add(place)) {
        *byte = 1;
    }
    area_told(alloc, file.as_slice(), &key)
}

/// The third file, which is of version 0.1; its last item has an empty content type.
fn third_row() -> &'static str {
    whole_files_of_others()
        .lines()
        .nth(2)
        .unwrap_or("no such row")
}

#[test]
fn a_file_with_reserved_bytes_is_read_whole(rt: HostRuntime) -> Result<(), Fail> {
    for place in 0..16_u8 {
        let found = told_with_reserved(rt.alloc(), third_row(), usize::from(place))?;
        let at = decimal(rt.alloc(), u64::from(place))?;
        same_text(&rt, found.as_str(), "none", at.as_str());
    }
    Ok(())
}

/// Makes the last content type, which is empty, an absent one. It is before the length of the area.
fn leave_out_content(alloc: Global, file: &mut [u8]) -> Result<(), Fail> {
    let (_, place) = read_clear(alloc, &*file).ok().ok_or("a clear part")?;
    let start = place.saturating_sub(8);
    match file.get_mut(start..start.saturating_add(4)) {
        Some(length) => length.fill(255),
        None => Err("a content type")?,
    }
    Ok(())
}

fn told_without_content(alloc: Global, row: &str) -> Result<String, Fail> {
    let key = key_of(alloc, row, cell(row, 0))?;
    let mut file = row_sealed(alloc, row, &key)?;
    leave_out_content(alloc, file.as_mut_slice())?;
    area_told(alloc, file.as_slice(), &key)
}

#[test]
fn a_file_with_an_absent_text_is_read_whole(rt: HostRuntime) -> Result<(), Fail> {
    let found = told_without_content(rt.alloc(), third_row())?;
    same_text(&rt, found.as_str(), "none", "an absent content type");
    Ok(())
}
