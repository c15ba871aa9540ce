// keyring_seal.

ghost use Rattle.std.specs.Prelude.{◌≡◌, IfOk};
ghost use Rattle.attribute_hash.specs.Hash.{hashes};

use crate::checks::{cell, number, same_bytes, same_text};
use crate::files::whole_files_of_others;
use crate::words::{
    area_fault_told, clear_fault_told, decimal, digits_of, full_item_told, item_numbers_told,
    joined, salt_of, spaced, text_of,
};
use attribute_hash::hashed;
use key_derivation::{Derived, derive};
use keyring_file::{Clear, ClearItem, FullItem};
use keyring_seal::{Content, OpenFault, SealRefused, open, seal, seal_rows};
use keyring_text::ReadRefused;
use kr_base::{AttrValue, Attributes, Bytes, ItemId};
use kr_items::Items;
use md5::{Digest, Md5};
use std::alloc::Global;
use std::test::Fail;

/// The key of a row, with this password.
pub fn key_of(alloc: Global, row: &str, password: &str) -> Result<Derived, Fail> {
    let password = Bytes::new(hex::decode(alloc, password)?);
    let salt = salt_of(cell(row, 1))?;
    Ok(derive(password, salt, number(cell(row, 2))?))
}

fn item_told(alloc: Global, clear: &ClearItem, item: &FullItem) -> Result<String, Fail> {
    let full = full_item_told(alloc, item)?;
    let numbers = item_numbers_told(alloc, clear)?;
    spaced(
        alloc,
        &[numbers.as_str(), full.as_str(), clear.content.as_str()],
    )
}

fn times_told(alloc: Global, clear: &Clear) -> Result<String, Fail> {
    let created = decimal(alloc, clear.created)?;
    let modified = decimal(alloc, clear.modified)?;
    spaced(alloc, &[created.as_str(), modified.as_str()])
}

fn flags_told(alloc: Global, clear: &Clear) -> Result<String, Fail> {
    let flags = decimal(alloc, u64::from(clear.flags))?;
    let timeout = decimal(alloc, u64::from(clear.timeout))?;
    spaced(alloc, &[flags.as_str(), timeout.as_str()])
}

fn version_told(alloc: Global, clear: &Clear) -> Result<String, Fail> {
    let iterations = decimal(alloc, u64::from(clear.iterations))?;
    let minor = decimal(alloc, u64::from(clear.minor))?;
    joined(alloc, &[iterations.as_str(), " 0.", minor.as_str()])
}

fn clear_told(alloc: Global, clear: &Clear) -> Result<String, Fail> {
    let times = times_told(alloc, clear)?;
    let flags = flags_told(alloc, clear)?;
    let version = version_told(alloc, clear)?;
    let name = clear.name.as_str();
    spaced(
        alloc,
        &[name, times.as_str(), flags.as_str(), version.as_str()],
    )
}

fn content_told(alloc: Global, content: &Content) -> Result<String, Fail> {
    let mut told = clear_told(alloc, &content.clear)?;
    let items = content.items.as_slice();
    for (clear, item) in content.clear.items.as_slice().iter().zip(items) {
        told.push('~')?;
        told.push_str(item_told(alloc, clear, item)?.as_str())?;
    }
    Ok(told)
}

fn fault_told(alloc: Global, fault: OpenFault) -> Result<String, Fail> {
    match fault {
        OpenFault::Clear(fault) => {
            let told = clear_fault_told(alloc, fault)?;
            joined(alloc, &["clear part: ", told.as_str()])
        }
        OpenFault::Area(fault) => {
            let told = area_fault_told(alloc, fault)?;
            joined(alloc, &["area: ", told.as_str()])
        }
    }
}

/// The content of a file under a key, in words, or its fault.
fn opened(alloc: Global, file: &[u8], key: &Derived) -> Result<String, Fail> {
    match open(alloc, file, key) {
        Ok(content) => content_told(alloc, &content),
        Err(ReadRefused::Fault(fault)) => fault_told(alloc, fault),
        Err(ReadRefused::OutOfMemory) => Err("memory")?,
    }
}

fn row_opened(alloc: Global, row: &str) -> Result<String, Fail> {
    let file = hex::decode(alloc, cell(row, 5))?;
    let key = key_of(alloc, row, cell(row, 0))?;
    opened(alloc, file.as_slice(), &key)
}

#[test]
fn files_of_other_programs_open_item_by_item(rt: HostRuntime) -> Result<(), Fail> {
    for row in whole_files_of_others().lines() {
        let found = row_opened(rt.alloc(), row)?;
        same_text(&rt, found.as_str(), cell(row, 4), cell(row, 4));
    }
    Ok(())
}

/// The content of a file, opened and sealed again.
pub fn sealed_again(alloc: Global, file: &[u8], key: &Derived) -> Result<Vec<u8>, Fail> {
    let content = open(alloc, file, key).ok().ok_or("open")?;
    Ok(seal(alloc, &content, key).ok().ok_or("seal")?)
}

/// The length of bytes and their MD5.
fn digest_told(alloc: Global, bytes: &[u8]) -> Result<String, Fail> {
    let len = decimal(alloc, bytes.len() as u64)?;
    let digest = digits_of(alloc, Md5::digest(bytes).as_slice())?;
    spaced(alloc, &[len.as_str(), digest.as_str()])
}

fn row_sealed_again(alloc: Global, row: &str) -> Result<String, Fail> {
    let file = hex::decode(alloc, cell(row, 5))?;
    let key = key_of(alloc, row, cell(row, 0))?;
    let sealed = sealed_again(alloc, file.as_slice(), &key)?;
    digest_told(alloc, sealed.as_slice())
}

#[test]
fn what_was_opened_is_sealed_to_the_one_file(rt: HostRuntime) -> Result<(), Fail> {
    for row in whole_files_of_others().lines() {
        let found = row_sealed_again(rt.alloc(), row)?;
        same_text(&rt, found.as_str(), cell(row, 3), cell(row, 4));
    }
    Ok(())
}

fn opened_by_a_wrong_key(alloc: Global, row: &str) -> Result<String, Fail> {
    let file = hex::decode(alloc, cell(row, 5))?;
    let key = key_of(alloc, row, "00")?;
    opened(alloc, file.as_slice(), &key)
}

fn opened_without_the_last_byte(alloc: Global, row: &str) -> Result<String, Fail> {
    let mut file = hex::decode(alloc, cell(row, 5))?;
    let _ = file.pop();
    let key = key_of(alloc, row, cell(row, 0))?;
    opened(alloc, file.as_slice(), &key)
}

#[test]
fn a_wrong_key_and_a_cut_file_are_told_apart(rt: HostRuntime) -> Result<(), Fail> {
    for row in whole_files_of_others().lines() {
        let wrong = opened_by_a_wrong_key(rt.alloc(), row)?;
        same_text(&rt, wrong.as_str(), "area: CheckDiffers", cell(row, 4));
        let cut = opened_without_the_last_byte(rt.alloc(), row)?;
        same_text(&rt, cut.as_str(), "clear part: Short", cell(row, 4));
    }
    Ok(())
}

fn front_of(alloc: Global) -> Result<Clear, Fail>
    ensures { IfOk result (λ front. (front.minor ≡ 1) × (front.iterations ≡ 3)) }
{
    Ok(Clear {
        name: text_of(alloc, "rows")?,
        created: 1,
        modified: 2,
        flags: 0,
        timeout: 0,
        iterations: 3,
        salt: *b"saltsalt",
        items: Items::empty(alloc),
        minor: 1,
    })
}

/// One attribute of each kind.
fn note_attributes(alloc: Global) -> Result<Attributes, Fail> {
    let port = text_of(alloc, "port")?;
    let host = text_of(alloc, "host")?;
    let abc = text_of(alloc, "abc")?;
    let mut values = Vec::new(alloc);
    values.push((port, AttrValue::Number(1)))?;
    values.push((host, AttrValue::Text(abc)))?;
    Ok(Attributes::from_values(alloc, values)?)
}

fn note_told_fully(alloc: Global) -> Result<FullItem, Fail> {
    Ok(FullItem {
        label: text_of(alloc, "note")?,
        value: Bytes::from_slice(alloc, b"secret")?,
        created: 3,
        modified: 4,
        attributes: note_attributes(alloc)?,
        access: Items::empty(alloc),
    })
}

/// The clear part of an item, with hashes that are computed once and kept.
fn told_clearly(alloc: Global, item: &FullItem) -> Result<ClearItem, Fail>
    ensures { IfOk result (λ clear. clear.hashed ≡ hashes item.now.attributes) }
{
    let kept = hashed(alloc, &item.attributes)?;
    Ok(ClearItem {
        id: ItemId(7),
        kind: 1,
        hashed: Items::new(kept),
        content: text_of(alloc, "text/html")?,
    })
}

fn password_key(alloc: Global) -> Result<Derived, Fail> {
    let password = Bytes::from_slice(alloc, b"password")?;
    Ok(derive(password, *b"saltsalt", 3))
}

/// What was sealed, or no bytes if it would be too large.
fn sealed_bytes(alloc: Global, sealed: Result<Vec<u8>, SealRefused>) -> Result<Vec<u8>, Fail> {
    match sealed {
        Ok(file) => Ok(file),
        Err(SealRefused::TooLarge) => Ok(Vec::new(alloc)),
        Err(SealRefused::OutOfMemory) => Err("memory")?,
    }
}

fn rows_sealed(alloc: Global, room: usize, key: &Derived) -> Result<Vec<u8>, Fail> {
    let front = front_of(alloc)?;
    let item = note_told_fully(alloc)?;
    let clear = told_clearly(alloc, &item)?;
    let rows = [(&clear, &item)];
    let sealed = seal_rows(alloc, room, &front, &rows, key.key(), key.vector());
    sealed_bytes(alloc, sealed)
}

const NOTE: &str =
    "rows 1 2 0 0 3 0.1~7 1 'note' 736563726574 3 4 [host=abc;port=#1;] [] text/html";

// The length of the file and its MD5, by a program in Python that writes the format independently.
const NOTE_FILE: &str = "305 f987f4d4a303a1d0d612e00f90c1e67e";

#[test]
fn a_row_that_is_lent_is_sealed_to_the_one_file(rt: HostRuntime) -> Result<(), Fail> {
    let key = password_key(rt.alloc())?;
    let file = rows_sealed(rt.alloc(), 1_000, &key)?;
    let found = digest_told(rt.alloc(), file.as_slice())?;
    same_text(&rt, found.as_str(), NOTE_FILE, "what was sealed");
    let again = sealed_again(rt.alloc(), file.as_slice(), &key)?;
    same_bytes(&rt, again.as_slice(), file.as_slice(), "its content sealed");
    Ok(())
}

#[test]
fn rows_that_are_lent_are_sealed_within_the_room(rt: HostRuntime) -> Result<(), Fail> {
    let key = password_key(rt.alloc())?;
    let file = rows_sealed(rt.alloc(), 1_000, &key)?;
    let found = opened(rt.alloc(), file.as_slice(), &key)?;
    same_text(&rt, found.as_str(), NOTE, "what was sealed");
    let just = rows_sealed(rt.alloc(), file.len(), &key)?;
    same_bytes(&rt, just.as_slice(), file.as_slice(), "just as much");
    let none = rows_sealed(rt.alloc(), file.len().saturating_sub(1), &key)?;
    same_bytes(&rt, none.as_slice(), b"", "a byte too little");
    Ok(())
}
