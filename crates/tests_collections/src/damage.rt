// A file whose area is damaged, opened with its own key.
ghost use Rattle.std.specs.Prelude.{◌≤◌, IfOk, length};

use crate::checks::{cell, joined, number, over, same_text, word};
use crate::made::{loaded, made};
use crate::steps::{change, search, unlock};
use crate::words::key_of;
use aes_cbc::Key;
use collection_store::{Collection, UnlockRefused};
use key_derivation::Derived;
use keyring_file::{AreaFault, read_clear};
use kr_base::Bytes;
use kr_memory_disk::MemorySlot;
use md5::{Digest, Md5};
use std::alloc::{AllocGlobal, Global};
use std::process::Abort;
use std::test::Fail;

/// The file of a collection with an item whose attributes are k=v and l=w.
pub fn whole(alloc: Global) -> Result<Vec<u8>, Fail> {
    let mut collection = made(alloc)?;
    let _made = change(alloc, &mut collection, "add||k=v l=w", 1000)?;
    match collection.into_cell().image() {
        Some(image) => Ok(image.bytes().to_vec(alloc)?),
        None => Err("no file")?,
    }
}

// Where the area of a file begins.
fn area_place(alloc: Global, file: &[u8]) -> Result<usize, Fail>
    ensures { IfOk result (λ place. place ≤ length file.now) }
{
    match read_clear(alloc, file) {
        Ok((_, place)) => Ok(place),
        Err(_) => Err("clear")?,
    }
}

// Writes a byte at a place of the area's text, and the MD5 of the whole text before it.
fn damage(area: &mut [u8], place: usize, byte: u8) {
    if let Some(at) = area.get_mut(place.saturating_add(16)) {
        *at = byte;
    }
    if area.len() < 16 {
        return;
    }
    let (check, text) = area.split_at_mut(16);
    let digest = Md5::digest(&*text);
    check.copy_from_slice(&digest);
}

// The same, in an area that is encrypted under the key.
fn damage_encrypted(key: &Derived, area: &mut [u8], place: usize, byte: u8) {
    if area.len() % 16 != 0 {
        return;
    }
    let cipher = Key::new(key.key());
    cipher.decrypt_in_place(key.vector(), area);
    damage(area, place, byte);
    cipher.encrypt_in_place(key.vector(), area);
}

// Writes a byte at a place of the text of a file's area.
fn damage_file(alloc: Global, file: &mut [u8], place: usize, byte: u8) -> Result<(), Fail> {
    let start = area_place(alloc, file)?;
    let key = key_of(alloc, "password")?;
    let (_, area) = file.split_at_mut(start);
    damage_encrypted(&key, area, place, byte);
    Ok(())
}

// The collection of a file with another byte at a place of its area's text.
fn damaged(alloc: Global, place: usize, byte: u8) -> Result<Collection<MemorySlot>, Fail> {
    let mut file = whole(alloc)?;
    damage_file(alloc, file.as_mut_slice(), place, byte)?;
    loaded(alloc, Bytes::new(file))
}

fn fault(fault: &AreaFault) -> &'static str {
    match fault {
        AreaFault::CheckDiffers => "check",
        AreaFault::Short => "short",
        AreaFault::BadText => "text",
        AreaFault::BadKind => "kind",
        AreaFault::DuplicateName => "name",
    }
}

fn opened(collection: &mut Collection<MemorySlot>, key: Derived) -> &'static str {
    if !collection.fits(&key) {
        return "unfit";
    }
    match collection.unlock(key) {
        Ok(()) => "ok",
        Err(UnlockRefused::WrongPassword) => "wrong",
        Err(UnlockRefused::Damaged(cause)) => fault(&cause),
        Err(UnlockRefused::OutOfMemory) => "no memory",
    }
}

// A byte of the area's text, another one for it, and what comes of opening the file with its own key: the answer, and
// the ids of the items with k=v that are shown afterwards. Bytes 0 to 3 are the length of the label, 63 is the name of
// the first attribute and 77 that of the second one, and 64 to 67 are the kind of the first one's value.
const DAMAGED: &str = "\
0|0|ok 1
3|255|short 1
4|255|text 1
4|0|text 1
67|2|kind 1
77|107|name 1
";

fn opened_told(alloc: Global, collection: &mut Collection<MemorySlot>) -> Result<String, Fail> {
    let key = key_of(alloc, "password")?;
    let answer = opened(collection, key);
    let ids = search(alloc, collection, "k=v")?;
    joined(alloc, &[answer, ids.as_str()])
}

fn told(alloc: Global, place: usize, byte: u8) -> Result<String, Fail> {
    over(
        damaged(alloc, place, byte)?,
        |collection| opened_told(alloc, collection),
    )
}

#[test]
fn a_damaged_area_is_refused_by_its_cause(rt: HostRuntime) -> Result<(), Fail> {
    for row in DAMAGED.lines() {
        let place = number(cell(row, 0))? as usize;
        let byte = u8::try_from(number(cell(row, 1))?).ok().ok_or("a byte")?;
        let found = told(rt.alloc(), place, byte)?;
        same_text(&rt, found.as_str(), cell(row, 2), row);
    }
    Ok(())
}

// Steps over a file whose item has the attribute x=v and the hash of k=v, and the answers. What the file says is
// shown while it is locked, until a change has stored the hashes of the items' own attributes.
const HASHES: &str = "\
search||k=v|1
search||x=v|
unlock||password|ok
search||k=v|
search||x=v|1
lock|||ok
search||k=v|1
search||x=v|
unlock||password|ok
name||other|named
search||x=v|1
lock|||ok
search||k=v|
search||x=v|1
unlock||password|ok
search||x=v|1
";

fn step(alloc: Global, collection: &mut Collection<MemorySlot>, row: &str) -> Result<String, Fail> {
    match cell(row, 0) {
        "search" => search(alloc, collection, cell(row, 2)),
        "unlock" => word(alloc, unlock(alloc, collection, cell(row, 2))?),
        "lock" => {
            collection.lock();
            word(alloc, "ok")
        }
        _ => change(alloc, collection, row, 1000),
    }
}

/// Takes the steps of the rows, and compares the answers.
pub fn step_rows(
    rt: &(impl AllocGlobal + Abort),
    collection: &mut Collection<MemorySlot>,
    rows: &str,
) -> Result<(), Fail> {
    for row in rows.lines() {
        let found = step(rt.alloc(), collection, row)?;
        same_text(rt, found.as_str().trim(), cell(row, 3), row);
    }
    Ok(())
}

#[test]
fn the_hashes_of_the_file_are_shown_until_a_change(rt: HostRuntime) -> Result<(), Fail> {
    over(
        damaged(rt.alloc(), 63, 120)?,
        |collection| step_rows(&rt, collection, HASHES),
    )
}
