// What is done with a collection, each call in a word.
ghost use Rattle.std.specs.Prelude.{◌≡◌};

use crate::checks::{add_number, decimal, joined, word};
use crate::words::{attributes_of, change_of, key_of, refusal};
use collection_store::{Change, ChangeRefused, Changed, Collection, UnlockRefused};
use item_store::ItemFault;
use kr_base::ItemId;
use kr_outside::Slot;
use replace_slot::{FaultRead, Found, RemoveFault};
use std::alloc::Global;
use std::test::Fail;

// Whether what a change answered is what was known before.
fn is_known(known: &Result<Changed, ItemFault>, made: &Result<Changed, ChangeRefused>) -> bool {
    match (known, made) {
        (Ok(known), Ok(answer)) => known == answer,
        (Err(known), Err(ChangeRefused::Item(fault))) => known == fault,
        (Ok(_), Err(ChangeRefused::Item(_))) => false,
        (Ok(_), Err(_)) => true,
        _ => false,
    }
}

// Makes a change at the time 200, and says whether its answer was known before. None if the collection is
// locked.
fn changed<S: Slot>(
    collection: &mut Collection<S>,
    change: Change,
    room: u64,
) -> Option<(bool, Result<Changed, ChangeRefused>)> {
    if !collection.is_open() {
        return None;
    }
    let known = collection.answer_to(&change);
    let made = collection.change(change, 200, room);
    Some((is_known(&known, &made), made))
}

fn numbered(alloc: Global, name: &str, id: ItemId) -> Result<String, Fail> {
    let number = decimal(alloc, id.0 as u64)?;
    joined(alloc, &[name, " ", number.as_str()])
}

fn change_told(alloc: Global, changed: Changed) -> Result<String, Fail> {
    match changed {
        Changed::Made(id) => numbered(alloc, "made", id),
        Changed::Changed(id) => numbered(alloc, "changed", id),
        Changed::Removed(id) => numbered(alloc, "removed", id),
        Changed::Named => word(alloc, "named"),
    }
}

/// Makes the change of a row, with this many bytes of room.
pub fn change<S: Slot>(
    alloc: Global,
    collection: &mut Collection<S>,
    row: &str,
    room: u64,
) -> Result<String, Fail> {
    let change = change_of(alloc, row)?;
    match changed(collection, change, room) {
        Some((false, _)) => word(alloc, "unknown"),
        Some((true, Ok(changed))) => change_told(alloc, changed),
        Some((true, Err(refused))) => word(alloc, refusal(&refused)),
        None => word(alloc, "locked"),
    }
}

fn unlock_refusal(refused: &UnlockRefused) -> &'static str {
    match refused {
        UnlockRefused::WrongPassword => "wrong",
        UnlockRefused::Damaged(_) => "damaged",
        UnlockRefused::OutOfMemory => "no memory",
    }
}

/// Unlocks with the key of a password.
pub fn unlock<S: Slot>(
    alloc: Global,
    collection: &mut Collection<S>,
    password: &str,
) -> Result<&'static str, Fail> {
    let key = key_of(alloc, password)?;
    if !collection.fits(&key) {
        return Ok("unfit");
    }
    match collection.unlock(key) {
        Ok(()) => Ok("ok"),
        Err(refused) => Ok(unlock_refusal(&refused)),
    }
}

fn done(answer: Result<(), ChangeRefused>) -> &'static str {
    match answer {
        Ok(()) => "ok",
        Err(refused) => refusal(&refused),
    }
}

/// Stores the collection under the key of `later`.
pub fn rekey<S: Slot>(
    alloc: Global,
    collection: &mut Collection<S>,
    room: u64,
) -> Result<&'static str, Fail> {
    let key = key_of(alloc, "later")?;
    if !collection.is_open() {
        return Ok("locked");
    }
    Ok(done(collection.rekey(key, 300, room)))
}

/// Deletes the file.
pub fn delete<S: Slot>(collection: &mut Collection<S>) -> &'static str {
    if !collection.is_open() {
        return "locked";
    }
    match collection.delete() {
        Ok(()) => "ok",
        Err(RemoveFault::FaultUnsure) => "unsure",
    }
}

/// Resolves a doubt.
pub fn resolve<S: Slot>(
    alloc: Global,
    collection: &mut Collection<S>,
) -> Result<&'static str, Fail> {
    let mut buffer = vec![in alloc; 0; 1000]?;
    if collection.is_known() || collection.longest() >= buffer.len() {
        return Ok("known");
    }
    match collection.resolve(buffer.as_mut_slice()) {
        Ok(Found::Old) => Ok("old"),
        Ok(Found::New) => Ok("new"),
        Ok(Found::Other) => Ok("other"),
        Err(FaultRead) => Ok("read"),
    }
}

fn ids(alloc: Global, ids: &[ItemId]) -> Result<String, Fail> {
    let mut told = String::new(alloc);
    for id in ids {
        add_number(alloc, &mut told, id.0 as u64)?;
    }
    Ok(told)
}

/// The ids of the items that have the attributes of these words, a space before each.
pub fn search<S: Slot>(
    alloc: Global,
    collection: &Collection<S>,
    words: &str,
) -> Result<String, Fail> {
    let wanted = attributes_of(alloc, words)?;
    let found = collection.search(&wanted)?;
    ids(alloc, found.as_slice())
}
