// What a crash at each moment leaves, loaded and opened again.

use crate::checks::{cell, over, same_text, word};
use crate::faults::story;
use crate::made::loaded;
use crate::steps::{search, unlock};
use collection_store::Collection;
use kr_base::{Bytes, ItemId};
use kr_memory_disk::MemorySlot;
use std::alloc::Global;
use std::test::Fail;

// The secret of the first item.
fn secret(collection: &Collection<MemorySlot>) -> &str {
    match collection.item(ItemId(1)) {
        Some(item) => str::from_utf8(item.value.as_slice()).unwrap_or("no text"),
        None => "none",
    }
}

// The password under which the collection opens.
fn password(alloc: Global, collection: &mut Collection<MemorySlot>) -> Result<&'static str, Fail> {
    if unlock(alloc, collection, "password")? == "ok" {
        return Ok("password");
    }
    if unlock(alloc, collection, "later")? == "ok" {
        return Ok("later");
    }
    Ok("none")
}

// The password under which the collection opens, the ids of the items with k=v, and the secret of the first item.
fn opened(alloc: Global, collection: &mut Collection<MemorySlot>) -> Result<String, Fail> {
    let mut told = word(alloc, password(alloc, collection)?)?;
    told.push_str(search(alloc, collection, "k=v")?.as_str())?;
    told.push(' ')?;
    told.push_str(secret(collection))?;
    Ok(told)
}

// An image, loaded and opened again.
fn opened_again(alloc: Global, image: Bytes) -> Result<String, Fail> {
    over(
        loaded(alloc, image)?,
        |collection| opened(alloc, collection),
    )
}

// The letter of an image: . for no file, e for the empty collection, o for its item under the old password, n
// for its item under the new one.
fn letter_of(alloc: Global, image: Option<Bytes>) -> Result<&'static str, Fail> {
    match image {
        None => Ok("."),
        Some(image) => Ok(match opened_again(alloc, image)?.as_str() {
            "password none" => "e",
            "password 1 secret" => "o",
            "later 1 secret" => "n",
            _ => "?",
        }),
    }
}

fn add_letter(letter: &str, letters: &mut String) -> Result<(), Fail> {
    if !letters.contains(letter) {
        letters.push_str(letter)?;
    }
    Ok(())
}

// The letters of the images that a crash leaves if the machine stopped after this many calls.
fn left_at(alloc: Global, slot: &mut MemorySlot, calls: usize) -> Result<String, Fail> {
    slot.cut(calls);
    let mut letters = word(alloc, "")?;
    for choice in 0..slot.count_left()? {
        let image = slot.left(choice as u64)?;
        add_letter(letter_of(alloc, image)?, &mut letters)?;
    }
    Ok(letters)
}

// The steps, the calls that fail and those that the disk performs nevertheless, as in the table of faults; and
// what a crash leaves if the machine stopped after all calls of the device, after one fewer, down to none. A
// rename that failed counts as done until the folder is synced.
const LEFT: &str = "\
|||e .e . . .
|0||. .
|1||. . .
|2||e. . . .
|2|2|.e . . .
|3||.e .e . . .
resolve|2||. . e. . . .
resolve|3||e e .e .e . . .
add|||o eo e e e .e . . .
add|4||e e .e . . .
add|5||e e e .e . . .
add|6||oe e e e .e . . .
add|6|6|eo e e e .e . . .
add|7||eo eo e e e .e . . .
add resolve|6||e e oe e e e .e . . .
add resolve|7||o o eo eo e e e .e . . .
add resolve|7 8||eo eo eo e e e .e . . .
add key|||n on o o o eo e e e .e . . .
add key|8||o o eo e e e .e . . .
add key|9||o o o eo e e e .e . . .
add key|10||no o o o eo e e e .e . . .
add key|10|10|on o o o eo e e e .e . . .
add key|11||on on o o o eo e e e .e . . .
add key resolve|10||o o no o o o eo e e e .e . . .
add key resolve|11||n n on on o o o eo e e e .e . . .
add delete|||. o. o eo e e e .e . . .
add delete|8||.o o eo e e e .e . . .
add delete|8|8|o. o eo e e e .e . . .
add delete|9||o. o. o eo e e e .e . . .
add delete resolve|8||o o .o o eo e e e .e . . .
add delete resolve|9||. . o. o. o eo e e e .e . . .
";

// What a crash leaves after all calls, then after one fewer, down to none.
fn left(alloc: Global, slot: &mut MemorySlot) -> Result<String, Fail> {
    let mut left = word(alloc, "")?;
    for calls in (0..slot.calls().len().saturating_add(1)).rev() {
        left.push_str(left_at(alloc, slot, calls)?.as_str())?;
        left.push(' ')?;
    }
    Ok(left)
}

// The same, after the steps of a row.
fn left_after(alloc: Global, row: &str) -> Result<String, Fail> {
    let (_, slot) = story(alloc, row)?;
    over(slot, |slot| left(alloc, slot))
}

#[test]
fn a_crash_leaves_a_file_that_opens_to_what_was_stored(rt: HostRuntime) -> Result<(), Fail> {
    for row in LEFT.lines() {
        let found = left_after(rt.alloc(), row)?;
        same_text(&rt, found.as_str().trim(), cell(row, 3), row);
    }
    Ok(())
}
