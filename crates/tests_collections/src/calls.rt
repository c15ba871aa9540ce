// Calls of one collection in turn.

use crate::checks::{add_number, cell, joined, number, over, same_text, word};
use crate::made::{create, made};
use crate::steps::{change, rekey, search, unlock};
use crate::words::id_of;
use collection_store::Collection;
use keyring_file::FullItem;
use kr_memory_disk::MemorySlot;
use std::alloc::{AllocGlobal, Global};
use std::process::Abort;
use std::test::Fail;

// What is asked of a collection in turn, with an id and with attributes or a text, and the answer. An item is
// its secret, its label, and its two times; what is shown is the label, the two times, the iterations, and the
// number of items.
const CONVERSATION: &str = "\
shown|||login 100 100 3 0
search|||
add|||made 1
add|||made 2
add||k=v|made 3
add||j=v|made 4
add||k=v|made 5
replace||k=v|changed 3
add||k=v|made 6
search||k=v|3 5 6
remove|3||removed 3
search||k=v|5 6
remove|3||item
secret|3|text/plain|item
label|3|other|item
attributes|3|k=w|item
item|3||none
lock|||ok
search||k=v|5 6
item|5||none
add||k=v|locked
key|||locked
unlock||other|wrong
unlock||later|unfit
unlock||password|ok
unlock||password|unfit
search||k=v|5 6
attributes|5|k=w|changed 5
search||k=v|6
search||k=w|5
secret|6|image/png|changed 6
label|6|other|changed 6
item|6||other other 200 200
item|5||secret label 200 200
name||other|named
content|6||image/png
content|5||text/plain
content|3||none
lock|||ok
content|6||image/png
search||k=w|5
unlock||password|ok
search|||1 2 4 5 6
shown|||other 100 200 3 5
key|||ok
shown|||other 100 300 2 5
search||k=w|5
lock|||ok
unlock||password|unfit
unlock||later|ok
item|6||other other 200 200
";

fn content(alloc: Global, collection: &Collection<MemorySlot>, row: &str) -> Result<String, Fail> {
    match collection.content(id_of(row)?) {
        Some(content) => word(alloc, content.as_str()),
        None => word(alloc, "none"),
    }
}

fn secret_of(item: &FullItem) -> &str {
    str::from_utf8(item.value.as_slice()).unwrap_or("no text")
}

fn item_told(alloc: Global, item: &FullItem) -> Result<String, Fail> {
    let mut told = joined(alloc, &[secret_of(item), " ", item.label.as_str()])?;
    add_number(alloc, &mut told, item.created)?;
    add_number(alloc, &mut told, item.modified)?;
    Ok(told)
}

fn item(alloc: Global, collection: &Collection<MemorySlot>, row: &str) -> Result<String, Fail> {
    match collection.item(id_of(row)?) {
        Some(item) => item_told(alloc, item),
        None => word(alloc, "none"),
    }
}

fn shown(alloc: Global, collection: &Collection<MemorySlot>) -> Result<String, Fail> {
    let mut told = word(alloc, collection.label().as_str())?;
    add_number(alloc, &mut told, collection.created())?;
    add_number(alloc, &mut told, collection.modified())?;
    add_number(alloc, &mut told, collection.iterations() as u64)?;
    add_number(alloc, &mut told, collection.most_items() as u64)?;
    Ok(told)
}

fn locked(alloc: Global, collection: &mut Collection<MemorySlot>) -> Result<String, Fail> {
    collection.lock();
    word(alloc, "ok")
}

// The answer to a row.
fn answer(
    alloc: Global,
    collection: &mut Collection<MemorySlot>,
    row: &str,
) -> Result<String, Fail> {
    match cell(row, 0) {
        "search" => search(alloc, collection, cell(row, 2)),
        "content" => content(alloc, collection, row),
        "item" => item(alloc, collection, row),
        "shown" => shown(alloc, collection),
        "lock" => locked(alloc, collection),
        "unlock" => word(alloc, unlock(alloc, collection, cell(row, 2))?),
        "key" => key_changed(alloc, collection, 1000),
        _ => change(alloc, collection, row, 1000),
    }
}

fn answer_rows(
    rt: &(impl AllocGlobal + Abort),
    collection: &mut Collection<MemorySlot>,
) -> Result<(), Fail> {
    for row in CONVERSATION.lines() {
        let found = answer(rt.alloc(), collection, row)?;
        same_text(rt, found.as_str().trim(), cell(row, 3), row);
    }
    Ok(())
}

#[test]
fn calls_are_answered_in_turn(rt: HostRuntime) -> Result<(), Fail> {
    over(made(rt.alloc())?, |collection| answer_rows(&rt, collection))
}

// What is done with this many bytes of room, and what comes of it: the answer, and the ids of the
// items afterwards. A new collection has 105 bytes, and other keys don't change its length.
const ROOMS: &str = "\
create|104|too large
create|105|ok
add|100|too large
add|1000|made 1 1
key|0|ok
";

fn created(alloc: Global, room: u64) -> Result<&'static str, Fail> {
    let (answer, _made) = create(alloc, Vec::new(alloc), Vec::new(alloc), room)?;
    Ok(answer)
}

fn added(
    alloc: Global,
    collection: &mut Collection<MemorySlot>,
    room: u64,
) -> Result<String, Fail> {
    let answer = change(alloc, collection, "add||k=v", room)?;
    let ids = search(alloc, collection, "")?;
    joined(alloc, &[answer.as_str(), ids.as_str()])
}

fn changed(alloc: Global, room: u64) -> Result<String, Fail> {
    over(made(alloc)?, |collection| added(alloc, collection, room))
}

fn key_changed(
    alloc: Global,
    collection: &mut Collection<MemorySlot>,
    room: u64,
) -> Result<String, Fail> {
    word(alloc, rekey(alloc, collection, room)?)
}

fn rekeyed(alloc: Global, room: u64) -> Result<String, Fail> {
    over(
        made(alloc)?,
        |collection| key_changed(alloc, collection, room),
    )
}

fn in_room(alloc: Global, name: &str, room: u64) -> Result<String, Fail> {
    match name {
        "create" => word(alloc, created(alloc, room)?),
        "key" => rekeyed(alloc, room),
        _ => changed(alloc, room),
    }
}

#[test]
fn a_file_that_would_be_too_large_is_refused(rt: HostRuntime) -> Result<(), Fail> {
    for row in ROOMS.lines() {
        let found = in_room(rt.alloc(), cell(row, 0), number(cell(row, 1))?)?;
        same_text(&rt, found.as_str(), cell(row, 2), row);
    }
    Ok(())
}
