// What comes of each call of the device that fails.

use crate::checks::{cell, joined, numbers, same_text, word};
use crate::made::{Outcome, create};
use crate::steps::{change, delete, rekey, resolve, search, unlock};
use collection_store::Collection;
use kr_memory_disk::MemorySlot;
use kr_outside::Slot;
use std::alloc::Global;
use std::test::Fail;

// A step in a word.
fn step<S: Slot>(
    alloc: Global,
    collection: &mut Collection<S>,
    name: &str,
) -> Result<String, Fail> {
    match name {
        "add" => change(alloc, collection, "add||k=v", 1000),
        "key" => word(alloc, rekey(alloc, collection, 1000)?),
        "delete" => word(alloc, delete(collection)),
        "resolve" => word(alloc, resolve(alloc, collection)?),
        _ => word(alloc, unlock(alloc, collection, name)?),
    }
}

fn state<S: Slot>(collection: &Collection<S>) -> &'static str {
    if collection.is_open() {
        return "open";
    }
    if collection.is_known() {
        return "locked";
    }
    "doubt"
}

// What a step came to: its answer, the state, and the ids of the items with k=v that are shown.
fn step_told<S: Slot>(
    alloc: Global,
    collection: &mut Collection<S>,
    name: &str,
) -> Result<String, Fail> {
    let answer = step(alloc, collection, name)?;
    let state = state(collection);
    let ids = search(alloc, collection, "k=v")?;
    joined(alloc, &[", ", answer.as_str(), " ", state, ids.as_str()])
}

// What making the collection came to, and its state.
fn begun(alloc: Global, made: &str, state: &str) -> Result<String, Fail> {
    joined(alloc, &[made, " ", state])
}

// What the steps came to, after the collection was made.
fn steps_told<S: Slot>(
    alloc: Global,
    collection: &mut Collection<S>,
    steps: &str,
    made: &str,
) -> Result<String, Fail> {
    let mut told = begun(alloc, made, state(collection))?;
    for name in steps.split_whitespace() {
        told.push_str(step_told(alloc, collection, name)?.as_str())?;
    }
    Ok(told)
}

/// The same, and the slot after the steps.
pub fn lived<S: Slot>(
    alloc: Global,
    collection: Collection<S>,
    steps: &str,
    made: &str,
) -> Result<(String, S), Fail> {
    let mut collection = collection;
    let told = steps_told(alloc, &mut collection, steps, made);
    let slot = collection.into_cell().into_slot();
    Ok((told?, slot))
}

/// What the steps of a row came to, making the collection first, and the slot after them.
pub fn story(alloc: Global, row: &str) -> Result<(String, MemorySlot), Fail> {
    let failing = numbers(alloc, cell(row, 1))?;
    let done = numbers(alloc, cell(row, 2))?;
    let (answer, made) = create(alloc, failing, done, 1000)?;
    match made {
        Outcome::Collection(collection) => lived(alloc, collection, cell(row, 0), answer),
        Outcome::Slot(slot) => Ok((word(alloc, answer)?, slot)),
    }
}

// The steps after a collection was made; the calls of the device that fail; those of them that the disk performs
// nevertheless; and what each step came to. A change, and making the collection, has the calls put_temp,
// sync_temp, rename and sync_folder, a delete remove and sync_folder, and a resolve sync_folder and read; they
// are numbered from 0.
const FAULTS: &str = "\
|||ok open
|0||before
|1||before
resolve|2||unsure doubt, old locked
resolve password|2|2|unsure doubt, new locked, ok open
resolve password add|3||unsure doubt, new locked, ok open, made 1 open 1
resolve|2 3||unsure doubt, read doubt
resolve|3 4||unsure doubt, read doubt
resolve|3 5||unsure doubt, read doubt
add|||ok open, made 1 open 1
add add|4||ok open, before open, made 1 open 1
add add|5||ok open, before open, made 1 open 1
add resolve password|6||ok open, unsure doubt, old locked, ok open
add resolve password|6|6|ok open, unsure doubt, new locked 1, ok open 1
add resolve password|7||ok open, unsure doubt, new locked 1, ok open 1
add resolve resolve|7 8||ok open, unsure doubt, read doubt, new locked 1
add resolve resolve|7 9||ok open, unsure doubt, read doubt, new locked 1
add resolve resolve|6 7||ok open, unsure doubt, read doubt, old locked
add password add|6||ok open, unsure doubt, unfit doubt, locked doubt
add key|||ok open, made 1 open 1, ok open 1
add key password|8||ok open, made 1 open 1, before open 1, unfit open 1
add key key|9||ok open, made 1 open 1, before open 1, ok open 1
add key resolve later password|10||ok open, made 1 open 1, unsure doubt 1, old locked 1, unfit locked 1, ok open 1
add key resolve password later|10|10|ok open, made 1 open 1, unsure doubt 1, new locked 1, unfit locked 1, ok open 1
add key resolve password later|11||ok open, made 1 open 1, unsure doubt 1, new locked 1, unfit locked 1, ok open 1
add key resolve resolve|11 12||ok open, made 1 open 1, unsure doubt 1, read doubt 1, new locked 1
add delete|||ok open, made 1 open 1, ok locked 1
add delete resolve password|8||ok open, made 1 open 1, unsure doubt 1, old locked 1, ok open 1
add delete resolve password|8|8|ok open, made 1 open 1, unsure doubt 1, new locked 1, unfit locked 1
add delete resolve password|9||ok open, made 1 open 1, unsure doubt 1, new locked 1, unfit locked 1
add delete resolve|9 10||ok open, made 1 open 1, unsure doubt 1, read doubt 1
";

// What the steps of a row came to.
fn told(alloc: Global, row: &str) -> Result<String, Fail> {
    let (told, _) = story(alloc, row)?;
    Ok(told)
}

#[test]
fn a_call_that_fails_leaves_what_was_there_or_a_doubt(rt: HostRuntime) -> Result<(), Fail> {
    for row in FAULTS.lines() {
        let found = told(rt.alloc(), row)?;
        same_text(&rt, found.as_str(), cell(row, 3), row);
    }
    Ok(())
}
