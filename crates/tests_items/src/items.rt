ghost use Rattle.std.specs.Prelude.{◌≡◌, ◌∷◌, [], IfOk, map};

use crate::checks::{cell, number, same_text};
use crate::words::{attributes_of, decimal, equal, item_of, joined, searched, text_of};
use item_store::{ItemFault, ItemStore};
use keyring_file::FullItem;
use kr_base::{Bytes, ItemId};
use std::alloc::{AllocGlobal, Global};
use std::process::Abort;
use std::test::Fail;

// The number and the kind of a row.
fn row_told(alloc: Global, number: u32, kind: u32) -> Result<String, Fail> {
    let number = decimal(alloc, number)?;
    let kind = decimal(alloc, kind)?;
    joined(alloc, &[number.as_str(), ":", kind.as_str()])
}

// The numbers and kinds of the rows, in their order.
fn rows_told(alloc: Global, items: &ItemStore) -> Result<String, Fail> {
    let mut told = String::new(alloc);
    for row in items.rows().as_slice() {
        told.push_str(row_told(alloc, row.0.0, row.1)?.as_str())?;
        told.push_str(" ")?;
    }
    Ok(told)
}

// What is called in turn, with which id and which attributes, and the result. Items 3 and 5 have k=v,
// as in the first rows.
const CONVERSATION: &str = "\
add|||1
add|||2
add||k=v|3
add|||4
add||k=v|5
equal||k=v|3
add||k=v|6
search||k=v|3 5 6
remove|3||ok
search||k=v|5 6
equal||k=v|5
remove|3||NoItem
label|3||NoItem
secret|3||NoItem
label|5||ok
attributes|5|k=w|ok
attributes|3|k=w|NoItem
search||k=v|6
search||k=w|5
search|||1 2 4 5 6
equal|||1
equal||k=v j=v|none
remove|6||ok
add||j=v k=v|6
search||k=v|6
equal||k=v|none
equal||k=v j=v|6
search||j=v|6
";

fn done_told(done: Result<(), ItemFault>) -> &'static str {
    match done {
        Ok(()) => "ok",
        Err(ItemFault::NoItem) => "NoItem",
        Err(ItemFault::IdsSpent) => "IdsSpent",
        Err(ItemFault::TooManyAttributes) => "TooManyAttributes",
        Err(ItemFault::OutOfMemory) => "OutOfMemory",
    }
}

fn add(items: &mut ItemStore, item: FullItem) -> Result<ItemId, ItemFault> {
    items.add(item, 0)
}

fn added_told(alloc: Global, added: Result<ItemId, ItemFault>) -> Result<String, Fail> {
    match added {
        Ok(id) => decimal(alloc, id.0),
        Err(fault) => Ok(String::from_str(alloc, done_told(Err(fault)))?),
    }
}

fn remove(items: &mut ItemStore, id: ItemId) -> Result<(), ItemFault> {
    let _ = items.remove(id)?;
    Ok(())
}

type Done = Result<(), ItemFault>;

fn set_label(alloc: Global, items: &mut ItemStore, id: ItemId) -> Result<Done, Fail> {
    Ok(items.set_label(id, text_of(alloc, "other")?, 2))
}

fn set_secret(alloc: Global, items: &mut ItemStore, id: ItemId) -> Result<Done, Fail> {
    Ok(items.set_secret(id, Bytes::from_slice(alloc, b"other")?, 2))
}

fn set_attributes(
    alloc: Global,
    items: &mut ItemStore,
    id: ItemId,
    words: &str,
) -> Result<Done, Fail> {
    Ok(items.set_attributes(id, attributes_of(alloc, words)?, 2))
}

// Changes the item of a row.
fn change(alloc: Global, items: &mut ItemStore, row: &str) -> Result<Done, Fail> {
    let id = ItemId(number(cell(row, 1))?);
    match cell(row, 0) {
        "remove" => Ok(remove(items, id)),
        "label" => set_label(alloc, items, id),
        "secret" => set_secret(alloc, items, id),
        "attributes" => set_attributes(alloc, items, id, cell(row, 2)),
        _ => Err("no such change")?,
    }
}

fn changed(alloc: Global, items: &mut ItemStore, row: &str) -> Result<String, Fail> {
    let done = change(alloc, items, row)?;
    Ok(String::from_str(alloc, done_told(done))?)
}

fn added(alloc: Global, items: &mut ItemStore, words: &str) -> Result<String, Fail> {
    let item = item_of(alloc, words)?;
    added_told(alloc, add(items, item))
}

// The result of a row's call.
fn answer(alloc: Global, items: &mut ItemStore, row: &str) -> Result<String, Fail> {
    match cell(row, 0) {
        "add" => added(alloc, items, cell(row, 2)),
        "rows" => rows_told(alloc, items),
        "search" => searched(alloc, items, cell(row, 2)),
        "equal" => equal(alloc, items, cell(row, 2)),
        _ => changed(alloc, items, row),
    }
}

// Asserts that the calls of the rows have their results.
fn answer_rows(
    rt: &(impl AllocGlobal + Abort),
    items: &mut ItemStore,
    rows: &str,
) -> Result<(), Fail> {
    for row in rows.lines() {
        let found = answer(rt.alloc(), items, row)?;
        same_text(rt, found.as_str().trim(), cell(row, 3), row);
    }
    Ok(())
}

#[test]
fn items_are_added_found_changed_and_removed(rt: HostRuntime) -> Result<(), Fail> {
    let mut items = ItemStore::new(rt.alloc());
    answer_rows(&rt, &mut items, CONVERSATION)
}

// What is called on items 7, 3 and 5, which were loaded in that order, and the result.
const LOADED: &str = "\
rows|||3:0 5:2 7:1
search||k=v|3 7
search|||3 5 7
equal||k=v|7
equal|||5
remove|4||NoItem
remove|7||ok
add||k=v|6
rows|||3:0 5:2 6:0
";

// A row to be loaded.
fn row(alloc: Global, id: u32, kind: u32, words: &str) -> Result<(ItemId, u32, FullItem), Fail>
    ensures { IfOk result (λ row. row.0.0 ≡ id) }
{
    Ok((ItemId(id), kind, item_of(alloc, words)?))
}

// Three rows to be loaded.
fn three(alloc: Global) -> Result<Vec<(ItemId, u32, FullItem)>, Fail>
    ensures { IfOk result (λ rows. map (λ row. row.0.0) rows.items ≡ 7 ∷ 3 ∷ 5 ∷ []) }
{
    let mut rows = Vec::new(alloc);
    rows.push(row(alloc, 7, 1, "k=v")?)?;
    rows.push(row(alloc, 3, 0, "k=v a=b")?)?;
    rows.push(row(alloc, 5, 2, "")?)?;
    Ok(rows)
}

// The three rows, loaded.
fn three_loaded(alloc: Global) -> Result<ItemStore, Fail> {
    let rows = three(alloc)?;
    Ok(ItemStore::loaded(rows)?)
}

#[test]
fn given_rows_are_loaded_by_rising_id(rt: HostRuntime) -> Result<(), Fail> {
    let mut items = three_loaded(rt.alloc())?;
    answer_rows(&rt, &mut items, LOADED)
}

// What is called when one item has the greatest id that there is, and the result.
const REFUSALS: &str = "\
add||*257|IdsSpent
add|||IdsSpent
attributes|1|*257|NoItem
attributes|4294967295|*257|TooManyAttributes
attributes|4294967295|*256|ok
equal||*256|4294967295
remove|4294967295||ok
add||*257|TooManyAttributes
add||*256|1
";

// A row with the greatest id.
fn last(alloc: Global) -> Result<Vec<(ItemId, u32, FullItem)>, Fail>
    ensures { IfOk result (λ rows. map (λ row. row.0.0) rows.items ≡ 4294967295 ∷ []) }
{
    let mut rows = Vec::new(alloc);
    rows.push(row(alloc, u32::MAX, 0, "")?)?;
    Ok(rows)
}

// This row, loaded.
fn last_loaded(alloc: Global) -> Result<ItemStore, Fail> {
    let rows = last(alloc)?;
    Ok(ItemStore::loaded(rows)?)
}

#[test]
fn refusals_come_in_their_order(rt: HostRuntime) -> Result<(), Fail> {
    let mut items = last_loaded(rt.alloc())?;
    answer_rows(&rt, &mut items, REFUSALS)
}
