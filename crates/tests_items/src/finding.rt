use crate::checks::same_text;
use crate::words::{add, attributes_of, decimal, equal, having, ids_told, remove, rests, searched};
use attribute_match::is_equal;
use item_store::ItemStore;
use kr_base::{Attributes, ItemId};
use std::alloc::{AllocGlobal, Global};
use std::process::Abort;
use std::test::Fail;

fn set(items: &mut ItemStore, id: ItemId, attributes: Attributes) -> Result<(), Fail> {
    Ok(items.set_attributes(id, attributes, 2).ok().ok_or("set")?)
}

// Removes a third of the items again, and gives a third other attributes.
fn change(alloc: Global, items: &mut ItemStore, number: u32) -> Result<(), Fail> {
    let id = ItemId(number.saturating_add(1));
    if number % 3 == 1 {
        return remove(items, id);
    }
    if number % 3 == 2 {
        let words = rests(alloc, "a=5 d=2", number)?;
        return set(items, id, attributes_of(alloc, words.as_str())?);
    }
    Ok(())
}

// Three hundred items, of which two thirds were changed.
fn some_hundred(alloc: Global) -> Result<ItemStore, Fail> {
    let mut items = ItemStore::new(alloc);
    for number in 0..300u32 {
        let words = rests(alloc, "a=3 b=7 c=11", number)?;
        let _ = add(alloc, &mut items, words.as_str())?;
    }
    for number in 0..300u32 {
        change(alloc, &mut items, number)?;
    }
    Ok(items)
}

fn is_filter(rt: &(impl AllocGlobal + Abort), items: &ItemStore, words: &str) -> Result<(), Fail> {
    let found = searched(rt.alloc(), items, words)?;
    let want = ids_told(rt.alloc(), having(rt.alloc(), items, words)?.as_slice())?;
    same_text(rt, found.as_str(), want.as_str(), words);
    Ok(())
}

#[test]
fn a_search_is_a_filter_of_the_rows(rt: HostRuntime) -> Result<(), Fail> {
    let items = some_hundred(rt.alloc())?;
    for number in 0..35u32 {
        let words = rests(rt.alloc(), "a=5 b=7", number)?;
        is_filter(&rt, &items, words.as_str())?;
    }
    Ok(())
}

// The least id of an item with exactly the attributes of the words, read from the rows.
fn first_equal(alloc: Global, items: &ItemStore, words: &str) -> Result<String, Fail> {
    let wanted = attributes_of(alloc, words)?;
    for row in items.rows().as_slice() {
        if is_equal(&wanted, &row.2.attributes) {
            return decimal(alloc, row.0.0);
        }
    }
    Ok(String::from_str(alloc, "none")?)
}

fn is_first(rt: &(impl AllocGlobal + Abort), items: &ItemStore, words: &str) -> Result<(), Fail> {
    let found = equal(rt.alloc(), items, words)?;
    let want = first_equal(rt.alloc(), items, words)?;
    same_text(rt, found.as_str(), want.as_str(), words);
    Ok(())
}

// Attributes are made as remainders by these moduli: those of an item as it was added, of one that was changed,
// and of no item.
const EQUALS: &str = "\
a=3 b=7 c=11
a=5 d=2
a=5
";

fn are_first(rt: &(impl AllocGlobal + Abort), items: &ItemStore, row: &str) -> Result<(), Fail> {
    for number in 0..300u32 {
        let words = rests(rt.alloc(), row, number)?;
        is_first(rt, items, words.as_str())?;
    }
    Ok(())
}

#[test]
fn an_equal_item_is_the_first_of_the_equal_rows(rt: HostRuntime) -> Result<(), Fail> {
    let items = some_hundred(rt.alloc())?;
    for row in EQUALS.lines() {
        are_first(&rt, &items, row)?;
    }
    Ok(())
}
