// A search by the index of hashes finds what comparing each item finds.

use crate::checks::{cell, same_text};
use crate::words::{attributes_of, decimal, ids_told, joined, text_of};
use attribute_hash::hashed;
use attribute_match::hashed_matches;
use hashed_index::HashedIndex;
use keyring_file::ClearItem;
use kr_base::{Attributes, ItemId};
use kr_items::Items;
use std::alloc::Global;
use std::test::Fail;

// What is wanted of 1,000 items, and the ids of those that have it; * if only the comparison says so. The items
// have the rest of their number by 7 and the number, as texts and as numbers in turn.
const ROWS: &str = "\
| *
rest=3 | *
rest=#3 | *
own=303 | 303
own=304 | 304
own=#303 | 303
own=0303 |
own=+303 |
own=0 | 0
own=1000 |
rest=2 own=303 | 303
rest=3 own=303 |
own=304 rest=3 | 304
rest=7 |
rest=3 other=3 |
other= |
=3 |
";

// What marks the values of an item as numbers: those of odd ones are numbers, those of even ones texts.
fn mark_of(number: u32) -> &'static str {
    if number % 2 == 0 { "" } else { "#" }
}

// The rest of a number by 7 and the number.
fn words_of(alloc: Global, number: u32) -> Result<String, Fail> {
    let mark = mark_of(number);
    let rest = decimal(alloc, number % 7)?;
    let own = decimal(alloc, number)?;
    joined(
        alloc,
        &["rest=", mark, rest.as_str(), " own=", mark, own.as_str()],
    )
}

// An item of a locked collection with the hashes of these attributes.
fn item_of(alloc: Global, number: u32) -> Result<ClearItem, Fail> {
    let words = words_of(alloc, number)?;
    let attributes = attributes_of(alloc, words.as_str())?;
    Ok(ClearItem {
        id: ItemId(number),
        kind: 0,
        hashed: Items::new(hashed(alloc, &attributes)?),
        content: text_of(alloc, "text/plain")?,
    })
}

fn items_of(alloc: Global, count: u32) -> Result<Vec<ClearItem>, Fail> {
    let mut items = Vec::new(alloc);
    for number in 0..count {
        items.push(item_of(alloc, number)?)?;
    }
    Ok(items)
}

// The ids of the items that match, each of which is compared.
fn compared(alloc: Global, items: &[ClearItem], wanted: &Attributes) -> Result<String, Fail> {
    let mut ids = Vec::new(alloc);
    for item in items {
        if hashed_matches(wanted, item.hashed.as_slice()) {
            ids.push(item.id)?;
        }
    }
    ids_told(alloc, ids.as_slice())
}

// The ids that the index finds.
fn searched(alloc: Global, items: &[ClearItem], wanted: &Attributes) -> Result<String, Fail> {
    let index = HashedIndex::new(alloc, items)?;
    let found = index.search(alloc, items, wanted)?;
    ids_told(alloc, found.as_slice())
}

// The ids that the table says, or those that the comparison finds.
fn expected(
    alloc: Global,
    items: &[ClearItem],
    wanted: &Attributes,
    said: &str,
) -> Result<String, Fail> {
    match said {
        "*" => compared(alloc, items, wanted),
        "" => joined(alloc, &[]),
        _ => joined(alloc, &[said, " "]),
    }
}

#[test]
fn a_search_by_hashes_finds_what_comparing_each_item_finds(rt: HostRuntime) -> Result<(), Fail> {
    let alloc = rt.alloc();
    let items = items_of(alloc, 1000)?;
    for row in ROWS.lines() {
        let wanted = attributes_of(alloc, cell(row, 0))?;
        let found = searched(alloc, items.as_slice(), &wanted)?;
        let compared = compared(alloc, items.as_slice(), &wanted)?;
        let expected = expected(alloc, items.as_slice(), &wanted, cell(row, 1))?;
        same_text(&rt, found.as_str(), compared.as_str(), row);
        same_text(&rt, found.as_str(), expected.as_str(), row);
    }
    Ok(())
}
