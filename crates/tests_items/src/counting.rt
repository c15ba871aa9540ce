// How many steps a search takes. Only contracts see what `find` counts. So a contract evaluates its bound for
// a thousand items, and a plain program, which searches lists as `find` does, counts its steps as it runs.
ghost use Rattle.std.specs.Prelude.{◌≡◌, ◌+◌, ◌<◌, ◌≤◌, []};
ghost use Rattle.attribute_match.specs.Match.{texts_of};
ghost use Rattle.tests_items.specs.Thousand.{IsThousand, tenth_group, third_group, thirteenth};

use crate::checks::{cell, count, same_number};
use crate::words::{add, attributes_of, having, rests};
use item_store::ItemStore;
use kr_base::{Attributes, ItemId, OutOfMemory, Steps};
use std::alloc::Global;
use std::marker::Brand;
use std::process::Abort;
use std::sync::ledger::{Blank, Ledger};
use std::test::Fail;

// What is wanted among the thousand items; how many have it; how many steps the clause of `find` allows; and
// how many the plain program takes.
const ROWS: &str = "\
group=3 number=13 | 1 | 2 | 2
group=3 | 100 | 100 | 100
| 1000 | 1000 | 1000
group=10 | 0 | 0 | 0
number=999 | 1 | 1 | 1
group=4 number=13 | 0 | 2 | 2
group=3 number=1000 | 0 | 0 | 0
";

// What is found among the thousand items; the contract bounds the steps.
fn found_in<L: Ledger>(
    items: &ItemStore,
    wanted: &Attributes,
    steps: &mut Steps<L>,
) -> Result<Vec<ItemId>, OutOfMemory>
    ensures thirteenth { IsThousand items.now → texts_of wanted.now ≡ thirteenth
        → steps.new ≤ steps.old + 2 }
    ensures third_group { IsThousand items.now → texts_of wanted.now ≡ third_group
        → steps.new ≤ steps.old + 100 }
    ensures tenth_group { IsThousand items.now → texts_of wanted.now ≡ tenth_group
        → steps.new ≤ steps.old }
    ensures all { IsThousand items.now → wanted.now ≡ [] → steps.new ≤ steps.old + 1000 }
{
    items.find(wanted, steps)
}

// The same, with a count of its own.
fn found_by<L: Ledger>(
    items: &ItemStore,
    wanted: &Attributes,
    blank: Blank,
) -> Result<Vec<ItemId>, OutOfMemory>
    requires name { blank.name ≡ L.name }
    requires parts { blank.parts ≡ L.parts }
    requires some { 0 < L.parts }
{
    let mut steps = Steps::<L>::new(blank);
    found_in(items, wanted, &mut steps)
}

// How many ids are found, with a count of steps that nobody reads.
fn count_found(items: &ItemStore, wanted: &Attributes) -> Result<usize, Fail> {
    Ok(found_by::<Brand>(items, wanted, Blank::new(1))?.len())
}

// The thousand items.
fn thousand(alloc: Global) -> Result<ItemStore, Fail> {
    let mut items = ItemStore::new(alloc);
    for number in 0..1000u32 {
        let words = rests(alloc, "group=10 number=1000", number)?;
        let _ = add(alloc, &mut items, words.as_str())?;
    }
    Ok(items)
}

// The list for each word; without a word, all ids.
fn lists(alloc: Global, items: &ItemStore, words: &str) -> Result<Vec<Vec<ItemId>>, Fail> {
    let mut lists = Vec::new(alloc);
    for word in words.split_whitespace() {
        lists.push(having(alloc, items, word)?)?;
    }
    if lists.is_empty() {
        lists.push(having(alloc, items, "")?)?;
    }
    Ok(lists)
}

// The index of the shortest list.
fn shortest(lists: &[Vec<ItemId>]) -> usize {
    let mut best = 0usize;
    let mut least = usize::MAX;
    for (place, list) in lists.iter().enumerate() {
        if list.len() < least {
            best = place;
            least = list.len();
        }
    }
    best
}

// Whether each list except one has an id. Each list that is looked at is one step.
fn all_have(lists: &[Vec<ItemId>], but: usize, id: ItemId, steps: &mut usize) -> bool {
    for (place, list) in lists.iter().enumerate() {
        if place == but {
            continue;
        }
        *steps = steps.saturating_add(1);
        if !list.contains(&id) {
            return false;
        }
    }
    true
}

// How many ids all lists have in common. Each id that is read is one more step.
fn in_all(lists: &[Vec<ItemId>], steps: &mut usize) -> usize {
    let least = shortest(lists);
    let mut found = 0usize;
    if let Some(list) = lists.get(least) {
        for id in list {
            *steps = steps.saturating_add(1);
            if all_have(lists, least, *id, steps) {
                found = found.saturating_add(1);
            }
        }
    }
    found
}

// How many steps the clause of `find` allows: as many as the rarest wanted pair has items, times the number
// of pairs, and as many as there are items if none is wanted.
fn most_steps(lists: &[Vec<ItemId>]) -> usize {
    match lists.get(shortest(lists)) {
        Some(list) => list.len().saturating_mul(lists.len()),
        None => 0,
    }
}

// Asserts what the plain program finds in the lists of a row, and in how many steps.
fn same_steps(rt: &impl Abort, lists: &[Vec<ItemId>], row: &str) -> Result<(), Fail> {
    let mut steps = 0usize;
    let found = in_all(lists, &mut steps);
    same_number(rt, found, count(cell(row, 1))?, row);
    same_number(rt, most_steps(lists), count(cell(row, 2))?, row);
    same_number(rt, steps, count(cell(row, 3))?, row);
    Ok(())
}

#[test]
fn a_thousand_items_are_found_in_few_steps(rt: HostRuntime) -> Result<(), Fail> {
    let items = thousand(rt.alloc())?;
    for row in ROWS.lines() {
        let wanted = attributes_of(rt.alloc(), cell(row, 0))?;
        same_number(
            &rt,
            count_found(&items, &wanted)?,
            count(cell(row, 1))?,
            row,
        );
        let lists = lists(rt.alloc(), &items, cell(row, 0))?;
        same_steps(&rt, lists.as_slice(), row)?;
    }
    Ok(())
}
