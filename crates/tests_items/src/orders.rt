// Pairs that are added and removed in different orders, so that the tree of the index is turned in each
// way in which it can be: to either side, once or twice, after a pair was added, removed, or moved up in
// place of one that was removed.

use crate::checks::{cell, same_text};
use crate::words::{add, ids_told, numbered, remove, rests, searched};
use item_store::ItemStore;
use kr_base::ItemId;
use std::alloc::{AllocGlobal, Global};
use std::process::Abort;
use std::test::Fail;

// In which order items are added, and in which they are removed.
const ORDERS: &str = "\
rising | rising
falling | falling
rising | mixed
falling | mixed
mixed | rising
mixed | falling
mixed | mixed
";

// What an item has by its number: a pair of its own, and one that it shares with others.
const PAIRS: &str = "own=1000 last=10";

// The number at a place from 1 to 210 in an order, where the powers of 2 modulo 211 are the mixed one.
fn placed(order: &str, place: u32, power: u32) -> u32 {
    match order {
        "rising" => place,
        "falling" => 211u32.saturating_sub(place),
        _ => power,
    }
}

// The numbers from 101 to 310 in an order. They have three digits, so their texts have the same order.
fn numbers(alloc: Global, order: &str) -> Result<Vec<u32>, Fail> {
    let mut numbers = Vec::new(alloc);
    let mut power = 1u32;
    for place in 1..211u32 {
        power = power.saturating_mul(2) % 211;
        numbers.push(placed(order, place, power).saturating_add(100))?;
    }
    Ok(numbers)
}

// The plain program: the id and the number of each item.
type Plain = Vec<(ItemId, u32)>;

// Takes the item of a number out of the plain program.
fn taken_out(plain: &mut Plain, number: u32) -> Result<ItemId, Fail> {
    for place in 0..plain.len() {
        if plain[place].1 == number {
            return Ok(plain.remove(place).0);
        }
    }
    Err("number")?
}

// The ids of the items whose number has this rest.
fn filtered(alloc: Global, plain: &Plain, modulus: u32, rest: u32) -> Result<String, Fail> {
    let mut ids = Vec::new(alloc);
    for (id, number) in plain.iter() {
        if number.checked_rem(modulus) == Some(rest) {
            ids.push(*id)?;
        }
    }
    ids_told(alloc, ids.as_slice())
}

// Asserts that a search for a pair finds the items whose number has this rest.
fn is_filter(
    rt: &(impl AllocGlobal + Abort),
    items: &ItemStore,
    plain: &Plain,
    name: &str,
    modulus: u32,
    rest: u32,
) -> Result<(), Fail> {
    let word = numbered(rt.alloc(), name, rest)?;
    let found = searched(rt.alloc(), items, word.as_str())?;
    let want = filtered(rt.alloc(), plain, modulus, rest)?;
    same_text(rt, found.as_str(), want.as_str(), word.as_str());
    Ok(())
}

// Asserts that a search for each pair finds what the plain program has.
fn are_filters(
    rt: &(impl AllocGlobal + Abort),
    items: &ItemStore,
    plain: &Plain,
) -> Result<(), Fail> {
    for number in 101..311u32 {
        is_filter(rt, items, plain, "own", 1000, number)?;
    }
    for last in 0..10u32 {
        is_filter(rt, items, plain, "last", 10, last)?;
    }
    Ok(())
}

// Adds items in an order, and compares after each thirty of them.
fn add_all(
    rt: &(impl AllocGlobal + Abort),
    items: &mut ItemStore,
    plain: &mut Plain,
    order: &str,
) -> Result<(), Fail> {
    for number in numbers(rt.alloc(), order)? {
        let words = rests(rt.alloc(), PAIRS, number)?;
        let id = add(rt.alloc(), items, words.as_str())?;
        plain.push((id, number))?;
        if plain.len() % 30 == 0 {
            are_filters(rt, items, plain)?;
        }
    }
    Ok(())
}

// Removes the items in an order, and compares after each thirty of them.
fn remove_all(
    rt: &(impl AllocGlobal + Abort),
    items: &mut ItemStore,
    plain: &mut Plain,
    order: &str,
) -> Result<(), Fail> {
    for number in numbers(rt.alloc(), order)? {
        remove(items, taken_out(plain, number)?)?;
        if plain.len() % 30 == 0 {
            are_filters(rt, items, plain)?;
        }
    }
    Ok(())
}

#[test]
fn pairs_are_found_however_they_are_added_and_removed(rt: HostRuntime) -> Result<(), Fail> {
    for row in ORDERS.lines() {
        let mut items = ItemStore::new(rt.alloc());
        let mut plain = Vec::new(rt.alloc());
        add_all(&rt, &mut items, &mut plain, cell(row, 0))?;
        remove_all(&rt, &mut items, &mut plain, cell(row, 1))?;
    }
    Ok(())
}
