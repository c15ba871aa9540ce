// An index that is made at once finds what a filter of the rows finds.
ghost use Rattle.std.specs.Prelude.{◌≡◌, ◌<◌};

use crate::checks::same_text;
use crate::words::{add, attributes_of, having, ids_told, rests};
use attribute_index::AttributeIndex;
use item_store::ItemStore;
use kr_base::{Attributes, ItemId, OutOfMemory, Steps};
use std::alloc::{AllocGlobal, Global};
use std::marker::Brand;
use std::process::Abort;
use std::sync::ledger::{Blank, Ledger};
use std::test::Fail;

// Words of one item after another. `k=vx` and `kv=x` have the same key, and so have `j=ab` and `ja=b`. Each of
// them comes before another one with the same key, and after it.
const ITEMS: &str = "\
k=vx
kv=x
k=vx kv=x
-
n=#4
n=4
ja=b kv=x
j=ab
j=ab ja=b n=#4
kv=x
k=vx n=#5
j=ab
";

// What is wanted.
const WANTED: &str = "\
k=vx
kv=x
k=vx kv=x
n=4
n=#4
n=#5
j=ab
ja=b
j=ab n=4
kv=x ja=b
k=v
a=0
a=2 b=6
a=1 b=3 c=10
a=1 d=0
d=0
a=3
-
";

// The words of a row, of which a line without words is `-`.
fn words_of(row: &str) -> &str {
    row.strip_prefix('-').unwrap_or(row)
}

// Three hundred items, all of which have d=0, with those of the table among them.
fn many(alloc: Global) -> Result<ItemStore, Fail> {
    let mut items = ItemStore::new(alloc);
    let mut number = 0u32;
    for row in ITEMS.lines() {
        let _ = add(alloc, &mut items, words_of(row))?;
        for _ in 0..25 {
            let words = rests(alloc, "a=3 b=7 c=11 d=1", number)?;
            let _ = add(alloc, &mut items, words.as_str())?;
            number = number.wrapping_add(1);
        }
    }
    Ok(items)
}

// The items' attributes, with their ids.
fn given(alloc: Global, items: &ItemStore) -> Result<Vec<(ItemId, &Attributes)>, OutOfMemory> {
    let mut given = Vec::new(alloc);
    for row in items.rows().as_slice() {
        given.push((row.0, &row.2.attributes))?;
    }
    Ok(given)
}

// An index of the items, made at once.
fn index_of(alloc: Global, items: &ItemStore) -> Result<AttributeIndex, Fail> {
    let given = given(alloc, items)?;
    Ok(AttributeIndex::of_items(alloc, given.as_slice())?)
}

// The ids that an index finds, with a count of its own.
fn found_by<L: Ledger>(
    index: &AttributeIndex,
    wanted: &Attributes,
    blank: Blank,
) -> Result<Vec<ItemId>, OutOfMemory>
    requires name { blank.name ≡ L.name }
    requires parts { blank.parts ≡ L.parts }
    requires some { 0 < L.parts }
{
    let mut steps = Steps::<L>::new(blank);
    index.find(wanted, &mut steps)
}

// The ids that an index finds, with a count of steps that nobody reads.
fn ids_found(index: &AttributeIndex, wanted: &Attributes) -> Result<Vec<ItemId>, OutOfMemory> {
    found_by::<Brand>(index, wanted, Blank::new(1))
}

// The ids that an index finds, as a text.
fn found(alloc: Global, index: &AttributeIndex, words: &str) -> Result<String, Fail> {
    let wanted = attributes_of(alloc, words)?;
    ids_told(alloc, ids_found(index, &wanted)?.as_slice())
}

fn is_filter(
    rt: &(impl AllocGlobal + Abort),
    index: &AttributeIndex,
    items: &ItemStore,
    words: &str,
) -> Result<(), Fail> {
    let found = found(rt.alloc(), index, words)?;
    let want = ids_told(rt.alloc(), having(rt.alloc(), items, words)?.as_slice())?;
    same_text(rt, found.as_str(), want.as_str(), words);
    Ok(())
}

#[test]
fn an_index_made_at_once_finds_what_the_rows_have(rt: HostRuntime) -> Result<(), Fail> {
    let items = many(rt.alloc())?;
    let index = index_of(rt.alloc(), &items)?;
    for row in WANTED.lines() {
        is_filter(&rt, &index, &items, words_of(row))?;
    }
    Ok(())
}

#[test]
fn an_index_of_no_items_finds_nothing(rt: HostRuntime) -> Result<(), Fail> {
    let items = ItemStore::new(rt.alloc());
    let index = index_of(rt.alloc(), &items)?;
    for row in WANTED.lines() {
        is_filter(&rt, &index, &items, words_of(row))?;
    }
    Ok(())
}
