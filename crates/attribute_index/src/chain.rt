// The tree of pairs that is made of all entries at once. The entries are in order of their keys, so nearly all
// of them belong at the last pair so far, or after it. The contracts don't rely on that order.
ghost use Rattle.std.specs.Prelude.{◌≡◌, ◌+◌, ◌<◌, ◌≤◌, ◌++◌, [], ◌∷◌, IfOk, IfSome, IsNone, OnOk, length, map};
ghost use Rattle.attribute_match.specs.Match.{text_of};
ghost use Rattle.attribute_index.specs.Branches.{height_of as height_in_side, pairs_of};
ghost use Rattle.attribute_index.specs.Entries.{Fill, HasSame, IsKept, IsMadeOf, IsPutAt, chained, own_pairs};
ghost use Rattle.attribute_index.specs.Index.{AllRise, IsLean, IsSorted, pair_cmp, pair_key};

use crate::branch::Branch;
use crate::entries::Entry;
use crate::keys::fits;
use crate::names::put_value;
use crate::pairs::{Pairs, branch_of_one, order, with_sides};
use kr_base::{AttrValue, ItemId, OutOfMemory, Text};
use std::alloc::{AllocError, Global};
use std::cmp::Ordering;
use std::mem;

/// Appends a pair with one id.
fn append(
    alloc: Global,
    done: &mut Vec<Box<Branch>>,
    last: &mut Box<Branch>,
    key: u32,
    name: &Text,
    text: &Text,
    id: ItemId,
) -> Result<(), OutOfMemory>
    requires key { key ≡ pair_key (name.now, text.now) }
    ensures { OnOk result (chained done.new.items last.new
        ≡ chained done.old.items last.old ++ ((name.now, text.now), id.0 ∷ []) ∷ []) }
{
    let own = branch_of_one(alloc, key, name, text, id)?;
    done.push(mem::replace(last, own))?;
    Ok(())
}

/// Puts an id at the last pair, or at a new one after it; None if the pair comes before the last one.
fn put_last(
    alloc: Global,
    done: &mut Vec<Box<Branch>>,
    last: &mut Box<Branch>,
    key: u32,
    name: &Text,
    text: &Text,
    id: ItemId,
) -> Option<Result<(), OutOfMemory>>
    requires key { key ≡ pair_key (name.now, text.now) }
    requires sorted { IsSorted (chained done.old.items last.old) }
    ensures put { IfSome result (λ answer. OnOk answer (IsPutAt name.now text.now id.0
        (chained done.old.items last.old) (chained done.new.items last.new))) }
    ensures kept { IsNone result
        → chained done.new.items last.new ≡ chained done.old.items last.old }
{
    fits(id.0);
    match order(key, name, text, last) {
        Ordering::Less => None,
        Ordering::Equal => Some(last.ids.insert(alloc, id)),
        Ordering::Greater => Some(append(alloc, done, last, key, name, text, id)),
    }
}

/// The same for the pair of an entry.
fn put_entry(
    alloc: Global,
    done: &mut Vec<Box<Branch>>,
    last: &mut Box<Branch>,
    entry: &Entry,
) -> Option<Result<(), OutOfMemory>>
    requires { IsSorted (chained done.old.items last.old) }
    ensures put { IfSome result (λ answer. OnOk answer (IsPutAt
        entry.now.0.0 entry.now.0.1 entry.now.1
        (chained done.old.items last.old) (chained done.new.items last.new))) }
    ensures kept { IsNone result
        → chained done.new.items last.new ≡ chained done.old.items last.old }
{
    match &entry.pair.1 {
        AttrValue::Text(text) => {
            put_last(alloc, done, last, entry.key, &entry.pair.0, text, entry.id)
        }
        AttrValue::Number(number) => {
            let text = Text::of_number(*number);
            put_last(alloc, done, last, entry.key, &entry.pair.0, &text, entry.id)
        }
    }
}

/// Puts the entries at the last pair or after it, each in its turn, and returns those that come before it.
/// That is so only for pairs with the same key as another.
fn put_entries<'a>(
    alloc: Global,
    done: &mut Vec<Box<Branch>>,
    last: &mut Box<Branch>,
    entries: &[Entry<'a>],
) -> Result<Vec<Entry<'a>>, OutOfMemory>
    requires { IsKept (chained done.old.items last.old) }
    ensures kept { IfOk result (λ left. IsKept (chained done.new.items last.new)) }
    ensures each { IfOk result (λ left. HasSame (chained done.new.items last.new) left.items
        (chained done.old.items last.old) entries.now) }
{
    let mut left = Vec::new(alloc);
    for entry in entries {
        match put_entry(alloc, done, last, entry) {
            Some(answer) => answer?,
            None => left.push(entry.copy())?,
        }
    }
    Ok(left)
}

/// The tree of the last ones of these branches, as many as are counted, which are taken out.
fn tree_of(branches: &mut Vec<Box<Branch>>, count: usize) -> Option<Box<Branch>>
    requires { count ≤ length branches.old.items }
    ensures pairs { own_pairs branches.old.items ≡ own_pairs branches.new.items ++ pairs_of result }
    ensures count { length branches.old.items ≡ length branches.new.items + count }
    ensures fill { Fill count (height_in_side result) }
{
    if count == 0 {
        return None;
    }
    let after = tree_of(branches, (count - 1) / 2);
    let own = match branches.pop() {
        Some(own) => own,
        None => unreachable!(),
    };
    let before = tree_of(branches, count / 2);
    Some(with_sides(own, before, after))
}

/// The tree of these branches and of the last one.
fn whole_tree(branches: Vec<Box<Branch>>, last: Box<Branch>) -> Result<Pairs, OutOfMemory>
    requires { IsSorted (chained branches.items last) }
    ensures { IfOk result (λ pairs. pairs ≡ chained branches.items last) }
{
    let mut branches = branches;
    branches.push(last)?;
    let count = branches.len();
    Ok(Pairs::of_root(tree_of(&mut branches, count)))
}

/// A branch of one pair with one id, which is the only pair so far.
fn branch_alone(
    alloc: Global,
    key: u32,
    name: &Text,
    text: &Text,
    id: ItemId,
) -> Result<Box<Branch>, OutOfMemory>
    requires { key ≡ pair_key (name.now, text.now) }
    ensures { IfOk result (λ made. IsPutAt name.now text.now id.0 [] (chained [] made)) }
{
    fits(id.0);
    let own = branch_of_one(alloc, key, name, text, id)?;
    Ok(own)
}

/// The same for the pair of an entry.
fn branch_of(alloc: Global, entry: &Entry) -> Result<Box<Branch>, OutOfMemory>
    ensures { IfOk result (λ made. IsPutAt entry.now.0.0 entry.now.0.1 entry.now.1
        [] (chained [] made)) }
{
    match &entry.pair.1 {
        AttrValue::Text(text) => branch_alone(alloc, entry.key, &entry.pair.0, text, entry.id),
        AttrValue::Number(number) => {
            let text = Text::of_number(*number);
            branch_alone(alloc, entry.key, &entry.pair.0, &text, entry.id)
        }
    }
}

/// Puts the ids of the entries at their pairs.
fn put_left(alloc: Global, pairs: &mut Pairs, left: &[Entry]) -> Result<(), OutOfMemory>
    ensures each { OnOk result (HasSame pairs.new [] pairs.old left.now) }
    ensures rise { AllRise pairs.old → AllRise pairs.new }
    ensures lean { IsLean pairs.old → IsLean pairs.new }
{
    for entry in left {
        fits(entry.id.0);
        put_value(alloc, pairs, &entry.pair.0, &entry.pair.1, entry.id)?;
    }
    Ok(())
}

/// The pairs of an entry and of others.
fn pairs_from(alloc: Global, first: &Entry, rest: &[Entry]) -> Result<Pairs, OutOfMemory>
    ensures { IfOk result (IsMadeOf (first.now ∷ rest.now)) }
{
    let mut done = Vec::new(alloc);
    let mut last = branch_of(alloc, first)?;
    let left = put_entries(alloc, &mut done, &mut last, rest)?;
    let mut pairs = whole_tree(done, last)?;
    put_left(alloc, &mut pairs, left.as_slice())?;
    Ok(pairs)
}

/// The pairs of the entries.
pub fn pairs_of_entries(alloc: Global, entries: &[Entry]) -> Result<Pairs, OutOfMemory>
    ensures { IfOk result (IsMadeOf entries.now) }
{
    match entries.split_first() {
        None => Ok(Pairs::new()),
        Some((first, rest)) => pairs_from(alloc, first, rest),
    }
}
