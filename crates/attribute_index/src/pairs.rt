ghost use Rattle.std.specs.Prelude.{◌≡◌, ◌+◌, ◌<◌, ◌≤◌, max, [], ◌∷◌, ◌++◌, None, OnOk, OnErr, IfOk, length, nat_le};
ghost use Rattle.std.specs.Map.{lookup, remove_entry};
ghost use Rattle.std.specs.Option.{option_copied};
ghost use Rattle.std.specs.Ordering.{is_lt};
ghost use Rattle.attribute_index.specs.Around.{all_of, between, height as height_in, with_own};
ghost use Rattle.attribute_index.specs.Branches.{IsBalanced, height_after, height_before, height_of as height_in_side, key_beside, pairs_after, pairs_before, pairs_of};
ghost use Rattle.attribute_index.specs.Heights.{DifferByAtMost, IsGrown, fewest, greatest_height};
ghost use Rattle.attribute_index.specs.Index.{IsLean, IsPut, IsPutThere, IsSame, IsSorted, IsTaken, IsTakenThere, is_pair, is_this, pair_cmp, pair_key, text_cmp};

use crate::branch::{Branch, Sides};
use crate::keys::key_of_pair;
use kr_base::{IdList, ItemId, OutOfMemory, Text};
use std::alloc::{AllocError, Global};
use std::cmp::Ordering;
use std::marker::Model;
use std::mem;

/// How a name and a text compare to those of a branch: by the name, and by the text if the names are the
/// same.
#[inline(never)]
fn order_of_texts(name: &Text, text: &Text, branch: &Branch) -> Ordering
    ensures { result ≡ text_cmp (name.now, text.now) (branch.now.name, branch.now.text) }
{
    match name.cmp(&branch.name) {
        Ordering::Equal => text.cmp(&branch.text),
        Ordering::Less => Ordering::Less,
        Ordering::Greater => Ordering::Greater,
    }
}

/// The key of a branch's pair.
#[inline(always)]
fn key_of(branch: &Branch) -> u32
    ensures { result ≡ pair_key (branch.now.name, branch.now.text) }
{
    match &branch.sides {
        Sides::Neither(key) => *key,
        Sides::Before(key, _) => *key,
        Sides::After(key, _) => *key,
        Sides::Both(_, key, _, _) => *key,
    }
}

/// How a name and a text compare to those of a branch: by their keys, and by the name and the text if the
/// keys are the same.
#[inline(always)]
pub fn order(key: u32, name: &Text, text: &Text, branch: &Branch) -> Ordering
    requires { key ≡ pair_key (name.now, text.now) }
    ensures { result ≡ pair_cmp (name.now, text.now) (branch.now.name, branch.now.text) }
{
    match key.cmp(&key_of(branch)) {
        Ordering::Equal => order_of_texts(name, text, branch),
        Ordering::Less => Ordering::Less,
        Ordering::Greater => Ordering::Greater,
    }
}

/// Whether the pair of a branch comes before that of another.
fn is_before(one: &Branch, other: &Branch) -> bool
    ensures { result
        ≡ is_lt (pair_cmp (one.now.name, one.now.text) (other.now.name, other.now.text)) }
{
    order(key_of(one), &one.name, &one.text, other).is_lt()
}

/// The height of a branch: how many pairs there are on the longest way down, with its own.
#[inline(always)]
fn height(branch: &Branch) -> u8
    ensures height { result ≡ height_in branch.now }
    ensures many { fewest (height_in branch.now) ≤ length (all_of branch.now) }
{
    match &branch.sides {
        Sides::Neither(_) => 1,
        Sides::Before(_, _) => 2,
        Sides::After(_, _) => 2,
        Sides::Both(height, _, _, _) => *height,
    }
}

/// The height of a side.
fn height_of(side: &Option<Box<Branch>>) -> u8
    ensures { result ≡ height_in_side side.now }
{
    match side {
        Some(branch) => height(branch),
        None => 0,
    }
}

/// These two sides in as little memory as they need, with the key of the pair between them.
fn joined_sides(key: u32, before: Option<Box<Branch>>, after: Option<Box<Branch>>) -> Sides
    requires alike { DifferByAtMost 1 (height_in_side before) (height_in_side after) }
    requires fits { max (height_in_side before) (height_in_side after) < greatest_height }
    ensures key { key_beside result ≡ key }
    ensures before { pairs_before result ≡ pairs_of before }
    ensures after { pairs_after result ≡ pairs_of after }
    ensures height_before { height_before result ≡ height_in_side before }
    ensures height_after { height_after result ≡ height_in_side after }
    ensures balanced { IsBalanced result }
{
    match before {
        None => match after {
            None => Sides::Neither(key),
            Some(after) => Sides::After(key, after),
        },
        Some(before) => match after {
            None => Sides::Before(key, before),
            Some(after) => {
                let height = height(&before).max(height(&after)) + 1;
                Sides::Both(height, key, before, after)
            }
        },
    }
}

/// Takes the sides out of a branch.
fn take_sides(branch: &mut Branch) -> (Option<Box<Branch>>, Option<Box<Branch>>)
    ensures before { pairs_of result.0 ≡ branch.old.before }
    ensures after { pairs_of result.1 ≡ branch.old.after }
    ensures name { branch.new.name ≡ branch.old.name }
    ensures text { branch.new.text ≡ branch.old.text }
    ensures ids { branch.new.ids ≡ branch.old.ids }
    ensures under { branch.old.under
        ≡ max (height_in_side result.0) (height_in_side result.1) }
    ensures alike { DifferByAtMost 1 (height_in_side result.0) (height_in_side result.1) }
    ensures fits { branch.old.under < greatest_height }
{
    let key = key_of(branch);
    match mem::replace(&mut branch.sides, Sides::Neither(key)) {
        Sides::Neither(_) => (None, None),
        Sides::Before(_, before) => (Some(before), None),
        Sides::After(_, after) => (None, Some(after)),
        Sides::Both(_, _, before, after) => (Some(before), Some(after)),
    }
}

/// A branch taken apart: the pairs before it, the branch without its sides, and the pairs after it.
fn parted(branch: Box<Branch>) -> (Option<Box<Branch>>, Box<Branch>, Option<Box<Branch>>)
    ensures pairs { all_of branch.value
        ≡ between (pairs_of result.0) result.1.value (pairs_of result.2) }
    ensures under { branch.value.under
        ≡ max (height_in_side result.0) (height_in_side result.2) }
    ensures alike { DifferByAtMost 1 (height_in_side result.0) (height_in_side result.2) }
    ensures fits { branch.value.under < greatest_height }
{
    let mut branch = branch;
    let (before, after) = take_sides(&mut branch);
    (before, branch, after)
}

/// Puts these sides in place of a branch's own.
fn put_sides(branch: &mut Branch, before: Option<Box<Branch>>, after: Option<Box<Branch>>)
    requires alike { DifferByAtMost 1 (height_in_side before) (height_in_side after) }
    requires fits { max (height_in_side before) (height_in_side after) < greatest_height }
    ensures pairs { all_of branch.new ≡ between (pairs_of before) branch.old (pairs_of after) }
    ensures under { branch.new.under ≡ max (height_in_side before) (height_in_side after) }
{
    let key = key_of(branch);
    branch.sides = joined_sides(key, before, after);
}

/// The branch with its sides replaced by these.
pub fn with_sides(
    branch: Box<Branch>,
    before: Option<Box<Branch>>,
    after: Option<Box<Branch>>,
) -> Box<Branch>
    requires alike { DifferByAtMost 1 (height_in_side before) (height_in_side after) }
    requires fits { max (height_in_side before) (height_in_side after) < greatest_height }
    ensures pairs { all_of result.value
        ≡ between (pairs_of before) branch.value (pairs_of after) }
    ensures under { result.value.under
        ≡ max (height_in_side before) (height_in_side after) }
{
    let mut branch = branch;
    put_sides(&mut branch, before, after);
    branch
}

/// A branch with these sides; the one before it is higher by two, and is rotated.
#[inline(never)]
fn lean_before(branch: Box<Branch>, before: Box<Branch>, after: Option<Box<Branch>>) -> Box<Branch>
    requires lean { height_in before.value ≡ height_in_side after + 2 }
    requires fits { height_in before.value < greatest_height }
    ensures pairs { all_of result.value
        ≡ between (all_of before.value) branch.value (pairs_of after) }
    ensures height { IsGrown (height_in before.value) (height_in result.value) }
{
    let (outer, before, inner) = parted(before);
    if height_of(&outer) >= height_of(&inner) {
        return with_sides(before, outer, Some(with_sides(branch, inner, after)));
    }
    match inner {
        None => unreachable!(),
        Some(inner) => {
            let (low, inner, high) = parted(inner);
            with_sides(
                inner,
                Some(with_sides(before, outer, low)),
                Some(with_sides(branch, high, after)),
            )
        }
    }
}

/// A branch with these sides; the one after it is higher by two, and is rotated.
#[inline(never)]
fn lean_after(branch: Box<Branch>, before: Option<Box<Branch>>, after: Box<Branch>) -> Box<Branch>
    requires lean { height_in after.value ≡ height_in_side before + 2 }
    requires fits { height_in after.value < greatest_height }
    ensures pairs { all_of result.value
        ≡ between (pairs_of before) branch.value (all_of after.value) }
    ensures height { IsGrown (height_in after.value) (height_in result.value) }
{
    let (inner, after, outer) = parted(after);
    if height_of(&outer) >= height_of(&inner) {
        return with_sides(after, Some(with_sides(branch, before, inner)), outer);
    }
    match inner {
        None => unreachable!(),
        Some(inner) => {
            let (low, inner, high) = parted(inner);
            with_sides(
                inner,
                Some(with_sides(branch, before, low)),
                Some(with_sides(after, high, outer)),
            )
        }
    }
}

/// A branch with these sides, whose heights differ by at most two. It is rotated so that the heights of the
/// new sides differ by at most one.
fn balanced(
    branch: Box<Branch>,
    before: Option<Box<Branch>>,
    after: Option<Box<Branch>>,
) -> Box<Branch>
    requires alike { DifferByAtMost 2 (height_in_side before) (height_in_side after) }
    requires fits { max (height_in_side before) (height_in_side after) < greatest_height }
    ensures pairs { all_of result.value
        ≡ between (pairs_of before) branch.value (pairs_of after) }
    ensures height { IsGrown (max (height_in_side before) (height_in_side after))
        (height_in result.value) }
    ensures alike { DifferByAtMost 1 (height_in_side before) (height_in_side after)
        → height_in result.value ≡ max (height_in_side before) (height_in_side after) + 1 }
{
    let low = height_of(&before);
    let high = height_of(&after);
    if low > high + 1 {
        return match before {
            Some(before) => lean_before(branch, before, after),
            None => unreachable!(),
        };
    }
    if high > low + 1 {
        return match after {
            Some(after) => lean_after(branch, before, after),
            None => unreachable!(),
        };
    }
    with_sides(branch, before, after)
}

/// These two sides, whose greater height is known, with the key of the pair between them.
#[inline(always)]
fn both_sides(key: u32, under: u8, before: Box<Branch>, after: Box<Branch>) -> Sides
    requires alike { DifferByAtMost 1 (height_in before.value) (height_in after.value) }
    requires under { under ≡ max (height_in before.value) (height_in after.value) }
    requires fits { under < greatest_height }
    ensures key { key_beside result ≡ key }
    ensures before { pairs_before result ≡ all_of before.value }
    ensures after { pairs_after result ≡ all_of after.value }
    ensures height_before { height_before result ≡ height_in before.value }
    ensures height_after { height_after result ≡ height_in after.value }
    ensures balanced { IsBalanced result }
{
    let _low = height(&before);
    let _high = height(&after);
    Sides::Both(under + 1, key, before, after)
}

/// Replaces a branch's sides by two whose greater height is known.
#[inline(always)]
fn put_both(branch: &mut Branch, under: u8, before: Box<Branch>, after: Box<Branch>)
    requires alike { DifferByAtMost 1 (height_in before.value) (height_in after.value) }
    requires under { under ≡ max (height_in before.value) (height_in after.value) }
    requires fits { under < greatest_height }
    ensures pairs { all_of branch.new
        ≡ between (all_of before.value) branch.old (all_of after.value) }
    ensures under { branch.new.under ≡ under }
{
    let key = key_of(branch);
    branch.sides = both_sides(key, under, before, after);
}

/// The branch with its sides replaced by two whose greater height is known.
#[inline(always)]
fn with_both(branch: Box<Branch>, under: u8, before: Box<Branch>, after: Box<Branch>) -> Box<Branch>
    requires alike { DifferByAtMost 1 (height_in before.value) (height_in after.value) }
    requires under { under ≡ max (height_in before.value) (height_in after.value) }
    requires fits { under < greatest_height }
    ensures pairs { all_of result.value
        ≡ between (all_of before.value) branch.value (all_of after.value) }
    ensures under { result.value.under ≡ under }
{
    let mut branch = branch;
    put_both(&mut branch, under, before, after);
    branch
}

/// The pairs with one more, which isn't among them yet.
fn with_branch(pairs: Option<Box<Branch>>, own: Box<Branch>) -> Box<Branch>
    requires sorted { IsSorted (pairs_of pairs) }
    requires fits { height_in_side pairs < greatest_height }
    ensures pairs { all_of result.value ≡ with_own own.value (pairs_of pairs) }
    ensures height { IsGrown (height_in_side pairs) (height_in result.value) }
{
    let branch = match pairs {
        Some(branch) => branch,
        None => return with_sides(own, None, None),
    };
    let under = height(&branch) - 1;
    let (before, branch, after) = parted(branch);
    if is_before(&own, &branch) {
        let low = height_of(&before);
        let before = with_branch(before, own);
        if height(&before) == low {
            return match after {
                Some(after) => with_both(branch, under, before, after),
                None => balanced(branch, Some(before), None),
            };
        }
        return balanced(branch, Some(before), after);
    }
    let low = height_of(&after);
    let after = with_branch(after, own);
    if height(&after) == low {
        return match before {
            Some(before) => with_both(branch, under, before, after),
            None => balanced(branch, None, Some(after)),
        };
    }
    balanced(branch, before, Some(after))
}

/// The pairs without the last one, and the last one.
fn without_last(pairs: Box<Branch>) -> (Option<Box<Branch>>, Box<Branch>)
    ensures pairs { all_of pairs.value ≡ between (pairs_of result.0) result.1.value [] }
    ensures height { IsGrown (height_in_side result.0) (height_in pairs.value) }
{
    let (before, branch, after) = parted(pairs);
    match after {
        None => (before, branch),
        Some(after) => {
            let (after, last) = without_last(after);
            (Some(balanced(branch, before, after)), last)
        }
    }
}

/// The pairs before and after one that is removed.
fn joined(before: Option<Box<Branch>>, after: Option<Box<Branch>>) -> Option<Box<Branch>>
    requires alike { DifferByAtMost 1 (height_in_side before) (height_in_side after) }
    requires fits { max (height_in_side before) (height_in_side after) < greatest_height }
    ensures pairs { pairs_of result ≡ pairs_of before ++ pairs_of after }
    ensures height { IsGrown (max (height_in_side before) (height_in_side after))
        (height_in_side result) }
{
    match before {
        None => after,
        Some(before) => {
            let (before, last) = without_last(before);
            Some(balanced(last, before, after))
        }
    }
}

/// The pairs without this one.
fn without_pair(
    pairs: Option<Box<Branch>>,
    key: u32,
    name: &Text,
    text: &Text,
) -> Option<Box<Branch>>
    requires sorted { IsSorted (pairs_of pairs) }
    requires key { key ≡ pair_key (name.now, text.now) }
    ensures pairs { pairs_of result
        ≡ remove_entry (is_pair (name.now, text.now)) (pairs_of pairs) }
    ensures height { IsGrown (height_in_side result) (height_in_side pairs) }
{
    let branch = match pairs {
        Some(branch) => branch,
        None => return None,
    };
    let (before, branch, after) = parted(branch);
    match order(key, name, text, &branch) {
        Ordering::Equal => joined(before, after),
        Ordering::Less => {
            let before = without_pair(before, key, name, text);
            Some(balanced(branch, before, after))
        }
        Ordering::Greater => {
            let after = without_pair(after, key, name, text);
            Some(balanced(branch, before, after))
        }
    }
}

impl Branch {
    /// The ids at a pair; None if the pair isn't there.
    fn get(&self, key: u32, name: &Text, text: &Text) -> Option<&IdList>
        requires sorted { IsSorted (all_of self.now) }
        requires key { key ≡ pair_key (name.now, text.now) }
        ensures { option_copied result ≡ lookup (is_pair (name.now, text.now)) (all_of self.now) }
    {
        match order(key, name, text, self) {
            Ordering::Equal => Some(&self.ids),
            Ordering::Less => match &self.sides {
                Sides::Before(_, before) => before.get(key, name, text),
                Sides::Both(_, _, before, _) => before.get(key, name, text),
                Sides::After(_, _) => None,
                Sides::Neither(_) => None,
            },
            Ordering::Greater => match &self.sides {
                Sides::After(_, after) => after.get(key, name, text),
                Sides::Both(_, _, _, after) => after.get(key, name, text),
                Sides::Before(_, _) => None,
                Sides::Neither(_) => None,
            },
        }
    }

    /// Puts an id at a pair; None if the pair isn't there.
    fn put(
        &mut self,
        alloc: Global,
        key: u32,
        name: &Text,
        text: &Text,
        id: ItemId,
    ) -> Option<Result<(), OutOfMemory>>
        requires sorted { IsSorted (all_of self.old) }
        requires key { key ≡ pair_key (name.now, text.now) }
        ensures put { IsPutThere result (name.now, text.now) id.0
            (all_of self.old) (all_of self.new) }
        ensures under { self.new.under ≡ self.old.under }
        ensures count { length (all_of self.new) ≡ length (all_of self.old) }
    {
        match order(key, name, text, self) {
            Ordering::Equal => Some(self.ids.insert(alloc, id)),
            Ordering::Less => match &mut self.sides {
                Sides::Before(_, before) => before.put(alloc, key, name, text, id),
                Sides::Both(_, _, before, _) => before.put(alloc, key, name, text, id),
                Sides::After(_, _) => None,
                Sides::Neither(_) => None,
            },
            Ordering::Greater => match &mut self.sides {
                Sides::After(_, after) => after.put(alloc, key, name, text, id),
                Sides::Both(_, _, _, after) => after.put(alloc, key, name, text, id),
                Sides::Before(_, _) => None,
                Sides::Neither(_) => None,
            },
        }
    }

    /// Takes an id out of a pair, and returns whether the pair is there and has none left.
    fn take(&mut self, alloc: Global, key: u32, name: &Text, text: &Text, id: ItemId) -> bool
        requires sorted { IsSorted (all_of self.old) }
        requires key { key ≡ pair_key (name.now, text.now) }
        ensures taken { IsTakenThere result (name.now, text.now) id.0
            (all_of self.old) (all_of self.new) }
        ensures under { self.new.under ≡ self.old.under }
        ensures count { length (all_of self.new) ≡ length (all_of self.old) }
    {
        match order(key, name, text, self) {
            Ordering::Equal => {
                self.ids.remove(alloc, id);
                self.ids.len() == 0
            }
            Ordering::Less => match &mut self.sides {
                Sides::Before(_, before) => before.take(alloc, key, name, text, id),
                Sides::Both(_, _, before, _) => before.take(alloc, key, name, text, id),
                Sides::After(_, _) => false,
                Sides::Neither(_) => false,
            },
            Ordering::Greater => match &mut self.sides {
                Sides::After(_, after) => after.take(alloc, key, name, text, id),
                Sides::Both(_, _, _, after) => after.take(alloc, key, name, text, id),
                Sides::Before(_, _) => false,
                Sides::Neither(_) => false,
            },
        }
    }
}

/// A branch of one pair with one id.
pub fn branch_of_one(
    alloc: Global,
    key: u32,
    name: &Text,
    text: &Text,
    id: ItemId,
) -> Result<Box<Branch>, OutOfMemory>
    requires { key ≡ pair_key (name.now, text.now) }
    ensures name { IfOk result (λ made. made.value.name ≡ name.now) }
    ensures text { IfOk result (λ made. made.value.text ≡ text.now) }
    ensures ids { IfOk result (λ made. made.value.ids ≡ id.0 ∷ []) }
{
    let branch = Branch {
        name: name.copy()?,
        text: text.copy()?,
        ids: IdList::of_one(id),
        sides: Sides::Neither(key),
    };
    match Box::new(alloc, branch) {
        Ok(branch) => Ok(branch),
        Err(_) => Err(AllocError),
    }
}

/// The pairs of a name and a text that items have, each with the ids of the items that have it. A contract
/// sees them as a list in order. They are in a tree that is balanced everywhere, so looking one up, putting
/// one in or taking one out visits about as many pairs as their number has bits.
#[derive(Drop)]
pub struct Pairs {
    root: Option<Box<Branch>>,
}

impl Model for Pairs {
    ghost use Rattle.attribute_index.specs.Branches.{pairs_of};
    ghost use Rattle.attribute_index.specs.Index.{IsSorted, Names};

    ghost Value = { Names };

    ghost view = { λ p. pairs_of p.root };

    ghost invariant = { λ p. IsSorted (pairs_of p.root) };
}

/// Puts an id at a pair; None if the pair isn't there.
fn put_there(
    alloc: Global,
    root: &mut Option<Box<Branch>>,
    key: u32,
    name: &Text,
    text: &Text,
    id: ItemId,
) -> Option<Result<(), OutOfMemory>>
    requires sorted { IsSorted (pairs_of root.old) }
    requires key { key ≡ pair_key (name.now, text.now) }
    ensures { IsPutThere result (name.now, text.now) id.0 (pairs_of root.old) (pairs_of root.new) }
{
    match root {
        Some(branch) => branch.put(alloc, key, name, text, id),
        None => None,
    }
}

/// The greatest height that a branch can keep.
const GREATEST_HEIGHT: u8 = u8::MAX;

/// Whether a tree has that height. There is no memory for half as many levels.
fn is_full(root: &Option<Box<Branch>>) -> bool
    ensures { result ≡ nat_le greatest_height (height_in_side root.now) }
{
    height_of(root) >= GREATEST_HEIGHT
}

/// Puts an id at a new pair.
fn put_new(
    alloc: Global,
    root: &mut Option<Box<Branch>>,
    key: u32,
    name: &Text,
    text: &Text,
    id: ItemId,
) -> Result<(), OutOfMemory>
    requires sorted { IsSorted (pairs_of root.old) }
    requires key { key ≡ pair_key (name.now, text.now) }
    requires absent { lookup (is_pair (name.now, text.now)) (pairs_of root.old) ≡ None }
    ensures sorted { IsSorted (pairs_of root.new) }
    ensures put { OnOk result (IsPut (is_this name.now text.now) id.0
        (pairs_of root.old) (pairs_of root.new)) }
    ensures unchanged { OnErr result (pairs_of root.new ≡ pairs_of root.old) }
    ensures lean { IsLean (pairs_of root.old) → IsLean (pairs_of root.new) }
{
    if is_full(root) {
        return Err(AllocError);
    }
    match branch_of_one(alloc, key, name, text, id) {
        Ok(own) => {
            let pairs = with_branch(root.take(), own);
            *root = Some(pairs);
            Ok(())
        }
        Err(_) => Err(AllocError),
    }
}

/// Puts an id at a pair, which may be a new one.
fn put(
    alloc: Global,
    root: &mut Option<Box<Branch>>,
    name: &Text,
    text: &Text,
    id: ItemId,
) -> Result<(), OutOfMemory>
    requires { IsSorted (pairs_of root.old) }
    ensures sorted { IsSorted (pairs_of root.new) }
    ensures put { OnOk result (IsPut (is_this name.now text.now) id.0
        (pairs_of root.old) (pairs_of root.new)) }
    ensures unchanged { OnErr result (IsSame (pairs_of root.old) (pairs_of root.new)) }
    ensures lean { IsLean (pairs_of root.old) → IsLean (pairs_of root.new) }
{
    let key = key_of_pair(name, text);
    match put_there(alloc, root, key, name, text, id) {
        Some(answer) => answer,
        None => put_new(alloc, root, key, name, text, id),
    }
}

/// Takes an id out of a pair, and returns whether the pair is there and has none left.
fn take_there(
    alloc: Global,
    root: &mut Option<Box<Branch>>,
    key: u32,
    name: &Text,
    text: &Text,
    id: ItemId,
) -> bool
    requires sorted { IsSorted (pairs_of root.old) }
    requires key { key ≡ pair_key (name.now, text.now) }
    ensures { IsTakenThere result (name.now, text.now) id.0
        (pairs_of root.old) (pairs_of root.new) }
{
    match root {
        Some(branch) => branch.take(alloc, key, name, text, id),
        None => false,
    }
}

/// Takes an id out of a pair. A pair that has none left is removed.
fn take(alloc: Global, root: &mut Option<Box<Branch>>, name: &Text, text: &Text, id: ItemId)
    requires { IsSorted (pairs_of root.old) }
    ensures sorted { IsSorted (pairs_of root.new) }
    ensures taken { IsTaken (is_this name.now text.now) id.0
        (pairs_of root.old) (pairs_of root.new) }
    ensures lean { IsLean (pairs_of root.old) → IsLean (pairs_of root.new) }
{
    let key = key_of_pair(name, text);
    if take_there(alloc, root, key, name, text, id) {
        let pairs = without_pair(root.take(), key, name, text);
        *root = pairs;
    }
}

impl Pairs {
    /// A tree without pairs. It takes no memory.
    pub fn new() -> Pairs
        ensures { result ≡ [] }
    {
        Pairs { root: None }
    }

    /// The pairs of a tree.
    pub fn of_root(root: Option<Box<Branch>>) -> Pairs
        requires { IsSorted (pairs_of root) }
        ensures { result ≡ pairs_of root }
    {
        Pairs { root }
    }

    /// The ids at a pair; None if the pair isn't there.
    pub fn get(&self, name: &Text, text: &Text) -> Option<&IdList>
        ensures { option_copied result ≡ lookup (is_pair (name.now, text.now)) self.now }
    {
        match &self.root {
            Some(branch) => branch.get(key_of_pair(name, text), name, text),
            None => None,
        }
    }

    /// Puts an id at a pair.
    pub fn put(
        &mut self,
        alloc: Global,
        name: &Text,
        text: &Text,
        id: ItemId,
    ) -> Result<(), OutOfMemory>
        ensures put { OnOk result (IsPut (is_this name.now text.now) id.0 self.old self.new) }
        ensures unchanged { OnErr result (IsSame self.old self.new) }
        ensures lean { IsLean self.old → IsLean self.new }
    {
        put(alloc, &mut self.root, name, text, id)
    }

    /// Takes an id out of a pair. A pair that has none left is removed. It takes no memory.
    pub fn take(&mut self, alloc: Global, name: &Text, text: &Text, id: ItemId)
        ensures taken { IsTaken (is_this name.now text.now) id.0 self.old self.new }
        ensures lean { IsLean self.old → IsLean self.new }
    {
        take(alloc, &mut self.root, name, text, id);
    }
}
