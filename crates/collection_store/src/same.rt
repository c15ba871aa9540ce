// Items of two clear parts that are compared.

ghost use Rattle.std.specs.Prelude.{◌≡◌, List, IsTrue, map};
ghost use Rattle.kr_base.specs.declared.hashed.HashedPair.{HashedPair as Pair};
ghost use Rattle.collection_store.specs.State.{unhashed};

use keyring_file::ClearItem;
use kr_base::HashedPair;
use kr_items::Items;

/// A law: hashed attributes compare as equal only if they are the same. The call does nothing.
fn equal_pairs_are_one()
    ensures { (one other : Pair)
        → IsTrue (⟦<HashedPair as PartialEq>⟧.eq one other) → one ≡ other }
{}

/// A law: lists of hashed attributes compare as equal only if they are the same. The call does nothing.
fn equal_hashes_are_one()
    ensures { (one other : List Pair)
        → IsTrue (⟦<Items<HashedPair> as PartialEq>⟧.eq one other) → one ≡ other }
{
    equal_pairs_are_one();
}

/// Whether items that are the same except for their hashes have the same hashes too.
fn has_same_hashes(one: &ClearItem, other: &ClearItem) -> bool
    requires { unhashed one.now ≡ unhashed other.now }
    ensures { IsTrue result → one.now ≡ other.now }
{
    equal_hashes_are_one();
    one.hashed == other.hashed
}

/// Whether lists of items that are the same except for their hashes have the same hashes too.
pub fn have_same_hashes(one: &[ClearItem], other: &[ClearItem]) -> bool
    requires { map unhashed one.now ≡ map unhashed other.now }
    ensures { IsTrue result → one.now ≡ other.now }
{
    for place in 0..one.len() {
        if !has_same_hashes(&one[place], &other[place]) {
            return false;
        }
    }
    true
}
