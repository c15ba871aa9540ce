// Laws of the definitions of attributes. Each law is the contract of a function that does nothing.
ghost use Rattle.std.specs.Prelude.{◌≡◌, ℕ, ◌↔◌, IsTrue, List};
ghost use Rattle.kr_base.specs.Attributes.{Gathers, gathered};

use crate::{AttrValue, Attributes};

/// Pairs gather to one list only.
pub fn pairs_gather_one_list()
    ensures { (pairs one other : List (List ℕ × AttrValue))
        → Gathers pairs one → Gathers pairs other → one ≡ other }
{}

/// What is gathered from pairs is the list that the function `gathered` returns for them.
pub fn pairs_gather_what_is_gathered()
    ensures { (pairs attributes : List (List ℕ × AttrValue))
        → Gathers pairs attributes ↔ (attributes ≡ gathered pairs) }
{}

/// Attributes compare as equal exactly if they are the same list.
pub fn equal_attributes_are_one_list()
    ensures { (one other : List (List ℕ × AttrValue))
        → IsTrue (⟦<Attributes as PartialEq>⟧.eq one other) ↔ (one ≡ other) }
{}
