use kr_base::{IdList, Text};
use std::marker::Model;

/// A pair of a name and a text with the ids of the items that have it, and the pairs before and after it.
/// Each pair is allocated on its own, without spare room: the nodes of a `BTreeMap` may be half empty, and
/// would take twice as much memory.
#[cycle(branches)]
#[derive(Drop)]
pub struct Branch {
    pub name: Text,
    pub text: Text,
    pub ids: IdList,
    pub sides: Sides,
}

/// The pairs before and after a pair. The heights of the two sides differ by at most one (an AVL tree), so a
/// side without another has height 1, and only a pair with two sides has to keep its height. Each variant has
/// the key of the pair, which is compared first: it takes no memory beside the byte that says which variant it
/// is.
#[cycle(branches)]
#[derive(Drop)]
pub enum Sides {
    Neither(u32),
    Before(u32, Box<Branch>),
    After(u32, Box<Branch>),
    Both(u8, u32, Box<Branch>, Box<Branch>),
}

impl Model for Branch {
    ghost use Rattle.attribute_index.specs.Around.{Around};

    ghost Value = { Around };

    ghost use Rattle.attribute_index.specs.Branches.{IsBalanced, higher, key_beside, pairs_before, pairs_after};

    ghost view = { λ b. record {
      before = pairs_before b.sides;
      name = b.name;
      text = b.text;
      ids = b.ids;
      after = pairs_after b.sides;
      under = higher b.sides;
    } };

    ghost use Rattle.std.specs.Prelude.{◌≡◌};
    ghost use Rattle.attribute_index.specs.Index.{pair_key};

    ghost invariant = { λ b.
        IsBalanced b.sides × (key_beside b.sides ≡ pair_key (b.name, b.text)) };

    ghost use Rattle.std.specs.Prelude.{length};
    ghost use Rattle.attribute_index.specs.Around.{all_of};

    ghost size = { λ b. length (all_of b) };

    ghost use Rattle.std.proofs.Common.{arith, length-append};

    ghost size_decreases = { λ b h. Prim.grind (arith, length-append) };
}
