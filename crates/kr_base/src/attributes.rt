ghost use Rattle.std.specs.Prelude.{◌≡◌, ℕ, ◌↔◌, ◌&&◌, List, [], length, map, IsTrue, IsSome, IfSome, IfOk, nat_eq};
ghost use Rattle.std.specs.Cmp.Lexicographic.{pointwise};
ghost use Rattle.std.specs.Cmp.Rules.{comparing};
ghost use Rattle.std.proofs.Common.{rules};
ghost use Rattle.std.specs.Option.{option_copied};
ghost use Rattle.kr_base.specs.declared.attributes.AttrValue.TheVariants as value;
ghost use Rattle.kr_base.specs.Attributes.{IsInOrder, value_at, Gathers};

use crate::{OutOfMemory, Text};
use std::alloc::Global;
use std::collections::BTreeMap;
use std::marker::Model;

/// The value of an attribute. A call has only texts; a keyring file may contain numbers too.
#[derive(Drop, PartialEq, Eq, PartialOrd, Ord)]
pub enum AttrValue {
    /// A text, as in a call.
    Text(Text),
    /// A number, as a file may contain.
    Number(u32),
}

impl AttrValue {
    /// A copy of the value.
    pub fn copy(&self) -> Result<AttrValue, OutOfMemory>
        ensures { IfOk result (λ copied. copied ≡ self.now) }
    {
        match self {
            AttrValue::Text(text) => Ok(AttrValue::Text(text.copy()?)),
            AttrValue::Number(number) => Ok(AttrValue::Number(*number)),
        }
    }
}

/// The attributes of an item, or those that a search wants (Secret Service API, "Lookup
/// Attributes"). A contract sees the list of names with their values, in byte order of names; no
/// name occurs twice.
#[derive(Drop)]
pub struct Attributes {
    pairs: Vec<(Text, AttrValue)>,
}

impl Model for Attributes {
    ghost use Rattle.std.specs.Prelude.{ℕ, List};
    ghost use Rattle.kr_base.specs.declared.attributes.AttrValue.{AttrValue};
    ghost use Rattle.kr_base.specs.Attributes.{IsInOrder};

    ghost Value = { List (List ℕ × AttrValue) };

    ghost view = { λ a. a.pairs.items };

    ghost invariant = { λ a. IsInOrder a.pairs.items };
}

/// Copies of the pairs.
fn copies(alloc: Global, pairs: &[(Text, AttrValue)]) -> Result<Vec<(Text, AttrValue)>, OutOfMemory>
    ensures { IfOk result (λ copied. copied.items ≡ pairs.now) }
{
    let mut copied = Vec::with_capacity(alloc, pairs.len())?;
    for (name, value) in pairs {
        copied.push((name.copy()?, value.copy()?))?;
    }
    Ok(copied)
}

/// Whether each name is less than the next one in byte order.
fn is_in_order(pairs: &[(Text, AttrValue)]) -> bool
    ensures { IsTrue result → IsInOrder pairs.now }
{
    for i in 0..pairs.len().saturating_sub(1) {
        let order = pairs[i].0.cmp(&pairs[i + 1].0);
        if !order.is_lt() {
            return false;
        }
    }
    true
}

impl Attributes {
    /// No attributes. It takes no memory.
    pub fn new(alloc: Global) -> Attributes
        ensures { result ≡ [] }
    {
        Attributes {
            pairs: Vec::new(alloc),
        }
    }

    /// The attributes given by these pairs, in any order. Of equal names the later pair counts.
    /// Pairs that are in byte order of names already take no memory.
    pub fn from_values(
        alloc: Global,
        pairs: Vec<(Text, AttrValue)>,
    ) -> Result<Attributes, OutOfMemory>
        ensures { IfOk result (λ made. Gathers pairs.items made) }
    {
        if is_in_order(pairs.as_slice()) {
            return Ok(Attributes { pairs });
        }
        let gathered: BTreeMap<Text, AttrValue> = pairs.into_iter().collect(alloc)?;
        Ok(Attributes {
            pairs: gathered.into_iter().collect(alloc)?,
        })
    }

    /// The attributes given by a call's pairs, whose values are all texts. Of equal names the
    /// later pair counts.
    pub fn from_pairs(alloc: Global, pairs: Vec<(Text, Text)>) -> Result<Attributes, OutOfMemory>
        ensures { IfOk result (Gathers (map (λ p. (p.0, value.Text p.1)) pairs.items)) }
    {
        let values: Vec<(Text, AttrValue)> = pairs
            .into_iter()
            .map(|(name, text)| (name, AttrValue::Text(text)))
            .collect(alloc)?;
        Attributes::from_values(alloc, values)
    }

    /// The value of a name, or None if the attributes don't have this name.
    pub fn get(&self, name: &str) -> Option<&AttrValue>
        ensures { option_copied result ≡ value_at name.now self.now }
    {
        match self
            .pairs
            .binary_search_by(|pair| pair.0.as_str().cmp(name))
        {
            Ok(place) => Some(&self.pairs[place].1),
            Err(_) => None,
        }
    }

    /// The attributes in order, borrowed.
    pub fn as_slice(&self) -> &[(Text, AttrValue)]
        ensures value { result.now ≡ self.now }
        ensures ordered { IsInOrder self.now }
    {
        self.pairs.as_slice()
    }

    /// The number of attributes.
    pub fn len(&self) -> usize
        ensures value { result ≡ length self.now }
        ensures ordered { IsInOrder self.now }
    {
        self.pairs.len()
    }

    /// Whether there are no attributes.
    pub fn is_empty(&self) -> bool
        ensures { IsTrue result ↔ (self.now ≡ []) }
    {
        self.pairs.is_empty()
    }

    /// A copy of the attributes, with the same allocator.
    pub fn copy(&self) -> Result<Attributes, OutOfMemory>
        ensures { IfOk result (λ copied. copied ≡ self.now) }
    {
        Ok(Attributes {
            pairs: copies(*self.pairs.allocator(), self.pairs.as_slice())?,
        })
    }
}

impl PartialEq for Attributes {
    ghost use Rattle.std.specs.Cmp.{partial_equiv_from_equiv, and_equiv, on_equiv};
    ghost use Rattle.std.specs.Cmp.Lexicographic.{pointwise, lists_equiv, nat_list_eq_equiv};
    ghost use Rattle.std.specs.Ordering.{on, eq_of_both};
    ghost use Rattle.std.specs.Prelude.{nat_eq};
    ghost use Rattle.kr_base.specs.contracts.attributes.AttrValueEq.TheImpl.Laws.{laws-law};

    ghost eq = { pointwise (eq_of_both (on (λ p. p.0) (pointwise nat_eq))
        (on (λ p. p.1) ⟦<AttrValue as PartialEq>⟧.eq)) };

    ghost laws = { partial_equiv_from_equiv (lists_equiv
        (and_equiv (on_equiv (λ p. p.0) nat_list_eq_equiv) (on_equiv (λ p. p.1) laws-law))) };

    fn eq(&self, other: &Attributes) -> bool {
        self.pairs == other.pairs
    }
}

impl Eq for Attributes {
    ghost use Rattle.std.specs.Cmp.{and_equiv, on_equiv};
    ghost use Rattle.std.specs.Cmp.Lexicographic.{lists_equiv, nat_list_eq_equiv};
    ghost use Rattle.kr_base.specs.contracts.attributes.AttrValueEq.TheImpl.Laws.{laws-law};

    ghost laws = { lists_equiv
        (and_equiv (on_equiv (λ p. p.0) nat_list_eq_equiv) (on_equiv (λ p. p.1) laws-law)) };
}
