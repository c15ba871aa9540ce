ghost use Rattle.std.specs.Prelude.{◌≡◌, List, Some, None, IfSome, IsNone, ◌↔◌, true, false};
ghost use Rattle.std.specs.List.{list_all};
ghost use Rattle.bus_rules.specs.Pairs.{is_admissible};
ghost use Rattle.bus_rules.specs.Rules.{are_distinct, has_both_paths, has_key, has_pair, is_equal, is_rule, is_same_pair, matches};
ghost use Rattle.bus_rules.specs.declared.pair.Pair.{Pair};

use crate::pair::{Key, Pair, Signal, code, same};
use std::marker::Model;

/// A match rule: pairs of a key and a value. A rule without pairs matches every signal. A contract sees
/// the list of the pairs, in the order in which they were given.
#[derive(Drop)]
pub struct MatchRule {
    pairs: Vec<Pair>,
}

impl Model for MatchRule {
    ghost use Rattle.std.specs.Prelude.{◌≡◌, List, true};
    ghost use Rattle.bus_rules.specs.declared.pair.Pair.{Pair};

    ghost Value = { List Pair };

    ghost use Rattle.bus_rules.specs.Rules.{is_rule};

    ghost view = { λ r. r.pairs.items };

    ghost invariant = { λ r. is_rule r.pairs.items ≡ true };
}

/// Whether one of the pairs has the key.
fn some_has(pairs: &[Pair], key: Key) -> bool
    ensures { result ≡ has_key key pairs.now }
{
    pairs.iter().any(|pair| code(pair.key) == code(key))
}

/// Whether no key is twice among the pairs. It goes no deeper than there are keys.
fn are_all_distinct(pairs: &[Pair]) -> bool
    ensures { result ≡ are_distinct pairs.now }
{
    match pairs.split_first() {
        Some((pair, more)) => !some_has(more, pair.key) && are_all_distinct(more),
        None => true,
    }
}

/// Whether each key may have its value.
fn are_admissible(pairs: &[Pair]) -> bool
    ensures { result ≡ list_all is_admissible pairs.now }
{
    pairs.iter().all(|pair| pair.is_admissible())
}

/// Whether `path` is beside `path_namespace`.
fn have_both_paths(pairs: &[Pair]) -> bool
    ensures { result ≡ has_both_paths pairs.now }
{
    some_has(pairs, Key::Path) && some_has(pairs, Key::PathNamespace)
}

/// Whether the pairs make a rule.
fn make_a_rule(pairs: &[Pair]) -> bool
    ensures { result ≡ is_rule pairs.now }
{
    are_admissible(pairs) && are_all_distinct(pairs) && !have_both_paths(pairs)
}

/// Whether the two pairs are the same.
fn are_same(one: &Pair, other: &Pair) -> bool
    ensures { result ≡ is_same_pair one.now other.now }
{
    code(one.key) == code(other.key) && same(one.value.as_slice(), other.value.as_slice())
}

/// Whether the pair is among the pairs.
fn some_is(pairs: &[Pair], pair: &Pair) -> bool
    ensures { result ≡ has_pair pairs.now pair.now }
{
    pairs.iter().any(|other| are_same(pair, other))
}

/// Whether each pair is true of the signal.
fn all_hold(pairs: &[Pair], signal: &Signal) -> bool
    ensures { result ≡ matches signal.now pairs.now }
{
    pairs.iter().all(|pair| pair.holds(signal))
}

/// Whether each of the pairs is among the others.
fn all_are(pairs: &[Pair], others: &[Pair]) -> bool
    ensures { result ≡ list_all (has_pair others.now) pairs.now }
{
    pairs.iter().all(|pair| some_is(others, pair))
}

/// Whether both have the same pairs, in any order. No key is twice in either.
fn have_same(pairs: &[Pair], others: &[Pair]) -> bool
    ensures { result ≡ is_equal pairs.now others.now }
{
    pairs.len() == others.len() && all_are(pairs, others)
}

impl MatchRule {
    /// The rule of these pairs. It takes no memory.
    ///
    /// None if a key is twice, `path` is beside `path_namespace`, or a key can't have its value
    /// (`Pair::is_admissible`).
    pub fn new(pairs: Vec<Pair>) -> Option<MatchRule>
        ensures made { IfSome result (λ rule. rule ≡ pairs.items) }
        ensures no_rule { IsNone result ↔ (is_rule pairs.items ≡ false) }
    {
        if !make_a_rule(pairs.as_slice()) {
            return None;
        }
        Some(MatchRule { pairs })
    }

    /// The pairs, in their order.
    pub fn pairs(&self) -> &[Pair]
        ensures value { result.now ≡ self.now }
        ensures rule { is_rule self.now ≡ true }
    {
        self.pairs.as_slice()
    }

    /// Whether the rule matches the signal: each pair is true of it.
    pub fn matches(&self, signal: &Signal) -> bool
        ensures { result ≡ matches signal.now self.now }
    {
        all_hold(self.pairs.as_slice(), signal)
    }

    /// Whether the two rules have the same pairs, in any order.
    pub fn is_equal(&self, other: &MatchRule) -> bool
        ensures { result ≡ is_equal self.now other.now }
    {
        have_same(self.pairs.as_slice(), other.pairs.as_slice())
    }
}
