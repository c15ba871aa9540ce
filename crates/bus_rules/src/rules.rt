ghost use Rattle.std.specs.Prelude.{◌≡◌, ◌≤◌, ◌<◌, ◌++◌, ◌∷◌, [], length, position, IfSome, IsErrOf, OnErr, OnOk};
ghost use Rattle.std.specs.List.{list_any};
ghost use Rattle.bus_rules.specs.Rules.{has_equal, is_equal, matches, most_rules, without_one};

use crate::pair::Signal;
use crate::rule::MatchRule;
use std::alloc::Global;
use std::marker::Model;

/// The most rules that are kept.
const MOST_RULES: usize = 512;

/// Why a rule wasn't added.
#[derive(Clone, Copy, Debug, PartialEq, Eq)]
pub enum AddRefused {
    /// There are 512 rules.
    LimitsExceeded,
    /// No memory was left.
    OutOfMemory,
}

/// The rules of a client, of which there are at most 512. A contract sees the list of them, in the order
/// in which they were added.
#[derive(Drop)]
pub struct MatchRules {
    rules: Vec<MatchRule>,
}

impl Model for MatchRules {
    ghost use Rattle.std.specs.Prelude.{◌≤◌, List, length};
    ghost use Rattle.bus_rules.specs.declared.pair.Pair.{Pair};

    ghost Value = { List (List Pair) };

    ghost use Rattle.bus_rules.specs.Rules.{most_rules};

    ghost view = { λ r. r.rules.items };

    ghost invariant = { λ r. length r.rules.items ≤ most_rules };
}

/// The place of the first equal rule.
fn place_of(rules: &[MatchRule], rule: &MatchRule) -> Option<usize>
    ensures value { result ≡ position (is_equal rule.now) rules.now }
    ensures within { IfSome result (λ place. place < length rules.now) }
{
    rules.iter().position(|other| rule.is_equal(other))
}

/// Takes the first equal rule away, and returns whether there was one.
fn take_one(rules: &mut Vec<MatchRule>, rule: &MatchRule) -> bool
    ensures found { result ≡ has_equal rule.now rules.old.items }
    ensures taken { rules.new.items ≡ without_one rule.now rules.old.items }
{
    match place_of(rules.as_slice(), rule) {
        Some(place) => {
            let _taken = rules.remove(place);
            true
        }
        None => false,
    }
}

impl MatchRules {
    /// No rules. It takes no memory.
    pub fn new(alloc: Global) -> MatchRules
        ensures { result ≡ [] }
    {
        MatchRules {
            rules: Vec::new(alloc),
        }
    }

    /// Adds a rule, also one that is there already.
    ///
    /// Refused with `LimitsExceeded` if there are 512 rules; otherwise memory may run out.
    pub fn add(&mut self, rule: MatchRule) -> Result<(), AddRefused>
        ensures added { OnOk result (self.new ≡ self.old ++ rule ∷ []) }
        ensures room { OnOk result (length self.old < most_rules) }

        // Nothing has changed after a refusal.
        ensures full { IsErrOf result AddRefused.LimitsExceeded → most_rules ≤ length self.old }
        ensures memory { IsErrOf result AddRefused.OutOfMemory → length self.old < most_rules }
        ensures unchanged { OnErr result (self.new ≡ self.old) }
    {
        if self.rules.len() >= MOST_RULES {
            return Err(AddRefused::LimitsExceeded);
        }
        match self.rules.push(rule) {
            Ok(()) => Ok(()),
            Err(_) => Err(AddRefused::OutOfMemory),
        }
    }

    /// Takes away one rule that is equal to this one, the one that was added first, and returns whether
    /// there was one. It takes no memory.
    pub fn remove(&mut self, rule: &MatchRule) -> bool
        ensures found { result ≡ has_equal rule.now self.old }
        ensures taken { self.new ≡ without_one rule.now self.old }
    {
        take_one(&mut self.rules, rule)
    }

    /// Whether one of the rules matches the signal.
    pub fn match_any(&self, signal: &Signal) -> bool
        ensures { result ≡ list_any (matches signal.now) self.now }
    {
        self.rules.iter().any(|rule| rule.matches(signal))
    }
}
