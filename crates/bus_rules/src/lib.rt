//! The match rules by which a client of a message bus says which signals it wants (D-Bus Specification,
//! "Match Rules"). Contracts see a rule as the list of its pairs, and rules as the list of them. Callers
//! may rely on these: a rule matches exactly the signals of which each of its pairs holds, no key is twice
//! in a rule, at most 512 rules are kept, and removing a rule takes one equal rule away and no other.
#![tactic(auto)]

mod pair;
mod rule;
mod rules;

pub use pair::{Key, Pair, Signal};
pub use rule::MatchRule;
pub use rules::{AddRefused, MatchRules};
