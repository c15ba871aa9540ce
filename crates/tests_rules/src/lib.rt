//! Tests of crates that the program doesn't use yet: when idle_lock says that collections are due, and
//! which signals match the rules of bus_rules.
#![tactic(auto)]

#[cfg(test)]
mod checks;
#[cfg(test)]
mod locking;
#[cfg(test)]
mod matching;
