//! The tests of the tables, through the public items of their crates. They are in a crate of their
//! own so that a table isn't proved again for its tests.
#![tactic(auto)]

#[cfg(test)]
mod checks;
#[cfg(test)]
mod prompts;
#[cfg(test)]
mod sessions;
#[cfg(test)]
mod words;
