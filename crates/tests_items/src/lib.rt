//! The tests of matching, of the index and of the items of a collection, through the public
//! items of their crates. They are in a crate of their own so that none of these is proved
//! again for its tests.
#![tactic(auto)]

#[cfg(test)]
mod checks;
#[cfg(test)]
mod counting;
#[cfg(test)]
mod finding;
#[cfg(test)]
mod gathered;
#[cfg(test)]
mod items;
#[cfg(test)]
mod locked;
#[cfg(test)]
mod matching;
#[cfg(test)]
mod orders;
#[cfg(test)]
mod words;
