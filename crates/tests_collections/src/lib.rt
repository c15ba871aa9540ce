//! Tests of collection_store, over the disk in memory. They show calls of a collection answered in turn, what
//! comes of each call of the device that fails, and what a crash at each moment leaves, loaded and opened
//! again. They are in a crate of their own so that the collection isn't proved again for its tests.
#![tactic(auto)]

#[cfg(test)]
mod calls;
#[cfg(test)]
mod checks;
#[cfg(test)]
mod crashes;
#[cfg(test)]
mod damage;
#[cfg(test)]
mod disorder;
#[cfg(test)]
mod faults;
#[cfg(test)]
mod made;
#[cfg(test)]
mod steps;
#[cfg(test)]
mod strange;
#[cfg(test)]
mod words;
