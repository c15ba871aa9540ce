//! The tests of serving many links at once, through the public items of `daemon`, over a service in
//! memory that all connections share. They are in a crate of their own so that the crate isn't proved
//! again for its tests.
#![tactic(auto)]

#[cfg(test)]
mod calls;
#[cfg(test)]
mod checks;
#[cfg(test)]
mod folders;
#[cfg(test)]
mod links;
#[cfg(test)]
mod loops;
#[cfg(test)]
mod streams;
