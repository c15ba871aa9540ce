//! The tests of the service that are no rows of check_service: the calls of the machine itself, the history's `event`, and the
//! traits of a desk over a service of one thread. They are in a crate of their own so that no crate is proved again for its
//! tests.
#![tactic(auto)]

#[cfg(test)]
mod checks;
#[cfg(test)]
mod desk;
#[cfg(test)]
mod folders;
#[cfg(test)]
mod machine;
