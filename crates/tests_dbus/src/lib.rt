//! The tests of D-Bus that are no rows of check_dbus: the longest array, calls that are sent, and how faults are printed. They are
//! in a crate of their own so that no crate is proved again for its tests.
#![tactic(auto)]

#[cfg(test)]
mod checks;
#[cfg(test)]
mod faults;
#[cfg(test)]
mod longest;
#[cfg(test)]
mod sending;
