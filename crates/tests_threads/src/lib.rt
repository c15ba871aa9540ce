//! The tests of a service that several threads share, through the public items of its crates. They are in a
//! crate of their own since proofs are needed that the service may be sent to another thread, which other
//! tests do without. These proofs are public.
#![tactic(auto)]

#[cfg(test)]
mod checks;
#[cfg(test)]
mod keys;
#[cfg(test)]
mod learning;
#[cfg(test)]
mod passes;
#[cfg(test)]
mod requests;
#[cfg(test)]
mod services;
#[cfg(test)]
mod steps;
#[cfg(test)]
mod threads;
#[cfg(test)]
mod waiting;
