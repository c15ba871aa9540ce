//! The tests of a connection, through the public items of `connection_worker`: the handshake, the
//! salts, one call and a prompt that is answered on one thread, and the same by a reader and a writer.
//! They are in a crate of their own so that the crate isn't proved again for its tests.
#![tactic(auto)]

#[cfg(test)]
mod answers;
#[cfg(test)]
mod checks;
#[cfg(test)]
mod connection;
#[cfg(test)]
mod sides;
