//! Tests of the outside in memory and of the real one: kr_memory, kr_memory_disk and real_edges.
//! They show what plans of pieces and faults come to when they are run, and that the adapters of
//! the system do to files, streams, sockets and the clock what the traits of kr_outside mean.
#![tactic(auto)]

#[cfg(test)]
mod checks;
#[cfg(test)]
mod doors;
#[cfg(test)]
mod folders;
#[cfg(test)]
mod links;
#[cfg(test)]
mod memory;
#[cfg(test)]
mod memory_disk;
#[cfg(test)]
mod real;
#[cfg(test)]
mod sockets;
