//! Addresses of message buses, and well-known bus names (D-Bus Specification, "Server Addresses" and
//! "Bus names"). Callers may rely on these: an address is read exactly if each of its entries has the
//! form of the specification and no entry has a key twice, and what is returned are the places of the
//! entries with the transport `unix` and exactly one of `path` and `abstract`, in order, with their
//! escapes resolved. Other transports and other keys count as nothing.
#![tactic(auto)]

mod address;
mod address_laws;
mod bus_name;
mod entry;
mod pairs;
mod pieces;
mod value;

pub use address::read_address;
pub use address_laws::pieces_are_joined_by_the_separator;
pub use bus_name::is_well_known_name;
pub use entry::Place;
