//! A list as the field of a value. A `Vec` in a field is a place in memory with a capacity, which no
//! contract wants to compare; `Items` over the same `Vec` is, to contracts, the list of its elements.
//! Callers may rely on this: it is made of a `Vec` and returns it without taking memory, and what
//! contracts see is that `Vec`'s elements in order.
#![tactic(auto)]

mod items;

pub use items::Items;
