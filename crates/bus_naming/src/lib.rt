//! How a link comes to own the name of the service on a message bus (D-Bus Specification, "Message Bus Messages"; docs/SERVICE.md,
//! "The start on a message bus"): the first three calls of the bus are written at once, and messages are heard until each is
//! answered. Callers may rely on these: the name is owned exactly once the messages heard in all bytes that were read, however they
//! were cut, answer the three calls as `bus_start` says; what else was heard is kept in order; what is written is the three calls;
//! and each refusal has its cause.
#![tactic(auto)]

mod announcing;
mod feeding;
mod listening;
mod naming;
mod refused;

pub use feeding::{FeedRefused, feed_more};
pub use naming::{Named, own_name};
pub use refused::NamingRefused;
