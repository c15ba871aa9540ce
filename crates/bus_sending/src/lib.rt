//! What the service writes on the link to a message bus (D-Bus Specification, "Message Format" and
//! "Message Bus Messages"; docs/SERVICE.md, "What is written on a message bus"): its own calls of the
//! bus, and the outputs that go to one sender. Callers may rely on these: each message is written as its
//! one spelling, with the serial that is given; a call of the bus has no flag; what goes to one sender
//! has the sender's name as DESTINATION, and a signal to everyone has none; an error has a text that isn't
//! empty; and the n-th message of a link has the serial n.
#![tactic(auto)]

mod calls;
mod errors;
mod outputs;
mod text;
mod writing;

pub use calls::{BusCall, call_of_bus};
pub use errors::error_text;
pub use outputs::addressed;
pub use text::LinkText;
