//! What a link to a message bus looks at in a message (D-Bus Specification, "Message Bus Messages"; docs/DBUS.md,
//! "Messages that can't be read on a message bus"): which call it is, which answer, or which of the bus's signals. Callers may
//! rely on these: a call is the request that call_wire reads in its message, and one whose body couldn't be read is a call
//! with that fault; a signal counts only if it comes from the object and the interface of the bus; and an answer is the
//! bus's only if its sender is the bus.
#![tactic(auto)]

mod names;
mod signals;
mod view;
mod viewing;

pub use view::{Asked, View};
pub use viewing::view_of;
