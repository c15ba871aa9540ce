//! How a link to a message bus starts (D-Bus Specification, "Message Bus Messages"; docs/SERVICE.md,
//! "The start on a message bus"), without streams: three calls of the bus are open, Hello, AddMatch and
//! RequestName, and each is answered; what else comes before the last answer is kept in order. Callers
//! may rely on these: the link has started exactly if each call was answered by a return, and
//! RequestName by one that makes the link the owner of the name; the first answer that says otherwise is
//! the refusal; and what is kept is bounded.
#![tactic(auto)]

mod answer;
mod start;
mod starting;

pub use answer::{Answer, Question, StartRefused};
pub use start::Starting;
