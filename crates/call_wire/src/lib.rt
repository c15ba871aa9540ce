//! From messages to calls, and from outputs to messages (D-Bus Specification, "Message Format";
//! Secret Service API draft 0.2). Which interface has which members, and which arguments
//! these take, is in one table, and which properties it has in another. Callers may rely on these: a method call is read as exactly one request,
//! with the call that the table gives or with the first of the message's faults, in order; and an
//! output is written as its one spelling.
#![tactic(auto)]

mod agent;
mod collection;
mod interfaces;
mod item;
mod keyring;
mod members;
mod peer;
mod prompt;
mod properties;
mod reading;
mod request_laws;
mod service;
mod session;
mod writing;

pub use reading::call_of;
pub use request_laws::{a_message_is_one_request, what_is_sent_is_read_again};
pub use writing::message_of;

/// No memory was left for a call. It is the only refusal that may come at any time.
pub type OutOfMemory = kr_base::OutOfMemory;
