//! Messages that are sent (D-Bus Specification, "Message Format"): a header and a body, written as
//! bytes or counted. A message has one definition, `Sent` of `specs/`, and one list of bytes, the
//! spelling of its header and its body by `dbus_marshal`. Callers may rely on these: there are as
//! many bytes as were counted, and by `what_is_sent_is_a_message` they are a message of
//! `dbus_framing` that says what was sent.
#![tactic(auto)]

mod header;
mod message;
mod sending_laws;

pub use header::Header;
pub use message::put_message;
pub use sending_laws::what_is_sent_is_a_message;
