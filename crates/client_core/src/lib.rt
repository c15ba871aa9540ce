//! The client's half of the service's messages (Secret Service API draft 0.2; D-Bus Specification,
//! "Message Format"): from calls to bytes, and from messages to replies and signals. It is the inverse of
//! `call_wire`, and its laws cite the definitions that `call_wire` cites. Callers may rely on these: the
//! bytes of a call are a message that the service reads as exactly this call, with its serial, its
//! length and a reply wanted; a call is refused only if its message would be too long or no memory is
//! left; and what the service sends in reply, and each signal that it sends, is read as what it sent.
//!
//! ```text
//! let call = Call::ReadAlias { name };
//! let bytes = bytes_of(alloc, &call, 1)?;
//! let reply = reply_of(alloc, &message, &call, 1)?;
//! ```
#![tactic(auto)]

mod arguments;
mod askable;
mod asking;
mod bodies;
mod bytes;
mod client_laws;
mod properties;
mod reply;
mod secrets;
mod signals;

pub use askable::can_be_asked;
pub use bytes::{BytesRefused, MOST_BYTES, bytes_of};
pub use client_laws::{
    a_call_is_read_again, a_signal_is_read_again, what_the_service_sends_is_read_again,
};
pub use reply::{Reply, ReplyFault, Shape, reply_of, shape_of};
pub use signals::{SignalKind, signal_of};

/// No memory was left for a call. It is the only refusal that may come at any time.
pub type OutOfMemory = kr_base::OutOfMemory;
