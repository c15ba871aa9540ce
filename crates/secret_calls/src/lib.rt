//! The calls of the service as values, and what is sent for them, after the Secret Service API (draft
//! 0.2) and the D-Bus Specification. A request is a call, or the fault of its message, together with the
//! serial and the length of the message and whether a reply is wanted; an output is a method return, an
//! error or a signal, with its spelling as a message. Callers may rely on these: no request has the
//! serial 0 and no output replies to it; an alias that a call sets has a name that aliases may have; each
//! fault has the error that answers it; the size of an output is the length of its spelling, whatever
//! serial it is sent with; and a signal is in memory once, and its size is computed once, however many
//! outputs have it.
#![tactic(auto)]

mod alias;
mod call;
mod changed;
mod copies;
mod label;
mod out;
mod property;
mod returns;
mod secret;
mod serial;
mod shared;
mod signal;
mod size;
mod taken;
mod work;

pub use alias::AliasName;
pub use call::{Call, CallFault, Request};
pub use changed::ChangedObject;
pub use label::{no_label, shown_label};
pub use out::{Body, ErrorName, Out};
pub use property::{Attribute, Property, PropertyValue, ShownProperty};
pub use secret::{ItemSecret, ReturnedSecret, Secret, secret_is_typed};
pub use serial::Serial;
pub use shared::SharedSignal;
pub use signal::{AskKind, Completion, Signal};
pub use size::{body_size, size_of_out};
pub use taken::{Refused, Taken};
pub use work::{Finished, Work};
