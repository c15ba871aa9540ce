//! The types, values and messages of D-Bus (D-Bus Specification, "Type System", "Message Format").
//! Signatures, object paths and texts are checked when they are made, and a message has a serial
//! that isn't 0. Contracts see types and values as plain trees (`Ty` and `Val` of `specs/`), which
//! say nothing of where they are in memory.
#![tactic(auto)]

mod complete_type;
mod endian;
mod known;
mod message;
mod object_path;
mod signature;
mod signature_reading;
mod value;

pub use complete_type::{BasicType, CompleteType};
pub use endian::Endian;
pub use known::{core_of, element_of, fields_in, held_of, is_array, is_variant, lone_in, wrapping};
pub use message::Message;
pub use object_path::ObjectPath;
pub use signature::{Signature, SignatureFault};
pub use value::{DictEntry, TypedArray, Value};

/// No memory was left for a call. This refusal alone may come at any time.
pub type OutOfMemory = kr_base::OutOfMemory;
