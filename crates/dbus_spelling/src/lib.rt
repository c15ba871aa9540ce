//! The bytes of values as the definition of marshalling has them (D-Bus Specification,
//! "Marshaling"), put together from the bytes of their parts. It is plain and slow: each byte
//! is copied once for each container around it. Nothing is built on it; tests compare
//! `dbus_marshal` with it.
#![tactic(auto)]

mod numbers;
mod plain;
mod texts;

pub use plain::{spelling, spelling_of_all};
pub use texts::{text_of_type, text_of_value_type};

/// No memory was left for a call. This refusal alone may come at any time.
pub type OutOfMemory = kr_base::OutOfMemory;
