//! The words of the rows that test the service: calls from words, and outputs in words. A path continues
//! `/org/freedesktop/secrets/`.
#![tactic(auto)]

mod calls;
mod outputs;
mod prompt_calls;
mod property_calls;
mod secrets;
mod shown;
mod signals;
mod values;

pub use calls::call_of;
pub use outputs::write_outs;
pub use values::{bytes_of, number, numbers, text};
