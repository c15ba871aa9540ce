//! Values to bytes and back (D-Bus Specification, "Marshaling"). Contracts speak of plain trees of
//! values and of whole lists of bytes. Callers may rely on these: bytes are read as values exactly
//! if they are the spelling of these values, and a fault is the first one from the left.
#![tactic(auto)]

mod cursor;
mod limits;
mod marshalling;
mod places;
mod put;
mod putting;
mod reading;
mod refused;
mod spelling_laws;
mod type_text;
mod values;
mod writers;
mod writing;

pub use marshalling::marshal;
pub use places::{alignment, is_byte};
pub use put::{Counter, Never, Put};
pub use putting::{
    PutValues, count_from, pad_to, put_array, put_byte, put_bytes, put_long_path, put_path,
    put_signature, put_text, put_text_variant, put_u32, put_u64, size_of_values,
};
pub use refused::{MarshalFault, ValueFault};
pub use spelling_laws::{a_value_has_one_spelling, no_spelling_goes_on};
pub use values::unmarshal;

/// No memory was left for a call. This refusal alone may come at any time.
pub type OutOfMemory = kr_base::OutOfMemory;
