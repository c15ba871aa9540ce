//! The fields of keyring files (GNOME keyring file format): numbers, times, strings and texts are
//! read from the left and written. A reader returns the value and the bytes after it, or the first
//! fault; its one clause says that it returns what a function on lists does (`specs/FieldReading.antt`).
//! Laws in both directions tie that function to the forms as sets of whole texts
//! (`specs/Fields.antt`, `specs/Forms.antt`). Callers may rely on these: readers without an
//! allocator among their arguments take no memory, and `slice_at` borrows a string in place.
#![tactic(auto)]

mod fault;
mod fields;
mod writing;

pub use fault::{FieldFault, ReadRefused};
pub use fields::{known_bytes, name_at, number_at, slice_at, span_at, string_at, text_at, time_at};
pub use writing::{put_number, put_string, put_time};
