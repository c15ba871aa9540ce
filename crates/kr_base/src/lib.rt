//! The values that every other crate names: texts, bytes, the stems of keyring files, attributes, the
//! numbers of connections, sessions, prompts and items, and lists of items' numbers. A text follows the
//! D-Bus Specification, "Type System": it is UTF-8 and contains no zero byte. Contracts see a text,
//! bytes, a stem and a list of items' numbers as lists of numbers, and attributes as the list of names
//! with their values. Callers may rely on these: each text and stem was checked when it was made,
//! attributes are in byte order of names with no name twice, items' numbers rise, each one that is read
//! or looked up in a list of them is counted, two values are equal exactly if contracts see the same,
//! and of bytes, which may be a secret, only their number is ever printed.
#![tactic(auto)]

mod attribute_laws;
mod attributes;
mod bytes;
mod hashed;
mod id_chunks;
mod id_list;
mod ids;
mod stem;
mod steps;
mod text;

pub use attribute_laws::{
    equal_attributes_are_one_list, pairs_gather_one_list, pairs_gather_what_is_gathered,
};
pub use attributes::{AttrValue, Attributes};
pub use bytes::Bytes;
pub use hashed::{HashedPair, HashedValue};
pub use id_list::IdList;
pub use ids::{ConnId, ItemId, PromptId, SessionId};
pub use stem::Stem;
pub use steps::Steps;
pub use text::Text;

/// No memory was left for a call. This refusal alone may come at any time.
pub type OutOfMemory = std::alloc::AllocError;
