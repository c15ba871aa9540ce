//! The arguments of calls (D-Bus Specification, "Type System"; Secret Service API draft 0.2): whether the
//! types of a body are those of a signature, what its values contain, and what that means to the service:
//! objects, sessions, prompts, aliases, attributes, properties and secrets. Callers may rely on these:
//! each reader returns what the definition of its kind of value says, and None if the value is of another
//! type.
#![tactic(auto)]

mod arguments;
mod meanings;
mod values;

pub use arguments::{are_listed, held_in, one_string_in, string_in, two_in, without_arguments};
pub use meanings::{
    alias_in, attributes_in, label_in, name_in, objects_in, prompt_in, property, secret_in,
    session_in, text_pair_in, wanted_alias_in,
};
pub use values::{
    ElementType, bytes_in, elements_in, entry_in, five_in, four_in, long_in, one_in, parts_in,
    path_in, three_in, truth_in, word_in,
};

/// No memory was left for a call. It is the only refusal that may come at any time.
pub type OutOfMemory = kr_base::OutOfMemory;
