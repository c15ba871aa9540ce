//! Which stem a new collection gets (docs/SERVICE.md, "Names and paths"), and the stems that are used.
//! Contracts see used stems as the list of them in byte order. Callers may rely on these: a stem that was
//! added stays used, adding a stem uses no other one, and the stem that is chosen is free, made of the
//! label, and the first of its candidates that is free, which there always is.
#![tactic(auto)]

mod choice;
mod stem_laws;
mod used_stems;

pub use choice::chosen_stem;
pub use stem_laws::{
    a_chosen_stem_is_a_stem, a_used_stem_is_in_the_list, adding_a_stem_uses_it_alone,
    the_chosen_stem_is_the_first_free_one,
};
pub use used_stems::UsedStems;
