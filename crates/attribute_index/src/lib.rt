//! Which items of a collection have which attributes (Secret Service API, "Lookup Attributes"): for each
//! pair of a name and a text the ids of the items that have it, in rising order. A number is found by its
//! decimal text. Callers may rely on these: a search reads no more ids than the rarest wanted pair has, and
//! looks each of them up in the lists of the other wanted pairs; taking an id out takes no memory; a pair that
//! no item has any more is dropped; and the tree of the pairs is balanced everywhere, by its type.
#![tactic(auto)]

mod branch;
mod chain;
mod entries;
mod finding;
mod height_laws;
mod index;
mod keys;
mod names;
mod pairs;

pub use height_laws::few_pairs_have_few_levels;
pub use index::AttributeIndex;
