//! The collections of a service, each with its stem (Secret Service API, interfaces Service and
//! Collection). Callers may rely on these: stems rise in byte order, and none is there twice; a call that
//! names a collection reads or changes that one, and all others are as before; a search goes over all
//! collections and says which ones are unlocked; and locking one needs no memory. A collection is found by
//! its stem in a number of steps that grows with the logarithm of the number of collections.
#![tactic(auto)]

mod entries;
mod matches;
mod row_laws;
mod table;

pub use matches::Matches;
pub use row_laws::{
    a_change_leaves_its_row, a_changed_collection_changes_its_row,
    a_changed_collection_changes_its_slot, a_removal_leaves_its_row, a_stored_content_is_a_row,
    other_collections_stay,
};
pub use table::CollectionTable;
