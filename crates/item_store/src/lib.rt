//! The items of one unlocked collection, by rising id, with an index of their attributes (Secret Service
//! API, interfaces Collection and Item). Callers may rely on these: a contract sees the rows alone, and the
//! index always agrees with them; after a refusal the rows are as before; a new item gets the greatest id
//! plus 1; a change of one item leaves all others as they were; and removing one takes no memory.
#![tactic(auto)]

mod fault;
mod item_laws;
mod loading;
mod moving;
mod rows;
mod store;
mod swapping;
mod uncounted;

pub use fault::ItemFault;
pub use item_laws::rising_rows_are_one_list;
pub use moving::Moving;
pub use rows::RowList;
pub use store::{ItemStore, MOST_ATTRIBUTES};
pub use swapping::Swap;
