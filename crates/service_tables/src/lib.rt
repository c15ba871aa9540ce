//! The tables of the service: its connections with what waits for each, and its disk, which is the folder
//! and what was loaded from it. Callers may rely on these: a change of one connection's row leaves all
//! others as they are, and at most 256 are there; outputs wait in order, up to a limit of bytes, and once
//! there is room for several of them, to whichever connections, they wait without taking memory; a disk
//! that is opened has each slot that was made of its folder, and its collections are those of the folder's
//! files, all of them locked; objects, searches and secrets are read of the collections and of the
//! aliases as the Secret Service API has them; and a change that is stored, and a file that is removed,
//! use the slot of their collection alone, and leave what the definitions say, by how they ended. The
//! definitions of a state, and of a sound one, are here.
#![tactic(auto)]

mod aliases;
mod connections;
mod disk;
mod fate;
mod keeping;
mod kept;
mod known;
mod objects;
mod paths;
mod reading;
mod rows;
mod storing;
mod times;

pub use alias_table;
pub use aliases::KeptAliases;
pub use collection_store;
pub use connections::Connections;
pub use disk::{Disk, OpenRefused};
pub use fate::{Fate, ReadFate, StoreFate};
pub use folder_store;
pub use kept::KeptSlot;
pub use known::{known_alias, known_attributes, known_item, known_secret, known_text};
pub use paths::{
    collection_path, collection_paths, is_new, item_path, item_paths, locked_paths, put_path,
    unlocked_paths,
};
pub use reading::shown_attributes;
pub use rows::{ConnRows, Rows};
pub use signal_fanout;
pub use signal_fanout::{ConnRow, Delivery, DeskRow, secret_calls};
pub use times::Times;
