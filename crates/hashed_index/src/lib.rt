//! Which items of a locked collection have which hashed attributes (GNOME keyring file format): for each
//! hashed attribute of the clear part a key, made of its name and its hash, with the place of its item, in
//! order of the keys. Callers may rely on this: a search returns the ids of exactly the items whose hashes
//! match. No clause says which items it compares, or how large an entry is: it compares those that have a
//! key of the rarest wanted attribute, and an entry takes two words.
#![tactic(auto)]

mod entries;
mod finding;
mod index;
mod keys;
mod matching;

pub use index::HashedIndex;
pub use matching::all_matching;
