//! Whether an item has the attributes that a search wants (Secret Service API, "Lookup
//! Attributes"): by its attributes or, while its collection is locked, by their hashes in the
//! keyring file. It also makes the keys by which indexes compare texts first. Callers may rely on
//! these: each result is the one that its definition gives, and no call takes memory.
#![tactic(auto)]

mod keys;
mod matching;
mod shown;

pub use keys::{mix, mix_bytes};
pub use matching::{has_pair, hashed_matches, is_equal, matches};
