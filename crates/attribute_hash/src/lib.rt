//! The hashes of an item's attributes in the clear part of a keyring file (GNOME keyring file
//! format), over MD5 (RFC 1321, by the crate `md5`). Callers may rely on these: each hash is that
//! of the definition, and hashing one text or one number takes no memory.
#![tactic(auto)]

mod hash;

pub use hash::{are_hashes_of, hashed, number_hash, text_hash};
