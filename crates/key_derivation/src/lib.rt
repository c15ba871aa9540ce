//! The key and the initialization vector of a keyring file, derived from its password as the GNOME
//! keyring file format does it over SHA-256 (FIPS 180-4, by the crate `sha2`). Callers may rely on
//! these: a derived value keeps what it was derived from, its key and vector are those of the
//! definition for these inputs, and no call takes memory or a lock.
#![tactic(auto)]

mod derived;

pub use derived::{Derived, derive};
