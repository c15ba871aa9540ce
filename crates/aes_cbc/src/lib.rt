//! AES with a key of 16 bytes (FIPS 197), in cipher block chaining mode (SP 800-38A), in place over
//! whole blocks. The definitions are the standards' own, over bytes as polynomials; the code looks its
//! words up in tables, which are proved right by computing them from the definitions. Callers may rely
//! on these: no call takes memory, each result equals the definition for every length that is a
//! multiple of 16, and decrypting undoes encrypting, and vice versa.
#![tactic(auto)]

mod cipher;
mod cipher_laws;
mod decrypting_tables;
mod encrypting_tables;
mod inverse_cipher;
mod key;
mod schedule;
mod state;

pub use cipher_laws::{decrypting_undoes_encrypting, encrypting_undoes_decrypting};
pub use key::Key;
