ghost use Rattle.std.specs.Prelude.{◌≡◌, ◌%◌, length};
ghost use Rattle.aes_cbc.specs.Cbc.{decrypted, encrypted};

use crate::cipher::encipher;
use crate::inverse_cipher::decipher;
use crate::schedule::{inverted_schedule, key_schedule};
use crate::state::{load, store, sum};
use std::marker::Model;

/// A key of AES-128, with its key schedules, which are computed once. A contract sees the 16 bytes.
#[derive(Drop)]
pub struct Key {
    bytes: [u8; 16],
    encrypting: [u32; 44],
    decrypting: [u32; 44],
}

impl Model for Key {
    ghost use Rattle.std.specs.Prelude.{ℕ, List};

    ghost Value = { List ℕ };

    ghost use Rattle.aes_cbc.specs.Key.{IsKey};

    ghost view = { λ k. k.bytes };

    ghost invariant = { IsKey };
}

impl Key {
    /// The key with these bytes, with KeyExpansion (FIPS 197, 5.2) for both directions.
    pub fn new(key: [u8; 16]) -> Key
        ensures { result ≡ key }
    {
        let encrypting = key_schedule(key);
        let decrypting = inverted_schedule(&encrypting);
        Key {
            bytes: key,
            encrypting,
            decrypting,
        }
    }

    /// Encrypts whole blocks of 16 bytes in place, chained after the initialization vector
    /// (SP 800-38A, 6.2). It takes no memory.
    pub fn encrypt_in_place(&self, vector: [u8; 16], blocks: &mut [u8])
        requires { length blocks.old % 16 ≡ 0 }
        ensures { blocks.new ≡ encrypted self.now vector blocks.old }
    {
        let mut last = load(&vector, 0);
        for i in 0..blocks.len() / 16 {
            let block = sum(load(blocks, 16 * i), last);
            last = encipher(&self.encrypting, block);
            store(blocks, 16 * i, last);
        }
    }

    /// Decrypts whole blocks of 16 bytes in place, chained after the initialization vector
    /// (SP 800-38A, 6.2). It takes no memory.
    pub fn decrypt_in_place(&self, vector: [u8; 16], blocks: &mut [u8])
        requires { length blocks.old % 16 ≡ 0 }
        ensures { blocks.new ≡ decrypted self.now vector blocks.old }
    {
        let mut last = load(&vector, 0);
        for i in 0..blocks.len() / 16 {
            let block = load(blocks, 16 * i);
            let clear = sum(decipher(&self.decrypting, block), last);
            last = block;
            store(blocks, 16 * i, clear);
        }
    }
}
