ghost use Rattle.std.specs.Prelude.{◌≡◌};
ghost use Rattle.key_derivation.specs.Kdf.{key_of, vector_of};

use kr_base::Bytes;
use sha2::{Digest, Sha256};
use std::marker::Model;

/// A key and a vector with the password, the salt and the iterations that they were derived from. A
/// contract sees those three.
#[derive(Drop)]
pub struct Derived {
    password: Bytes,
    salt: [u8; 8],
    iterations: u32,
    digest: [u8; 32],
}

impl Model for Derived {
    ghost use Rattle.std.specs.Prelude.{◌≡◌};
    ghost use Rattle.key_derivation.specs.Kdf.{Inputs, kdf};

    ghost Value = { Inputs };

    ghost view = { λ d.
        record { password = d.password; salt = d.salt; iterations = d.iterations } };

    ghost invariant = { λ d. d.digest ≡ kdf d.password d.salt d.iterations };
}

/// Derives the key and the vector of a keyring file (GNOME keyring file format): SHA-256 of the
/// password with the salt after it, and again of each digest, `iterations` times in all. Zero
/// iterations count as one. The password may be any bytes. It takes no memory.
#[tactic(auto, unfolding(crate::specs::Kdf::hashed))]
pub fn derive(password: Bytes, salt: [u8; 8], iterations: u32) -> Derived
    ensures password { result.password ≡ password }
    ensures salt { result.salt ≡ salt }
    ensures iterations { result.iterations ≡ iterations }
{
    let mut hasher = Sha256::new();
    hasher.update(password.as_slice());
    hasher.update(&salt[..]);
    let mut digest = hasher.finalize();
    for i in 0..iterations.saturating_sub(1) {
        let next = Sha256::digest(&digest[..]);
        digest = next;
    }
    Derived {
        password,
        salt,
        iterations,
        digest,
    }
}

impl Derived {
    /// The key of AES-128: the first half of the digest.
    pub fn key(&self) -> [u8; 16]
        ensures { result ≡ key_of self.now }
    {
        let mut key = [0; 16];
        key.copy_from_slice(&self.digest[..16]);
        key
    }

    /// The initialization vector: the second half of the digest.
    pub fn vector(&self) -> [u8; 16]
        ensures { result ≡ vector_of self.now }
    {
        let mut vector = [0; 16];
        vector.copy_from_slice(&self.digest[16..]);
        vector
    }

    /// The password, borrowed.
    pub fn password(&self) -> &Bytes
        ensures { result.now ≡ self.now.password }
    {
        &self.password
    }

    /// The salt.
    pub fn salt(&self) -> [u8; 8]
        ensures { result ≡ self.now.salt }
    {
        self.salt
    }

    /// The number of iterations that was passed to `derive`.
    pub fn iterations(&self) -> u32
        ensures { result ≡ self.now.iterations }
    {
        self.iterations
    }
}
