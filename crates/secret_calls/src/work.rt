// What is derived outside the service between an answer to a prompt and what becomes of it.
ghost use Rattle.std.specs.Prelude.{◌≡◌};
ghost use Rattle.secret_calls.specs.Works.{finished};

use key_derivation::{Derived, derive};
use kr_base::{Bytes, PromptId};

/// A key that is to be derived for a prompt whose answer was taken. The caller that brought the answer
/// derives it, so that no other connection waits for it.
#[derive(Drop)]
pub struct Work {
    /// The prompt.
    pub prompt: PromptId,
    /// The round in which it was answered.
    pub round: u64,
    /// The salt of the key.
    pub salt: [u8; 8],
    /// How often the password is hashed.
    pub iterations: u32,
    /// The password.
    pub password: Bytes,
}

impl Work {
    /// Derives the key (GNOME keyring file format). It takes no memory.
    pub fn finish(self) -> Finished
        ensures { result ≡ finished self }
    {
        Finished {
            prompt: self.prompt,
            round: self.round,
            key: derive(self.password, self.salt, self.iterations),
        }
    }
}

/// A key that was derived for a prompt.
#[derive(Drop)]
pub struct Finished {
    /// The prompt.
    pub prompt: PromptId,
    /// The round in which it was answered.
    pub round: u64,
    /// The key, with what it was derived from.
    pub key: Derived,
}
