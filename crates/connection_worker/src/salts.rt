ghost use Rattle.std.specs.Prelude.{◌≡◌, ◌+◌, ◌%◌, ◌^◌, ◌++◌};
ghost use Rattle.rand_chacha.specs.ChaCha.{word_at, key_of};
ghost use Rattle.connection_worker.specs.Salts.{word_of, words_at};

use kr_base::ConnId;
use rand_chacha::ChaCha20Rng;
use rand_core::SeedableRng;
use rand_core::utils::NextWord;
use std::marker::Model;

/// The salts of one connection's requests, one after the other. A contract sees the key, the stream and
/// the position of the next word.
#[derive(Drop)]
pub struct Salts {
    words: ChaCha20Rng,
}

impl Model for Salts {
    ghost use Rattle.connection_worker.specs.Salts.{Salting};

    ghost Value = { Salting };

    ghost view = { λ salts. record {
      key = salts.words.key;
      stream = salts.words.stream;
      place = salts.words.word_pos;
    } };
}

/// The next word of the generator as four bytes, the least significant first.
#[tactic(auto, unfolding(crate::specs::Salts::word_of))]
pub fn next_cells(words: &mut ChaCha20Rng) -> [u8; 4]
    ensures cells { let was = words.old in result ≡ word_of was.key was.stream was.word_pos }
    ensures next { let was = words.old in
        words.new ≡ record was { word_pos = (was.word_pos + 1) % 2 ^ 68 } }
{
    words.next_word().to_le_bytes()
}

impl Salts {
    /// The salts of this connection under this seed, from the first one on.
    pub fn new(seed: [u8; 32], conn: ConnId) -> Salts
        ensures { result ≡ record { key = key_of seed; stream = conn.0; place = 0 } }
    {
        let mut words = ChaCha20Rng::from_seed(seed);
        words.set_stream(conn.0);
        words.set_word_pos(0);
        Salts { words }
    }

    /// The next salt: two words of the connection's stream, in order.
    pub fn next(&mut self) -> [u8; 8]
        ensures salt { result ≡ words_at self.old.key self.old.stream self.old.place }
        ensures key { self.new.key ≡ self.old.key }
        ensures stream { self.new.stream ≡ self.old.stream }
        ensures place { self.new.place ≡ (self.old.place + 2) % 2 ^ 68 }
    {
        let [a, b, c, d] = next_cells(&mut self.words);
        let [e, f, g, h] = next_cells(&mut self.words);
        [a, b, c, d, e, f, g, h]
    }
}
