// The words that a load is made of (docs/SERVICE.md, "The load").
ghost use Rattle.std.specs.Prelude.{◌≡◌, ◌<◌, ◌^◌};
ghost use Rattle.load_plan.specs.Words.{key, word, cells, group_of, secret_of};

use rand_chacha::ChaCha20Rng;
use rand_core::SeedableRng;
use rand_core::utils::NextWord;

// The key: the bytes of the seed, the least significant first, and zeros.
#[tactic(auto, unfolding(crate::specs::Words::key))]
fn key(seed: u64) -> [u8; 32]
    ensures { result ≡ key seed }
{
    let [a, b, c, d, e, f, g, h] = seed.to_le_bytes();
    [
        a, b, c, d, e, f, g, h, 0, 0, 0, 0, 0, 0, 0, 0, 0, 0, 0, 0, 0, 0, 0, 0, 0, 0, 0, 0, 0, 0,
        0, 0,
    ]
}

// The word at a position of a stream.
#[tactic(auto, unfolding(crate::specs::Words::word))]
fn word(seed: u64, stream: u64, place: u64) -> u32
    ensures { result ≡ word seed stream place }
{
    let mut words = ChaCha20Rng::from_seed(key(seed));
    words.set_stream(stream);
    words.set_word_pos(place as u128);
    words.next_word()
}

// The same as four bytes, the least significant first.
#[tactic(auto, unfolding(crate::specs::Words::cells))]
fn cells(seed: u64, stream: u64, place: u64) -> [u8; 4]
    ensures { result ≡ cells seed stream place }
{
    word(seed, stream, place).to_le_bytes()
}

/// The group of an item.
pub fn group_of(seed: u64, item: u32) -> u32
    ensures { result ≡ group_of seed item }
{
    word(seed, 0, item as u64) % 10
}

/// The secret of an item.
pub fn secret_of(seed: u64, item: u32) -> [u8; 16]
    ensures { result ≡ secret_of seed item }
{
    let place = 4 * (item as u64);
    let [a, b, c, d] = cells(seed, 1, place);
    let [e, f, g, h] = cells(seed, 1, place + 1);
    let [i, j, k, l] = cells(seed, 1, place + 2);
    let [m, n, o, p] = cells(seed, 1, place + 3);
    [a, b, c, d, e, f, g, h, i, j, k, l, m, n, o, p]
}
