// Keys of texts, by which an index compares them first. They are not secret, and no clause rests on their being
// different.

ghost use Rattle.std.specs.Prelude.{◌≡◌};
ghost use Rattle.attribute_match.specs.Keys.{mixed, mixed_in};

/// A key with a number mixed in.
#[tactic(auto, unfolding(crate::specs::Keys::mixed_in))]
pub fn mix(key: u64, number: u64) -> u64
    ensures { result ≡ mixed_in key number }
{
    key.wrapping_mul(0x100_0000_01b3).wrapping_add(number)
}

/// A key with bytes mixed in, one after another.
pub fn mix_bytes(key: u64, bytes: &[u8]) -> u64
    ensures { result ≡ mixed key bytes.now }
{
    let mut mixed = key;
    for place in 0..bytes.len() {
        mixed = mix(mixed, u64::from(bytes[place]));
    }
    mixed
}
