ghost use Rattle.std.specs.Prelude.{◌≡◌, ◌<◌};
ghost use Rattle.attribute_index.specs.Index.{pair_key};

use attribute_match::mix_bytes;
use kr_base::Text;

/// The key of a pair of a name and a text.
#[tactic(auto, unfolding(crate::specs::Index::pair_key))]
pub fn key_of_pair(name: &Text, text: &Text) -> u32
    ensures { result ≡ pair_key (name.now, text.now) }
{
    let mixed = mix_bytes(mix_bytes(1, name.as_bytes()), text.as_bytes());
    (mixed % 0x1_0000_0000) as u32
}

/// A 32-bit number is below 2 to the power of 32.
pub fn fits(number: u32)
    ensures { number < 4294967296 }
{}
