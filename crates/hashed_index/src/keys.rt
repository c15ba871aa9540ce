// The keys of hashed attributes and of wanted ones. A key is 64 bits of a name and a hash, so that two
// attributes rarely have the same key by chance; if they have, the hashes themselves still differ.

ghost use Rattle.std.specs.Prelude.{◌≡◌};
ghost use Rattle.attribute_hash.specs.Hash.{text_hash as text_hash_of};
ghost use Rattle.attribute_match.specs.Match.{text_of};
ghost use Rattle.hashed_index.specs.Keys.{IsNumberKey, key_of, number_key_of, text_key_of};

use attribute_hash::{number_hash, text_hash};
use attribute_match::{mix, mix_bytes};
use itoa::Buffer;
use kr_base::{AttrValue, HashedPair, HashedValue, Text};

/// The keys that a hashed attribute may have to match a wanted one: that of the hash of its text and, if the
/// text is a number, that of the hash of the number.
#[derive(Clone, Copy)]
pub struct Keys {
    pub text: u64,
    pub number: Option<u64>,
}

/// The key of a name and the hash of a text.
fn text_key(name: &Text, hash: &[u8]) -> u64
    ensures { result ≡ text_key_of name.now hash.now }
{
    mix_bytes(mix_bytes(1, name.as_bytes()), hash)
}

/// The key of a name and the hash of a number.
fn number_key(name: &Text, hash: u32) -> u64
    ensures { result ≡ number_key_of name.now hash }
{
    mix(mix_bytes(2, name.as_bytes()), u64::from(hash))
}

/// The key of a hashed attribute.
pub fn key(pair: &HashedPair) -> u64
    ensures { result ≡ key_of pair.now.name pair.now.value }
{
    match &pair.value {
        HashedValue::Text(hash) => text_key(&pair.name, hash.as_slice()),
        HashedValue::Number(hash) => number_key(&pair.name, *hash),
    }
}

/// The key of a name and the hash of the number that the text is in decimal. The text may also have leading
/// zeros or a sign.
fn key_of_number(name: &Text, text: &str) -> Option<u64>
    ensures { IsNumberKey name.now text.now result }
{
    match text.parse::<u32>() {
        Ok(number) => Some(number_key(name, number_hash(number))),
        Err(_) => None,
    }
}

/// The keys of a name and a text.
fn keys_of_text(name: &Text, text: &str) -> Keys
    ensures text { result.text ≡ text_key_of name.now (text_hash_of text.now) }
    ensures number { IsNumberKey name.now text.now result.number }
{
    Keys {
        text: text_key(name, &text_hash(text)),
        number: key_of_number(name, text),
    }
}

/// The keys of a wanted attribute.
pub fn wanted_keys(name: &Text, value: &AttrValue) -> Keys
    ensures text { result.text ≡ text_key_of name.now (text_hash_of (text_of value.now)) }
    ensures number { IsNumberKey name.now (text_of value.now) result.number }
{
    match value {
        AttrValue::Text(text) => keys_of_text(name, text.as_str()),
        AttrValue::Number(number) => {
            let mut digits = Buffer::new();
            keys_of_text(name, digits.format(*number))
        }
    }
}
