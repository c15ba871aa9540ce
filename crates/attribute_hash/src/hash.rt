ghost use Rattle.std.specs.Prelude.{◌≡◌, ◌↔◌, IsTrue, IfOk};
ghost use Rattle.attribute_hash.specs.Hash.{hashes, number_hash as number_hash_of, pair_hash as pair_hash_of, text_hash as text_hash_of, value_hash as value_hash_of};

use kr_base::{AttrValue, Attributes, Bytes, HashedPair, HashedValue, OutOfMemory, Text};
use md5::{Digest, Md5};
use std::alloc::Global;

/// The hash of a text (GNOME keyring file format): the 32 hex digits of its MD5, in lower case. It
/// takes no memory.
#[tactic(auto, unfolding(crate::specs::Hash::text_hash))]
pub fn text_hash(text: &str) -> [u8; 32]
    ensures { result ≡ text_hash_of text.now }
{
    let mut digits = [0; 32];
    let digest = Md5::digest(text.as_bytes());
    hex::encode_to_slice(&digest[..], &mut digits).unwrap();
    digits
}

/// The hash of a number (GNOME keyring file format). It takes no memory.
#[tactic(auto, unfolding(crate::specs::Hash::number_hash))]
pub fn number_hash(number: u32) -> u32
    ensures { result ≡ number_hash_of number }
{
    0x1827_3645 ^ number ^ number.rotate_left(16)
}

/// The hash of a value.
fn value_hash(alloc: Global, value: &AttrValue) -> Result<HashedValue, OutOfMemory>
    ensures { IfOk result (λ hash. hash ≡ value_hash_of value.now) }
{
    match value {
        AttrValue::Text(text) => {
            let digits = text_hash(text.as_str());
            Ok(HashedValue::Text(Bytes::from_slice(alloc, &digits)?))
        }
        AttrValue::Number(number) => Ok(HashedValue::Number(number_hash(*number))),
    }
}

/// The hashes of the attributes, in their order, each with its attribute's name.
pub fn hashed(alloc: Global, attributes: &Attributes) -> Result<Vec<HashedPair>, OutOfMemory>
    ensures { IfOk result (λ hashed. hashed.items ≡ hashes attributes.now) }
{
    let mut hashed = Vec::with_capacity(alloc, attributes.len())?;
    for (name, value) in attributes.as_slice() {
        hashed.push(HashedPair {
            name: name.copy()?,
            value: value_hash(alloc, value)?,
        })?;
    }
    Ok(hashed)
}

/// Whether this is the hash of the value.
fn is_hash_of(found: &HashedValue, value: &AttrValue) -> bool
    ensures { IsTrue result ↔ (found.now ≡ value_hash_of value.now) }
{
    match (found, value) {
        (HashedValue::Text(bytes), AttrValue::Text(text)) => {
            bytes.as_slice() == text_hash(text.as_str()).as_slice()
        }
        (HashedValue::Number(hash), AttrValue::Number(number)) => *hash == number_hash(*number),
        _ => false,
    }
}

/// Whether this is the attribute's name with the hash of its value.
fn is_pair_hash(found: &HashedPair, pair: &(Text, AttrValue)) -> bool
    ensures { IsTrue result ↔ (found.now ≡ pair_hash_of pair.now) }
{
    found.name == pair.0 && is_hash_of(&found.value, &pair.1)
}

/// Whether these are the hashes of the attributes, in their order, each with its attribute's name. It takes no
/// memory.
pub fn are_hashes_of(found: &[HashedPair], attributes: &Attributes) -> bool
    ensures { IsTrue result ↔ (found.now ≡ hashes attributes.now) }
{
    let pairs = attributes.as_slice();
    if found.len() != pairs.len() {
        return false;
    }
    for place in 0..found.len() {
        if !is_pair_hash(&found[place], &pairs[place]) {
            return false;
        }
    }
    true
}
