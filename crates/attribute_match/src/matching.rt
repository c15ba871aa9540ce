ghost use Rattle.std.specs.Prelude.{◌≡◌, ◌↔◌, ◌&&◌, IsTrue};
ghost use Rattle.kr_base.specs.Attributes.{is_name};
ghost use Rattle.attribute_match.specs.Match.{has_hash as has_hash_of, has_pair as has_pair_of, hashed_matches as matches_by_hashes, is_equal as is_equal_to, is_hash_of as is_hash, is_same_pair as are_same, matches as matches_by_texts, text_of, texts_of};

use crate::shown::{number_of, shown};
use attribute_hash::{number_hash, text_hash};
use itoa::Buffer;
use kr_base::{AttrValue, Attributes, HashedPair, HashedValue, Text};

/// Whether the two texts have the same bytes.
fn is_same(one: &[u8], other: &[u8]) -> bool
    ensures { result ≡ is_name one.now other.now }
{
    one == other
}

/// Whether the API shows the two values as the same text.
fn is_shown_alike(one: &AttrValue, other: &AttrValue) -> bool
    ensures { result ≡ is_name (text_of one.now) (text_of other.now) }
{
    let mut digits = Buffer::new();
    let mut more_digits = Buffer::new();
    let one = shown(one, &mut digits);
    let other = shown(other, &mut more_digits);
    is_same(one.as_bytes(), other.as_bytes())
}

/// Whether the item has an attribute of this name whose value is shown as the same text as this value. It
/// takes no memory.
pub fn has_pair(name: &Text, value: &AttrValue, item: &Attributes) -> bool
    ensures { result ≡ has_pair_of name.now (text_of value.now) item.now }
{
    // `get` relies on the order of the names, and `as_slice` is what says that they are in order.
    let _pairs = item.as_slice();
    match item.get(name.as_str()) {
        Some(found) => is_shown_alike(value, found),
        None => false,
    }
}

/// Whether the item has each wanted name with the wanted text (Secret Service API, "Lookup
/// Attributes"). A number is shown in decimal. If nothing is wanted, every item matches.
pub fn matches(wanted: &Attributes, item: &Attributes) -> bool
    ensures { result ≡ matches_by_texts wanted.now item.now }
{
    wanted
        .as_slice()
        .iter()
        .all(|pair| has_pair(&pair.0, &pair.1, item))
}

/// Whether the two pairs have the same name and are shown as the same text.
fn is_same_pair(one: &(Text, AttrValue), other: &(Text, AttrValue)) -> bool
    ensures { result ≡ are_same (one.now.0, text_of one.now.1) (other.now.0, text_of other.now.1) }
{
    is_same(one.0.as_bytes(), other.0.as_bytes()) && is_shown_alike(&one.1, &other.1)
}

/// Whether both have the same names with the same texts, with a number shown in decimal. It takes
/// no memory.
pub fn is_equal(one: &Attributes, other: &Attributes) -> bool
    ensures value { result ≡ is_equal_to one.now other.now }
    ensures same { IsTrue result ↔ (texts_of one.now ≡ texts_of other.now) }
{
    if one.len() != other.len() {
        return false;
    }
    let pairs = one.as_slice();
    let others = other.as_slice();
    for place in 0..pairs.len() {
        if !is_same_pair(&pairs[place], &others[place]) {
            return false;
        }
    }
    true
}

/// Whether this is the hash of the text, or of the number that the text is in decimal.
fn is_hash_of(found: &HashedValue, text: &str) -> bool
    ensures { result ≡ is_hash text.now found.now }
{
    match found {
        HashedValue::Text(bytes) => is_same(&text_hash(text), bytes.as_slice()),
        HashedValue::Number(hash) => match number_of(text) {
            Some(number) => number_hash(number) == *hash,
            None => false,
        },
    }
}

/// Whether one of the hashed attributes has the name and a hash of the text.
fn has_hash(name: &Text, text: &str, hashed: &[HashedPair]) -> bool
    ensures { result ≡ has_hash_of name.now text.now hashed.now }
{
    hashed.iter().any(|pair| is_same(name.as_bytes(), pair.name.as_bytes())
        && is_hash_of(&pair.value, text))
}

/// Whether one of the hashed attributes has the name and a hash of the value's text.
fn has_value_hash(name: &Text, value: &AttrValue, hashed: &[HashedPair]) -> bool
    ensures { result ≡ has_hash_of name.now (text_of value.now) hashed.now }
{
    let mut digits = Buffer::new();
    has_hash(name, shown(value, &mut digits), hashed)
}

/// Whether a locked item has each wanted name with the wanted text, as far as its hashes can say (GNOME
/// keyring file format): the hash is that of the text or, if the text is a number in decimal without
/// leading zeros, that of the number. If nothing is wanted, every item matches.
pub fn hashed_matches(wanted: &Attributes, hashed: &[HashedPair]) -> bool
    ensures { result ≡ matches_by_hashes wanted.now hashed.now }
{
    wanted
        .as_slice()
        .iter()
        .all(|pair| has_value_hash(&pair.0, &pair.1, hashed))
}
