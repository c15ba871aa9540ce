// Values of the crates in words, and the values of words.

use keyring_file::{Access, AreaFault, ClearFault, ClearItem, FullItem};
use kr_base::{AttrValue, Attributes, HashedPair, HashedValue, Text};
use std::alloc::Global;
use std::test::Fail;

/// A text without zero bytes.
pub fn text_of(alloc: Global, text: &str) -> Result<Text, Fail> {
    Ok(Text::from_str(alloc, text)?.ok_or("a zero byte")?)
}

/// Bytes in hex.
pub fn digits_of(alloc: Global, bytes: &[u8]) -> Result<String, Fail> {
    Ok(hex::encode(alloc, bytes)?)
}

/// The salt with these digits.
pub fn salt_of(digits: &str) -> Result<[u8; 8], Fail> {
    let mut salt = [0; 8];
    hex::decode_to_slice(digits, &mut salt)?;
    Ok(salt)
}

/// The parts as one text.
pub fn joined(alloc: Global, parts: &[&str]) -> Result<String, Fail> {
    let mut text = String::new(alloc);
    for part in parts {
        text.push_str(part)?;
    }
    Ok(text)
}

/// The parts as one text, separated by spaces.
pub fn spaced(alloc: Global, parts: &[&str]) -> Result<String, Fail> {
    let mut text = String::new(alloc);
    for part in parts {
        if !text.is_empty() {
            text.push(' ')?;
        }
        text.push_str(part)?;
    }
    Ok(text)
}

/// A number in decimal.
pub fn decimal(alloc: Global, number: u64) -> Result<String, Fail> {
    Ok(format!(in alloc; "{number}")?)
}

/// The name of a fault of the clear part.
pub fn clear_fault_told(alloc: Global, fault: ClearFault) -> Result<String, Fail> {
    Ok(format!(in alloc; "{fault}")?)
}

/// The name of a fault of an area.
pub fn area_fault_told(alloc: Global, fault: AreaFault) -> Result<String, Fail> {
    Ok(format!(in alloc; "{fault}")?)
}

fn text_pair_told(alloc: Global, name: &str, text: &str) -> Result<String, Fail> {
    joined(alloc, &[name, "=", text, ";"])
}

fn number_pair_told(alloc: Global, name: &str, number: u32) -> Result<String, Fail> {
    let number = decimal(alloc, u64::from(number))?;
    joined(alloc, &[name, "=#", number.as_str(), ";"])
}

fn attribute_told(alloc: Global, name: &str, value: &AttrValue) -> Result<String, Fail> {
    match value {
        AttrValue::Text(text) => text_pair_told(alloc, name, text.as_str()),
        AttrValue::Number(number) => number_pair_told(alloc, name, *number),
    }
}

// Attributes as `NAME=TEXT;` and `NAME=#NUMBER;`.
fn attributes_told(alloc: Global, attributes: &Attributes) -> Result<String, Fail> {
    let mut told = String::new(alloc);
    for (name, value) in attributes.as_slice() {
        told.push_str(attribute_told(alloc, name.as_str(), value)?.as_str())?;
    }
    Ok(told)
}

fn hashed_told(alloc: Global, pair: &HashedPair) -> Result<String, Fail> {
    let name = pair.name.as_str();
    match &pair.value {
        HashedValue::Text(hash) => {
            text_pair_told(alloc, name, digits_of(alloc, hash.as_slice())?.as_str())
        }
        HashedValue::Number(number) => number_pair_told(alloc, name, *number),
    }
}

/// Hashes as `NAME=DIGITS;` and `NAME=#NUMBER;`.
pub fn hashes_told(alloc: Global, pairs: &[HashedPair]) -> Result<String, Fail> {
    let mut told = String::new(alloc);
    for pair in pairs {
        told.push_str(hashed_told(alloc, pair)?.as_str())?;
    }
    Ok(told)
}

/// The number of an item and its kind.
pub fn item_numbers_told(alloc: Global, item: &ClearItem) -> Result<String, Fail> {
    let id = decimal(alloc, u64::from(item.id.0))?;
    let kind = decimal(alloc, u64::from(item.kind))?;
    spaced(alloc, &[id.as_str(), kind.as_str()])
}

fn access_entry_told(alloc: Global, entry: &Access) -> Result<String, Fail> {
    let allowed = decimal(alloc, u64::from(entry.allowed))?;
    let (display, path) = (entry.display.as_str(), entry.path.as_str());
    joined(alloc, &[allowed.as_str(), ",", display, ",", path, ";"])
}

fn access_told(alloc: Global, entries: &[Access]) -> Result<String, Fail> {
    let mut told = String::new(alloc);
    for entry in entries {
        told.push_str(access_entry_told(alloc, entry)?.as_str())?;
    }
    Ok(told)
}

fn times_told(alloc: Global, item: &FullItem) -> Result<String, Fail> {
    let created = decimal(alloc, item.created)?;
    let modified = decimal(alloc, item.modified)?;
    spaced(alloc, &[created.as_str(), modified.as_str()])
}

fn value_told(alloc: Global, item: &FullItem) -> Result<String, Fail> {
    let label = joined(alloc, &["'", item.label.as_str(), "'"])?;
    let secret = digits_of(alloc, item.value.as_slice())?;
    let times = times_told(alloc, item)?;
    spaced(alloc, &[label.as_str(), secret.as_str(), times.as_str()])
}

/// An item as `'LABEL' SECRET CREATED MODIFIED [ATTRIBUTES] [ACCESS]`.
pub fn full_item_told(alloc: Global, item: &FullItem) -> Result<String, Fail> {
    let value = value_told(alloc, item)?;
    let attributes = attributes_told(alloc, &item.attributes)?;
    let access = access_told(alloc, item.access.as_slice())?;
    let (value, attributes) = (value.as_str(), attributes.as_str());
    joined(
        alloc,
        &[value, " [", attributes, "] [", access.as_str(), "]"],
    )
}
