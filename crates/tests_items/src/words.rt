// Values in words, and values from words.

use crate::checks::number;
use attribute_match::matches;
use item_store::ItemStore;
use keyring_file::FullItem;
use kr_base::{AttrValue, Attributes, Bytes, ItemId, Text};
use kr_items::Items;
use std::alloc::Global;
use std::test::Fail;

/// The string as a text.
pub fn text_of(alloc: Global, string: &str) -> Result<Text, Fail> {
    Ok(Text::from_str(alloc, string)?.ok_or("a zero byte")?)
}

/// A number in decimal.
pub fn decimal(alloc: Global, number: u32) -> Result<String, Fail> {
    Ok(String::from_str(alloc, Text::of_number(number).as_str())?)
}

/// The parts as one text.
pub fn joined(alloc: Global, parts: &[&str]) -> Result<String, Fail> {
    let mut text = String::new(alloc);
    for part in parts {
        text.push_str(part)?;
    }
    Ok(text)
}

/// A name and a number as a word, such as `a=4`.
pub fn numbered(alloc: Global, name: &str, number: u32) -> Result<String, Fail> {
    let number = decimal(alloc, number)?;
    joined(alloc, &[name, "=", number.as_str()])
}

// A word such as a=1 for one such as a=3, where 1 is the rest of a number modulo 3.
fn rest(alloc: Global, word: &str, dividend: u32) -> Result<String, Fail> {
    let (name, modulus) = word.split_once('=').ok_or("word")?;
    let rest = dividend.checked_rem(number(modulus)?).ok_or("modulus")?;
    numbered(alloc, name, rest)
}

/// Words such as `a=1 b=0 ` for those such as `a=3 b=7`: the rest of a number modulo each of these.
pub fn rests(alloc: Global, moduli: &str, dividend: u32) -> Result<String, Fail> {
    let mut words = String::new(alloc);
    for word in moduli.split_whitespace() {
        words.push_str(rest(alloc, word, dividend)?.as_str())?;
        words.push_str(" ")?;
    }
    Ok(words)
}

/// The ids as one text, each followed by a space.
pub fn ids_told(alloc: Global, ids: &[ItemId]) -> Result<String, Fail> {
    let mut told = String::new(alloc);
    for id in ids {
        told.push_str(decimal(alloc, id.0)?.as_str())?;
        told.push_str(" ")?;
    }
    Ok(told)
}

// A pair with a name of its own.
fn numbered_pair(number: u32) -> (Text, AttrValue) {
    (Text::of_number(number), AttrValue::Number(number))
}

// Appends this many pairs, each with a name of its own.
fn many(pairs: &mut Vec<(Text, AttrValue)>, count: u32) -> Result<(), Fail> {
    for number in 0..count {
        pairs.push(numbered_pair(number))?;
    }
    Ok(())
}

// The value of a word: a number after #, otherwise a text.
fn value_of(alloc: Global, word: &str) -> Result<AttrValue, Fail> {
    match word.strip_prefix('#') {
        Some(digits) => Ok(AttrValue::Number(number(digits)?)),
        None => Ok(AttrValue::Text(text_of(alloc, word)?)),
    }
}

// The pair of a word.
fn pair_of(alloc: Global, word: &str) -> Result<(Text, AttrValue), Fail> {
    let (name, shown) = word.split_once('=').ok_or("pair")?;
    let name = text_of(alloc, name)?;
    Ok((name, value_of(alloc, shown)?))
}

fn add_pairs(alloc: Global, pairs: &mut Vec<(Text, AttrValue)>, word: &str) -> Result<(), Fail> {
    match word.strip_prefix('*') {
        Some(count) => many(pairs, number(count)?),
        None => Ok(pairs.push(pair_of(alloc, word)?)?),
    }
}

fn pairs_of(alloc: Global, words: &str) -> Result<Vec<(Text, AttrValue)>, Fail> {
    let mut pairs = Vec::new(alloc);
    for word in words.split_whitespace() {
        add_pairs(alloc, &mut pairs, word)?;
    }
    Ok(pairs)
}

/// The attributes of the words, such as a=b, or a=#4 for a number; *9 is nine attributes, each with a name
/// of its own.
pub fn attributes_of(alloc: Global, words: &str) -> Result<Attributes, Fail> {
    let pairs = pairs_of(alloc, words)?;
    Ok(Attributes::from_values(alloc, pairs)?)
}

/// An item with these attributes.
pub fn item_of(alloc: Global, words: &str) -> Result<FullItem, Fail> {
    let label = text_of(alloc, "label")?;
    let value = Bytes::from_slice(alloc, b"secret")?;
    let attributes = attributes_of(alloc, words)?;
    Ok(FullItem {
        label,
        value,
        created: 1,
        modified: 1,
        attributes,
        access: Items::empty(alloc),
    })
}

/// The ids of the items that a search for the words finds.
pub fn searched(alloc: Global, items: &ItemStore, words: &str) -> Result<String, Fail> {
    let wanted = attributes_of(alloc, words)?;
    ids_told(alloc, items.search(&wanted)?.as_slice())
}

/// The least id of an item with exactly the attributes of the words, or `none`.
pub fn equal(alloc: Global, items: &ItemStore, words: &str) -> Result<String, Fail> {
    let wanted = attributes_of(alloc, words)?;
    match items.by_equal(&wanted) {
        Some(id) => decimal(alloc, id.0),
        None => Ok(String::from_str(alloc, "none")?),
    }
}

/// The ids of the items whose attributes match the words, read from the rows.
pub fn having(alloc: Global, items: &ItemStore, words: &str) -> Result<Vec<ItemId>, Fail> {
    let wanted = attributes_of(alloc, words)?;
    let mut ids = Vec::new(alloc);
    for row in items.rows().as_slice() {
        if matches(&wanted, &row.2.attributes) {
            ids.push(row.0)?;
        }
    }
    Ok(ids)
}

/// Adds an item with the attributes of the words.
pub fn add(alloc: Global, items: &mut ItemStore, words: &str) -> Result<ItemId, Fail> {
    let item = item_of(alloc, words)?;
    Ok(items.add(item, 0).ok().ok_or("added")?)
}

/// Removes an item.
pub fn remove(items: &mut ItemStore, id: ItemId) -> Result<(), Fail> {
    let _ = items.remove(id).ok().ok_or("removed")?;
    Ok(())
}
