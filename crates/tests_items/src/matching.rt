use crate::checks::{cell, holds, same_text};
use crate::words::{attributes_of, text_of};
use attribute_hash::{number_hash, text_hash};
use attribute_match::{hashed_matches, is_equal, matches};
use kr_base::{AttrValue, Attributes, Bytes, HashedPair, HashedValue, Text};
use std::alloc::Global;
use std::test::Fail;

// What an item has, what is wanted, and whether it matches. A value that begins with # is a number.
const ROWS: &str = "\
a=1 b=2 | a=1 b=2 | yes
a=1 b=2 | b=2 | yes
a=1 b=2 | | yes
| | yes
| a=1 | no
a=1 b=2 | a=1 b=3 | no
a=1 b=2 | a=2 b=2 | no
a=1 b=2 | a=1 c=2 | no
a=#7 | a=7 | yes
a=#7 | a=07 | no
a=#7 | a=+7 | no
a=#0 | a=0 | yes
a=#0 | a= | no
a=#4294967295 | a=4294967295 | yes
a=#7 | a=4294967303 | no
a=7 | a=7 | yes
a=7 | a=07 | no
a= | a= | yes
=x | =x | yes
=x | =y | no
";

// The hash of a value.
fn hash_of(alloc: Global, value: &AttrValue) -> Result<HashedValue, Fail> {
    match value {
        AttrValue::Text(text) => {
            let digits = text_hash(text.as_str());
            Ok(HashedValue::Text(Bytes::from_slice(alloc, &digits)?))
        }
        AttrValue::Number(number) => Ok(HashedValue::Number(number_hash(*number))),
    }
}

fn hashed_pair(alloc: Global, name: &Text, value: &AttrValue) -> Result<HashedPair, Fail> {
    let name = name.copy()?;
    let value = hash_of(alloc, value)?;
    Ok(HashedPair { name, value })
}

// The hashes of the attributes.
fn hashed_of(alloc: Global, attributes: &Attributes) -> Result<Vec<HashedPair>, Fail> {
    let mut pairs = Vec::new(alloc);
    for (name, value) in attributes.as_slice() {
        pairs.push(hashed_pair(alloc, name, value)?)?;
    }
    Ok(pairs)
}

fn said(fact: bool) -> &'static str {
    if fact { "yes" } else { "no" }
}

// Whether an item matches what is wanted, by its texts and by their hashes.
fn matched(alloc: Global, row: &str) -> Result<&'static str, Fail> {
    let item = attributes_of(alloc, cell(row, 0))?;
    let wanted = attributes_of(alloc, cell(row, 1))?;
    let hashed = hashed_of(alloc, &item)?;
    let by_hashes = hashed_matches(&wanted, hashed.as_slice());
    Ok(match (matches(&wanted, &item), by_hashes) {
        (true, true) => "yes",
        (true, false) => "by its texts alone",
        (false, true) => "by its hashes alone",
        (false, false) => "no",
    })
}

#[test]
fn an_item_matches_by_its_texts_and_by_their_hashes(rt: HostRuntime) -> Result<(), Fail> {
    for row in ROWS.lines() {
        same_text(&rt, matched(rt.alloc(), row)?, cell(row, 2), row);
    }
    Ok(())
}

// Whether an item that has `a` with this hash matches, if a=abc is wanted.
fn matches_hash(alloc: Global, digits: &[u8]) -> Result<bool, Fail> {
    let wanted = attributes_of(alloc, "a=abc")?;
    let name = text_of(alloc, "a")?;
    let value = HashedValue::Text(Bytes::from_slice(alloc, digits)?);
    Ok(hashed_matches(&wanted, &[HashedPair { name, value }]))
}

#[test]
fn a_hash_of_the_same_length_is_another(rt: HostRuntime) -> Result<(), Fail> {
    let one = matches_hash(rt.alloc(), b"900150983cd24fb0d6963f7d28e17f72")?;
    holds(&rt, one, "the hash of abc");
    let other = matches_hash(rt.alloc(), b"900150983cd24fb0d6963f7d28e17f73")?;
    holds(&rt, !other, "another hash");
    Ok(())
}

// Two lists of attributes, and whether they are shown alike. A value that begins with # is a number.
const EQUALS: &str = "\
a=1 b=2 | a=1 b=2 | yes
b=2 a=1 | a=1 b=2 | yes
a=1 b=2 | a=1 b=3 | no
a=1 b=2 | a=1 c=2 | no
a=1 b=2 | a=1 | no
a=1 | a=1 b=2 | no
| | yes
| a= | no
a=#7 | a=7 | yes
a=#7 | a=#7 | yes
a=7 | a=07 | no
a=#7 | a=#8 | no
";

fn are_equal(alloc: Global, row: &str) -> Result<bool, Fail> {
    let one = attributes_of(alloc, cell(row, 0))?;
    let other = attributes_of(alloc, cell(row, 1))?;
    Ok(is_equal(&one, &other))
}

#[test]
fn attributes_are_equal_by_their_names_and_texts(rt: HostRuntime) -> Result<(), Fail> {
    for row in EQUALS.lines() {
        let found = said(are_equal(rt.alloc(), row)?);
        same_text(&rt, found, cell(row, 2), row);
    }
    Ok(())
}
