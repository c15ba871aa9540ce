// Objects, attributes and secrets from words. A path continues `/org/freedesktop/secrets/`.

use crate::values::{bytes_of, number, text};
use itoa::Buffer;
use kr_base::{Attributes, Bytes, ItemId, SessionId, Stem, Text};
use kr_items::Items;
use kr_names::{ObjectName, parse_path};
use secret_calls::{AliasName, Secret};
use std::alloc::Global;

// This many attributes with one value, whose names begin with this one and end with the numbers from 0 on.
fn numbered(
    alloc: Global,
    pairs: &mut Vec<(Text, Text)>,
    name: &str,
    count: u64,
    value: &str,
) -> Option<()> {
    for index in 0..count {
        put_pair(
            pairs,
            numbered_name(alloc, name, index)?,
            label(alloc, value)?,
        )?;
    }
    Some(())
}

fn numbered_name(alloc: Global, name: &str, number: u64) -> Option<Text> {
    let mut text = String::from_str(alloc, name).ok()?;
    let mut buffer = Buffer::new();
    text.push_str(buffer.format(number)).ok()?;
    Text::new(text)
}

fn put_pair(pairs: &mut Vec<(Text, Text)>, name: Text, value: Text) -> Option<()> {
    pairs.push((name, value)).ok()
}

fn pairs_of(alloc: Global, pairs: &mut Vec<(Text, Text)>, words: &str) -> Option<()> {
    let (name, value) = words.split_once('=')?;
    match name.split_once('*') {
        Some((name, count)) => numbered(alloc, pairs, name, number(count)?, value),
        None => put_pair(pairs, text(alloc, name)?, label(alloc, value)?),
    }
}

/// The attribute NAME=VALUE, or for NAME*COUNT=VALUE this many of them, whose names end with their numbers. A value may be long,
/// as `30 bytes`.
pub fn attribute(alloc: Global, words: &str) -> Option<Attributes> {
    let mut pairs = Vec::new(alloc);
    pairs_of(alloc, &mut pairs, words)?;
    Attributes::from_pairs(alloc, pairs).ok()
}

/// The object with this path.
pub fn object(alloc: Global, below: &str) -> Option<ObjectName> {
    let mut path = String::from_str(alloc, "/org/freedesktop/secrets/").ok()?;
    path.push_str(below).ok()?;
    Some(
        parse_path(alloc, path.as_str())
            .ok()?
            .unwrap_or(ObjectName::Nothing),
    )
}

fn put_object(alloc: Global, objects: &mut Vec<ObjectName>, below: &str) -> Option<()> {
    objects.push(object(alloc, below)?).ok()
}

// This many objects, whose paths begin with this one and end with the numbers from 1 on.
fn put_numbered(
    alloc: Global,
    objects: &mut Vec<ObjectName>,
    below: &str,
    count: u64,
) -> Option<()> {
    for before in 0..count {
        let path = numbered_name(alloc, below, before.saturating_add(1))?;
        put_object(alloc, objects, path.as_str())?;
    }
    Some(())
}

fn put_objects(alloc: Global, objects: &mut Vec<ObjectName>, word: &str) -> Option<()> {
    match word.split_once('*') {
        Some((below, count)) => put_numbered(alloc, objects, below, number(count)?),
        None => put_object(alloc, objects, word),
    }
}

/// The objects with these paths; for PATH*COUNT this many of them, whose paths end with the numbers from 1 on.
pub fn objects(alloc: Global, words: &str) -> Option<Items<ObjectName>> {
    let mut objects = Vec::new(alloc);
    for word in words.split(' ') {
        put_objects(alloc, &mut objects, word)?;
    }
    Some(Items::new(objects))
}

/// The item with this path.
pub fn item(alloc: Global, path: &str) -> Option<(Stem, ItemId)> {
    match object(alloc, path)? {
        ObjectName::Item(stem, item) => Some((stem, item)),
        _ => None,
    }
}

/// The alias with this name.
pub fn alias(alloc: Global, name: &str) -> Option<AliasName> {
    AliasName::from_text(text(alloc, name)?)
}

/// A text, or for `30 bytes` one of so many letters `a`.
pub fn label(alloc: Global, words: &str) -> Option<Text> {
    Text::from_utf8(bytes_of(alloc, words)?)
}

/// The session with a number; None for `-`.
pub fn session(words: &str) -> Option<Option<SessionId>> {
    if words == "-" {
        return Some(None);
    }
    Some(Some(SessionId(number(words)?)))
}

/// The secret `x` for a session. A content type other than `text/plain` comes after the session; `long` is one of 1,025 bytes.
pub fn secret(alloc: Global, words: &str) -> Option<Secret> {
    let (given, kind) = words.split_once(' ').unwrap_or((words, "text/plain"));
    let kind = if kind == "long" { "1025 bytes" } else { kind };
    let session = session(given)?;
    let content = label(alloc, kind)?;
    let value = Bytes::from_slice(alloc, b"x").ok()?;
    Some(Secret {
        session,
        value,
        content,
    })
}
