// What a conversation is made of: words, and the bytes that they spell.

use crate::conversations::PARTS;
use crate::{answered, desktop};
use kr_base::Text;
use std::alloc::Global;
use std::test::Fail;

// Bytes in hex up to `]`, and ASCII after it.
fn put_piece(alloc: Global, bytes: &mut Vec<u8>, piece: &str) -> Result<(), Fail> {
    match piece.split_once(']') {
        Some((digits, plain)) => {
            bytes.extend_from_slice(hex::decode(alloc, digits)?.as_slice())?;
            Ok(bytes.extend_from_slice(plain.as_bytes())?)
        }
        None => Ok(bytes.extend_from_slice(piece.as_bytes())?),
    }
}

/// What this text spells: hex in brackets, and ASCII.
pub fn spelled(alloc: Global, text: &str) -> Result<Vec<u8>, Fail> {
    let mut bytes = Vec::new(alloc);
    for piece in text.split('[') {
        put_piece(alloc, &mut bytes, piece)?;
    }
    Ok(bytes)
}

// How the part with this name is spelled in a table.
fn part_in<'a>(table: &'a str, name: &str) -> Option<&'a str> {
    for row in table.lines() {
        if let Some((found, text)) = row.split_once(' ') {
            if found == name {
                return Some(text);
            }
        }
    }
    None
}

// How the part with this name is spelled; any other text is its own spelling.
fn part(name: &str) -> &str {
    for table in [PARTS, answered::PARTS, desktop::PARTS] {
        if let Some(text) = part_in(table, name) {
            return text;
        }
    }
    name
}

/// Replaces the bytes from this position on.
pub fn change(bytes: &mut Vec<u8>, place: usize, others: &[u8]) {
    for (at, byte) in others.iter().enumerate() {
        if let Some(cell) = bytes.get_mut(place.saturating_add(at)) {
            *cell = *byte;
        }
    }
}

// Changes the bytes as a word says: a position, and the digits of the bytes there.
fn change_by(alloc: Global, bytes: &mut Vec<u8>, word: &str) -> Result<(), Fail> {
    let (place, digits) = word.split_once(':').ok_or("a place")?;
    let others = hex::decode(alloc, digits)?;
    change(bytes, place.parse::<usize>()?, others.as_slice());
    Ok(())
}

// The bytes of a part, changed at some positions.
fn changed(alloc: Global, name: &str, changes: &str) -> Result<Vec<u8>, Fail> {
    let mut bytes = spelled(alloc, part(name))?;
    for word in changes.split('@') {
        change_by(alloc, &mut bytes, word)?;
    }
    Ok(bytes)
}

// The bytes of a part, which may be changed.
fn part_of(alloc: Global, word: &str) -> Result<Vec<u8>, Fail> {
    match word.split_once('@') {
        Some((name, changes)) => changed(alloc, name, changes),
        None => spelled(alloc, part(word)),
    }
}

// As many bytes `a` as the digits say.
fn many(alloc: Global, count: &str) -> Result<Vec<u8>, Fail> {
    let count = count.parse::<usize>()?;
    Ok(vec![in alloc; b'a'; count]?)
}

// The bytes of a word of the table: a part, or after `a*` so many bytes `a`.
fn word_of(alloc: Global, word: &str) -> Result<Vec<u8>, Fail> {
    match word.strip_prefix("a*") {
        Some(count) => many(alloc, count),
        None => part_of(alloc, word),
    }
}

/// The bytes of these words, one after the other.
pub fn bytes_of(alloc: Global, words: &str) -> Result<Vec<u8>, Fail> {
    let mut bytes = Vec::new(alloc);
    for word in words.split(' ') {
        bytes.extend_from_slice(word_of(alloc, word)?.as_slice())?;
    }
    Ok(bytes)
}

/// A text without a zero byte.
pub fn text_of(alloc: Global, text: &str) -> Result<Text, Fail> {
    Ok(Text::from_str(alloc, text)?.ok_or("a zero byte")?)
}
