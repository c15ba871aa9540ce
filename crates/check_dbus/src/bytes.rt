// Bytes and numbers from words.

use std::alloc::Global;

/// The number that a text spells; 0 if it spells none.
pub fn number(text: &str) -> u64 {
    text.parse::<u64>().unwrap_or(0)
}

/// The number that a text spells, of at most 32 bits; 0 if it spells none.
pub fn small_number(text: &str) -> u32 {
    text.parse::<u32>().unwrap_or(0)
}

// Appends these bytes, this many times.
fn repeat(bytes: &mut Vec<u8>, part: &[u8], count: u64) -> Option<()> {
    for _ in 0..count {
        bytes.extend_from_slice(part).ok()?;
    }
    Some(())
}

fn digits_of(alloc: Global, digits: &str) -> Option<Vec<u8>> {
    hex::decode(alloc, digits).ok()
}

/// The bytes with these digits; after `*` and a number this many times.
pub fn hex_bytes(alloc: Global, words: &str) -> Option<Vec<u8>> {
    let (digits, count) = words.split_once('*').unwrap_or((words, "1"));
    let part = digits_of(alloc, digits)?;
    let mut bytes = Vec::new(alloc);
    repeat(&mut bytes, part.as_slice(), number(count))?;
    Some(bytes)
}

// The part that is repeated, the number of times, and what comes after it.
fn parts(words: &str) -> (&str, u64, &str) {
    match words.split_once('*') {
        Some((part, rest)) => {
            let (count, ending) = rest.split_once('+').unwrap_or((rest, ""));
            (part, number(count), ending)
        }
        None => ("", 0, words),
    }
}

/// The bytes of a text; for `a*32+y` 32 letters `a` and a `y`; after `#` the bytes with these digits.
pub fn text_bytes(alloc: Global, words: &str) -> Option<Vec<u8>> {
    if let Some(digits) = words.strip_prefix("#") {
        return digits_of(alloc, digits);
    }
    let (part, count, ending) = parts(words);
    let mut bytes = Vec::new(alloc);
    repeat(&mut bytes, part.as_bytes(), count)?;
    bytes.extend_from_slice(ending.as_bytes()).ok()?;
    Some(bytes)
}
