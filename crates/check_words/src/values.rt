// Numbers and texts from words.

use kr_base::Text;
use std::alloc::Global;

/// The number that a text spells.
pub fn number(text: &str) -> Option<u64> {
    text.parse::<u64>().ok()
}

/// The numbers between the spaces of a text.
pub fn numbers(alloc: Global, words: &str) -> Option<Vec<u64>> {
    let mut numbers = Vec::new(alloc);
    for word in words.split_whitespace() {
        numbers.push(number(word)?).ok()?;
    }
    Some(numbers)
}

/// A text without a zero byte.
pub fn text(alloc: Global, text: &str) -> Option<Text> {
    Text::from_str(alloc, text).ok()?
}

// This many letters `a`.
fn many(alloc: Global, count: &str) -> Option<Vec<u8>> {
    let count = number(count)?;
    vec![in alloc; b'a'; count as usize].ok()
}

/// The bytes of these words; for `30 bytes` so many letters `a`.
pub fn bytes_of(alloc: Global, words: &str) -> Option<Vec<u8>> {
    match words.strip_suffix(" bytes") {
        Some(count) => many(alloc, count),
        None => words.as_bytes().to_vec(alloc).ok(),
    }
}
