// What a test asserts, and how it reads its table.

use std::process::Abort;
use std::test::Fail;

/// Asserts that two texts are the same; `at` says where.
pub fn same_text(rt: &impl Abort, found: &str, want: &str, at: &str) {
    assert_eq!(rt; found, want, "at {at}");
}

/// The word of a text at this index.
pub fn word(text: &str, place: usize) -> &str {
    text.split(' ').nth(place).unwrap_or("no such word")
}

/// The number that a text spells.
pub fn number(text: &str) -> Result<u64, Fail> {
    Ok(text.parse::<u64>().ok().ok_or("a number")?)
}
