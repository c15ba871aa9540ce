// What a test asserts, and how it reads its table.

use std::alloc::Global;
use std::process::Abort;
use std::test::Fail;

/// Asserts that two runs of bytes are the same; `at` says where.
pub fn same_bytes(rt: &impl Abort, found: &[u8], want: &[u8], at: &str) {
    assert_eq!(rt; found, want, "at {at}");
}

/// Asserts that two texts are the same; `at` says where.
pub fn same_text(rt: &impl Abort, found: &str, want: &str, at: &str) {
    assert_eq!(rt; found, want, "at {at}");
}

/// The cell of a row at this place, where this sign is between the cells.
pub fn cell(row: &str, sign: char, place: usize) -> &str {
    row.split(sign).nth(place).unwrap_or("no such cell")
}

/// The number that a text is.
pub fn number(text: &str) -> Result<u64, Fail> {
    Ok(text.parse::<u64>().ok().ok_or("a number")?)
}

/// The numbers of a cell.
pub fn numbers(alloc: Global, cell: &str) -> Result<Vec<u64>, Fail> {
    let mut numbers = Vec::new(alloc);
    for word in cell.split_whitespace() {
        numbers.push(number(word)?)?;
    }
    Ok(numbers)
}

/// The parts in one text.
pub fn joined(alloc: Global, parts: &[&str]) -> Result<String, Fail> {
    let mut text = String::new(alloc);
    for part in parts {
        text.push_str(part)?;
    }
    Ok(text)
}
