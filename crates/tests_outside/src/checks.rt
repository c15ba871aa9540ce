// What a test asserts, and how it reads its table: one function for each type.

use std::alloc::Global;
use std::process::Abort;
use std::test::Fail;

/// Asserts that two runs of bytes are the same; `at` says where.
pub fn same_bytes(rt: &impl Abort, found: &[u8], want: &[u8], at: &str) {
    assert_eq!(rt; found, want, "at {at}");
}

/// Asserts that two texts are the same; `at` says where.
pub fn same_text(rt: &impl Abort, found: &str, want: &str, at: &str) {
    assert_eq!(rt; found, want, "at {at}");
}

/// Asserts that two numbers are the same; `at` says where.
pub fn same_number(rt: &impl Abort, found: u64, want: u64, at: &str) {
    assert_eq!(rt; found, want, "at {at}");
}

/// Asserts a fact; `at` says where.
pub fn holds(rt: &impl Abort, fact: bool, at: &str) {
    assert!(rt; fact, "at {at}");
}

/// The cell of a row at this index; semicolons separate the cells.
pub fn cell(row: &str, place: usize) -> &str {
    row.split(';').nth(place).unwrap_or("no such cell")
}

/// The number that a text spells.
pub fn number(text: &str) -> Result<u64, Fail> {
    Ok(text.parse::<u64>().ok().ok_or("a number")?)
}

/// The length that a text spells.
pub fn length(text: &str) -> Result<usize, Fail> {
    Ok(text.parse::<usize>().ok().ok_or("a length")?)
}

/// The numbers of a cell.
pub fn numbers(alloc: Global, cell: &str) -> Result<Vec<u64>, Fail> {
    let mut numbers = Vec::new(alloc);
    for word in cell.split_whitespace() {
        numbers.push(number(word)?)?;
    }
    Ok(numbers)
}
