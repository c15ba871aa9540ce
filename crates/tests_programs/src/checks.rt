// What a test asserts, and how it reads its table: one function for each type.

use keyring_program::Status;
use std::alloc::{AllocGlobal, Global};
use std::process::Abort;
use std::test::Fail;

/// Asserts that two texts are the same; `at` says where.
pub fn same_text(rt: &impl Abort, found: &str, want: &str, at: &str) {
    assert_eq!(rt; found, want, "at {at}");
}

/// Asserts that a text begins like this; `at` says where.
pub fn begins(rt: &impl Abort, found: &str, want: &str, at: &str) {
    assert!(rt; found.starts_with(want), "at {at}: {found}");
}

/// Asserts that two runs of bytes are the same; `at` says where.
pub fn same_bytes(rt: &impl Abort, found: &[u8], want: &[u8], at: &str) {
    assert_eq!(rt; found, want, "at {at}");
}

/// Asserts that two numbers are the same; `at` says where.
pub fn same_number(rt: &impl Abort, found: usize, want: usize, at: &str) {
    assert_eq!(rt; found, want, "at {at}");
}

/// Asserts a fact; `at` says where.
pub fn holds(rt: &impl Abort, fact: bool, at: &str) {
    assert!(rt; fact, "at {at}");
}

/// Asserts that a status has this text, which no other status has; `at` says where.
pub fn ends(
    rt: &(impl AllocGlobal + Abort),
    status: Status,
    want: &str,
    at: &str,
) -> Result<(), Fail> {
    let told = status.to_string(rt.alloc())?;
    same_text(rt, told.as_str(), want, at);
    Ok(())
}

/// The cell of a row at this index; bars separate the cells.
pub fn cell(row: &str, place: usize) -> &str {
    row.split('|').nth(place).unwrap_or("no such cell")
}

/// The numbers of a cell.
pub fn numbers(alloc: Global, cell: &str) -> Result<Vec<u64>, Fail> {
    let mut numbers = Vec::new(alloc);
    for word in cell.split_whitespace() {
        numbers.push(word.parse::<u64>().ok().ok_or("a number")?)?;
    }
    Ok(numbers)
}
