// What a test asserts, and how it reads its table.

use std::alloc::Global;
use std::process::Abort;
use std::test::Fail;

/// Asserts that two texts are the same; `at` says where.
pub fn same_text(rt: &impl Abort, found: &str, want: &str, at: &str) {
    assert_eq!(rt; found, want, "at {at}");
}

/// The cell of a row at this index; semicolons separate the cells.
pub fn cell(row: &str, place: usize) -> &str {
    row.split(';').nth(place).unwrap_or("no such cell")
}

/// The number that a text spells.
pub fn number(text: &str) -> Result<u64, Fail> {
    Ok(text.parse::<u64>().ok().ok_or("a number")?)
}

/// The numbers of a cell.
pub fn numbers(alloc: Global, cell: &str) -> Result<Vec<u64>, Fail> {
    let mut numbers = Vec::new(alloc);
    for word in cell.split_whitespace() {
        numbers.push(number(word)?)?;
    }
    Ok(numbers)
}

/// The lengths of a cell.
pub fn lengths(alloc: Global, cell: &str) -> Result<Vec<usize>, Fail> {
    let mut lengths = Vec::new(alloc);
    for word in cell.split_whitespace() {
        lengths.push(word.parse::<usize>().ok().ok_or("a length")?)?;
    }
    Ok(lengths)
}
