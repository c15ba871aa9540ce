// What a test asserts, and how it reads its table: one function for each type.

use std::alloc::Global;
use std::process::Abort;
use std::test::Fail;

/// Asserts that two texts are the same; `at` says where.
pub fn same_text(rt: &impl Abort, found: &str, want: &str, at: &str) {
    assert_eq!(rt; found, want, "at {at}");
}

/// The cell of a row at this index; this sign separates the cells.
pub fn cell(row: &str, sign: char, place: usize) -> &str {
    row.split(sign).nth(place).unwrap_or("no such cell")
}

/// The numbers of a cell.
pub fn numbers(alloc: Global, cell: &str) -> Result<Vec<u64>, Fail> {
    let mut numbers = Vec::new(alloc);
    for word in cell.split_whitespace() {
        numbers.push(word.parse::<u64>().ok().ok_or("a number")?)?;
    }
    Ok(numbers)
}
