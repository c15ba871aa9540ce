// What a test asserts, and how it reads its table.

use std::alloc::Global;
use std::process::Abort;
use std::test::Fail;

/// Asserts that two texts are the same; `at` says where.
pub fn same_text(rt: &impl Abort, found: &str, want: &str, at: &str) {
    assert_eq!(rt; found, want, "at {at}");
}

/// Lends a value to a test, and drops it then. The drop is here, where the type isn't known: in a
/// function that knows it, the prover takes seconds for each drop.
pub fn over<T: Drop, A, L: FnOnce(&mut T) -> Result<A, Fail>>(value: T, test: L) -> Result<A, Fail>
    requires { L.IsAlwaysCallable test }
{
    let mut value = value;
    test(&mut value)
}

/// The cell of a row at this index, without spaces around it; bars separate the cells.
pub fn cell(row: &str, place: usize) -> &str {
    row.split('|').nth(place).unwrap_or("no such cell").trim()
}

/// The number that a text spells.
pub fn number(text: &str) -> Result<u64, Fail> {
    Ok(text.parse::<u64>().ok().ok_or("a number")?)
}

/// The numbers of a cell.
pub fn numbers(alloc: Global, cell: &str) -> Result<Vec<u64>, Fail> {
    let mut numbers = Vec::new(alloc);
    for word in cell.split_whitespace() {
        numbers.push(number(word)?)?;
    }
    Ok(numbers)
}

/// The parts as one text.
pub fn joined(alloc: Global, parts: &[&str]) -> Result<String, Fail> {
    let mut text = String::new(alloc);
    for part in parts {
        text.push_str(part)?;
    }
    Ok(text)
}

/// The text as a `String`.
pub fn word(alloc: Global, text: &str) -> Result<String, Fail> {
    Ok(String::from_str(alloc, text)?)
}

/// A number in decimal.
pub fn decimal(alloc: Global, number: u64) -> Result<String, Fail> {
    Ok(format!(in alloc; "{number}")?)
}

/// A space and the number, after the others.
pub fn add_number(alloc: Global, numbers: &mut String, number: u64) -> Result<(), Fail> {
    numbers.push(' ')?;
    numbers.push_str(decimal(alloc, number)?.as_str())?;
    Ok(())
}
