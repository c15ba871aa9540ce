// Values that a plain program spells.
ghost use Rattle.std.specs.Prelude.{◌<◌};
ghost use Rattle.dbus_types.specs.ValueViews.{values_of};
ghost use Rattle.dbus_marshal.specs.Fitting.{HaveSpelling};

use crate::bytes::{hex_bytes, number, small_number};
use crate::marshalling::fault_word;
use check_rows::{Line, cell};
use dbus_marshal::{ValueFault, marshal, unmarshal};
use dbus_spelling::spelling_of_all;
use dbus_types::{Endian, Signature, Value};
use std::alloc::Global;

// Whether the values are written as the plain program spells them at a position.
fn is_plain_at(alloc: Global, values: &[Value], place: u8) -> bool
    requires { HaveSpelling (values_of values.now) }
{
    let Ok(plain) = spelling_of_all(alloc, Endian::Big, values, (place % 8) as usize) else {
        return false;
    };
    match marshal(alloc, values, Endian::Big, u64::from(place)) {
        Ok(fast) => fast.as_slice() == plain.as_slice(),
        Err(_) => false,
    }
}

// Writes the plain spelling in little-endian order, and whether that in big-endian order is the same at each position.
fn write_spelling(values: &[Value], line: &mut Line)
    requires { HaveSpelling (values_of values.now) }
{
    match spelling_of_all(line.alloc(), Endian::Little, values, 0) {
        Ok(plain) => line.hex(plain.as_slice()),
        Err(_) => line.lack(),
    }
    for place in 0..8u8 {
        if !is_plain_at(line.alloc(), values, place) {
            line.add(" but not at ");
            line.number(u64::from(place));
        }
    }
}

/// Reads bytes in little-endian order, and writes how the plain program spells their values.
pub fn write_plain(types: &Signature, bytes: &[u8], line: &mut Line) {
    match unmarshal(line.alloc(), types, Endian::Little, 0, bytes) {
        Ok(values) => write_spelling(values.as_slice(), line),
        Err(fault) => line.add(fault_word(fault)),
    }
}

// The string of letters with this number, its first letter changing fastest.
fn string_of(alloc: Global, letters: &[u8], length: u64, number: u64) -> Option<Vec<u8>> {
    let count = letters.len() as u64;
    let mut left = number;
    let mut bytes = Vec::new(alloc);
    for _ in 0..length {
        let letter = left.checked_rem(count)?;
        bytes.push(*letters.get(letter as usize)?).ok()?;
        left = left.checked_div(count)?;
    }
    Some(bytes)
}

// The column of a fault; that of values that are read is 0, and that of a refusal without a column 10.
fn column(fault: ValueFault) -> usize
    ensures { result < 11 }
{
    match fault {
        ValueFault::Short => 1,
        ValueFault::Padding => 2,
        ValueFault::BadBool => 3,
        ValueFault::BadText => 4,
        ValueFault::BadPath => 5,
        ValueFault::BadSignature => 6,
        ValueFault::ArrayTooLong => 7,
        ValueFault::TooDeep => 8,
        ValueFault::Rest => 9,
        ValueFault::OutOfMemory => 10,
    }
}

fn is_spelled(alloc: Global, values: &[Value], endian: Endian, place: u8, bytes: &[u8]) -> bool {
    match spelling_of_all(alloc, endian, values, (place % 8) as usize) {
        Ok(plain) => plain.as_slice() == bytes,
        Err(_) => false,
    }
}

// The column in which the bytes count: 10 if values are read from them, and the plain program spells these otherwise.
fn answer_to(alloc: Global, types: &Signature, endian: Endian, place: u8, bytes: &[u8]) -> usize
    ensures { result < 11 }
{
    match unmarshal(alloc, types, endian, u64::from(place), bytes) {
        Ok(values) => {
            if is_spelled(alloc, values.as_slice(), endian, place, bytes) {
                0
            } else {
                10
            }
        }
        Err(fault) => column(fault),
    }
}

fn count_in(alloc: Global, counts: &mut [u32; 11], types: &Signature, place: u8, bytes: &[u8]) {
    for endian in [Endian::Little, Endian::Big] {
        let answer = answer_to(alloc, types, endian, place, bytes);
        counts[answer] = counts[answer].saturating_add(1);
    }
}

fn write_counts(counts: [u32; 11], line: &mut Line) {
    let mut between = "";
    for count in counts {
        line.add(between);
        line.number(u64::from(count));
        between = " ";
    }
}

fn count_all(
    alloc: Global,
    types: &Signature,
    place: u8,
    letters: &[u8],
    length: u32,
) -> Option<[u32; 11]> {
    let mut counts = [0u32; 11];
    let all = (letters.len() as u64).saturating_pow(length);
    for number in 0..all {
        let bytes = string_of(alloc, letters, u64::from(length), number)?;
        count_in(alloc, &mut counts, types, place, bytes.as_slice());
    }
    Some(counts)
}

/// Reads all strings of letters, in both orders: the position, the letters in hex, and how many of them a string has. Writes from how
/// many values are read, and how many are refused by each fault.
pub fn write_strings(types: &Signature, cells: &str, line: &mut Line) {
    let place = u8::try_from(number(cell(cells, 1))).unwrap_or(0);
    let counts = match hex_bytes(line.alloc(), cell(cells, 2)) {
        Some(letters) => count_all(
            line.alloc(),
            types,
            place % 8,
            letters.as_slice(),
            small_number(cell(cells, 3)),
        ),
        None => None,
    };
    match counts {
        Some(counts) => write_counts(counts, line),
        None => line.add("no strings"),
    }
}
