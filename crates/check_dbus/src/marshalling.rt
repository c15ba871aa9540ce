// Values that are read and written.

use crate::bytes::{hex_bytes, number, small_number};
use crate::shown::write_values;
use crate::spelling::{write_plain, write_strings};
use check_rows::{Line, cell};
use dbus_marshal::{MarshalFault, ValueFault, marshal, unmarshal};
use dbus_types::{Endian, Signature};
use std::alloc::Global;

/// The name of a fault.
pub fn fault_word(fault: ValueFault) -> &'static str {
    match fault {
        ValueFault::Short => "Short",
        ValueFault::Padding => "Padding",
        ValueFault::BadBool => "BadBool",
        ValueFault::BadText => "BadText",
        ValueFault::BadPath => "BadPath",
        ValueFault::BadSignature => "BadSignature",
        ValueFault::ArrayTooLong => "ArrayTooLong",
        ValueFault::TooDeep => "TooDeep",
        ValueFault::Rest => "Rest",
        ValueFault::OutOfMemory => "OutOfMemory",
    }
}

/// The signature of a cell.
pub fn types_of(alloc: Global, signature: &str) -> Option<Signature> {
    Signature::parse(alloc, signature.as_bytes()).ok()
}

// Writes the values that bytes spell in one order, in the other order in hex, or the fault.
fn write_turned(types: &Signature, bytes: &[u8], from: Endian, to: Endian, line: &mut Line) {
    match unmarshal(line.alloc(), types, from, 0, bytes) {
        Ok(values) => match marshal(line.alloc(), values.as_slice(), to, 0) {
            Ok(written) => line.hex(written.as_slice()),
            Err(MarshalFault::TooLong) => line.add("TooLong"),
            Err(MarshalFault::OutOfMemory) => line.lack(),
        },
        Err(fault) => line.add(fault_word(fault)),
    }
}

fn fault_of(alloc: Global, types: &Signature, bytes: &[u8]) -> Option<ValueFault> {
    unmarshal(alloc, types, Endian::Little, 0, bytes).err()
}

// Counts the positions at which the bytes can be cut and are Short then.
fn count_short(alloc: Global, types: &Signature, bytes: &[u8]) -> u64 {
    let mut count = 0u64;
    for cut in 0..bytes.len() {
        let (front, _) = bytes.split_at(cut);
        if fault_of(alloc, types, front) == Some(ValueFault::Short) {
            count = count.saturating_add(1);
        }
    }
    count
}

// Whether the bytes with one more have a rest.
fn has_rest(types: &Signature, bytes: &mut Vec<u8>, alloc: Global) -> bool {
    bytes.push(0).is_ok() && fault_of(alloc, types, bytes.as_slice()) == Some(ValueFault::Rest)
}

// Writes little-endian bytes in both orders, and how they are refused when they are cut or continued.
fn write_vector(types: &Signature, bytes: &mut Vec<u8>, line: &mut Line) {
    write_turned(types, bytes.as_slice(), Endian::Little, Endian::Big, line);
    line.add(" ");
    write_turned(
        types,
        bytes.as_slice(),
        Endian::Little,
        Endian::Little,
        line,
    );
    line.add(" ");
    line.number(count_short(line.alloc(), types, bytes.as_slice()));
    let alloc = line.alloc();
    line.add(if has_rest(types, bytes, alloc) {
        " Rest"
    } else {
        " no Rest"
    });
}

fn write_read(types: &Signature, bytes: &[u8], endian: Endian, place: u64, line: &mut Line) {
    match unmarshal(line.alloc(), types, endian, place, bytes) {
        Ok(values) => write_values(values.as_slice(), line),
        Err(fault) => line.add(fault_word(fault)),
    }
}

// This many variants, each inside another one, around a byte.
fn variants(alloc: Global, count: u64) -> Option<Vec<u8>> {
    let mut bytes = Vec::new(alloc);
    for _ in 0..count {
        bytes.extend_from_slice(b"\x01v\0").ok()?;
    }
    bytes.extend_from_slice(b"\x01y\0\x07").ok()?;
    Some(bytes)
}

fn write_variants(types: &Signature, count: u64, line: &mut Line) {
    match variants(line.alloc(), count) {
        Some(bytes) => match fault_of(line.alloc(), types, bytes.as_slice()) {
            Some(fault) => line.add(fault_word(fault)),
            None => line.add("read"),
        },
        None => line.lack(),
    }
}

fn word(endian: Endian, number: u32) -> [u8; 4] {
    match endian {
        Endian::Little => number.to_le_bytes(),
        Endian::Big => number.to_be_bytes(),
    }
}

// The spelling of an array, whose numbers count up from 0, with this padding after its length.
fn long_array(alloc: Global, endian: Endian, padding: u64, count: u32) -> Option<Vec<u8>> {
    let mut bytes = Vec::new(alloc);
    bytes
        .extend_from_slice(&word(endian, count.saturating_mul(4)))
        .ok()?;
    for _ in 0..padding {
        bytes.push(0).ok()?;
    }
    for number in 0..count {
        bytes.extend_from_slice(&word(endian, number)).ok()?;
    }
    Some(bytes)
}

fn is_written(alloc: Global, types: &Signature, little: &[u8], big: &[u8]) -> bool {
    match unmarshal(alloc, types, Endian::Little, 0, little) {
        Ok(values) => match marshal(alloc, values.as_slice(), Endian::Big, 0) {
            Ok(written) => written.as_slice() == big,
            Err(_) => false,
        },
        Err(_) => false,
    }
}

fn write_long(types: &Signature, padding: u64, count: u32, line: &mut Line) {
    let little = long_array(line.alloc(), Endian::Little, padding, count);
    let big = long_array(line.alloc(), Endian::Big, padding, count);
    match (little, big) {
        (Some(little), Some(big)) => {
            let is_same = is_written(line.alloc(), types, little.as_slice(), big.as_slice());
            line.add(if is_same { "written" } else { "other bytes" });
        }
        _ => line.lack(),
    }
}

// Runs a row whose second cell has bytes.
fn write_bytes(kind: &str, types: &Signature, bytes: &mut Vec<u8>, place: u64, line: &mut Line) {
    match kind {
        "vector" => write_vector(types, bytes, line),
        "turn" => write_turned(types, bytes.as_slice(), Endian::Little, Endian::Big, line),
        "back" => write_turned(types, bytes.as_slice(), Endian::Big, Endian::Little, line),
        "little" => write_read(types, bytes.as_slice(), Endian::Little, place, line),
        "big" => write_read(types, bytes.as_slice(), Endian::Big, place, line),
        "plain" => write_plain(types, bytes.as_slice(), line),
        _ => line.add("no such kind"),
    }
}

/// Runs a row on values of a signature, its first cell.
///
/// `turn` writes bytes in little-endian order in the other order, `back` those in the other order in little-endian order, and
/// `vector` is `turn` with the bytes themselves, at how many positions a cut makes them Short, and whether one more is a Rest.
/// `little` and `big` read bytes at a position, and write the values. `plain` writes them by the plain program. `variants` reads
/// this many variants, each inside another one; `long` writes an array with this padding and this many numbers; and `strings` counts
/// how all strings of some letters are read.
pub fn write(kind: &str, cells: &str, line: &mut Line) {
    let Some(types) = types_of(line.alloc(), cell(cells, 0)) else {
        return line.add("no signature");
    };
    match kind {
        "variants" => write_variants(&types, number(cell(cells, 1)), line),
        "long" => write_long(
            &types,
            number(cell(cells, 1)),
            small_number(cell(cells, 2)),
            line,
        ),
        "strings" => write_strings(&types, cells, line),
        _ => match hex_bytes(line.alloc(), cell(cells, 1)) {
            Some(mut bytes) => {
                write_bytes(kind, &types, &mut bytes, number(cell(cells, 2)), line);
            }
            None => line.add("no bytes"),
        },
    }
}
