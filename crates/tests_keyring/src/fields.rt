// keyring_text. GNOME keyring file format: numbers are big-endian, a string is its length and its bytes,
// and the length ffffffff means no string.

use crate::checks::{cell, same_text};
use crate::words::{decimal, digits_of, joined, spaced};
use keyring_text::{
    FieldFault, ReadRefused, number_at, put_number, put_string, put_time, text_at, time_at,
};
use std::alloc::Global;
use std::test::Fail;

fn written(alloc: Global) -> Result<Vec<u8>, Fail> {
    let mut out = Vec::new(alloc);
    put_number(&mut out, 0x01020304)?;
    put_time(&mut out, 1700000000)?;
    put_string(&mut out, b"ab")?;
    Ok(out)
}

fn fields_told(
    alloc: Global,
    number: u32,
    seconds: u64,
    text: &str,
    left: usize,
) -> Result<String, Fail> {
    let number = decimal(alloc, u64::from(number))?;
    let seconds = decimal(alloc, seconds)?;
    let left = decimal(alloc, left as u64)?;
    spaced(
        alloc,
        &[number.as_str(), seconds.as_str(), text, left.as_str()],
    )
}

/// The number, the time, the string and how many bytes are left.
fn read_again(alloc: Global, bytes: &[u8]) -> Result<String, Fail> {
    let (number, rest) = number_at(bytes).ok().ok_or("number")?;
    let (seconds, rest) = time_at(rest).ok().ok_or("time")?;
    let (text, rest) = text_at(alloc, rest).ok().ok_or("text")?;
    fields_told(alloc, number, seconds, text.as_str(), rest.len())
}

#[test]
fn fields_are_read_as_they_are_written(rt: HostRuntime) -> Result<(), Fail> {
    let alloc = rt.alloc();
    let bytes = written(alloc)?;
    let digits = digits_of(alloc, bytes.as_slice())?;
    same_text(
        &rt,
        digits.as_str(),
        "01020304000000006553f100000000026162",
        "the bytes",
    );
    let fields = read_again(alloc, bytes.as_slice())?;
    same_text(
        &rt,
        fields.as_str(),
        "16909060 1700000000 ab 0",
        "the fields",
    );
    Ok(())
}

// A string in hex, and the text that is read or the fault.
const STRINGS: &str = "\
00000000|''
ffffffff|''
0000000161|'a'
000000|Short
0000000261|Short
00000002ff|Short
00000001ff|BadText
000000026100|BadText
";

fn fault_named(refused: ReadRefused<FieldFault>) -> &'static str {
    match refused {
        ReadRefused::Fault(FieldFault::Short) => "Short",
        ReadRefused::Fault(FieldFault::BadText) => "BadText",
        _ => "another refusal",
    }
}

fn told(alloc: Global, bytes: &[u8]) -> Result<String, Fail> {
    match text_at(alloc, bytes) {
        Ok((text, _)) => joined(alloc, &["'", text.as_str(), "'"]),
        Err(refused) => Ok(String::from_str(alloc, fault_named(refused))?),
    }
}

fn string_told(alloc: Global, row: &str) -> Result<String, Fail> {
    told(alloc, hex::decode(alloc, cell(row, 0))?.as_slice())
}

#[test]
fn each_fault_of_a_string_has_its_bytes(rt: HostRuntime) -> Result<(), Fail> {
    for row in STRINGS.lines() {
        let found = string_told(rt.alloc(), row)?;
        same_text(&rt, found.as_str(), cell(row, 1), row);
    }
    Ok(())
}
