// keyring_file.

ghost use Rattle.std.specs.Prelude.{IfOk};
ghost use Rattle.keyring_file.specs.Short.{IsShortClear};

use crate::checks::{byte, cell, number, same_bytes, same_text};
use crate::words::{
    area_fault_told, clear_fault_told, decimal, full_item_told, hashes_told, item_numbers_told,
    joined,
};
use keyring_file::{Clear, ClearItem, FullItem, read_area, read_clear, write_area, write_clear};
use keyring_text::ReadRefused;
use kr_base::Text;
use kr_items::Items;
use md5::{Digest, Md5};
use std::alloc::Global;
use std::process::Abort;
use std::test::Fail;

// A collection `login` without items, as a program in Python wrote it: the clear part up to the number
// of items, and what follows it.
const FRONT: &[u8; 81] =
    b"GnomeKeyring\n\r\0\n\0\0\0\0\0\0\0\x05login\0\0\0\0\x65\x53\xf1\0\0\0\0\0\x65\x53\xf1\0\0\0\0\0\0\0\0\0\0\0\x27\x10\0\x01\x02\x03\x04\x05\x06\x07\0\0\0\0\0\0\0\0\0\0\0\0\0\0\0\0";

const BACK: &[u8; 20] = b"\0\0\0\x10AAAAAAAAAAAAAAAA";

// These functions return the bytes, so that no proof looks into them.
fn front() -> &'static [u8] {
    FRONT
}

fn back() -> &'static [u8] {
    BACK
}

fn file_of(alloc: Global, minor: u8, items: &[u8]) -> Result<Vec<u8>, Fail> {
    let mut file = Vec::from_slice(alloc, front())?;
    if let Some(byte) = file.get_mut(17) {
        *byte = minor;
    }
    file.extend_from_slice(items)?;
    file.extend_from_slice(back())?;
    Ok(file)
}

fn clear_item_told(alloc: Global, item: &ClearItem) -> Result<String, Fail> {
    let numbers = item_numbers_told(alloc, item)?;
    let hashes = hashes_told(alloc, item.hashed.as_slice())?;
    let (numbers, hashes) = (numbers.as_str(), hashes.as_str());
    joined(alloc, &[numbers, " [", hashes, "] ", item.content.as_str()])
}

fn clear_items_told(alloc: Global, items: &[ClearItem]) -> Result<String, Fail> {
    let mut told = String::new(alloc);
    for item in items {
        told.push_str(clear_item_told(alloc, item)?.as_str())?;
        told.push('~')?;
    }
    Ok(told)
}

/// The items of a file's clear part in words, or its fault.
fn clear_told(alloc: Global, file: &[u8]) -> Result<String, Fail> {
    match read_clear(alloc, file) {
        Ok((clear, _)) => clear_items_told(alloc, clear.items.as_slice()),
        Err(ReadRefused::Fault(fault)) => clear_fault_told(alloc, fault),
        Err(ReadRefused::OutOfMemory) => Err("memory")?,
    }
}

fn part_is_short(rt: &impl Abort, alloc: Global, file: &[u8], len: usize) -> Result<(), Fail> {
    let part = file.get(..len).ok_or("a part")?;
    let found = clear_told(alloc, part)?;
    let at = decimal(alloc, len as u64)?;
    same_text(rt, found.as_str(), "Short", at.as_str());
    Ok(())
}

fn longer(alloc: Global, file: &[u8]) -> Result<String, Fail> {
    let mut bytes = Vec::from_slice(alloc, file)?;
    bytes.push(0)?;
    clear_told(alloc, bytes.as_slice())
}

#[test]
fn each_part_of_a_file_is_short_and_a_longer_one_trails(rt: HostRuntime) -> Result<(), Fail> {
    let file = file_of(rt.alloc(), 0, b"\0\0\0\0")?;
    assert!(rt; file.len() == 105);
    same_text(
        &rt,
        clear_told(rt.alloc(), file.as_slice())?.as_str(),
        "",
        "the whole",
    );
    for len in 0..105 {
        part_is_short(&rt, rt.alloc(), file.as_slice(), len)?;
    }
    same_text(
        &rt,
        longer(rt.alloc(), file.as_slice())?.as_str(),
        "Trailing",
        "a longer one",
    );
    Ok(())
}

// A position in the file without items, the byte that is put there, and the fault, which is empty if
// there is none.
const BYTES: &str = "\
0|0|Magic
15|0|Magic
16|1|Version
17|1|
17|2|Version
18|1|Version
19|1|Version
23|254|Short
24|255|BadText
24|0|BadText
29|255|
45|255|
48|1|
52|255|
53|1|TooManyIterations
54|15|
54|16|TooManyIterations
57|255|
65|9|
80|9|
88|17|AreaLength
88|0|AreaLength
88|32|Short
";

// This function returns the rows, so that no proof looks into the text.
fn changed_bytes() -> &'static str {
    BYTES
}

fn changed(alloc: Global, place: usize, value: u8) -> Result<Vec<u8>, Fail> {
    let mut file = file_of(alloc, 0, b"\0\0\0\0")?;
    if let Some(byte) = file.get_mut(place) {
        *byte = value;
    }
    Ok(file)
}

fn changed_told(alloc: Global, row: &str) -> Result<String, Fail> {
    let place = number(cell(row, 0))? as usize;
    let value = byte(cell(row, 1))?;
    clear_told(alloc, changed(alloc, place, value)?.as_slice())
}

#[test]
fn one_changed_byte_is_its_fault(rt: HostRuntime) -> Result<(), Fail> {
    for row in changed_bytes().lines() {
        let found = changed_told(rt.alloc(), row)?;
        same_text(&rt, found.as_str(), cell(row, 2), row);
    }
    Ok(())
}

// The version's minor number, the items of the clear part in hex, and what is read from them, or the
// fault. A program in Python wrote the bytes.
const CLEAR: &str = "\
0|00000000|
0|000000010000000100000000000000010000000475736572000000000000002039303031353039383363643234666230\
    64363936336637643238653137663732|1 0 [user=393030313530393833636432346662306436393633663764323\
    8653137663732;] text/plain~
0|0000000300000007000000020000000200000004706f7274000000011bc635a4000000016100000000ffffffff000000\
    00ffffffff00000001000000000000000000000002ff00ffffffff0100000100000000|7 2 [port=#465974692;a=\
    ;] text/plain~0 4294967295 [=ff00;] text/plain~4294967295 16777217 [] text/plain~
1|0000000100000001000000000000000000000009746578742f68746d6c|1 0 [] text/html~
1|00000002000000020000000000000000ffffffff00000001000000000000000000000000|2 0 [] ~1 0 [] ~
0|00000002000000010000000000000000000000010000000000000000|DuplicateId
0|0000000200000001000000000000000000000001|DuplicateId
0|00000003000000030000000000000000000000010000000000000000000000020000000000000000|3 0 [] text/pla\
    in~1 0 [] text/plain~2 0 [] text/plain~
0|0000000300000003000000000000000000000001000000000000000000000003|DuplicateId
0|0000000300000003000000000000000000000001000000000000000000000001|DuplicateId
0|0000000300000001000000000000000000000002000000000000000000000002|DuplicateId
0|000000040000000300000000000000000000000100000000000000000000000500000000000000000000000500000000\
    |DuplicateId
0|0000000100000001000000000000000200000001610000000100000007000000016100000002|DuplicateName
0|000000010000000100000000000000030000000162000000010000000700000001610000000100000007000000016200\
    000002|DuplicateName
0|000000010000000100000000000000020000000161000000010000000000000001620000000100000001|1 0 [a=#0;b\
    =#1;] text/plain~
0|000000010000000100000000000000030000000161000000010000000000000001620000000100000001000000016200\
    000002|DuplicateName
0|000000010000000100000000000000030000000161000000010000000000000001620000000100000001000000016100\
    000002|DuplicateName
0|0000000100000001000000000000000a000000016a000000010000000000000001690000000100000001000000016800\
    0000010000000200000001670000000100000003000000016600000001000000040000000161000000010000000500\
    0000016200000001000000060000000163000000010000000700000001640000000100000008000000016500000001\
    00000009|1 0 [j=#0;i=#1;h=#2;g=#3;f=#4;a=#5;b=#6;c=#7;d=#8;e=#9;] text/plain~
0|00000001000000010000000000000009000000016a000000010000000000000001690000000100000001000000016800\
    0000010000000200000001670000000100000003000000016600000001000000040000000161000000010000000500\
    00000162000000010000000600000001630000000100000007000000016a00000002|DuplicateName
0|0000000100000001000000000000000a000000016a000000010000000000000001690000000100000001000000016800\
    0000010000000200000001670000000100000003000000016600000001000000040000000161000000010000000500\
    0000016200000001000000060000000163000000010000000700000001640000000100000008000000016400000002\
    |DuplicateName
0|00000001000000010000000000000001000000016100000002|BadKind
0|0000000100000001000000000000000100000001ff00000002|BadText
0|000000010000000100000000000000010000000261000000000000000020393030313530393833636432346662306436\
    3936336637643238653137663732|BadText
1|0000000100000001000000000000000000000001c3|BadText
0|ffffffff000000010000000000000000|Short
0|000000010000000100000000ffffffff|Short
0|00000001000000010000000000000001fffffffe|Short
";

fn clear_parts() -> &'static str {
    CLEAR
}

fn clear_part_told(alloc: Global, row: &str) -> Result<String, Fail> {
    let items = hex::decode(alloc, cell(row, 1))?;
    let file = file_of(alloc, byte(cell(row, 0))?, items.as_slice())?;
    clear_told(alloc, file.as_slice())
}

#[test]
fn items_of_the_clear_part_are_read_or_refused(rt: HostRuntime) -> Result<(), Fail> {
    for row in clear_parts().lines() {
        let found = clear_part_told(rt.alloc(), row)?;
        same_text(&rt, found.as_str(), cell(row, 2), row);
    }
    Ok(())
}

fn login(alloc: Global) -> Result<Clear, Fail>
    ensures { IfOk result IsShortClear }
{
    let name = Text::from_str(alloc, "login")?.ok_or("a zero byte")?;
    Ok(Clear {
        name,
        created: 1700000000,
        modified: 1700000000,
        flags: 0,
        timeout: 0,
        iterations: 10000,
        salt: [0, 1, 2, 3, 4, 5, 6, 7],
        items: Items::empty(alloc),
        minor: 0,
    })
}

fn login_written(alloc: Global) -> Result<Vec<u8>, Fail> {
    Ok(write_clear(alloc, &login(alloc)?, 16)?)
}

fn no_items_written(alloc: Global) -> Result<Vec<u8>, Fail> {
    Ok(write_area(alloc, &[])?)
}

#[test]
fn a_collection_without_items_is_written(rt: HostRuntime) -> Result<(), Fail> {
    let file = file_of(rt.alloc(), 0, b"\0\0\0\0")?;
    let front = file.get(..89).ok_or("a front")?;
    same_bytes(
        &rt,
        login_written(rt.alloc())?.as_slice(),
        front,
        "the clear part",
    );
    let area = no_items_written(rt.alloc())?;
    let want = b"\xd4\x1d\x8c\xd9\x8f\0\xb2\x04\xe9\x80\x09\x98\xec\xf8\x42\x7e";
    same_bytes(&rt, area.as_slice(), want.as_slice(), "the area");
    same_text(
        &rt,
        area_told(rt.alloc(), area.as_slice(), 0)?.as_str(),
        "",
        "the area",
    );
    Ok(())
}

// How many items the clear part has, what follows the check of an area in hex, and what is read
// from it, or the fault. A program in Python wrote the bytes.
const AREAS: &str = "\
0||
0|010203|
1|0000000161000000016200000000000000000000000000000000ffffffff000000000000000000000000000000000000\
    00000000000000000000000000000000|'a' 62 0 0 [] []~
1|ffffffffffffffff0000010000000000ffffffffffffffffffffffff0000000000000000000000000000000000000000\
    00000000ffffffffffffff|''  1099511627776 18446744073709551615 [] []~
1|00000002c3a40000000200ff0000000000000005000000000000000600000002ff00000102030405060708090a0b0c0d\
    0e0f0000000300000004757365720000000000000003616e6e00000004706f727400000001000003e100000005656d\
    70747900000000ffffffff00000002000000070000000945766f6c7574696f6e000000122f7573722f62696e2f6576\
    6f6c7574696f6e00000001780000000980000001ffffffff00000000ffffffff00000000|'ä' 00ff 5 6 [empty=;\
    port=#993;user=ann;] [7,Evolution,/usr/bin/evolution;2147483649,,;]~
2|0000000161000000016200000000000000000000000000000000ffffffff000000000000000000000000000000000000\
    00000000000000000001630000000000000000000000010000000000000002ffffffff000000000000000000000000\
    00000000000000010000000000000000000000017600000000|'a' 62 0 0 [] []~'c'  1 2 [=v;] []~
2|0000000161000000016200000000000000000000000000000000ffffffff000000000000000000000000000000000000\
    000000000000|Short
1|0000000161000000016200000000000000000000000000000000ffffffff000000000000000000000000000000000000\
    0000000000|Short
1|fffffffeffffffff000000000000000000000000000000000000000000000000|Short
1|0000000161000000016200000000000000000000000000000000ffffffff00000000000000000000000000000000ffff\
    ffff|Short
1|0000000161000000016200000000000000000000000000000000ffffffff000000000000000000000000000000000000\
    0000ffffffff|Short
1|00000001ff000000016200000000000000000000000000000000ffffffff000000000000000000000000000000000000\
    000000000000|BadText
1|000000026100000000016200000000000000000000000000000000ffffffff0000000000000000000000000000000000\
    00000000000000|BadText
1|0000000161000000016200000000000000000000000000000000ffffffff000000000000000000000000000000000000\
    0001000000016e00000000000000018000000000|BadText
1|0000000161000000016200000000000000000000000000000000ffffffff000000000000000000000000000000000000\
    0000000000010000000100000002c08000000000ffffffff00000000|BadText
1|0000000161000000016200000000000000000000000000000000ffffffff000000000000000000000000000000000000\
    00000000000100000001000000000000000100ffffffff00000000|BadText
1|0000000161000000016200000000000000000000000000000000ffffffff000000000000000000000000000000000000\
    0001000000016e0000000200000000|BadKind
1|0000000161000000016200000000000000000000000000000000ffffffff000000000000000000000000000000000000\
    0002000000016e000000000000000178000000016e0000000200000000|DuplicateName
1|0000000161000000016200000000000000000000000000000000ffffffff000000000000000000000000000000000000\
    0002000000016100000001000000000000000162000000010000000100000000|'a' 62 0 0 [a=#0;b=#1;] []~
1|0000000161000000016200000000000000000000000000000000ffffffff000000000000000000000000000000000000\
    00030000000161000000010000000000000001620000000100000001000000016200000002|DuplicateName
1|0000000161000000016200000000000000000000000000000000ffffffff000000000000000000000000000000000000\
    00030000000161000000010000000000000001620000000100000001000000016100000002|DuplicateName
1|0000000161000000016200000000000000000000000000000000ffffffff000000000000000000000000000000000000\
    000a000000016a00000001000000000000000169000000010000000100000001680000000100000002000000016700\
    0000010000000300000001660000000100000004000000016100000001000000050000000162000000010000000600\
    000001630000000100000007000000016400000001000000080000000165000000010000000900000000|'a' 62 0 \
    0 [a=#5;b=#6;c=#7;d=#8;e=#9;f=#4;g=#3;h=#2;i=#1;j=#0;] []~
1|0000000161000000016200000000000000000000000000000000ffffffff000000000000000000000000000000000000\
    0009000000016a00000001000000000000000169000000010000000100000001680000000100000002000000016700\
    0000010000000300000001660000000100000004000000016100000001000000050000000162000000010000000600\
    000001630000000100000007000000016a00000002|DuplicateName
1|0000000161000000016200000000000000000000000000000000ffffffff000000000000000000000000000000000000\
    000a000000016a00000001000000000000000169000000010000000100000001680000000100000002000000016700\
    0000010000000300000001660000000100000004000000016100000001000000050000000162000000010000000600\
    00000163000000010000000700000001640000000100000008000000016400000002|DuplicateName
";

fn areas() -> &'static str {
    AREAS
}

fn items_told(alloc: Global, items: &[FullItem]) -> Result<String, Fail> {
    let mut told = String::new(alloc);
    for item in items {
        told.push_str(full_item_told(alloc, item)?.as_str())?;
        told.push('~')?;
    }
    Ok(told)
}

/// The items of an area in words, or its fault.
fn area_told(alloc: Global, area: &[u8], count: usize) -> Result<String, Fail> {
    match read_area(alloc, area, count) {
        Ok(items) => items_told(alloc, items.as_slice()),
        Err(ReadRefused::Fault(fault)) => area_fault_told(alloc, fault),
        Err(ReadRefused::OutOfMemory) => Err("memory")?,
    }
}

// One item with the label `a` and the secret `b`, as a program in Python wrote it.
const AREA: &[u8; 80] =
    b"\xf7\x82\xc8\x07\xc4\x2f\xe6\x97\x59\xe1\x75\x60\xbc\x4a\x1c\x37\0\0\0\x01a\0\0\0\x01b\0\0\0\0\0\0\0\0\0\0\0\0\0\0\0\0\xff\xff\xff\xff\0\0\0\0\0\0\0\0\0\0\0\0\0\0\0\0\0\0\0\0\0\0\0\0\0\0\0\0\0\0\0\0\0\0";

fn one_item() -> &'static [u8] {
    AREA
}

// The same with another last byte.
fn last_changed(alloc: Global) -> Result<Vec<u8>, Fail> {
    let mut area = Vec::from_slice(alloc, one_item())?;
    if let Some(byte) = area.get_mut(79) {
        *byte = 1;
    }
    Ok(area)
}

// A check that lacks its last byte.
const CUT: &[u8; 15] = b"\xd4\x1d\x8c\xd9\x8f\0\xb2\x04\xe9\x80\x09\x98\xec\xf8\x42";

#[test]
fn an_area_of_one_item_is_read_and_checked(rt: HostRuntime) -> Result<(), Fail> {
    let alloc = rt.alloc();
    same_text(
        &rt,
        area_told(alloc, one_item(), 1)?.as_str(),
        "'a' 62 0 0 [] []~",
        "the area",
    );
    let changed = area_told(alloc, last_changed(alloc)?.as_slice(), 1)?;
    same_text(&rt, changed.as_str(), "CheckDiffers", "another byte");
    same_text(
        &rt,
        area_told(alloc, b"", 1)?.as_str(),
        "CheckDiffers",
        "no bytes",
    );
    same_text(
        &rt,
        area_told(alloc, CUT, 1)?.as_str(),
        "CheckDiffers",
        "a short check",
    );
    Ok(())
}

fn area_of(alloc: Global, digits: &str) -> Result<Vec<u8>, Fail> {
    let body = hex::decode(alloc, digits)?;
    let mut area = Vec::from_slice(alloc, Md5::digest(body.as_slice()).as_slice())?;
    area.extend_from_slice(body.as_slice())?;
    Ok(area)
}

fn area_row_told(alloc: Global, row: &str) -> Result<String, Fail> {
    let count = number(cell(row, 0))? as usize;
    area_told(alloc, area_of(alloc, cell(row, 1))?.as_slice(), count)
}

#[test]
fn items_of_the_area_are_read_or_refused(rt: HostRuntime) -> Result<(), Fail> {
    for row in areas().lines() {
        let found = area_row_told(rt.alloc(), row)?;
        same_text(&rt, found.as_str(), cell(row, 2), row);
    }
    Ok(())
}
