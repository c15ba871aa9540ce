// What a change makes of the aliases and of their file.

use crate::checks::{cell, joined, same_text};
use crate::tables::{aliases_of, lines_of, set, signs_of, slot_of, stems_of, table_of};
use alias_table::AliasTable;
use kr_memory_disk::MemorySlot;
use std::alloc::Global;
use std::test::Fail;

// The file before, in which `;` is a line ending; the stems of the collections that are there; the change; and
// then what was answered, the aliases that are read, and the file.
const CHANGES: &str = "\
|login|default=login|ok|default=login;|default=login;
default=login;|login|default=login|ok|default=login;|default=login;
default=login;|login,work|default=work|ok|default=work;|default=work;
a=x;c=z;|x,y,z|b=y|ok|a=x;b=y;c=z;|a=x;b=y;c=z;
a=x;b=y;c=z;|x,y,z|b=|ok|a=x;c=z;|a=x;c=z;
a=x;b=y;|y|c=y|ok|b=y;c=y;|b=y;c=y;
a=x;b=y;||c=|ok||
a=x;|x|b=|ok|a=x;|a=x;
a=x;|x|a=|ok||
b=y;|y,my keyring|a=my keyring|ok|a=my keyring;b=y;|a=my_20keyring;b=y;
Z=x;_=x;a=x;|x|A=x|ok|A=x;Z=x;_=x;a=x;|A=x;Z=x;_=x;a=x;
b=y;a=x;no line;b=x|x,y|c=x|ok|a=x;b=y;c=x;|a=x;b=y;c=x;
a=x;|x|a b=x|bad name|a=x;|a=x;
a=x;|x|=x|bad name|a=x;|a=x;
";

// The file of the table.
fn file_of(alloc: Global, table: AliasTable<MemorySlot>) -> Result<String, Fail> {
    let slot = slot_of(table);
    match slot.left(0)? {
        Some(bytes) => signs_of(alloc, bytes.as_slice()),
        None => Ok(String::from_str(alloc, "no file")?),
    }
}

// What was answered, the aliases, and the file.
fn changed(alloc: Global, row: &str) -> Result<String, Fail> {
    let before = lines_of(alloc, cell(row, '|', 0))?;
    let live = stems_of(alloc, cell(row, '|', 1))?;
    let mut table = table_of(alloc, before.as_slice(), "", "")?;
    let answer = set(alloc, &mut table, cell(row, '|', 2), live.as_slice())?;
    let aliases = aliases_of(alloc, &table)?;
    let file = file_of(alloc, table)?;
    joined(alloc, &[answer, "|", aliases.as_str(), "|", file.as_str()])
}

// The row's cells from the fourth on.
fn wanted(alloc: Global, row: &str) -> Result<String, Fail> {
    joined(
        alloc,
        &[
            cell(row, '|', 3),
            "|",
            cell(row, '|', 4),
            "|",
            cell(row, '|', 5),
        ],
    )
}

#[test]
fn a_change_sets_one_alias_and_drops_those_of_no_collection(rt: HostRuntime) -> Result<(), Fail> {
    for row in CHANGES.lines() {
        let found = changed(rt.alloc(), row)?;
        let want = wanted(rt.alloc(), row)?;
        same_text(&rt, found.as_str(), want.as_str(), row);
    }
    Ok(())
}

// The stem that the name is read as in a table of three aliases.
fn read_of(alloc: Global, name: &str) -> Result<String, Fail> {
    let table = table_of(alloc, b"a=x\nb=y\nd=my_20keyring\n", "", "")?;
    match table.read(name) {
        Some(stem) => Ok(String::from_str(alloc, stem.as_str())?),
        None => Ok(String::from_str(alloc, "none")?),
    }
}

#[test]
fn an_alias_is_read_by_its_whole_name(rt: HostRuntime) -> Result<(), Fail> {
    let rows = "a=x\nb=y\nd=my keyring\nc=none\n=none\naa=none\nA=none";
    for row in rows.lines() {
        let found = read_of(rt.alloc(), cell(row, '=', 0))?;
        same_text(&rt, found.as_str(), cell(row, '=', 1), row);
    }
    Ok(())
}
