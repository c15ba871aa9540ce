// What comes of a set if a call of the device fails, and what a crash leaves.

use crate::checks::{cell, joined, same_bytes, same_text};
use crate::tables::{aliases_of, set, slot_of, stems_of, table_of};
use alias_table::AliasTable;
use kr_base::Bytes;
use kr_memory_disk::MemorySlot;
use std::alloc::Global;
use std::test::Fail;

// Two changes of the file `a=x;`: b is set to y, and then c to x. A row names the calls that fail, and those
// of them that the disk does all the same, and then what each set came to, with the aliases after it. The calls
// of a set are put_temp, sync_temp, rename and sync_folder, numbered from 0; those of a resolve, sync_folder
// and read, come before them.
const FAULTS: &str = "\
||ok a=x;b=y;|ok a=x;b=y;c=x;
0||before a=x;|ok a=x;c=x;
1||before a=x;|ok a=x;c=x;
2||unsure a=x;|ok a=x;c=x;
2|2|unsure a=x;|ok a=x;b=y;c=x;
3||unsure a=x;|ok a=x;b=y;c=x;
3 4||unsure a=x;|read a=x;
3 5||unsure a=x;|read a=x;
2 4|2|unsure a=x;|read a=x;
3 6||unsure a=x;|before a=x;b=y;
3 7||unsure a=x;|before a=x;b=y;
2 6||unsure a=x;|before a=x;
3 8||unsure a=x;|unsure a=x;b=y;
3 9||unsure a=x;|unsure a=x;b=y;
4||ok a=x;b=y;|before a=x;b=y;
6||ok a=x;b=y;|unsure a=x;b=y;
";

// What a set came to, with the aliases after it.
fn came_to(
    alloc: Global,
    table: &mut AliasTable<MemorySlot>,
    change: &str,
) -> Result<String, Fail> {
    let live = stems_of(alloc, "x,y")?;
    let answer = set(alloc, table, change, live.as_slice())?;
    let aliases = aliases_of(alloc, table)?;
    joined(alloc, &[answer, " ", aliases.as_str()])
}

// What both sets came to.
fn both(alloc: Global, table: &mut AliasTable<MemorySlot>) -> Result<String, Fail> {
    let first = came_to(alloc, table, "b=y")?;
    let second = came_to(alloc, table, "c=x")?;
    joined(alloc, &[first.as_str(), "|", second.as_str()])
}

// The table before, over a slot that fails as the row says.
fn table_before(alloc: Global, row: &str) -> Result<AliasTable<MemorySlot>, Fail> {
    table_of(alloc, b"a=x\n", cell(row, '|', 0), cell(row, '|', 1))
}

fn story(alloc: Global, row: &str) -> Result<String, Fail> {
    let mut table = table_before(alloc, row)?;
    both(alloc, &mut table)
}

// The slot after both sets.
fn slot_after(alloc: Global, row: &str) -> Result<MemorySlot, Fail> {
    let mut table = table_before(alloc, row)?;
    let _story = both(alloc, &mut table)?;
    Ok(slot_of(table))
}

fn wanted(alloc: Global, row: &str) -> Result<String, Fail> {
    joined(alloc, &[cell(row, '|', 2), "|", cell(row, '|', 3)])
}

#[test]
fn a_set_that_fails_leaves_the_aliases_or_a_doubt(rt: HostRuntime) -> Result<(), Fail> {
    for row in FAULTS.lines() {
        let found = story(rt.alloc(), row)?;
        let want = wanted(rt.alloc(), row)?;
        same_text(&rt, found.as_str(), want.as_str(), row);
    }
    Ok(())
}

// The letter of a file that a crash leaves, by the aliases that it gives when it is read again: o for the file
// before, n with b, m with b and c, p with c alone.
fn letter_of(alloc: Global, image: &Option<Bytes>) -> Result<u8, Fail> {
    match image {
        Some(bytes) => {
            let aliases = read_again(alloc, bytes.as_slice())?;
            Ok(letter_for(aliases.as_bytes()))
        }
        None => Ok(b'.'),
    }
}

fn letter_for(aliases: &[u8]) -> u8 {
    match aliases {
        b"a=x;" => b'o',
        b"a=x;b=y;" => b'n',
        b"a=x;b=y;c=x;" => b'm',
        b"a=x;c=x;" => b'p',
        _ => b'?',
    }
}

// The aliases that a file gives.
fn read_again(alloc: Global, bytes: &[u8]) -> Result<String, Fail> {
    let table = table_of(alloc, bytes, "", "")?;
    aliases_of(alloc, &table)
}

fn add_letter(letter: u8, letters: &mut Vec<u8>) -> Result<(), Fail> {
    if !letters.contains(&letter) {
        letters.push(letter)?;
    }
    Ok(())
}

// The letter of one file that a crash leaves.
fn letter_left(alloc: Global, slot: &MemorySlot, choice: u64) -> Result<u8, Fail> {
    let image = slot.left(choice)?;
    letter_of(alloc, &image)
}

// The letters of all files that a crash leaves if the machine stopped after this many calls.
fn left_at(alloc: Global, slot: &mut MemorySlot, calls: usize) -> Result<Vec<u8>, Fail> {
    slot.cut(calls);
    let mut left = Vec::new(alloc);
    for choice in 0..6 {
        add_letter(letter_left(alloc, slot, choice)?, &mut left)?;
    }
    Ok(left)
}

// The calls that fail, those of them that are done all the same, and what a crash leaves after all calls, then
// after one fewer, down to none. A rename that failed counts as done until the folder is synced.
const LEFT: &str = "\
||m,nm,n,n,n,on,o,o,o,
0||p,op,o,o,o,o,
1||p,op,o,o,o,o,o,
2||p,op,o,o,o,o,no,o,o,o,
2|2|m,nm,n,n,n,n,on,o,o,o,
3||m,nm,n,n,n,n,on,on,o,o,o,
3 4||on,on,on,o,o,o,
3 6||n,n,n,on,on,o,o,o,
";

// What a crash leaves after all calls, then after one fewer, down to none.
fn left_of(alloc: Global, row: &str) -> Result<Vec<u8>, Fail> {
    let mut slot = slot_after(alloc, row)?;
    let mut left = Vec::new(alloc);
    for calls in (0..slot.calls().len().saturating_add(1)).rev() {
        left.extend_from_slice(left_at(alloc, &mut slot, calls)?.as_slice())?;
        left.push(b',')?;
    }
    Ok(left)
}

#[test]
fn a_crash_leaves_the_old_aliases_or_the_new_ones(rt: HostRuntime) -> Result<(), Fail> {
    for row in LEFT.lines() {
        let left = left_of(rt.alloc(), row)?;
        same_bytes(&rt, left.as_slice(), cell(row, '|', 2).as_bytes(), row);
    }
    Ok(())
}
