ghost use Rattle.std.specs.Prelude.{◌≡◌, IfOk};
ghost use Rattle.replace_slot.specs.Cell.{HasFile};

use crate::checks::{cell, numbers, same_bytes};
use kr_base::Bytes;
use kr_memory_disk::MemorySlot;
use replace_slot::{FaultRead, FileCell, Found, Image, RemoveFault, ReplaceFault};
use std::alloc::Global;
use std::test::Fail;

// The cell of a file `old`, over a slot that fails the calls of a row; those that the row names
// again are performed by the disk nevertheless.
fn cell_of_old(alloc: Global, row: &str) -> Result<FileCell<MemorySlot>, Fail>
    ensures { IfOk result (λ cell. HasFile cell.file) }
{
    let image = Bytes::from_slice(alloc, b"old")?;
    let failing = numbers(alloc, cell(row, ';', 0))?;
    let done = numbers(alloc, cell(row, ';', 1))?;
    let slot = MemorySlot::new(alloc, Some(image), failing, done);
    let old = Image::new(alloc, b"old".as_slice().to_vec(alloc)?)?;
    Ok(FileCell::known(slot, Some(old)))
}

// Removes the file: k for Ok, r for FaultUnsure.
fn removed(cell: &mut FileCell<MemorySlot>) -> u8
    requires { HasFile cell.old.file }
{
    match cell.remove() {
        Ok(()) => b'k',
        Err(RemoveFault::FaultUnsure) => b'r',
    }
}

// Replaces the file by `newer`: k for Ok, b for FaultBefore, u for FaultUnsure.
fn replaced(alloc: Global, cell: &mut FileCell<MemorySlot>) -> Result<u8, Fail>
    requires { HasFile cell.old.file }
{
    let newer = Image::new(alloc, b"newer".as_slice().to_vec(alloc)?)?;
    Ok(match cell.replace(newer) {
        Ok(()) => b'k',
        Err(ReplaceFault::FaultBefore) => b'b',
        Err(ReplaceFault::FaultUnsure) => b'u',
    })
}

// Replaces the file, or removes it, and returns the letter of the result.
fn changed(alloc: Global, cell: &mut FileCell<MemorySlot>, is_replaced: bool) -> Result<u8, Fail>
    requires { HasFile cell.old.file }
{
    if is_replaced {
        return replaced(alloc, cell);
    }
    Ok(removed(cell))
}

// Resolves a doubt: o, n, x for Old, New, Other, ! for FaultRead, or None if nothing is.
fn resolved(cell: &mut FileCell<MemorySlot>) -> Option<u8> {
    let mut buffer = [0; 8];
    if cell.is_known() || cell.longest() >= buffer.len() {
        return None;
    }
    Some(match cell.resolve(&mut buffer) {
        Ok(Found::Old) => b'o',
        Ok(Found::New) => b'n',
        Ok(Found::Other) => b'x',
        Err(FaultRead) => b'!',
    })
}

// The calls that fail, those of them performed nevertheless, the result of a replacement, and then
// the results of resolving, at most two, with ? if a doubt is left. The calls are put_temp 0,
// sync_temp 1, rename 2, sync_folder 3; those of a resolve after a failed rename are sync_folder 3
// and read 4.
const REPLACEMENTS: &str = "\
;;k
0;;b
1;;b
2;;uo
2;2;un
3;;un
2 3;;u!o
2 4;2;u!n
2 3 4;;u!!?
";

// The same for a removal. The calls are remove 0, sync_folder 1.
const REMOVALS: &str = "\
;;k
0;;ro
0;0;rn
1;;rn
0 1;;r!o
0 1 2;;r!!?
";

// Appends the results of resolving, at most two, and ? if a doubt is left.
fn resolve(cell: &mut FileCell<MemorySlot>, told: &mut Vec<u8>) -> Result<(), Fail> {
    for _ in 0..2 {
        if let Some(letter) = resolved(cell) {
            told.push(letter)?;
        }
    }
    if !cell.is_known() {
        told.push(b'?')?;
    }
    Ok(())
}

fn answered(alloc: Global, row: &str, is_replaced: bool) -> Result<Vec<u8>, Fail> {
    let mut cell = cell_of_old(alloc, row)?;
    let mut told = Vec::new(alloc);
    told.push(changed(alloc, &mut cell, is_replaced)?)?;
    resolve(&mut cell, &mut told)?;
    Ok(told)
}

#[test]
fn a_change_is_known_or_in_doubt(rt: HostRuntime) -> Result<(), Fail> {
    for row in REPLACEMENTS.lines() {
        let told = answered(rt.alloc(), row, true)?;
        same_bytes(&rt, told.as_slice(), cell(row, ';', 2).as_bytes(), row);
    }
    for row in REMOVALS.lines() {
        let told = answered(rt.alloc(), row, false)?;
        same_bytes(&rt, told.as_slice(), cell(row, ';', 2).as_bytes(), row);
    }
    Ok(())
}

fn letter_of(image: &Option<Bytes>) -> u8 {
    match image {
        None => b'.',
        Some(bytes) => match bytes.as_slice() {
            b"old" => b'o',
            b"newer" => b'n',
            _ => b'x',
        },
    }
}

fn add_letter(letter: u8, letters: &mut Vec<u8>) -> Result<(), Fail> {
    if !letters.contains(&letter) {
        letters.push(letter)?;
    }
    Ok(())
}

// What a crash leaves of the slot if the machine stopped after this many of its calls: o for the
// old image, n for the new one, . for no file, x for another one.
fn left_at(alloc: Global, slot: &mut MemorySlot, calls: usize) -> Result<Vec<u8>, Fail> {
    slot.cut(calls);
    let mut left = Vec::new(alloc);
    for choice in 0..6 {
        add_letter(letter_of(&slot.left(choice)?), &mut left)?;
    }
    Ok(left)
}

// The calls that fail, those of them performed nevertheless, and what a crash leaves after all
// calls, then after one fewer, down to none: before the rename the old image, from it on the old or
// the new one, and after a sync of the folder the new one. If a rename failed and did nothing, the
// name still counts as having stood for the new one.
const LEFT_OF_REPLACEMENTS: &str = "\
;;n|on|o|o|o|
0;;o|o|
1;;o|o|o|
2;;no|o|o|o|
2;2;on|o|o|o|
3;;on|on|o|o|o|
";

// The same for a removal.
const LEFT_OF_REMOVALS: &str = "\
;;.|o.|o|
0;;.o|o|
0;0;o.|o|
1;;o.|o.|o|
";

// The slot after a change.
fn changed_slot(alloc: Global, row: &str, is_replaced: bool) -> Result<MemorySlot, Fail> {
    let mut cell = cell_of_old(alloc, row)?;
    let _ = changed(alloc, &mut cell, is_replaced)?;
    Ok(cell.into_slot())
}

// What a crash leaves after all calls, then after one fewer, down to none.
fn left_of(alloc: Global, row: &str, is_replaced: bool) -> Result<Vec<u8>, Fail> {
    let mut slot = changed_slot(alloc, row, is_replaced)?;
    let mut left = Vec::new(alloc);
    for calls in (0..slot.calls().len().saturating_add(1)).rev() {
        left.extend_from_slice(left_at(alloc, &mut slot, calls)?.as_slice())?;
        left.push(b'|')?;
    }
    Ok(left)
}

#[test]
fn a_crash_leaves_the_old_image_then_either_then_the_new(rt: HostRuntime) -> Result<(), Fail> {
    for row in LEFT_OF_REPLACEMENTS.lines() {
        let left = left_of(rt.alloc(), row, true)?;
        same_bytes(&rt, left.as_slice(), cell(row, ';', 2).as_bytes(), row);
    }
    for row in LEFT_OF_REMOVALS.lines() {
        let left = left_of(rt.alloc(), row, false)?;
        same_bytes(&rt, left.as_slice(), cell(row, ';', 2).as_bytes(), row);
    }
    Ok(())
}
