ghost use Rattle.std.specs.Prelude.{◌≡◌, ◌∷◌, [], IfOk, OnOk};

use crate::checks::{cell, length, number, numbers, same_bytes};
use kr_base::{Bytes, Text};
use kr_memory::{ListedClock, MemorySink, MemorySource};
use kr_memory_disk::{
    Files, MemoryFolder, MemoryHost, MemorySlot, SlotPlan, SteadyFolder, SteadyHost, SteadySlot,
};
use kr_outside::{Clock, Folder, Host, OutsideRefused, Seen, Slot};
use std::alloc::{AllocError, Global};
use std::process::Abort;
use std::test::Fail;

fn name_of(alloc: Global, name: &str) -> Result<Text, Fail> {
    Ok(Text::from_str(alloc, name)?.ok_or("a zero byte")?)
}

// Files with these names, each with its name as its bytes.
fn files_of(alloc: Global, names: &str) -> Result<Files, Fail> {
    let mut files = Files::new(alloc);
    for name in names.split_whitespace() {
        let bytes = Bytes::from_slice(alloc, name.as_bytes())?;
        files.set(name_of(alloc, name)?, Some(bytes))?;
    }
    Ok(files)
}

// A folder of such files, whose calls with these numbers fail.
fn folder_of(alloc: Global, names: &str, failing: &str) -> Result<MemoryFolder, Fail>
    ensures { IfOk result (λ folder. folder.made ≡ []) }
{
    let mut folder = MemoryFolder::new(alloc, numbers(alloc, failing)?);
    for name in names.split_whitespace() {
        let bytes = Bytes::from_slice(alloc, name.as_bytes())?;
        folder.set(name_of(alloc, name)?, Some(bytes))?;
    }
    Ok(folder)
}

// Appends the names and a bar, or ! for a failure.
fn name_told(
    names: Result<Vec<Text>, OutsideRefused>,
    told: &mut Vec<u8>,
) -> Result<(), AllocError> {
    let Ok(names) = names else {
        told.push(b'!')?;
        return Ok(());
    };
    for name in &names {
        told.extend_from_slice(name.as_bytes())?;
    }
    told.push(b'|')?;
    Ok(())
}

// What a folder returns for sync, names, sync and names: s for a sync, the names and a bar, or !
// for a failure.
fn answered<F: Folder>(alloc: Global, folder: &mut F) -> Result<Vec<u8>, AllocError> {
    let mut told = Vec::new(alloc);
    for _ in 0..2 {
        told.push(if folder.sync().is_ok() { b's' } else { b'!' })?;
        name_told(folder.names(), &mut told)?;
    }
    Ok(told)
}

// The names, the calls that fail, and what is returned.
const FOLDERS: &str = "\
;;s|s|
a b a;;sba|sba|
a;0 3;!a|s!
a;1;s!sa|
";

fn answered_by_the_plan(alloc: Global, row: &str) -> Result<Vec<u8>, Fail> {
    let mut folder = folder_of(alloc, cell(row, 0), cell(row, 1))?;
    Ok(answered(alloc, &mut folder)?)
}

fn answered_steadily(alloc: Global, row: &str) -> Result<Vec<u8>, Fail> {
    let mut folder = SteadyFolder::new(alloc, files_of(alloc, cell(row, 0))?, 0);
    Ok(answered(alloc, &mut folder)?)
}

fn answers_are_planned(rt: &impl Abort, alloc: Global, row: &str) -> Result<(), Fail> {
    let told = answered_by_the_plan(alloc, row)?;
    same_bytes(rt, told.as_slice(), cell(row, 2).as_bytes(), row);
    if cell(row, 1).is_empty() {
        let told = answered_steadily(alloc, row)?;
        same_bytes(rt, told.as_slice(), cell(row, 2).as_bytes(), row);
    }
    Ok(())
}

#[test]
fn a_folder_answers_by_its_plan(rt: HostRuntime) -> Result<(), Fail> {
    for row in FOLDERS.lines() {
        answers_are_planned(&rt, rt.alloc(), row)?;
    }
    Ok(())
}

fn plan_of(alloc: Global, name: &str, failing: &str) -> Result<SlotPlan, Fail> {
    Ok(SlotPlan {
        name: name_of(alloc, name)?,
        failing: numbers(alloc, failing)?,
        done: Vec::new(alloc),
    })
}

// Replaces what a slot stands for by `!`, as far as the failing calls allow it.
fn mark(slot: &mut MemorySlot) {
    if slot.put_temp(b"!").is_ok() && slot.sync_temp().is_ok() && slot.rename().is_ok() {
        let _ = slot.sync_folder();
    }
}

// The slot of this name, which fails in these calls, after `mark`.
fn replaced(
    alloc: Global,
    folder: &mut MemoryFolder,
    name: &str,
    failing: &str,
) -> Result<(Text, MemorySlot), Fail>
    ensures named { IfOk result (λ slot. slot.0 ≡ name.now) }
    ensures made { OnOk result (folder.new.made ≡ name.now ∷ folder.old.made) }
{
    folder.plan(plan_of(alloc, name, failing)?)?;
    let named = Text::from_str(alloc, name)?.ok_or("a zero byte")?;
    let mut slot = folder.slot(name)?;
    mark(&mut slot);
    Ok((named, slot))
}

// The folder of `a` and `b` after a crash; both were replaced as far as the failing calls allowed
// it, and this number picks the images.
fn crashed(alloc: Global, failing: &str, choice: u64) -> Result<MemoryFolder, Fail> {
    let mut folder = folder_of(alloc, "a b", "")?;
    let mut slots = Vec::new(alloc);
    slots.push(replaced(alloc, &mut folder, "a", failing)?)?;
    slots.push(replaced(alloc, &mut folder, "b", failing)?)?;
    Ok(folder.crash(slots, choice)?)
}

// What `a`, `b` and `c` stand for after a crash, with . for no file.
fn left_by_crash(alloc: Global, row: &str) -> Result<Vec<u8>, Fail> {
    let folder = crashed(alloc, cell(row, 0), number(cell(row, 1))?)?;
    let mut left = Vec::new(alloc);
    for name in ["a", "b", "c"] {
        left.extend_from_slice(folder.image(name).unwrap_or(b"."))?;
    }
    Ok(left)
}

// The calls that fail, the number, and what is left. If no sync of the folder came after the
// rename, both images may be left; the same is true if the rename failed, and what the name stands
// for then comes last.
const CRASHES: &str = "\
;0;!!.
;7;!!.
3;0;ab.
3;1;!b.
3;2;a!.
3;3;!!.
3;4;ab.
2;0;!!.
2;1;a!.
2;18446744073709551615;ab.
0;9;ab.
";

#[test]
fn a_crash_leaves_each_combination_of_images(rt: HostRuntime) -> Result<(), Fail> {
    for row in CRASHES.lines() {
        let left = left_by_crash(rt.alloc(), row)?;
        same_bytes(&rt, left.as_slice(), cell(row, 2).as_bytes(), row);
    }
    Ok(())
}

// Appends what the folder at this path returns, or ? if it can't be opened.
fn folder_told<H: Host>(
    alloc: Global,
    host: &mut H,
    path: &str,
    told: &mut Vec<u8>,
) -> Result<(), AllocError> {
    match host.folder(path) {
        Ok(mut folder) => told.extend_from_slice(answered(alloc, &mut folder)?.as_slice())?,
        Err(_) => told.push(b'?')?,
    }
    Ok(())
}

// What the folders at these paths return, and then the moment.
fn given<H: Host>(alloc: Global, host: &mut H, paths: &str) -> Result<Vec<u8>, AllocError> {
    let mut told = Vec::new(alloc);
    for path in paths.split_whitespace() {
        folder_told(alloc, host, path, &mut told)?;
    }
    let moment = host.clock().now().min(9) as u8;
    told.push(b'0'.saturating_add(moment))?;
    Ok(told)
}

// The calls that fail, the paths, and what is returned.
const HOSTS: &str = "\
;/k;sa|sa|7
;/x /k /k;?sa|sa|?7
0;/k /k;?sa|sa|7
";

fn clock(alloc: Global) -> Result<ListedClock, Fail> {
    Ok(ListedClock::new(numbers(alloc, "7")?))
}

fn given_by_the_plan(alloc: Global, row: &str) -> Result<Vec<u8>, Fail> {
    let failing = numbers(alloc, cell(row, 0))?;
    let folder = folder_of(alloc, "a", "")?;
    let path = name_of(alloc, "/k")?;
    let mut host: MemoryHost<MemorySource, MemorySink> = MemoryHost::new(
        alloc,
        path,
        folder,
        clock(alloc)?,
        failing,
    );
    Ok(given(alloc, &mut host, cell(row, 1))?)
}

fn given_steadily(alloc: Global, paths: &str) -> Result<Vec<u8>, Fail> {
    let mut host: SteadyHost<MemorySource, MemorySink> = SteadyHost::new(
        alloc,
        files_of(alloc, "a")?,
        0,
        clock(alloc)?,
    );
    Ok(given(alloc, &mut host, paths)?)
}

#[test]
fn a_host_has_one_folder_and_a_clock(rt: HostRuntime) -> Result<(), Fail> {
    for row in HOSTS.lines() {
        let told = given_by_the_plan(rt.alloc(), row)?;
        same_bytes(&rt, told.as_slice(), cell(row, 2).as_bytes(), row);
    }
    let told = given_steadily(rt.alloc(), "/x /k")?;
    same_bytes(&rt, told.as_slice(), b"sa|sa|sa|sa|7", "a steady host");
    Ok(())
}

// Appends what a slot reads into a buffer of 4 bytes: the bytes, . for no file, + for a longer one.
fn read(slot: &mut SteadySlot, told: &mut Vec<u8>) -> Result<(), AllocError> {
    let mut buffer = [0; 4];
    match slot.read(&mut buffer) {
        Ok(Seen::Whole(count)) => told.extend_from_slice(&buffer[..count.min(4)])?,
        Ok(Seen::Longer) => told.push(b'+')?,
        _ => told.push(b'.')?,
    }
    Ok(())
}

// The room, the bytes that are put, and what is read before and after them, after the rename, and after
// the file is removed.
const ROOMS: &str = "\
0;xyz;a|a||.
2;xyz;a|a|xy|.
9;xyz;a|a|xyz|.
9;vwxyz;a|a|+|.
";

fn steady_slot(alloc: Global, room: usize) -> Result<SteadySlot, Fail> {
    Ok(SteadyFolder::new(alloc, files_of(alloc, "a")?, room).slot("a")?)
}

// Puts the bytes, and appends what is read before and after.
fn put(slot: &mut SteadySlot, bytes: &[u8], told: &mut Vec<u8>) -> Result<(), Fail> {
    read(slot, told)?;
    told.push(b'|')?;
    slot.put_temp(bytes)?;
    read(slot, told)?;
    Ok(())
}

// Renames, then removes, and appends what is read after each.
fn rename_and_remove(slot: &mut SteadySlot, told: &mut Vec<u8>) -> Result<(), Fail> {
    slot.rename()?;
    read(slot, told)?;
    told.push(b'|')?;
    slot.remove()?;
    read(slot, told)?;
    Ok(())
}

fn kept(alloc: Global, row: &str) -> Result<Vec<u8>, Fail> {
    let mut told = Vec::new(alloc);
    let mut slot = steady_slot(alloc, length(cell(row, 0))?)?;
    put(&mut slot, cell(row, 1).as_bytes(), &mut told)?;
    told.push(b'|')?;
    rename_and_remove(&mut slot, &mut told)?;
    Ok(told)
}

#[test]
fn a_steady_slot_keeps_what_it_has_room_for(rt: HostRuntime) -> Result<(), Fail> {
    for row in ROOMS.lines() {
        let found = kept(rt.alloc(), row)?;
        same_bytes(&rt, found.as_slice(), cell(row, 2).as_bytes(), row);
    }
    Ok(())
}
