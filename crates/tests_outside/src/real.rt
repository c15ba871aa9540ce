ghost use Rattle.std.specs.Prelude.{IsFalse};

use crate::checks::{cell, holds, same_bytes, same_number, same_text};
use kr_outside::{Clock, Folder, Host, OutsideRefused, Seen, Sink, Slot, Source};
use real_edges::{ReaderSource, RealFolder, RealHost, RealSlot, WriterSink};
use std::alloc::Global;
use std::fs::{self, Permissions};
use std::os::unix::fs::PermissionsExt;
use std::test::Fail;

// What a slot reads into a buffer of 4 bytes: the bytes, . for no file, + for a longer one, ! for a
// failure.
fn read<S: Slot>(alloc: Global, slot: &mut S) -> Result<Vec<u8>, Fail> {
    let mut buffer = [0; 4];
    let seen = slot.read(&mut buffer);
    Ok(match seen {
        Ok(Seen::Whole(count)) => buffer[..count.min(4)].to_vec(alloc)?,
        Ok(Seen::Missing) => b".".as_slice().to_vec(alloc)?,
        Ok(Seen::Longer) => b"+".as_slice().to_vec(alloc)?,
        Err(_) => b"!".as_slice().to_vec(alloc)?,
    })
}

// The size of a slot's file in words: None if there is none.
fn size_told<S: Slot>(alloc: Global, slot: &mut S) -> Result<String, Fail> {
    match slot.size()? {
        Some(size) => Ok(format!(in alloc; "{size}")?),
        None => Ok(String::from_str(alloc, "None")?),
    }
}

// The names in a folder, each followed by a space.
fn names_told<F: Folder>(alloc: Global, folder: &mut F) -> Result<String, Fail> {
    let names = folder.names().ok().ok_or("names")?;
    let mut told = String::new(alloc);
    for name in &names {
        told.push_str(name.as_str())?;
        told.push(' ')?;
    }
    Ok(told)
}

fn put<S: Slot>(slot: &mut S, bytes: &[u8]) -> Result<(), Fail> {
    slot.put_temp(bytes)?;
    slot.sync_temp()?;
    slot.rename()?;
    Ok(slot.sync_folder()?)
}

fn mode_told(rt: &HostRuntime, path: &str) -> Result<String, Fail> {
    let mode = fs::metadata(rt, path)?.permissions().mode() % 0o1000;
    Ok(format!(in rt.alloc(); "{mode:o}")?)
}

// The folder at this path.
fn folder_at(rt: HostRuntime, path: &str) -> Result<RealFolder<HostRuntime>, Fail> {
    Ok(RealHost::new(rt).folder(path).ok().ok_or("a folder")?)
}

// Replaces the file of a slot despite a temporary file that was left over, and returns its
// size and mode.
fn replaced(
    rt: &HostRuntime,
    slot: &mut RealSlot<HostRuntime>,
    bytes: &[u8],
) -> Result<String, Fail> {
    fs::write(rt, "ring/a.tmp", b"left over from before")?;
    put(slot, bytes)?;
    let size = size_told(rt.alloc(), slot)?;
    let mode = mode_told(rt, "ring/a")?;
    Ok(format!(in rt.alloc(); "{size} {mode}")?)
}

fn removed(alloc: Global, slot: &mut RealSlot<HostRuntime>) -> Result<Vec<u8>, Fail> {
    slot.remove()?;
    slot.sync_folder()?;
    read(alloc, slot)
}

// What is put, what is then read, and the file's size and mode.
const CASES: &str = "\
one;one;3 600
;;0 600
four;four;4 600
fives;+;5 600
";

#[test]
fn a_file_in_a_real_folder_is_replaced_whole(rt: HostRuntime) -> Result<(), Fail> {
    fs::create_dir(&rt, "ring")?;
    let mut folder = folder_at(rt, "ring")?;
    let mut slot = folder.slot("a")?;
    same_bytes(
        &rt,
        read(rt.alloc(), &mut slot)?.as_slice(),
        b".",
        "no file yet",
    );
    for row in CASES.lines() {
        let told = replaced(&rt, &mut slot, cell(row, 0).as_bytes())?;
        same_text(&rt, told.as_str(), cell(row, 2), row);
        let seen = read(rt.alloc(), &mut slot)?;
        same_bytes(&rt, seen.as_slice(), cell(row, 1).as_bytes(), row);
    }
    folder.sync()?;
    same_text(
        &rt,
        names_told(rt.alloc(), &mut folder)?.as_str(),
        "a ",
        "the names",
    );
    same_bytes(
        &rt,
        removed(rt.alloc(), &mut slot)?.as_slice(),
        b".",
        "removed",
    );
    same_number(&rt, slot.faults(), 0, "the slot's faults");
    same_number(&rt, folder.faults(), 0, "the folder's faults");
    Ok(())
}

// What a folder and its slot `x.keyring` return: the names, the size, and the bytes.
fn nested(
    alloc: Global,
    folder: &mut RealFolder<HostRuntime>,
    slot: &mut RealSlot<HostRuntime>,
) -> Result<String, Fail> {
    let names = names_told(alloc, folder)?;
    let size = size_told(alloc, slot)?;
    Ok(format!(in alloc; "{names}{size}")?)
}

// A folder that has the name of a file is among the names, but isn't a file.
#[test]
fn a_folder_in_a_folder_takes_its_name(rt: HostRuntime) -> Result<(), Fail> {
    fs::create_dir(&rt, "nest")?;
    fs::create_dir(&rt, "nest/x.keyring")?;
    let mut folder = folder_at(rt, "nest")?;
    let mut slot = folder.slot("x.keyring")?;
    let told = nested(rt.alloc(), &mut folder, &mut slot)?;
    same_text(
        &rt,
        told.as_str(),
        "x.keyring None",
        "the name and the size",
    );
    same_bytes(
        &rt,
        read(rt.alloc(), &mut slot)?.as_slice(),
        b".",
        "its bytes",
    );
    same_number(&rt, slot.faults(), 0, "the slot's faults");
    same_number(&rt, folder.faults(), 0, "the folder's faults");
    Ok(())
}

fn is_refused_twice(slot: &mut RealSlot<HostRuntime>) -> bool {
    slot.put_temp(b"two").is_err() && slot.sync_temp().is_err()
}

// A file that an earlier call put isn't synced in place of one that couldn't be put.
#[test]
fn after_a_failed_put_nothing_can_be_synced(rt: HostRuntime) -> Result<(), Fail> {
    fs::create_dir(&rt, "torn")?;
    let mut folder = folder_at(rt, "torn")?;
    let mut slot = folder.slot("a")?;
    slot.put_temp(b"one")?;
    fs::remove_file(&rt, "torn/a.tmp")?;
    fs::remove_dir(&rt, "torn")?;
    holds(&rt, is_refused_twice(&mut slot), "both calls fail");
    same_number(&rt, slot.faults(), 2, "the slot's faults");
    Ok(())
}

// Makes a file, and a folder that its user may not open. Returns whether the folder can't be
// opened, since root can open it all the same.
fn is_closed(rt: &HostRuntime) -> Result<bool, Fail> {
    fs::write(rt, "file", b"no folder")?;
    fs::create_dir(rt, "closed")?;
    fs::set_permissions(rt, "closed", Permissions::from_mode(0))?;
    Ok(fs::read_dir(rt, "closed").is_err())
}

// Whether the folder at this path is refused, and counted as a fault, if and only if it should be.
fn answers(host: &mut RealHost<HostRuntime>, path: &str, is_refused: bool) -> bool {
    let before = host.faults();
    let refused = matches!(host.folder(path), Err(OutsideRefused::Failed));
    let is_counted = host.faults() > before;
    refused == is_refused && is_counted == is_refused
}

#[test]
fn a_folder_that_cannot_be_opened_is_a_fault(rt: HostRuntime) -> Result<(), Fail> {
    let is_closed = is_closed(&rt)?;
    let mut host = RealHost::new(rt);
    holds(&rt, answers(&mut host, "missing", true), "missing");
    holds(&rt, answers(&mut host, "file", true), "file");
    holds(&rt, answers(&mut host, "closed", is_closed), "closed");
    Ok(())
}

fn folder_refuses(folder: &mut RealFolder<HostRuntime>) -> bool {
    folder.sync().is_err() && folder.names().is_err()
}

fn slot_refuses(slot: &mut RealSlot<HostRuntime>) -> bool {
    let is_put_refused = slot.put_temp(b"one").is_err() && slot.sync_temp().is_err();
    let is_rename_refused = slot.rename().is_err() && slot.sync_folder().is_err();
    is_put_refused && is_rename_refused && slot.remove().is_err()
}

#[test]
fn a_folder_that_went_away_is_a_fault(rt: HostRuntime) -> Result<(), Fail> {
    fs::create_dir(&rt, "gone")?;
    let mut folder = folder_at(rt, "gone")?;
    let mut slot = folder.slot("a")?;
    fs::remove_dir(&rt, "gone")?;
    holds(&rt, folder_refuses(&mut folder), "the folder's calls fail");
    holds(&rt, slot_refuses(&mut slot), "the slot's calls fail");
    same_number(&rt, folder.faults(), 2, "the folder's faults");
    same_number(&rt, slot.faults(), 5, "the slot's faults");
    Ok(())
}

// The bytes that a read returns, or ! for a failure.
fn source_told<S: Source>(source: &mut S, told: &mut Vec<u8>) -> Result<(), Fail>
    requires is_open { IsFalse (S.is_closed source.old) }
    ensures is_open { IsFalse (S.is_closed source.new) }
{
    let mut buffer = [0; 8];
    match source.read(&mut buffer) {
        Ok(count) => told.extend_from_slice(&buffer[..count])?,
        Err(_) => told.push(b'!')?,
    }
    Ok(())
}

// How many of the bytes a write takes, as a digit, or ! for a failure.
fn taken<S: Sink>(sink: &mut S, bytes: &[u8]) -> u8
    requires is_open { IsFalse (S.is_closed sink.old) }
{
    match sink.write(bytes) {
        Ok(count) => b'0'.saturating_add(count.min(9) as u8),
        Err(_) => b'!',
    }
}

// What a read returns, what a write takes, and what another read returns.
fn streams_told<I: Source, O: Sink>(
    alloc: Global,
    input: &mut I,
    output: &mut O,
) -> Result<Vec<u8>, Fail>
    requires input { IsFalse (I.is_closed input.old) }
    requires output { IsFalse (O.is_closed output.old) }
{
    let mut told = Vec::new(alloc);
    source_told(input, &mut told)?;
    told.push(taken(output, b"bytes"))?;
    source_told(input, &mut told)?;
    Ok(told)
}

fn digit(number: u64) -> u8 {
    b'0'.saturating_add(number.min(9) as u8)
}

// The same for two files that are created, one of which can't be read, and the faults.
fn created_told(rt: &HostRuntime) -> Result<Vec<u8>, Fail> {
    let mut output = WriterSink::new(fs::create(rt, "stream")?);
    let mut wrong = ReaderSource::new(fs::create(rt, "other")?);
    let mut told = streams_told(rt.alloc(), &mut wrong, &mut output)?;
    told.push(digit(wrong.faults()))?;
    told.push(digit(output.faults()))?;
    Ok(told)
}

// The same for a file that is opened twice, and can't be written.
fn opened_told(rt: &HostRuntime) -> Result<Vec<u8>, Fail> {
    let mut input = ReaderSource::new(fs::open(rt, "stream")?);
    let mut wrong = WriterSink::new(fs::open(rt, "stream")?);
    let mut told = streams_told(rt.alloc(), &mut input, &mut wrong)?;
    told.push(digit(input.faults()))?;
    told.push(digit(wrong.faults()))?;
    Ok(told)
}

#[test]
fn streams_give_and_take_bytes_and_count_errors(rt: HostRuntime) -> Result<(), Fail> {
    same_bytes(
        &rt,
        created_told(&rt)?.as_slice(),
        b"!5!20",
        "files that are created",
    );
    same_bytes(
        &rt,
        opened_told(&rt)?.as_slice(),
        b"bytes!01",
        "files that are opened",
    );
    // The standard streams are streams like these.
    holds(
        &rt,
        taken(&mut WriterSink::new(rt.stdout()), b"\n") == b'1',
        "the output",
    );
    holds(
        &rt,
        ReaderSource::new(rt.stdin()).read(&mut []).is_ok(),
        "the input",
    );
    Ok(())
}

#[test]
fn the_clock_gives_the_time(rt: HostRuntime) -> Result<(), Fail> {
    let mut clock = RealHost::new(rt).clock();
    // 2020-01-01 00:00:00 UTC.
    holds(&rt, clock.now() > 1_577_836_800, "the time");
    same_number(&rt, clock.faults(), 0, "faults");
    Ok(())
}
