ghost use Rattle.std.specs.Prelude.{IsFalse};

use crate::checks::{cell, length, numbers, same_bytes, same_text};
use kr_memory::{ListedClock, MemorySink, MemorySource, SteadySink, SteadySource};
use kr_outside::{Clock, Sink, Source};
use std::alloc::Global;
use std::process::Abort;
use std::test::Fail;

// The lengths of a cell.
fn lengths(alloc: Global, cell: &str) -> Result<Vec<usize>, Fail> {
    let mut lengths = Vec::new(alloc);
    for word in cell.split_whitespace() {
        lengths.push(length(word)?)?;
    }
    Ok(lengths)
}

// Appends what a read into a buffer of this length, at most 8, returns: bytes and a bar, or !
// for a failure.
fn read_once<S: Source>(source: &mut S, length: usize, given: &mut Vec<u8>) -> Result<(), Fail>
    requires is_open { IsFalse (S.is_closed source.old) }
    ensures is_open { IsFalse (S.is_closed source.new) }
{
    let mut buffer = [b'.'; 8];
    match source.read(&mut buffer[..length.min(8)]) {
        Ok(count) => {
            given.extend_from_slice(&buffer[..count])?;
            given.push(b'|')?;
        }
        Err(_) => given.push(b'!')?,
    }
    Ok(())
}

// What reads into buffers of these lengths return.
fn given<S: Source>(alloc: Global, source: &mut S, buffers: &str) -> Result<Vec<u8>, Fail>
    requires is_open { IsFalse (S.is_closed source.old) }
{
    let mut given = Vec::new(alloc);
    for word in buffers.split_whitespace() {
        read_once(source, length(word)?, &mut given)?;
    }
    Ok(given)
}

// The lengths of the pieces of a source of the bytes `abcdef`, the calls that fail, the lengths of the
// buffers, and what is read. A call that fails uses up its length, and so does a read without room.
const READS: &str = "\
;;4 4 4;abcd|ef||
1 0 9;;4 4 3 4;a|b|cde|f|
1 2 3;1 3;4 4 4 4 4;a|!bcd|!ef|
1;;0 8 8;|abcdef||
;0;8 8;!abcdef|
";

fn letters(alloc: Global) -> Result<Vec<u8>, Fail> {
    Ok(b"abcdef".as_slice().to_vec(alloc)?)
}

fn given_by_the_plan(alloc: Global, row: &str) -> Result<Vec<u8>, Fail> {
    let pieces = lengths(alloc, cell(row, 0))?;
    let failing = numbers(alloc, cell(row, 1))?;
    let mut source = MemorySource::new(letters(alloc)?, pieces, failing);
    given(alloc, &mut source, cell(row, 2))
}

fn given_steadily(alloc: Global, row: &str) -> Result<Vec<u8>, Fail> {
    let pieces = lengths(alloc, cell(row, 0))?;
    let mut source = SteadySource::new(letters(alloc)?, pieces);
    given(alloc, &mut source, cell(row, 2))
}

fn reads_are_planned(rt: &impl Abort, alloc: Global, row: &str) -> Result<(), Fail> {
    let found = given_by_the_plan(alloc, row)?;
    same_bytes(rt, found.as_slice(), cell(row, 3).as_bytes(), row);
    if cell(row, 1).is_empty() {
        let found = given_steadily(alloc, row)?;
        same_bytes(rt, found.as_slice(), cell(row, 3).as_bytes(), row);
    }
    Ok(())
}

#[test]
fn reads_follow_the_plan(rt: HostRuntime) -> Result<(), Fail> {
    for row in READS.lines() {
        reads_are_planned(&rt, rt.alloc(), row)?;
    }
    Ok(())
}

// How many bytes of a word a write takes, as a digit, or ! for a failure; - means no bytes.
fn taken_of<S: Sink>(sink: &mut S, word: &str) -> u8
    requires is_open { IsFalse (S.is_closed sink.old) }
    ensures is_open { IsFalse (S.is_closed sink.new) }
{
    let bytes = if word == "-" { "" } else { word };
    match sink.write(bytes.as_bytes()) {
        Ok(count) => b'0'.saturating_add(count.min(9) as u8),
        Err(_) => b'!',
    }
}

// What writes of these words take, then a bar.
fn taken<S: Sink>(alloc: Global, sink: &mut S, words: &str) -> Result<Vec<u8>, Fail>
    requires is_open { IsFalse (S.is_closed sink.old) }
{
    let mut taken = Vec::new(alloc);
    for word in words.split_whitespace() {
        taken.push(taken_of(sink, word))?;
    }
    taken.push(b'|')?;
    Ok(taken)
}

// The lengths of the pieces of a sink, the calls that fail, the words that are written, and what is
// taken and kept. A call that fails uses up its length too.
const WRITES: &str = "\
;;ab - cd;202|abcd
1 0 9;;abc bc cd;112|abcd
1 2 3;1 3;ab b bcde x;1!3!|abcd
;0;x abcd;!4|abcd
";

fn taken_by_the_plan(alloc: Global, row: &str) -> Result<Vec<u8>, Fail> {
    let pieces = lengths(alloc, cell(row, 0))?;
    let failing = numbers(alloc, cell(row, 1))?;
    let mut sink = MemorySink::new(alloc, pieces, failing);
    let mut found = taken(alloc, &mut sink, cell(row, 2))?;
    found.extend_from_slice(sink.bytes())?;
    Ok(found)
}

fn taken_steadily(alloc: Global, room: usize, pieces: &str, words: &str) -> Result<Vec<u8>, Fail> {
    let mut sink = SteadySink::new(alloc, room, lengths(alloc, pieces)?)?;
    let mut found = taken(alloc, &mut sink, words)?;
    found.extend_from_slice(sink.bytes())?;
    Ok(found)
}

fn writes_are_planned(rt: &impl Abort, alloc: Global, row: &str) -> Result<(), Fail> {
    let found = taken_by_the_plan(alloc, row)?;
    same_bytes(rt, found.as_slice(), cell(row, 3).as_bytes(), row);
    if cell(row, 1).is_empty() {
        let found = taken_steadily(alloc, 4, cell(row, 0), cell(row, 2))?;
        same_bytes(rt, found.as_slice(), cell(row, 3).as_bytes(), row);
    }
    Ok(())
}

#[test]
fn writes_follow_the_plan(rt: HostRuntime) -> Result<(), Fail> {
    for row in WRITES.lines() {
        writes_are_planned(&rt, rt.alloc(), row)?;
    }
    Ok(())
}

// The room, and how much of 6 bytes is taken and kept.
const ROOMS: &str = "\
9;222|abcdef
3;222|abc
2;222|ab
0;222|
";

#[test]
fn a_steady_sink_drops_what_exceeds_its_room(rt: HostRuntime) -> Result<(), Fail> {
    for row in ROOMS.lines() {
        let found = taken_steadily(rt.alloc(), length(cell(row, 0))?, "", "ab cd ef")?;
        same_bytes(&rt, found.as_slice(), cell(row, 1).as_bytes(), row);
    }
    Ok(())
}

// The moments that are listed, and those that the clock returns.
const MOMENTS: &str = "\
;0 0 0 0
7;7 7 7 7
7 5;7 5 5 5
7 5 9 1 2;7 5 9 1
";

fn moments(alloc: Global, listed: &str) -> Result<String, Fail> {
    let mut clock = ListedClock::new(numbers(alloc, listed)?);
    let (first, second, third, fourth) = (clock.now(), clock.now(), clock.now(), clock.now());
    Ok(format!(in alloc; "{first} {second} {third} {fourth}")?)
}

#[test]
fn a_clock_repeats_its_last_moment(rt: HostRuntime) -> Result<(), Fail> {
    for row in MOMENTS.lines() {
        let found = moments(rt.alloc(), cell(row, 0))?;
        same_text(&rt, found.as_str(), cell(row, 1), row);
    }
    Ok(())
}
