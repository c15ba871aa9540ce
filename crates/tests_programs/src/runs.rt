// The top call over streams in memory: whole conversations, and each way in which a run ends early.

ghost use Rattle.std.specs.Prelude.{IfOk, IsFalse};

use crate::checks::{cell, ends, holds, numbers, same_bytes, same_number};
use crate::conversations::CONVERSATIONS;
use crate::parts::{bytes_of, change, spelled, text_of};
use daemon::Spawner;
use keyring_program::{Status, Unwatched, run};
use kr_base::Text;
use kr_memory::{ListedClock, MemorySink, MemorySource, SteadySink, SteadySource};
use kr_memory_disk::{Files, SteadyHost};
use kr_outside::{Folder, Host, Listener, Sink, Source};
use std::alloc::{AllocGlobal, Global};
use std::process::Abort;
use std::sync::Wait;
use std::test::Fail;
use std::thread::Threads;

// The arguments of a command line, each after a `/`.
pub fn words_of(alloc: Global, line: &str) -> Result<Vec<Text>, Fail> {
    let mut texts = Vec::new(alloc);
    for word in line.split('/').skip(1) {
        texts.push(text_of(alloc, word)?)?;
    }
    Ok(texts)
}

/// A host whose folders are empty.
pub fn empty_host(alloc: Global) -> SteadyHost<SteadySource, SteadySink> {
    let clock = ListedClock::new(Vec::new(alloc));
    SteadyHost::new(alloc, Files::new(alloc), 0, clock)
}

/// Runs a command line on a host, under the zero seed.
pub fn run_on<
    R: Abort + AllocGlobal + Threads + Wait + Copy + Send + Sync + Drop + 'static,
    I: Source,
    O: Sink,
    H: Host,
>(rt: &R, line: &str, input: &mut I, output: &mut O, host: &mut H) -> Result<Status, Fail>
where
    H::Dir: Send + 'static,
    H::Time: Send + 'static,
    <H::Dir as Folder>::Cell: Send + 'static,
    <H::Door as Listener>::In: Send + 'static,
    <H::Door as Listener>::Out: Send + 'static,
    requires input_open { IsFalse (I.is_closed input.old) }
    requires output_open { IsFalse (O.is_closed output.old) }
{
    let words = words_of(rt.alloc(), line)?;
    let mut spawner = Spawner::in_place(rt.alloc(), Vec::new(rt.alloc()));
    Ok(run(
        rt,
        words.as_slice(),
        input,
        output,
        host,
        &mut spawner,
        &mut Unwatched,
        [0; 32],
    ))
}

// Runs `stdio . 1000` on a host whose folders are empty.
fn stdio<
    R: Abort + AllocGlobal + Threads + Wait + Copy + Send + Sync + Drop + 'static,
    I: Source,
    O: Sink,
>(rt: &R, input: &mut I, output: &mut O) -> Result<Status, Fail>
    requires input_open { IsFalse (I.is_closed input.old) }
    requires output_open { IsFalse (O.is_closed output.old) }
{
    let mut host = empty_host(rt.alloc());
    run_on(rt, "/stdio/./1000", input, output, &mut host)
}

/// A source of this input in pieces of these lengths; these reads fail, counted from 0.
pub fn source_of(
    alloc: Global,
    input: &[u8],
    pieces: &[usize],
    failing: Vec<u64>,
) -> Result<MemorySource, Fail>
    ensures { IfOk result (λ source. IsFalse source.is_closed) }
{
    let input = input.to_vec(alloc)?;
    let pieces = pieces.to_vec(alloc)?;
    Ok(MemorySource::new(input, pieces, failing))
}

/// A sink; these writes fail, counted from 0.
pub fn sink_of(alloc: Global, failing: Vec<u64>) -> MemorySink
    ensures { IsFalse result.is_closed }
{
    MemorySink::new(alloc, Vec::new(alloc), failing)
}

// Asserts how the run over this source ends, and what it writes to the sink.
fn plays<R: Abort + AllocGlobal + Threads + Wait + Copy + Send + Sync + Drop + 'static>(
    rt: &R,
    name: &str,
    source: &mut MemorySource,
    sink: &mut MemorySink,
    told: &str,
    wanted: &[u8],
) -> Result<(), Fail>
    requires input_open { IsFalse source.old.is_closed }
    requires output_open { IsFalse sink.old.is_closed }
{
    let status = stdio(rt, source, sink)?;
    ends(rt, status, told, name)?;
    same_bytes(rt, sink.bytes(), wanted, name);
    Ok(())
}

// Asserts how the run over this input, in these pieces, ends, and what it writes.
fn answers<R: Abort + AllocGlobal + Threads + Wait + Copy + Send + Sync + Drop + 'static>(
    rt: &R,
    name: &str,
    input: &[u8],
    pieces: &[usize],
    told: &str,
    wanted: &[u8],
) -> Result<(), Fail> {
    let mut source = source_of(rt.alloc(), input, pieces, Vec::new(rt.alloc()))?;
    let mut sink = sink_of(rt.alloc(), Vec::new(rt.alloc()));
    plays(rt, name, &mut source, &mut sink, told, wanted)
}

// Asserts the same for the input in one piece and byte by byte.
fn answers_both<R: Abort + AllocGlobal + Threads + Wait + Copy + Send + Sync + Drop + 'static>(
    rt: &R,
    name: &str,
    input: &[u8],
    told: &str,
    wanted: &[u8],
) -> Result<(), Fail> {
    let ones = vec![in rt.alloc(); 1; input.len()]?;
    answers(rt, name, input, &[], told, wanted)?;
    answers(rt, name, input, ones.as_slice(), told, wanted)
}

fn is_answered<R: Abort + AllocGlobal + Threads + Wait + Copy + Send + Sync + Drop + 'static>(
    rt: &R,
    row: &str,
) -> Result<(), Fail> {
    let input = bytes_of(rt.alloc(), cell(row, 1))?;
    let wanted = bytes_of(rt.alloc(), cell(row, 3))?;
    let told = cell(row, 2);
    answers_both(rt, row, input.as_slice(), told, wanted.as_slice())
}

#[test]
fn each_conversation_is_answered_however_it_is_cut(rt: HostRuntime) -> Result<(), Fail> {
    for row in CONVERSATIONS.lines() {
        is_answered(&rt, row)?;
    }
    Ok(())
}

#[test]
fn a_call_cut_after_every_byte_is_answered_once(rt: HostRuntime) -> Result<(), Fail> {
    let input = bytes_of(rt.alloc(), "HELLO PLAIN")?;
    let wanted = bytes_of(rt.alloc(), "OK SESSION")?;
    let (input, wanted) = (input.as_slice(), wanted.as_slice());
    for place in 0..input.len() {
        answers(&rt, "a call", input, &[place], "done", wanted)?;
    }
    Ok(())
}

// Asserts how the run over the input without this many last bytes ends.
fn ends_inside<R: Abort + AllocGlobal + Threads + Wait + Copy + Send + Sync + Drop + 'static>(
    rt: &R,
    input: &[u8],
    less: usize,
    wanted: &[u8],
) -> Result<(), Fail> {
    let (front, _) = input.split_at(input.len().saturating_sub(less));
    let told = "bad message: EndInside";
    answers(rt, "a part of a call", front, &[], told, wanted)
}

#[test]
fn a_call_that_ends_early_is_told(rt: HostRuntime) -> Result<(), Fail> {
    let input = bytes_of(rt.alloc(), "HELLO PLAIN")?;
    let wanted = bytes_of(rt.alloc(), "OK")?;
    for less in 1..149 {
        ends_inside(&rt, input.as_slice(), less, wanted.as_slice())?;
    }
    Ok(())
}

// A call of Ping with a body of type `ay` that fills it up to a mebibyte, and this many bytes more.
fn long_call(alloc: Global, more: u8) -> Result<Vec<u8>, Fail> {
    let mut call = spelled(alloc, LONG_CALL)?;
    call.resize(1_048_576usize.saturating_add(more as usize), 0)?;
    change(&mut call, 4, &[0xc8u8.saturating_add(more)]);
    change(&mut call, 56, &[0xc4u8.saturating_add(more)]);
    Ok(call)
}

// The start of such a call, up to the bytes of its array.
const LONG_CALL: &str = "\
[6c010001c8ff0f00020000002800000001016f00010000002f00000000000000030173000400000050696e670000000008\
01670002617900c4ff0f00]";

// The handshake, and the first `count` bytes of a call that is `more` bytes longer than a mebibyte.
fn long_input(alloc: Global, more: u8, count: usize) -> Result<Vec<u8>, Fail> {
    let mut input = bytes_of(alloc, "HELLO")?;
    let mut call = long_call(alloc, more)?;
    call.truncate(count);
    input.extend_from_slice(call.as_slice())?;
    Ok(input)
}

fn long_is_told<R: Abort + AllocGlobal + Threads + Wait + Copy + Send + Sync + Drop + 'static>(
    rt: &R,
    name: &str,
    input: &[u8],
    told: &str,
    output: &str,
) -> Result<(), Fail> {
    let wanted = bytes_of(rt.alloc(), output)?;
    answers(rt, name, input, &[], told, wanted.as_slice())
}

#[test]
fn a_mebibyte_is_a_call_and_one_byte_more_is_too_large(rt: HostRuntime) -> Result<(), Fail> {
    let whole = long_input(rt.alloc(), 0, 1_048_576)?;
    let output = "OK NOARGUMENTS@8:01@68:02";
    long_is_told(&rt, "a mebibyte", whole.as_slice(), "done", output)?;
    let front = long_input(rt.alloc(), 1, 16)?;
    let told = "bad message: TooLarge";
    long_is_told(&rt, "a byte more", front.as_slice(), told, "OK")
}

// Appends a call of OpenSession with this serial.
fn put_call(alloc: Global, input: &mut Vec<u8>, serial: u8) -> Result<(), Fail> {
    let mut call = bytes_of(alloc, "PLAIN")?;
    change(&mut call, 8, &[serial]);
    Ok(input.extend_from_slice(call.as_slice())?)
}

// 65 calls of OpenSession; then the first session is closed and another one opened.
fn many_calls(alloc: Global) -> Result<Vec<u8>, Fail> {
    let mut input = bytes_of(alloc, "HELLO")?;
    for serial in 1..66u8 {
        put_call(alloc, &mut input, serial)?;
    }
    let rest = bytes_of(alloc, "CLOSE@8:42 PLAIN@8:43")?;
    input.extend_from_slice(rest.as_slice())?;
    Ok(input)
}

// What the run of those calls writes.
fn many_answers<R: Abort + AllocGlobal + Threads + Wait + Copy + Send + Sync + Drop + 'static>(
    rt: &R,
) -> Result<Vec<u8>, Fail> {
    let input = many_calls(rt.alloc())?;
    let mut source = source_of(rt.alloc(), input.as_slice(), &[], Vec::new(rt.alloc()))?;
    let mut sink = sink_of(rt.alloc(), Vec::new(rt.alloc()));
    let status = stdio(rt, &mut source, &mut sink)?;
    ends(rt, status, "done", "65 sessions")?;
    Ok(sink.bytes().to_vec(rt.alloc())?)
}

#[test]
fn a_65th_session_is_one_too_many(rt: HostRuntime) -> Result<(), Fail> {
    let written = many_answers(&rt)?;
    let wanted = bytes_of(rt.alloc(), "FULL PONG@8:42@20:42 SESSION65")?;
    let ends_so = written.as_slice().ends_with(wanted.as_slice());
    holds(&rt, ends_so, "the end of what is written");
    // The line OK, 9 sessions with one digit and 55 with two, and the last three answers.
    let length = (37usize + 9 * 84 + 55 * 85).saturating_add(wanted.len());
    same_number(&rt, written.len(), length, "the length of what is written");
    Ok(())
}

// The reads and the writes that fail, counted from 0, how the run ends, and what is written.
const FAULTS: &str = "\
0||input failed|
1||input failed|OK
3||input failed|OK
4||input failed|OK SESSION
|0|output failed|
|1|output failed|OK
";

// Asserts how the run of a row ends. Its input comes in pieces of 60 bytes.
fn fails<R: Abort + AllocGlobal + Threads + Wait + Copy + Send + Sync + Drop + 'static>(
    rt: &R,
    row: &str,
) -> Result<(), Fail> {
    let input = bytes_of(rt.alloc(), "HELLO PLAIN")?;
    let reads = numbers(rt.alloc(), cell(row, 0))?;
    let writes = numbers(rt.alloc(), cell(row, 1))?;
    let wanted = bytes_of(rt.alloc(), cell(row, 3))?;
    let mut source = source_of(rt.alloc(), input.as_slice(), &[60; 4], reads)?;
    let mut sink = sink_of(rt.alloc(), writes);
    plays(
        rt,
        row,
        &mut source,
        &mut sink,
        cell(row, 2),
        wanted.as_slice(),
    )
}

#[test]
fn a_stream_that_fails_ends_the_run(rt: HostRuntime) -> Result<(), Fail> {
    for row in FAULTS.lines() {
        fails(&rt, row)?;
    }
    Ok(())
}

/// A source that never fails, of what these words spell.
pub fn steady_source(alloc: Global, words: &str) -> Result<SteadySource, Fail>
    ensures { IfOk result (λ source. IsFalse source.is_closed) }
{
    Ok(SteadySource::new(bytes_of(alloc, words)?, Vec::new(alloc)))
}

#[test]
fn steady_streams_see_the_run_to_its_end(rt: HostRuntime) -> Result<(), Fail> {
    let mut source = steady_source(rt.alloc(), "HELLO PLAIN")?;
    let mut sink = SteadySink::new(rt.alloc(), 1024, Vec::new(rt.alloc()))?;
    let status = stdio(&rt, &mut source, &mut sink)?;
    ends(&rt, status, "done", "steady streams")?;
    let wanted = bytes_of(rt.alloc(), "OK SESSION")?;
    same_bytes(&rt, sink.bytes(), wanted.as_slice(), "steady streams");
    Ok(())
}
