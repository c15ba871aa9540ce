// Listeners in memory, streams that wait for one another, and streams that are closed.
ghost use Rattle.std.specs.Prelude.{IsFalse, IfOk};
ghost use Rattle.kr_outside.specs.Listener.{IsNewEnd};

use crate::checks::{cell, numbers, same_bytes};
use kr_memory::{
    FlagSink, GatedSource, ListedLinks, MemorySink, MemorySource, SteadyLinks, SteadySink,
    SteadySource,
};
use kr_outside::{Link, Listener, Sink, Source};
use std::alloc::Global;
use std::sync::Arc;
use std::sync::atomic::AtomicBool;
use std::test::Fail;

// What a read of one byte returns: the byte, . for the end, ! for a failure.
fn byte_of<S: Source>(source: &mut S) -> u8
    requires is_open { IsFalse (S.is_closed source.old) }
    ensures is_open { IsFalse (S.is_closed source.new) }
{
    let mut buffer = [0; 1];
    match source.read(&mut buffer) {
        Ok(0) => b'.',
        Ok(_) => buffer[0],
        Err(_) => b'!',
    }
}

// What an accept returns: the first byte of the link's input, . for None, ! for a failure.
fn link_of<L: Listener>(listener: &mut L) -> u8 {
    match listener.accept() {
        Ok(Some(link)) => {
            let Link {
                mut input,
                output: _,
            } = link;
            byte_of(&mut input)
        }
        Ok(None) => b'.',
        Err(_) => b'!',
    }
}

// What five accepts return.
fn links_of<L: Listener>(alloc: Global, listener: &mut L) -> Result<Vec<u8>, Fail> {
    let mut told = Vec::new(alloc);
    for _ in 0..5 {
        told.push(link_of(listener))?;
    }
    Ok(told)
}

fn input_of(alloc: Global, bytes: &[u8]) -> Result<MemorySource, Fail>
    ensures { IfOk result (λ source. IsNewEnd source.is_closed source.plan.faults) }
{
    Ok(MemorySource::new(bytes.to_vec(alloc)?, Vec::new(alloc), Vec::new(alloc)))
}

fn output_of(alloc: Global) -> MemorySink
    ensures { IsNewEnd result.is_closed result.plan.faults }
{
    MemorySink::new(alloc, Vec::new(alloc), Vec::new(alloc))
}

// The calls that fail, and what five accepts of a listener of the links `a` and `b` return.
const LISTENERS: &str = "\
;ab...
1;a!b..
0 3;!ab!.
2 9;ab!..
";

fn given_by_the_plan(alloc: Global, failing: &str) -> Result<Vec<u8>, Fail> {
    let mut listener = ListedLinks::new(alloc, Vec::new(alloc), numbers(alloc, failing)?);
    listener.push(input_of(alloc, b"a")?, output_of(alloc))?;
    listener.push(input_of(alloc, b"b")?, output_of(alloc))?;
    links_of(alloc, &mut listener)
}

fn given_steadily(alloc: Global) -> Result<Vec<u8>, Fail> {
    let mut listener = SteadyLinks::new(alloc, Vec::new(alloc));
    listener.push(input_of(alloc, b"a")?, output_of(alloc))?;
    listener.push(input_of(alloc, b"b")?, output_of(alloc))?;
    links_of(alloc, &mut listener)
}

#[test]
fn a_listener_that_fails_loses_no_link(rt: HostRuntime) -> Result<(), Fail> {
    for row in LISTENERS.lines() {
        let found = given_by_the_plan(rt.alloc(), cell(row, 0))?;
        same_bytes(&rt, found.as_slice(), cell(row, 1).as_bytes(), row);
    }
    let found = given_steadily(rt.alloc())?;
    same_bytes(&rt, found.as_slice(), b"ab...", "a steady listener");
    Ok(())
}

// What is read of a source whose gate a sink of three bytes opens, and what that sink took.
fn read_after_three_bytes(alloc: Global) -> Result<Vec<u8>, Fail> {
    let flag = Arc::new(alloc, AtomicBool::new(false))?;
    let mut source = GatedSource::new(input_of(alloc, b"a")?, Arc::try_clone(&flag)?);
    let mut sink = FlagSink::new(output_of(alloc), flag, 3);
    let _ = sink.write(b"xy");
    let _ = sink.write(b"z");
    let mut told = Vec::new(alloc);
    told.push(byte_of(&mut source))?;
    told.push(byte_of(&mut source))?;
    told.extend_from_slice(sink.sink().bytes())?;
    Ok(told)
}

// What is read of a source whose gate is opened too late: a sink has taken one byte too few when
// it is read first.
fn read_after_two_bytes(alloc: Global) -> Result<Vec<u8>, Fail> {
    let flag = Arc::new(alloc, AtomicBool::new(false))?;
    let mut source = GatedSource::with_turns(input_of(alloc, b"a")?, Arc::try_clone(&flag)?, 2);
    let mut sink = FlagSink::new(output_of(alloc), flag, 3);
    let _ = sink.write(b"xy");
    let mut told = Vec::new(alloc);
    told.push(byte_of(&mut source))?;
    let _ = sink.write(b"z");
    told.push(byte_of(&mut source))?;
    Ok(told)
}

#[test]
fn a_gate_opens_with_the_last_byte_that_it_waits_for(rt: HostRuntime) -> Result<(), Fail> {
    let found = read_after_three_bytes(rt.alloc())?;
    same_bytes(&rt, found.as_slice(), b"a.xyz", "a gate that opens");
    let found = read_after_two_bytes(rt.alloc())?;
    same_bytes(&rt, found.as_slice(), b"..", "a gate that opens too late");
    Ok(())
}

// What two sinks that were closed have kept.
fn kept_when_closed(alloc: Global) -> Result<Vec<u8>, Fail> {
    let mut sink = output_of(alloc);
    let _ = sink.write(b"ab");
    sink.close();
    let mut steady = SteadySink::new(alloc, 8, Vec::new(alloc))?;
    let _ = steady.write(b"cd");
    steady.close();
    let mut told = sink.bytes().to_vec(alloc)?;
    told.extend_from_slice(steady.bytes())?;
    Ok(told)
}

// What is read of two sources before they are closed.
fn read_then_closed(alloc: Global) -> Result<Vec<u8>, Fail> {
    let mut source = input_of(alloc, b"a")?;
    let mut steady = SteadySource::new(b"b".as_slice().to_vec(alloc)?, Vec::new(alloc));
    let mut told = Vec::new(alloc);
    told.push(byte_of(&mut source))?;
    told.push(byte_of(&mut steady))?;
    source.close();
    steady.close();
    Ok(told)
}

#[test]
fn a_closed_stream_keeps_what_it_took(rt: HostRuntime) -> Result<(), Fail> {
    let found = kept_when_closed(rt.alloc())?;
    same_bytes(&rt, found.as_slice(), b"abcd", "sinks");
    let found = read_then_closed(rt.alloc())?;
    same_bytes(&rt, found.as_slice(), b"ab", "sources");
    Ok(())
}
