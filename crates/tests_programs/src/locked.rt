// The top call over a folder with one collection, which is locked.

use crate::checks::{cell, ends, same_bytes};
use crate::parts::{bytes_of, spelled, text_of};
use crate::runs::{run_on, sink_of, source_of};
use kr_base::Bytes;
use kr_memory::{ListedClock, SteadySink, SteadySource};
use kr_memory_disk::{Files, SteadyHost};
use std::alloc::{AllocGlobal, Global};
use std::process::Abort;
use std::sync::Wait;
use std::test::Fail;
use std::thread::Threads;

// The file of a collection. Its one item is 7, without attributes.
pub const OTHER: &str = "\
[476e6f6d654b657972696e670a0d000a00000000000000054f746865720000000000000000000000000000000000000000\
00000000000003e801020304050607080000000000000000000000000000000000000001000000070000000000000000000\
0001000000000000000000000000000000000]";

// A host whose folders have that file alone.
fn locked_host(alloc: Global) -> Result<SteadyHost<SteadySource, SteadySink>, Fail> {
    let mut files = Files::new(alloc);
    let file = Bytes::new(spelled(alloc, OTHER)?);
    files.set(text_of(alloc, "other.keyring")?, Some(file))?;
    let clock = ListedClock::new(Vec::new(alloc));
    Ok(SteadyHost::new(alloc, files, 0, clock))
}

// Runs `stdio . 1000` over this input on that host, and returns what is written.
fn written_locked<R: Abort + AllocGlobal + Threads + Wait + Copy + Send + Sync + Drop + 'static>(
    rt: &R,
    input: &[u8],
    at: &str,
) -> Result<Vec<u8>, Fail> {
    let mut source = source_of(rt.alloc(), input, &[], Vec::new(rt.alloc()))?;
    let mut sink = sink_of(rt.alloc(), Vec::new(rt.alloc()));
    let mut host = locked_host(rt.alloc())?;
    let status = run_on(rt, "/stdio/./1000", &mut source, &mut sink, &mut host)?;
    ends(rt, status, "done", at)?;
    Ok(sink.bytes().to_vec(rt.alloc())?)
}

// Asserts what the run over this input on that host writes.
fn is_written<R: Abort + AllocGlobal + Threads + Wait + Copy + Send + Sync + Drop + 'static>(
    rt: &R,
    input: &[u8],
    output: &str,
    at: &str,
) -> Result<(), Fail> {
    let written = written_locked(rt, input, at)?;
    let wanted = bytes_of(rt.alloc(), output)?;
    same_bytes(rt, written.as_slice(), wanted.as_slice(), at);
    Ok(())
}

// The name of each, what the client sends, and what is written.
const REFUSALS: &str = "\
all is locked|HELLO PLAIN MAKE SET REMOVE DROP|OK SESSION LOCKED LOCKED@8:03@68:05 LOCKED@8:04@68:0\
6 LOCKED@8:05@68:07
no session|HELLO MAKE SET|OK NOSESSION@8:01@68:02 NOSESSION@8:02@68:05
no alias, and a label that isn't a text|HELLO PLAIN MAKEBIG LABEL|OK SESSION NOOBJECT@76:03 NOARGUM\
ENTS@8:03@68:04
";

fn is_refused_in<R: Abort + AllocGlobal + Threads + Wait + Copy + Send + Sync + Drop + 'static>(
    rt: &R,
    row: &str,
) -> Result<(), Fail> {
    let input = bytes_of(rt.alloc(), cell(row, 1))?;
    is_written(rt, input.as_slice(), cell(row, 2), row)
}

#[test]
fn a_member_that_stores_is_refused_while_its_collection_is_locked(
    rt: HostRuntime,
) -> Result<(), Fail> {
    for row in REFUSALS.lines() {
        is_refused_in(&rt, row)?;
    }
    Ok(())
}

#[test]
fn an_alias_is_set_to_a_locked_collection_and_removed(rt: HostRuntime) -> Result<(), Fail> {
    let input = "HELLO READALIAS@8:01 SETALIAS READALIAS DROPALIAS READALIAS@8:05";
    let input = bytes_of(rt.alloc(), input)?;
    let output =
        "OK ROOTPATH@8:01@20:01 PONG OTHERPATH@8:03@20:03 PONG@8:04@20:04 ROOTPATH@8:05@20:05";
    is_written(&rt, input.as_slice(), output, "an alias")
}

#[test]
fn a_prompt_that_unlocks_is_asked_and_dismissed(rt: HostRuntime) -> Result<(), Fail> {
    let input = bytes_of(rt.alloc(), "HELLO REGISTER UNLOCK PROMPT DISMISS")?;
    let output = "OK PONG@8:01@20:01 BEGUN PONG@8:03@20:03 ASKOTHER PONG@8:05@20:04 OPENEDNONE";
    is_written(&rt, input.as_slice(), output, "a prompt")
}

// The start of a call of SetSecret that is a mebibyte, up to the bytes of its content type.
const LONG_SECRET: &str = "\
[6c01000168ff0f00050000008600000001016f002b000000]/org/freedesktop/secrets/collection/other/7[00000\
00000020173001b000000]org.freedesktop.Secret.Item[00000000000301730009000000]SetSecret[000000000000\
00080167000828]oayays[2900000023000000]/org/freedesktop/secrets/session/s1[000000000006000000]secre\
t[00002bff0f00]";

// The handshake, a session, and that call.
fn long_secret(alloc: Global) -> Result<Vec<u8>, Fail> {
    let mut call = spelled(alloc, LONG_SECRET)?;
    call.resize(1_048_575, b'a')?;
    call.push(0)?;
    let mut input = bytes_of(alloc, "HELLO PLAIN")?;
    input.extend_from_slice(call.as_slice())?;
    Ok(input)
}

#[test]
fn a_secret_with_a_content_type_of_a_mebibyte_is_refused_like_others(
    rt: HostRuntime,
) -> Result<(), Fail> {
    let input = long_secret(rt.alloc())?;
    let output = "OK SESSION LOCKED@68:05";
    is_written(&rt, input.as_slice(), output, "a mebibyte")
}
