// The reader and the writer of a connection, each with its own desk over a service that they share. Here
// the reader runs to its end before the writer starts.
ghost use Rattle.std.specs.Prelude.{◌≡◌, [], IfOk, IsTrue, IsFalse};
ghost use Rattle.std.specs.Arc.{arc_value};
ghost use Rattle.shared_service.specs.shared_turn.specs.Shares.{IsFirst};

use crate::answers::push_all;
use crate::checks::{cell, length, same_bytes, same_number, same_text};
use crate::connection::{end_told, failing_sink, plain_sink, salts_of, source_of};
use connection_worker::{End, read_side, write_side};
use dbus_framing::Framer;
use kr_base::ConnId;
use kr_memory::{ListedClock, MemorySink, MemorySource};
use kr_memory_disk::MemoryFolder;
use kr_outside::{Sink, Source};
use service_desk::{ReadDesk, WriteDesk};
use service_history::Service;
use shared_service::{Pass, SharedDesk, SharedService};
use std::alloc::{AllocGlobal, Global};
use std::process::Abort;
use std::sync::{Arc, Wait};
use std::test::Fail;

fn no_files(alloc: Global) -> MemoryFolder
    ensures { result.made ≡ [] }
{
    MemoryFolder::new(alloc, Vec::new(alloc))
}

// A service that desks share, and its first pass.
fn shared(
    alloc: Global,
) -> Result<(Arc<SharedService<MemoryFolder>, Global>, Pass<MemoryFolder>), Fail>
    ensures table { IfOk result (λ both. both.1.home.table ≡ arc_value both.0) }
    ensures first { IfOk result (λ both. IsFirst both.1.home.share) }
{
    let (service, pass) = SharedService::open(alloc, Service::open(alloc, no_files(alloc))?)?;
    let service = Arc::new(alloc, service)?;
    Ok((service, pass))
}

// How both sides ended.
fn both_told(alloc: Global, read: End, written: End) -> Result<String, Fail> {
    let (read, written) = (end_told(read), end_told(written));
    Ok(format!(in alloc; "{read} {written}")?)
}

// Reads to the end, and returns how it ended.
fn reads<R: AllocGlobal + Wait, I: Source, D: ReadDesk>(rt: &R, input: &mut I, desk: &mut D) -> End
    requires { IsFalse (I.is_closed input.old) }
{
    let framer = Framer::new(rt.alloc(), 1_048_576);
    let mut clock = ListedClock::new(Vec::new(rt.alloc()));
    let mut salts = salts_of(ConnId(1));
    read_side(rt, framer, input, desk, &mut clock, &mut salts)
}

// Runs a reader and then a writer, and returns how both ended.
fn ran<R: AllocGlobal + Wait, I: Source, O: Sink, A: ReadDesk, B: WriteDesk>(
    rt: &R,
    input: &mut I,
    output: &mut O,
    reader: &mut A,
    writer: &mut B,
) -> Result<String, Fail>
    requires waits { IsTrue (B.told writer.old).is_waiting }
    requires input_open { IsFalse (I.is_closed input.old) }
    requires output_open { IsFalse (O.is_closed output.old) }
{
    let read = reads(rt, input, reader);
    let written = write_side(rt, output, writer);
    both_told(rt.alloc(), read, written)
}

// Runs both sides of the first connection of a service, and returns how they ended, and how many events are
// stored then.
fn outcome<R: AllocGlobal + Wait + Copy + Drop, I: Source, O: Sink>(
    rt: R,
    input: &mut I,
    output: &mut O,
) -> Result<(String, u64), Fail>
    requires input_open { IsFalse (I.is_closed input.old) }
    requires output_open { IsFalse (O.is_closed output.old) }
{
    let (service, mut pass) = shared(rt.alloc())?;
    let (conn, reader, writer) = service.join(&rt, &mut pass)?;
    let mut reader = SharedDesk::new(rt, Arc::try_clone(&service)?, reader, conn);
    let mut writer = SharedDesk::new(rt, Arc::try_clone(&service)?, writer, conn);
    let ends = ran(&rt, input, output, &mut reader, &mut writer)?;
    Ok((ends, service.close(&rt, pass).events().len() as u64))
}

// The calls, how both sides end, what is written, and how many events are stored since the last cut. A cut
// comes before a key is recorded.
const CONVERSATIONS: &str = "\
Register,CreateCollection,Prompt,Answer|Done Done|registered,created,prompted,Ask,answered,CollectionCreated,PropertiesChanged,Completed|4
Answer|Done Done|AccessDenied|5
Register,Answer|Done Done|registered,NoSuchObject|6
|Done Done||3
Answer,half|EndInside Done|AccessDenied|5";

// What a client sends after the handshake.
fn sent(alloc: Global, words: &str) -> Result<Vec<u8>, Fail> {
    let mut bytes = Vec::new(alloc);
    push_all(&mut bytes, alloc, words)?;
    if words.ends_with("half") {
        bytes.extend_from_slice(b"l\x01\0\x01")?;
    }
    Ok(bytes)
}

// Asserts how both sides ended, what was written, and how many events are stored.
fn ended_so<R: AllocGlobal + Wait + Abort + Copy + Drop>(
    rt: R,
    source: &mut MemorySource,
    sink: &mut MemorySink,
    row: &str,
) -> Result<(), Fail>
    requires input_open { IsFalse source.old.is_closed }
    requires output_open { IsFalse sink.old.is_closed }
{
    let (ends, events) = outcome(rt, source, sink)?;
    same_text(&rt, ends.as_str(), cell(row, 1), row);
    same_number(&rt, events, length(cell(row, 3))? as u64, row);
    let mut wanted = Vec::new(rt.alloc());
    push_all(&mut wanted, rt.alloc(), cell(row, 2))?;
    same_bytes(&rt, sink.bytes(), wanted.as_slice(), row);
    Ok(())
}

fn is_carried<R: AllocGlobal + Wait + Abort + Copy + Drop>(
    rt: R,
    is_cut: bool,
    row: &str,
) -> Result<(), Fail> {
    let mut source = source_of(rt.alloc(), sent(rt.alloc(), cell(row, 0))?, is_cut)?;
    let mut sink = plain_sink(rt.alloc());
    ended_so(rt, &mut source, &mut sink, row)
}

#[test]
fn what_a_reader_hands_in_is_answered_by_the_writer(rt: HostRuntime) -> Result<(), Fail> {
    for row in CONVERSATIONS.lines() {
        is_carried(rt, false, row)?;
        is_carried(rt, true, row)?;
    }
    Ok(())
}

// A source of the call Answer, whose call number 1 fails.
fn failing_source(alloc: Global) -> Result<MemorySource, Fail>
    ensures { IfOk result (λ source. IsFalse source.is_closed) }
{
    let failing = Vec::from_slice(alloc, &[1u64])?;
    Ok(MemorySource::new(sent(alloc, "Answer")?, Vec::new(alloc), failing))
}

fn a_write_fails<R: AllocGlobal + Wait + Abort + Copy + Drop>(rt: R) -> Result<(), Fail> {
    let mut source = source_of(rt.alloc(), sent(rt.alloc(), "Answer")?, false)?;
    let mut sink = failing_sink(rt.alloc())?;
    let (ends, events) = outcome(rt, &mut source, &mut sink)?;
    same_text(&rt, ends.as_str(), "Done WriteFault", "a write");
    same_number(&rt, events, 5, "a write");
    same_bytes(&rt, sink.bytes(), b"l\x03\x01", "a write");
    Ok(())
}

#[test]
fn a_fault_of_a_stream_ends_one_side(rt: HostRuntime) -> Result<(), Fail> {
    let mut source = failing_source(rt.alloc())?;
    let mut sink = plain_sink(rt.alloc());
    let row = "a read|ReadFault Done|AccessDenied|5";
    ended_so(rt, &mut source, &mut sink, row)?;
    a_write_fails(rt)
}

// Runs both sides once the connection is gone.
fn late<R: AllocGlobal + Wait, A: ReadDesk, B: WriteDesk>(
    rt: &R,
    reader: &mut A,
    writer: &mut B,
) -> Result<String, Fail>
    requires { IsTrue (B.told writer.old).is_waiting }
{
    writer.gone();
    let mut source = source_of(rt.alloc(), sent(rt.alloc(), "Answer")?, false)?;
    let mut sink = plain_sink(rt.alloc());
    ran(rt, &mut source, &mut sink, reader, writer)
}

#[test]
fn both_sides_end_once_the_connection_is_gone(rt: HostRuntime) -> Result<(), Fail> {
    let (service, mut pass) = shared(rt.alloc())?;
    let (conn, reader, writer) = service.join(&rt, &mut pass)?;
    let mut reader = SharedDesk::new(rt, Arc::try_clone(&service)?, reader, conn);
    let mut writer = SharedDesk::new(rt, Arc::try_clone(&service)?, writer, conn);
    let ends = late(&rt, &mut reader, &mut writer)?;
    same_text(&rt, ends.as_str(), "OtherEnded OtherEnded", "both");
    let events = service.close(&rt, pass).events().len() as u64;
    same_number(&rt, events, 2, "Connect and Gone");
    Ok(())
}
