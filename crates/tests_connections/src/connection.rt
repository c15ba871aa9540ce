ghost use Rattle.std.specs.Prelude.{IsTrue, IsFalse, IfOk};
ghost use Rattle.connection_worker.specs.Serving.{HasJoined};
ghost use Rattle.service_tables.specs.Sound.{IsSound};

use crate::checks::{cell, length, same_bytes, same_number, same_text};
use connection_worker::{End, Salts, handshake, one_thread};
use dbus_auth::{Auth, AuthFault};
use dbus_framing::Violation;
use kr_base::ConnId;
use kr_memory::{ListedClock, MemorySink, MemorySource};
use kr_memory_disk::MemoryFolder;
use kr_outside::{Sink, Source};
use lone_desk::LoneDesk;
use service_desk::{ReadDesk, WriteDesk};
use service_history::Service;
use std::alloc::{AllocError, AllocGlobal, Global};
use std::process::Abort;
use std::sync::Wait;
use std::test::Fail;

fn guid() -> [u8; 32] {
    *b"0123456789abcdef0123456789abcdef"
}

// The name, what the client sends, the words of the answers, and how the handshake ends. `^` stands for
// a zero byte, `~` for CR LF, `#` for a line feed. An open one says how many bytes come after BEGIN.
const CONVERSATIONS: &str = "\
nothing comes|||EndedEarly
no zero byte|A||NoZero
a zero byte alone|^||EndedEarly
the name at once|^AUTH EXTERNAL 31303030~BEGIN~|OK|open 0
the name when asked, and a message|^AUTH EXTERNAL~DATA~NEGOTIATE_UNIX_FD~BEGIN~l...|DATA,OK,ERROR|open 4
too soon|^BEGIN~||BeginTooSoon
another user|^AUTH EXTERNAL 30~BEGIN~|REJECTED|BeginTooSoon
it ends inside a line|^AUTH EXTERNAL 31303030~BEGIN|OK|EndedEarly
a line feed alone ends no line|^AUTH EXTERNAL 31303030#||EndedEarly";

fn push_code(bytes: &mut Vec<u8>, code: u8) -> Result<(), AllocError> {
    match code {
        b'^' => bytes.push(0)?,
        b'~' => bytes.extend_from_slice(b"\r\n")?,
        b'#' => bytes.push(b'\n')?,
        _ => bytes.push(code)?,
    }
    Ok(())
}

/// The bytes that a text of the table stands for.
pub fn bytes_of(alloc: Global, text: &str) -> Result<Vec<u8>, Fail> {
    let mut bytes = Vec::new(alloc);
    for code in text.bytes() {
        push_code(&mut bytes, code)?;
    }
    Ok(bytes)
}

fn answer_of(word: &str) -> &'static str {
    match word {
        "OK" => "OK 0123456789abcdef0123456789abcdef\r\n",
        "REJECTED" => "REJECTED EXTERNAL\r\n",
        "DATA" => "DATA\r\n",
        "ERROR" => "ERROR\r\n",
        _ => "",
    }
}

/// What is written for the words of the answers.
pub fn answers_of(alloc: Global, words: &str) -> Result<Vec<u8>, Fail> {
    let mut bytes = Vec::new(alloc);
    for word in words.split(',') {
        bytes.extend_from_slice(answer_of(word).as_bytes())?;
    }
    Ok(bytes)
}

fn fault_told(fault: AuthFault) -> &'static str {
    match fault {
        AuthFault::NoZero => "NoZero",
        AuthFault::LineTooLong => "LineTooLong",
        AuthFault::BeginTooSoon => "BeginTooSoon",
        AuthFault::EndedEarly => "EndedEarly",
    }
}

fn violation_told(cause: Violation) -> &'static str {
    match cause {
        Violation::EndInside => "EndInside",
        _ => "another violation",
    }
}

/// How a connection ended, in a word.
pub fn end_told(end: End) -> &'static str {
    match end {
        End::Done => "Done",
        End::AuthRefused(fault) => fault_told(fault),
        End::ReadFault => "ReadFault",
        End::WriteFault => "WriteFault",
        End::Memory => "Memory",
        End::Violation(cause) => violation_told(cause),
        End::EventsSpent => "EventsSpent",
        End::OtherEnded => "OtherEnded",
        End::Overrun => "Overrun",
    }
}

fn open_told(alloc: Global, rest: usize) -> Result<String, Fail> {
    Ok(format!(in alloc; "open {rest}")?)
}

// How a handshake for the user 1000 ends.
fn ended<R: AllocGlobal + Wait, I: Source, O: Sink>(
    rt: &R,
    input: &mut I,
    output: &mut O,
) -> Result<String, Fail>
    requires input_open { IsFalse (I.is_closed input.old) }
    requires output_open { IsFalse (O.is_closed output.old) }
{
    match handshake(rt, Auth::new(1000, guid()), input, output) {
        Ok(framer) => open_told(rt.alloc(), framer.rest()),
        Err(end) => Ok(String::from_str(rt.alloc(), end_told(end))?),
    }
}

// This many pieces of one byte.
fn bytes_alone(alloc: Global, count: usize) -> Result<Vec<usize>, Fail> {
    let mut pieces = Vec::new(alloc);
    for _ in 0..count {
        pieces.push(1usize)?;
    }
    Ok(pieces)
}

/// A source of these bytes, cut into pieces of one byte if `is_cut`.
pub fn source_of(alloc: Global, input: Vec<u8>, is_cut: bool) -> Result<MemorySource, Fail>
    ensures { IfOk result (λ source. IsFalse source.is_closed) }
{
    let count = if is_cut { input.len() } else { 0 };
    let pieces = bytes_alone(alloc, count)?;
    Ok(MemorySource::new(input, pieces, Vec::new(alloc)))
}

/// A sink that never fails.
pub fn plain_sink(alloc: Global) -> MemorySink
    ensures { IsFalse result.is_closed }
{
    MemorySink::new(alloc, Vec::new(alloc), Vec::new(alloc))
}

// Asserts how the input ends a handshake, and what is written before.
fn ends_so<R: AllocGlobal + Wait + Abort>(
    rt: &R,
    source: &mut MemorySource,
    words: &str,
    end: &str,
    at: &str,
) -> Result<(), Fail>
    requires { IsFalse source.old.is_closed }
{
    let mut sink = plain_sink(rt.alloc());
    let found = ended(rt, source, &mut sink)?;
    same_text(rt, found.as_str(), end, at);
    let wanted = answers_of(rt.alloc(), words)?;
    same_bytes(rt, sink.bytes(), wanted.as_slice(), at);
    Ok(())
}

fn is_answered<R: AllocGlobal + Wait + Abort>(rt: &R, row: &str) -> Result<(), Fail> {
    let input = bytes_of(rt.alloc(), cell(row, 1))?;
    let mut source = source_of(rt.alloc(), input, false)?;
    ends_so(rt, &mut source, cell(row, 2), cell(row, 3), row)
}

// What comes after BEGIN is in the framer as far as it was read.
fn end_if_cut(end: &str) -> &str {
    if end == "open 4" { "open 0" } else { end }
}

fn is_answered_if_cut<R: AllocGlobal + Wait + Abort>(rt: &R, row: &str) -> Result<(), Fail> {
    let input = bytes_of(rt.alloc(), cell(row, 1))?;
    let mut source = source_of(rt.alloc(), input, true)?;
    ends_so(rt, &mut source, cell(row, 2), end_if_cut(cell(row, 3)), row)
}

#[test]
fn each_conversation_is_answered_however_it_is_cut(rt: HostRuntime) -> Result<(), Fail> {
    for row in CONVERSATIONS.lines() {
        is_answered(&rt, row)?;
        is_answered_if_cut(&rt, row)?;
    }
    Ok(())
}

// The length of a line, the words of the answers, and how the handshake ends.
const LINES: &str = "\
16382|ERROR|EndedEarly
16383||LineTooLong
";

fn long_line(alloc: Global, length: usize) -> Result<Vec<u8>, Fail> {
    let mut line = bytes_of(alloc, "^")?;
    for _ in 0..length {
        line.push(b'A')?;
    }
    line.extend_from_slice(b"\r\n")?;
    Ok(line)
}

fn is_long<R: AllocGlobal + Wait + Abort>(rt: &R, row: &str) -> Result<(), Fail> {
    let line = long_line(rt.alloc(), length(cell(row, 0))?)?;
    let mut source = source_of(rt.alloc(), line, false)?;
    ends_so(rt, &mut source, cell(row, 1), cell(row, 2), row)
}

#[test]
fn a_line_of_the_limit_is_answered_and_a_longer_one_is_refused(
    rt: HostRuntime,
) -> Result<(), Fail> {
    for row in LINES.lines() {
        is_long(&rt, row)?;
    }
    Ok(())
}

fn name(alloc: Global) -> Result<Vec<u8>, Fail> {
    bytes_of(alloc, "^AUTH EXTERNAL 31303030~")
}

// A source of the name alone, whose call number 1 fails.
fn failing_source(alloc: Global) -> Result<MemorySource, Fail>
    ensures { IfOk result (λ source. IsFalse source.is_closed) }
{
    let failing = Vec::from_slice(alloc, &[1u64])?;
    Ok(MemorySource::new(name(alloc)?, Vec::new(alloc), failing))
}

/// A sink that takes 3 bytes, and whose call number 1 fails.
pub fn failing_sink(alloc: Global) -> Result<MemorySink, Fail>
    ensures { IfOk result (λ sink. IsFalse sink.is_closed) }
{
    let pieces = Vec::from_slice(alloc, &[3usize])?;
    let failing = Vec::from_slice(alloc, &[1u64])?;
    Ok(MemorySink::new(alloc, pieces, failing))
}

fn a_write_fails<R: AllocGlobal + Wait + Abort>(rt: &R) -> Result<(), Fail> {
    let mut source = source_of(rt.alloc(), name(rt.alloc())?, false)?;
    let mut sink = failing_sink(rt.alloc())?;
    let found = ended(rt, &mut source, &mut sink)?;
    same_text(rt, found.as_str(), "WriteFault", "a write");
    same_bytes(rt, sink.bytes(), b"OK ", "a write");
    Ok(())
}

#[test]
fn a_fault_of_a_stream_is_told(rt: HostRuntime) -> Result<(), Fail> {
    let mut source = failing_source(rt.alloc())?;
    // The 37 bytes of the answer are written before.
    ends_so(&rt, &mut source, "OK", "ReadFault", "a read")?;
    a_write_fails(&rt)
}

/// The salts of a connection under a seed of zeros.
pub fn salts_of(conn: ConnId) -> Salts {
    Salts::new([0; 32], conn)
}

fn conn_of(text: &str) -> Result<ConnId, Fail> {
    Ok(ConnId(text.parse::<u64>().ok().ok_or("connection")?))
}

fn next_told(alloc: Global, salts: &mut Salts) -> Result<String, Fail> {
    Ok(hex::encode(alloc, salts.next().as_slice())?)
}

// Connection, and its first two salts under a seed of zeros.
const SALTS: &str = "\
1|ef3fdfd6c61578fb|f5cf35bd3dd33b80
2|d0c5b9b744287072|8d812f034c635e81
4294967298|b219bcbf4750253c|fe456cd3b8ab770a
";

fn has_salts<R: AllocGlobal + Abort>(rt: &R, row: &str) -> Result<(), Fail> {
    let mut salts = salts_of(conn_of(cell(row, 0))?);
    let first = next_told(rt.alloc(), &mut salts)?;
    same_text(rt, first.as_str(), cell(row, 1), row);
    let second = next_told(rt.alloc(), &mut salts)?;
    same_text(rt, second.as_str(), cell(row, 2), row);
    Ok(())
}

#[test]
fn salts_are_words_of_the_connections_stream(rt: HostRuntime) -> Result<(), Fail> {
    for row in SALTS.lines() {
        has_salts(&rt, row)?;
    }
    Ok(())
}

// OpenSession with `plain`, serial 1, little-endian.
const OPEN_SESSION: &str = "\
6c01000115000000010000007000000001016f00180000002f6f72672f667265656465736b746f702f73656372\
6574730000000000000000020173001e0000006f72672e667265656465736b746f702e5365637265742e536572\
766963650000030173000b0000004f70656e53657373696f6e0000000000080167000273760005000000706c61\
696e000173000000000000000000";

// The reply to it as the first output, with session 1.
const SESSION: &str = "\
6c02010134000000010000001000000005017500010000000801670002766f0001730000000000000000000023\
0000002f6f72672f667265656465736b746f702f736563726574732f73657373696f6e2f733100";

/// Appends the bytes with these digits.
pub fn push_digits(bytes: &mut Vec<u8>, alloc: Global, digits: &str) -> Result<(), Fail> {
    let message = hex::decode(alloc, digits).ok().ok_or("hex")?;
    bytes.extend_from_slice(message.as_slice())?;
    Ok(())
}

// What a client sends that does the handshake and opens a session.
fn client(alloc: Global) -> Result<Vec<u8>, Fail> {
    let mut input = bytes_of(alloc, "^AUTH EXTERNAL~DATA~NEGOTIATE_UNIX_FD~BEGIN~")?;
    push_digits(&mut input, alloc, OPEN_SESSION)?;
    Ok(input)
}

// What is written to that client.
fn written(alloc: Global) -> Result<Vec<u8>, Fail> {
    let mut output = answers_of(alloc, "DATA,OK,ERROR")?;
    push_digits(&mut output, alloc, SESSION)?;
    Ok(output)
}

// Serves the first connection at a desk, and returns how it ended.
fn served<R: AllocGlobal + Wait, I: Source, O: Sink, D: ReadDesk + WriteDesk>(
    rt: &R,
    input: &mut I,
    output: &mut O,
    desk: &mut D,
) -> &'static str
    requires alone { IsTrue (D.told desk.old).is_alone }
    requires joined { HasJoined (D.told desk.old) }
    requires sound { IsSound (D.told desk.old).state }
    requires input_open { IsFalse (I.is_closed input.old) }
    requires output_open { IsFalse (O.is_closed output.old) }
{
    let mut clock = ListedClock::new(Vec::new(rt.alloc()));
    let mut salts = salts_of(ConnId(1));
    let auth = Auth::new(1000, guid());
    end_told(one_thread(rt, auth, input, output, desk, &mut clock, &mut salts))
}

fn stored(desk: LoneDesk<MemoryFolder>) -> u64 {
    desk.into_service().events().len() as u64
}

/// Serves the first connection of a service, and returns the number of events that are stored once it is
/// done.
pub fn events_of<R: AllocGlobal + Wait + Abort, I: Source, O: Sink>(
    rt: &R,
    input: &mut I,
    output: &mut O,
) -> Result<u64, Fail>
    requires input_open { IsFalse (I.is_closed input.old) }
    requires output_open { IsFalse (O.is_closed output.old) }
{
    let folder = MemoryFolder::new(rt.alloc(), Vec::new(rt.alloc()));
    let mut desk = LoneDesk::join(Service::open(rt.alloc(), folder)?)?;
    let end = served(rt, input, output, &mut desk);
    same_text(rt, end, "Done", "the end");
    Ok(stored(desk))
}

fn is_served<R: AllocGlobal + Wait + Abort>(rt: &R, is_cut: bool, at: &str) -> Result<(), Fail> {
    let mut source = source_of(rt.alloc(), client(rt.alloc())?, is_cut)?;
    let mut sink = plain_sink(rt.alloc());
    let events = events_of(rt, &mut source, &mut sink)?;
    same_number(rt, events, 4, at);
    let wanted = written(rt.alloc())?;
    same_bytes(rt, sink.bytes(), wanted.as_slice(), at);
    Ok(())
}

#[test]
fn one_call_is_answered_on_one_thread(rt: HostRuntime) -> Result<(), Fail> {
    is_served(&rt, false, "whole")?;
    is_served(&rt, true, "cut")
}
