// The handshake over a source and a sink.
ghost use Rattle.std.specs.Prelude.{◌≡◌, ◌≤◌, ℕ, IfOk, OnErr, IsErrOf, List, drop, length, vec_len, IsFalse};
ghost use Rattle.dbus_framing.specs.Framers.{just_fed};
ghost use Rattle.connection_worker.specs.Streams.{input_of, most_read, output_of};
ghost use Rattle.connection_worker.specs.Handshakes.{HandshakeOutcome, HandshakeOutcomeAfter, ReadsMore, most_bytes};

use crate::ending::End;
use crate::lines::{Turn, answer_lines};
use dbus_auth::{Auth, AuthFault, State};
use dbus_framing::Framer;
use kr_outside::{Failed, Sink, Source};
use std::alloc::AllocGlobal;
use std::sync::Wait;

/// The most bytes that are read at a time.
pub const MOST_READ: usize = 65_536;

/// The most bytes that an incoming message may have.
const MOST_MESSAGE_BYTES: u32 = 1_048_576;

// Reads a piece, and appends it to the bytes that are held.
fn read_more<I: Source>(input: &mut I, piece: &mut [u8], held: &mut Vec<u8>) -> Result<(), End>
    requires room { length piece.old ≡ most_read }
    requires input_open { IsFalse (I.is_closed input.old) }
    ensures { ReadsMore held.old.items held.new.items
        (input_of I.left I.faults I.is_steady I.is_closed input.old)
        (input_of I.left I.faults I.is_steady I.is_closed input.new) result }
{
    match input.read(&mut *piece) {
        Err(Failed) => Err(End::ReadFault),
        Ok(0) => Err(End::AuthRefused(AuthFault::EndedEarly)),
        Ok(count) => match held.extend_from_slice(&piece[..count]) {
            Ok(()) => Ok(()),
            Err(_) => Err(End::Memory),
        },
    }
}

// Removes the first bytes.
fn remove_front(bytes: &mut Vec<u8>, count: usize)
    requires { count ≤ vec_len bytes.old }
    ensures { bytes.new.items ≡ drop count bytes.old.items }
{
    let len = bytes.len();
    bytes.as_mut_slice().copy_within(count..len, 0);
    bytes.truncate(len - count);
}

// A framer to which everything after the first `count` bytes was fed.
fn framer_behind(bytes: &Vec<u8>, count: usize) -> Result<Framer, End>
    requires { count ≤ vec_len bytes.now }
    ensures fed { IfOk result (λ framer.
        framer ≡ just_fed most_bytes (drop count bytes.now.items)) }
    ensures memory { OnErr result (IsErrOf result End.Memory) }
{
    let mut framer = Framer::new(*bytes.allocator(), MOST_MESSAGE_BYTES);
    let (_, rest) = bytes.as_slice().split_at(count);
    match framer.feed(rest) {
        Ok(()) => Ok(framer),
        Err(_) => Err(End::Memory),
    }
}

// The handshake after its first byte. The bytes that are held begin a line.
fn shake<R: Wait, I: Source, O: Sink>(
    rt: &R,
    auth: Auth,
    held: Vec<u8>,
    input: &mut I,
    output: &mut O,
    piece: &mut [u8],
) -> Result<Framer, End>
    requires room { length piece.old ≡ most_read }
    requires input_open { IsFalse (I.is_closed input.old) }
    requires output_open { IsFalse (O.is_closed output.old) }
    ensures { HandshakeOutcomeAfter auth held.items
        (record {
          input = input_of I.left I.faults I.is_steady I.is_closed input.old;
          output = output_of O.written O.faults O.is_steady O.is_closed output.old;
        })
        (record {
          input = input_of I.left I.faults I.is_steady I.is_closed input.new;
          output = output_of O.written O.faults O.is_steady O.is_closed output.new;
        }) result }
{
    let mut auth = auth;
    let mut held = held;
    for _ in rt.forever() {
        match answer_lines(&mut auth, output, held.as_slice()) {
            Ok(Turn::Waits(size)) => remove_front(&mut held, size),
            Ok(Turn::Begins(size)) => return framer_behind(&held, size),
            Ok(Turn::Refused(fault)) => return Err(End::AuthRefused(fault)),
            Err(Failed) => return Err(End::WriteFault),
        }
        if let Err(end) = read_more(input, &mut *piece, &mut held) {
            return Err(end);
        }
    }
    unreachable!()
}

/// The server's half of the handshake: reads lines, at most 65,536 bytes at a time, and writes the
/// answer to each before the next one is looked at. What was read after BEGIN is in the framer.
///
/// Refused with `AuthRefused` if the bytes show a fault, or if the input ended before BEGIN; with
/// `ReadFault` and `WriteFault` if a stream failed; and with `Memory` if no memory was left.
pub fn handshake<R: AllocGlobal + Wait, I: Source, O: Sink>(
    rt: &R,
    auth: Auth,
    input: &mut I,
    output: &mut O,
) -> Result<Framer, End>
    requires fresh { auth.state ≡ State.WaitingForAuth }
    requires input_open { IsFalse (I.is_closed input.old) }
    requires output_open { IsFalse (O.is_closed output.old) }
    ensures { HandshakeOutcome auth.uid auth.guid
        (record {
          input = input_of I.left I.faults I.is_steady I.is_closed input.old;
          output = output_of O.written O.faults O.is_steady O.is_closed output.old;
        })
        (record {
          input = input_of I.left I.faults I.is_steady I.is_closed input.new;
          output = output_of O.written O.faults O.is_steady O.is_closed output.new;
        }) result }
{
    let alloc = rt.alloc();
    let Ok(mut piece) = vec![in alloc; 0; MOST_READ] else {
        return Err(End::Memory);
    };
    let mut held = Vec::new(alloc);
    if let Err(end) = read_more(input, &mut piece, &mut held) {
        return Err(end);
    }
    if held[0] != 0 {
        return Err(End::AuthRefused(AuthFault::NoZero));
    }
    remove_front(&mut held, 1);
    shake(rt, auth, held, input, output, &mut piece)
}
