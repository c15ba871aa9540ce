// The reader of a connection.
ghost use Rattle.std.specs.Prelude.{◌≡◌, length, IsFalse};
ghost use Rattle.dbus_framing.specs.Messages.{parts_of};
ghost use Rattle.connection_worker.specs.Handshakes.{most_bytes};
ghost use Rattle.connection_worker.specs.Reader.{end_for, HandsIn, HandsInMessage, HandsInAll, ReadsOn, ReaderEnds};
ghost use Rattle.connection_worker.specs.Serving.{world};
ghost use Rattle.connection_worker.specs.Streams.{input_of, most_read};

use crate::ending::End;
use crate::opening::MOST_READ;
use crate::salts::Salts;
use crate::serving::feed_more;
use call_wire::call_of;
use dbus_framing::{FrameRefused, Framer};
use dbus_types::Message;
use kr_outside::{Clock, Source};
use service_desk::ReadDesk;
use service_desk::secret_calls::{Refused, Request};
use std::alloc::{AllocGlobal, Global};
use std::sync::Wait;

// The end that a refusal of the desk leads to.
fn end_of(refused: Refused) -> End
    ensures { result ≡ end_for refused }
{
    match refused {
        Refused::EventsSpent => End::EventsSpent,
        Refused::Gone => End::OtherEnded,
        Refused::OutOfMemory => End::Memory,
    }
}

// Asks the clock, draws a salt, and hands the request in. If it gives work, its key is derived and brought at a
// further moment.
fn hand_in<D: ReadDesk, C: Clock>(
    request: Request,
    desk: &mut D,
    clock: &mut C,
    salts: &mut Salts,
) -> Result<(), End>
    ensures { HandsIn request (world D.told D.has_seen C.coming desk.old clock.old salts.old)
        (world D.told D.has_seen C.coming desk.new clock.new salts.new) result }
{
    let now = clock.now();
    let work = match desk.arrive(request, now, salts.next()) {
        Ok(work) => work,
        Err(refused) => return Err(end_of(refused)),
    };
    let Some(work) = work else {
        return Ok(());
    };
    let done = work.finish();
    let later = clock.now();
    match desk.derived(done, later) {
        Ok(()) => Ok(()),
        Err(refused) => Err(end_of(refused)),
    }
}

// Hands in the request of one message, if it is a method call.
fn hand_in_message<D: ReadDesk, C: Clock>(
    alloc: Global,
    message: &Message,
    desk: &mut D,
    clock: &mut C,
    salts: &mut Salts,
) -> Result<(), End>
    ensures { HandsInMessage (parts_of message.now)
        (world D.told D.has_seen C.coming desk.old clock.old salts.old)
        (world D.told D.has_seen C.coming desk.new clock.new salts.new) result }
{
    if message.kind != 1 {
        return Ok(());
    }
    match call_of(alloc, message) {
        Ok(request) => hand_in(request, desk, clock, salts),
        Err(_) => Err(End::Memory),
    }
}

// Hands in the requests of the complete messages.
fn hand_in_all<R: AllocGlobal + Wait, D: ReadDesk, C: Clock>(
    rt: &R,
    framer: &mut Framer,
    desk: &mut D,
    clock: &mut C,
    salts: &mut Salts,
) -> Result<(), End>
    ensures { HandsInAll framer.old framer.new
        (world D.told D.has_seen C.coming desk.old clock.old salts.old)
        (world D.told D.has_seen C.coming desk.new clock.new salts.new) result }
{
    for _ in rt.forever() {
        let message = match framer.next() {
            Ok(Some(message)) => message,
            Ok(None) => return Ok(()),
            Err(FrameRefused::Violation(cause)) => return Err(End::Violation(cause)),
            Err(FrameRefused::OutOfMemory) => return Err(End::Memory),
        };
        if let Err(end) = hand_in_message(rt.alloc(), &message, desk, clock, salts) {
            return Err(end);
        }
    }
    unreachable!()
}

// Reads to the end, with a buffer for a piece.
fn read_by<R: AllocGlobal + Wait, I: Source, D: ReadDesk, C: Clock>(
    rt: &R,
    framer: Framer,
    input: &mut I,
    desk: &mut D,
    clock: &mut C,
    salts: &mut Salts,
    piece: &mut [u8],
) -> End
    requires most { framer.most ≡ most_bytes }
    requires room { length piece.old ≡ most_read }
    requires input_open { IsFalse (I.is_closed input.old) }
    ensures { ReadsOn framer
        (input_of I.left I.faults I.is_steady I.is_closed input.old)
        (input_of I.left I.faults I.is_steady I.is_closed input.new)
        (world D.told D.has_seen C.coming desk.old clock.old salts.old)
        (world D.told D.has_seen C.coming desk.new clock.new salts.new) result }
{
    let mut framer = framer;
    for _ in rt.forever() {
        if let Err(end) = hand_in_all(rt, &mut framer, desk, clock, salts) {
            return end;
        }
        if let Err(end) = feed_more(input, &mut *piece, &mut framer) {
            return end;
        }
    }
    unreachable!()
}

// The same as `read_side`, before the desk leaves.
fn read_on<R: AllocGlobal + Wait, I: Source, D: ReadDesk, C: Clock>(
    rt: &R,
    framer: Framer,
    input: &mut I,
    desk: &mut D,
    clock: &mut C,
    salts: &mut Salts,
) -> End
    requires most { framer.most ≡ most_bytes }
    requires input_open { IsFalse (I.is_closed input.old) }
    ensures { ReadsOn framer
        (input_of I.left I.faults I.is_steady I.is_closed input.old)
        (input_of I.left I.faults I.is_steady I.is_closed input.new)
        (world D.told D.has_seen C.coming desk.old clock.old salts.old)
        (world D.told D.has_seen C.coming desk.new clock.new salts.new) result }
{
    let Ok(mut piece) = vec![in rt.alloc(); 0; MOST_READ] else {
        return End::Memory;
    };
    read_by(rt, framer, input, desk, clock, salts, &mut piece)
}

/// The reader of a connection: hands the calls in the framer and those that arrive later to the
/// desk, reading at most 65,536 bytes at a time, and brings the key that an answer asks for before
/// the next call is looked at. At last the desk leaves, whatever the end. The clock is asked once
/// for each call and once for each key that is derived, and one salt is drawn for each call.
///
/// Ends with `Done` if the input ended between two messages; with `Violation` if it ended inside
/// one (`EndInside`) or the bytes break a rule of messages; with `ReadFault` only if the count of
/// the source rose; with `EventsSpent` and `OtherEnded` if the desk refused a request or a key,
/// because all events that can be counted are recorded or because the connection isn't there; and
/// with `Memory` if no memory was left. No fault of a read is ignored.
pub fn read_side<R: AllocGlobal + Wait, I: Source, D: ReadDesk, C: Clock>(
    rt: &R,
    framer: Framer,
    input: &mut I,
    desk: &mut D,
    clock: &mut C,
    salts: &mut Salts,
) -> End
    requires most { framer.most ≡ most_bytes }
    requires input_open { IsFalse (I.is_closed input.old) }
    ensures { ReaderEnds framer
        (input_of I.left I.faults I.is_steady I.is_closed input.old)
        (input_of I.left I.faults I.is_steady I.is_closed input.new)
        (world D.told D.has_seen C.coming desk.old clock.old salts.old)
        (world D.told D.has_seen C.coming desk.new clock.new salts.new) result }
{
    let end = read_on(rt, framer, input, desk, clock, salts);
    desk.leave();
    end
}
