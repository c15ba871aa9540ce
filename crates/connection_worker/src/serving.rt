// Serving requests on one thread.
ghost use Rattle.std.specs.Prelude.{◌≡◌, IsTrue, IsFalse, [], length};
ghost use Rattle.service_desk.specs.Places.{place};
ghost use Rattle.connection_worker.specs.Serving.{world, has_lost, owed, IsDue, IsOwed, Asks, Brings, FindsLoss, Gives};
ghost use Rattle.connection_worker.specs.Answering.{AnswersCall, AnswersMessage, AnswersAll};
ghost use Rattle.connection_worker.specs.Salts.{Salting};
ghost use Rattle.connection_worker.specs.Handshakes.{most_bytes};
ghost use Rattle.connection_worker.specs.Streams.{input_of, most_read, output_of};
ghost use Rattle.connection_worker.specs.ServingOn.{FeedsMore, ServesOn};
ghost use Rattle.dbus_framing.specs.Messages.{parts_of};

use crate::ending::End;
use crate::opening::MOST_READ;
use crate::outs::send;
use crate::salts::Salts;
use crate::serials::Serials;
use call_wire::call_of;
use dbus_framing::{FrameRefused, Framer, Violation};
use dbus_types::Message;
use kr_outside::{Clock, Failed, Sink, Source};
use service_desk::secret_calls::{Refused, Request, Taken, Work};
use service_desk::{ReadDesk, WriteDesk};
use std::alloc::{AllocGlobal, Global};
use std::sync::Wait;

// Asks the clock, draws a salt, and has the request recorded. It returns the key that is to be derived, if any.
fn ask<D: ReadDesk, C: Clock>(
    request: Request,
    desk: &mut D,
    clock: &mut C,
    salts: &mut Salts,
) -> Result<Option<Work>, End>
    requires alone { IsTrue (D.told desk.old).is_alone }
    requires idle { IsOwed (D.told desk.old) [] }
    ensures { Asks request (world D.told D.has_seen C.coming desk.old clock.old salts.old)
        (world D.told D.has_seen C.coming desk.new clock.new salts.new) result }
{
    let now = clock.now();
    match desk.arrive(request, now, salts.next()) {
        Ok(work) => Ok(work),
        Err(Refused::EventsSpent) => Err(End::EventsSpent),
        Err(Refused::Gone) => Err(End::OtherEnded),
        Err(Refused::OutOfMemory) => Err(End::Memory),
    }
}

// Derives a key, asks the clock, and has the key recorded.
fn bring<D: ReadDesk, C: Clock>(work: Work, desk: &mut D, clock: &mut C) -> Result<(), End>
    requires alone { IsTrue (D.told desk.old).is_alone }
    requires idle { IsOwed (D.told desk.old) [] }
    ensures { (salting : Salting) → Brings work
        (world D.told D.has_seen C.coming desk.old clock.old salting)
        (world D.told D.has_seen C.coming desk.new clock.new salting) result }
{
    let done = work.finish();
    let now = clock.now();
    match desk.derived(done, now) {
        Ok(()) => Ok(()),
        Err(Refused::EventsSpent) => Err(End::EventsSpent),
        Err(Refused::Gone) => Err(End::OtherEnded),
        Err(Refused::OutOfMemory) => Err(End::Memory),
    }
}

// Looks whether an output was lost, once nothing waits any more.
fn find_loss<D: WriteDesk>(desk: &mut D) -> Result<(), End>
    requires alone { IsTrue (D.told desk.old).is_alone }
    requires taken { IsDue (D.told desk.old) [] (has_lost (D.told desk.old)) }
    ensures { FindsLoss (place D.told D.has_seen desk.old) (place D.told D.has_seen desk.new)
        result }
{
    let rest = desk.take();
    match rest {
        Taken::Empty => Ok(()),
        Taken::Overrun => Err(End::Overrun),
        Taken::Outs(_) | Taken::Closed | Taken::Missing => Err(End::OtherEnded),
    }
}

// Takes the outputs that are due, and writes them. It ends with Overrun if one was lost.
fn give<O: Sink, D: WriteDesk>(
    alloc: Global,
    output: &mut O,
    desk: &mut D,
    serials: &mut Serials,
) -> Result<(), End>
    requires alone { IsTrue (D.told desk.old).is_alone }
    requires owed { IsDue (D.told desk.old) (owed (D.told desk.old)) (has_lost (D.told desk.old)) }
    requires output_open { IsFalse (O.is_closed output.old) }
    ensures { Gives (place D.told D.has_seen desk.old) (place D.told D.has_seen desk.new)
        serials.old serials.new
        (output_of O.written O.faults O.is_steady O.is_closed output.old)
        (output_of O.written O.faults O.is_steady O.is_closed output.new) result }
{
    match desk.take() {
        Taken::Outs(outs) => {
            if let Err(end) = send(alloc, outs.as_slice(), serials, output) {
                return Err(end);
            }
            find_loss(desk)
        }
        Taken::Empty => Ok(()),
        Taken::Overrun => Err(End::Overrun),
        Taken::Closed | Taken::Missing => Err(End::OtherEnded),
    }
}

// Serves one method call: the reply to it is written, and then, if it is an answer that was taken, the key is
// derived, and what that sends is written.
fn answer_call<O: Sink, D: ReadDesk + WriteDesk, C: Clock>(
    alloc: Global,
    message: &Message,
    output: &mut O,
    desk: &mut D,
    clock: &mut C,
    salts: &mut Salts,
    serials: &mut Serials,
) -> Result<(), End>
    requires call { message.now.kind ≡ 1 }
    requires alone { IsTrue (D.told desk.old).is_alone }
    requires idle { IsOwed (D.told desk.old) [] }
    requires output_open { IsFalse (O.is_closed output.old) }
    ensures { AnswersCall (parts_of message.now)
        (world D.told D.has_seen C.coming desk.old clock.old salts.old)
        (world D.told D.has_seen C.coming desk.new clock.new salts.new)
        serials.old serials.new
        (output_of O.written O.faults O.is_steady O.is_closed output.old)
        (output_of O.written O.faults O.is_steady O.is_closed output.new) result }
{
    let Ok(request) = call_of(alloc, message) else {
        return Err(End::Memory);
    };
    let work = match ask(request, desk, clock, salts) {
        Ok(work) => work,
        Err(end) => return Err(end),
    };
    if let Err(end) = give(alloc, output, desk, serials) {
        return Err(end);
    }
    let Some(work) = work else {
        return Ok(());
    };
    if let Err(end) = bring(work, desk, clock) {
        return Err(end);
    }
    give(alloc, output, desk, serials)
}

// Serves one message: a method call is answered, and nothing is done for any other message.
fn answer_message<O: Sink, D: ReadDesk + WriteDesk, C: Clock>(
    alloc: Global,
    message: &Message,
    output: &mut O,
    desk: &mut D,
    clock: &mut C,
    salts: &mut Salts,
    serials: &mut Serials,
) -> Result<(), End>
    requires alone { IsTrue (D.told desk.old).is_alone }
    requires idle { IsOwed (D.told desk.old) [] }
    requires output_open { IsFalse (O.is_closed output.old) }
    ensures { AnswersMessage (parts_of message.now)
        (world D.told D.has_seen C.coming desk.old clock.old salts.old)
        (world D.told D.has_seen C.coming desk.new clock.new salts.new)
        serials.old serials.new
        (output_of O.written O.faults O.is_steady O.is_closed output.old)
        (output_of O.written O.faults O.is_steady O.is_closed output.new) result }
{
    if message.kind != 1 {
        return Ok(());
    }
    answer_call(alloc, message, output, desk, clock, salts, serials)
}

// Serves the calls among the complete messages.
fn answer_messages<R: AllocGlobal + Wait, O: Sink, D: ReadDesk + WriteDesk, C: Clock>(
    rt: &R,
    framer: &mut Framer,
    output: &mut O,
    desk: &mut D,
    clock: &mut C,
    salts: &mut Salts,
    serials: &mut Serials,
) -> Result<(), End>
    requires alone { IsTrue (D.told desk.old).is_alone }
    requires idle { IsOwed (D.told desk.old) [] }
    requires output_open { IsFalse (O.is_closed output.old) }
    ensures { AnswersAll framer.old framer.new
        (world D.told D.has_seen C.coming desk.old clock.old salts.old)
        (world D.told D.has_seen C.coming desk.new clock.new salts.new)
        serials.old serials.new
        (output_of O.written O.faults O.is_steady O.is_closed output.old)
        (output_of O.written O.faults O.is_steady O.is_closed output.new) result }
{
    for _ in rt.forever() {
        let message = match framer.next() {
            Ok(Some(message)) => message,
            Ok(None) => return Ok(()),
            Err(FrameRefused::Violation(cause)) => return Err(End::Violation(cause)),
            Err(FrameRefused::OutOfMemory) => return Err(End::Memory),
        };
        let alloc = rt.alloc();
        if let Err(end) = answer_message(alloc, &message, output, desk, clock, salts, serials) {
            return Err(end);
        }
    }
    unreachable!()
}

/// Reads a piece and feeds it.
pub fn feed_more<I: Source>(input: &mut I, piece: &mut [u8], framer: &mut Framer) -> Result<(), End>
    requires room { length piece.old ≡ most_read }
    requires input_open { IsFalse (I.is_closed input.old) }
    ensures { FeedsMore framer.old framer.new
        (input_of I.left I.faults I.is_steady I.is_closed input.old)
        (input_of I.left I.faults I.is_steady I.is_closed input.new) result }
{
    match input.read(&mut *piece) {
        Err(Failed) => Err(End::ReadFault),
        Ok(0) => {
            if framer.rest() == 0 {
                Err(End::Done)
            } else {
                Err(End::Violation(Violation::EndInside))
            }
        }
        Ok(count) => match framer.feed(&piece[..count]) {
            Ok(()) => Ok(()),
            Err(_) => Err(End::Memory),
        },
    }
}

// The same as `serve`, with a buffer for a piece.
fn serve_by<R: AllocGlobal + Wait, I: Source, O: Sink, D: ReadDesk + WriteDesk, C: Clock>(
    rt: &R,
    framer: Framer,
    input: &mut I,
    output: &mut O,
    desk: &mut D,
    clock: &mut C,
    salts: &mut Salts,
    piece: &mut [u8],
) -> End
    requires alone { IsTrue (D.told desk.old).is_alone }
    requires idle { IsOwed (D.told desk.old) [] }
    requires most { framer.most ≡ most_bytes }
    requires room { length piece.old ≡ most_read }
    requires input_open { IsFalse (I.is_closed input.old) }
    requires output_open { IsFalse (O.is_closed output.old) }
    ensures { ServesOn framer
        (input_of I.left I.faults I.is_steady I.is_closed input.old)
        (input_of I.left I.faults I.is_steady I.is_closed input.new)
        (world D.told D.has_seen C.coming desk.old clock.old salts.old)
        (world D.told D.has_seen C.coming desk.new clock.new salts.new)
        (output_of O.written O.faults O.is_steady O.is_closed output.old)
        (output_of O.written O.faults O.is_steady O.is_closed output.new) result }
{
    let mut framer = framer;
    let mut serials = Serials::new();
    for _ in rt.forever() {
        let answered = answer_messages(rt, &mut framer, output, desk, clock, salts, &mut serials);
        if let Err(end) = answered {
            return end;
        }
        if let Err(end) = feed_more(input, &mut *piece, &mut framer) {
            return end;
        }
    }
    unreachable!()
}

/// Serves the calls in the framer and those that arrive later, reading at most 65,536 bytes at a
/// time, each with its reply before the next one is looked at.
///
/// Ends with `Done` if the input ended between two messages, with `Violation` if it ended inside
/// one or shows a violation, with `ReadFault` and `WriteFault` if a stream failed, with
/// `EventsSpent` if no more events can be counted, and with `Memory` if no memory was left.
pub fn serve<R: AllocGlobal + Wait, I: Source, O: Sink, D: ReadDesk + WriteDesk, C: Clock>(
    rt: &R,
    framer: Framer,
    input: &mut I,
    output: &mut O,
    desk: &mut D,
    clock: &mut C,
    salts: &mut Salts,
) -> End
    requires alone { IsTrue (D.told desk.old).is_alone }
    requires idle { IsOwed (D.told desk.old) [] }
    requires most { framer.most ≡ most_bytes }
    requires input_open { IsFalse (I.is_closed input.old) }
    requires output_open { IsFalse (O.is_closed output.old) }
    ensures { ServesOn framer
        (input_of I.left I.faults I.is_steady I.is_closed input.old)
        (input_of I.left I.faults I.is_steady I.is_closed input.new)
        (world D.told D.has_seen C.coming desk.old clock.old salts.old)
        (world D.told D.has_seen C.coming desk.new clock.new salts.new)
        (output_of O.written O.faults O.is_steady O.is_closed output.old)
        (output_of O.written O.faults O.is_steady O.is_closed output.new) result }
{
    let Ok(mut piece) = vec![in rt.alloc(); 0; MOST_READ] else {
        return End::Memory;
    };
    serve_by(rt, framer, input, output, desk, clock, salts, &mut piece)
}
