// What is counted over the bytes that answer a load (docs/SERVICE.md, "The load").
ghost use Rattle.std.specs.Prelude.{◌≡◌, IfOk, IfSome, IsNone, Some, None};
ghost use Rattle.dbus_framing.specs.Messages.{parts_of};
ghost use Rattle.load_plan.specs.Answered.{most_bytes, behind_line, call_with, with_answer, with_message, CountsMessages, CountsReplies};

use crate::OutOfMemory;
use crate::counts::Counts;
use client_core::{ReplyFault, reply_of};
use dbus_framing::{FrameRefused, Framer};
use dbus_types::Message;
use secret_calls::Call;
use std::alloc::{AllocError, AllocGlobal, Global};
use std::sync::Wait;

// The most bytes of a message (D-Bus Specification, "Message Format"), so that no output of the service is too long.
const MOST_BYTES: u32 = 134_217_728;

// What follows the first line, which answers the handshake.
fn behind_line(written: &[u8]) -> &[u8]
    ensures { result.now ≡ behind_line written.now }
{
    let mut rest = written;
    while let [byte, after @ ..] = rest {
        if *byte == b'\n' {
            return after;
        }
        rest = after;
    }
    rest
}

// The call that was sent with this serial, if there is one.
fn call_with(calls: &[Call], serial: u32) -> Option<&Call>
    ensures sent { IfSome result (λ call. call_with calls.now serial ≡ Some call.now) }
    ensures none { IsNone result → call_with calls.now serial ≡ None }
{
    if serial == 0 {
        return None;
    }
    calls.get(serial as usize - 1)
}

// The counts with a message that names the serial of this call.
fn with_answer(
    alloc: Global,
    seed: u64,
    counts: Counts,
    serial: u32,
    message: &Message,
    call: &Call,
) -> Result<Counts, OutOfMemory>
    ensures { IfOk result (λ after. after
        ≡ with_answer seed counts serial (parts_of message.now) (Some call.now)) }
{
    match reply_of(alloc, message, call, serial) {
        Ok(reply) => Ok(counts.with_reply(seed, call, &reply)),
        Err(ReplyFault::NotAReply) => Ok(counts),
        Err(ReplyFault::WrongShape) => Ok(counts),
        Err(ReplyFault::OutOfMemory) => Err(AllocError),
    }
}

// The counts with one more message.
fn with_message(
    alloc: Global,
    seed: u64,
    calls: &[Call],
    counts: Counts,
    message: &Message,
) -> Result<Counts, OutOfMemory>
    ensures { IfOk result (λ after. after
        ≡ with_message seed calls.now counts (parts_of message.now)) }
{
    match message.reply_serial {
        None => Ok(counts),
        Some(serial) => match call_with(calls, serial) {
            None => Ok(counts),
            Some(call) => with_answer(alloc, seed, counts, serial, message, call),
        },
    }
}

// Counts over all complete messages that the framer has.
fn count_messages<R: AllocGlobal + Wait>(
    rt: &R,
    seed: u64,
    calls: &[Call],
    framer: &mut Framer,
) -> Result<Counts, OutOfMemory>
    requires most { framer.old.most ≡ most_bytes }
    ensures { IfOk result (CountsMessages seed calls.now framer.old.rest) }
{
    let mut counts = Counts::none();
    for _ in rt.forever() {
        let message = match framer.next() {
            Ok(Some(message)) => message,
            Ok(None) => return Ok(counts),
            Err(FrameRefused::Violation(_)) => return Ok(counts),
            Err(FrameRefused::OutOfMemory) => return Err(AllocError),
        };
        counts = with_message(rt.alloc(), seed, calls, counts, &message)?;
    }
    unreachable!()
}

/// What is counted over all that the service wrote to the client of a load with this seed, which sent these calls
/// with serials from 1 on: each complete message after the first line that is read as the reply to one of them
/// (`reply_of`). What follows a violation isn't read.
pub fn count_replies<R: AllocGlobal + Wait>(
    rt: &R,
    seed: u64,
    calls: &[Call],
    written: &[u8],
) -> Result<Counts, OutOfMemory>
    ensures { IfOk result (CountsReplies seed calls.now written.now) }
{
    let mut framer = Framer::new(rt.alloc(), MOST_BYTES);
    framer.feed(behind_line(written))?;
    count_messages(rt, seed, calls, &mut framer)
}
