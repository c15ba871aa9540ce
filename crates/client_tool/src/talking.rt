// The calls of a script over a dialer, and what answers them.
ghost use Rattle.std.specs.Prelude.{◌≡◌, length, IsTrue, [], List, ℕ};
ghost use Rattle.std.specs.Option.{is_some};
ghost use Rattle.dbus_framing.specs.Messages.{parts_of};
ghost use Rattle.client_core.specs.declared.reply.Reply.{Reply};
ghost use Rattle.tool_script.specs.declared.command.Command.{Command};
ghost use Rattle.kr_dialer.specs.Carrying.{LinkState, link_of};
ghost use Rattle.client_tool.specs.Streams.{most_read};
ghost use Rattle.client_tool.specs.Talking.{most_bytes, ReadsReply, Talks, Talking, TakesReply, HasReply, GoesOn, TakesTurn};

use crate::receiving::feed_more;
use crate::sending::send_next;
use crate::status::{BadReply, Stop};
use client_core::{Reply, ReplyFault, reply_of};
use dbus_framing::{FrameRefused, Framer};
use dbus_types::Message;
use kr_dialer::Dialer;
use secret_calls::Call;
use std::alloc::{AllocGlobal, Global};
use std::sync::Wait;
use tool_script::{Script, ScriptEnd, ToolStep};

/// The type of a message that is a signal.
const SIGNAL: u8 = 4;

// What the message is as the reply to this call.
fn read_reply(alloc: Global, message: &Message, call: &Call, serial: u32) -> Result<Reply, Stop>
    ensures { ReadsReply call.now serial (parts_of message.now) result }
{
    match reply_of(alloc, message, call, serial) {
        Ok(reply) => Ok(reply),
        Err(ReplyFault::NotAReply) => Err(Stop::BadReply(BadReply::NotAReply)),
        Err(ReplyFault::WrongShape) => Err(Stop::BadReply(BadReply::WrongShape)),
        Err(ReplyFault::OutOfMemory) => Err(Stop::Memory),
    }
}

// Takes the next message, which is a signal or the reply to this call; or reads more, if no message is complete.
fn take_reply<D: Dialer>(
    alloc: Global,
    framer: &mut Framer,
    call: &Call,
    serial: u32,
    dialer: &mut D,
    piece: &mut [u8],
) -> Result<Option<Reply>, Stop>
    requires most { framer.old.most ≡ most_bytes }
    requires room { length piece.old ≡ most_read }
    requires has_dialled { IsTrue (is_some (D.dialled dialer.old)) }
    ensures dialled { D.dialled dialer.new ≡ D.dialled dialer.old }
    ensures most { framer.new.most ≡ framer.old.most }
    ensures takes { (command : Command) (before : List ℕ) (replies : List Reply) (start : LinkState)
        → Talking command before framer.old.rest call.now serial replies start
        (link_of D.dialled D.left D.written D.faults D.is_steady dialer.old)
        → TakesReply command before framer.new call.now serial replies start
        (link_of D.dialled D.left D.written D.faults D.is_steady dialer.new) result }
{
    let message = match framer.next() {
        Ok(Some(message)) => message,
        Ok(None) => {
            return match feed_more(dialer, piece, framer) {
                Ok(()) => Ok(None),
                Err(stop) => Err(stop),
            };
        }
        Err(FrameRefused::Violation(cause)) => {
            return Err(Stop::BadReply(BadReply::Violation(cause)));
        }
        Err(FrameRefused::OutOfMemory) => return Err(Stop::Memory),
    };
    if message.kind == SIGNAL {
        return Ok(None);
    }
    match read_reply(alloc, &message, call, serial) {
        Ok(reply) => Ok(Some(reply)),
        Err(stop) => Err(stop),
    }
}

// Replaces a value.
fn put<T: Drop>(place: &mut T, value: T)
    ensures { place.new ≡ value }
{
    *place = value;
}

// Goes on to the next call of the script after one more reply, or to its end.
fn go_on<D: Dialer>(
    alloc: Global,
    script: &mut Script,
    reply: Reply,
    call: &mut Call,
    serial: &mut u32,
    dialer: &mut D,
) -> Result<Option<ScriptEnd>, Stop>
    requires has_dialled { IsTrue (is_some (D.dialled dialer.old)) }
    ensures dialled { D.dialled dialer.new ≡ D.dialled dialer.old }
    ensures goes { (before left : List ℕ) (start : LinkState)
        → HasReply script.old.command before left call.old serial.old script.old.replies start
        (link_of D.dialled D.left D.written D.faults D.is_steady dialer.old) reply
        → GoesOn script.old.command script.new before left call.new serial.new start
        (link_of D.dialled D.left D.written D.faults D.is_steady dialer.new) result }
{
    if *serial == u32::MAX {
        return Err(Stop::Memory);
    }
    *serial += 1;
    match send_next(alloc, script, Some(reply), *serial, dialer) {
        Ok(ToolStep::Send(next)) => {
            put(call, next);
            Ok(None)
        }
        Ok(ToolStep::End(end)) => Ok(Some(end)),
        Err(stop) => Err(stop),
    }
}

// One message, or one reading.
fn take_turn<D: Dialer>(
    alloc: Global,
    script: &mut Script,
    framer: &mut Framer,
    call: &mut Call,
    serial: &mut u32,
    dialer: &mut D,
    piece: &mut [u8],
) -> Result<Option<ScriptEnd>, Stop>
    requires most { framer.old.most ≡ most_bytes }
    requires room { length piece.old ≡ most_read }
    requires has_dialled { IsTrue (is_some (D.dialled dialer.old)) }
    ensures dialled { D.dialled dialer.new ≡ D.dialled dialer.old }
    ensures most { framer.new.most ≡ framer.old.most }
    ensures takes { (before : List ℕ) (start : LinkState)
        → Talking script.old.command before framer.old.rest call.old serial.old script.old.replies
        start (link_of D.dialled D.left D.written D.faults D.is_steady dialer.old)
        → TakesTurn script.old.command script.new before framer.new call.new serial.new start
        (link_of D.dialled D.left D.written D.faults D.is_steady dialer.new) result }
{
    match take_reply(alloc, framer, &*call, *serial, dialer, piece) {
        Ok(Some(reply)) => go_on(alloc, script, reply, call, serial, dialer),
        Ok(None) => Ok(None),
        Err(stop) => Err(stop),
    }
}

// Makes the calls after the first, which was sent.
fn talk_on<R: AllocGlobal + Wait, D: Dialer>(
    rt: &R,
    script: &mut Script,
    framer: &mut Framer,
    call: &mut Call,
    dialer: &mut D,
    piece: &mut [u8],
) -> Result<ScriptEnd, Stop>
    requires most { framer.old.most ≡ most_bytes }
    requires room { length piece.old ≡ most_read }
    requires has_dialled { IsTrue (is_some (D.dialled dialer.old)) }
    ensures { (before : List ℕ) (start : LinkState)
        → Talking script.old.command before framer.old.rest call.old 1 script.old.replies start
        (link_of D.dialled D.left D.written D.faults D.is_steady dialer.old)
        → Talks script.old.command before start
        (link_of D.dialled D.left D.written D.faults D.is_steady dialer.new) result }
{
    let mut serial = 1;
    for _ in rt.forever() {
        match take_turn(
            rt.alloc(),
            &mut *script,
            &mut *framer,
            &mut *call,
            &mut serial,
            dialer,
            &mut *piece,
        ) {
            Ok(None) => {}
            Ok(Some(end)) => return Ok(end),
            Err(stop) => return Err(stop),
        }
    }
    unreachable!()
}

/// Makes the calls of the script, each once the one before it is answered, up to the script's end. Signals are skipped.
///
/// Refused with `BadReply` if another message comes than the reply to the call, if the bytes break a rule of messages, or
/// if they end before the reply; with `LinkFault` if the dialer failed; with `TooLarge` if a call is too large; and with
/// `Memory` if no memory was left, or after 4,294,967,295 calls.
pub fn talk<R: AllocGlobal + Wait, D: Dialer>(
    rt: &R,
    script: &mut Script,
    framer: &mut Framer,
    dialer: &mut D,
    piece: &mut [u8],
) -> Result<ScriptEnd, Stop>
    requires begun { script.old.replies ≡ [] }
    requires most { framer.old.most ≡ most_bytes }
    requires room { length piece.old ≡ most_read }
    requires has_dialled { IsTrue (is_some (D.dialled dialer.old)) }
    ensures { Talks script.old.command framer.old.rest
        (link_of D.dialled D.left D.written D.faults D.is_steady dialer.old)
        (link_of D.dialled D.left D.written D.faults D.is_steady dialer.new) result }
{
    match send_next(rt.alloc(), &mut *script, None, 1, dialer) {
        Ok(ToolStep::Send(call)) => {
            let mut call = call;
            talk_on(rt, script, framer, &mut call, dialer, piece)
        }
        Ok(ToolStep::End(end)) => Ok(end),
        Err(stop) => Err(stop),
    }
}
