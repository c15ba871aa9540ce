// The client's half of the handshake over a dialer.
ghost use Rattle.std.specs.Prelude.{◌≡◌, IfOk, IfErr, IsTrue};
ghost use Rattle.std.specs.Option.{is_some};
ghost use Rattle.dbus_framing.specs.Framers.{just_fed};
ghost use Rattle.kr_dialer.specs.Carrying.{link_of};
ghost use Rattle.client_tool.specs.Talking.{most_bytes};
ghost use Rattle.client_tool.specs.Greeting.{Greets, stopped_by};

use crate::status::{BadReply, Stop};
use dbus_framing::Framer;
use dbus_opening::{OpenRefused, open_link};
use kr_base::Bytes;
use kr_dialer::Dialer;
use std::alloc::{AllocGlobal, Global};
use std::sync::Wait;

/// The most bytes of a message that is read (D-Bus Specification, "Message Format").
const MOST_BYTES: u32 = 134_217_728;

// A framer to which these bytes were fed.
fn framer_over(alloc: Global, bytes: &Bytes) -> Result<Framer, Stop>
    ensures fed { IfOk result (λ framer. framer ≡ just_fed most_bytes bytes.now) }
    ensures memory { IfErr result (λ stop. stop ≡ Stop.Memory) }
{
    let mut framer = Framer::new(alloc, MOST_BYTES);
    match framer.feed(bytes.as_slice()) {
        Ok(()) => Ok(framer),
        Err(_) => Err(Stop::Memory),
    }
}

// Why the tool stops at a handshake that was refused.
fn stopped_by(refused: OpenRefused) -> Stop
    ensures { result ≡ stopped_by refused }
{
    match refused {
        OpenRefused::Handshake(fault) => Stop::BadReply(BadReply::Handshake(fault)),
        OpenRefused::ReadFault | OpenRefused::WriteFault => Stop::LinkFault,
        OpenRefused::OutOfMemory => Stop::Memory,
    }
}

/// The client's half of the handshake: sends its opening, and answers each line of the server. What was read after the
/// server's `OK` is in the framer.
///
/// Refused with `BadReply` if the server answers otherwise, or its input ends before that; with `LinkFault` if the
/// dialer failed; and with `Memory` if no memory was left.
pub fn greet<R: AllocGlobal + Wait, D: Dialer>(
    rt: &R,
    uid: u32,
    dialer: &mut D,
) -> Result<Framer, Stop>
    requires has_dialled { IsTrue (is_some (D.dialled dialer.old)) }
    ensures { Greets uid
        (link_of D.dialled D.left D.written D.faults D.is_steady dialer.old)
        (link_of D.dialled D.left D.written D.faults D.is_steady dialer.new) result }
{
    match open_link(rt, uid, dialer) {
        Ok(rest) => framer_over(rt.alloc(), &rest),
        Err(refused) => Err(stopped_by(refused)),
    }
}
