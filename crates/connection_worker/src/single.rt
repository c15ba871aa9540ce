// One connection on one thread.
ghost use Rattle.std.specs.Prelude.{◌≡◌, IsTrue, IsFalse};
ghost use Rattle.service_desk.specs.service_tables.specs.Sound.{IsSound};
ghost use Rattle.connection_worker.specs.OneThread.{IsServed};
ghost use Rattle.connection_worker.specs.Serving.{world, HasJoined};
ghost use Rattle.connection_worker.specs.Streams.{input_of, output_of};

use crate::ending::End;
use crate::opening::handshake;
use crate::salts::Salts;
use crate::serving::serve;
use dbus_auth::{Auth, State};
use kr_outside::{Clock, Sink, Source};
use service_desk::{ReadDesk, WriteDesk};
use std::alloc::AllocGlobal;
use std::sync::Wait;

/// Serves one connection to its end (D-Bus Specification, "Authentication Protocol" and "Message
/// Format"): the handshake, then each call with its reply before the next one is looked at; at last
/// the connection is gone. The clock is asked once for each call and once for each key that is derived,
/// and one salt is drawn for each call.
///
/// Ends with `AuthRefused` if the bytes show a fault of the handshake, or the input ended before
/// BEGIN (`EndedEarly`); with `Done` if the input ended between two messages; with `Violation` if
/// the bytes after BEGIN break a rule of messages, or the input ended inside one (`EndInside`);
/// with `ReadFault` and `WriteFault` only if the count of the source, or of the sink, rose; with
/// `Overrun` after a call, or its key, whose outputs can't all wait together: those that can are
/// written; with `EventsSpent` if all events that can be counted are recorded; and with `Memory` if no
/// memory was left. It never ends with `OtherEnded`. All that was recorded is answered by then, except
/// at `WriteFault` and `Memory`. No fault of a read is ignored.
pub fn one_thread<R: AllocGlobal + Wait, I: Source, O: Sink, D: ReadDesk + WriteDesk, C: Clock>(
    rt: &R,
    auth: Auth,
    input: &mut I,
    output: &mut O,
    desk: &mut D,
    clock: &mut C,
    salts: &mut Salts,
) -> End
    requires fresh { auth.state ≡ State.WaitingForAuth }
    requires alone { IsTrue (D.told desk.old).is_alone }
    requires joined { HasJoined (D.told desk.old) }
    requires sound { IsSound (D.told desk.old).state }
    requires input_open { IsFalse (I.is_closed input.old) }
    requires output_open { IsFalse (O.is_closed output.old) }
    ensures { IsServed auth.uid auth.guid
        (input_of I.left I.faults I.is_steady I.is_closed input.old)
        (input_of I.left I.faults I.is_steady I.is_closed input.new)
        (output_of O.written O.faults O.is_steady O.is_closed output.old)
        (output_of O.written O.faults O.is_steady O.is_closed output.new)
        (world D.told D.has_seen C.coming desk.old clock.old salts.old)
        (world D.told D.has_seen C.coming desk.new clock.new salts.new) result }
{
    let framer = match handshake(rt, auth, input, output) {
        Ok(framer) => framer,
        Err(end) => {
            desk.gone();
            return end;
        }
    };
    let end = serve(rt, framer, input, output, desk, clock, salts);
    desk.gone();
    end
}
