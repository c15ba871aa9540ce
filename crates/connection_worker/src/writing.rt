// The writer of a connection.
ghost use Rattle.std.specs.Prelude.{IsTrue, IsFalse};
ghost use Rattle.service_desk.specs.Places.{place};
ghost use Rattle.connection_worker.specs.Streams.{output_of};
ghost use Rattle.connection_worker.specs.Writing.{WritesNext, WritesOn, WriterEnds};

use crate::ending::End;
use crate::outs::send;
use crate::serials::Serials;
use kr_outside::Sink;
use service_desk::WriteDesk;
use service_desk::secret_calls::Taken;
use std::alloc::{AllocGlobal, Global};
use std::sync::Wait;

// Takes what waits, and writes it. It is refused with the end that follows if nothing can be written.
fn write_next<O: Sink, D: WriteDesk>(
    alloc: Global,
    output: &mut O,
    desk: &mut D,
    serials: &mut Serials,
) -> Result<(), End>
    requires waiting { IsTrue (D.told desk.old).is_waiting }
    requires output_open { IsFalse (O.is_closed output.old) }
    ensures { WritesNext (place D.told D.has_seen desk.old) (place D.told D.has_seen desk.new)
        serials.old serials.new
        (output_of O.written O.faults O.is_steady O.is_closed output.old)
        (output_of O.written O.faults O.is_steady O.is_closed output.new) result }
{
    match desk.take() {
        Taken::Outs(outs) => send(alloc, outs.as_slice(), serials, output),
        Taken::Closed => Err(End::Done),
        Taken::Missing => Err(End::OtherEnded),
        Taken::Overrun => Err(End::Overrun),
        Taken::Empty => unreachable!(),
    }
}

// Takes and writes until there is nothing more to write.
fn write_on<R: AllocGlobal + Wait, O: Sink, D: WriteDesk>(
    rt: &R,
    output: &mut O,
    desk: &mut D,
) -> End
    requires waiting { IsTrue (D.told desk.old).is_waiting }
    requires output_open { IsFalse (O.is_closed output.old) }
    ensures { WritesOn
        (output_of O.written O.faults O.is_steady O.is_closed output.old)
        (output_of O.written O.faults O.is_steady O.is_closed output.new)
        (place D.told D.has_seen desk.old) (place D.told D.has_seen desk.new) result }
{
    let mut serials = Serials::new();
    for _ in rt.forever() {
        if let Err(end) = write_next(rt.alloc(), output, desk, &mut serials) {
            return end;
        }
    }
    unreachable!()
}

/// The writer of a connection: takes the outputs that wait, and writes them before it takes more,
/// with the serials from the first one on.
///
/// Ends with `Done` if nothing waits, nothing was lost and the connection is leaving; with
/// `OtherEnded` if the connection isn't there; with `Overrun` if nothing waits and an output was
/// lost because too many were waiting; with `WriteFault` only if the count of the sink rose; and
/// with `Memory` if no memory was left. All that was taken is written by then, except at
/// `WriteFault` and `Memory`. The connection is gone after each end.
pub fn write_side<R: AllocGlobal + Wait, O: Sink, D: WriteDesk>(
    rt: &R,
    output: &mut O,
    desk: &mut D,
) -> End
    requires waiting { IsTrue (D.told desk.old).is_waiting }
    requires output_open { IsFalse (O.is_closed output.old) }
    ensures { WriterEnds
        (output_of O.written O.faults O.is_steady O.is_closed output.old)
        (output_of O.written O.faults O.is_steady O.is_closed output.new)
        (place D.told D.has_seen desk.old) (place D.told D.has_seen desk.new) result }
{
    let end = write_on(rt, output, desk);
    match end {
        End::Done | End::OtherEnded => {}
        _ => desk.gone(),
    }
    end
}
