// Outputs that were taken are turned into bytes and written.
ghost use Rattle.std.specs.Prelude.{◌≡◌, ◌++◌, IfOk, OnErr, IsErrOf, IsFalse};
ghost use Rattle.connection_worker.specs.Streams.{output_of};
ghost use Rattle.connection_worker.specs.Sending.{Spells, Sends};

use crate::ending::End;
use crate::serials::Serials;
use call_wire::message_of;
use kr_base::OutOfMemory;
use kr_outside::{Failed, Sink, write_all};
use service_desk::secret_calls::Out;
use std::alloc::Global;

// Bytes, and a message after them. The first message isn't copied.
fn joined(bytes: Vec<u8>, message: Vec<u8>) -> Result<Vec<u8>, OutOfMemory>
    ensures { IfOk result (λ all. all.items ≡ bytes.items ++ message.items) }
{
    if bytes.is_empty() {
        return Ok(message);
    }
    let mut all = bytes;
    all.extend_from_slice(message.as_slice())?;
    Ok(all)
}

// The outputs as messages, one after the other.
fn messages_of(alloc: Global, outs: &[Out], serials: &mut Serials) -> Result<Vec<u8>, End>
    ensures spelled { IfOk result (λ bytes.
        Spells outs.now serials.old serials.new bytes.items) }
    ensures memory { OnErr result (IsErrOf result End.Memory) }
{
    let mut bytes = Vec::new(alloc);
    for out in outs {
        let Ok(message) = message_of(alloc, out, serials.next()) else {
            return Err(End::Memory);
        };
        let Ok(all) = joined(bytes, message) else {
            return Err(End::Memory);
        };
        bytes = all;
    }
    Ok(bytes)
}

/// Writes the outputs, with one write if the sink takes everything.
pub fn send<O: Sink>(
    alloc: Global,
    outs: &[Out],
    serials: &mut Serials,
    output: &mut O,
) -> Result<(), End>
    requires output_open { IsFalse (O.is_closed output.old) }
    ensures { Sends outs.now serials.old serials.new
        (output_of O.written O.faults O.is_steady O.is_closed output.old)
        (output_of O.written O.faults O.is_steady O.is_closed output.new) result }
{
    let bytes = match messages_of(alloc, outs, serials) {
        Ok(bytes) => bytes,
        Err(end) => return Err(end),
    };
    match write_all(output, bytes.as_slice()) {
        Ok(()) => Ok(()),
        Err(Failed) => Err(End::WriteFault),
    }
}
