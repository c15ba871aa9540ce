// From outputs to messages (D-Bus Specification, "Message Format", "Marshaling").
ghost use Rattle.std.specs.Prelude.{◌≡◌, ◌≢◌, IfOk};
ghost use Rattle.secret_calls.specs.Outs.{spelled};

use crate::OutOfMemory;
use secret_calls::{Out, size_of_out};
use std::alloc::Global;

/// The bytes of the output as a message with this serial (D-Bus Specification, "Message Format"):
/// little-endian, with the flag NO_REPLY_EXPECTED, header fields in the order of their codes, and
/// SIGNATURE only if there is a body. There are as many as `size_of_out` returns, and memory for
/// them is taken once.
pub fn message_of(alloc: Global, out: &Out, serial: u32) -> Result<Vec<u8>, OutOfMemory>
    requires { serial ≢ 0 }
    ensures { IfOk result (λ bytes. bytes.items ≡ spelled out.now serial) }
{
    let mut bytes = Vec::with_capacity(alloc, size_of_out(out) as usize)?;
    out.put(serial, &mut bytes)?;
    Ok(bytes)
}
