// The number of bytes of an output when it is sent, by which what waits for a connection is counted.
ghost use Rattle.std.specs.Prelude.{◌≡◌, ℕ, length, min};
ghost use Rattle.secret_calls.specs.Outs.{spelled, spelled_body};

use crate::{Body, Out};
use dbus_marshal::{Counter, size_of_values};

/// The length of a body's spelling (D-Bus Specification, "Marshaling"), or 18,446,744,073,709,551,615
/// if it is longer. It takes no memory.
pub fn body_size(body: &Body) -> u64
    ensures { result ≡ min 18446744073709551615 (length (spelled_body body.now)) }
{
    size_of_values(body)
}

// The length of the output's spelling, counted.
fn counted(out: &Out) -> u64
    ensures { (serial : ℕ) → result ≡ min 18446744073709551615 (length (spelled out.now serial)) }
{
    let mut counter = Counter::new();
    match out.put(1, &mut counter) {
        Ok(()) => {}
        Err(never) => match never {},
    }
    counter.size()
}

/// The length of the output's spelling as a message (D-Bus Specification, "Message Format"), whatever
/// serial it is sent with, or 18,446,744,073,709,551,615 if it is longer. It takes no memory, and one
/// step for a signal.
pub fn size_of_out(out: &Out) -> u64
    ensures { (serial : ℕ) → result ≡ min 18446744073709551615 (length (spelled out.now serial)) }
{
    match out {
        Out::Signal(signal) => signal.size(),
        _ => counted(out),
    }
}
