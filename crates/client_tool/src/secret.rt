// Reading the secret.
ghost use Rattle.std.specs.Prelude.{length, IsFalse, ◌≡◌, ◌≤◌};
ghost use Rattle.client_tool.specs.Streams.{input_of, most_read};
ghost use Rattle.client_tool.specs.Secrets.{ReadsSome, ReadsSecret, most_secret};

use crate::receiving::MOST_READ;
use crate::status::Stop;
use kr_base::Bytes;
use kr_outside::{Failed, Source};
use std::alloc::AllocGlobal;
use std::sync::Wait;

/// The most bytes of a secret.
const MOST_SECRET: usize = 524_288;

// Reads a piece, and appends it. It returns whether there was one, or the input has ended.
fn read_some<I: Source>(input: &mut I, piece: &mut [u8], secret: &mut Vec<u8>) -> Result<bool, Stop>
    requires room { length piece.old ≡ most_read }
    requires input_open { IsFalse (I.is_closed input.old) }
    ensures { ReadsSome secret.old.items secret.new.items
        (input_of I.left I.faults I.is_steady I.is_closed input.old)
        (input_of I.left I.faults I.is_steady I.is_closed input.new) result }
{
    match input.read(&mut *piece) {
        Err(Failed) => Err(Stop::InputFault),
        Ok(0) => Ok(false),
        Ok(count) => match secret.extend_from_slice(&piece[..count]) {
            Ok(()) => Ok(true),
            Err(_) => Err(Stop::Memory),
        },
    }
}

// The same as `read_secret`, with a buffer for a piece.
fn read_all<R: AllocGlobal + Wait, I: Source>(
    rt: &R,
    input: &mut I,
    piece: &mut [u8],
) -> Result<Bytes, Stop>
    requires room { length piece.old ≡ most_read }
    requires input_open { IsFalse (I.is_closed input.old) }
    ensures { ReadsSecret
        (input_of I.left I.faults I.is_steady I.is_closed input.old)
        (input_of I.left I.faults I.is_steady I.is_closed input.new) result }
{
    let mut secret = Vec::new(rt.alloc());
    for _ in rt.forever() {
        let more = match read_some(input, &mut *piece, &mut secret) {
            Ok(more) => more,
            Err(stop) => return Err(stop),
        };
        if !more {
            return Ok(Bytes::new(secret));
        }
        if secret.len() > MOST_SECRET {
            return Err(Stop::TooLarge);
        }
    }
    unreachable!()
}

/// All bytes of the input, read to its end.
///
/// Refused with `InputFault` if the source failed, with `TooLarge` once there are more than 524,288 bytes, and with
/// `Memory` if no memory was left.
pub fn read_secret<R: AllocGlobal + Wait, I: Source>(rt: &R, input: &mut I) -> Result<Bytes, Stop>
    requires input_open { IsFalse (I.is_closed input.old) }
    ensures { ReadsSecret
        (input_of I.left I.faults I.is_steady I.is_closed input.old)
        (input_of I.left I.faults I.is_steady I.is_closed input.new) result }
{
    let Ok(mut piece) = vec![in rt.alloc(); 0; MOST_READ] else {
        return Err(Stop::Memory);
    };
    read_all(rt, input, &mut piece)
}
