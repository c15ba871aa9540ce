// From calls to bytes (D-Bus Specification, "Message Format").
ghost use Rattle.std.specs.Prelude.{◌≡◌, ◌≢◌, ◌<◌, ◌≤◌, ℕ, List, length, min, IfOk, IsErrOf};
ghost use Rattle.client_core.specs.declared.bytes.BytesRefused.TheVariants.{OutOfMemory};
ghost use Rattle.dbus_sending.specs.Sent.{spelled_message};
ghost use Rattle.client_core.specs.Askable.{IsAskable};
ghost use Rattle.client_core.specs.Asked.{sent_with, spelled, most_bytes};

use crate::OutOfMemory;
use crate::arguments::{Asking, signature_of};
use crate::asking::{header_of, paths_among, target_of};
use dbus_marshal::Counter;
use dbus_sending::put_message;
use kr_base::Text;
use secret_calls::Call;
use std::alloc::{AllocError, Global};

/// The most bytes of a message that the service reads.
pub const MOST_BYTES: u64 = 1_048_576;

/// Why a call has no bytes.
#[derive(Clone, Copy, Debug, PartialEq, Eq)]
pub enum BytesRefused {
    /// Its message would have more than 1,048,576 bytes.
    TooLarge,
    /// No memory was left.
    OutOfMemory,
}

impl From<AllocError> for BytesRefused {
    ghost from_gives = { λ _ e. e ≡ OutOfMemory };

    fn from(_error: AllocError) -> Self {
        BytesRefused::OutOfMemory
    }
}

// The number of bytes of the call's message. It takes no memory.
fn size_of(call: &Call, path: &Text, paths: &[Text], serial: u32) -> u64
    ensures { result ≡ min 18446744073709551615
        (length (spelled_message (sent_with call.now path.now paths.now serial))) }
{
    let header = header_of(call, path, serial);
    let mut counter = Counter::new();
    match put_message(
        &mut counter,
        &header,
        signature_of(call),
        &Asking { call, paths },
    ) {
        Ok(()) => {}
        Err(never) => match never {},
    }
    counter.size()
}

// The bytes of the call's message, this many.
fn written(
    alloc: Global,
    call: &Call,
    path: &Text,
    paths: &[Text],
    serial: u32,
    size: usize,
) -> Result<Vec<u8>, OutOfMemory>
    ensures { IfOk result (λ bytes. bytes.items
        ≡ spelled_message (sent_with call.now path.now paths.now serial)) }
{
    let header = header_of(call, path, serial);
    let mut bytes = Vec::with_capacity(alloc, size)?;
    put_message(
        &mut bytes,
        &header,
        signature_of(call),
        &Asking { call, paths },
    )?;
    Ok(bytes)
}

/// The bytes of the call as a message with this serial (D-Bus Specification, "Message Format"):
/// little-endian, a METHOD_CALL that wants a reply, with PATH, INTERFACE and MEMBER, and SIGNATURE
/// only if the call has arguments. By `a_call_is_read_again` the service reads them as this call.
///
/// Refused with `TooLarge` exactly if there would be more than `MOST_BYTES` bytes.
pub fn bytes_of(alloc: Global, call: &Call, serial: u32) -> Result<Vec<u8>, BytesRefused>
    requires numbered { serial ≢ 0 }
    requires askable { IsAskable call.now }
    ensures bytes { IfOk result (λ bytes. bytes.items ≡ spelled call.now serial) }
    ensures fits { IfOk result (λ bytes. length (spelled call.now serial) ≤ most_bytes) }
    ensures too_large { IsErrOf result BytesRefused.TooLarge
        → most_bytes < length (spelled call.now serial) }
{
    let path = target_of(alloc, call)?;
    let paths = paths_among(alloc, call)?;
    let size = size_of(call, &path, paths.as_slice(), serial);
    if size > MOST_BYTES {
        return Err(BytesRefused::TooLarge);
    }
    let bytes = written(alloc, call, &path, paths.as_slice(), serial, size as usize)?;
    Ok(bytes)
}
