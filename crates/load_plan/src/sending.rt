// What the client of a load sends (docs/SERVICE.md, "The load").
ghost use Rattle.std.specs.Prelude.{◌≡◌, ◌≢◌, ◌<◌, ◌++◌, length, IfOk, OnOk};
ghost use Rattle.std.specs.List.{AllByRecursion};
ghost use Rattle.client_core.specs.Askable.{IsAskable};
ghost use Rattle.load_plan.specs.Sending.{sent, sent_from, conversation};

use crate::OutOfMemory;
use client_core::{BytesRefused, bytes_of};
use dbus_auth_client::{BEGIN_LINE, opening};
use secret_calls::Call;
use std::alloc::{AllocError, Global};

// Appends the call's message, unless it is too large.
fn add_message(
    alloc: Global,
    bytes: &mut Vec<u8>,
    call: &Call,
    serial: u32,
) -> Result<(), OutOfMemory>
    requires numbered { serial ≢ 0 }
    requires askable { IsAskable call.now }
    ensures { OnOk result (bytes.new.items ≡ bytes.old.items ++ sent call.now serial) }
{
    match bytes_of(alloc, call, serial) {
        Ok(message) => {
            bytes.extend_from_slice(message.as_slice())?;
            Ok(())
        }
        Err(BytesRefused::TooLarge) => Ok(()),
        Err(BytesRefused::OutOfMemory) => Err(AllocError),
    }
}

// Appends the messages of these calls, with serials from 1 on.
fn add_messages(alloc: Global, bytes: &mut Vec<u8>, calls: &[Call]) -> Result<(), OutOfMemory>
    requires few { length calls.now < 4294967295 }
    requires askable { AllByRecursion IsAskable calls.now }
    ensures { OnOk result (bytes.new.items ≡ bytes.old.items ++ sent_from 1 calls.now) }
{
    let mut serial = 1;
    let mut rest = calls;
    while let [call, after @ ..] = rest {
        add_message(alloc, bytes, call, serial)?;
        serial += 1;
        rest = after;
    }
    Ok(())
}

/// All that the client of a load sends: the handshake of this user, for which it awaits no answer, and the
/// messages of the calls, with serials from 1 on. A call whose message would be too large isn't sent.
pub fn conversation(alloc: Global, uid: u32, calls: &[Call]) -> Result<Vec<u8>, OutOfMemory>
    requires few { length calls.now < 4294967295 }
    requires askable { AllByRecursion IsAskable calls.now }
    ensures { IfOk result (λ bytes. bytes.items ≡ conversation uid calls.now) }
{
    let mut bytes = Vec::new(alloc);
    bytes.extend_from_slice(opening(uid).as_slice())?;
    bytes.extend_from_slice(BEGIN_LINE)?;
    add_messages(alloc, &mut bytes, calls)?;
    Ok(bytes)
}
