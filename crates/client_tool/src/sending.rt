// The next step of a script, with its call sent.
ghost use Rattle.std.specs.Prelude.{◌≡◌, ◌≢◌, IsTrue, IfOk, OnOk, IsErrOf, length};
ghost use Rattle.std.specs.Option.{is_some};
ghost use Rattle.client_core.specs.Askable.{IsAskable};
ghost use Rattle.kr_dialer.specs.Carrying.{link_of};
ghost use Rattle.tool_script.specs.Script.{heard, CanBeSent};
ghost use Rattle.client_tool.specs.Talking.{SendsCall, SendsStep, SendsNext};

use crate::status::Stop;
use client_core::{BytesRefused, Reply, bytes_of};
use kr_dialer::{Dialer, send_all};
use kr_outside::Failed;
use secret_calls::Call;
use std::alloc::Global;
use tool_script::{Script, ToolStep};

// Sends the message of a call.
fn send_call<D: Dialer>(alloc: Global, call: &Call, serial: u32, dialer: &mut D) -> Result<(), Stop>
    requires numbered { serial ≢ 0 }
    requires askable { IsAskable call.now }
    requires has_dialled { IsTrue (is_some (D.dialled dialer.old)) }
    ensures { SendsCall call.now serial
        (link_of D.dialled D.left D.written D.faults D.is_steady dialer.old)
        (link_of D.dialled D.left D.written D.faults D.is_steady dialer.new) result }
{
    let message = match bytes_of(alloc, call, serial) {
        Ok(message) => message,
        Err(BytesRefused::TooLarge) => return Err(Stop::TooLarge),
        Err(BytesRefused::OutOfMemory) => return Err(Stop::Memory),
    };
    match send_all(dialer, message.as_slice()) {
        Ok(()) => Ok(()),
        Err(Failed) => Err(Stop::LinkFault),
    }
}

// Sends the message of the call that a step is, if it is one.
fn send_step<D: Dialer>(
    alloc: Global,
    step: &ToolStep,
    serial: u32,
    dialer: &mut D,
) -> Result<(), Stop>
    requires numbered { serial ≢ 0 }
    requires can_be_sent { CanBeSent step.now }
    requires has_dialled { IsTrue (is_some (D.dialled dialer.old)) }
    ensures { SendsStep step.now serial
        (link_of D.dialled D.left D.written D.faults D.is_steady dialer.old)
        (link_of D.dialled D.left D.written D.faults D.is_steady dialer.new) result }
{
    match step {
        ToolStep::Send(call) => send_call(alloc, call, serial, dialer),
        ToolStep::End(_) => Ok(()),
    }
}

/// The next step of the script, after one more reply if there is one. If it is a call, that was sent with this serial.
///
/// Refused with `TooLarge` if the call's message would have more than 1,048,576 bytes, with `LinkFault` if the dialer
/// failed, and with `Memory` if no memory was left.
pub fn send_next<D: Dialer>(
    alloc: Global,
    script: &mut Script,
    reply: Option<Reply>,
    serial: u32,
    dialer: &mut D,
) -> Result<ToolStep, Stop>
    requires numbered { serial ≢ 0 }
    requires has_dialled { IsTrue (is_some (D.dialled dialer.old)) }
    ensures heard { OnOk result (script.new ≡ heard script.old reply) }
    ensures sends { SendsNext
        (heard script.old reply).command (heard script.old reply).replies serial
        (link_of D.dialled D.left D.written D.faults D.is_steady dialer.old)
        (link_of D.dialled D.left D.written D.faults D.is_steady dialer.new) result }
{
    let Ok(step) = script.next(reply) else {
        return Err(Stop::Memory);
    };
    match send_step(alloc, &step, serial, dialer) {
        Ok(()) => Ok(step),
        Err(stop) => Err(stop),
    }
}
