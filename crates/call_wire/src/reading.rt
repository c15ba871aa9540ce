// From messages to calls.
ghost use Rattle.std.specs.Prelude.{◌≡◌, ◌≢◌, IfOk};
ghost use Rattle.dbus_framing.specs.Messages.{parts_of};
ghost use Rattle.call_wire.specs.Members.{seen};
ghost use Rattle.call_wire.specs.CallOf.{CallOf, object_of, call_by, lack_of, call_on};

use crate::OutOfMemory;
use crate::interfaces::interface_named;
use crate::members::{Row, call_with, member_called};
use call_arguments::are_listed;
use dbus_types::Message;
use kr_base::Text;
use kr_names::{ObjectName, parse_path};
use secret_calls::{Call, CallFault, Request, Serial};
use std::alloc::Global;

// The object that the path names; None if it isn't a path of the service.
fn object_of(alloc: Global, path: &Option<Text>) -> Result<Option<ObjectName>, OutOfMemory>
    ensures { IfOk result (λ object. object ≡ object_of path.now) }
{
    match path {
        Some(path) => parse_path(alloc, path.as_str()),
        None => Ok(None),
    }
}

// The call of the member, unless the body has other arguments.
fn call_of_member(
    alloc: Global,
    member: &Row,
    object: &Option<ObjectName>,
    message: &Message,
) -> Result<Result<Call, CallFault>, OutOfMemory>
    ensures { IfOk result (λ call.
        call ≡ call_by (seen member.now) object.now (parts_of message.now)) }
{
    if !are_listed(message.signature.types(), member.arguments) {
        return Ok(Err(CallFault::InvalidArgs));
    }
    call_with(alloc, member.method, object, message.body.as_slice())
}

// What a call lacks that means no member.
fn lack(object: &Option<ObjectName>, interface: &Option<Text>) -> CallFault
    ensures { result ≡ lack_of object.now interface.now }
{
    match (object, interface) {
        (None, _) => CallFault::UnknownObject,
        (Some(ObjectName::Nothing), _) => CallFault::UnknownObject,
        (Some(_), None) => CallFault::UnknownMethod,
        (Some(_), Some(name)) => match interface_named(object, name) {
            Some(_) => CallFault::UnknownMethod,
            None => CallFault::UnknownInterface,
        },
    }
}

// The call of the message on the object.
fn call_of_object(
    alloc: Global,
    object: &Option<ObjectName>,
    message: &Message,
) -> Result<Result<Call, CallFault>, OutOfMemory>
    ensures { IfOk result (λ call. call ≡ call_on object.now (parts_of message.now)) }
{
    match member_called(object, &message.interface, &message.member) {
        Some(member) => call_of_member(alloc, &member, object, message),
        None => Ok(Err(lack(object, &message.interface))),
    }
}

// The serial of a message, which isn't 0.
fn serial_of(message: &Message) -> u32
    ensures value { result ≡ message.now.serial }
    ensures some { result ≢ 0 }
{
    message.serial
}

/// The request of a method call (D-Bus Specification, "Message Format"; docs/SERVICE.md,
/// "Interfaces"). It keeps the message's serial and length, and whether a reply is wanted.
///
/// The call has the first of these faults that applies: `UnknownObject` if the path isn't one of the
/// service or is `/`, and the call isn't Ping; `UnknownInterface` if the object doesn't have the
/// interface that the call names; `UnknownMethod` if it doesn't have the method; `InvalidArgs` if the
/// arguments have other types.
pub fn call_of(alloc: Global, message: &Message) -> Result<Request, OutOfMemory>
    requires { message.now.kind ≡ 1 }
    ensures { IfOk result (CallOf (parts_of message.now)) }
{
    let object = object_of(alloc, &message.path)?;
    let call = call_of_object(alloc, &object, message)?;
    Ok(Request {
        serial: Serial {
            number: serial_of(message),
        },
        wants_reply: message.flags % 2 == 0,
        length: message.length,
        call,
    })
}
