// What answers a call (D-Bus Specification, "Message Format"; Secret Service API draft 0.2).
ghost use Rattle.std.specs.Prelude.{◌≡◌, Ok, Err, IfOk, IsErrOf};
ghost use Rattle.dbus_framing.specs.Messages.{parts_of};
ghost use Rattle.client_core.specs.declared.reply.ReplyFault.TheVariants.{OutOfMemory};
ghost use Rattle.client_core.specs.Replies.{shape_of, shape_in, answers, reply_in};

use crate::bodies::body_in;
use dbus_types::Message;
use kr_base::Text;
use secret_calls::{Body, Call};
use std::alloc::{AllocError, Global};

/// What a call returns, with one variant for each signature.
#[derive(Clone, Copy, Debug, PartialEq, Eq)]
pub enum Shape {
    /// Nothing.
    Empty,
    /// `vo`: the output of `plain`, and a session.
    Session,
    /// `aoao`: unlocked items, and locked ones.
    Found,
    /// `aoo`: objects, and a prompt.
    ObjectsAndPrompt,
    /// `ao`: objects.
    Objects,
    /// `oo`: an object, and a prompt.
    ObjectAndPrompt,
    /// `o`: an object.
    Object,
    /// `(oayays)`: a secret.
    Secret,
    /// `a{o(oayays)}`: items with their secrets.
    Secrets,
    /// `v`: the value of a property.
    Property,
    /// `a{sv}`: properties with their values.
    Properties,
}

/// The answer to a call.
#[derive(Drop)]
pub enum Reply {
    /// The call returned these values.
    Return(Body),
    /// The call failed with the error of this name.
    Error(Text),
}

/// Why a message isn't read as the answer to a call.
#[derive(Clone, Copy, Debug, PartialEq, Eq)]
pub enum ReplyFault {
    /// It is neither a METHOD_RETURN nor an ERROR, or it answers another call.
    NotAReply,
    /// It is a METHOD_RETURN whose body isn't one that the call returns.
    WrongShape,
    /// No memory was left.
    OutOfMemory,
}

impl From<AllocError> for ReplyFault {
    ghost from_gives = { λ _ e. e ≡ OutOfMemory };

    fn from(_error: AllocError) -> Self {
        ReplyFault::OutOfMemory
    }
}

/// The shape of what the call returns (docs/SERVICE.md, "Interfaces").
pub fn shape_of(call: &Call) -> Shape
    ensures { result ≡ shape_of call.now }
{
    match call {
        Call::Ping => Shape::Empty,
        Call::OpenSession { .. } => Shape::Session,
        Call::CloseSession { .. } => Shape::Empty,
        Call::CreateCollection { .. } => Shape::ObjectAndPrompt,
        Call::SearchItems { .. } => Shape::Found,
        Call::Unlock { .. } => Shape::ObjectsAndPrompt,
        Call::Lock { .. } => Shape::ObjectsAndPrompt,
        Call::GetSecrets { .. } => Shape::Secrets,
        Call::ReadAlias { .. } => Shape::Object,
        Call::SetAlias { .. } => Shape::Empty,
        Call::SearchCollection { .. } => Shape::Objects,
        Call::CreateItem { .. } => Shape::ObjectAndPrompt,
        Call::DeleteCollection { .. } => Shape::Object,
        Call::ChangePassword { .. } => Shape::Object,
        Call::DeleteItem { .. } => Shape::Object,
        Call::GetSecret { .. } => Shape::Secret,
        Call::SetSecret { .. } => Shape::Empty,
        Call::Get { .. } => Shape::Property,
        Call::GetAll { .. } => Shape::Properties,
        Call::SetCollectionLabel { .. } => Shape::Empty,
        Call::SetItemLabel { .. } => Shape::Empty,
        Call::SetAttributes { .. } => Shape::Empty,
        Call::Prompt { .. } => Shape::Empty,
        Call::Dismiss { .. } => Shape::Empty,
        Call::Register => Shape::Empty,
        Call::Unregister => Shape::Empty,
        Call::Answer { .. } => Shape::Empty,
        Call::Refuse { .. } => Shape::Empty,
    }
}

// Whether a message with this reply serial answers the call with this serial.
fn answers(serial: u32, number: Option<u32>) -> bool
    ensures { result ≡ answers serial number }
{
    match number {
        Some(number) => number == serial,
        None => false,
    }
}

// The answer, or why the message isn't read as one.
fn read(
    alloc: Global,
    message: &Message,
    shape: Shape,
    serial: u32,
) -> Result<Result<Reply, ReplyFault>, AllocError>
    ensures { IfOk result (λ answer. answer ≡ reply_in shape serial (parts_of message.now)) }
{
    if !answers(serial, message.reply_serial) {
        return Ok(Err(ReplyFault::NotAReply));
    }
    if message.kind == 2 {
        return match body_in(alloc, shape, message.body.as_slice())? {
            Some(body) => Ok(Ok(Reply::Return(body))),
            None => Ok(Err(ReplyFault::WrongShape)),
        };
    }
    if message.kind != 3 {
        return Ok(Err(ReplyFault::NotAReply));
    }
    match &message.error_name {
        Some(name) => Ok(Ok(Reply::Error(name.copy()?))),
        None => Ok(Err(ReplyFault::NotAReply)),
    }
}

/// What the message answers to the call that was sent with this serial: what the call returns, or the
/// name of its error. By `what_the_service_sends_is_read_again` it is what the service sent.
///
/// Refused with `NotAReply` exactly if the message is neither a METHOD_RETURN nor an ERROR, or answers
/// another serial; and with `WrongShape` exactly if it is a return with values that the call doesn't
/// return, unless no memory was left.
pub fn reply_of(
    alloc: Global,
    message: &Message,
    call: &Call,
    serial: u32,
) -> Result<Reply, ReplyFault>
    ensures reply { IfOk result (λ reply.
        reply_in (shape_of call.now) serial (parts_of message.now) ≡ Ok reply) }
    ensures not_a_reply { IsErrOf result ReplyFault.NotAReply
        → reply_in (shape_of call.now) serial (parts_of message.now) ≡ Err ReplyFault.NotAReply }
    ensures wrong_shape { IsErrOf result ReplyFault.WrongShape
        → reply_in (shape_of call.now) serial (parts_of message.now) ≡ Err ReplyFault.WrongShape }
{
    read(alloc, message, shape_of(call), serial)?
}
