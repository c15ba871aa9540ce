// From messages to what is looked at.
ghost use Rattle.std.specs.Prelude.{◌≡◌, ◌≢◌, IfOk};
ghost use Rattle.bus_framing.specs.Looks.{bare_of, said_of};
ghost use Rattle.dbus_framing.specs.Messages.{parts_of};
ghost use Rattle.dbus_types.specs.ValueViews.{values_of};
ghost use Rattle.bus_views.specs.Views.{AsksFor, BareKindOf, BareView, IsCall, IsView, KindOf, WholeView, answer_to, answer_by, answer_kind, from_bus, number_in};

use crate::names::is_bus;
use crate::signals::signal_of;
use crate::view::{Asked, View};
use bus_framing::{BodyFault, Headed, Heard};
use bus_start::Answer;
use call_arguments::{one_in, word_in};
use call_wire::call_of;
use dbus_types::{Message, Value};
use kr_base::{OutOfMemory, Text};
use secret_calls::{CallFault, Request, Serial};
use sender_board::{Call, Kind, Message as BoardMessage};
use std::alloc::Global;

// The number in a body of one number of type `u`.
fn number_in(body: &[Value]) -> Option<u32>
    ensures { result ≡ number_in (values_of body.now) }
{
    word_in(one_in(body)?)
}

// The answer to the call with this serial, of a return or an error.
fn answer_to(kind: u8, to: u32, number: Option<u32>) -> Option<Answer>
    ensures { result ≡ answer_to kind to number }
{
    match kind {
        2 => Some(Answer {
            to,
            is_error: false,
            number,
        }),
        3 => Some(Answer {
            to,
            is_error: true,
            number: None,
        }),
        _ => None,
    }
}

// The answer that a message of this type is, if it is a return or an error.
fn answer_by(kind: u8, reply_serial: Option<u32>, number: Option<u32>) -> Option<Answer>
    ensures { result ≡ answer_by kind reply_serial number }
{
    match reply_serial {
        Some(to) => answer_to(kind, to, number),
        None => None,
    }
}

// What the board looks at in an answer.
fn answer_kind(answer: Option<Answer>) -> Kind<Asked>
    ensures { result ≡ answer_kind answer }
{
    match answer {
        Some(answer) => Kind::Answer {
            question: answer.to,
            user: answer.number,
        },
        None => Kind::Other,
    }
}

// The answer, if the sender is the bus.
fn from_bus(sender: &Option<Text>, answer: Option<Answer>) -> Option<Answer>
    ensures { result ≡ from_bus sender.now answer }
{
    if is_bus(sender) { answer } else { None }
}

// The call that a message is.
fn call_in(alloc: Global, message: &Message) -> Result<Kind<Asked>, OutOfMemory>
    requires { message.now.kind ≡ 1 }
    ensures { IfOk result (IsCall (parts_of message.now)) }
{
    let request = call_of(alloc, message)?;
    Ok(Kind::Call(Call {
        serial: message.serial,
        wants_reply: message.flags % 2 == 0,
        size: message.length,
        request: Asked::Request(request),
    }))
}

// What the board looks at in a message that is this answer, if it is one.
fn kind_of(
    alloc: Global,
    message: &Message,
    answer: Option<Answer>,
) -> Result<Kind<Asked>, OutOfMemory>
    requires { answer ≡ answer_by message.now.kind message.now.reply_serial
        (number_in (values_of message.now.body.items)) }
    ensures { IfOk result (KindOf (parts_of message.now)) }
{
    if message.kind == 1 {
        return call_in(alloc, message);
    }
    if message.kind == 4 {
        return signal_of(message);
    }
    Ok(answer_kind(answer))
}

// A message with its body.
fn whole(alloc: Global, message: Message) -> Result<View, OutOfMemory>
    ensures { IfOk result (WholeView (parts_of message)) }
{
    let number = number_in(message.body.as_slice());
    let answer = answer_by(message.kind, message.reply_serial, number);
    let kind = kind_of(alloc, &message, answer)?;
    Ok(View {
        size: message.length,
        answer: from_bus(&message.sender, answer),
        message: BoardMessage {
            sender: message.sender,
            kind,
        },
    })
}

// The serial of a message without its body, which isn't 0.
fn serial_of(headed: &Headed) -> u32
    ensures value { result ≡ headed.now.serial }
    ensures some { result ≢ 0 }
{
    headed.serial
}

// What a call without its body asks for.
fn asked_of(headed: &Headed) -> Asked
    ensures { AsksFor headed.now.fault (bare_of headed.now) result }
{
    match headed.fault {
        BodyFault::TooLarge => Asked::TooLarge,
        BodyFault::BadBody => Asked::Request(Request {
            serial: Serial {
                number: serial_of(headed),
            },
            wants_reply: headed.flags % 2 == 0,
            length: headed.length,
            call: Err(CallFault::InvalidArgs),
        }),
    }
}

// What the board looks at in a message without its body.
fn bare_kind(headed: &Headed, answer: Option<Answer>) -> Kind<Asked>
    requires { answer ≡ answer_by headed.now.kind headed.now.reply_serial None }
    ensures { BareKindOf (bare_of headed.now) result }
{
    if headed.kind != 1 {
        return answer_kind(answer);
    }
    Kind::Call(Call {
        serial: headed.serial,
        wants_reply: headed.flags % 2 == 0,
        size: headed.length,
        request: asked_of(headed),
    })
}

// A message without its body.
fn bare(headed: Headed) -> View
    ensures { BareView (bare_of headed) result }
{
    let answer = answer_by(headed.kind, headed.reply_serial, None);
    let kind = bare_kind(&headed, answer);
    View {
        size: headed.length,
        answer: from_bus(&headed.sender, answer),
        message: BoardMessage {
            sender: headed.sender,
            kind,
        },
    }
}

/// What is looked at in a message of the link.
pub fn view_of(alloc: Global, heard: Heard) -> Result<View, OutOfMemory>
    ensures { IfOk result (IsView (said_of heard)) }
{
    match heard {
        Heard::Whole(message) => whole(alloc, message),
        Heard::Headed(headed) => Ok(bare(headed)),
    }
}
