// What is heard on a link.
ghost use Rattle.std.specs.Prelude.{◌≢◌};

use dbus_types::Message;
use kr_base::Text;

/// Why a message has no body.
#[derive(Clone, Copy, Debug, PartialEq, Eq)]
pub enum BodyFault {
    /// The message is too long.
    TooLarge,
    /// The body isn't the spelling of the types that SIGNATURE lists.
    BadBody,
}

/// A message without its body.
#[derive(Drop)]
pub struct Headed {
    /// The type: 1 a call, 2 a return, 3 an error, 4 a signal.
    pub kind: u8,
    /// The flags, unchanged.
    pub flags: u8,
    /// The number that the sender gave the message; it isn't 0.
    pub serial: u32,
    /// REPLY_SERIAL: the serial of the call that this message answers.
    pub reply_serial: Option<u32>,
    /// SENDER.
    pub sender: Option<Text>,
    /// The number of bytes of the whole message.
    pub length: u32,
    /// Why it has no body.
    pub fault: BodyFault,
    ghost numbered: { serial ≢ 0 },
}

/// A message of a link.
#[derive(Drop)]
pub enum Heard {
    /// A message.
    Whole(Message),
    /// A message without its body.
    Headed(Headed),
}
