ghost use Rattle.std.specs.Prelude.{◌≢◌};

use crate::signature::Signature;
use crate::value::Value;
use kr_base::Text;

/// A message (D-Bus Specification, "Message Format"). A field is None if the header has none.
#[derive(Drop)]
pub struct Message {
    /// The type: 1 a call, 2 a return, 3 an error, 4 a signal.
    pub kind: u8,
    /// The flags, unchanged.
    pub flags: u8,
    /// The number that the sender gave the message; it isn't 0.
    pub serial: u32,
    /// PATH: the object of a call or a signal.
    pub path: Option<Text>,
    /// INTERFACE.
    pub interface: Option<Text>,
    /// MEMBER: the method or the signal.
    pub member: Option<Text>,
    /// ERROR_NAME.
    pub error_name: Option<Text>,
    /// REPLY_SERIAL: the serial of the call that this message answers.
    pub reply_serial: Option<u32>,
    /// DESTINATION.
    pub destination: Option<Text>,
    /// SENDER.
    pub sender: Option<Text>,
    /// SIGNATURE: the types of the body. It is empty if the field is missing.
    pub signature: Signature,
    /// The values of the body.
    pub body: Vec<Value>,
    /// The number of bytes of the whole message.
    pub length: u32,
    ghost numbered: { serial ≢ 0 },
}
