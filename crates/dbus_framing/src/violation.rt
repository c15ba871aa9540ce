ghost use Rattle.std.specs.Prelude.{◌≡◌};
ghost use Rattle.dbus_framing.specs.declared.violation.FrameRefused.TheVariants.{OutOfMemory};

use std::alloc::AllocError;
use thiserror::Error;

/// The rule of messages that bytes break (D-Bus Specification, "Message Format"). It is printed
/// as its name.
#[derive(Clone, Copy, Debug, PartialEq, Eq, Error)]
pub enum Violation {
    /// The first byte isn't a byte order: it is neither `l` nor `B`.
    #[error("Endian")]
    Endian,
    /// The major version isn't 1.
    #[error("Version")]
    Version,
    /// The serial is 0.
    #[error("ZeroSerial")]
    ZeroSerial,
    /// The message is longer than the reader accepts.
    #[error("TooLarge")]
    TooLarge,
    /// The header fields or the padding after them can't be read, or a field is invalid: its code
    /// is 0, or a known field has another type, occurs twice, or doesn't contain a valid path,
    /// name or serial.
    #[error("BadHeader")]
    BadHeader,
    /// A field that messages of this type must have is missing.
    #[error("MissingField")]
    MissingField,
    /// The body isn't the spelling of the types that SIGNATURE lists.
    #[error("BadBody")]
    BadBody,
    /// The message's type is 0.
    #[error("InvalidType")]
    InvalidType,
    /// The input ended inside a message. A framer never returns this: only its caller knows of the end.
    #[error("EndInside")]
    EndInside,
}

/// Why `Framer::next` was refused.
#[derive(Clone, Copy, Debug)]
pub enum FrameRefused {
    /// The bytes break a rule.
    Violation(Violation),
    /// No memory was left.
    OutOfMemory,
}

impl From<AllocError> for FrameRefused {
    ghost from_gives = { λ _ e. e ≡ OutOfMemory };

    fn from(_error: AllocError) -> Self {
        FrameRefused::OutOfMemory
    }
}
