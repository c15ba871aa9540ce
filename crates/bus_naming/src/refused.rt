// Why a link doesn't own the name.
ghost use Rattle.std.specs.Prelude.{◌≡◌};
ghost use Rattle.bus_naming.specs.Naming.{end_for, end_of, fault_of};

use crate::feeding::FeedRefused;
use bus_start::{Question, StartRefused};
use dbus_framing::{FrameRefused, Violation};

/// Why a link doesn't own the name of the service.
#[derive(Clone, Copy, Debug, PartialEq, Eq)]
pub enum NamingRefused {
    /// The bus answered this call by an error.
    Refused(Question),
    /// The name has another owner.
    NameTaken,
    /// The messages that came before the last answer have too many bytes.
    Early,
    /// The input ended before the last answer.
    EndedEarly,
    /// The input isn't a stream of messages.
    Violation(Violation),
    /// The link failed at a read.
    ReadFault,
    /// The link failed at a write.
    WriteFault,
    /// No memory was left.
    OutOfMemory,
}

/// The refusal of a link that doesn't start.
pub fn end_of(refused: StartRefused) -> NamingRefused
    ensures { result ≡ end_of refused }
{
    match refused {
        StartRefused::Refused(question) => NamingRefused::Refused(question),
        StartRefused::NameTaken => NamingRefused::NameTaken,
        StartRefused::Early => NamingRefused::Early,
        StartRefused::OutOfMemory => NamingRefused::OutOfMemory,
    }
}

/// The refusal of a link whose bytes can't be read as messages.
pub fn end_for(refused: FrameRefused) -> NamingRefused
    ensures { result ≡ end_for refused }
{
    match refused {
        FrameRefused::Violation(cause) => NamingRefused::Violation(cause),
        FrameRefused::OutOfMemory => NamingRefused::OutOfMemory,
    }
}

/// The refusal of a link of which no more was fed.
pub fn fault_of(refused: FeedRefused) -> NamingRefused
    ensures { result ≡ fault_of refused }
{
    match refused {
        FeedRefused::Failed => NamingRefused::ReadFault,
        FeedRefused::OutOfMemory => NamingRefused::OutOfMemory,
    }
}
