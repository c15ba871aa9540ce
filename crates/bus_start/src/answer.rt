// The calls that a link starts with, and their answers.
/// A call that the link starts with. Their serials are 1, 2 and 3, in this order.
#[derive(Clone, Copy, Debug, PartialEq, Eq)]
pub enum Question {
    /// Hello.
    Hello,
    /// AddMatch.
    WatchOwners,
    /// RequestName.
    OwnName,
}

/// An answer of the bus.
#[derive(Clone, Copy)]
pub struct Answer {
    /// The serial of the call that it answers.
    pub to: u32,
    /// Whether it is an error.
    pub is_error: bool,
    /// The number in the body, if it is a return with the signature `u`.
    pub number: Option<u32>,
}

/// Why a link doesn't start.
#[derive(Clone, Copy, Debug, PartialEq, Eq)]
pub enum StartRefused {
    /// The bus answered this call by an error.
    Refused(Question),
    /// The name of the service has another owner.
    NameTaken,
    /// The messages that came before the last answer have more than 16,777,216 bytes.
    Early,
    /// No memory was left.
    OutOfMemory,
}
