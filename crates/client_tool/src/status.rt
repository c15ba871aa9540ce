// How a run of the tool ends.
ghost use Rattle.std.specs.Prelude.{◌≡◌};
ghost use Rattle.client_tool.specs.Status.{number_of, status_of, stopped_with};

use dbus_auth_client::ClientFault;
use dbus_framing::Violation;
use kr_base::Text;
use tool_script::ScriptStatus;

/// What was wrong with what the service sent.
#[derive(Clone, Copy, Debug, PartialEq, Eq)]
pub enum BadReply {
    /// The handshake had another answer than `OK`, or none.
    Handshake(ClientFault),
    /// The bytes break this rule of messages.
    Violation(Violation),
    /// The input ended before the reply.
    Ended,
    /// A message is neither a signal nor the reply to the call.
    NotAReply,
    /// A return has values of other types than those of the call.
    WrongShape,
    /// A return has other values than the call returns from a service that needs no prompt.
    OtherValues,
}

/// How a run of the tool ended.
#[derive(Drop)]
pub enum ToolStatus {
    /// All was done, and all is printed.
    Done,
    /// `lookup` found nothing.
    NotFound,
    /// The words are no command line of the tool.
    Usage,
    /// The socket couldn't be dialled, read or written.
    LinkFault,
    /// What was to be printed couldn't be written.
    OutputFault,
    /// A call was answered by the error of this name.
    Refused(Text),
    /// What the service sent is no reply to the call.
    BadReply(BadReply),
    /// `lookup` found only items of locked collections.
    Locked,
    /// The secret couldn't be read.
    InputFault,
    /// No memory was left, or as many calls were made as have numbers of 32 bits.
    Memory,
    /// The secret has more than 524,288 bytes, or a call would have more than 1,048,576.
    TooLarge,
}

/// Why a run stops before the end of its script.
#[derive(Clone, Copy, Debug, PartialEq, Eq)]
pub enum Stop {
    /// The secret couldn't be read.
    InputFault,
    /// The socket couldn't be dialled, read or written.
    LinkFault,
    /// What the service sent is no reply to the call.
    BadReply(BadReply),
    /// No memory was left, or as many calls were made as have numbers of 32 bits.
    Memory,
    /// The secret has more than 524,288 bytes, or a call would have more than 1,048,576.
    TooLarge,
}

impl ToolStatus {
    /// The exit status of a process that ends so (docs/secret_tool.1).
    pub fn number(&self) -> u8
        ensures { result ≡ number_of self.now }
    {
        match self {
            ToolStatus::Done => 0,
            ToolStatus::NotFound => 1,
            ToolStatus::Usage => 2,
            ToolStatus::LinkFault => 3,
            ToolStatus::OutputFault => 4,
            ToolStatus::Refused(_) => 5,
            ToolStatus::BadReply(_) => 6,
            ToolStatus::Locked => 7,
            ToolStatus::InputFault => 8,
            ToolStatus::Memory => 9,
            ToolStatus::TooLarge => 10,
        }
    }
}

/// The status of a run whose script ended so.
pub fn status_of(status: ScriptStatus) -> ToolStatus
    ensures { result ≡ status_of status }
{
    match status {
        ScriptStatus::Done => ToolStatus::Done,
        ScriptStatus::NotFound => ToolStatus::NotFound,
        ScriptStatus::Locked => ToolStatus::Locked,
        ScriptStatus::Refused(name) => ToolStatus::Refused(name),
        ScriptStatus::BadReply => ToolStatus::BadReply(BadReply::OtherValues),
    }
}

/// The status of a run that stopped so.
pub fn stopped_with(stop: Stop) -> ToolStatus
    ensures { result ≡ stopped_with stop }
{
    match stop {
        Stop::InputFault => ToolStatus::InputFault,
        Stop::LinkFault => ToolStatus::LinkFault,
        Stop::BadReply(cause) => ToolStatus::BadReply(cause),
        Stop::Memory => ToolStatus::Memory,
        Stop::TooLarge => ToolStatus::TooLarge,
    }
}
