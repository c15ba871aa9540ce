// How the program ends.
ghost use Rattle.std.specs.Prelude.{◌≡◌};
ghost use Rattle.keyring_program.specs.Status.{IsOnlyEnd, status_of, status_of_check, status_of_line, status_of_loop};

use crate::first_line::LineRefused;
use dbus_auth::AuthFault;
use dbus_framing::Violation;
use ring_check::CheckEnd;
use service_hub::connection_worker::End;
use service_hub::daemon::LoopEnd;
use std::fmt;

/// How the program ended. It is displayed as the text that is printed on standard error.
#[derive(Clone, Copy, Debug, PartialEq, Eq)]
pub enum Status {
    /// `stdio`: the input ended between two messages, and every call was answered. `serve`: no further link
    /// comes, or as many as were to be accepted were, and all have ended. `load`: the four lines were written.
    /// `check`: all lines were written, and no file is damaged.
    Done,
    /// The arguments are invalid (docs/DECISIONS.md, "Words of the command line").
    Usage,
    /// The input failed: its count of faults rose. All calls that had arrived completely were answered.
    ReadFault,
    /// The output failed: its count of faults rose. A prefix of the output was written.
    WriteFault,
    /// The folder couldn't be opened, or the folder or one of its files failed while it was loaded or checked.
    FolderFault,
    /// All lines were written, and a file is damaged, or too large to be read.
    Damaged,
    /// A message breaks a rule, or isn't complete at the end (D-Bus Specification, "Message Format").
    Violation(Violation),
    /// The handshake was refused, or ended early (D-Bus Specification, "Authentication Protocol").
    AuthRefused(AuthFault),
    /// No memory was left. A prefix of the output was written.
    Memory,
    /// The socket couldn't be made, or it failed.
    ListenFault,
    /// The service has recorded as many events as it can count (`most_events` of service_machine).
    EventsSpent,
    /// `stdio`: what a call or its key put out has more bytes than may wait for a connection
    /// (docs/SERVICE.md, "Limits"). What could wait was written.
    Overrun,
    /// The first 4,096 bytes of the input, whose first line is the password, have no line feed.
    PasswordTooLong,
}

impl Status {
    ghost use Rattle.keyring_program.specs.Status.{number_of};

    /// The status of a run whose connection, the only one of its service, ended in this way.
    pub fn of_end(end: End) -> Status
        requires { IsOnlyEnd end }
        ensures { result ≡ status_of end }
    {
        match end {
            End::Done => Status::Done,
            End::Violation(cause) => Status::Violation(cause),
            End::AuthRefused(why) => Status::AuthRefused(why),
            End::ReadFault => Status::ReadFault,
            End::WriteFault => Status::WriteFault,
            End::EventsSpent => Status::EventsSpent,
            End::Memory => Status::Memory,
            End::Overrun => Status::Overrun,
            End::OtherEnded => unreachable!(),
        }
    }

    /// The status of a run over whose links the loop ended in this way.
    pub fn of_loop(end: LoopEnd) -> Status
        ensures { result ≡ status_of_loop end }
    {
        match end {
            LoopEnd::Ended | LoopEnd::Reached => Status::Done,
            LoopEnd::ListenFault => Status::ListenFault,
            LoopEnd::Memory => Status::Memory,
        }
    }

    /// The status of a check of a folder that ended in this way.
    pub fn of_check(end: CheckEnd) -> Status
        ensures { result ≡ status_of_check end }
    {
        match end {
            CheckEnd::Done => Status::Done,
            CheckEnd::Damaged => Status::Damaged,
            CheckEnd::FolderFault => Status::FolderFault,
            CheckEnd::WriteFault => Status::WriteFault,
            CheckEnd::Memory => Status::Memory,
        }
    }

    /// The status of a check whose password couldn't be read.
    pub fn of_line(refused: LineRefused) -> Status
        ensures { result ≡ status_of_line refused }
    {
        match refused {
            LineRefused::Failed => Status::ReadFault,
            LineRefused::TooLong => Status::PasswordTooLong,
            LineRefused::OutOfMemory => Status::Memory,
        }
    }

    /// The exit number of the process.
    pub fn number(self) -> u8
        ensures { result ≡ number_of self }
    {
        match self {
            Status::Done => 0,
            Status::Usage => 2,
            Status::ReadFault => 3,
            Status::WriteFault => 4,
            Status::FolderFault => 5,
            Status::Damaged => 6,
            Status::Violation(_) => 7,
            Status::AuthRefused(_) => 8,
            Status::Memory => 9,
            Status::ListenFault => 10,
            Status::EventsSpent => 11,
            Status::PasswordTooLong => 13,
            Status::Overrun => 18,
        }
    }
}

impl fmt::Display for Status {
    fn fmt<W: fmt::Write>(&self, f: &mut fmt::Formatter<W>) -> fmt::Result {
        match self {
            Status::Done => f.write_str("done"),
            Status::Usage => f.write_str(
                "usage: keyringd stdio DIR UID | serve DIR SOCKET --uid U [--connections N] [--until-eof] | load N SEED",
            ),
            Status::ReadFault => f.write_str("input failed"),
            Status::WriteFault => f.write_str("output failed"),
            Status::FolderFault => f.write_str("folder failed"),
            Status::Damaged => f.write_str("damaged keyring"),
            Status::Violation(cause) => write!(f, "bad message: {cause}"),
            Status::AuthRefused(why) => write!(f, "handshake refused: {why}"),
            Status::Memory => f.write_str("out of memory"),
            Status::ListenFault => f.write_str("socket failed"),
            Status::EventsSpent => f.write_str("events spent"),
            Status::Overrun => f.write_str("outputs lost"),
            Status::PasswordTooLong => f.write_str("password too long"),
        }
    }
}
