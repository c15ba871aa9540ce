ghost use Rattle.std.specs.Prelude.{◌≡◌};
ghost use Rattle.dbus_auth.specs.Table.{fresh, row, step_of, next_of};

use crate::Answer;
use crate::command::Command;
use std::marker::Model;
use thiserror::Error;

/// The most bytes that a line may have, including CR LF at its end.
pub const LINE_LIMIT: usize = 16_384;

/// The state of a handshake (D-Bus Specification, "Authentication Protocol", "Server states").
#[derive(Clone, Copy, Debug, PartialEq, Eq)]
pub enum State {
    /// The client should name a mechanism.
    WaitingForAuth,
    /// The client has named EXTERNAL, and should send its argument.
    WaitingForData,
    /// The client was answered `OK`, and should begin.
    WaitingForBegin,
}

/// Why a handshake is refused.
#[derive(Clone, Copy, Debug, PartialEq, Eq, Error)]
pub enum AuthFault {
    /// The first byte of the stream isn't zero.
    #[error("NoZero")]
    NoZero,
    /// `LINE_LIMIT` bytes of a line have arrived, and it hasn't ended within them.
    #[error("LineTooLong")]
    LineTooLong,
    /// `BEGIN` came before `OK` was answered.
    #[error("BeginTooSoon")]
    BeginTooSoon,
    /// The input ended before a `BEGIN` line was accepted.
    #[error("EndedEarly")]
    EndedEarly,
}

/// What a line leads to.
#[derive(Drop)]
pub enum Step {
    /// This line is answered, and the handshake continues.
    Say(Answer),
    /// The handshake is done: messages follow.
    Begin,
    /// The handshake is refused, and the connection must end.
    Refused(AuthFault),
}

/// The server's half of one handshake. A contract sees the user id that is awaited, the server's
/// GUID and the state.
#[derive(Drop)]
pub struct Auth {
    uid: u32,
    guid: [u8; 32],
    state: State,
}

impl Model for Auth {
    ghost use Rattle.dbus_auth.specs.Exchange.{Exchange};

    ghost Value = { Exchange };

    ghost view = { λ auth. record { uid = auth.uid; guid = auth.guid; state = auth.state } };
}

impl Auth {
    /// A handshake before its first line. It awaits this user id; `guid` is the server's number as
    /// 32 hex digits.
    pub fn new(uid: u32, guid: [u8; 32]) -> Auth
        ensures { result ≡ fresh uid guid }
    {
        Auth {
            uid,
            guid,
            state: State::WaitingForAuth,
        }
    }

    /// What a line leads to, by its row of the table (D-Bus Specification,
    /// "Authentication Protocol", "Server states"). The line is passed without its CR LF,
    /// and may contain any bytes.
    ///
    /// Refused with `BeginTooSoon` exactly if the line's word is `BEGIN` and the state
    /// isn't `WaitingForBegin`, and with no other fault. The state is unchanged then, and
    /// also at `Begin`.
    pub fn line(&mut self, line: &[u8]) -> Step
        ensures answer { result ≡ step_of self.old line.now }
        ensures next { self.new ≡ next_of self.old line.now }
    {
        let (step, next) = answer_to(&self.guid, self.state, Command::of(self.uid, line));
        self.state = next;
        step
    }
}

// The table: the answer to a command, and the next state.
fn answer_to(guid: &[u8; 32], state: State, command: Command) -> (Step, State)
    ensures answer { result.0 ≡ (row guid.now state command).0 }
    ensures next { result.1 ≡ (row guid.now state command).1 }
{
    use State::{WaitingForAuth, WaitingForBegin, WaitingForData};

    match (state, command) {
        (WaitingForAuth, Command::External) => (Step::Say(Answer::data()), WaitingForData),
        (WaitingForAuth, Command::ExternalAccepted) => {
            (Step::Say(Answer::ok(guid)), WaitingForBegin)
        }
        (WaitingForAuth, Command::OtherAuth | Command::Error) => {
            (Step::Say(Answer::rejected()), WaitingForAuth)
        }
        (WaitingForData, Command::DataAccepted) => (Step::Say(Answer::ok(guid)), WaitingForBegin),
        (WaitingForData, Command::OtherData | Command::Cancel | Command::Error) => {
            (Step::Say(Answer::rejected()), WaitingForAuth)
        }
        (WaitingForBegin, Command::Begin) => (Step::Begin, state),
        // File descriptors are never passed.
        (WaitingForBegin, Command::NegotiateUnixFd) => (Step::Say(Answer::error()), state),
        (WaitingForBegin, Command::Cancel | Command::Error) => {
            (Step::Say(Answer::rejected()), WaitingForAuth)
        }
        (_, Command::Begin) => (Step::Refused(AuthFault::BeginTooSoon), state),
        _ => (Step::Say(Answer::error()), state),
    }
}
