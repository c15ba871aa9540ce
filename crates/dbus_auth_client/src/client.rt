ghost use Rattle.std.specs.Prelude.{◌≡◌, false};
ghost use Rattle.dbus_auth_client.specs.Hearing.{TurnOf};

use crate::hearing::{Heard, line_end, what_is_said};
use dbus_auth::LINE_LIMIT;
use thiserror::Error;

/// Why the handshake failed.
#[derive(Clone, Copy, Debug, PartialEq, Eq, Error)]
pub enum ClientFault {
    /// The server answered `REJECTED`: it doesn't accept EXTERNAL, or not this user.
    #[error("Rejected")]
    Rejected,
    /// The server answered `OK` without a GUID of 32 hex digits.
    #[error("BadGuid")]
    BadGuid,
    /// The server answered `DATA` a second time.
    #[error("AskedTwice")]
    AskedTwice,
    /// The server answered `ERROR`, or with a word that is no answer to the client's lines.
    #[error("Unexpected")]
    Unexpected,
    /// `LINE_LIMIT` bytes of a line have arrived, and it hasn't ended within them.
    #[error("LineTooLong")]
    LineTooLong,
    /// The input ended before `OK`.
    #[error("EndedEarly")]
    EndedEarly,
}

/// What the first line in some bytes leads to.
#[derive(Clone, Copy)]
pub enum Turn {
    /// It hasn't ended yet.
    Waits,
    /// It has this many bytes, including its ending, and `DATA_LINE` answers it.
    SaysData(usize),
    /// It has this many bytes, including its ending, and is `OK` with the server's GUID.
    /// `BEGIN_LINE` answers it, and messages follow in both directions.
    Begins([u8; 32], usize),
    /// The handshake has failed, and the connection must end.
    Refused(ClientFault),
}

/// The client's half of one handshake, after `opening` was sent.
#[derive(Clone, Copy)]
pub struct Client {
    /// Whether the server has answered `DATA`.
    pub asked: bool,
}

impl Client {
    /// A handshake before the server's first line.
    pub fn new() -> Client
        ensures { result.asked ≡ false }
    {
        Client { asked: false }
    }

    /// What the first line in these bytes leads to. They begin with the first byte after the
    /// lines before.
    ///
    /// Refused with the line's fault: `Rejected`, `BadGuid`, `AskedTwice` or `Unexpected`; and
    /// with `LineTooLong` if `LINE_LIMIT` bytes are there and no line has ended within them.
    pub fn turn(&mut self, bytes: &[u8]) -> Turn
        ensures { TurnOf self.old.asked bytes.now result self.new.asked }
    {
        let Some(end) = line_end(bytes) else {
            if bytes.len() < LINE_LIMIT {
                return Turn::Waits;
            }
            return Turn::Refused(ClientFault::LineTooLong);
        };
        if end + 2 > LINE_LIMIT {
            return Turn::Refused(ClientFault::LineTooLong);
        }
        match what_is_said(self.asked, &bytes[..end]) {
            Heard::Asks => {
                self.asked = true;
                Turn::SaysData(end + 2)
            }
            Heard::Accepts(guid) => Turn::Begins(guid, end + 2),
            Heard::Refuses(fault) => Turn::Refused(fault),
        }
    }
}
