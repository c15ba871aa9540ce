// The lines of a handshake, as far as they are in some bytes.
ghost use Rattle.std.specs.Prelude.{◌≡◌, ◌+◌, ◌<◌, ◌≤◌, ℕ, length, IsFalse};
ghost use Rattle.connection_worker.specs.Lines.{IsLineEnd, LineOf, TurnOf};
ghost use Rattle.connection_worker.specs.Streams.{output_of};

use dbus_auth::{Answer, Auth, AuthFault, LINE_LIMIT, Step};
use kr_outside::{Failed, Sink, write_all};

/// What the first line leads to.
#[derive(Drop)]
pub enum Line {
    /// It hasn't ended yet.
    Unfinished,
    /// It has this many bytes, including its ending, and is answered.
    Answered(Answer, usize),
    /// It has this many bytes, including its ending, and opens the connection.
    Begins(usize),
    /// The handshake is refused.
    Refused(AuthFault),
}

/// What all lines that have ended lead to.
#[derive(Clone, Copy, PartialEq, Eq)]
pub enum Turn {
    /// They have this many bytes; more are awaited.
    Waits(usize),
    /// They have this many bytes; messages follow.
    Begins(usize),
    /// The handshake is refused.
    Refused(AuthFault),
}

// The position of the first CR LF.
fn line_end(bytes: &[u8]) -> Option<usize>
    ensures { IsLineEnd bytes.now result }
{
    for place in 1..bytes.len() {
        if bytes[place - 1] == b'\r' && bytes[place] == b'\n' {
            return Some(place - 1);
        }
    }
    None
}

// What the first line leads to, by its row of the table.
fn first_line(auth: &mut Auth, bytes: &[u8]) -> Line
    ensures { LineOf auth.old bytes.now result auth.new }
{
    let Some(end) = line_end(bytes) else {
        if bytes.len() < LINE_LIMIT {
            return Line::Unfinished;
        }
        return Line::Refused(AuthFault::LineTooLong);
    };
    if end + 2 > LINE_LIMIT {
        return Line::Refused(AuthFault::LineTooLong);
    }
    match auth.line(&bytes[..end]) {
        Step::Say(answer) => Line::Answered(answer, end + 2),
        Step::Begin => Line::Begins(end + 2),
        Step::Refused(fault) => Line::Refused(fault),
    }
}

/// Answers all lines that have ended, each before the next one is looked at.
///
/// Refused with `Failed` if the sink fails.
pub fn answer_lines<O: Sink>(auth: &mut Auth, output: &mut O, bytes: &[u8]) -> Result<Turn, Failed>
    requires output_open { IsFalse (O.is_closed output.old) }
    ensures { TurnOf auth.old bytes.now
        (output_of O.written O.faults O.is_steady O.is_closed output.old)
        (output_of O.written O.faults O.is_steady O.is_closed output.new) result auth.new }
{
    let mut taken = 0;
    'lines: loop {
        let (_, rest) = bytes.split_at(taken);
        match first_line(auth, rest) {
            Line::Unfinished => return Ok(Turn::Waits(taken)),
            Line::Answered(answer, size) => {
                if let Err(Failed) = write_all(output, answer.bytes()) {
                    return Err(Failed);
                }
                taken += size;
            }
            Line::Begins(size) => return Ok(Turn::Begins(taken + size)),
            Line::Refused(fault) => return Ok(Turn::Refused(fault)),
        }
    }
}
