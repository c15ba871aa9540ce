ghost use Rattle.std.specs.Prelude.{◌≡◌, ◌++◌, codes};
ghost use Rattle.dbus_auth.specs.Answers.{ok_line, data_line, rejected_line, error_line};

use std::marker::Model;

/// One line that the server answers with. A contract sees its bytes, including CR LF at the end.
#[derive(Debug, Drop)]
pub struct Answer {
    reply: Reply,
}

// The four answers. The first keeps its whole line, since it contains the server's GUID.
#[derive(Debug, Drop)]
enum Reply {
    Accepted([u8; 37]),
    Data,
    Rejected,
    Error,
}

impl Model for Answer {
    ghost use Rattle.std.specs.Prelude.{List, ℕ};

    ghost Value = { List ℕ };

    ghost use Rattle.dbus_auth.specs.Replies.{line_of};

    ghost view = { λ answer. line_of answer.reply };
}

impl Answer {
    /// The bytes of the line, with CR LF at the end.
    pub fn bytes(&self) -> &[u8]
        ensures { result.now ≡ self.now }
    {
        match &self.reply {
            Reply::Accepted(line) => line.as_slice(),
            Reply::Data => b"DATA\r\n".as_slice(),
            Reply::Rejected => b"REJECTED EXTERNAL\r\n".as_slice(),
            Reply::Error => b"ERROR\r\n".as_slice(),
        }
    }

    // `OK` with the server's GUID.
    pub(crate) fn ok(guid: &[u8; 32]) -> Answer
        ensures { result ≡ ok_line guid.now }
    {
        let mut line = *b"OK 00000000000000000000000000000000\r\n";
        line[3..35].copy_from_slice(guid);
        Answer {
            reply: Reply::Accepted(line),
        }
    }

    // `DATA`, which asks for the client's argument.
    pub(crate) fn data() -> Answer
        ensures { result ≡ data_line }
    {
        Answer { reply: Reply::Data }
    }

    // `REJECTED` with the only mechanism that the server knows.
    pub(crate) fn rejected() -> Answer
        ensures { result ≡ rejected_line }
    {
        Answer {
            reply: Reply::Rejected,
        }
    }

    // `ERROR`.
    pub(crate) fn error() -> Answer
        ensures { result ≡ error_line }
    {
        Answer {
            reply: Reply::Error,
        }
    }
}
