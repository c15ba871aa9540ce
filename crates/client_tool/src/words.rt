// The words of a command line of the tool: `SOCKET UID COMMAND`.
ghost use Rattle.std.specs.Prelude.{◌≡◌, MatchOption};
ghost use Rattle.command_words.specs.Numbers.{IsNumber, IsNoNumber};
ghost use Rattle.client_tool.specs.Lines.{IsLine, HasNoUser, stores};

use itoa::Buffer;
use kr_base::Text;

/// A command line.
#[derive(Clone, Copy)]
pub struct Line<'a> {
    /// The path of the socket.
    pub path: &'a Text,
    /// The user that the handshake names.
    pub uid: u32,
    /// The words of the command.
    pub command: &'a [Text],
}

// The number of 64 bits that the text spells in decimal digits, without a sign or a leading zero.
fn number_of(text: &str) -> Option<u64>
    ensures { MatchOption result (IsNoNumber 64 text.now) (λ number. IsNumber 64 number text.now) }
{
    match text.parse::<u64>() {
        Ok(number) => {
            let mut buffer = Buffer::new();
            if buffer.format(number) == text {
                Some(number)
            } else {
                None
            }
        }
        Err(_) => None,
    }
}

// The same of 32 bits.
fn uid_of(text: &str) -> Option<u32>
    ensures { MatchOption result (IsNoNumber 32 text.now) (λ number. IsNumber 32 number text.now) }
{
    let Some(number) = number_of(text) else {
        return None;
    };
    match u32::try_from(number) {
        Ok(short) => Some(short),
        Err(_) => None,
    }
}

/// The command line that the words are, whatever its command's words say. None if they begin with no path and user.
pub fn line_of(words: &[Text]) -> Option<Line<'_>>
    ensures { MatchOption result
        (HasNoUser words.now)
        (λ line. IsLine words.now line.path.now line.uid line.command.now) }
{
    let [path, user, command @ ..] = words else {
        return None;
    };
    match uid_of(user.as_str()) {
        Some(uid) => Some(Line { path, uid, command }),
        None => None,
    }
}

/// Whether the command is `store`, the only one that reads a secret.
pub fn stores(command: &[Text]) -> bool
    ensures { result ≡ stores command.now }
{
    match command {
        [] => false,
        [word, ..] => word.as_str() == "store",
    }
}
