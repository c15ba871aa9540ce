// What a line of the server says.
ghost use Rattle.std.specs.Prelude.{◌≡◌, option_copied, position};
ghost use Rattle.std.specs.Char.{is_ascii_hexdigit};
ghost use Rattle.std.specs.List.{list_all};
ghost use Rattle.dbus_auth.specs.Lines.{is_space, word_of, argument_of};
ghost use Rattle.dbus_auth_client.specs.Hearing.{IsLineEnd, guid_of, heard_of};

use crate::client::ClientFault;

/// What a line says to a client that awaits `OK`.
#[derive(Clone, Copy)]
pub enum Heard {
    /// The server asks for the client's argument.
    Asks,
    /// The server accepts the client, and has this GUID.
    Accepts([u8; 32]),
    /// The handshake fails.
    Refuses(ClientFault),
}

/// The position of the first CR LF.
pub fn line_end(bytes: &[u8]) -> Option<usize>
    ensures { IsLineEnd bytes.now result }
{
    for place in 1..bytes.len() {
        if bytes[place - 1] == b'\r' && bytes[place] == b'\n' {
            return Some(place - 1);
        }
    }
    None
}

// The position of the first space.
fn first_space(line: &[u8]) -> Option<usize>
    ensures { result ≡ position is_space line.now }
{
    line.iter().position(|c| *c == b' ')
}

// A line's word and its argument: what is before the first space, and what is after it.
fn split(line: &[u8]) -> (&[u8], Option<&[u8]>)
    ensures word { result.0.now ≡ word_of line.now }
    ensures argument { option_copied result.1 ≡ argument_of line.now }
{
    match first_space(line) {
        Some(place) => (&line[..place], Some(&line[place + 1..])),
        None => (line, None),
    }
}

// Whether each byte is a hex digit, of either case.
fn are_hex_digits(text: &[u8]) -> bool
    ensures { result ≡ list_all is_ascii_hexdigit text.now }
{
    text.iter().all(|c| c.is_ascii_hexdigit())
}

// The GUID, if the text is one: 32 hex digits.
fn guid_of(text: &[u8]) -> Option<[u8; 32]>
    ensures { result ≡ guid_of text.now }
{
    if text.len() != 32 {
        return None;
    }
    if !are_hex_digits(text) {
        return None;
    }
    let mut guid = [0; 32];
    guid.copy_from_slice(text);
    Some(guid)
}

/// What the line says.
#[tactic(auto, unfolding(crate::specs::Hearing::heard_of))]
pub fn what_is_said(asked: bool, line: &[u8]) -> Heard
    ensures { result ≡ heard_of asked line.now }
{
    let (word, argument) = split(line);
    if word == b"OK".as_slice() {
        return match guid_of(argument.unwrap_or(b"".as_slice())) {
            Some(guid) => Heard::Accepts(guid),
            None => Heard::Refuses(ClientFault::BadGuid),
        };
    }
    if word == b"DATA".as_slice() {
        if asked {
            return Heard::Refuses(ClientFault::AskedTwice);
        }
        return Heard::Asks;
    }
    if word == b"REJECTED".as_slice() {
        return Heard::Refuses(ClientFault::Rejected);
    }
    Heard::Refuses(ClientFault::Unexpected)
}
