ghost use Rattle.std.specs.Prelude.{◌≡◌, ◌≤◌, length, option_copied, position};
ghost use Rattle.dbus_auth.specs.Lines.{is_space, word_of, argument_of};
ghost use Rattle.dbus_auth.specs.Commands.{is_hex_of, is_accepted, auth_of, data_of, command_of};

use itoa::Buffer;

// What a line asks for, as far as the table of the handshake distinguishes lines.
#[derive(Clone, Copy)]
pub(crate) enum Command {
    // `AUTH EXTERNAL` without an argument.
    External,
    // `AUTH EXTERNAL` with an argument that is accepted.
    ExternalAccepted,
    // Any other line with the word `AUTH`.
    OtherAuth,
    // `DATA` with an argument that is accepted.
    DataAccepted,
    // Any other line with the word `DATA`.
    OtherData,
    // `CANCEL`.
    Cancel,
    // `ERROR`.
    Error,
    // `BEGIN`.
    Begin,
    // `NEGOTIATE_UNIX_FD`.
    NegotiateUnixFd,
    // A line with any other word, including the empty one.
    Unknown,
}

impl Command {
    // What the line asks for, if the server awaits this user id.
    #[tactic(auto, unfolding(crate::specs::Commands::command_of))]
    pub(crate) fn of(uid: u32, line: &[u8]) -> Command
        ensures { result ≡ command_of uid line.now }
    {
        let (word, argument) = split(line);
        if word == b"AUTH".as_slice() {
            return auth(uid, argument);
        }
        if word == b"DATA".as_slice() {
            return data(uid, argument);
        }
        if word == b"CANCEL".as_slice() {
            return Command::Cancel;
        }
        if word == b"ERROR".as_slice() {
            return Command::Error;
        }
        if word == b"BEGIN".as_slice() {
            return Command::Begin;
        }
        if word == b"NEGOTIATE_UNIX_FD".as_slice() {
            return Command::NegotiateUnixFd;
        }
        Command::Unknown
    }
}

// The command of a line with the word AUTH.
fn auth(uid: u32, argument: Option<&[u8]>) -> Command
    ensures { result ≡ auth_of uid (option_copied argument.entry) }
{
    let Some(argument) = argument else {
        return Command::OtherAuth;
    };
    let (mechanism, argument) = split(argument);
    if mechanism != b"EXTERNAL".as_slice() {
        return Command::OtherAuth;
    }
    match argument {
        None => Command::External,
        Some(argument) if accepts(uid, argument) => Command::ExternalAccepted,
        Some(_) => Command::OtherAuth,
    }
}

// The command of a line with the word DATA.
fn data(uid: u32, argument: Option<&[u8]>) -> Command
    ensures { result ≡ data_of uid (option_copied argument.entry) }
{
    let argument = argument.unwrap_or(b"".as_slice());
    if accepts(uid, argument) {
        Command::DataAccepted
    } else {
        Command::OtherData
    }
}

// A line's word and its argument: what is before the first space, and what is after it.
fn split(line: &[u8]) -> (&[u8], Option<&[u8]>)
    ensures word { result.0.now ≡ word_of line.now }
    ensures argument { option_copied result.1 ≡ argument_of line.now }
{
    match first_space(line) {
        Some(place) => (&line[..place], Some(&line[place + 1..])),
        None => (line, None),
    }
}

// The position of the first space.
fn first_space(line: &[u8]) -> Option<usize>
    ensures { result ≡ position is_space line.now }
{
    line.iter().position(|c| *c == b' ')
}

// Whether the argument is the user id, or is empty.
#[tactic(auto, unfolding(crate::specs::Commands::is_accepted))]
fn accepts(uid: u32, argument: &[u8]) -> bool
    ensures { result ≡ is_accepted uid argument.now }
{
    if argument.is_empty() {
        return true;
    }
    let mut buffer = Buffer::new();
    is_hex_of(argument, buffer.format(uid).as_bytes())
}

// Whether the text is these bytes in hex, of either case.
fn is_hex_of(text: &[u8], bytes: &[u8]) -> bool
    requires { length bytes.now ≤ 10 }
    ensures { result ≡ is_hex_of text.now bytes.now }
{
    // A u32 has at most ten digits.
    let mut room = [0; 10];
    let read = &mut room[..bytes.len()];
    hex::decode_to_slice(text, &mut *read).is_ok() && &*read == bytes
}
