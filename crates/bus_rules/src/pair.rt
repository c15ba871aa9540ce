// A pair of a rule, and the signals that it is true of.
ghost use Rattle.std.specs.Prelude.{◌≡◌};
ghost use Rattle.bus_rules.specs.Pairs.{argument_is, code_of, holds, is_admissible, is_kind_name, is_same, is_service_name, is_within};

use kr_base::Bytes;

/// What a pair of a rule looks at.
#[derive(Clone, Copy)]
pub enum Key {
    /// `type`: the kind of message.
    MessageType,
    /// `sender`: the name of the connection that the message comes from.
    Sender,
    /// `interface`.
    Interface,
    /// `member`.
    Member,
    /// `path`: the object.
    Path,
    /// `path_namespace`: the object, or one that contains it.
    PathNamespace,
    /// `destination`: the name of the connection that the message is for.
    Destination,
    /// `eavesdrop`, which is ignored.
    Eavesdrop,
    /// `arg0` to `arg63`: this value of the body, counted from 0.
    Argument(u8),
}

/// A pair of a rule: what it looks at, and the value that it wants there.
#[derive(Drop)]
pub struct Pair {
    pub key: Key,
    pub value: Bytes,
}

/// A signal of the service, as far as rules look at it.
#[derive(Clone, Copy)]
pub struct Signal<'a> {
    /// PATH.
    pub path: &'a [u8],
    /// INTERFACE.
    pub interface: &'a [u8],
    /// MEMBER.
    pub member: &'a [u8],
    /// The values of the body: the bytes of each one of type `s`, and None for each one of another type.
    pub arguments: &'a [Option<&'a [u8]>],
}

/// The place of a key among all keys, by which keys are compared.
pub fn code(key: Key) -> u16
    ensures { result ≡ code_of key }
{
    match key {
        Key::MessageType => 0,
        Key::Sender => 1,
        Key::Interface => 2,
        Key::Member => 3,
        Key::Path => 4,
        Key::PathNamespace => 5,
        Key::Destination => 6,
        Key::Eavesdrop => 7,
        Key::Argument(number) => 8 + u16::from(number),
    }
}

/// Whether two runs of bytes are the same.
pub fn same(one: &[u8], other: &[u8]) -> bool
    ensures { result ≡ is_same one.now other.now }
{
    one == other
}

/// Whether the path is the namespace or is in it.
fn within(namespace: &[u8], path: &[u8]) -> bool
    ensures { result ≡ is_within namespace.now path.now }
{
    if same(namespace, path) || same(namespace, b"/") {
        return true;
    }
    if !path.starts_with(namespace) {
        return false;
    }
    match path.get(namespace.len()) {
        Some(next) => *next == b'/',
        None => false,
    }
}

/// Whether the argument with this number is of type `s` and has this value.
fn argument(number: u8, value: &[u8], arguments: &[Option<&[u8]>]) -> bool
    ensures { result ≡ argument_is number value.now arguments.now }
{
    match arguments.get(number as usize) {
        Some(found) => match found {
            Some(text) => same(value, text),
            None => false,
        },
        None => false,
    }
}

/// Whether the value is a name of the service.
fn is_service(value: &[u8]) -> bool
    ensures { result ≡ is_service_name value.now }
{
    same(value, b":1.0") || same(value, b"org.freedesktop.secrets")
}

impl Pair {
    /// Whether the pair is true of the signal.
    pub fn holds(&self, signal: &Signal) -> bool
        ensures { result ≡ holds signal.now self.now }
    {
        let value = self.value.as_slice();
        match self.key {
            Key::MessageType => same(value, b"signal"),
            Key::Sender => is_service(value),
            Key::Interface => same(value, signal.interface),
            Key::Member => same(value, signal.member),
            Key::Path => same(value, signal.path),
            Key::PathNamespace => within(value, signal.path),
            Key::Destination => false,
            Key::Eavesdrop => true,
            Key::Argument(number) => argument(number, value, signal.arguments),
        }
    }

    /// Whether the key may have the value: `type` is one of the four kinds of messages, `eavesdrop` is
    /// `true` or `false`, and an argument's number is at most 63.
    pub fn is_admissible(&self) -> bool
        ensures { result ≡ is_admissible self.now }
    {
        let value = self.value.as_slice();
        match self.key {
            Key::MessageType => is_kind(value),
            Key::Eavesdrop => same(value, b"true") || same(value, b"false"),
            Key::Argument(number) => number <= 63,
            Key::Sender
            | Key::Interface
            | Key::Member
            | Key::Path
            | Key::PathNamespace
            | Key::Destination => true,
        }
    }
}

/// Whether the value is one of the kinds of messages.
fn is_kind(value: &[u8]) -> bool
    ensures { result ≡ is_kind_name value.now }
{
    same(value, b"signal")
        || same(value, b"method_call")
        || same(value, b"method_return")
        || same(value, b"error")
}
