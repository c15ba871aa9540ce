ghost use Rattle.std.specs.Prelude.{◌≡◌, ◌+◌, ◌≤◌, ◌<◌, ◌^◌, length};
ghost use Rattle.std.specs.Int.{w32};
ghost use Rattle.dbus_marshal.specs.Wire.{padding, number_from};
ghost use Rattle.dbus_framing.specs.Messages.{endian_of, word_at, fields_end, body_start, size_at, head_of};

use crate::violation::Violation;
use dbus_types::Endian;

/// What the first 16 bytes of a message say: the byte order of its numbers, and how many bytes it has.
#[derive(Clone, Copy)]
pub struct Head {
    /// The byte order.
    pub endian: Endian,
    /// The number of bytes of the whole message.
    pub size: usize,
}

fn word_of(endian: Endian, bytes: &[u8]) -> u32
    requires { length bytes.now ≡ 4 }
    ensures { result ≡ number_from endian w32 bytes.now }
{
    let cells = [bytes[0], bytes[1], bytes[2], bytes[3]];
    match endian {
        Endian::Little => u32::from_le_bytes(cells),
        Endian::Big => u32::from_be_bytes(cells),
    }
}

/// The number of 32 bits at a position.
#[tactic(auto, unfolding(crate::specs::Messages::word_at))]
pub fn word_at(endian: Endian, place: usize, bytes: &[u8]) -> u32
    requires { place + 4 ≤ length bytes.now }
    ensures { result ≡ word_at endian place bytes.now }
{
    let (_, from_place) = bytes.split_at(place);
    let (word, _) = from_place.split_at(4);
    word_of(endian, word)
}

/// The number of bytes from `count` to the next multiple of 8.
pub fn padding_behind(count: usize) -> usize
    ensures { result ≡ padding 8 count }
{
    (8 - count % 8) % 8
}

/// Where the body of a message begins, if the message begins with these bytes.
pub fn body_start(endian: Endian, bytes: &[u8]) -> usize
    requires { 16 ≤ length bytes.now }
    ensures value { result ≡ body_start endian bytes.now }
    ensures small { result < 2 ^ 33 }
{
    let count = word_at(endian, 12, bytes) as usize;
    16 + count + padding_behind(count)
}

fn size_at(endian: Endian, bytes: &[u8]) -> usize
    requires { 16 ≤ length bytes.now }
    ensures { result ≡ size_at endian bytes.now }
{
    body_start(endian, bytes) + word_at(endian, 4, bytes) as usize
}

fn endian_of(mark: u8) -> Option<Endian>
    ensures { result ≡ endian_of mark }
{
    if mark == b'l' {
        Some(Endian::Little)
    } else if mark == b'B' {
        Some(Endian::Big)
    } else {
        None
    }
}

/// What the first 16 bytes say, or the first violation that they show.
pub fn head_of(most: u32, bytes: &[u8]) -> Result<Head, Violation>
    requires { 16 ≤ length bytes.now }
    ensures { result ≡ head_of most bytes.now }
{
    let Some(endian) = endian_of(bytes[0]) else {
        return Err(Violation::Endian);
    };
    if bytes[1] == 0 {
        return Err(Violation::InvalidType);
    }
    if bytes[3] != 1 {
        return Err(Violation::Version);
    }
    if word_at(endian, 8, bytes) == 0 {
        return Err(Violation::ZeroSerial);
    }
    let size = size_at(endian, bytes);
    if size > most as usize {
        return Err(Violation::TooLarge);
    }
    Ok(Head { endian, size })
}
