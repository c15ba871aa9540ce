// What the client sends (D-Bus Specification, "Authentication Protocol").
ghost use Rattle.std.specs.Prelude.{◌≡◌, ◌+◌, ◌≤◌, ◌++◌, length, decimal};
ghost use Rattle.arrayvec.specs.ArrayVec.{array_vec_len};
ghost use Rattle.hex.specs.Hex.{encode_lower};
ghost use Rattle.dbus_auth_client.specs.Openings.{opening};

use arrayvec::ArrayVec;
use itoa::Buffer;

/// The line that the client sends after `OK`, with its ending. Messages follow it.
pub const BEGIN_LINE: &[u8] = b"BEGIN\r\n";

/// The answer to `DATA`, with its ending: the client has no more to say than that it is the user of
/// its connection.
pub const DATA_LINE: &[u8] = b"DATA\r\n";

// The digits in hex.
fn hex_of(digits: &[u8]) -> ArrayVec<u8, 20>
    requires { length digits.now ≤ 10 }
    ensures { result.items ≡ encode_lower digits.now }
{
    let mut room = [0; 20];
    let text = &mut room[..2 * digits.len()];
    match hex::encode_to_slice(digits, &mut *text) {
        Ok(()) => {}
        Err(_) => unreachable!(),
    }
    let mut made = ArrayVec::new();
    match made.try_extend_from_slice(&*text) {
        Ok(()) => {}
        Err(_) => unreachable!(),
    }
    made
}

// Appends bytes that fit.
fn add(made: &mut ArrayVec<u8, 37>, bytes: &[u8])
    requires { array_vec_len made.old + length bytes.now ≤ 37 }
    ensures items { made.new.items ≡ made.old.items ++ bytes.now }
    ensures len { array_vec_len made.new ≡ array_vec_len made.old + length bytes.now }
{
    match made.try_extend_from_slice(bytes) {
        Ok(()) => {}
        Err(_) => unreachable!(),
    }
}

/// What the client sends first: a zero byte, and the line `AUTH EXTERNAL` with the decimal digits of
/// its user id in hex.
pub fn opening(uid: u32) -> ArrayVec<u8, 37>
    ensures { result.items ≡ opening uid }
{
    let mut buffer = Buffer::new();
    let digits = hex_of(buffer.format(uid).as_bytes());
    let mut made = ArrayVec::new();
    add(&mut made, b"\0AUTH EXTERNAL ".as_slice());
    add(&mut made, digits.as_slice());
    add(&mut made, b"\r\n".as_slice());
    made
}
