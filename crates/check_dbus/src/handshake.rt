// The lines of a handshake, and their answers.

use crate::bytes::{small_number, text_bytes};
use check_rows::Line;
use dbus_auth::{Auth, AuthFault, Step};

const GUID: [u8; 32] = *b"0123456789abcdef0123456789abcdef";

/// A server that awaits this user id.
pub fn new_server(uid: u32) -> Auth {
    Auth::new(uid, GUID)
}

/// Starts a handshake in which this user id is awaited.
pub fn start(server: &mut Auth, cells: &str, line: &mut Line) {
    *server = new_server(small_number(cells));
    line.add("waits");
}

fn fault_word(fault: AuthFault) -> &'static str {
    match fault {
        AuthFault::NoZero => "NoZero",
        AuthFault::LineTooLong => "LineTooLong",
        AuthFault::BeginTooSoon => "BeginTooSoon",
        AuthFault::EndedEarly => "EndedEarly",
    }
}

// Writes an answer without its line end, and in hex if it has another end or isn't a text.
fn write_said(answer: &[u8], line: &mut Line) {
    match str::from_utf8(answer) {
        Ok(text) => match text.strip_suffix("\r\n") {
            Some(text) => line.add(text),
            None => line.hex(answer),
        },
        Err(_) => line.hex(answer),
    }
}

/// Writes the answer to a line, `open` if the handshake is done, or why it is refused.
pub fn write_answer(server: &mut Auth, cells: &str, line: &mut Line) {
    let Some(bytes) = text_bytes(line.alloc(), cells) else {
        return line.add("no line");
    };
    match server.line(bytes.as_slice()) {
        Step::Say(answer) => write_said(answer.bytes(), line),
        Step::Begin => line.add("open"),
        Step::Refused(fault) => line.add(fault_word(fault)),
    }
}
