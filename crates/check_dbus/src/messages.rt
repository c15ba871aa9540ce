// What a framer returns for bytes, and the names in a header.

use crate::bytes::{hex_bytes, small_number, text_bytes};
use check_rows::{Line, cell};
use dbus_framing::{FrameRefused, Framer, Violation, is_interface_name, is_member_name};
use dbus_types::Message;

fn violation_word(violation: Violation) -> &'static str {
    match violation {
        Violation::Endian => "Endian",
        Violation::Version => "Version",
        Violation::ZeroSerial => "ZeroSerial",
        Violation::TooLarge => "TooLarge",
        Violation::BadHeader => "BadHeader",
        Violation::MissingField => "MissingField",
        Violation::BadBody => "BadBody",
        Violation::InvalidType => "InvalidType",
        Violation::EndInside => "EndInside",
    }
}

// Writes a message's type, serial and member, the number of values in its body, and the number of its bytes.
fn write_message(message: &Message, line: &mut Line) {
    line.number(u64::from(message.kind));
    line.add(" ");
    line.number(u64::from(message.serial));
    line.add(" ");
    match &message.member {
        Some(member) => line.add(member.as_str()),
        None => line.add("-"),
    }
    line.add(" ");
    line.number(message.body.len() as u64);
    line.add(" ");
    line.number(u64::from(message.length));
    line.add(";");
}

// Whether the framer returns a message. It, or a violation, is written.
fn is_next(framer: &mut Framer, line: &mut Line) -> bool {
    match framer.next() {
        Ok(Some(message)) => {
            write_message(&message, line);
            return true;
        }
        Ok(None) => (),
        Err(FrameRefused::Violation(violation)) => {
            line.add(violation_word(violation));
            line.add(";");
        }
        Err(FrameRefused::OutOfMemory) => line.lack(),
    }
    false
}

/// Feeds the framer, and writes all that it returns then, up to nothing or a violation.
pub fn feed(framer: &mut Framer, piece: &[u8], line: &mut Line) {
    if framer.feed(piece).is_err() {
        return line.lack();
    }
    for _ in 0..1000 {
        if !is_next(framer, line) {
            return;
        }
    }
}

// Feeds the bytes of a cell.
fn feed_cell(framer: &mut Framer, digits: &str, line: &mut Line) {
    match hex_bytes(line.alloc(), digits) {
        Some(bytes) => feed(framer, bytes.as_slice(), line),
        None => line.add("no bytes;"),
    }
}

/// Feeds a framer with pieces: the greatest length of a message, and two pieces. Writes what it returns for each.
pub fn write_feed(cells: &str, line: &mut Line) {
    let mut framer = Framer::new(line.alloc(), small_number(cell(cells, 0)));
    feed_cell(&mut framer, cell(cells, 1), line);
    feed_cell(&mut framer, cell(cells, 2), line);
}

/// Whether a text is a member name, and an interface name.
pub fn write_name(cells: &str, line: &mut Line) {
    let Some(name) = text_bytes(line.alloc(), cells) else {
        return line.add("no text");
    };
    line.add(if is_member_name(name.as_slice()) {
        "a member"
    } else {
        "no member"
    });
    line.add(if is_interface_name(name.as_slice()) {
        ", an interface"
    } else {
        ", no interface"
    });
}
