// Messages, and what calls they are read as.

use crate::requests::write_request;
use call_wire::call_of;
use check_rows::{Line, cell};
use dbus_framing::Framer;
use dbus_marshal::{marshal, unmarshal};
use dbus_types::{Endian, Message, Signature, Value};
use kr_base::Text;
use std::alloc::Global;

// Writes what a message is read as.
fn write_read(line: &mut Line, message: &Message) {
    if message.kind != 1 {
        return line.add("no call");
    }
    match call_of(line.alloc(), message) {
        Ok(request) => write_request(line, &request),
        Err(_) => line.lack(),
    }
}

/// The bytes with these digits.
pub fn bytes_of(alloc: Global, digits: &str) -> Option<Vec<u8>> {
    hex::decode(alloc, digits).ok()
}

/// The first message in these bytes.
pub fn message_in(alloc: Global, bytes: &[u8]) -> Option<Message> {
    let mut framer = Framer::new(alloc, 1_048_576);
    framer.feed(bytes).ok()?;
    framer.next().ok()?
}

fn message_of_digits(alloc: Global, digits: &str) -> Option<Message> {
    let bytes = bytes_of(alloc, digits)?;
    message_in(alloc, bytes.as_slice())
}

/// Reads a message, in hex.
pub fn write_message(line: &mut Line, cells: &str) {
    match message_of_digits(line.alloc(), cells) {
        Some(message) => write_read(line, &message),
        None => line.add("no message"),
    }
}

// A text, or None for `-`.
fn name(alloc: Global, text: &str) -> Option<Option<Text>> {
    if text == "-" {
        return Some(None);
    }
    match Text::from_str(alloc, text) {
        Ok(text) => Some(text),
        Err(_) => None,
    }
}

// A call of these types to `path`, whose body has these values.
fn call_to(
    path: Option<Text>,
    interface: Option<Text>,
    member: Option<Text>,
    signature: Signature,
    body: Vec<Value>,
) -> Message {
    Message {
        kind: 1,
        flags: 0,
        serial: 1,
        path,
        interface,
        member,
        error_name: None,
        reply_serial: None,
        destination: None,
        sender: None,
        signature,
        body,
        length: 100,
    }
}

fn values_in(alloc: Global, signature: &Signature, digits: &str) -> Option<Vec<Value>> {
    let bytes = bytes_of(alloc, digits)?;
    unmarshal(alloc, signature, Endian::Little, 0, bytes.as_slice()).ok()
}

fn call_in(alloc: Global, cells: &str) -> Option<Message> {
    let path = name(alloc, cell(cells, 0))?;
    let interface = name(alloc, cell(cells, 1))?;
    let member = name(alloc, cell(cells, 2))?;
    let signature = Signature::parse(alloc, cell(cells, 3).as_bytes()).ok()?;
    let body = values_in(alloc, &signature, cell(cells, 4))?;
    Some(call_to(path, interface, member, signature, body))
}

/// Reads a call: its path, interface (`-` for none), member, signature and body.
pub fn write_call(line: &mut Line, cells: &str) {
    match call_in(line.alloc(), cells) {
        Some(message) => write_read(line, &message),
        None => line.add("no message"),
    }
}

/// Whether the values in these bytes are marshalled as the same bytes again.
pub fn are_marshalled(alloc: Global, signature: &Signature, bytes: &[u8]) -> bool {
    let Ok(values) = unmarshal(alloc, signature, Endian::Little, 0, bytes) else {
        return false;
    };
    match marshal(alloc, values.as_slice(), Endian::Little, 0) {
        Ok(again) => again.as_slice() == bytes,
        Err(_) => false,
    }
}
