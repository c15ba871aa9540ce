// Outputs as messages.

use crate::bodies::body_of;
use crate::messages::{are_marshalled, message_in};
use crate::requests::fault_name;
use call_arguments::are_listed;
use call_wire::message_of;
use check_rows::{Line, cell};
use dbus_types::Message;
use secret_calls::{CallFault, ErrorName, Out, Serial, body_size, size_of_out};
use std::alloc::Global;

const NAMES: [ErrorName; 15] = [
    ErrorName::NotSupported,
    ErrorName::UnknownObject,
    ErrorName::UnknownInterface,
    ErrorName::UnknownMethod,
    ErrorName::UnknownProperty,
    ErrorName::PropertyReadOnly,
    ErrorName::InvalidArgs,
    ErrorName::LimitsExceeded,
    ErrorName::IOError,
    ErrorName::AccessDenied,
    ErrorName::IsLocked,
    ErrorName::NoSession,
    ErrorName::NoSuchObject,
    ErrorName::AgentTaken,
    ErrorName::OldRound,
];

fn error_named(text: &str) -> Option<ErrorName> {
    for name in NAMES {
        if name.as_str() == text {
            return Some(name);
        }
    }
    None
}

/// The serial that a text spells.
pub fn serial_in(text: &str) -> Option<Serial> {
    let number = text.parse::<u32>().ok()?;
    if number == 0 {
        return None;
    }
    Some(Serial { number })
}

fn error_in(text: &str, to: Serial) -> Option<Out> {
    let name = error_named(text)?;
    Some(Out::Error { to, name })
}

fn return_in(alloc: Global, word: &str, words: &str, to: Serial) -> Option<Out> {
    let body = body_of(alloc, word, words)?;
    Some(Out::Return { to, body })
}

/// The output that these words spell, with the serial that it answers.
pub fn output_in(alloc: Global, cells: &str) -> Option<Out> {
    let to = serial_in(cell(cells, 1))?;
    match cell(cells, 0).split_once(' ') {
        Some(("error", name)) => error_in(name, to),
        Some((word, words)) => return_in(alloc, word, words, to),
        None => return_in(alloc, cell(cells, 0), "", to),
    }
}

fn is_copied(alloc: Global, out: &Out) -> bool {
    match out.copy(alloc) {
        Ok(copy) => copy == *out,
        Err(_) => false,
    }
}

// The length of the body, from the front of a message.
fn body_length(bytes: &[u8]) -> u32 {
    match bytes {
        [_, _, _, _, a, b, c, d, ..] => u32::from_le_bytes([*a, *b, *c, *d]),
        _ => 0,
    }
}

// Whether a return's body has the computed size.
fn is_body_sized(out: &Out, bytes: &[u8]) -> bool {
    match out {
        Out::Return { to: _, body } => body_size(body) == u64::from(body_length(bytes)),
        _ => true,
    }
}

fn body_in(bytes: &[u8]) -> &[u8] {
    let start = bytes.len().saturating_sub(body_length(bytes) as usize);
    &bytes[start..]
}

// Whether a message has these types, and its body is marshalled as it is.
fn has_types(alloc: Global, message: &Message, types: &str, bytes: &[u8]) -> bool {
    let is_listed = are_listed(message.signature.types(), types);
    is_listed && are_marshalled(alloc, &message.signature, body_in(bytes))
}

fn field(field: &Option<kr_base::Text>) -> &str {
    match field {
        Some(text) => text.as_str(),
        None => "-",
    }
}

// Writes the kind and the flags of a message, and for a signal the object that emits it, its interface and its name.
fn write_source(line: &mut Line, message: &Message) {
    line.add(" kind ");
    line.number(u64::from(message.kind));
    line.add(" flags ");
    line.number(u64::from(message.flags));
    if message.kind == 4 {
        for part in [&message.path, &message.interface, &message.member] {
            line.add(" ");
            line.add(field(part));
        }
    }
}

// Writes what these bytes are read as, which has these types.
fn write_again(line: &mut Line, types: &str, bytes: &[u8]) {
    match message_in(line.alloc(), bytes) {
        Some(message) => {
            write_source(line, &message);
            let has_types = has_types(line.alloc(), &message, types, bytes);
            line.add(if has_types { "" } else { " of other types" });
        }
        None => line.add(" no message"),
    }
}

/// Writes an output as its message with this serial, in hex, and what that is read as again; and whether the message or its body
/// has another size than the one that was computed, or the output's copy differs.
pub fn write_out(line: &mut Line, out: &Out, serial: Serial, types: &str) {
    match message_of(line.alloc(), out, serial.number) {
        Ok(bytes) => {
            line.hex(bytes.as_slice());
            let is_sized = size_of_out(out) == bytes.len() as u64;
            line.add(if is_sized { "" } else { " of another size" });
            let is_sized = is_body_sized(out, bytes.as_slice());
            line.add(if is_sized {
                ""
            } else {
                " with a body of another size"
            });
            let is_copied = is_copied(line.alloc(), out);
            line.add(if is_copied { "" } else { " copied otherwise" });
            write_again(line, types, bytes.as_slice());
        }
        Err(_) => line.lack(),
    }
}

/// Writes an output: its words, the serial that it answers, its own serial, and the types of its body.
pub fn write_output(line: &mut Line, cells: &str) {
    match (output_in(line.alloc(), cells), serial_in(cell(cells, 2))) {
        (Some(out), Some(serial)) => write_out(line, &out, serial, cell(cells, 3)),
        _ => line.add("no output"),
    }
}

/// Writes the error of a call's fault.
pub fn write_fault(line: &mut Line, cells: &str) {
    for fault in [
        CallFault::UnknownObject,
        CallFault::UnknownInterface,
        CallFault::UnknownMethod,
        CallFault::UnknownProperty,
        CallFault::PropertyReadOnly,
        CallFault::InvalidArgs,
    ] {
        if fault_name(fault) == cells {
            line.add(fault.error().as_str());
        }
    }
}
