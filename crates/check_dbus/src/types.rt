// Signatures and object paths.

use crate::bytes::text_bytes;
use crate::shown::write_type;
use check_rows::Line;
use dbus_types::{CompleteType, ObjectPath, Signature, SignatureFault};
use kr_base::Text;
use std::alloc::Global;

fn fault_word(fault: SignatureFault) -> &'static str {
    match fault {
        SignatureFault::BadType => "BadType",
        SignatureFault::TooDeep => "TooDeep",
        SignatureFault::TooLong => "TooLong",
        SignatureFault::OutOfMemory => "OutOfMemory",
    }
}

fn write_copy(complete_type: &CompleteType, line: &mut Line) {
    match complete_type.copy(line.alloc()) {
        Ok(copy) => write_type(&copy, line),
        Err(_) => line.lack(),
    }
}

/// Reads a signature, and writes copies of its types, or why it is refused.
pub fn write_signature(cells: &str, line: &mut Line) {
    let Some(text) = text_bytes(line.alloc(), cells) else {
        return line.add("no text");
    };
    match Signature::parse(line.alloc(), text.as_slice()) {
        Ok(signature) => {
            let is_empty = signature.types().is_empty();
            line.add(if is_empty { "no types" } else { "types " });
            for each in signature.types() {
                write_copy(each, line);
            }
        }
        Err(fault) => line.add(fault_word(fault)),
    }
}

fn path_of(alloc: Global, cells: &str) -> Option<ObjectPath> {
    let bytes = cells.as_bytes().to_vec(alloc).ok()?;
    ObjectPath::new(Text::from_utf8(bytes)?)
}

// Whether the path has this text as text and as bytes, and the copy equals it and has the text too.
fn is_text(path: &ObjectPath, copy: ObjectPath, text: &str) -> bool {
    let is_own = path.as_str() == text && path.as_bytes() == text.as_bytes();
    is_own && copy == *path && copy.into_text().as_str() == text
}

/// Whether a text is an object path.
pub fn write_path(cells: &str, line: &mut Line) {
    let Some(path) = path_of(line.alloc(), cells) else {
        return line.add("none");
    };
    match path.copy() {
        Ok(copy) => line.add(if is_text(&path, copy, cells) {
            "a path"
        } else {
            "another text"
        }),
        Err(_) => line.lack(),
    }
}
