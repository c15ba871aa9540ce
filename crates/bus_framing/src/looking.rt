// What the bytes of a link begin with.
ghost use Rattle.std.specs.Prelude.{◌≡◌, ◌≢◌, ◌≤◌, ◌<◌, ◌^◌, length, IfOk, Ok};
ghost use Rattle.dbus_framing.specs.HeaderViews.{fields_of};
ghost use Rattle.dbus_framing.specs.Messages.{body_start, head_of, size_at, word_at};
ghost use Rattle.bus_framing.specs.Looks.{bare_look, bare_of, headed_of, if_kept, long_look, look_at, look_of, most_bytes, said_of, whole_look};

use crate::heard::{BodyFault, Headed, Heard};
use dbus_framing::{
    FieldTypes, FrameRefused, Head, Header, OutOfMemory, Violation, bodied, body_start, fields_at,
    has_needed, head_of, word_at,
};
use dbus_types::Endian;
use std::alloc::{AllocError, Global};

/// The most bytes that a message may have at all (D-Bus Specification, "Message Format").
const MOST_BYTES: u32 = 134_217_728;

/// The most bytes of a message that is read with its body.
const MOST_READ: usize = 1_048_576;

/// What bytes begin with.
#[derive(Drop)]
pub enum Look {
    /// More bytes are awaited.
    Waits,
    /// They break a rule.
    Broken(Violation),
    /// A message of this many bytes, which isn't heard.
    Passes(usize),
    /// A message of this many bytes.
    Hears(usize, Heard),
}

// A message of this type and size: those of ignored types aren't heard.
fn if_kept(kind: u8, size: usize, heard: Heard) -> Look
    ensures { look_of result ≡ if_kept kind size (said_of heard) }
{
    if kind <= 4 {
        Look::Hears(size, heard)
    } else {
        Look::Passes(size)
    }
}

// The message without its body.
fn headed_of(endian: Endian, bytes: &[u8], header: Header, size: usize, fault: BodyFault) -> Headed
    requires begun { 16 ≤ length bytes.now }
    requires numbered { word_at endian 8 bytes.now ≢ 0 }
    requires short { size < 2 ^ 32 }
    ensures { bare_of result ≡ headed_of endian bytes.now (fields_of header) size fault }
{
    Headed {
        kind: bytes[1],
        flags: bytes[2],
        serial: word_at(endian, 8, bytes),
        reply_serial: header.reply_serial,
        sender: header.sender,
        length: size as u32,
        fault,
    }
}

// What a header is heard as whose body isn't read.
fn bare(
    alloc: Global,
    types: &FieldTypes,
    endian: Endian,
    bytes: &[u8],
    size: usize,
    fault: BodyFault,
) -> Result<Look, OutOfMemory>
    requires begun { 16 ≤ length bytes.now }
    requires whole { body_start endian bytes.now ≤ length bytes.now }
    requires numbered { word_at endian 8 bytes.now ≢ 0 }
    requires short { size < 2 ^ 32 }
    ensures { IfOk result (λ look. look_of look ≡ bare_look endian bytes.now size fault) }
{
    let Some(header) = fields_at(alloc, types, endian, bytes)? else {
        return Ok(Look::Broken(Violation::BadHeader));
    };
    let kind = bytes[1];
    if !has_needed(kind, &header) {
        return Ok(Look::Broken(Violation::MissingField));
    }
    let headed = headed_of(endian, bytes, header, size, fault);
    Ok(if_kept(kind, size, Heard::Headed(headed)))
}

// What a complete message is heard as.
fn whole(
    alloc: Global,
    types: &FieldTypes,
    endian: Endian,
    bytes: &[u8],
) -> Result<Look, OutOfMemory>
    requires begun { 16 ≤ length bytes.now }
    requires whole { length bytes.now ≡ size_at endian bytes.now }
    requires numbered { word_at endian 8 bytes.now ≢ 0 }
    requires short { length bytes.now < 2 ^ 32 }
    ensures { IfOk result (λ look. look_of look ≡ whole_look endian bytes.now) }
{
    let Some(header) = fields_at(alloc, types, endian, bytes)? else {
        return Ok(Look::Broken(Violation::BadHeader));
    };
    let kind = bytes[1];
    if !has_needed(kind, &header) {
        return Ok(Look::Broken(Violation::MissingField));
    }
    match bodied(alloc, endian, bytes, header) {
        Ok(message) => Ok(if_kept(kind, bytes.len(), Heard::Whole(message))),
        Err(FrameRefused::Violation(_)) => {
            bare(alloc, types, endian, bytes, bytes.len(), BodyFault::BadBody)
        }
        Err(FrameRefused::OutOfMemory) => Err(AllocError),
    }
}

// What a message is heard as that is too long.
fn long(alloc: Global, types: &FieldTypes, head: Head, bytes: &[u8]) -> Result<Look, OutOfMemory>
    requires begun { 16 ≤ length bytes.now }
    requires known { head_of most_bytes bytes.now ≡ Ok head }
    ensures { IfOk result (λ look. look_of look ≡ long_look head bytes.now) }
{
    let fields = word_at(head.endian, 12, bytes) as usize;
    if 16 + fields > MOST_READ {
        return Ok(Look::Passes(head.size));
    }
    let body = body_start(head.endian, bytes);
    if bytes.len() < body {
        return Ok(Look::Waits);
    }
    let (header, _) = bytes.split_at(body);
    bare(
        alloc,
        types,
        head.endian,
        header,
        head.size,
        BodyFault::TooLarge,
    )
}

/// What the bytes begin with.
pub fn look_at(alloc: Global, types: &FieldTypes, bytes: &[u8]) -> Result<Look, OutOfMemory>
    ensures { IfOk result (λ look. look_of look ≡ look_at bytes.now) }
{
    if bytes.len() < 16 {
        return Ok(Look::Waits);
    }
    let head = match head_of(MOST_BYTES, bytes) {
        Ok(head) => head,
        Err(cause) => return Ok(Look::Broken(cause)),
    };
    if head.size > MOST_READ {
        return long(alloc, types, head, bytes);
    }
    if bytes.len() < head.size {
        return Ok(Look::Waits);
    }
    let (bytes, _) = bytes.split_at(head.size);
    whole(alloc, types, head.endian, bytes)
}
