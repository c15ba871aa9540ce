ghost use Rattle.std.specs.Prelude.{◌≡◌, ◌≢◌, ◌%◌, ◌≤◌, ◌<◌, ◌^◌, length, drop, slice_index, IfOk, IsErr, Ok, Option, option_map, unwrap_or};
ghost use Rattle.dbus_types.specs.Types.{Tys};
ghost use Rattle.std.specs.Result.{result_ok};
ghost use Rattle.dbus_types.specs.Signatures.{Refuses};
ghost use Rattle.dbus_types.specs.SignatureViews.{types_in};
ghost use Rattle.dbus_types.specs.ValueViews.{values_of};
ghost use Rattle.dbus_marshal.specs.Unmarshal.{are_zero, values_at};
ghost use Rattle.dbus_framing.specs.HeaderViews.{fields_of};
ghost use Rattle.dbus_framing.specs.Messages.{parts_of, field_types, word_at, body_start, size_at, fields_at, fielded_message, bodied_message, message_at, body_types};
ghost use Rattle.dbus_framing.specs.Refusals.{Reads};

use crate::OutOfMemory;
use crate::head::{body_start, padding_behind, word_at};
use crate::header::{Header, fields_in, has_needed};
use crate::violation::{FrameRefused, Violation};
use dbus_marshal::{ValueFault, unmarshal};
use dbus_types::{Endian, Message, Signature, SignatureFault, Value};
use std::alloc::{AllocError, Global};
use std::marker::Model;

// The values that the bytes spell, if they do.
fn values_in(
    alloc: Global,
    signature: &Signature,
    endian: Endian,
    place: u64,
    bytes: &[u8],
) -> Result<Option<Vec<Value>>, OutOfMemory>
    ensures { IfOk result (λ found. option_map (λ values. values_of values.items) found
        ≡ result_ok (values_at endian (types_in signature.now)
        (record { place = place % 8; left = bytes.now }))) }
{
    match unmarshal(alloc, signature, endian, place, bytes) {
        Ok(values) => Ok(Some(values)),
        Err(ValueFault::OutOfMemory) => Err(AllocError),
        Err(_) => Ok(None),
    }
}

// A text that spells types is refused only for lack of memory.
fn no_signature(fault: SignatureFault) -> Result<Signature, OutOfMemory>
    requires { Refuses fault (Ok field_types) }
    ensures { IsErr result }
{
    match fault {
        SignatureFault::OutOfMemory => Err(AllocError),
        SignatureFault::BadType | SignatureFault::TooDeep | SignatureFault::TooLong =>
            unreachable!(),
    }
}

// The signature of the field array.
fn field_signature(alloc: Global) -> Result<Signature, OutOfMemory>
    ensures { IfOk result (λ signature. types_in signature ≡ field_types) }
{
    match Signature::parse(alloc, b"a(yv)") {
        Ok(signature) => Ok(signature),
        Err(fault) => no_signature(fault),
    }
}

/// The types of the header fields, made once for many messages. A contract sees
/// their text.
#[derive(Drop)]
pub struct FieldTypes {
    signature: Signature,
}

impl Model for FieldTypes {
    ghost use Rattle.std.specs.Prelude.{List, ℕ};

    ghost Value = { List ℕ };

    ghost use Rattle.std.specs.Prelude.{◌≡◌};
    ghost use Rattle.dbus_types.specs.Types.{texts_of};
    ghost use Rattle.dbus_types.specs.SignatureViews.{types_in};
    ghost use Rattle.dbus_framing.specs.Messages.{field_types};

    ghost view = { λ types. texts_of (types_in types.signature) };

    ghost invariant = { λ types. types_in types.signature ≡ field_types };
}

impl FieldTypes {
    /// The types `a(yv)`.
    pub fn new(alloc: Global) -> Result<FieldTypes, OutOfMemory> {
        let signature = field_signature(alloc)?;
        Ok(FieldTypes { signature })
    }

    fn signature(&self) -> &Signature
        ensures { types_in result.now ≡ field_types }
    {
        &self.signature
    }
}

fn are_zero(bytes: &[u8]) -> bool
    ensures { result ≡ are_zero bytes.now }
{
    let mut left = bytes;
    while let Some((byte, rest)) = left.split_first() {
        if *byte != 0 {
            return false;
        }
        left = rest;
    }
    true
}

/// The header fields of a message, if they and the padding after them are valid.
#[tactic(auto, unfolding(crate::specs::Messages::fields_at))]
pub fn fields_at(
    alloc: Global,
    types: &FieldTypes,
    endian: Endian,
    bytes: &[u8],
) -> Result<Option<Header>, OutOfMemory>
    requires begun { 16 ≤ length bytes.now }
    requires whole { body_start endian bytes.now ≤ length bytes.now }
    ensures { IfOk result (λ found. option_map fields_of found ≡ fields_at endian bytes.now) }
{
    let count = word_at(endian, 12, bytes) as usize;
    let (_, behind_fields) = bytes.split_at(16 + count);
    let (padding, _) = behind_fields.split_at(padding_behind(count));
    if !are_zero(padding) {
        return Ok(None);
    }
    let (_, from_fields) = bytes.split_at(12);
    let (fields, _) = from_fields.split_at(4 + count);
    match values_in(alloc, types.signature(), endian, 12, fields)? {
        Some(values) => Ok(fields_in(values)),
        None => Ok(None),
    }
}

// The signature of the body; it is empty if the header has none.
fn signature_or_none(alloc: Global, signature: Option<Signature>) -> Signature
    ensures { types_in result ≡ unwrap_or (option_map types_in signature) Tys.end }
{
    match signature {
        Some(signature) => signature,
        None => Signature::empty(alloc),
    }
}

/// The message whose header fields are these.
///
/// Refused with `BadBody` if its body isn't the spelling of the types that SIGNATURE lists, and with
/// `OutOfMemory` if no memory was left.
pub fn bodied(
    alloc: Global,
    endian: Endian,
    bytes: &[u8],
    header: Header,
) -> Result<Message, FrameRefused>
    requires begun { 16 ≤ length bytes.now }
    requires whole { body_start endian bytes.now ≤ length bytes.now }
    requires numbered { word_at endian 8 bytes.now ≢ 0 }
    requires short { length bytes.now < 2 ^ 32 }
    ensures { Reads result (bodied_message endian bytes.now (fields_of header)
        (result_ok (values_at endian (body_types (fields_of header))
        (record { place = 0; left = drop (body_start endian bytes.now) bytes.now })))) }
{
    let signature = signature_or_none(alloc, header.signature);
    let (_, body) = bytes.split_at(body_start(endian, bytes));
    let Some(body) = values_in(alloc, &signature, endian, 0, body)? else {
        return Err(FrameRefused::Violation(Violation::BadBody));
    };
    Ok(Message {
        kind: bytes[1],
        flags: bytes[2],
        serial: word_at(endian, 8, bytes),
        path: header.path,
        interface: header.interface,
        member: header.member,
        error_name: header.error_name,
        reply_serial: header.reply_serial,
        destination: header.destination,
        sender: header.sender,
        signature,
        body,
        length: bytes.len() as u32,
    })
}

/// The message that these bytes are; its first 16 bytes show no violation.
///
/// Refused with the first violation among `BadHeader`, `MissingField` and `BadBody`, and with
/// `OutOfMemory` if no memory was left.
pub fn message_at(
    alloc: Global,
    types: &FieldTypes,
    endian: Endian,
    bytes: &[u8],
) -> Result<Message, FrameRefused>
    requires begun { 16 ≤ length bytes.now }
    requires whole { length bytes.now ≡ size_at endian bytes.now }
    requires numbered { word_at endian 8 bytes.now ≢ 0 }
    requires short { length bytes.now < 2 ^ 32 }
    ensures { Reads result (message_at endian bytes.now) }
{
    let Some(header) = fields_at(alloc, types, endian, bytes)? else {
        return Err(FrameRefused::Violation(Violation::BadHeader));
    };
    if !has_needed(bytes[1], &header) {
        return Err(FrameRefused::Violation(Violation::MissingField));
    }
    bodied(alloc, endian, bytes, header)
}
