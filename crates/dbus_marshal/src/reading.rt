ghost use Rattle.std.specs.Prelude.{◌≡◌, ◌<◌, ◌≤◌, ◌^◌, length, IfOk, IsTrue, Some, None, option_map, if◌then◌else◌};
ghost use Rattle.std.specs.Str.{is_utf8};
ghost use Rattle.std.specs.Int.{w8, w16, w32, w64};
ghost use Rattle.dbus_types.specs.Types.{Ty};
ghost use Rattle.dbus_types.specs.Signatures.{signature_at};
ghost use Rattle.dbus_types.specs.SignatureViews.{types_in};
ghost use Rattle.dbus_types.specs.ValueViews.{core_as};
ghost use Rattle.dbus_marshal.specs.Unmarshal.{Reads, bytes_at, padding_at, number_at, are_zero, ended_at, string_at, path_at, signature_value_at, listed, basic_number_at, is_number, basic_at};
ghost use Rattle.dbus_marshal.specs.Cursors.{spot_of};
ghost use Rattle.dbus_marshal.specs.Wire.{padding, number_from, is_text};

use crate::OutOfMemory;
use crate::cursor::Cursor;
use crate::places::padding;
use crate::refused::ValueFault;
use dbus_types::{BasicType, Endian, ObjectPath, Signature, SignatureFault, Value};
use kr_base::Text;
use std::alloc::Global;

/// The next `count` bytes, or Short.
#[tactic(auto, unfolding(crate::specs::Unmarshal::bytes_at))]
pub fn take_bytes(cursor: Cursor<'_>, count: usize) -> Result<(&[u8], Cursor<'_>), ValueFault>
    ensures reads { Reads (λ x. (x.0.now, spot_of x.1)) result
        (bytes_at count (spot_of cursor.entry)) }
    ensures long { IfOk result (λ x. length x.0.now ≡ count) }
{
    if cursor.left.len() < count {
        return Err(ValueFault::Short);
    }
    let (bytes, left) = cursor.left.split_at(count);
    Ok((
        bytes,
        Cursor {
            place: (cursor.place + count % 8) % 8,
            left,
        },
    ))
}

fn is_zero(bytes: &[u8]) -> bool
    ensures { result ≡ are_zero bytes.now }
{
    let mut left = bytes;
    while let Some((byte, rest)) = left.split_first() {
        if *byte != 0 {
            return false;
        }
        left = rest;
    }
    true
}

/// The zeros up to a multiple of the alignment.
#[tactic(auto, unfolding(crate::specs::Unmarshal::padding_at))]
pub fn skip_padding(cursor: Cursor<'_>, alignment: usize) -> Result<Cursor<'_>, ValueFault>
    requires { 0 < alignment }
    ensures { Reads spot_of result (padding_at alignment (spot_of cursor.entry)) }
{
    let count = padding(alignment, cursor.place);
    let shown = count.min(cursor.left.len());
    if !is_zero(&cursor.left[..shown]) {
        return Err(ValueFault::Padding);
    }
    let (_, start) = take_bytes(cursor, count)?;
    Ok(start)
}

#[tactic(auto, unfolding(crate::specs::Wire::number_from))]
fn u16_of(endian: Endian, bytes: &[u8]) -> u16
    requires { length bytes.now ≡ 2 }
    ensures { result ≡ number_from endian w16 bytes.now }
{
    let cells = [bytes[0], bytes[1]];
    match endian {
        Endian::Little => u16::from_le_bytes(cells),
        Endian::Big => u16::from_be_bytes(cells),
    }
}

#[tactic(auto, unfolding(crate::specs::Wire::number_from))]
fn u32_of(endian: Endian, bytes: &[u8]) -> u32
    requires { length bytes.now ≡ 4 }
    ensures { result ≡ number_from endian w32 bytes.now }
{
    let cells = [bytes[0], bytes[1], bytes[2], bytes[3]];
    match endian {
        Endian::Little => u32::from_le_bytes(cells),
        Endian::Big => u32::from_be_bytes(cells),
    }
}

#[tactic(auto, unfolding(crate::specs::Wire::number_from))]
fn u64_of(endian: Endian, bytes: &[u8]) -> u64
    requires { length bytes.now ≡ 8 }
    ensures { result ≡ number_from endian w64 bytes.now }
{
    let cells = [
        bytes[0], bytes[1], bytes[2], bytes[3], bytes[4], bytes[5], bytes[6], bytes[7],
    ];
    match endian {
        Endian::Little => u64::from_le_bytes(cells),
        Endian::Big => u64::from_be_bytes(cells),
    }
}

#[tactic(auto, unfolding(crate::specs::Wire::number_from))]
fn u8_of(endian: Endian, bytes: &[u8]) -> u8
    requires { length bytes.now ≡ 1 }
    ensures { result ≡ number_from endian w8 bytes.now }
{
    let cells = [bytes[0]];
    match endian {
        Endian::Little => u8::from_le_bytes(cells),
        Endian::Big => u8::from_be_bytes(cells),
    }
}

#[tactic(auto, unfolding(crate::specs::Unmarshal::number_at))]
fn read_u8(endian: Endian, cursor: Cursor<'_>) -> Result<(u8, Cursor<'_>), ValueFault>
    ensures { Reads (λ x. (x.0, spot_of x.1)) result (number_at endian w8 (spot_of cursor.entry)) }
{
    let start = skip_padding(cursor, 1)?;
    let (bytes, after) = take_bytes(start, 1)?;
    Ok((u8_of(endian, bytes), after))
}

#[tactic(auto, unfolding(crate::specs::Unmarshal::number_at))]
fn read_u16(endian: Endian, cursor: Cursor<'_>) -> Result<(u16, Cursor<'_>), ValueFault>
    ensures { Reads (λ x. (x.0, spot_of x.1)) result (number_at endian w16 (spot_of cursor.entry)) }
{
    let start = skip_padding(cursor, 2)?;
    let (bytes, after) = take_bytes(start, 2)?;
    Ok((u16_of(endian, bytes), after))
}

/// A number of 32 bits with its padding.
#[tactic(auto, unfolding(crate::specs::Unmarshal::number_at))]
pub fn read_u32(endian: Endian, cursor: Cursor<'_>) -> Result<(u32, Cursor<'_>), ValueFault>
    ensures { Reads (λ x. (x.0, spot_of x.1)) result (number_at endian w32 (spot_of cursor.entry)) }
{
    let start = skip_padding(cursor, 4)?;
    let (bytes, after) = take_bytes(start, 4)?;
    Ok((u32_of(endian, bytes), after))
}

#[tactic(auto, unfolding(crate::specs::Unmarshal::number_at))]
fn read_u64(endian: Endian, cursor: Cursor<'_>) -> Result<(u64, Cursor<'_>), ValueFault>
    ensures { Reads (λ x. (x.0, spot_of x.1)) result (number_at endian w64 (spot_of cursor.entry)) }
{
    let start = skip_padding(cursor, 8)?;
    let (bytes, after) = take_bytes(start, 8)?;
    Ok((u64_of(endian, bytes), after))
}

// The bytes as a string, if they are UTF-8.
fn utf8_of(bytes: &[u8]) -> Option<&str>
    ensures { option_map (λ s. s.now) result
        ≡ (if is_utf8 bytes.now then Some bytes.now else None) }
{
    match str::from_utf8(bytes) {
        Ok(text) => Some(text),
        Err(_) => None,
    }
}

// A copy of the bytes, if they are a text.
fn text_of(alloc: Global, bytes: &[u8]) -> Result<Option<Text>, OutOfMemory>
    ensures { IfOk result (λ made. made ≡ (if is_text bytes.now then Some bytes.now else None)) }
{
    match utf8_of(bytes) {
        Some(string) => Text::from_str(alloc, string),
        None => Ok(None),
    }
}

#[tactic(auto, unfolding(crate::specs::Unmarshal::ended_at))]
fn read_ended(
    cursor: Cursor<'_>,
    count: usize,
    fault: ValueFault,
) -> Result<(&[u8], Cursor<'_>), ValueFault>
    requires { count < 2 ^ 32 }
    ensures { Reads (λ x. (x.0.now, spot_of x.1)) result
        (ended_at fault count (spot_of cursor.entry)) }
{
    let (bytes, after) = take_bytes(cursor, count + 1)?;
    if bytes[count] != 0 {
        return Err(fault);
    }
    Ok((&bytes[..count], after))
}

#[tactic(auto, unfolding(crate::specs::Unmarshal::string_at))]
fn read_string(
    alloc: Global,
    endian: Endian,
    cursor: Cursor<'_>,
) -> Result<(Text, Cursor<'_>), ValueFault>
    ensures { Reads (λ x. (x.0, spot_of x.1)) result (string_at endian (spot_of cursor.entry)) }
{
    let (count, start) = read_u32(endian, cursor)?;
    let (bytes, after) = read_ended(start, count as usize, ValueFault::BadText)?;
    let Some(text) = text_of(alloc, bytes)? else {
        return Err(ValueFault::BadText);
    };
    Ok((text, after))
}

#[tactic(auto, unfolding(crate::specs::Unmarshal::path_at))]
fn read_path(
    alloc: Global,
    endian: Endian,
    cursor: Cursor<'_>,
) -> Result<(ObjectPath, Cursor<'_>), ValueFault>
    ensures { Reads (λ x. (x.0, spot_of x.1)) result (path_at endian (spot_of cursor.entry)) }
{
    let (text, after) = read_string(alloc, endian, cursor)?;
    let Some(path) = ObjectPath::new(text) else {
        return Err(ValueFault::BadPath);
    };
    Ok((path, after))
}

/// A signature: its length in one byte, its text, and a zero byte.
#[tactic(auto, unfolding(crate::specs::Unmarshal::signature_value_at))]
pub fn read_signature(
    alloc: Global,
    endian: Endian,
    cursor: Cursor<'_>,
) -> Result<(Signature, Cursor<'_>), ValueFault>
    ensures { Reads (λ x. (types_in x.0, spot_of x.1)) result
        (signature_value_at endian (spot_of cursor.entry)) }
{
    let (count, start) = read_u8(endian, cursor)?;
    let (bytes, after) = read_ended(start, count as usize, ValueFault::BadSignature)?;
    let signature = parse_signature(alloc, bytes)?;
    Ok((signature, after))
}

// In a value, each fault of a signature becomes the same one: that it isn't a signature.
fn parse_signature(alloc: Global, bytes: &[u8]) -> Result<Signature, ValueFault>
    ensures { Reads types_in result (listed (signature_at bytes.now)) }
{
    match Signature::parse(alloc, bytes) {
        Ok(signature) => Ok(signature),
        Err(SignatureFault::OutOfMemory) => Err(ValueFault::OutOfMemory),
        Err(_) => Err(ValueFault::BadSignature),
    }
}

#[tactic(auto, unfolding(crate::specs::Unmarshal::basic_number_at))]
fn read_boolean(endian: Endian, cursor: Cursor<'_>) -> Result<(Value, Cursor<'_>), ValueFault>
    ensures any { (known : Ty) → Reads (λ x. (core_as known x.0, spot_of x.1)) result
        (basic_number_at endian BasicType.Boolean (spot_of cursor.entry)) }
{
    let (number, after) = read_u32(endian, cursor)?;
    if number > 1 {
        return Err(ValueFault::BadBool);
    }
    Ok((Value::Boolean(number == 1), after))
}

#[tactic(auto, unfolding(crate::specs::Unmarshal::basic_number_at))]
fn read_number(
    endian: Endian,
    basic: BasicType,
    cursor: Cursor<'_>,
) -> Result<(Value, Cursor<'_>), ValueFault>
    requires { IsTrue (is_number basic) }
    ensures any { (known : Ty) → Reads (λ x. (core_as known x.0, spot_of x.1)) result
        (basic_number_at endian basic (spot_of cursor.entry)) }
{
    match basic {
        BasicType::Byte => {
            let (number, after) = read_u8(endian, cursor)?;
            Ok((Value::Byte(number), after))
        }
        BasicType::Int16 => {
            let (number, after) = read_u16(endian, cursor)?;
            Ok((Value::Int16(number.cast_signed()), after))
        }
        BasicType::Uint16 => {
            let (number, after) = read_u16(endian, cursor)?;
            Ok((Value::Uint16(number), after))
        }
        BasicType::Int32 => {
            let (number, after) = read_u32(endian, cursor)?;
            Ok((Value::Int32(number.cast_signed()), after))
        }
        BasicType::Uint32 => {
            let (number, after) = read_u32(endian, cursor)?;
            Ok((Value::Uint32(number), after))
        }
        BasicType::Int64 => {
            let (number, after) = read_u64(endian, cursor)?;
            Ok((Value::Int64(number.cast_signed()), after))
        }
        BasicType::Uint64 => {
            let (number, after) = read_u64(endian, cursor)?;
            Ok((Value::Uint64(number), after))
        }
        BasicType::Double => {
            let (number, after) = read_u64(endian, cursor)?;
            Ok((Value::Double(number), after))
        }
        BasicType::UnixFd => {
            let (number, after) = read_u32(endian, cursor)?;
            Ok((Value::UnixFd(number), after))
        }
        BasicType::Boolean => read_boolean(endian, cursor),
        BasicType::String | BasicType::ObjectPath | BasicType::Signature => unreachable!(),
    }
}

/// A value of a basic type, which is read in the same way wherever it is.
#[tactic(auto, unfolding(crate::specs::Unmarshal::basic_at))]
pub fn read_basic(
    alloc: Global,
    endian: Endian,
    basic: BasicType,
    cursor: Cursor<'_>,
) -> Result<(Value, Cursor<'_>), ValueFault>
    ensures any { (known : Ty) → Reads (λ x. (core_as known x.0, spot_of x.1)) result
        (basic_at endian basic (spot_of cursor.entry)) }
{
    match basic {
        BasicType::String => {
            let (text, after) = read_string(alloc, endian, cursor)?;
            Ok((Value::String(Box::new(alloc, text)?), after))
        }
        BasicType::ObjectPath => {
            let (path, after) = read_path(alloc, endian, cursor)?;
            Ok((Value::ObjectPath(Box::new(alloc, path)?), after))
        }
        BasicType::Signature => {
            let (signature, after) = read_signature(alloc, endian, cursor)?;
            Ok((Value::Signature(Box::new(alloc, signature)?), after))
        }
        _ => read_number(endian, basic, cursor),
    }
}
