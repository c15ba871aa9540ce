ghost use Rattle.std.specs.Prelude.{◌≡◌, ◌<◌, ◌≤◌, ◌+◌, ◌*◌, ◌%◌, length, IfOk, IsTrue, Ok};
ghost use Rattle.dbus_types.specs.Views.{type_of, types_of};
ghost use Rattle.dbus_types.specs.SignatureViews.{types_in};
ghost use Rattle.dbus_types.specs.ValueViews.{value_as, values_of, each_as, fields_as, known_as};
ghost use Rattle.dbus_marshal.specs.Limits.{depth_limit};
ghost use Rattle.dbus_marshal.specs.Unmarshal.{Reads, value_at, variant_by, array_by, struct_by, entry_by, fields_by, elements_of, elements_from, values_at, only_type, with_values, with_fields};
ghost use Rattle.dbus_types.specs.Types.{Ty, texts_of};
ghost use Rattle.dbus_types.specs.Values.{Vals, tys_of};
ghost use Rattle.dbus_marshal.specs.Fitting.{HaveSpelling};
ghost use Rattle.dbus_marshal.specs.Counting.{counts};
ghost use Rattle.dbus_marshal.specs.Held.{all_parts};
ghost use Rattle.dbus_marshal.specs.Cursors.{spot_of};
ghost use Rattle.dbus_marshal.specs.Marshals.{AreSpelled};

use crate::cursor::Cursor;
use crate::limits::{ARRAY_LIMIT, DEPTH_LIMIT};
use crate::places::{alignment, is_byte};
use crate::reading::{read_basic, read_signature, read_u32, skip_padding, take_bytes};
use crate::refused::ValueFault;
use dbus_types::{
    BasicType, CompleteType, DictEntry, Endian, Signature, TypedArray, Value, lone_in,
};
use kr_base::Bytes;
use std::alloc::Global;

// A variant's signature lists one type.
fn only_of(types: &[CompleteType]) -> Result<&CompleteType, ValueFault>
    ensures { Reads (λ t. type_of t.now) result (only_type (types_of types.now)) }
{
    let Some((only, others)) = types.split_first() else {
        return Err(ValueFault::BadSignature);
    };
    if !others.is_empty() {
        return Err(ValueFault::BadSignature);
    }
    Ok(only)
}

// A value. What is in an array is made without the types that the array keeps.
#[cycle(readers)]
fn read_value<'a>(
    alloc: Global,
    depth: u8,
    endian: Endian,
    complete_type: &CompleteType,
    is_inner: bool,
    cursor: Cursor<'a>,
) -> Result<(Value, Cursor<'a>), ValueFault>
    ensures { Reads (λ x. (
      value_as (known_as is_inner (type_of complete_type.now)) x.0,
      spot_of
          x.1,
    ))
        result (value_at depth endian (type_of complete_type.now) (spot_of cursor.entry)) }
{
    if let CompleteType::Basic(basic) = complete_type {
        return read_basic(alloc, endian, *basic, cursor);
    }
    if depth == 0 {
        return Err(ValueFault::TooDeep);
    }
    match complete_type {
        CompleteType::Basic(_) => unreachable!(),
        CompleteType::Variant => read_variant(alloc, depth - 1, endian, cursor),
        CompleteType::Array(element) => read_array(
            alloc,
            depth - 1,
            endian,
            element,
            is_inner,
            cursor,
        ),
        CompleteType::Struct(types) => read_struct(
            alloc,
            depth - 1,
            endian,
            types.as_slice(),
            is_inner,
            cursor,
        ),
        CompleteType::DictEntry(key, value) => read_entry(
            alloc,
            depth - 1,
            endian,
            *key,
            value,
            is_inner,
            cursor,
        ),
    }
}

#[cycle(readers)]
#[tactic(auto, unfolding(crate::specs::Unmarshal::variant_by))]
fn read_variant<'a>(
    alloc: Global,
    depth: u8,
    endian: Endian,
    cursor: Cursor<'a>,
) -> Result<(Value, Cursor<'a>), ValueFault>
    ensures { Reads (λ x. (value_as Ty.variant x.0, spot_of x.1)) result
        (variant_by (value_at depth endian) endian (spot_of cursor.entry)) }
{
    let (signature, start) = read_signature(alloc, endian, cursor)?;
    let only = only_of(signature.types())?;
    let (value, after) = read_value(alloc, depth, endian, only, false, start)?;
    Ok((Value::Variant(Box::new(alloc, value)?), after))
}

#[cycle(readers)]
#[tactic(auto, unfolding(crate::specs::Unmarshal::array_by))]
fn read_array<'a>(
    alloc: Global,
    depth: u8,
    endian: Endian,
    element: &CompleteType,
    is_inner: bool,
    cursor: Cursor<'a>,
) -> Result<(Value, Cursor<'a>), ValueFault>
    ensures { Reads (λ x. (
      value_as (known_as is_inner (Ty.array (type_of element.now))) x.0,
      spot_of x.1,
    )) result (array_by (value_at depth endian (type_of element.now)) endian
        (type_of element.now) (spot_of cursor.entry)) }
{
    let (count, start) = read_u32(endian, cursor)?;
    if count as usize > ARRAY_LIMIT {
        return Err(ValueFault::ArrayTooLong);
    }
    let start = skip_padding(start, alignment(element))?;
    let place = start.place;
    let (bytes, after) = take_bytes(start, count as usize)?;
    let elements = Cursor { place, left: bytes };
    let array = read_elements(alloc, depth, endian, element, is_inner, elements)?;
    Ok((array, after))
}

#[cycle(readers)]
#[tactic(auto, unfolding(crate::specs::Unmarshal::elements_of))]
fn read_elements(
    alloc: Global,
    depth: u8,
    endian: Endian,
    element: &CompleteType,
    is_inner: bool,
    cursor: Cursor<'_>,
) -> Result<Value, ValueFault>
    ensures { Reads (value_as (known_as is_inner (Ty.array (type_of element.now)))) result
        (elements_of (value_at depth endian (type_of element.now))
        (type_of element.now) (spot_of cursor.entry)) }
{
    if is_byte(element) {
        let bytes = Bytes::from_slice(alloc, cursor.left)?;
        let whole = Box::new(alloc, bytes)?;
        return Ok(Value::Bytes(whole));
    }
    let mut values = read_each(alloc, depth, endian, element, cursor)?;
    values.shrink_to_fit();
    if is_inner {
        let inner = Box::new(alloc, values)?;
        return Ok(Value::InnerArray(inner));
    }
    let element = element.copy(alloc)?;
    let array = Box::new(alloc, TypedArray { element, values })?;
    Ok(Value::Array(array))
}

#[cycle(readers)]
fn read_each(
    alloc: Global,
    depth: u8,
    endian: Endian,
    element: &CompleteType,
    cursor: Cursor<'_>,
) -> Result<Vec<Value>, ValueFault>
    ensures { Reads (λ x. each_as (type_of element.now) x.items) result
        (elements_from (value_at depth endian (type_of element.now)) (length cursor.entry.left.now)
        (spot_of cursor.entry) cursor.entry.left.now) }
{
    let count = cursor.left.len();
    let mut values = Vec::new(alloc);
    let mut rest = cursor;
    for _ in 0..count {
        if rest.left.is_empty() {
            return Ok(values);
        }
        let (value, after) = read_value(alloc, depth, endian, element, true, rest)?;
        values.push(value)?;
        rest = after;
    }
    if rest.left.is_empty() {
        return Ok(values);
    }
    Err(ValueFault::Short)
}

#[cycle(readers)]
#[tactic(auto, unfolding(crate::specs::Unmarshal::struct_by))]
fn read_struct<'a>(
    alloc: Global,
    depth: u8,
    endian: Endian,
    types: &[CompleteType],
    is_inner: bool,
    cursor: Cursor<'a>,
) -> Result<(Value, Cursor<'a>), ValueFault>
    ensures { Reads (λ x. (
      value_as (known_as is_inner (Ty.struct (types_of types.now))) x.0,
      spot_of x.1,
    )) result
        (struct_by (value_at depth endian) (types_of types.now) (spot_of cursor.entry)) }
{
    let start = skip_padding(cursor, 8)?;
    if let Some(only) = lone_in(types, is_inner) {
        return read_value(alloc, depth, endian, only, true, start);
    }
    let (fields, after) = read_fields(alloc, depth, endian, types, is_inner, start)?;
    let value = Value::structure(alloc, fields)?;
    Ok((value, after))
}

#[cycle(readers)]
fn read_fields<'a>(
    alloc: Global,
    depth: u8,
    endian: Endian,
    types: &[CompleteType],
    is_inner: bool,
    cursor: Cursor<'a>,
) -> Result<(Vec<Value>, Cursor<'a>), ValueFault>
    ensures { Reads (λ x. (fields_as is_inner (types_of types.now) x.0.items, spot_of x.1))
        result (fields_by (value_at depth endian) (types_of types.now) (spot_of cursor.entry)) }
{
    let mut values = Vec::with_capacity(alloc, types.len())?;
    let mut rest = cursor;
    let mut left = types;
    while let Some((next, others)) = left.split_first() {
        let (value, after) = read_value(alloc, depth, endian, next, is_inner, rest)?;
        values.push(value)?;
        rest = after;
        left = others;
    }
    Ok((values, rest))
}

#[cycle(readers)]
#[tactic(auto, unfolding(crate::specs::Unmarshal::entry_by))]
fn read_entry<'a>(
    alloc: Global,
    depth: u8,
    endian: Endian,
    key: BasicType,
    complete_type: &CompleteType,
    is_inner: bool,
    cursor: Cursor<'a>,
) -> Result<(Value, Cursor<'a>), ValueFault>
    ensures { Reads (λ x. (
      value_as (known_as is_inner (Ty.entry key (type_of complete_type.now))) x.0,
      spot_of x.1,
    )) result (entry_by (value_at depth endian) endian key
        (type_of complete_type.now) (spot_of cursor.entry)) }
{
    let start = skip_padding(cursor, 8)?;
    let (key, behind) = read_basic(alloc, endian, key, start)?;
    let (value, after) = read_value(alloc, depth, endian, complete_type, is_inner, behind)?;
    let entry = Box::new(alloc, DictEntry { key, value })?;
    Ok((Value::DictEntry(entry), after))
}

// The values of the types, which all of the bytes spell.
#[tactic(auto, unfolding(crate::specs::Unmarshal::values_at))]
fn read_values(
    alloc: Global,
    types: &[CompleteType],
    endian: Endian,
    place: u64,
    bytes: &[u8],
) -> Result<Vec<Value>, ValueFault>
    ensures { Reads (λ x. values_of x.items) result
        (values_at endian (types_of types.now) (record { place = place % 8; left = bytes.now })) }
{
    let start = Cursor {
        place: (place % 8) as usize,
        left: bytes,
    };
    let (values, after) = read_fields(alloc, DEPTH_LIMIT, endian, types, false, start)?;
    if !after.left.is_empty() {
        return Err(ValueFault::Rest);
    }
    Ok(values)
}

/// Reads the values of a signature's types, which the bytes spell (D-Bus Specification,
/// "Marshaling"). `place` is the position of the first byte, counted from the message's start.
///
/// Refused with the first fault from the left: a container that is too deep is refused before
/// anything of it is looked at, padding by the bytes that are there before `Short`, and a length
/// that passes the end before what it counts. `Rest` comes if all values were read, and
/// `OutOfMemory` if no memory was left.
pub fn unmarshal(
    alloc: Global,
    signature: &Signature,
    endian: Endian,
    place: u64,
    bytes: &[u8],
) -> Result<Vec<Value>, ValueFault>
    // Values are read exactly if the bytes are their spelling.
    ensures found { IfOk result (λ x.
        AreSpelled endian place (types_in signature.now) (values_of x.items) bytes.now) }
    ensures only { (vs : Vals) → AreSpelled endian place (types_in signature.now) vs bytes.now
        → Reads (λ x. values_of x.items) result (Ok vs) }

    // Which fault is returned.
    ensures exact { Reads (λ x. values_of x.items) result (values_at endian (types_in signature.now)
        (record { place = place % 8; left = bytes.now })) }

    // The values have these types and can be written, and their number is bounded by that of the bytes.
    ensures types { IfOk result (λ x. tys_of (values_of x.items) ≡ types_in signature.now) }
    ensures fits { IfOk result (λ x. HaveSpelling (values_of x.items)) }
    ensures few { IfOk result (λ x. counts (values_of x.items)
        ≤ (depth_limit + 1) * length bytes.now) }

    // All that they take in memory is at most two parts for each byte, and one for each byte
    // of the signature.
    ensures held { IfOk result (λ x. all_parts (values_of x.items)
        ≤ 2 * length bytes.now + length (texts_of (types_in signature.now))) }
{
    let types = signature.types();
    read_values(alloc, types, endian, place, bytes)
}
