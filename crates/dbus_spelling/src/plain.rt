ghost use Rattle.std.specs.Prelude.{◌≡◌, ◌<◌, ◌≤◌, ◌++◌, [], ◌∷◌, length, IfOk};
ghost use Rattle.std.specs.Int.{w8, w16, w32, w64};
ghost use Rattle.dbus_types.specs.declared.complete_type.BasicType.TheVariants.{String, Signature};
ghost use Rattle.dbus_types.specs.Values.{Val};
ghost use Rattle.dbus_types.specs.Views.{type_of, types_of};
ghost use Rattle.dbus_types.specs.ValueViews.{value_of, values_of, value_as, core_as, each_as, all_as, fields_of, held_of, in_variant, typed_array, struct_fields};
ghost use Rattle.dbus_marshal.specs.Wire.{behind, number_bytes};
ghost use Rattle.dbus_marshal.specs.Spelling.{aligned, text_spelled, array_spelled, spelled, all_spelled};

use crate::OutOfMemory;
use crate::numbers::{
    aligned, bytes_of_u8, bytes_of_u16, bytes_of_u32, bytes_of_u64, joined, start_of,
};
use crate::texts::{text_of_value_type, texts_of_types};
use dbus_marshal::alignment;
use dbus_types::{
    CompleteType, DictEntry, Endian, TypedArray, Value, core_of, element_of, fields_in, held_of,
    is_array, is_variant, wrapping,
};
use std::alloc::Global;

fn behind(place: usize, count: usize) -> usize
    requires { place < 8 }
    ensures value { result ≡ behind place count }
    ensures below { result < 8 }
{
    (place + count % 8) % 8
}

// A string or an object path.
fn text(alloc: Global, endian: Endian, bytes: &[u8], place: usize) -> Result<Vec<u8>, OutOfMemory>
    ensures { IfOk result (λ made. made.items ≡ text_spelled endian String bytes.now place) }
{
    let count = bytes_of_u32(alloc, endian, (bytes.len() % 4_294_967_296) as u32)?;
    let ended = joined(alloc, bytes, &[0])?;
    let whole = joined(alloc, count.as_slice(), ended.as_slice())?;
    let made = aligned(alloc, 4, place, whole.as_slice())?;
    Ok(made)
}

// A signature with this text.
fn signature(
    alloc: Global,
    endian: Endian,
    bytes: &[u8],
    place: usize,
) -> Result<Vec<u8>, OutOfMemory>
    ensures { IfOk result (λ made. made.items ≡ text_spelled endian Signature bytes.now place) }
{
    let count = bytes_of_u8(alloc, endian, (bytes.len() % 256) as u8)?;
    let ended = joined(alloc, bytes, &[0])?;
    let whole = joined(alloc, count.as_slice(), ended.as_slice())?;
    let made = aligned(alloc, 1, place, whole.as_slice())?;
    Ok(made)
}

// An array with these bytes of elements.
fn array(
    alloc: Global,
    endian: Endian,
    alignment: usize,
    elements: &[u8],
    place: usize,
) -> Result<Vec<u8>, OutOfMemory>
    requires some { 0 < alignment }
    requires most { alignment ≤ 8 }
    requires place { place < 8 }
    ensures { IfOk result (λ made. made.items ≡ array_spelled endian alignment place elements.now) }
{
    let first = behind(start_of(4, place), 4);
    let inner = aligned(alloc, alignment, first, elements)?;
    let count = bytes_of_u32(alloc, endian, (elements.len() % 4_294_967_296) as u32)?;
    let whole = joined(alloc, count.as_slice(), inner.as_slice())?;
    let made = aligned(alloc, 4, place, whole.as_slice())?;
    Ok(made)
}

// An array of bytes.
fn array_of_bytes(
    alloc: Global,
    endian: Endian,
    bytes: &[u8],
    place: usize,
) -> Result<Vec<u8>, OutOfMemory>
    requires { place < 8 }
    ensures { IfOk result (λ made. made.items
        ≡ spelled endian (Val.bytes bytes.now) place) }
{
    let made = array(alloc, endian, 1, bytes, place)?;
    Ok(made)
}

// A number of 8 bits, at a multiple of its bytes.
fn number8(alloc: Global, endian: Endian, number: u8, place: usize) -> Result<Vec<u8>, OutOfMemory>
    ensures { IfOk result (λ made. made.items
        ≡ aligned 1 place (number_bytes endian w8 number)) }
{
    let bytes = bytes_of_u8(alloc, endian, number)?;
    let made = aligned(alloc, 1, place, bytes.as_slice())?;
    Ok(made)
}

// A number of 16 bits, at a multiple of its bytes.
fn number16(
    alloc: Global,
    endian: Endian,
    number: u16,
    place: usize,
) -> Result<Vec<u8>, OutOfMemory>
    ensures { IfOk result (λ made. made.items
        ≡ aligned 2 place (number_bytes endian w16 number)) }
{
    let bytes = bytes_of_u16(alloc, endian, number)?;
    let made = aligned(alloc, 2, place, bytes.as_slice())?;
    Ok(made)
}

// A number of 32 bits, at a multiple of its bytes.
fn number32(
    alloc: Global,
    endian: Endian,
    number: u32,
    place: usize,
) -> Result<Vec<u8>, OutOfMemory>
    ensures { IfOk result (λ made. made.items
        ≡ aligned 4 place (number_bytes endian w32 number)) }
{
    let bytes = bytes_of_u32(alloc, endian, number)?;
    let made = aligned(alloc, 4, place, bytes.as_slice())?;
    Ok(made)
}

// A number of 64 bits, at a multiple of its bytes.
fn number64(
    alloc: Global,
    endian: Endian,
    number: u64,
    place: usize,
) -> Result<Vec<u8>, OutOfMemory>
    ensures { IfOk result (λ made. made.items
        ≡ aligned 8 place (number_bytes endian w64 number)) }
{
    let bytes = bytes_of_u64(alloc, endian, number)?;
    let made = aligned(alloc, 8, place, bytes.as_slice())?;
    Ok(made)
}

// The fields of a struct or a dict entry with the padding.
fn padded(alloc: Global, fields: &[u8], place: usize) -> Result<Vec<u8>, OutOfMemory>
    ensures { IfOk result (λ made. made.items ≡ aligned 8 place fields.now) }
{
    aligned(alloc, 8, place, fields)
}

// A value in a place where it can't be is spelled as a struct without fields.
fn nothing(alloc: Global, place: usize) -> Result<Vec<u8>, OutOfMemory>
    ensures { IfOk result (λ made. made.items ≡ aligned 8 place []) }
{
    aligned(alloc, 8, place, &[])
}

/// The bytes of a value that isn't in an array. The position is counted modulo 8.
pub fn spelling(
    alloc: Global,
    endian: Endian,
    value: &Value,
    place: usize,
) -> Result<Vec<u8>, OutOfMemory>
    requires { place < 8 }
    ensures { IfOk result (λ made. made.items ≡ spelled endian (value_of value.now) place) }
{
    spelling_as(alloc, endian, value, &CompleteType::Variant, place)
}

/// The bytes of values that aren't in an array, one after the other.
pub fn spelling_of_all(
    alloc: Global,
    endian: Endian,
    values: &[Value],
    place: usize,
) -> Result<Vec<u8>, OutOfMemory>
    requires { place < 8 }
    ensures { IfOk result (λ made. made.items ≡ all_spelled endian (values_of values.now) place) }
{
    spelling_of_each(alloc, endian, values, &CompleteType::Variant, place)
}

// A value whose type is known from where it is.
#[cycle(plain)]
fn spelling_as(
    alloc: Global,
    endian: Endian,
    value: &Value,
    known: &CompleteType,
    place: usize,
) -> Result<Vec<u8>, OutOfMemory>
    requires { place < 8 }
    ensures { IfOk result (λ made. made.items
        ≡ spelled endian (value_as (type_of known.now) value.now) place) }
{
    let around = wrapping(known);
    let start = start_of(around, place);
    let inner = core_spelling(alloc, endian, value, core_of(known), start)?;
    let made = aligned(alloc, around, place, inner.as_slice())?;
    Ok(made)
}

// A value with no struct of one field around it.
#[cycle(plain)]
fn core_spelling(
    alloc: Global,
    endian: Endian,
    value: &Value,
    known: &CompleteType,
    place: usize,
) -> Result<Vec<u8>, OutOfMemory>
    requires { place < 8 }
    ensures { IfOk result (λ made. made.items
        ≡ spelled endian (core_as (type_of known.now) value.now) place) }
{
    if let Some(fields) = value.fields() {
        return struct_spelling(alloc, endian, fields, known, place);
    }
    match value {
        Value::Byte(it) => number8(alloc, endian, *it, place),
        Value::Boolean(it) => number32(alloc, endian, u32::from(*it), place),
        Value::Int16(it) => number16(alloc, endian, it.cast_unsigned(), place),
        Value::Uint16(it) => number16(alloc, endian, *it, place),
        Value::Int32(it) => number32(alloc, endian, it.cast_unsigned(), place),
        Value::Uint32(it) => number32(alloc, endian, *it, place),
        Value::Int64(it) => number64(alloc, endian, it.cast_unsigned(), place),
        Value::Uint64(it) => number64(alloc, endian, *it, place),
        Value::Double(it) => number64(alloc, endian, *it, place),
        Value::UnixFd(it) => number32(alloc, endian, *it, place),
        Value::String(it) => text(alloc, endian, it.as_bytes(), place),
        Value::ObjectPath(it) => text(alloc, endian, it.as_bytes(), place),
        Value::Signature(it) => {
            let types = texts_of_types(alloc, it.types())?;
            signature(alloc, endian, types.as_slice(), place)
        }
        Value::Bytes(it) => {
            let made = array_of_bytes(alloc, endian, it.as_slice(), place)?;
            Ok(made)
        }
        Value::Variant(inner) => variant_spelling(alloc, endian, inner, known, place),
        Value::Array(array) => typed_array_spelling(alloc, endian, array, known, place),
        Value::InnerArray(values) => array_spelling(
            alloc,
            endian,
            values.as_slice(),
            element_of(known),
            place,
        ),
        Value::DictEntry(entry) => entry_spelling(alloc, endian, entry, known, place),
        Value::Struct(_) | Value::Pair(_) => unreachable!(),
    }
}

#[cycle(plain)]
fn variant_spelling(
    alloc: Global,
    endian: Endian,
    value: &Value,
    known: &CompleteType,
    place: usize,
) -> Result<Vec<u8>, OutOfMemory>
    requires { place < 8 }
    ensures { IfOk result (λ made. made.items
        ≡ spelled endian (in_variant (type_of known.now) (value_of value.now)) place) }
{
    if !is_variant(known) {
        return nothing(alloc, place);
    }
    let types = text_of_value_type(alloc, value)?;
    let front = signature(alloc, endian, types.as_slice(), place)?;
    let rest = spelling_as(alloc, endian, value, known, behind(place, front.len()))?;
    let made = joined(alloc, front.as_slice(), rest.as_slice())?;
    Ok(made)
}

#[cycle(plain)]
fn typed_array_spelling(
    alloc: Global,
    endian: Endian,
    array: &TypedArray,
    known: &CompleteType,
    place: usize,
) -> Result<Vec<u8>, OutOfMemory>
    requires { place < 8 }
    ensures { IfOk result (λ made. made.items
        ≡ spelled endian (typed_array (type_of known.now) (type_of array.now.element)
        (each_as (type_of array.now.element) array.now.values.items)) place) }
{
    if is_array(known) {
        return nothing(alloc, place);
    }
    array_spelling(
        alloc,
        endian,
        array.values.as_slice(),
        &array.element,
        place,
    )
}

#[cycle(plain)]
fn array_spelling(
    alloc: Global,
    endian: Endian,
    values: &[Value],
    element: &CompleteType,
    place: usize,
) -> Result<Vec<u8>, OutOfMemory>
    requires { place < 8 }
    ensures { IfOk result (λ made. made.items ≡ spelled endian
        (Val.array (type_of element.now) (each_as (type_of element.now) values.now)) place) }
{
    let around = alignment(element);
    let four = behind(start_of(4, place), 4);
    let first = start_of(around, four);
    let elements = spelling_of_each(alloc, endian, values, element, first)?;
    let made = array(alloc, endian, around, elements.as_slice(), place)?;
    Ok(made)
}

#[cycle(plain)]
fn struct_spelling(
    alloc: Global,
    endian: Endian,
    fields: &[Value],
    known: &CompleteType,
    place: usize,
) -> Result<Vec<u8>, OutOfMemory>
    requires { place < 8 }
    ensures { IfOk result (λ made. made.items ≡ spelled endian
        (Val.struct (struct_fields (type_of known.now)
        (all_as (fields_of (type_of known.now)) fields.now) (each_as (type_of known.now)
        fields.now)))
        place) }
{
    let start = start_of(8, place);
    if let Some(types) = fields_in(known) {
        let inner = spelling_of_fields(alloc, endian, fields, types, start)?;
        let made = padded(alloc, inner.as_slice(), place)?;
        return Ok(made);
    }
    let inner = spelling_of_each(alloc, endian, fields, known, start)?;
    let made = padded(alloc, inner.as_slice(), place)?;
    Ok(made)
}

#[cycle(plain)]
fn entry_spelling(
    alloc: Global,
    endian: Endian,
    entry: &DictEntry,
    known: &CompleteType,
    place: usize,
) -> Result<Vec<u8>, OutOfMemory>
    requires { place < 8 }
    ensures { IfOk result (λ made. made.items ≡ spelled endian
        (Val.entry (value_as (type_of known.now) entry.now.key)
        (value_as (held_of (type_of known.now)) entry.now.value)) place) }
{
    let start = start_of(8, place);
    let key = spelling_as(alloc, endian, &entry.key, known, start)?;
    let rest = spelling_as(
        alloc,
        endian,
        &entry.value,
        held_of(known),
        behind(start, key.len()),
    )?;
    let inner = joined(alloc, key.as_slice(), rest.as_slice())?;
    let made = padded(alloc, inner.as_slice(), place)?;
    Ok(made)
}

// Values of one known type, one after the other.
#[cycle(plain)]
fn spelling_of_each(
    alloc: Global,
    endian: Endian,
    values: &[Value],
    known: &CompleteType,
    place: usize,
) -> Result<Vec<u8>, OutOfMemory>
    requires { place < 8 }
    ensures { IfOk result (λ made. made.items
        ≡ all_spelled endian (each_as (type_of known.now) values.now) place) }
{
    let mut made = Vec::new(alloc);
    for each in values {
        let next = spelling_as(alloc, endian, each, known, behind(place, made.len()))?;
        made.extend_from_slice(next.as_slice())?;
    }
    Ok(made)
}

// Values whose types are known, one after the other.
#[cycle(plain)]
fn spelling_of_fields(
    alloc: Global,
    endian: Endian,
    values: &[Value],
    types: &[CompleteType],
    place: usize,
) -> Result<Vec<u8>, OutOfMemory>
    requires { place < 8 }
    ensures { IfOk result (λ made. made.items
        ≡ all_spelled endian (all_as (types_of types.now) values.now) place) }
{
    let mut made = Vec::new(alloc);
    let mut left = types;
    for each in values {
        let at = behind(place, made.len());
        match left.split_first() {
            Some((first, others)) => {
                let next = spelling_as(alloc, endian, each, first, at)?;
                made.extend_from_slice(next.as_slice())?;
                left = others;
            }
            None => {
                let next = nothing(alloc, at)?;
                made.extend_from_slice(next.as_slice())?;
            }
        }
    }
    Ok(made)
}
