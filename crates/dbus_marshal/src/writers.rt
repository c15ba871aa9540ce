ghost use Rattle.std.specs.Prelude.{◌≡◌, ◌+◌, ◌*◌, ◌%◌, ◌<◌, ◌≤◌, ◌++◌, ◌&&◌, [], ◌∷◌, nat_le, length, take, drop, true, IfOk, IsErrOf, IsTrue, IsFalse, Ok, OnOk};
ghost use Rattle.std.specs.Int.{w8, w32};
ghost use Rattle.dbus_types.specs.declared.complete_type.BasicType.TheVariants.{Signature};
ghost use Rattle.dbus_types.specs.Types.{text_of, texts_of};
ghost use Rattle.dbus_types.specs.Values.{Val, ty_of};
ghost use Rattle.dbus_types.specs.Views.{type_of, types_of};
ghost use Rattle.dbus_types.specs.ValueViews.{value_of, value_as, core_as, each_as, all_as, fields_of, held_of, in_variant, typed_array, struct_fields};
ghost use Rattle.dbus_marshal.specs.Wire.{behind, start_of, padding, zeros, number_bytes};
ghost use Rattle.dbus_marshal.specs.Spelling.{aligned, spelled, all_spelled, array_spelled, first_at, is_short, are_short, text_spelled};
ghost use Rattle.dbus_marshal.specs.Writing.{Writes};

use crate::OutOfMemory;
use crate::limits::ARRAY_LIMIT;
use crate::places::alignment;
use crate::refused::MarshalFault;
use crate::type_text::{write_type_of, write_types};
use crate::writing::{
    bytes_of_u8, bytes_of_u32, pad, put_u32, write_text, write_u8, write_u16, write_u32, write_u64,
};
use dbus_types::{
    CompleteType, DictEntry, Endian, TypedArray, Value, core_of, element_of, fields_in, held_of,
    is_array, is_variant, wrapping,
};

// Writes the length of a text into the byte at the mark.
fn put_length(out: &mut Vec<u8>, mark: usize, endian: Endian, count: u8)
    requires { mark + 1 ≤ length out.old.items }
    ensures { out.new.items ≡ take mark out.old.items
        ++ (number_bytes endian w8 count ++ drop (mark + 1) out.old.items) }
{
    out[mark..mark + 1].copy_from_slice(&bytes_of_u8(endian, count));
}

// Ends the text that starts after the byte at the mark, and writes its length there. For a text of
// more than 255 bytes, which no signature has, it writes the lower bits.
fn end_signature(out: &mut Vec<u8>, mark: usize, endian: Endian) -> Result<(), OutOfMemory>
    requires { mark + 1 ≤ length out.old.items }
    ensures { OnOk result (out.new.items ≡ take mark out.old.items
        ++ (number_bytes endian w8 (length (drop (mark + 1) out.old.items))
        ++ (drop (mark + 1) out.old.items ++ 0 ∷ []))) }
{
    let count = out.len() - mark - 1;
    put_length(out, mark, endian, (count % 256) as u8);
    out.push(0)?;
    Ok(())
}

// A signature is its length in one byte, the text, and a zero byte.
fn write_signature(
    out: &mut Vec<u8>,
    phase: usize,
    endian: Endian,
    types: &[CompleteType],
) -> Result<(), MarshalFault>
    ensures { Writes result (text_spelled endian Signature (texts_of (types_of types.now))
        (behind phase (length out.old.items))) true out.old.items out.new.items }
{
    let mark = out.len();
    out.push(0)?;
    write_types(out, types)?;
    end_signature(out, mark, endian)?;
    Ok(())
}

// Writes the signature of a value's type.
fn write_signature_of(
    out: &mut Vec<u8>,
    phase: usize,
    endian: Endian,
    value: &Value,
) -> Result<(), MarshalFault>
    ensures { Writes result (text_spelled endian Signature (text_of (ty_of (value_of value.now)))
        (behind phase (length out.old.items))) true out.old.items out.new.items }
{
    let mark = out.len();
    out.push(0)?;
    write_type_of(out, value)?;
    end_signature(out, mark, endian)?;
    Ok(())
}

// An array of bytes is written in one go.
fn write_bytes(
    out: &mut Vec<u8>,
    phase: usize,
    endian: Endian,
    bytes: &[u8],
) -> Result<(), MarshalFault>
    ensures { Writes result
        (spelled endian (Val.bytes bytes.now) (behind phase (length out.old.items)))
        (is_short endian (Val.bytes bytes.now) (behind phase (length out.old.items)))
        out.old.items out.new.items }
{
    if bytes.len() > ARRAY_LIMIT {
        return Err(MarshalFault::TooLong);
    }
    write_u32(out, phase, endian, bytes.len() as u32)?;
    out.extend_from_slice(bytes)?;
    Ok(())
}

// Writes four bytes at the mark for the length of an array, and the padding of its first element.
fn open_array(
    out: &mut Vec<u8>,
    phase: usize,
    endian: Endian,
    alignment: usize,
) -> Result<usize, OutOfMemory>
    requires some { 0 < alignment }
    requires most { alignment ≤ 8 }
    ensures opens { IfOk result (λ mark. out.new.items ≡ out.old.items
        ++ (zeros (padding 4 (behind phase (length out.old.items)))
        ++ (number_bytes endian w32 0 ++ zeros (padding alignment (behind phase (mark + 4)))))) }
    ensures mark { IfOk result (λ mark. mark ≡ length out.old.items
        + length (zeros (padding 4 (behind phase (length out.old.items))))) }
{
    pad(out, phase, 4)?;
    let mark = out.len();
    put_u32(out, endian, 0)?;
    pad(out, phase, alignment)?;
    Ok(mark)
}

// Writes the length of an array into its four bytes.
fn close_array(out: &mut Vec<u8>, mark: usize, endian: Endian, count: u32)
    requires { mark + 4 ≤ length out.old.items }
    ensures { out.new.items ≡ take mark out.old.items
        ++ (number_bytes endian w32 count ++ drop (mark + 4) out.old.items) }
{
    out[mark..mark + 4].copy_from_slice(&bytes_of_u32(endian, count));
}

/// Writes a value with its padding (D-Bus Specification, "Marshaling"). `known` is what is known of
/// its type from where it is, as in an array; if nothing is known, `known` is a variant.
#[cycle(writers)]
pub fn write_value(
    out: &mut Vec<u8>,
    phase: usize,
    endian: Endian,
    value: &Value,
    known: &CompleteType,
) -> Result<(), MarshalFault>
    ensures { Writes result (spelled endian (value_as (type_of known.now) value.now)
        (behind phase (length out.old.items)))
        (is_short endian (value_as (type_of known.now) value.now)
        (behind phase (length out.old.items)))
        out.old.items out.new.items }
{
    pad(out, phase, wrapping(known))?;
    write_core(out, phase, endian, value, core_of(known))
}

// A value with no struct of one field around it.
#[cycle(writers)]
fn write_core(
    out: &mut Vec<u8>,
    phase: usize,
    endian: Endian,
    value: &Value,
    known: &CompleteType,
) -> Result<(), MarshalFault>
    ensures { Writes result (spelled endian (core_as (type_of known.now) value.now)
        (behind phase (length out.old.items)))
        (is_short endian (core_as (type_of known.now) value.now)
        (behind phase (length out.old.items)))
        out.old.items out.new.items }
{
    if let Some(fields) = value.fields() {
        return write_struct(out, phase, endian, fields, known);
    }
    match value {
        Value::Byte(number) => write_u8(out, phase, endian, *number),
        Value::Boolean(is_true) => write_u32(out, phase, endian, u32::from(*is_true)),
        Value::Int16(number) => write_u16(out, phase, endian, number.cast_unsigned()),
        Value::Uint16(number) => write_u16(out, phase, endian, *number),
        Value::Int32(number) => write_u32(out, phase, endian, number.cast_unsigned()),
        Value::Uint32(number) => write_u32(out, phase, endian, *number),
        Value::Int64(number) => write_u64(out, phase, endian, number.cast_unsigned()),
        Value::Uint64(number) => write_u64(out, phase, endian, *number),
        Value::Double(bits) => write_u64(out, phase, endian, *bits),
        Value::UnixFd(number) => write_u32(out, phase, endian, *number),
        Value::String(text) => write_text(out, phase, endian, text.as_bytes()),
        Value::ObjectPath(path) => write_text(out, phase, endian, path.as_bytes()),
        Value::Signature(signature) => write_signature(out, phase, endian, signature.types()),
        Value::Variant(inner) => write_variant(out, phase, endian, inner, known),
        Value::Bytes(bytes) => write_bytes(out, phase, endian, bytes.as_slice()),
        Value::Array(array) => write_typed_array(out, phase, endian, array, known),
        Value::InnerArray(values) => write_array(
            out,
            phase,
            endian,
            values.as_slice(),
            element_of(known),
        ),
        Value::DictEntry(entry) => write_entry(out, phase, endian, entry, known),
        Value::Struct(_) | Value::Pair(_) => unreachable!(),
    }
}

// A variant may be only where one is known, or where nothing is known.
#[cycle(writers)]
fn write_variant(
    out: &mut Vec<u8>,
    phase: usize,
    endian: Endian,
    value: &Value,
    known: &CompleteType,
) -> Result<(), MarshalFault>
    ensures { Writes result (spelled endian (in_variant (type_of known.now) (value_of value.now))
        (behind phase (length out.old.items)))
        (is_short endian (in_variant (type_of known.now) (value_of value.now))
        (behind phase (length out.old.items)))
        out.old.items out.new.items }
{
    if !is_variant(known) {
        pad(out, phase, 8)?;
        return Ok(());
    }
    write_signature_of(out, phase, endian, value)?;
    write_value(out, phase, endian, value, known)
}

// An array with a type of its own may be only where no type is known.
#[cycle(writers)]
fn write_typed_array(
    out: &mut Vec<u8>,
    phase: usize,
    endian: Endian,
    array: &TypedArray,
    known: &CompleteType,
) -> Result<(), MarshalFault>
    ensures { Writes result
        (spelled endian (typed_array (type_of known.now) (type_of array.now.element)
        (each_as (type_of array.now.element) array.now.values.items))
        (behind phase (length out.old.items)))
        (is_short endian (typed_array (type_of known.now) (type_of array.now.element)
        (each_as (type_of array.now.element) array.now.values.items))
        (behind phase (length out.old.items)))
        out.old.items out.new.items }
{
    if is_array(known) {
        pad(out, phase, 8)?;
        return Ok(());
    }
    write_array(out, phase, endian, array.values.as_slice(), &array.element)
}

#[cycle(writers)]
fn write_array(
    out: &mut Vec<u8>,
    phase: usize,
    endian: Endian,
    values: &[Value],
    element: &CompleteType,
) -> Result<(), MarshalFault>
    ensures { Writes result
        (spelled endian (Val.array (type_of element.now) (each_as (type_of element.now) values.now))
        (behind phase (length out.old.items)))
        (is_short endian (Val.array (type_of element.now) (each_as (type_of element.now)
        values.now))
        (behind phase (length out.old.items)))
        out.old.items out.new.items }
{
    let alignment = alignment(element);
    let mark = open_array(out, phase, endian, alignment)?;
    let start = out.len();
    write_each(out, phase, endian, values, element)?;
    let count = out.len() - start;
    if count > ARRAY_LIMIT {
        return Err(MarshalFault::TooLong);
    }
    close_array(out, mark, endian, count as u32);
    Ok(())
}

#[cycle(writers)]
fn write_struct(
    out: &mut Vec<u8>,
    phase: usize,
    endian: Endian,
    fields: &[Value],
    known: &CompleteType,
) -> Result<(), MarshalFault>
    ensures { Writes result
        (spelled endian (Val.struct (struct_fields (type_of known.now)
        (all_as (fields_of (type_of known.now)) fields.now) (each_as (type_of known.now)
        fields.now)))
        (behind phase (length out.old.items)))
        (is_short endian (Val.struct (struct_fields (type_of known.now)
        (all_as (fields_of (type_of known.now)) fields.now) (each_as (type_of known.now)
        fields.now)))
        (behind phase (length out.old.items)))
        out.old.items out.new.items }
{
    pad(out, phase, 8)?;
    if let Some(types) = fields_in(known) {
        return write_all(out, phase, endian, fields, types);
    }
    write_each(out, phase, endian, fields, known)
}

#[cycle(writers)]
fn write_entry(
    out: &mut Vec<u8>,
    phase: usize,
    endian: Endian,
    entry: &DictEntry,
    known: &CompleteType,
) -> Result<(), MarshalFault>
    ensures { Writes result
        (spelled endian (Val.entry (value_as (type_of known.now) entry.now.key)
        (value_as (held_of (type_of known.now)) entry.now.value)) (behind phase (length
        out.old.items)))
        (is_short endian (Val.entry (value_as (type_of known.now) entry.now.key)
        (value_as (held_of (type_of known.now)) entry.now.value)) (behind phase (length
        out.old.items)))
        out.old.items out.new.items }
{
    pad(out, phase, 8)?;
    write_value(out, phase, endian, &entry.key, known)?;
    write_value(out, phase, endian, &entry.value, held_of(known))
}

/// Writes values of one known type, one after the other.
#[cycle(writers)]
pub fn write_each(
    out: &mut Vec<u8>,
    phase: usize,
    endian: Endian,
    values: &[Value],
    known: &CompleteType,
) -> Result<(), MarshalFault>
    ensures { Writes result (all_spelled endian (each_as (type_of known.now) values.now)
        (behind phase (length out.old.items)))
        (are_short endian (each_as (type_of known.now) values.now)
        (behind phase (length out.old.items)))
        out.old.items out.new.items }
{
    for each in values {
        write_value(out, phase, endian, each, known)?;
    }
    Ok(())
}

// Values whose types are known, one after the other.
#[cycle(writers)]
fn write_all(
    out: &mut Vec<u8>,
    phase: usize,
    endian: Endian,
    values: &[Value],
    types: &[CompleteType],
) -> Result<(), MarshalFault>
    ensures { Writes result (all_spelled endian (all_as (types_of types.now) values.now)
        (behind phase (length out.old.items)))
        (are_short endian (all_as (types_of types.now) values.now)
        (behind phase (length out.old.items)))
        out.old.items out.new.items }
{
    let mut left = types;
    for each in values {
        match left.split_first() {
            Some((first, others)) => {
                write_value(out, phase, endian, each, first)?;
                left = others;
            }
            None => pad(out, phase, 8)?,
        }
    }
    Ok(())
}
