ghost use Rattle.std.specs.Prelude.{◌≡◌, true, ◌++◌, [], ◌∷◌, length, OnOk};
ghost use Rattle.dbus_types.specs.Types.{Ty, text_of, texts_of};
ghost use Rattle.dbus_types.specs.Values.{Val, ty_of, tys_of};
ghost use Rattle.dbus_types.specs.Views.{type_of, types_of};
ghost use Rattle.dbus_types.specs.ValueViews.{value_of, values_of, is_struct};

use crate::OutOfMemory;
use dbus_types::{BasicType, CompleteType, DictEntry, Value};

// Writes one character of a type's text.
fn put_code(out: &mut Vec<u8>, code: u8) -> Result<(), OutOfMemory>
    ensures { OnOk result (out.new.items ≡ out.old.items ++ code ∷ []) }
{
    out.push(code)?;
    Ok(())
}

/// Writes the text of a type (D-Bus Specification, "Type System").
#[cycle(types)]
pub fn write_type(out: &mut Vec<u8>, complete_type: &CompleteType) -> Result<(), OutOfMemory>
    ensures { OnOk result (out.new.items ≡ out.old.items ++ text_of (type_of complete_type.now)) }
{
    match complete_type {
        CompleteType::Basic(basic) => put_code(out, basic.code()),
        CompleteType::Variant => put_code(out, b'v'),
        CompleteType::Array(element) => write_array(out, element),
        CompleteType::Struct(fields) => write_struct(out, fields.as_slice()),
        CompleteType::DictEntry(key, value) => write_entry(out, *key, value),
    }
}

#[cycle(types)]
fn write_array(out: &mut Vec<u8>, element: &CompleteType) -> Result<(), OutOfMemory>
    ensures { OnOk result (out.new.items
        ≡ out.old.items ++ text_of (Ty.array (type_of element.now))) }
{
    put_code(out, b'a')?;
    write_type(out, element)
}

#[cycle(types)]
fn write_struct(out: &mut Vec<u8>, types: &[CompleteType]) -> Result<(), OutOfMemory>
    ensures { OnOk result (out.new.items
        ≡ out.old.items ++ text_of (Ty.struct (types_of types.now))) }
{
    put_code(out, b'(')?;
    write_types(out, types)?;
    put_code(out, b')')
}

#[cycle(types)]
fn write_entry(out: &mut Vec<u8>, key: BasicType, value: &CompleteType) -> Result<(), OutOfMemory>
    ensures { OnOk result (out.new.items
        ≡ out.old.items ++ text_of (Ty.entry key (type_of value.now))) }
{
    put_code(out, b'{')?;
    put_code(out, key.code())?;
    write_type(out, value)?;
    put_code(out, b'}')
}

/// Writes the texts of types, one after the other.
#[cycle(types)]
pub fn write_types(out: &mut Vec<u8>, types: &[CompleteType]) -> Result<(), OutOfMemory>
    ensures { OnOk result (out.new.items ≡ out.old.items ++ texts_of (types_of types.now)) }
{
    for each in types {
        write_type(out, each)?;
    }
    Ok(())
}

/// Writes the text of a value's type. An entry whose key isn't basic has no type; it is written
/// as a variant, as `ty_of` has it, and no value that has a spelling contains such an entry.
/// The type of an array that would be inside another one isn't known here; it is written as an
/// array of variants.
#[cycle(value_types)]
pub fn write_type_of(out: &mut Vec<u8>, value: &Value) -> Result<(), OutOfMemory>
    ensures { OnOk result (out.new.items ≡ out.old.items ++ text_of (ty_of (value_of value.now))) }
{
    if let Some(basic) = value.basic_type() {
        return put_code(out, basic.code());
    }
    match value {
        Value::Variant(_) => put_code(out, b'v'),
        Value::Bytes(_) => out.extend_from_slice(b"ay"),
        Value::Array(array) => write_array(out, &array.element),
        Value::InnerArray(_) => out.extend_from_slice(b"av"),
        Value::DictEntry(entry) => write_entry_type(out, entry),
        Value::Struct(_) | Value::Pair(_) => write_struct_type(out, value),
        Value::Byte(_)
        | Value::Boolean(_)
        | Value::Int16(_)
        | Value::Uint16(_)
        | Value::Int32(_)
        | Value::Uint32(_)
        | Value::Int64(_)
        | Value::Uint64(_)
        | Value::Double(_)
        | Value::UnixFd(_)
        | Value::String(_)
        | Value::ObjectPath(_)
        | Value::Signature(_) => unreachable!(),
    }
}

#[cycle(value_types)]
fn write_entry_type(out: &mut Vec<u8>, entry: &DictEntry) -> Result<(), OutOfMemory>
    ensures { OnOk result (out.new.items ≡ out.old.items
        ++ text_of (ty_of (Val.entry (value_of entry.now.key) (value_of entry.now.value)))) }
{
    let Some(key) = entry.key.basic_type() else {
        return put_code(out, b'v');
    };
    put_code(out, b'{')?;
    put_code(out, key.code())?;
    write_type_of(out, &entry.value)?;
    put_code(out, b'}')
}

#[cycle(value_types)]
fn write_struct_type(out: &mut Vec<u8>, value: &Value) -> Result<(), OutOfMemory>
    requires { is_struct value.now ≡ true }
    ensures { OnOk result (out.new.items ≡ out.old.items ++ text_of (ty_of (value_of value.now))) }
{
    let Some(fields) = value.fields() else {
        unreachable!()
    };
    out.push(b'(')?;
    write_types_of(out, fields)?;
    out.push(b')')?;
    Ok(())
}

#[cycle(value_types)]
fn write_types_of(out: &mut Vec<u8>, values: &[Value]) -> Result<(), OutOfMemory>
    ensures { OnOk result (out.new.items
        ≡ out.old.items ++ texts_of (tys_of (values_of values.now))) }
{
    for each in values {
        write_type_of(out, each)?;
    }
    Ok(())
}
