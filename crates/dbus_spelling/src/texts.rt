ghost use Rattle.std.specs.Prelude.{◌≡◌, true, ◌++◌, [], ◌∷◌, IfOk};
ghost use Rattle.dbus_types.specs.Types.{text_of, texts_of};
ghost use Rattle.dbus_types.specs.Values.{ty_of, tys_of};
ghost use Rattle.dbus_types.specs.Views.{type_of, types_of};
ghost use Rattle.dbus_types.specs.ValueViews.{value_of, values_of, is_struct};

use crate::OutOfMemory;
use crate::numbers::{copied, joined};
use dbus_types::{CompleteType, Value};
use std::alloc::Global;

/// The text of a type (D-Bus Specification, "Type System").
#[cycle(types)]
pub fn text_of_type(alloc: Global, complete_type: &CompleteType) -> Result<Vec<u8>, OutOfMemory>
    ensures { IfOk result (λ made. made.items ≡ text_of (type_of complete_type.now)) }
{
    match complete_type {
        CompleteType::Basic(basic) => copied(alloc, &[basic.code()]),
        CompleteType::Variant => copied(alloc, b"v"),
        CompleteType::Array(element) => {
            let inner = text_of_type(alloc, element)?;
            joined(alloc, b"a", inner.as_slice())
        }
        CompleteType::Struct(fields) => {
            let inner = texts_of_types(alloc, fields.as_slice())?;
            let ended = joined(alloc, inner.as_slice(), b")")?;
            let made = joined(alloc, b"(", ended.as_slice())?;
            Ok(made)
        }
        CompleteType::DictEntry(key, value) => {
            let inner = text_of_type(alloc, value)?;
            let ended = joined(alloc, inner.as_slice(), b"}")?;
            joined(alloc, &[b'{', key.code()], ended.as_slice())
        }
    }
}

/// The texts of types, one after the other.
#[cycle(types)]
pub fn texts_of_types(alloc: Global, types: &[CompleteType]) -> Result<Vec<u8>, OutOfMemory>
    ensures { IfOk result (λ made. made.items ≡ texts_of (types_of types.now)) }
{
    let mut made = Vec::new(alloc);
    for each in types {
        let text = text_of_type(alloc, each)?;
        made.extend_from_slice(text.as_slice())?;
    }
    Ok(made)
}

/// The text of a value's type. An entry whose key isn't basic has no type; it counts as a variant,
/// as `ty_of` has it.
#[cycle(value_types)]
pub fn text_of_value_type(alloc: Global, value: &Value) -> Result<Vec<u8>, OutOfMemory>
    ensures { IfOk result (λ made. made.items ≡ text_of (ty_of (value_of value.now))) }
{
    if let Some(basic) = value.basic_type() {
        return copied(alloc, &[basic.code()]);
    }
    match value {
        Value::Variant(_) => copied(alloc, b"v"),
        Value::Bytes(_) => copied(alloc, b"ay"),
        Value::Array(array) => {
            let inner = text_of_type(alloc, &array.element)?;
            joined(alloc, b"a", inner.as_slice())
        }
        Value::InnerArray(_) => copied(alloc, b"av"),
        Value::DictEntry(entry) => {
            let Some(key) = entry.key.basic_type() else {
                return copied(alloc, b"v");
            };
            let inner = text_of_value_type(alloc, &entry.value)?;
            let ended = joined(alloc, inner.as_slice(), b"}")?;
            joined(alloc, &[b'{', key.code()], ended.as_slice())
        }
        Value::Struct(_) | Value::Pair(_) => text_of_struct_type(alloc, value),
        Value::Byte(_)
        | Value::Boolean(_)
        | Value::Int16(_)
        | Value::Uint16(_)
        | Value::Int32(_)
        | Value::Uint32(_)
        | Value::Int64(_)
        | Value::Uint64(_)
        | Value::Double(_)
        | Value::UnixFd(_)
        | Value::String(_)
        | Value::ObjectPath(_)
        | Value::Signature(_) => unreachable!(),
    }
}

#[cycle(value_types)]
fn text_of_struct_type(alloc: Global, value: &Value) -> Result<Vec<u8>, OutOfMemory>
    requires { is_struct value.now ≡ true }
    ensures { IfOk result (λ made. made.items ≡ text_of (ty_of (value_of value.now))) }
{
    let Some(fields) = value.fields() else {
        unreachable!()
    };
    let inner = texts_of_value_types(alloc, fields)?;
    let ended = joined(alloc, inner.as_slice(), b")")?;
    let made = joined(alloc, b"(", ended.as_slice())?;
    Ok(made)
}

#[cycle(value_types)]
fn texts_of_value_types(alloc: Global, values: &[Value]) -> Result<Vec<u8>, OutOfMemory>
    ensures { IfOk result (λ made. made.items ≡ texts_of (tys_of (values_of values.now))) }
{
    let mut made = Vec::new(alloc);
    for each in values {
        let text = text_of_value_type(alloc, each)?;
        made.extend_from_slice(text.as_slice())?;
    }
    Ok(made)
}
