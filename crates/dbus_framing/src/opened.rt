// What values contain: each function returns None if the value doesn't have its type.
ghost use Rattle.std.specs.Prelude.{◌≡◌, option_map};
ghost use Rattle.dbus_types.specs.SignatureViews.{types_in};
ghost use Rattle.dbus_types.specs.Types.{Ty};
ghost use Rattle.dbus_types.specs.declared.complete_type.BasicType.TheVariants.{Byte};
ghost use Rattle.dbus_types.specs.Views.{type_of, types_of};
ghost use Rattle.dbus_types.specs.ValueViews.{value_of, values_of, value_as, each_as};
ghost use Rattle.dbus_framing.specs.Headers.{path_in, string_in, number_in, types_in_value, interface_in, member_in, serial_in, code_in, held_in, pair_in, field_in, one_of, field_type, is_field_type, structs_in};

use crate::names::{is_interface_name, is_member_name};
use dbus_marshal::is_byte;
use dbus_types::{CompleteType, Signature, Value, fields_in, is_variant, lone_in};
use kr_base::Text;

/// The path in a value of type `o`.
pub fn path_in(value: Value) -> Option<Text>
    ensures { result ≡ path_in (value_of value) }
{
    match value {
        Value::ObjectPath(path) => Some(Box::into_inner(path).into_text()),
        _ => None,
    }
}

/// The text in a value of type `s`.
pub fn string_in(value: Value) -> Option<Text>
    ensures { result ≡ string_in (value_of value) }
{
    match value {
        Value::String(text) => Some(Box::into_inner(text)),
        _ => None,
    }
}

/// The number in a value of type `u`.
pub fn number_in(value: Value) -> Option<u32>
    ensures { result ≡ number_in (value_of value) }
{
    match value {
        Value::Uint32(number) => Some(number),
        _ => None,
    }
}

/// The signature in a value of type `g`.
pub fn signature_in(value: Value) -> Option<Signature>
    ensures { option_map types_in result ≡ types_in_value (value_of value) }
{
    match value {
        Value::Signature(signature) => Some(Box::into_inner(signature)),
        _ => None,
    }
}

/// The interface name or error name in a value of type `s`.
pub fn interface_in(value: Value) -> Option<Text>
    ensures { result ≡ interface_in (value_of value) }
{
    let text = string_in(value)?;
    if !is_interface_name(text.as_bytes()) {
        return None;
    }
    Some(text)
}

/// The member name in a value of type `s`.
pub fn member_in(value: Value) -> Option<Text>
    ensures { result ≡ member_in (value_of value) }
{
    let text = string_in(value)?;
    if !is_member_name(text.as_bytes()) {
        return None;
    }
    Some(text)
}

/// The reply serial in a value of type `u`: any number but 0.
pub fn serial_in(value: Value) -> Option<u32>
    ensures { result ≡ serial_in (value_of value) }
{
    let number = number_in(value)?;
    if number == 0 {
        return None;
    }
    Some(number)
}

fn code_in(value: Value) -> Option<u8>
    ensures { result ≡ code_in (value_as (Ty.basic Byte) value) }
{
    match value {
        Value::Byte(code) => Some(code),
        _ => None,
    }
}

fn held_in(value: Value) -> Option<Value>
    ensures { option_map value_of result ≡ held_in (value_of value) }
{
    match value {
        Value::Variant(held) => Some(Box::into_inner(held)),
        _ => None,
    }
}

fn pair_in(value: Value) -> Option<(Value, Value)>
    ensures { option_map (λ two. (value_as (Ty.basic Byte) two.0, value_of two.1)) result
        ≡ pair_in (value_as field_type value) }
{
    value.into_two()
}

/// The code and the value of a header field, which is a struct `(yv)`.
pub fn field_in(field: Value) -> Option<(u8, Value)>
    ensures { option_map (λ it. (it.0, value_of it.1)) result
        ≡ field_in (value_as field_type field) }
{
    let (code, value) = pair_in(field)?;
    let code = code_in(code)?;
    Some((code, held_in(value)?))
}

/// The only value, if there is exactly one.
pub fn one_of(values: Vec<Value>) -> Option<Value>
    ensures { option_map value_of result ≡ one_of (values_of values.items) }
{
    let mut values = values;
    if values.len() != 1 {
        return None;
    }
    values.pop()
}

fn is_field_type(complete_type: &CompleteType) -> bool
    ensures { result ≡ is_field_type (type_of complete_type.now) }
{
    match fields_in(complete_type) {
        Some(types) => are_field_parts(types),
        None => false,
    }
}

fn are_field_parts(types: &[CompleteType]) -> bool
    ensures { result ≡ is_field_type (Ty.struct (types_of types.now)) }
{
    let Some((code, others)) = types.split_first() else {
        return false;
    };
    let Some(value) = lone_in(others, true) else {
        return false;
    };
    is_byte(code) && is_variant(value)
}

/// The elements of an array of fields.
pub fn structs_in(array: Value) -> Option<Vec<Value>>
    ensures { option_map (λ elements. each_as field_type elements.items) result
        ≡ structs_in (value_of array) }
{
    match array {
        Value::Array(array) => {
            let array = Box::into_inner(array);
            if !is_field_type(&array.element) {
                return None;
            }
            Some(array.values)
        }
        Value::Byte(_)
        | Value::Boolean(_)
        | Value::Int16(_)
        | Value::Uint16(_)
        | Value::Int32(_)
        | Value::Uint32(_)
        | Value::Int64(_)
        | Value::Uint64(_)
        | Value::Double(_)
        | Value::UnixFd(_)
        | Value::String(_)
        | Value::ObjectPath(_)
        | Value::Signature(_)
        | Value::Variant(_)
        | Value::InnerArray(_)
        | Value::Bytes(_)
        | Value::Struct(_)
        | Value::Pair(_)
        | Value::DictEntry(_) => None,
    }
}
