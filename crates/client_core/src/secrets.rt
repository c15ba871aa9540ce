// Reading the secrets that calls return (Secret Service API draft 0.2, "Secrets").
ghost use Rattle.std.specs.Prelude.{◌≡◌, IfOk, option_and_then, option_copied, option_map};
ghost use Rattle.dbus_types.specs.declared.complete_type.BasicType.TheVariants as basics;
ghost use Rattle.dbus_types.specs.Types.{Ty};
ghost use Rattle.dbus_types.specs.Views.{type_of, types_of};
ghost use Rattle.dbus_types.specs.ValueViews.{value_of, values_of, value_as, each_as, all_as};
ghost use Rattle.dbus_framing.specs.Headers.{path_in, parts_in};
ghost use Rattle.secret_calls.specs.Outs.{secret_type};
ghost use Rattle.call_arguments.specs.Arguments.{all_in, bytes_in, four_of};
ghost use Rattle.call_arguments.specs.Arguments.{entry_in, is_path_type, is_text_type};
ghost use Rattle.client_core.specs.Replies.{secret_parts, secret_from, secret_at, four_types, secret_types, secret_entry, is_byte_type, is_bytes_type, are_secret_types, is_secret_type, is_path, is_secret_entry, secret_entries, item_secret_at, item_secrets_in};

use crate::OutOfMemory;
use crate::bodies::session_named;
use call_arguments::{bytes_in, four_in, parts_in, path_in, string_in};
use dbus_types::{BasicType, CompleteType, ObjectPath, Value};
use kr_base::{Bytes, Text};
use kr_items::Items;
use secret_calls::{ItemSecret, ReturnedSecret};
use std::alloc::Global;

// The session's path, the parameters, the value and the content type in a value of type `(oayays)`.
fn secret_parts(value: &Value) -> Option<(&ObjectPath, &Bytes, &Bytes, &Text)>
    ensures { option_map (λ parts. (parts.0.now, parts.1.now, parts.2.now, parts.3.now)) result
        ≡ option_and_then secret_parts
        (option_and_then four_of (parts_in (value_of value.now))) }
{
    let (path, parameters, value, content) = four_in(parts_in(value)?)?;
    let path = path_in(path)?;
    let parameters = bytes_in(parameters)?;
    let value = bytes_in(value)?;
    let content = string_in(content)?;
    Some((path, parameters, value, content))
}

// The secret with these parts.
fn secret_from(
    alloc: Global,
    path: &ObjectPath,
    parameters: &Bytes,
    value: &Bytes,
    content: &Text,
) -> Result<Option<ReturnedSecret>, OutOfMemory>
    ensures { IfOk result (λ secret. secret
        ≡ secret_from (path.now, parameters.now, value.now, content.now)) }
{
    let Some(session) = session_named(alloc, path)? else {
        return Ok(None);
    };
    if !parameters.is_empty() {
        return Ok(None);
    }
    let value = value.copy()?;
    let content = content.copy()?;
    Ok(Some(ReturnedSecret {
        session,
        value,
        content,
    }))
}

/// The secret in a value of type `(oayays)`.
pub fn secret_at(alloc: Global, value: &Value) -> Result<Option<ReturnedSecret>, OutOfMemory>
    ensures { IfOk result (λ secret. secret ≡ secret_at (value_of value.now)) }
{
    match secret_parts(value) {
        Some((path, parameters, value, content)) => {
            secret_from(alloc, path, parameters, value, content)
        }
        None => Ok(None),
    }
}

// ---- secrets in an array, whose fields are seen with their types

// Whether the type is `o`.
fn is_path_type(complete_type: &CompleteType) -> bool
    ensures { result ≡ is_path_type (type_of complete_type.now) }
{
    match complete_type {
        CompleteType::Basic(BasicType::ObjectPath) => true,
        _ => false,
    }
}

// Whether the type is `s`.
fn is_text_type(complete_type: &CompleteType) -> bool
    ensures { result ≡ is_text_type (type_of complete_type.now) }
{
    match complete_type {
        CompleteType::Basic(BasicType::String) => true,
        _ => false,
    }
}

// Whether the type is `y`.
fn is_byte_type(complete_type: &CompleteType) -> bool
    ensures { result ≡ is_byte_type (type_of complete_type.now) }
{
    match complete_type {
        CompleteType::Basic(BasicType::Byte) => true,
        _ => false,
    }
}

// Whether the type is `ay`.
fn is_bytes_type(complete_type: &CompleteType) -> bool
    ensures { result ≡ is_bytes_type (type_of complete_type.now) }
{
    match complete_type {
        CompleteType::Array(element) => is_byte_type(element),
        _ => false,
    }
}

// The types, if there are exactly four.
fn four_types(
    types: &[CompleteType],
) -> Option<(&CompleteType, &CompleteType, &CompleteType, &CompleteType)>
    ensures { option_map (λ four. (
      type_of four.0.now,
      type_of four.1.now,
      type_of four.2.now,
      type_of four.3.now,
    )) result ≡ four_types (types_of types.now) }
{
    let (first, others) = types.split_first()?;
    let (second, others) = others.split_first()?;
    let (third, others) = others.split_first()?;
    let (fourth, more) = others.split_first()?;
    match more.split_first() {
        Some(_) => None,
        None => Some((first, second, third, fourth)),
    }
}

// Whether the types are `oayays`.
fn are_secret_types(types: &[CompleteType]) -> bool
    ensures { result ≡ are_secret_types (types_of types.now) }
{
    match four_types(types) {
        Some((path, parameters, value, content)) => {
            is_path_type(path)
                && is_bytes_type(parameters)
                && is_bytes_type(value)
                && is_text_type(content)
        }
        None => false,
    }
}

// Whether the type is `(oayays)`.
fn is_secret_type(complete_type: &CompleteType) -> bool
    ensures { result ≡ is_secret_type (type_of complete_type.now) }
{
    match complete_type {
        CompleteType::Struct(fields) => are_secret_types(fields.as_slice()),
        _ => false,
    }
}

// Whether the type is `o`.
fn is_path(basic: BasicType) -> bool
    ensures { result ≡ is_path basic }
{
    match basic {
        BasicType::ObjectPath => true,
        _ => false,
    }
}

// Whether the type is `{o(oayays)}`.
fn is_secret_entry(complete_type: &CompleteType) -> bool
    ensures { result ≡ is_secret_entry (type_of complete_type.now) }
{
    match complete_type {
        CompleteType::DictEntry(key, held) => is_path(*key) && is_secret_type(held),
        _ => false,
    }
}

// The bytes in a value of type `ay` in an array.
fn bytes_there(value: &Value) -> Option<&Bytes>
    ensures { option_copied result
        ≡ bytes_in (value_as (Ty.array (Ty.basic basics.Byte)) value.now) }
{
    match value {
        Value::Bytes(bytes) => {
            let bytes: &Bytes = bytes;
            Some(bytes)
        }
        _ => None,
    }
}

// The path that is the key of an entry.
fn path_key(value: &Value) -> Option<&ObjectPath>
    ensures { (t : Ty) → option_copied result
        ≡ path_in (value_as (Ty.entry basics.ObjectPath t) value.now) }
{
    match value {
        Value::ObjectPath(path) => {
            let path: &ObjectPath = path;
            Some(path)
        }
        _ => None,
    }
}

// The key and the value of an entry whose key is of type `o`.
fn entry_there(value: &Value) -> Option<(&Value, &Value)>
    ensures { (t : Ty) → option_map (λ two.
        (value_as (Ty.entry basics.ObjectPath t) two.0.now, value_as t two.1.now)) result
        ≡ entry_in (value_as (Ty.entry basics.ObjectPath t) value.now) }
{
    match value {
        Value::DictEntry(entry) => Some((&entry.key, &entry.value)),
        _ => None,
    }
}

// The four fields of a secret in an array, if there are four.
fn four_there(fields: &[Value]) -> Option<(&Value, &Value, &Value, &Value)>
    ensures { option_map (λ four. (
      value_as (Ty.basic basics.ObjectPath) four.0.now,
      value_as (Ty.array (Ty.basic basics.Byte)) four.1.now,
      value_as (Ty.array (Ty.basic basics.Byte)) four.2.now,
      value_as (Ty.basic basics.String) four.3.now,
    )) result ≡ four_of (all_as secret_types fields.now) }
{
    let (first, others) = fields.split_first()?;
    let (second, others) = others.split_first()?;
    let (third, others) = others.split_first()?;
    let (fourth, more) = others.split_first()?;
    match more.split_first() {
        Some(_) => None,
        None => Some((first, second, third, fourth)),
    }
}

// The four fields of a secret in an array.
fn fields_there(value: &Value) -> Option<(&Value, &Value, &Value, &Value)>
    ensures { option_map (λ four. (
      value_as (Ty.basic basics.ObjectPath) four.0.now,
      value_as (Ty.array (Ty.basic basics.Byte)) four.1.now,
      value_as (Ty.array (Ty.basic basics.Byte)) four.2.now,
      value_as (Ty.basic basics.String) four.3.now,
    )) result ≡ option_and_then four_of (parts_in (value_as secret_type value.now)) }
{
    match value.fields() {
        Some(fields) => four_there(fields),
        None => None,
    }
}

// The session's path, the parameters, the value and the content type of a secret in an array.
fn parts_there(value: &Value) -> Option<(&ObjectPath, &Bytes, &Bytes, &Text)>
    ensures { option_map (λ parts. (parts.0.now, parts.1.now, parts.2.now, parts.3.now)) result
        ≡ option_and_then secret_parts
        (option_and_then four_of (parts_in (value_as secret_type value.now))) }
{
    let (path, parameters, value, content) = fields_there(value)?;
    let path = path_in(path)?;
    let parameters = bytes_there(parameters)?;
    let value = bytes_there(value)?;
    let content = string_in(content)?;
    Some((path, parameters, value, content))
}

// The secret in an array.
fn secret_there(alloc: Global, value: &Value) -> Result<Option<ReturnedSecret>, OutOfMemory>
    ensures { IfOk result (λ secret. secret ≡ secret_at (value_as secret_type value.now)) }
{
    match parts_there(value) {
        Some((path, parameters, value, content)) => {
            secret_from(alloc, path, parameters, value, content)
        }
        None => Ok(None),
    }
}

// The item and the secret in an entry.
fn item_secret_at(alloc: Global, value: &Value) -> Result<Option<ItemSecret>, OutOfMemory>
    ensures { IfOk result (λ secret. secret ≡ item_secret_at (value_as secret_entry value.now)) }
{
    let Some((key, held)) = entry_there(value) else {
        return Ok(None);
    };
    let Some(path) = path_key(key) else {
        return Ok(None);
    };
    let Some(secret) = secret_there(alloc, held)? else {
        return Ok(None);
    };
    let item = path.copy()?.into_text();
    Ok(Some(ItemSecret { item, secret }))
}

// The items and the secrets among the entries of a dict.
fn item_secrets_among(
    alloc: Global,
    entries: &[Value],
) -> Result<Option<Items<ItemSecret>>, OutOfMemory>
    ensures { IfOk result (λ secrets. secrets
        ≡ all_in item_secret_at (each_as secret_entry entries.now)) }
{
    let mut secrets = Vec::with_capacity(alloc, entries.len())?;
    for entry in entries {
        match item_secret_at(alloc, entry)? {
            Some(secret) => secrets.push(secret)?,
            None => return Ok(None),
        }
    }
    Ok(Some(Items::new(secrets)))
}

// The entries of a value of type `a{o(oayays)}`.
fn secret_entries(value: &Value) -> Option<&[Value]>
    ensures { option_map (λ entries. each_as secret_entry entries.now) result
        ≡ secret_entries (value_of value.now) }
{
    match value {
        Value::Array(array) => {
            if !is_secret_entry(&array.element) {
                return None;
            }
            Some(array.values.as_slice())
        }
        Value::Byte(_)
        | Value::Boolean(_)
        | Value::Int16(_)
        | Value::Uint16(_)
        | Value::Int32(_)
        | Value::Uint32(_)
        | Value::Int64(_)
        | Value::Uint64(_)
        | Value::Double(_)
        | Value::UnixFd(_)
        | Value::String(_)
        | Value::ObjectPath(_)
        | Value::Signature(_)
        | Value::Variant(_)
        | Value::InnerArray(_)
        | Value::Bytes(_)
        | Value::Struct(_)
        | Value::Pair(_)
        | Value::DictEntry(_) => None,
    }
}

/// The items and the secrets in a value of type `a{o(oayays)}`.
pub fn item_secrets_in(
    alloc: Global,
    value: &Value,
) -> Result<Option<Items<ItemSecret>>, OutOfMemory>
    ensures { IfOk result (λ secrets. secrets ≡ item_secrets_in (value_of value.now)) }
{
    match secret_entries(value) {
        Some(entries) => item_secrets_among(alloc, entries),
        None => Ok(None),
    }
}
