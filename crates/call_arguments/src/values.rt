// What values contain, by reference (D-Bus Specification, "Type System"). Each reader returns None if a value isn't of
// the expected type. The elements of an array have the type that the array names.
ghost use Rattle.std.specs.Prelude.{◌≡◌, option_copied, option_map};
ghost use Rattle.dbus_types.specs.declared.complete_type.BasicType.TheVariants as basics;
ghost use Rattle.dbus_types.specs.Types.{Ty};
ghost use Rattle.dbus_types.specs.Views.{type_of};
ghost use Rattle.dbus_types.specs.ValueViews.{value_of, values_of, value_as, each_as};
ghost use Rattle.dbus_framing.specs.Headers.{path_in, parts_in, one_of};
ghost use Rattle.call_arguments.specs.Arguments.{truth_in, long_in, word_in, bytes_in, entry_in, three_of, four_of, five_of, type_of_element, is_string, is_path_type, is_text_type, is_text_pair, is_property, is_element, elements_in};

use dbus_types::{BasicType, CompleteType, ObjectPath, Value, is_variant};
use kr_base::Bytes;

/// The type of the elements of an array that is an argument.
#[derive(Clone, Copy)]
pub enum ElementType {
    /// `o`.
    Path,
    /// `s`.
    Text,
    /// `{ss}`.
    TextPair,
    /// `{sv}`.
    Property,
}

/// The path in a value of type `o`.
pub fn path_in(value: &Value) -> Option<&ObjectPath>
    ensures plain { option_copied result ≡ path_in (value_of value.now) }
    ensures element { option_copied result
        ≡ path_in (value_as (type_of_element (ElementType.Path)) value.now) }
{
    match value {
        Value::ObjectPath(path) => {
            let path: &ObjectPath = path;
            Some(path)
        }
        _ => None,
    }
}

/// Whether a value of type `b` is true.
pub fn truth_in(value: &Value) -> Option<bool>
    ensures { result ≡ truth_in (value_of value.now) }
{
    match value {
        Value::Boolean(truth) => Some(*truth),
        _ => None,
    }
}

/// The number in a value of type `t`.
pub fn long_in(value: &Value) -> Option<u64>
    ensures { result ≡ long_in (value_of value.now) }
{
    match value {
        Value::Uint64(number) => Some(*number),
        _ => None,
    }
}

/// The number in a value of type `u`.
pub fn word_in(value: &Value) -> Option<u32>
    ensures { result ≡ word_in (value_of value.now) }
{
    match value {
        Value::Uint32(number) => Some(*number),
        _ => None,
    }
}

/// The bytes in a value of type `ay`.
pub fn bytes_in(value: &Value) -> Option<&Bytes>
    ensures { option_copied result ≡ bytes_in (value_of value.now) }
{
    match value {
        Value::Bytes(bytes) => {
            let bytes: &Bytes = bytes;
            Some(bytes)
        }
        _ => None,
    }
}

/// The key and the value of an entry of a dict whose keys are of type `s`.
pub fn entry_in(value: &Value) -> Option<(&Value, &Value)>
    ensures { (t : Ty) → option_map
        (λ two. (value_as (Ty.entry basics.String t) two.0.now, value_as t two.1.now)) result
        ≡ entry_in (value_as (Ty.entry basics.String t) value.now) }
{
    match value {
        Value::DictEntry(entry) => Some((&entry.key, &entry.value)),
        _ => None,
    }
}

/// The fields of a struct that isn't inside an array.
pub fn parts_in(value: &Value) -> Option<&[Value]>
    ensures { option_map (λ parts. values_of parts.now) result ≡ parts_in (value_of value.now) }
{
    value.fields()
}

/// The value, if there is exactly one.
pub fn one_in(values: &[Value]) -> Option<&Value>
    ensures { option_map (λ one. value_of one.now) result ≡ one_of (values_of values.now) }
{
    let (first, more) = values.split_first()?;
    match more.split_first() {
        Some(_) => None,
        None => Some(first),
    }
}

/// The values, if there are exactly three.
pub fn three_in(values: &[Value]) -> Option<(&Value, &Value, &Value)>
    ensures { option_map
        (λ three. (value_of three.0.now, value_of three.1.now, value_of three.2.now)) result
        ≡ three_of (values_of values.now) }
{
    let (first, others) = values.split_first()?;
    let (second, others) = others.split_first()?;
    let (third, more) = others.split_first()?;
    match more.split_first() {
        Some(_) => None,
        None => Some((first, second, third)),
    }
}

/// The values, if there are exactly four.
pub fn four_in(values: &[Value]) -> Option<(&Value, &Value, &Value, &Value)>
    ensures { option_map (λ four. (
      value_of four.0.now,
      value_of four.1.now,
      value_of four.2.now,
      value_of four.3.now,
    )) result ≡ four_of (values_of values.now) }
{
    let (first, others) = values.split_first()?;
    let (second, others) = others.split_first()?;
    let (third, others) = others.split_first()?;
    let (fourth, more) = others.split_first()?;
    match more.split_first() {
        Some(_) => None,
        None => Some((first, second, third, fourth)),
    }
}

/// The values, if there are exactly five.
pub fn five_in(values: &[Value]) -> Option<(&Value, &Value, &Value, &Value, &Value)>
    ensures { option_map (λ five. (
      value_of five.0.now,
      value_of five.1.now,
      value_of five.2.now,
      value_of five.3.now,
      value_of five.4.now,
    )) result ≡ five_of (values_of values.now) }
{
    let (first, others) = values.split_first()?;
    let (second, others) = others.split_first()?;
    let (third, others) = others.split_first()?;
    let (fourth, others) = others.split_first()?;
    let (fifth, more) = others.split_first()?;
    match more.split_first() {
        Some(_) => None,
        None => Some((first, second, third, fourth, fifth)),
    }
}

fn is_string(basic: BasicType) -> bool
    ensures { result ≡ is_string basic }
{
    match basic {
        BasicType::String => true,
        _ => false,
    }
}

// Whether the type is `o`.
fn is_path_type(complete_type: &CompleteType) -> bool
    ensures { result ≡ is_path_type (type_of complete_type.now) }
{
    match complete_type {
        CompleteType::Basic(BasicType::ObjectPath) => true,
        _ => false,
    }
}

// Whether the type is `s`.
fn is_text_type(complete_type: &CompleteType) -> bool
    ensures { result ≡ is_text_type (type_of complete_type.now) }
{
    match complete_type {
        CompleteType::Basic(basic) => is_string(*basic),
        _ => false,
    }
}

// Whether the type is `{ss}`.
fn is_text_pair(complete_type: &CompleteType) -> bool
    ensures { result ≡ is_text_pair (type_of complete_type.now) }
{
    match complete_type {
        CompleteType::DictEntry(key, held) => is_string(*key) && is_text_type(held),
        _ => false,
    }
}

// Whether the type is `{sv}`.
fn is_property(complete_type: &CompleteType) -> bool
    ensures { result ≡ is_property (type_of complete_type.now) }
{
    match complete_type {
        CompleteType::DictEntry(key, held) => is_string(*key) && is_variant(held),
        _ => false,
    }
}

fn is_element(wanted: ElementType, complete_type: &CompleteType) -> bool
    ensures { result ≡ is_element wanted (type_of complete_type.now) }
{
    match wanted {
        ElementType::Path => is_path_type(complete_type),
        ElementType::Text => is_text_type(complete_type),
        ElementType::TextPair => is_text_pair(complete_type),
        ElementType::Property => is_property(complete_type),
    }
}

/// The elements of an array that isn't inside another one, if they have the wanted type.
pub fn elements_in(value: &Value, wanted: ElementType) -> Option<&[Value]>
    ensures { option_map (λ elements. each_as (type_of_element wanted) elements.now) result
        ≡ elements_in wanted (value_of value.now) }
{
    match value {
        Value::Array(array) => {
            if !is_element(wanted, &array.element) {
                return None;
            }
            Some(array.values.as_slice())
        }
        Value::Byte(_)
        | Value::Boolean(_)
        | Value::Int16(_)
        | Value::Uint16(_)
        | Value::Int32(_)
        | Value::Uint32(_)
        | Value::Int64(_)
        | Value::Uint64(_)
        | Value::Double(_)
        | Value::UnixFd(_)
        | Value::String(_)
        | Value::ObjectPath(_)
        | Value::Signature(_)
        | Value::Variant(_)
        | Value::InnerArray(_)
        | Value::Bytes(_)
        | Value::Struct(_)
        | Value::Pair(_)
        | Value::DictEntry(_) => None,
    }
}
