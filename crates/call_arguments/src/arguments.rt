// Reading the arguments of calls: whether the types of a body are those of a signature, and what its
// values contain. Each reader returns None if a value doesn't have its type.
ghost use Rattle.std.specs.Prelude.{◌≡◌, [], ◌∷◌, option_and_then, option_copied, option_map};
ghost use Rattle.std.specs.Str.{bytes_eq};
ghost use Rattle.dbus_types.specs.declared.complete_type.BasicType.TheVariants as basics;
ghost use Rattle.dbus_types.specs.Types.{Ty, text_of, texts_of};
ghost use Rattle.dbus_types.specs.Views.{type_of, types_of};
ghost use Rattle.dbus_types.specs.ValueViews.{value_of, values_of, value_as};
ghost use Rattle.dbus_framing.specs.Headers.{string_in, held_in, one_of, two_of};
ghost use Rattle.call_arguments.specs.Arguments.{without_arguments};
ghost use Rattle.call_arguments.specs.Fronts.{behind};

use crate::values::one_in;
use dbus_types::{BasicType, CompleteType, Value};
use kr_base::Text;
use secret_calls::{Call, CallFault};

// What comes after this code; None if the text doesn't begin with it.
fn behind_code(text: &[u8], code: u8) -> Option<&[u8]>
    ensures { option_copied result ≡ behind (code ∷ []) text.now }
{
    match text {
        [first, rest @ ..] if code == *first => Some(rest),
        _ => None,
    }
}

// What comes after the text of the type; None if the text doesn't begin with it.
#[cycle(texts)]
fn behind_type<'a>(text: &'a [u8], complete_type: &CompleteType) -> Option<&'a [u8]>
    ensures { option_copied result ≡ behind (text_of (type_of complete_type.now)) text.now }
{
    match complete_type {
        CompleteType::Basic(basic) => behind_code(text, basic.code()),
        CompleteType::Variant => behind_code(text, b'v'),
        CompleteType::Array(element) => {
            let rest = behind_code(text, b'a')?;
            behind_type(rest, element)
        }
        CompleteType::Struct(fields) => {
            let rest = behind_code(text, b'(')?;
            let rest = behind_types(rest, fields.as_slice())?;
            behind_code(rest, b')')
        }
        CompleteType::DictEntry(key, value) => {
            let rest = behind_code(text, b'{')?;
            let rest = behind_code(rest, key.code())?;
            let rest = behind_type(rest, value)?;
            behind_code(rest, b'}')
        }
    }
}

// What comes after the texts of the types; None if the text doesn't begin with them.
#[cycle(texts)]
fn behind_types<'a>(text: &'a [u8], types: &[CompleteType]) -> Option<&'a [u8]>
    ensures { option_copied result ≡ behind (texts_of (types_of types.now)) text.now }
{
    let mut rest = text;
    for each in types {
        rest = behind_type(rest, each)?;
    }
    Some(rest)
}

/// Whether the text is the signature of these types.
pub fn are_listed(types: &[CompleteType], text: &str) -> bool
    ensures { result ≡ bytes_eq (texts_of (types_of types.now)) text.now }
{
    match behind_types(text.as_bytes(), types) {
        Some(rest) => rest.is_empty(),
        None => false,
    }
}

/// The text of a value of type `s`.
pub fn string_in(value: &Value) -> Option<&Text>
    ensures plain { option_copied result ≡ string_in (value_of value.now) }

    // The same for a value and for a key in a dict.
    ensures held { option_copied result ≡ string_in (value_as (Ty.basic basics.String) value.now) }
    ensures key { (t : Ty) → option_copied result
        ≡ string_in (value_as (Ty.entry basics.String t) value.now) }
{
    match value {
        Value::String(text) => {
            let text: &Text = text;
            Some(text)
        }
        _ => None,
    }
}

/// The text of the only value, which is of type `s`.
pub fn one_string_in(values: &[Value]) -> Option<&Text>
    ensures { option_copied result ≡ option_and_then string_in (one_of (values_of values.now)) }
{
    string_in(one_in(values)?)
}

/// The value inside a value of type `v`.
pub fn held_in(value: &Value) -> Option<&Value>
    ensures { option_map (λ held. value_of held.now) result ≡ held_in (value_of value.now) }
{
    match value {
        Value::Variant(held) => Some(held),
        _ => None,
    }
}

/// The two values, if there are exactly two.
pub fn two_in(values: &[Value]) -> Option<(&Value, &Value)>
    ensures { option_map (λ two. (value_of two.0.now, value_of two.1.now)) result
        ≡ two_of (values_of values.now) }
{
    let (first, others) = values.split_first()?;
    let (second, more) = others.split_first()?;
    match more.split_first() {
        Some(_) => None,
        None => Some((first, second)),
    }
}

/// The call of a method without arguments.
pub fn without_arguments(call: Result<Call, CallFault>, values: &[Value]) -> Result<Call, CallFault>
    ensures { result ≡ without_arguments call (values_of values.now) }
{
    match values.split_first() {
        Some(_) => Err(CallFault::InvalidArgs),
        None => call,
    }
}
