// What is known of the type of a value from where it is, as in an array. If nothing is known, this
// type is that of a variant.

ghost use Rattle.std.specs.Prelude.{◌≡◌, ◌<◌, ◌≤◌, true, option_map};
ghost use Rattle.dbus_types.specs.Views.{type_of, types_of};
ghost use Rattle.dbus_types.specs.ValueViews.{core_of, element_of, held_of, lone_in};
ghost use Rattle.dbus_types.specs.Known.{lone_field, wrapping, is_array, is_variant, fields_in};

use crate::complete_type::CompleteType;

/// The type of the one field of a struct of these fields, if the struct is in an array and
/// has one field.
pub fn lone_in(types: &[CompleteType], is_inner: bool) -> Option<&CompleteType>
    ensures { option_map (λ t. type_of t.now) result ≡ lone_in is_inner (types_of types.now) }
{
    if !is_inner {
        return None;
    }
    let (only, others) = types.split_first()?;
    if !others.is_empty() {
        return None;
    }
    Some(only)
}

// The type of the one field of a struct.
fn lone_field(known: &CompleteType) -> Option<&CompleteType>
    ensures { option_map (λ t. type_of t.now) result ≡ lone_field (type_of known.now) }
{
    match known {
        CompleteType::Struct(types) => lone_in(types.as_slice(), true),
        _ => None,
    }
}

/// The type inside the structs of one field, or the type itself if it isn't such a struct.
pub fn core_of(known: &CompleteType) -> &CompleteType
    ensures { type_of result.now ≡ core_of (type_of known.now) }
{
    let mut core = known;
    while let Some(only) = lone_field(core) {
        core = only;
    }
    core
}

/// The alignment of the structs of one field around that type, or 1 if there are none.
pub fn wrapping(known: &CompleteType) -> usize
    ensures value { result ≡ wrapping (type_of known.now) }
    ensures some { 0 < result }
    ensures most { result ≤ 8 }
{
    match lone_field(known) {
        Some(_) => 8,
        None => 1,
    }
}

/// Whether the type is an array's.
pub fn is_array(known: &CompleteType) -> bool
    ensures { result ≡ is_array (type_of known.now) }
{
    match known {
        CompleteType::Array(_) => true,
        _ => false,
    }
}

/// Whether the type is a variant's.
pub fn is_variant(known: &CompleteType) -> bool
    ensures { result ≡ is_variant (type_of known.now) }
{
    match known {
        CompleteType::Variant => true,
        _ => false,
    }
}

/// The type of the elements, if the type is an array's.
pub fn element_of(known: &CompleteType) -> &CompleteType
    ensures { type_of result.now ≡ element_of (type_of known.now) }
{
    match known {
        CompleteType::Array(element) => element,
        _ => known,
    }
}

/// The type of the value, if the type is a dict entry's.
pub fn held_of(known: &CompleteType) -> &CompleteType
    ensures { type_of result.now ≡ held_of (type_of known.now) }
{
    match known {
        CompleteType::DictEntry(_, value) => value,
        _ => known,
    }
}

/// The types of the fields, if the type is a struct's.
pub fn fields_in(known: &CompleteType) -> Option<&[CompleteType]>
    ensures { option_map (λ ts. types_of ts.now) result ≡ fields_in (type_of known.now) }
{
    match known {
        CompleteType::Struct(types) => Some(types.as_slice()),
        _ => None,
    }
}
