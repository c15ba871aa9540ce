ghost use Rattle.std.specs.Prelude.{◌≡◌, ◌<◌, ◌≤◌};
ghost use Rattle.std.specs.Int.{byte_len};
ghost use Rattle.dbus_types.specs.Views.{type_of};
ghost use Rattle.dbus_marshal.specs.Wire.{alignment_of, width_of, padding, is_byte};

use dbus_types::{BasicType, CompleteType};

/// The alignment of a type (D-Bus Specification, "Marshaling").
pub fn alignment(complete_type: &CompleteType) -> usize
    ensures value { result ≡ alignment_of (type_of complete_type.now) }
    ensures some { 0 < result }
    ensures most { result ≤ 8 }
{
    match complete_type {
        CompleteType::Basic(basic) => width(*basic),
        CompleteType::Variant => 1,
        CompleteType::Array(_) => 4,
        CompleteType::Struct(_) => 8,
        CompleteType::DictEntry(_, _) => 8,
    }
}

fn width(basic: BasicType) -> usize
    ensures value { result ≡ byte_len (width_of basic) }
    ensures some { 0 < result }
    ensures most { result ≤ 8 }
{
    match basic {
        BasicType::Byte | BasicType::Signature => 1,
        BasicType::Int16 | BasicType::Uint16 => 2,
        BasicType::Int64 | BasicType::Uint64 | BasicType::Double => 8,
        _ => 4,
    }
}

/// Whether the type is that of a byte.
pub fn is_byte(complete_type: &CompleteType) -> bool
    ensures { result ≡ is_byte (type_of complete_type.now) }
{
    match complete_type {
        CompleteType::Basic(BasicType::Byte) => true,
        _ => false,
    }
}

/// The number of bytes from a position to the next multiple of the alignment.
pub fn padding(alignment: usize, place: usize) -> usize
    requires { 0 < alignment }
    ensures { result ≡ padding alignment place }
{
    (alignment - place % alignment) % alignment
}
