ghost use Rattle.std.specs.Prelude.{◌≡◌, IfOk};
ghost use Rattle.dbus_types.specs.Types.{code_of};
ghost use Rattle.dbus_types.specs.Views.{type_of, types_of};

use crate::OutOfMemory;
use std::alloc::Global;

/// A basic type (D-Bus Specification, "Type System"): a fixed number of bytes, or a text.
#[derive(Clone, Copy, Debug, PartialEq, Eq)]
pub enum BasicType {
    /// `y`, an unsigned number of 8 bits.
    Byte,
    /// `b`, true or false.
    Boolean,
    /// `n`, a signed number of 16 bits.
    Int16,
    /// `q`, an unsigned number of 16 bits.
    Uint16,
    /// `i`, a signed number of 32 bits.
    Int32,
    /// `u`, an unsigned number of 32 bits.
    Uint32,
    /// `x`, a signed number of 64 bits.
    Int64,
    /// `t`, an unsigned number of 64 bits.
    Uint64,
    /// `d`, an IEEE 754 number of 64 bits.
    Double,
    /// `h`, the index of a file descriptor.
    UnixFd,
    /// `s`, UTF-8 without a zero byte.
    String,
    /// `o`, the path of an object.
    ObjectPath,
    /// `g`, a signature.
    Signature,
}

impl BasicType {
    /// The type code, an ASCII letter (D-Bus Specification, "Type System", "Summary of types").
    pub fn code(self) -> u8
        ensures { result ≡ code_of self }
    {
        match self {
            BasicType::Byte => b'y',
            BasicType::Boolean => b'b',
            BasicType::Int16 => b'n',
            BasicType::Uint16 => b'q',
            BasicType::Int32 => b'i',
            BasicType::Uint32 => b'u',
            BasicType::Int64 => b'x',
            BasicType::Uint64 => b't',
            BasicType::Double => b'd',
            BasicType::UnixFd => b'h',
            BasicType::String => b's',
            BasicType::ObjectPath => b'o',
            BasicType::Signature => b'g',
        }
    }
}

/// A complete type (D-Bus Specification, "Type System").
#[derive(Debug, Drop)]
pub enum CompleteType {
    /// A basic type.
    Basic(BasicType),
    /// `v`, a value with its type.
    Variant,
    /// `a` and the type of the elements.
    Array(Box<CompleteType>),
    /// The types of the fields, between `(` and `)`.
    Struct(Vec<CompleteType>),
    /// The types of a key and its value, between `{` and `}`: only an array's elements may
    /// have this type.
    DictEntry(BasicType, Box<CompleteType>),
}

impl CompleteType {
    /// A copy of the type.
    #[cycle(copies)]
    pub fn copy(&self, alloc: Global) -> Result<CompleteType, OutOfMemory>
        ensures { IfOk result (λ copied. type_of copied ≡ type_of self.now) }
    {
        match self {
            CompleteType::Basic(basic) => Ok(CompleteType::Basic(*basic)),
            CompleteType::Variant => Ok(CompleteType::Variant),
            CompleteType::Array(element) => {
                let copied = element.copy(alloc)?;
                Ok(CompleteType::Array(Box::new(alloc, copied)?))
            }
            CompleteType::Struct(fields) => {
                let copied = copy_types(alloc, fields.as_slice())?;
                Ok(CompleteType::Struct(copied))
            }
            CompleteType::DictEntry(key, value) => {
                let copied = value.copy(alloc)?;
                Ok(CompleteType::DictEntry(*key, Box::new(alloc, copied)?))
            }
        }
    }
}

#[cycle(copies)]
fn copy_types(alloc: Global, types: &[CompleteType]) -> Result<Vec<CompleteType>, OutOfMemory>
    ensures { IfOk result (λ copied. types_of copied.items ≡ types_of types.now) }
{
    let mut copied = Vec::with_capacity(alloc, types.len())?;
    for each in types {
        copied.push(each.copy(alloc)?)?;
    }
    Ok(copied)
}
