ghost use Rattle.dbus_types.specs.BasicTypes.{BasicIs};
ghost use Rattle.dbus_types.specs.Values.{ty_of};
ghost use Rattle.dbus_types.specs.ValueViews.{value_of, AreTwo, FieldsAre, HasFields, if_not_two};
ghost use Rattle.dbus_types.specs.declared.value.Value.{size-Value};
ghost use denote.Param.Weighed.{most};
ghost use Rattle.std.specs.Prelude.{◌≡◌, ◌<◌, [], ◌∷◌, option_map, IfOk, IfSome, Some};

use crate::OutOfMemory;
use crate::complete_type::{BasicType, CompleteType};
use crate::object_path::ObjectPath;
use crate::signature::Signature;
use kr_base::{Bytes, Text};
use std::alloc::Global;

/// A value (D-Bus Specification, "Type System"). Contracts see it as a `Val`, by `value_of`, with
/// signed numbers as their bits.
///
/// An array has its elements' type once: what is in an array is seen with that type, by `value_as`.
/// So an array inside an array has no type of its own, and a struct of one field inside an array is
/// its field. What doesn't fit into eight bytes is in memory of its own, and two fields of a struct
/// are in one piece of memory: so a value takes 16 bytes. Structs are made by `structure` and read
/// by `fields`, in the same way for each number of fields.
#[cycle(values)]
#[derive(Drop)]
pub enum Value {
    /// `y`.
    Byte(u8),
    /// `b`.
    Boolean(bool),
    /// `n`.
    Int16(i16),
    /// `q`.
    Uint16(u16),
    /// `i`.
    Int32(i32),
    /// `u`.
    Uint32(u32),
    /// `x`.
    Int64(i64),
    /// `t`.
    Uint64(u64),
    /// `d`, as the number made of its eight bytes. Nothing is computed with it.
    Double(u64),
    /// `h`, the index of a file descriptor.
    UnixFd(u32),
    /// `s`.
    String(Box<Text>),
    /// `o`.
    ObjectPath(Box<ObjectPath>),
    /// `g`.
    Signature(Box<Signature>),
    /// `v`, a value of any type.
    Variant(Box<Value>),
    /// `a`, an array that isn't inside another one, of elements that aren't bytes.
    Array(Box<TypedArray>),
    /// `a`, an array inside another one, whose type is that of the elements of the outer one.
    InnerArray(Box<Vec<Value>>),
    /// `ay`, an array of bytes.
    Bytes(Box<Bytes>),
    /// `(`, the fields, unless there are two.
    Struct(Box<Vec<Value>>),
    /// `(`, two fields.
    Pair(Box<[Value; 2]>),
    /// `{`, an array's element of a key and its value.
    DictEntry(Box<DictEntry>),
}

/// Elements and their type (D-Bus Specification, "Type System").
#[cycle(values)]
#[derive(Drop)]
pub struct TypedArray {
    /// The type of each element.
    pub element: CompleteType,
    /// The elements, possibly none.
    pub values: Vec<Value>,
}

/// A key and its value, an element of an array (D-Bus Specification, "Type System").
#[cycle(values)]
#[derive(Drop)]
pub struct DictEntry {
    /// The key, of a basic type.
    pub key: Value,
    /// The value, of any type.
    pub value: Value,
}

impl Value {
    /// The basic type of the value, or None if its type isn't basic.
    pub fn basic_type(&self) -> Option<BasicType>
        ensures { BasicIs result (ty_of (value_of self.now)) }
    {
        match self {
            Value::Byte(_) => Some(BasicType::Byte),
            Value::Boolean(_) => Some(BasicType::Boolean),
            Value::Int16(_) => Some(BasicType::Int16),
            Value::Uint16(_) => Some(BasicType::Uint16),
            Value::Int32(_) => Some(BasicType::Int32),
            Value::Uint32(_) => Some(BasicType::Uint32),
            Value::Int64(_) => Some(BasicType::Int64),
            Value::Uint64(_) => Some(BasicType::Uint64),
            Value::Double(_) => Some(BasicType::Double),
            Value::UnixFd(_) => Some(BasicType::UnixFd),
            Value::String(_) => Some(BasicType::String),
            Value::ObjectPath(_) => Some(BasicType::ObjectPath),
            Value::Signature(_) => Some(BasicType::Signature),
            Value::Variant(_) => None,
            Value::Array(_) => None,
            Value::InnerArray(_) => None,
            Value::Bytes(_) => None,
            Value::Struct(_) => None,
            Value::Pair(_) => None,
            Value::DictEntry(_) => None,
        }
    }

    /// A struct of these fields. Refused if no memory was left.
    pub fn structure(alloc: Global, fields: Vec<Value>) -> Result<Value, OutOfMemory>
        ensures { IfOk result (λ value. FieldsAre value (Some fields.items)) }
    {
        let mut fields = fields;
        if fields.len() == 2 {
            let Some(second) = fields.pop() else {
                unreachable!()
            };
            let Some(first) = fields.pop() else {
                unreachable!()
            };
            let pair = Box::new(alloc, [first, second])?;
            return Ok(Value::Pair(pair));
        }
        fields.shrink_to_fit();
        let held = Box::new(alloc, fields)?;
        Ok(Value::Struct(held))
    }

    /// The fields, if the value is a struct.
    pub fn fields(&self) -> Option<&[Value]>
        ensures fields { FieldsAre self.now (option_map (λ fields. fields.now) result) }
        ensures inside { IfSome result (λ fields.
            most size-Value fields.now < size-Value self.now) }
    {
        match self {
            Value::Struct(fields) => Some(unless_two(fields.as_slice())),
            Value::Pair(fields) => Some(fields.as_slice()),
            Value::Byte(_) => None,
            Value::Boolean(_) => None,
            Value::Int16(_) => None,
            Value::Uint16(_) => None,
            Value::Int32(_) => None,
            Value::Uint32(_) => None,
            Value::Int64(_) => None,
            Value::Uint64(_) => None,
            Value::Double(_) => None,
            Value::UnixFd(_) => None,
            Value::String(_) => None,
            Value::ObjectPath(_) => None,
            Value::Signature(_) => None,
            Value::Variant(_) => None,
            Value::Array(_) => None,
            Value::InnerArray(_) => None,
            Value::Bytes(_) => None,
            Value::DictEntry(_) => None,
        }
    }

    /// The two fields, if the value is a struct of two fields.
    pub fn into_two(self) -> Option<(Value, Value)>
        ensures { AreTwo self result }
    {
        match self {
            Value::Pair(fields) => Some(two_of(Box::into_inner(fields))),
            Value::Struct(_)
            | Value::Byte(_)
            | Value::Boolean(_)
            | Value::Int16(_)
            | Value::Uint16(_)
            | Value::Int32(_)
            | Value::Uint32(_)
            | Value::Int64(_)
            | Value::Uint64(_)
            | Value::Double(_)
            | Value::UnixFd(_)
            | Value::String(_)
            | Value::ObjectPath(_)
            | Value::Signature(_)
            | Value::Variant(_)
            | Value::Array(_)
            | Value::InnerArray(_)
            | Value::Bytes(_)
            | Value::DictEntry(_) => None,
        }
    }
}

fn two_of(pair: [Value; 2]) -> (Value, Value)
    ensures { result.0 ∷ result.1 ∷ [] ≡ pair }
{
    let [first, second] = pair;
    (first, second)
}

// The fields in a struct's vector, which are never two.
fn unless_two(fields: &[Value]) -> &[Value]
    ensures { result.now ≡ if_not_two fields.now }
{
    if fields.len() == 2 {
        return &fields[..0];
    }
    fields
}
