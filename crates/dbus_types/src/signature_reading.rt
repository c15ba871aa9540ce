ghost use Rattle.std.specs.Prelude.{◌≡◌, ◌<◌, length, IfOk, IsTrue};
ghost use Rattle.dbus_types.specs.Types.{is_signature, texts_of, nesting_limit};
ghost use Rattle.dbus_types.specs.Views.{type_of, types_of};
ghost use Rattle.dbus_types.specs.Signatures.{Reads, with_front, lead_of, array_by, element_by, entry_by, struct_by, fields_by, types_by, type_at, signature_at};

use crate::complete_type::{BasicType, CompleteType};
use crate::signature::SignatureFault;
use std::alloc::Global;

/// How many arrays a signature may have open at once, and how many structs.
const NESTING_LIMIT: u8 = 32;

/// The most bytes of a signature.
const SIGNATURE_LIMIT: usize = 255;

/// What a type code begins.
#[derive(Clone, Copy)]
pub enum Lead {
    /// A basic type, which is complete.
    Basic(BasicType),
    /// A variant, which is complete.
    Variant,
    /// An array.
    Array,
    /// A struct.
    Struct,
    /// No type.
    Other,
}

fn read_lead(code: u8) -> Lead
    ensures { result ≡ lead_of code }
{
    match code {
        b'y' => Lead::Basic(BasicType::Byte),
        b'b' => Lead::Basic(BasicType::Boolean),
        b'n' => Lead::Basic(BasicType::Int16),
        b'q' => Lead::Basic(BasicType::Uint16),
        b'i' => Lead::Basic(BasicType::Int32),
        b'u' => Lead::Basic(BasicType::Uint32),
        b'x' => Lead::Basic(BasicType::Int64),
        b't' => Lead::Basic(BasicType::Uint64),
        b'd' => Lead::Basic(BasicType::Double),
        b'h' => Lead::Basic(BasicType::UnixFd),
        b's' => Lead::Basic(BasicType::String),
        b'o' => Lead::Basic(BasicType::ObjectPath),
        b'g' => Lead::Basic(BasicType::Signature),
        b'v' => Lead::Variant,
        b'a' => Lead::Array,
        b'(' => Lead::Struct,
        _ => Lead::Other,
    }
}

// Whether a type may be here, and how deep it is, is checked while it is read, so a type that was
// read is never looked at again.
#[cycle(parser)]
#[tactic(auto, unfolding(crate::specs::Signatures::type_at))]
fn read_type(
    alloc: Global,
    arrays: u8,
    structs: u8,
    codes: &[u8],
) -> Result<(CompleteType, &[u8]), SignatureFault>
    ensures reads { Reads (λ x. (type_of x.0, x.1.now)) result
        (type_at arrays structs codes.now) }
    ensures shorter { IfOk result (λ x. length x.1.now < length codes.now) }
{
    let Some((code, rest)) = codes.split_first() else {
        return Err(SignatureFault::BadType);
    };
    match read_lead(*code) {
        Lead::Basic(basic) => Ok((CompleteType::Basic(basic), rest)),
        Lead::Variant => Ok((CompleteType::Variant, rest)),
        Lead::Array => {
            if arrays == 0 {
                return Err(SignatureFault::TooDeep);
            }
            read_array(alloc, arrays - 1, structs, rest)
        }
        Lead::Struct => {
            if structs == 0 {
                return Err(SignatureFault::TooDeep);
            }
            read_struct(alloc, arrays, structs - 1, rest)
        }
        Lead::Other => Err(SignatureFault::BadType),
    }
}

#[cycle(parser)]
#[tactic(auto, unfolding(crate::specs::Signatures::array_by))]
fn read_array(
    alloc: Global,
    arrays: u8,
    structs: u8,
    codes: &[u8],
) -> Result<(CompleteType, &[u8]), SignatureFault>
    ensures reads { Reads (λ x. (type_of x.0, x.1.now)) result
        (array_by (type_at arrays structs) codes.now) }
    ensures shorter { IfOk result (λ x. length x.1.now < length codes.now) }
{
    let (element, rest) = read_element(alloc, arrays, structs, codes)?;
    Ok((CompleteType::Array(Box::new(alloc, element)?), rest))
}

#[cycle(parser)]
#[tactic(auto, unfolding(crate::specs::Signatures::element_by))]
fn read_element(
    alloc: Global,
    arrays: u8,
    structs: u8,
    codes: &[u8],
) -> Result<(CompleteType, &[u8]), SignatureFault>
    ensures reads { Reads (λ x. (type_of x.0, x.1.now)) result
        (element_by (type_at arrays structs) codes.now) }
    ensures shorter { IfOk result (λ x. length x.1.now < length codes.now) }
{
    if let Some((code, rest)) = codes.split_first()
        && *code == b'{'
    {
        return read_entry(alloc, arrays, structs, rest);
    }
    read_type(alloc, arrays, structs, codes)
}

#[cycle(parser)]
#[tactic(auto, unfolding(crate::specs::Signatures::entry_by, crate::specs::Signatures::closed_by))]
fn read_entry(
    alloc: Global,
    arrays: u8,
    structs: u8,
    codes: &[u8],
) -> Result<(CompleteType, &[u8]), SignatureFault>
    ensures reads { Reads (λ x. (type_of x.0, x.1.now)) result
        (entry_by (type_at arrays structs) codes.now) }
    ensures shorter { IfOk result (λ x. length x.1.now < length codes.now) }
{
    let Some((code, rest)) = codes.split_first() else {
        return Err(SignatureFault::BadType);
    };
    let Lead::Basic(key) = read_lead(*code) else {
        return Err(SignatureFault::BadType);
    };
    let (value, rest) = read_type(alloc, arrays, structs, rest)?;
    let Some((code, rest)) = rest.split_first() else {
        return Err(SignatureFault::BadType);
    };
    if *code != b'}' {
        return Err(SignatureFault::BadType);
    }
    Ok((CompleteType::DictEntry(key, Box::new(alloc, value)?), rest))
}

#[cycle(parser)]
#[tactic(auto, unfolding(crate::specs::Signatures::struct_by))]
fn read_struct(
    alloc: Global,
    arrays: u8,
    structs: u8,
    codes: &[u8],
) -> Result<(CompleteType, &[u8]), SignatureFault>
    ensures reads { Reads (λ x. (type_of x.0, x.1.now)) result
        (struct_by (type_at arrays structs) codes.now) }
    ensures shorter { IfOk result (λ x. length x.1.now < length codes.now) }
{
    let (first, rest) = read_type(alloc, arrays, structs, codes)?;
    // Room for one: if a larger piece were shrunk later, the rest would stay unused
    // between other pieces.
    let mut front = Vec::with_capacity(alloc, 1)?;
    front.push(first)?;
    let (fields, rest) = read_fields(alloc, arrays, structs, front, rest)?;
    Ok((CompleteType::Struct(fields), rest))
}

#[cycle(parser)]
fn read_fields(
    alloc: Global,
    arrays: u8,
    structs: u8,
    first: Vec<CompleteType>,
    codes: &[u8],
) -> Result<(Vec<CompleteType>, &[u8]), SignatureFault>
    ensures reads { Reads (λ x. (types_of x.0.items, x.1.now)) result
        (with_front (types_of first.items)
        (fields_by (type_at arrays structs) (length codes.now) codes.now)) }
    ensures shorter { IfOk result (λ x. length x.1.now < length codes.now) }
{
    let mut fields = first;
    let mut left = codes;
    for _ in 0..codes.len() {
        let Some((code, rest)) = left.split_first() else {
            return Err(SignatureFault::BadType);
        };
        if *code == b')' {
            fields.shrink_to_fit();
            return Ok((fields, rest));
        }
        let (field, rest) = read_type(alloc, arrays, structs, left)?;
        fields.push(field)?;
        left = rest;
    }
    Err(SignatureFault::BadType)
}

fn read_types(alloc: Global, codes: &[u8]) -> Result<Vec<CompleteType>, SignatureFault>
    ensures { Reads (λ x. types_of x.items) result
        (types_by (type_at nesting_limit nesting_limit) (length codes.now) codes.now) }
{
    // Most signatures list one type, as a variant's does.
    let mut types = Vec::with_capacity(alloc, 1)?;
    let mut left = codes;
    for _ in 0..codes.len() {
        if left.is_empty() {
            return Ok(types);
        }
        let (next, rest) = read_type(alloc, NESTING_LIMIT, NESTING_LIMIT, left)?;
        types.push(next)?;
        left = rest;
    }
    Ok(types)
}

/// The types of a text, or why it isn't a signature.
#[tactic(auto, unfolding(crate::specs::Signatures::signature_at))]
pub fn read_signature(alloc: Global, text: &[u8]) -> Result<Vec<CompleteType>, SignatureFault>
    ensures exact { Reads (λ x. types_of x.items) result (signature_at text.now) }
    ensures found { IfOk result (λ x. IsTrue (is_signature (types_of x.items))
        × (text.now ≡ texts_of (types_of x.items))) }
{
    if text.len() > SIGNATURE_LIMIT {
        return Err(SignatureFault::TooLong);
    }
    let mut types = read_types(alloc, text)?;
    types.shrink_to_fit();
    Ok(types)
}
