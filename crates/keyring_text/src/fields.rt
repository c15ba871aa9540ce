ghost use Rattle.std.specs.Prelude.{◌≡◌, List, ℕ, length, option_map, IfOk, Some, None, if◌then◌else◌};
ghost use Rattle.keyring_text.specs.Fields.{IsBytes};
ghost use Rattle.keyring_text.specs.FieldReading as reading;
ghost use Rattle.keyring_text.specs.FieldReading.{Gives, is_text};

use crate::{FieldFault, ReadRefused};
use kr_base::{Bytes, OutOfMemory, Text};
use std::alloc::Global;

/// A law, stated by the contract: what the type of bytes guarantees. The call does nothing.
pub fn known_bytes(_bytes: &[u8])
    ensures { IsBytes _bytes.now }
{}

/// The next `len` bytes, and those after them. `Short` if there are fewer.
pub fn span_at(bytes: &[u8], len: usize) -> Result<(&[u8], &[u8]), ReadRefused<FieldFault>>
    ensures read { Gives (λ x. (x.0.now, x.1.now)) result (reading.span_at len bytes.now) }
    ensures length { IfOk result (λ x. length x.0.now ≡ len) }
{
    if bytes.len() < len {
        return Err(ReadRefused::Fault(FieldFault::Short));
    }
    Ok(bytes.split_at(len))
}

/// A number, and the bytes after it. `Short` if there are fewer than four bytes.
#[tactic(auto, unfolding(crate::specs::FieldReading::number_at, crate::specs::Fields::number_of))]
pub fn number_at(bytes: &[u8]) -> Result<(u32, &[u8]), ReadRefused<FieldFault>>
    ensures { Gives (λ x. (x.0, x.1.now)) result (reading.number_at bytes.now) }
{
    if bytes.len() < 4 {
        return Err(ReadRefused::Fault(FieldFault::Short));
    }
    let (front, rest) = bytes.split_at(4);
    let number = u32::from_be_bytes([front[0], front[1], front[2], front[3]]);
    Ok((number, rest))
}

/// A time in seconds since 1970, and the bytes after it. `Short` if there are fewer than eight bytes.
#[tactic(auto, unfolding(crate::specs::FieldReading::time_at, crate::specs::Fields::time_of))]
pub fn time_at(bytes: &[u8]) -> Result<(u64, &[u8]), ReadRefused<FieldFault>>
    ensures { Gives (λ x. (x.0, x.1.now)) result (reading.time_at bytes.now) }
{
    if bytes.len() < 8 {
        return Err(ReadRefused::Fault(FieldFault::Short));
    }
    let (front, rest) = bytes.split_at(8);
    let seconds = u64::from_be_bytes([
        front[0], front[1], front[2], front[3], front[4], front[5], front[6], front[7],
    ]);
    Ok((seconds, rest))
}

/// The bytes of a string, borrowed, and those after it. An absent string is read as no bytes.
#[tactic(auto, unfolding(crate::specs::FieldReading::string_at))]
pub fn slice_at(bytes: &[u8]) -> Result<(&[u8], &[u8]), ReadRefused<FieldFault>>
    ensures { Gives (λ x. (x.0.now, x.1.now)) result (reading.string_at bytes.now) }
{
    let (len, rest) = number_at(bytes)?;
    if len == u32::MAX {
        return Ok((&[], rest));
    }
    span_at(rest, len as usize)
}

/// A string of any bytes, and the bytes after it.
pub fn string_at(alloc: Global, bytes: &[u8]) -> Result<(Bytes, &[u8]), ReadRefused<FieldFault>>
    ensures { Gives (λ x. (x.0, x.1.now)) result (reading.string_at bytes.now) }
{
    let (found, rest) = slice_at(bytes)?;
    Ok((Bytes::from_slice(alloc, found)?, rest))
}

/// A copy of the bytes as a text. None if they aren't UTF-8 or contain a zero byte; no memory
/// is taken then.
#[tactic(auto, unfolding(crate::specs::FieldReading::is_text))]
fn text_of(alloc: Global, bytes: &[u8]) -> Result<Option<Text>, OutOfMemory>
    ensures { IfOk result (λ t. t ≡ (if is_text bytes.now then Some bytes.now else None)) }
{
    match std::str::from_utf8(bytes) {
        Ok(text) => Text::from_str(alloc, text),
        Err(_) => Ok(None),
    }
}

/// A text, its bytes as they are in the file, and the bytes after it. `BadText` if the string is
/// complete but isn't a text.
#[tactic(auto, unfolding(crate::specs::FieldReading::text_at))]
pub fn name_at(alloc: Global, bytes: &[u8]) -> Result<(Text, &[u8], &[u8]), ReadRefused<FieldFault>>
    ensures text { Gives (λ x. (x.0, x.2.now)) result (reading.text_at bytes.now) }
    ensures bytes { IfOk result (λ x. x.1.now ≡ x.0) }
{
    let (found, rest) = slice_at(bytes)?;
    match text_of(alloc, found)? {
        Some(text) => Ok((text, found, rest)),
        None => Err(ReadRefused::Fault(FieldFault::BadText)),
    }
}

/// A text, and the bytes after it. `BadText` if the string is complete but isn't a text.
pub fn text_at(alloc: Global, bytes: &[u8]) -> Result<(Text, &[u8]), ReadRefused<FieldFault>>
    ensures { Gives (λ x. (x.0, x.1.now)) result (reading.text_at bytes.now) }
{
    let (text, _, rest) = name_at(alloc, bytes)?;
    Ok((text, rest))
}
