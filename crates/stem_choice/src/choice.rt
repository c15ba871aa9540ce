// The stem of a new collection, as the first of its candidates that isn't used.
ghost use Rattle.std.specs.Prelude.{◌≡◌, ◌<◌, ◌≤◌, ◌^◌, map, IfOk, OnOk};
ghost use Rattle.kr_base.specs.Stem.{IsStem};
ghost use Rattle.stem_choice.specs.Choice.{IsChosen, base_of, chosen, numbered, stem_byte};

use crate::UsedStems;
use itoa::Buffer;
use kr_base::{OutOfMemory, Stem, Text};
use std::alloc::Global;

/// The most bytes of a label that a stem keeps.
const LABEL_LIMIT: usize = 64;

/// A byte of a label as a stem has it.
fn stem_byte(byte: u8) -> u8
    ensures { result ≡ stem_byte byte }
{
    if byte.is_ascii_alphanumeric() {
        byte
    } else {
        b'_'
    }
}

/// The bytes of a label as a stem has them.
fn stem_bytes(alloc: Global, bytes: &[u8]) -> Result<Vec<u8>, OutOfMemory>
    ensures { IfOk result (λ made. made.items ≡ map stem_byte bytes.now) }
{
    let mut made = Vec::with_capacity(alloc, bytes.len())?;
    for byte in bytes {
        made.push(stem_byte(*byte))?;
    }
    Ok(made)
}

/// The stem of a label while it isn't used.
fn base_of(alloc: Global, label: &[u8]) -> Result<Vec<u8>, OutOfMemory>
    ensures { IfOk result (λ base. base.items ≡ base_of label.now) }
{
    if label.is_empty() {
        return Vec::from_slice(alloc, b"keyring");
    }
    if label.len() > LABEL_LIMIT {
        stem_bytes(alloc, &label[..LABEL_LIMIT])
    } else {
        stem_bytes(alloc, label)
    }
}

/// Writes the candidate with a number above 1 in place of what the text contains.
fn number(text: &mut Vec<u8>, base: &[u8], number: usize) -> Result<(), OutOfMemory>
    requires { 1 < number }
    ensures { OnOk result (text.new.items ≡ numbered base.now number) }
{
    let mut buffer = Buffer::new();
    text.clear();
    text.extend_from_slice(base)?;
    text.push(b'_')?;
    text.extend_from_slice(buffer.format(number).as_bytes())
}

/// The bytes as a stem. It takes no memory.
fn stem_of(bytes: Vec<u8>) -> Stem
    requires { IsStem bytes.items }
    ensures { result ≡ bytes.items }
{
    match Text::from_utf8(bytes) {
        Some(text) => match Stem::from_text(text) {
            Some(stem) => stem,
            None => unreachable!(),
        },
        None => unreachable!(),
    }
}

/// The stem that a new collection of this label gets (docs/SERVICE.md, "Names and paths"): its label with
/// each byte outside `A` to `Z`, `a` to `z` and `0` to `9` as `_`, cut to 64 bytes, or `keyring` if that
/// is empty; if that is used, with `_2`, `_3` and so on after it, whichever is the least that is free.
/// Refused with `OutOfMemory` alone.
///
/// With k candidates used before the free one, it looks k + 1 of them up, each by a binary search among
/// all used stems. Stems stay used, so the n-th collection made with one label in a run takes n look-ups,
/// also if those before it were deleted.
pub fn chosen_stem(alloc: Global, label: &Text, used: &UsedStems) -> Result<Stem, OutOfMemory>
    ensures first_free { IfOk result (IsChosen label.now used.now.stems) }
    ensures value { IfOk result (λ stem. stem ≡ chosen label.now used.now.stems) }
{
    let most = used.len();
    let base = base_of(alloc, label.as_bytes())?;
    let mut text = Vec::from_slice(alloc, base.as_slice())?;
    let mut count = 1;
    // One of the first `most` + 1 candidates is free, since no two of them are the same.
    while used.has_bytes(text.as_slice()) {
        count += 1;
        number(&mut text, base.as_slice(), count)?;
    }
    Ok(stem_of(text))
}
