// The texts, the attributes and the secret of an item.
ghost use Rattle.std.specs.Prelude.{◌≡◌, ◌++◌, ◌∷◌, [], Some, IfOk, codes, decimal};
ghost use Rattle.kr_base.specs.declared.attributes.AttrValue.TheVariants as value;
ghost use Rattle.load_plan.specs.Plan.{the_name, the_session, attributes_of, given};

use crate::OutOfMemory;
use crate::words::{group_of, secret_of};
use kr_base::{Attributes, Bytes, SessionId, Stem, Text};
use secret_calls::Secret;
use std::alloc::Global;

/// The stem of the collection.
pub fn the_stem(alloc: Global) -> Result<Stem, OutOfMemory>
    ensures { IfOk result (λ stem. stem ≡ the_name) }
{
    match Stem::new(alloc, "load")? {
        Some(stem) => Ok(stem),
        None => unreachable!(),
    }
}

/// The label of the collection.
pub fn the_label(alloc: Global) -> Result<Text, OutOfMemory>
    ensures { IfOk result (λ text. text ≡ the_name) }
{
    match Text::from_str(alloc, "load")? {
        Some(text) => Ok(text),
        None => unreachable!(),
    }
}

/// The name of the algorithm of a session.
pub fn plain(alloc: Global) -> Result<Text, OutOfMemory>
    ensures { IfOk result (λ text. text ≡ codes "plain") }
{
    match Text::from_str(alloc, "plain")? {
        Some(text) => Ok(text),
        None => unreachable!(),
    }
}

// The content type of a secret.
fn content(alloc: Global) -> Result<Text, OutOfMemory>
    ensures { IfOk result (λ text. text ≡ codes "text/plain") }
{
    match Text::from_str(alloc, "text/plain")? {
        Some(text) => Ok(text),
        None => unreachable!(),
    }
}

// The name of an attribute.
fn group_name(alloc: Global) -> Result<Text, OutOfMemory>
    ensures { IfOk result (λ text. text ≡ codes "group") }
{
    match Text::from_str(alloc, "group")? {
        Some(text) => Ok(text),
        None => unreachable!(),
    }
}

// The name of the other attribute.
fn number_name(alloc: Global) -> Result<Text, OutOfMemory>
    ensures { IfOk result (λ text. text ≡ codes "number") }
{
    match Text::from_str(alloc, "number")? {
        Some(text) => Ok(text),
        None => unreachable!(),
    }
}

/// The label of an item.
pub fn label_of(alloc: Global, item: u32) -> Result<Text, OutOfMemory>
    ensures { IfOk result (λ text. text ≡ codes "item " ++ decimal item) }
{
    let digits = Text::of_number(item);
    let mut bytes = Vec::with_capacity(alloc, 15)?;
    bytes.extend_from_slice(b"item ".as_slice())?;
    bytes.extend_from_slice(digits.as_bytes())?;
    match Text::from_utf8(bytes) {
        Some(text) => Ok(text),
        None => unreachable!(),
    }
}

/// The attributes to search for.
pub fn wanted(alloc: Global, group: u32) -> Result<Attributes, OutOfMemory>
    ensures { IfOk result (λ attributes. attributes
        ≡ (codes "group", value.Text (decimal group)) ∷ []) }
{
    let mut pairs = Vec::with_capacity(alloc, 1)?;
    pairs.push((group_name(alloc)?, Text::of_number(group)))?;
    Attributes::from_pairs(alloc, pairs)
}

/// The attributes of an item.
pub fn attributes_of(alloc: Global, seed: u64, item: u32) -> Result<Attributes, OutOfMemory>
    ensures { IfOk result (λ attributes. attributes ≡ attributes_of seed item) }
{
    let mut pairs = Vec::with_capacity(alloc, 2)?;
    pairs.push((group_name(alloc)?, Text::of_number(group_of(seed, item))))?;
    pairs.push((number_name(alloc)?, Text::of_number(item)))?;
    Attributes::from_pairs(alloc, pairs)
}

/// The secret of an item.
pub fn given(alloc: Global, seed: u64, item: u32) -> Result<Secret, OutOfMemory>
    ensures { IfOk result (λ secret. secret ≡ given seed item) }
{
    let value = Bytes::from_slice(alloc, secret_of(seed, item).as_slice())?;
    let content = content(alloc)?;
    Ok(Secret {
        session: Some(SessionId(1)),
        value,
        content,
    })
}
