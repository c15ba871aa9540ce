// Copies of the lists in bodies.
ghost use Rattle.std.specs.Prelude.{◌≡◌, IfOk};

use crate::property::{Attribute, ShownProperty};
use crate::secret::ItemSecret;
use kr_base::{OutOfMemory, Text};
use kr_items::Items;
use std::alloc::Global;

/// A copy of the texts.
pub fn copied_texts(alloc: Global, texts: &[Text]) -> Result<Items<Text>, OutOfMemory>
    ensures { IfOk result (λ copied. copied ≡ texts.now) }
{
    let mut copied = Vec::with_capacity(alloc, texts.len())?;
    for text in texts {
        copied.push(text.copy()?)?;
    }
    Ok(Items::new(copied))
}

/// A copy of the items and their secrets.
pub fn copied_secrets(
    alloc: Global,
    secrets: &[ItemSecret],
) -> Result<Items<ItemSecret>, OutOfMemory>
    ensures { IfOk result (λ copied. copied ≡ secrets.now) }
{
    let mut copied = Vec::with_capacity(alloc, secrets.len())?;
    for secret in secrets {
        copied.push(secret.copy()?)?;
    }
    Ok(Items::new(copied))
}

/// A copy of the attributes.
pub fn copied_attributes(
    alloc: Global,
    attributes: &[Attribute],
) -> Result<Items<Attribute>, OutOfMemory>
    ensures { IfOk result (λ copied. copied ≡ attributes.now) }
{
    let mut copied = Vec::with_capacity(alloc, attributes.len())?;
    for attribute in attributes {
        copied.push(attribute.copy()?)?;
    }
    Ok(Items::new(copied))
}

/// A copy of the properties and their values.
pub fn copied_properties(
    alloc: Global,
    properties: &[ShownProperty],
) -> Result<Items<ShownProperty>, OutOfMemory>
    ensures { IfOk result (λ copied. copied ≡ properties.now) }
{
    let mut copied = Vec::with_capacity(alloc, properties.len())?;
    for property in properties {
        copied.push(property.copy(alloc)?)?;
    }
    Ok(Items::new(copied))
}
