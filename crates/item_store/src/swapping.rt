// A swap changes parts of one item and takes no memory; a second swap undoes it.
ghost use Rattle.std.specs.Prelude.{◌≡◌};
ghost use Rattle.item_store.specs.Swapping.{or_that, with_parts};

use keyring_file::FullItem;
use kr_base::{Attributes, Bytes, Text};
use std::mem;

/// Parts of an item, to be swapped with those that it has.
#[derive(Drop)]
pub struct Swap {
    /// The label, if it is swapped.
    pub label: Option<Text>,
    /// The secret, if it is swapped.
    pub value: Option<Bytes>,
    /// When the item was changed, which is always swapped.
    pub modified: u64,
}

/// Swaps a text with another one, if there is another.
fn swap_text(text: &mut Text, other: &mut Option<Text>)
    ensures set { text.new ≡ or_that other.old text.old }
    ensures back { or_that other.new text.new ≡ text.old }
{
    if let Some(other) = other {
        mem::swap(text, other);
    }
}

/// Swaps a secret with another one, if there is another.
fn swap_bytes(bytes: &mut Bytes, other: &mut Option<Bytes>)
    ensures set { bytes.new ≡ or_that other.old bytes.old }
    ensures back { or_that other.new bytes.new ≡ bytes.old }
{
    if let Some(other) = other {
        mem::swap(bytes, other);
    }
}

/// Swaps parts of an item.
pub fn swap_item(item: &mut FullItem, parts: &mut Swap)
    ensures set { item.new ≡ with_parts parts.old item.old }
    ensures back { with_parts parts.new item.new ≡ item.old }
{
    swap_text(&mut item.label, &mut parts.label);
    swap_bytes(&mut item.value, &mut parts.value);
    mem::swap(&mut item.modified, &mut parts.modified);
}

/// Swaps the attributes of an item, and when it was changed.
pub fn swap_own(item: &mut FullItem, attributes: &mut Attributes, modified: &mut u64)
    ensures item { item.new
        ≡ record item.old { attributes = attributes.old; modified = modified.old } }
    ensures attributes { attributes.new ≡ item.old.attributes }
    ensures modified { modified.new ≡ item.old.modified }
{
    mem::swap(&mut item.attributes, attributes);
    mem::swap(&mut item.modified, modified);
}
