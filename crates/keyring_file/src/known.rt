// What the types of a clear part and of items guarantee, as facts that a contract can cite. The functions
// only read each field, return nothing, and take no memory.

ghost use Rattle.std.specs.Prelude.{◌≡◌, length};
ghost use Rattle.std.specs.List.{AllByRecursion};
ghost use Rattle.kr_base.specs.Attributes.{IsInOrder};
ghost use Rattle.keyring_file.specs.Known.{IsKnownAccess, IsKnownClear, IsKnownClearItem, IsKnownItem, IsKnownPair};

use crate::{Access, Clear, ClearItem, FullItem};
use keyring_text::known_bytes;
use kr_base::{AttrValue, Attributes, Text};

fn known_pair(pair: &(Text, AttrValue))
    ensures { IsKnownPair pair.now }
{
    let _name = pair.0.as_str();
    match &pair.1 {
        AttrValue::Text(text) => {
            let _text = text.as_str();
        }
        AttrValue::Number(number) => {
            let _number = *number;
        }
    }
}

fn known_attributes(attributes: &Attributes)
    ensures ordered { IsInOrder attributes.now }
    ensures each { AllByRecursion IsKnownPair attributes.now }
{
    for pair in attributes.as_slice() {
        known_pair(pair);
    }
}

fn known_entry(entry: &Access)
    ensures { IsKnownAccess entry.now }
{
    let _allowed = entry.allowed;
    let _display = entry.display.as_str();
    let _path = entry.path.as_str();
}

fn known_access(entries: &[Access])
    ensures { AllByRecursion IsKnownAccess entries.now }
{
    for entry in entries {
        known_entry(entry);
    }
}

/// What the type of an item of the area guarantees of its values. The call only reads it.
pub fn known_item(item: &FullItem)
    ensures { IsKnownItem item.now }
{
    let _label = item.label.as_str();
    known_bytes(item.value.as_slice());
    let _created = item.created;
    let _modified = item.modified;
    known_attributes(&item.attributes);
    known_access(item.access.as_slice());
}

/// What the types of items of the area guarantee of their values. The call only reads them.
pub fn known_items(items: &[FullItem])
    ensures { AllByRecursion IsKnownItem items.now }
{
    for item in items {
        known_item(item);
    }
}

/// What the type of an item of the clear part guarantees of its values, except for its hashes. The
/// call only reads it.
pub fn known_clear_item(item: &ClearItem)
    ensures { IsKnownClearItem item.now }
{
    let _id = item.id.0;
    let _kind = item.kind;
    let _content = item.content.as_str();
}

/// What the types of items of the clear part guarantee of their values, except for their hashes.
/// The call only reads them.
pub fn known_clear_items(items: &[ClearItem])
    ensures { AllByRecursion IsKnownClearItem items.now }
{
    for item in items {
        known_clear_item(item);
    }
}

fn known_salt(salt: &[u8; 8])
    ensures { length salt.now ≡ 8 }
{
    let _salt = *salt;
}

/// What the type of a clear part guarantees of its values, except for its items. The call only
/// reads it.
pub fn known_clear(clear: &Clear)
    ensures { IsKnownClear clear.now }
{
    let _name = clear.name.as_str();
    let _created = clear.created;
    let _modified = clear.modified;
    let _flags = clear.flags;
    let _timeout = clear.timeout;
    known_salt(&clear.salt);
}
