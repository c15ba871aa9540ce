use kr_base::{Attributes, Bytes, Text};
use kr_items::Items;

/// A program that may use an item, as GNOME keyring recorded it. It is kept as it was read.
#[derive(Drop, PartialEq, Eq)]
pub struct Access {
    /// The types of access that are allowed.
    pub allowed: u32,
    /// The program's name.
    pub display: Text,
    /// The program's path.
    pub path: Text,
}

/// An item as the encrypted area has it.
#[derive(Drop, PartialEq, Eq)]
pub struct FullItem {
    /// The item's label.
    pub label: Text,
    /// The secret.
    pub value: Bytes,
    /// When the item was created, in seconds since 1970.
    pub created: u64,
    /// When the item was last changed, in seconds since 1970.
    pub modified: u64,
    /// The attributes.
    pub attributes: Attributes,
    /// The access entries.
    pub access: Items<Access>,
}
