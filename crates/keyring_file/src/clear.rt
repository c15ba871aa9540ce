use kr_base::{HashedPair, ItemId, Text};
use kr_items::Items;
use std::marker::Model;

/// An item as the clear part of a file has it.
#[derive(Drop, PartialEq, Eq)]
pub struct ClearItem {
    /// The item's number within its collection.
    pub id: ItemId,
    /// The item's type, kept as it was read.
    pub kind: u32,
    /// The names of the attributes with the hashes of their values, in the order of the file.
    pub hashed: Items<HashedPair>,
    /// The content type of the secret.
    pub content: Text,
}

/// The clear part of a keyring file. Its type guarantees that the version is 0.0 or 0.1, and that
/// in version 0.0 every item has the content type `text/plain`.
#[derive(Drop)]
pub struct Clear {
    /// The collection's label.
    pub name: Text,
    /// When the collection was created, in seconds since 1970.
    pub created: u64,
    /// When the collection was last changed, in seconds since 1970.
    pub modified: u64,
    /// Flags, kept as they were read.
    pub flags: u32,
    /// The timeout in seconds, kept as it was read.
    pub timeout: u32,
    /// How many times the password is hashed.
    pub iterations: u32,
    /// What is hashed after the password.
    pub salt: [u8; 8],
    /// The items, in the order of the file.
    pub items: Items<ClearItem>,
    /// The second number of the version.
    pub minor: u8,
}

impl Model for Clear {
    ghost use Rattle.keyring_file.specs.Clear.{ClearPart, IsOfVersion};

    ghost Value = { ClearPart };

    ghost view = { λ c. record {
      name = c.name;
      created = c.created;
      modified = c.modified;
      flags = c.flags;
      timeout = c.timeout;
      iterations = c.iterations;
      salt = c.salt;
      items = c.items;
      minor = c.minor;
    } };

    ghost invariant = { λ c. IsOfVersion c.minor c.items };
}
