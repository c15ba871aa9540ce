use kr_base::{Attributes, Bytes, ItemId, Text};

/// A change of a collection or of one of its items.
#[derive(Drop)]
pub enum Change {
    /// Adds an item. With `replace`, if an item has exactly these attributes, the one with the least id is
    /// changed instead: its label, its secret and its content type.
    Add {
        /// The item's label.
        label: Text,
        /// Its attributes.
        attributes: Attributes,
        /// Its secret.
        value: Bytes,
        /// The content type of the secret.
        content: Text,
        /// Whether to replace an item with equal attributes.
        replace: bool,
    },
    /// Sets the secret of an item.
    SetSecret {
        /// The item.
        id: ItemId,
        /// The secret.
        value: Bytes,
        /// The content type of the secret.
        content: Text,
    },
    /// Sets the label of an item.
    SetLabel {
        /// The item.
        id: ItemId,
        /// The label.
        label: Text,
    },
    /// Sets the attributes of an item.
    SetAttributes {
        /// The item.
        id: ItemId,
        /// The attributes.
        attributes: Attributes,
    },
    /// Removes an item.
    Remove {
        /// The item.
        id: ItemId,
    },
    /// Sets the label of the collection.
    SetName {
        /// The label.
        label: Text,
    },
}

/// What a change did.
#[derive(Clone, Copy, Debug, Drop, PartialEq, Eq)]
pub enum Changed {
    /// This item was added.
    Made(ItemId),
    /// This item was changed.
    Changed(ItemId),
    /// This item was removed.
    Removed(ItemId),
    /// The collection got another label.
    Named,
}
