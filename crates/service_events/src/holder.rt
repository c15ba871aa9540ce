use kr_base::{ItemId, Stem};

/// An existing object, by where its properties are read.
#[derive(Drop)]
pub enum Holder {
    /// The service.
    Service,
    /// The collection of the stem.
    Collection(Stem),
    /// The item of this number in the collection of the stem.
    Item(Stem, ItemId),
    /// An object without properties.
    Nothing,
}
