use kr_base::{ItemId, Stem};
use kr_items::Items;

/// What a search finds in one collection.
#[derive(Drop)]
pub struct Matches {
    /// The collection's stem.
    pub stem: Stem,
    /// Whether the collection is unlocked, so that the items were compared and not just their
    /// hashes.
    pub is_open: bool,
    /// The items that match, by rising ids.
    pub ids: Items<ItemId>,
}
