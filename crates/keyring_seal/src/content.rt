ghost use Rattle.keyring_seal.specs.Arranged.{IsKnown};

use keyring_file::{Clear, FullItem, known_clear, known_clear_items, known_items};
use kr_items::Items;

/// What a keyring file contains.
#[derive(Drop)]
pub struct Content {
    /// The clear part.
    pub clear: Clear,
    /// The items as the encrypted area has them, in the order of `clear.items`.
    pub items: Items<FullItem>,
}

/// A law, stated by the contract: what the types of a content guarantee of its values. The call
/// only reads the content.
pub fn known_content(content: &Content)
    ensures { IsKnown content.now }
{
    known_clear(&content.clear);
    known_clear_items(content.clear.items.as_slice());
    known_items(content.items.as_slice());
}
