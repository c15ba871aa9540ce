/// Why a call on the items of a collection was refused.
#[derive(Debug, Drop, PartialEq, Eq)]
pub enum ItemFault {
    /// There is no item with that id.
    NoItem,
    /// The greatest id is 4294967295, so there is none left for a new item.
    IdsSpent,
    /// The call gives an item over 256 attributes.
    TooManyAttributes,
    /// There is not enough memory.
    OutOfMemory,
}
