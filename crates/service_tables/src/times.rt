/// The times of a collection or an item, in seconds since 1970. They are 0 if they aren't shown.
#[derive(Clone, Copy, Drop)]
pub struct Times {
    /// When it was created.
    pub created: u64,
    /// When it was last changed.
    pub modified: u64,
}
