use keyring_file::FILE_LIMIT;

/// How much of a folder is listed.
#[derive(Clone, Copy, PartialEq, Eq)]
pub struct Limits {
    /// The most bytes that one keyring file may have.
    pub one_file: usize,
    /// The most collections.
    pub collections: usize,
    /// The most items, in all collections together.
    pub items: usize,
    /// The most bytes of all listed keyring files together.
    pub all_files: usize,
}

/// The limits of `load`: 67,108,864 bytes in one keyring file, 1,024 collections, 100,000 items in all,
/// and 268,435,456 bytes in all listed keyring files.
pub const LIMITS: Limits = Limits {
    one_file: FILE_LIMIT,
    collections: 1_024,
    items: 100_000,
    all_files: 268_435_456,
};
