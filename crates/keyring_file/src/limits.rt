/// The most bytes of a keyring file.
pub const FILE_LIMIT: usize = 67_108_864;
