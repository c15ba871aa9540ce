/// How storing a file once, or removing it, ended.
#[derive(Clone, Copy, Debug, Drop, PartialEq, Eq)]
pub enum StoreFate {
    /// The file was replaced, or removed.
    Stored,
    /// A call of the device failed before the file could change.
    Before,
    /// A call of the device failed, and the file may have changed or not.
    Unsure,
}

/// How one resolve of a file in doubt ended.
#[derive(Clone, Copy, Debug, Drop, PartialEq, Eq)]
pub enum ReadFate {
    /// A file in doubt has the older of its two images.
    Old,
    /// A file in doubt has the newer of its two images.
    New,
    /// A file in doubt has neither of its two images. This never happens with an honest slot.
    Other,
    /// A file in doubt couldn't be read again. The doubt stays.
    ReadFailed,
}

/// How something ended that an event asked of the disk.
#[derive(Clone, Copy, Debug, Drop, PartialEq, Eq)]
pub enum Fate {
    /// A storing of a file, or a removal of it.
    Store(StoreFate),
    /// A resolve of a file in doubt.
    Read(ReadFate),
}
