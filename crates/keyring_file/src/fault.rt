ghost use Rattle.std.specs.Prelude.{◌≡◌};

/// What is wrong with the clear part of a file: the first fault from the left.
#[derive(Clone, Copy, Debug, Drop, PartialEq, Eq, thiserror::Error)]
pub enum ClearFault {
    /// One of the first 16 bytes is present and differs.
    #[error("Magic")]
    Magic,
    /// Major, crypto or hash isn't 0, or minor is above 1.
    #[error("Version")]
    Version,
    /// A field goes past the end of the file.
    #[error("Short")]
    Short,
    /// A text isn't UTF-8, or contains a zero byte.
    #[error("BadText")]
    BadText,
    /// There are more than 1,000,000 iterations.
    #[error("TooManyIterations")]
    TooManyIterations,
    /// The length of the area isn't a multiple of 16, or is 0.
    #[error("AreaLength")]
    AreaLength,
    /// There are bytes after the area.
    #[error("Trailing")]
    Trailing,
    /// Two items have the same number.
    #[error("DuplicateId")]
    DuplicateId,
    /// The kind of a hashed attribute is neither 0 nor 1.
    #[error("BadKind")]
    BadKind,
    /// A name occurs twice among the hashed attributes of one item.
    #[error("DuplicateName")]
    DuplicateName,
}

/// What is wrong with a decrypted area.
#[derive(Clone, Copy, Debug, Drop, PartialEq, Eq, thiserror::Error)]
pub enum AreaFault {
    /// The first 16 bytes aren't the MD5 of the rest.
    #[error("CheckDiffers")]
    CheckDiffers,
    /// A field goes past the end of the area.
    #[error("Short")]
    Short,
    /// A text isn't UTF-8, or contains a zero byte.
    #[error("BadText")]
    BadText,
    /// The kind of an attribute is neither 0 nor 1.
    #[error("BadKind")]
    BadKind,
    /// A name occurs twice among the attributes of one item.
    #[error("DuplicateName")]
    DuplicateName,
}
