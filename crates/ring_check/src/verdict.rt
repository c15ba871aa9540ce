// What is found of a file.
ghost use Rattle.std.specs.Prelude.{◌≡◌};

use keyring_file::{AreaFault, ClearFault};
use kr_base::Text;

/// What the clear part of a file says about its collection.
#[derive(Clone, Copy, Debug, PartialEq, Eq)]
pub struct Summary {
    /// The number of items.
    pub items: usize,
    /// When the collection was created, in seconds since 1970.
    pub created: u64,
    /// When the collection was last changed, in seconds since 1970.
    pub modified: u64,
}

/// What the check found of a file.
#[derive(Clone, Copy, Debug, PartialEq, Eq)]
pub enum Row {
    /// The clear part is valid and, if there is a password, the area opens with it.
    Sound(Summary),
    /// The file has more than 67,108,864 bytes, and wasn't read.
    TooLarge,
    /// The clear part isn't valid.
    Clear(ClearFault),
    /// The clear part is valid, and the area has another password, or was changed.
    OtherPassword(Summary),
    /// The clear part is valid, and the area, which the password opens, isn't.
    Area(AreaFault),
}

impl Row {
    ghost use Rattle.ring_check.specs.Verdict.{is_damaged};

    /// Whether the file is damaged, or too large to be read.
    pub fn is_damaged(&self) -> bool
        ensures { result ≡ is_damaged self.now }
    {
        match self {
            Row::Sound(_) | Row::OtherPassword(_) => false,
            Row::TooLarge | Row::Clear(_) | Row::Area(_) => true,
        }
    }
}

/// A file's name, and what was found of it.
#[derive(Debug, Drop, PartialEq, Eq)]
pub struct Verdict {
    /// The name of the file.
    pub name: Text,
    /// What was found.
    pub row: Row,
}
