use std::alloc::{AllocError, AllocFailed};
use thiserror::Error;

/// Why an alias wasn't set.
#[derive(Clone, Copy, Debug, PartialEq, Eq, Error)]
pub enum AliasRefused {
    /// The name isn't a name of an alias.
    #[error("not a name of an alias")]
    BadName,
    /// There would be more than 1,024 aliases.
    #[error("too many aliases")]
    TooMany,
    /// The temporary file couldn't be written or synced. The aliases and their file are as before.
    #[error("the file of the aliases could not be written")]
    FaultBefore,
    /// The temporary file couldn't take the name, or the folder couldn't be synced. The file is in
    /// doubt.
    #[error("the file of the aliases may have been replaced or not")]
    FaultUnsure,
    /// The file is in doubt, and the folder couldn't be synced or the file couldn't be read. The doubt
    /// stays.
    #[error("the file of the aliases could not be read again")]
    FaultRead,
    /// There wasn't enough memory.
    #[error("out of memory")]
    OutOfMemory,
}

impl From<AllocError> for AliasRefused {
    ghost use Rattle.std.specs.Prelude.{◌≡◌};
    ghost use Rattle.alias_table.specs.declared.refused.AliasRefused.TheVariants.{OutOfMemory};

    ghost from_gives = { λ _ e. e ≡ OutOfMemory };

    fn from(_error: AllocError) -> Self {
        AliasRefused::OutOfMemory
    }
}

impl<T: Drop> From<AllocFailed<T>> for AliasRefused {
    ghost use Rattle.std.specs.Prelude.{◌≡◌};
    ghost use Rattle.alias_table.specs.declared.refused.AliasRefused.TheVariants.{OutOfMemory};

    ghost from_gives = { λ _ e. e ≡ OutOfMemory };

    fn from(_error: AllocFailed<T>) -> Self {
        AliasRefused::OutOfMemory
    }
}
