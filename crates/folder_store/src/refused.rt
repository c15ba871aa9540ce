use crate::opening::LeftAlone;
use crate::ring::Ring;
use kr_outside::Slot;
use std::alloc::{AllocError, AllocFailed};
use thiserror::Error;

/// Why a folder wasn't loaded.
#[derive(Clone, Copy, Debug, PartialEq, Eq, Error)]
pub enum LoadRefused {
    /// The folder's count of faults, or that of one of its slots, rose.
    #[error("the folder could not be read")]
    Folder,
    /// No memory was left.
    #[error("out of memory")]
    OutOfMemory,
}

/// A folder that wasn't loaded: the cause, and each slot that was made of it.
#[derive(Drop)]
pub struct NotLoaded<S: Slot> {
    /// The cause.
    pub refused: LoadRefused,
    /// The collections that were listed until then, in byte order of their files' names.
    pub rings: Vec<Ring<S>>,
    /// The keyring files that were looked at and left alone until then, in byte order of their names.
    pub left_alone: Vec<LeftAlone<S>>,
    /// The slot at which the load stopped, if it had made one that isn't among those.
    pub last: Option<S>,
}

impl From<AllocError> for LoadRefused {
    ghost use Rattle.std.specs.Prelude.{◌≡◌};
    ghost use Rattle.folder_store.specs.declared.refused.LoadRefused.TheVariants.{OutOfMemory};

    ghost from_gives = { λ _ e. e ≡ OutOfMemory };

    fn from(_error: AllocError) -> Self {
        LoadRefused::OutOfMemory
    }
}

impl<T: Drop> From<AllocFailed<T>> for LoadRefused {
    ghost use Rattle.std.specs.Prelude.{◌≡◌};
    ghost use Rattle.folder_store.specs.declared.refused.LoadRefused.TheVariants.{OutOfMemory};

    ghost from_gives = { λ _ e. e ≡ OutOfMemory };

    fn from(_error: AllocFailed<T>) -> Self {
        LoadRefused::OutOfMemory
    }
}
