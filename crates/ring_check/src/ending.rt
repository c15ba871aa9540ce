// How a check ends.
ghost use Rattle.std.specs.Prelude.{◌≡◌};
ghost use Rattle.ring_check.specs.Ending.{end_of};

use std::alloc::{AllocError, AllocFailed};

/// How the check of a folder ended.
#[derive(Clone, Copy, Debug, PartialEq, Eq)]
pub enum CheckEnd {
    /// All lines were written, and no file is damaged.
    Done,
    /// All lines were written, and a file is damaged, or too large to be read.
    Damaged,
    /// The folder failed, or one of its files. A prefix of the lines was written.
    FolderFault,
    /// The output failed. A prefix of the lines was written.
    WriteFault,
    /// No memory was left. A prefix of the lines was written.
    Memory,
}

/// Why a check stops before its end.
#[derive(Clone, Copy)]
pub enum Stop {
    /// The folder failed, or one of its files.
    Folder,
    /// The output failed.
    Write,
    /// No memory was left.
    Memory,
}

/// How a check ends that found this: whether a file is damaged, or why it stopped.
pub fn end_of(answer: Result<bool, Stop>) -> CheckEnd
    ensures { result ≡ end_of answer }
{
    match answer {
        Ok(true) => CheckEnd::Damaged,
        Ok(false) => CheckEnd::Done,
        Err(Stop::Folder) => CheckEnd::FolderFault,
        Err(Stop::Write) => CheckEnd::WriteFault,
        Err(Stop::Memory) => CheckEnd::Memory,
    }
}

impl From<AllocError> for Stop {
    ghost use Rattle.std.specs.Prelude.{◌≡◌};
    ghost use Rattle.ring_check.specs.declared.ending.Stop.TheVariants.{Memory};

    ghost from_gives = { λ _ e. e ≡ Memory };

    fn from(_error: AllocError) -> Self {
        Stop::Memory
    }
}

impl<T: Drop> From<AllocFailed<T>> for Stop {
    ghost use Rattle.std.specs.Prelude.{◌≡◌};
    ghost use Rattle.ring_check.specs.declared.ending.Stop.TheVariants.{Memory};

    ghost from_gives = { λ _ e. e ≡ Memory };

    fn from(_error: AllocFailed<T>) -> Self {
        Stop::Memory
    }
}
