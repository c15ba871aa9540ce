ghost use Rattle.std.specs.Prelude.{◌≡◌};
ghost use Rattle.keyring_text.specs.declared.fault.ReadRefused.TheVariants.{OutOfMemory};

use std::alloc::{AllocError, AllocFailed};

/// What may be wrong with the fields of a keyring file.
#[derive(Clone, Copy, PartialEq, Eq)]
pub enum FieldFault {
    /// A field goes past the end.
    Short,
    /// A text isn't UTF-8, or contains a zero byte.
    BadText,
    /// A kind is neither 0 nor 1.
    BadKind,
    /// A name occurs twice among the attributes of one item.
    DuplicateName,
}

/// Why bytes weren't read: the first fault from the left, or lack of memory.
#[derive(Clone, Copy, Drop, PartialEq, Eq)]
pub enum ReadRefused<F> {
    /// The fault that was found.
    Fault(F),
    /// No memory was left.
    OutOfMemory,
}

impl<F> From<AllocError> for ReadRefused<F> {
    ghost from_gives = { λ _ e. e ≡ OutOfMemory };

    fn from(_error: AllocError) -> ReadRefused<F> {
        ReadRefused::OutOfMemory
    }
}

impl<F, T: Drop> From<AllocFailed<T>> for ReadRefused<F> {
    ghost from_gives = { λ _ e. e ≡ OutOfMemory };

    fn from(_error: AllocFailed<T>) -> ReadRefused<F> {
        ReadRefused::OutOfMemory
    }
}
