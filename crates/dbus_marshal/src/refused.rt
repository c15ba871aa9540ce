ghost use Rattle.std.specs.Prelude.{◌≡◌};

use std::alloc::{AllocError, AllocFailed};

/// Why no values were read (D-Bus Specification, "Marshaling").
#[derive(Clone, Copy, Debug, PartialEq, Eq)]
pub enum ValueFault {
    /// The bytes end within a value, or a length exceeds the bytes that are there.
    Short,
    /// A byte of padding isn't zero.
    Padding,
    /// A boolean is neither 0 nor 1.
    BadBool,
    /// A string isn't UTF-8, contains a zero byte, or doesn't end with one.
    BadText,
    /// The text of an object path doesn't have the form of one.
    BadPath,
    /// A signature isn't valid or doesn't end with a zero byte, or a variant's signature doesn't
    /// list exactly one type.
    BadSignature,
    /// An array has more than 67,108,864 bytes.
    ArrayTooLong,
    /// More than 64 arrays, structs, dict entries and variants are open at once.
    TooDeep,
    /// All values were read, and bytes are left.
    Rest,
    /// No memory was left.
    OutOfMemory,
}

impl From<AllocError> for ValueFault {
    ghost use Rattle.dbus_marshal.specs.declared.refused.ValueFault.TheVariants.{OutOfMemory};

    ghost from_gives = { λ _ e. e ≡ OutOfMemory };

    fn from(_error: AllocError) -> Self {
        ValueFault::OutOfMemory
    }
}

impl<T: Drop> From<AllocFailed<T>> for ValueFault {
    ghost use Rattle.dbus_marshal.specs.declared.refused.ValueFault.TheVariants.{OutOfMemory};

    ghost from_gives = { λ _ e. e ≡ OutOfMemory };

    fn from(_error: AllocFailed<T>) -> Self {
        ValueFault::OutOfMemory
    }
}

/// Why no bytes were written (D-Bus Specification, "Marshaling").
#[derive(Clone, Copy, Debug, PartialEq, Eq)]
pub enum MarshalFault {
    /// An array has more than 67,108,864 bytes.
    TooLong,
    /// No memory was left.
    OutOfMemory,
}

impl From<AllocError> for MarshalFault {
    ghost use Rattle.dbus_marshal.specs.declared.refused.MarshalFault.TheVariants.{OutOfMemory};

    ghost from_gives = { λ _ e. e ≡ OutOfMemory };

    fn from(_error: AllocError) -> Self {
        MarshalFault::OutOfMemory
    }
}

impl<T: Drop> From<AllocFailed<T>> for MarshalFault {
    ghost use Rattle.dbus_marshal.specs.declared.refused.MarshalFault.TheVariants.{OutOfMemory};

    ghost from_gives = { λ _ e. e ≡ OutOfMemory };

    fn from(_error: AllocFailed<T>) -> Self {
        MarshalFault::OutOfMemory
    }
}
