ghost use Rattle.std.specs.Prelude.{◌≡◌, ◌%◌, Ok, IfOk, IsErrOf, IsTrue, IsFalse};
ghost use Rattle.dbus_types.specs.Types.{is_signature};
ghost use Rattle.dbus_types.specs.Values.{tys_of};
ghost use Rattle.dbus_types.specs.ValueViews.{values_of};
ghost use Rattle.dbus_marshal.specs.Fitting.{HaveSpelling};
ghost use Rattle.dbus_marshal.specs.Marshals.{AreSpelled};
ghost use Rattle.dbus_marshal.specs.Unmarshal.{values_at};
ghost use Rattle.dbus_marshal.specs.Spelling.{are_short};

use crate::refused::MarshalFault;
use crate::writers::write_each;
use dbus_types::{CompleteType, Endian, Value};
use std::alloc::Global;

/// The bytes of values (D-Bus Specification, "Marshaling"). `place` is the position of the first
/// byte, counted from the message's start.
///
/// Refused with `TooLong` exactly if an array has more than 67,108,864 bytes of elements, and with
/// `OutOfMemory` if no memory was left.
pub fn marshal(
    alloc: Global,
    values: &[Value],
    endian: Endian,
    place: u64,
) -> Result<Vec<u8>, MarshalFault>
    requires { HaveSpelling (values_of values.now) }

    // The result is the one spelling, which is read as the same values.
    ensures spelled { IfOk result (λ bytes. AreSpelled endian place
        (tys_of (values_of values.now)) (values_of values.now) bytes.items) }
    ensures again { IfOk result (λ bytes. IsTrue (is_signature (tys_of (values_of values.now)))
        → values_at endian (tys_of (values_of values.now))
        (record { place = place % 8; left = bytes.items }) ≡ Ok (values_of values.now)) }

    // No array is too long at Ok, and one is at TooLong.
    ensures short { IfOk result (λ bytes.
        IsTrue (are_short endian (values_of values.now) (place % 8))) }
    ensures long { IsErrOf result MarshalFault.TooLong
        → IsFalse (are_short endian (values_of values.now) (place % 8)) }
{
    let mut out = Vec::new(alloc);
    let phase = (place % 8) as usize;
    write_each(&mut out, phase, endian, values, &CompleteType::Variant)?;
    Ok(out)
}
