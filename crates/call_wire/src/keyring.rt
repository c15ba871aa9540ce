// The interface by which the password of a collection is changed (docs/SERVICE.md, "Interfaces"). A call on an alias is
// a call on its collection.
ghost use Rattle.std.specs.Prelude.{◌≡◌, IfOk};
ghost use Rattle.dbus_types.specs.ValueViews.{values_of};
ghost use Rattle.call_wire.specs.Keyring.{changing, change_password};

use crate::OutOfMemory;
use crate::collection::collection_of;
use call_arguments::without_arguments;
use dbus_types::Value;
use kr_names::ObjectName;
use secret_calls::{Call, CallFault};

/// The name of the interface.
pub const INTERFACE: &str = "org.keyringd.Keyring1";

fn changing(object: &Option<ObjectName>) -> Result<Result<Call, CallFault>, OutOfMemory>
    ensures { IfOk result (λ call. call ≡ changing object.now) }
{
    match collection_of(object)? {
        Some(collection) => Ok(Ok(Call::ChangePassword { collection })),
        None => Ok(Err(CallFault::InvalidArgs)),
    }
}

/// Reads a call of ChangePassword, which takes no arguments: the agent is asked for the new password.
pub fn change_password(
    object: &Option<ObjectName>,
    values: &[Value],
) -> Result<Result<Call, CallFault>, OutOfMemory>
    ensures { IfOk result (λ call. call ≡ change_password object.now (values_of values.now)) }
{
    Ok(without_arguments(changing(object)?, values))
}
