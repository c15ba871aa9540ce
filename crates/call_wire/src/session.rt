// The interface of a session (Secret Service API, "org.freedesktop.Secret.Session").
ghost use Rattle.std.specs.Prelude.{◌≡◌};
ghost use Rattle.dbus_types.specs.ValueViews.{values_of};
ghost use Rattle.call_wire.specs.Session.{closed, close};

use call_arguments::without_arguments;
use dbus_types::Value;
use kr_names::ObjectName;
use secret_calls::{Call, CallFault};

/// The name of the interface.
pub const INTERFACE: &str = "org.freedesktop.Secret.Session";

fn closed(object: &Option<ObjectName>) -> Result<Call, CallFault>
    ensures { result ≡ closed object.now }
{
    match object {
        Some(ObjectName::Session(session)) => Ok(Call::CloseSession { session: *session }),
        _ => Err(CallFault::InvalidArgs),
    }
}

/// Close, on the session that it is called on. It has no arguments.
pub fn close(object: &Option<ObjectName>, values: &[Value]) -> Result<Call, CallFault>
    ensures { result ≡ close object.now (values_of values.now) }
{
    without_arguments(closed(object), values)
}
