// The interface of a prompt (Secret Service API, "org.freedesktop.Secret.Prompt").
ghost use Rattle.std.specs.Prelude.{◌≡◌};
ghost use Rattle.dbus_types.specs.ValueViews.{values_of};
ghost use Rattle.call_arguments.specs.Arguments.{prompt_of_name};
ghost use Rattle.call_wire.specs.Prompt.{prompt, dismissed, dismiss};

use call_arguments::{one_string_in, without_arguments};
use dbus_types::Value;
use kr_base::PromptId;
use kr_names::ObjectName;
use secret_calls::{Call, CallFault};

/// The name of the interface.
pub const INTERFACE: &str = "org.freedesktop.Secret.Prompt";

// The prompt that the call is made on.
fn prompt_of(object: &Option<ObjectName>) -> Option<PromptId>
    ensures { result ≡ prompt_of_name object.now }
{
    match object {
        Some(ObjectName::Prompt(prompt)) => Some(*prompt),
        _ => None,
    }
}

/// Reads a call of Prompt. Its argument, a window of the caller, isn't kept.
pub fn prompt(object: &Option<ObjectName>, values: &[Value]) -> Result<Call, CallFault>
    ensures { result ≡ prompt object.now (values_of values.now) }
{
    match (prompt_of(object), one_string_in(values)) {
        (Some(prompt), Some(_)) => Ok(Call::Prompt { prompt }),
        _ => Err(CallFault::InvalidArgs),
    }
}

fn dismissed(object: &Option<ObjectName>) -> Result<Call, CallFault>
    ensures { result ≡ dismissed object.now }
{
    match prompt_of(object) {
        Some(prompt) => Ok(Call::Dismiss { prompt }),
        None => Err(CallFault::InvalidArgs),
    }
}

/// Reads a call of Dismiss, which takes no arguments.
pub fn dismiss(object: &Option<ObjectName>, values: &[Value]) -> Result<Call, CallFault>
    ensures { result ≡ dismiss object.now (values_of values.now) }
{
    without_arguments(dismissed(object), values)
}
