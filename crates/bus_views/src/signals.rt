// The signals of the bus.
ghost use Rattle.std.specs.Prelude.{◌≡◌, IfOk, option_and_then, option_copied};
ghost use Rattle.dbus_framing.specs.Messages.{parts_of};
ghost use Rattle.dbus_types.specs.ValueViews.{value_of, values_of};
ghost use Rattle.bus_views.specs.Views.{is_from_bus, lost_kind, lost_name, owner_kind, signal_kind, unowned, unowned_in};

use crate::names::{is_bus, is_bus_path, is_lost, is_owner_changed};
use crate::view::Asked;
use call_arguments::{one_string_in, string_in, three_in};
use dbus_types::{Message, Value};
use kr_base::{OutOfMemory, Text};
use sender_board::Kind;

// The name that has no owner any more, in the three arguments of NameOwnerChanged.
fn unowned<'a>(name: &'a Value, old: &'a Value, new: &'a Value) -> Option<&'a Text>
    ensures { option_copied result
        ≡ unowned (value_of name.now, value_of old.now, value_of new.now) }
{
    let name = string_in(name)?;
    let _ = string_in(old)?;
    let new = string_in(new)?;
    if new.is_empty() { Some(name) } else { None }
}

// The same in the body of the signal.
fn unowned_in(body: &[Value]) -> Option<&Text>
    ensures { option_copied result ≡ unowned_in (values_of body.now) }
{
    let (name, old, new) = three_in(body)?;
    unowned(name, old, new)
}

// The name of which NameOwnerChanged says that it has no owner, if there is one.
fn owner_kind(name: Option<&Text>) -> Result<Kind<Asked>, OutOfMemory>
    ensures { IfOk result (λ kind. kind ≡ owner_kind (option_copied name.entry)) }
{
    match name {
        Some(name) => {
            let name = name.copy()?;
            Ok(Kind::OwnerLost(name))
        }
        None => Ok(Kind::Other),
    }
}

// The name of which NameLost says that the link has lost it, if there is one.
fn lost_kind(name: Option<&Text>) -> Result<Kind<Asked>, OutOfMemory>
    ensures { IfOk result (λ kind. kind ≡ lost_kind (option_copied name.entry)) }
{
    match name {
        Some(name) => {
            let name = name.copy()?;
            Ok(Kind::NameLost(name))
        }
        None => Ok(Kind::Other),
    }
}

// Whether a message has the path and the interface of the bus.
fn is_from_bus(message: &Message) -> bool
    ensures { result ≡ is_from_bus (parts_of message.now) }
{
    is_bus_path(&message.path) && is_bus(&message.interface)
}

/// What a signal says.
pub fn signal_of(message: &Message) -> Result<Kind<Asked>, OutOfMemory>
    ensures { IfOk result (λ kind. kind ≡ signal_kind (parts_of message.now)) }
{
    if !is_from_bus(message) {
        return Ok(Kind::Other);
    }
    if is_owner_changed(&message.member) {
        return owner_kind(unowned_in(message.body.as_slice()));
    }
    if is_lost(&message.member) {
        return lost_kind(one_string_in(message.body.as_slice()));
    }
    Ok(Kind::Other)
}
