// The interface of an item (Secret Service API, "org.freedesktop.Secret.Item").
ghost use Rattle.std.specs.Prelude.{◌≡◌, IfOk, option_and_then};
ghost use Rattle.dbus_types.specs.ValueViews.{values_of};
ghost use Rattle.dbus_framing.specs.Headers.{one_of};
ghost use Rattle.call_arguments.specs.Arguments.{session_in, secret_in};
ghost use Rattle.call_wire.specs.Item.{item_of, deleted, delete, get_secret, set_secret};

use crate::OutOfMemory;
use call_arguments::{one_in, secret_in, session_in, without_arguments};
use dbus_types::Value;
use kr_base::{ItemId, SessionId, Stem};
use kr_names::ObjectName;
use secret_calls::{Call, CallFault, Secret};
use std::alloc::Global;

/// The name of the interface.
pub const INTERFACE: &str = "org.freedesktop.Secret.Item";

/// The item that the call is made on: the stem of its collection, and its number.
pub fn item_of(object: &Option<ObjectName>) -> Result<Option<(Stem, ItemId)>, OutOfMemory>
    ensures { IfOk result (λ it. it ≡ item_of object.now) }
{
    match object {
        Some(ObjectName::Item(stem, item)) => Ok(Some((stem.copy()?, *item))),
        _ => Ok(None),
    }
}

fn deleted(object: &Option<ObjectName>) -> Result<Result<Call, CallFault>, OutOfMemory>
    ensures { IfOk result (λ call. call ≡ deleted object.now) }
{
    match item_of(object)? {
        Some((stem, item)) => Ok(Ok(Call::DeleteItem { stem, item })),
        None => Ok(Err(CallFault::InvalidArgs)),
    }
}

/// Reads a call of Delete, which takes no arguments.
pub fn delete(
    object: &Option<ObjectName>,
    values: &[Value],
) -> Result<Result<Call, CallFault>, OutOfMemory>
    ensures { IfOk result (λ call. call ≡ delete object.now (values_of values.now)) }
{
    Ok(without_arguments(deleted(object)?, values))
}

// The session that the only argument names.
fn one_session(alloc: Global, values: &[Value]) -> Result<Option<Option<SessionId>>, OutOfMemory>
    ensures { IfOk result (λ session. session
        ≡ option_and_then session_in (one_of (values_of values.now))) }
{
    match one_in(values) {
        Some(session) => session_in(alloc, session),
        None => Ok(None),
    }
}

/// Reads a call of GetSecret.
pub fn get_secret(
    alloc: Global,
    object: &Option<ObjectName>,
    values: &[Value],
) -> Result<Result<Call, CallFault>, OutOfMemory>
    ensures { IfOk result (λ call. call ≡ get_secret object.now (values_of values.now)) }
{
    let Some((stem, item)) = item_of(object)? else {
        return Ok(Err(CallFault::InvalidArgs));
    };
    match one_session(alloc, values)? {
        Some(session) => Ok(Ok(Call::GetSecret {
            stem,
            item,
            session,
        })),
        None => Ok(Err(CallFault::InvalidArgs)),
    }
}

// The secret in the only argument.
fn one_secret(alloc: Global, values: &[Value]) -> Result<Option<Secret>, OutOfMemory>
    ensures { IfOk result (λ secret. secret
        ≡ option_and_then secret_in (one_of (values_of values.now))) }
{
    match one_in(values) {
        Some(secret) => secret_in(alloc, secret),
        None => Ok(None),
    }
}

/// Reads a call of SetSecret.
pub fn set_secret(
    alloc: Global,
    object: &Option<ObjectName>,
    values: &[Value],
) -> Result<Result<Call, CallFault>, OutOfMemory>
    ensures { IfOk result (λ call. call ≡ set_secret object.now (values_of values.now)) }
{
    let Some((stem, item)) = item_of(object)? else {
        return Ok(Err(CallFault::InvalidArgs));
    };
    match one_secret(alloc, values)? {
        Some(secret) => Ok(Ok(Call::SetSecret { stem, item, secret })),
        None => Ok(Err(CallFault::InvalidArgs)),
    }
}
