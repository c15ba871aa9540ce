// The interface of the service (Secret Service API, "org.freedesktop.Secret.Service").
ghost use Rattle.std.specs.Prelude.{◌≡◌, IfOk, option_and_then, option_copied};
ghost use Rattle.dbus_types.specs.ValueViews.{value_of, values_of};
ghost use Rattle.dbus_framing.specs.Headers.{one_of, two_of};
ghost use Rattle.call_arguments.specs.Arguments.{attributes_in, objects_in};
ghost use Rattle.call_wire.specs.Service.{algorithm_in, open_session, new_label_in, made_with, create_collection, search_items, unlock, lock, secrets_wanted, get_secrets, read_alias, set_with, set_alias};

use crate::OutOfMemory;
use call_arguments::{
    ElementType, alias_in, attributes_in, elements_in, held_in, label_in, name_in, objects_in,
    one_in, one_string_in, property, session_in, string_in, two_in, wanted_alias_in,
};
use dbus_types::Value;
use kr_base::{Attributes, Text};
use kr_items::Items;
use kr_names::ObjectName;
use secret_calls::{Call, CallFault};
use std::alloc::Global;

/// The name of the interface.
pub const INTERFACE: &str = "org.freedesktop.Secret.Service";

/// The name of the property that a collection is created with.
const LABEL: &str = "org.freedesktop.Secret.Collection.Label";

fn algorithm_in(values: &[Value]) -> Option<&Text>
    ensures { option_copied result ≡ option_and_then algorithm_in (two_of (values_of values.now)) }
{
    let (algorithm, input) = two_in(values)?;
    let _ = held_in(input)?;
    string_in(algorithm)
}

/// OpenSession. Its second argument, the input of the algorithm, isn't kept.
pub fn open_session(values: &[Value]) -> Result<Result<Call, CallFault>, OutOfMemory>
    ensures { IfOk result (λ call. call ≡ open_session (values_of values.now)) }
{
    match algorithm_in(values) {
        Some(algorithm) => {
            let algorithm = algorithm.copy()?;
            Ok(Ok(Call::OpenSession { algorithm }))
        }
        None => Ok(Err(CallFault::InvalidArgs)),
    }
}

// The label in a dict of properties.
fn new_label_in(alloc: Global, value: &Value) -> Result<Option<Text>, OutOfMemory>
    ensures { IfOk result (λ label. label ≡ new_label_in (value_of value.now)) }
{
    match elements_in(value, ElementType::Property) {
        Some(properties) => label_in(alloc, property(properties, LABEL)),
        None => Ok(None),
    }
}

// CreateCollection with these two arguments.
fn made_with(alloc: Global, properties: &Value, alias: &Value) -> Result<Option<Call>, OutOfMemory>
    ensures { IfOk result (λ call. call ≡ made_with (value_of properties.now, value_of alias.now)) }
{
    let Some(label) = new_label_in(alloc, properties)? else {
        return Ok(None);
    };
    match wanted_alias_in(alias)? {
        Some(alias) => Ok(Some(Call::CreateCollection { label, alias })),
        None => Ok(None),
    }
}

/// Reads a call of CreateCollection. A missing label is empty, and any other property is ignored. The
/// alias is that of an alias, or empty.
pub fn create_collection(
    alloc: Global,
    values: &[Value],
) -> Result<Result<Call, CallFault>, OutOfMemory>
    ensures { IfOk result (λ call. call ≡ create_collection (values_of values.now)) }
{
    let Some((properties, alias)) = two_in(values) else {
        return Ok(Err(CallFault::InvalidArgs));
    };
    match made_with(alloc, properties, alias)? {
        Some(call) => Ok(Ok(call)),
        None => Ok(Err(CallFault::InvalidArgs)),
    }
}

/// The attributes in the only argument.
pub fn wanted_in(alloc: Global, values: &[Value]) -> Result<Option<Attributes>, OutOfMemory>
    ensures { IfOk result (λ wanted. wanted
        ≡ option_and_then attributes_in (one_of (values_of values.now))) }
{
    match one_in(values) {
        Some(wanted) => attributes_in(alloc, wanted),
        None => Ok(None),
    }
}

/// Reads a call of SearchItems.
pub fn search_items(alloc: Global, values: &[Value]) -> Result<Result<Call, CallFault>, OutOfMemory>
    ensures { IfOk result (λ call. call ≡ search_items (values_of values.now)) }
{
    match wanted_in(alloc, values)? {
        Some(wanted) => Ok(Ok(Call::SearchItems { wanted })),
        None => Ok(Err(CallFault::InvalidArgs)),
    }
}

// The objects that the only argument names.
fn named_in(alloc: Global, values: &[Value]) -> Result<Option<Items<ObjectName>>, OutOfMemory>
    ensures { IfOk result (λ objects. objects
        ≡ option_and_then objects_in (one_of (values_of values.now))) }
{
    match one_in(values) {
        Some(objects) => objects_in(alloc, objects),
        None => Ok(None),
    }
}

/// Reads a call of Unlock.
pub fn unlock(alloc: Global, values: &[Value]) -> Result<Result<Call, CallFault>, OutOfMemory>
    ensures { IfOk result (λ call. call ≡ unlock (values_of values.now)) }
{
    match named_in(alloc, values)? {
        Some(objects) => Ok(Ok(Call::Unlock { objects })),
        None => Ok(Err(CallFault::InvalidArgs)),
    }
}

/// Reads a call of Lock.
pub fn lock(alloc: Global, values: &[Value]) -> Result<Result<Call, CallFault>, OutOfMemory>
    ensures { IfOk result (λ call. call ≡ lock (values_of values.now)) }
{
    match named_in(alloc, values)? {
        Some(objects) => Ok(Ok(Call::Lock { objects })),
        None => Ok(Err(CallFault::InvalidArgs)),
    }
}

fn secrets_wanted(
    alloc: Global,
    items: &Value,
    session: &Value,
) -> Result<Option<Call>, OutOfMemory>
    ensures { IfOk result (λ call. call
        ≡ secrets_wanted (value_of items.now, value_of session.now)) }
{
    let Some(items) = objects_in(alloc, items)? else {
        return Ok(None);
    };
    match session_in(alloc, session)? {
        Some(session) => Ok(Some(Call::GetSecrets { items, session })),
        None => Ok(None),
    }
}

/// Reads a call of GetSecrets.
pub fn get_secrets(alloc: Global, values: &[Value]) -> Result<Result<Call, CallFault>, OutOfMemory>
    ensures { IfOk result (λ call. call ≡ get_secrets (values_of values.now)) }
{
    let Some((items, session)) = two_in(values) else {
        return Ok(Err(CallFault::InvalidArgs));
    };
    match secrets_wanted(alloc, items, session)? {
        Some(call) => Ok(Ok(call)),
        None => Ok(Err(CallFault::InvalidArgs)),
    }
}

/// Reads a call of ReadAlias. Its argument may be any text.
pub fn read_alias(values: &[Value]) -> Result<Result<Call, CallFault>, OutOfMemory>
    ensures { IfOk result (λ call. call ≡ read_alias (values_of values.now)) }
{
    match one_string_in(values) {
        Some(name) => {
            let name = name.copy()?;
            Ok(Ok(Call::ReadAlias { name }))
        }
        None => Ok(Err(CallFault::InvalidArgs)),
    }
}

// SetAlias with these two arguments.
fn set_with(alloc: Global, alias: &Value, object: &Value) -> Result<Option<Call>, OutOfMemory>
    ensures { IfOk result (λ call. call ≡ set_with (value_of alias.now, value_of object.now)) }
{
    let Some(alias) = alias_in(alias)? else {
        return Ok(None);
    };
    match name_in(alloc, object)? {
        Some(object) => Ok(Some(Call::SetAlias { alias, object })),
        None => Ok(None),
    }
}

/// Reads a call of SetAlias. The name must be one that an alias may have.
pub fn set_alias(alloc: Global, values: &[Value]) -> Result<Result<Call, CallFault>, OutOfMemory>
    ensures { IfOk result (λ call. call ≡ set_alias (values_of values.now)) }
{
    let Some((alias, object)) = two_in(values) else {
        return Ok(Err(CallFault::InvalidArgs));
    };
    match set_with(alloc, alias, object)? {
        Some(call) => Ok(Ok(call)),
        None => Ok(Err(CallFault::InvalidArgs)),
    }
}
