// The interface of a collection (Secret Service API, "org.freedesktop.Secret.Collection"). A call on an alias is a call
// on its collection.
ghost use Rattle.std.specs.Prelude.{◌≡◌, IfOk, option_and_then, option_map};
ghost use Rattle.dbus_types.specs.ValueViews.{value_of, values_of, each_as};
ghost use Rattle.dbus_framing.specs.Headers.{one_of};
ghost use Rattle.call_arguments.specs.Arguments.{type_of_element, elements_in, three_of, secret_in, truth_in};
ghost use Rattle.call_wire.specs.Collection.{collection_of, search_items, given_attributes_in, described_by, description_in, made_with, create_item, deleted, delete};

use crate::OutOfMemory;
use crate::service::wanted_in;
use call_arguments::{
    ElementType, attributes_in, elements_in, label_in, property, secret_in, three_in, truth_in,
    without_arguments,
};
use dbus_types::Value;
use kr_base::{Attributes, Text};
use kr_names::ObjectName;
use secret_calls::{Call, CallFault};
use std::alloc::Global;

/// The name of the interface.
pub const INTERFACE: &str = "org.freedesktop.Secret.Collection";

/// The names of the properties that an item is created with.
const LABEL: &str = "org.freedesktop.Secret.Item.Label";

const ATTRIBUTES: &str = "org.freedesktop.Secret.Item.Attributes";

/// The collection that the call is made on, or the alias that names it.
pub fn collection_of(object: &Option<ObjectName>) -> Result<Option<ObjectName>, OutOfMemory>
    ensures { IfOk result (λ collection. collection ≡ collection_of object.now) }
{
    match object {
        Some(ObjectName::Collection(stem)) => Ok(Some(ObjectName::Collection(stem.copy()?))),
        Some(ObjectName::Alias(alias)) => Ok(Some(ObjectName::Alias(alias.copy()?))),
        _ => Ok(None),
    }
}

/// Reads a call of SearchItems.
pub fn search_items(
    alloc: Global,
    object: &Option<ObjectName>,
    values: &[Value],
) -> Result<Result<Call, CallFault>, OutOfMemory>
    ensures { IfOk result (λ call. call ≡ search_items object.now (values_of values.now)) }
{
    let Some(collection) = collection_of(object)? else {
        return Ok(Err(CallFault::InvalidArgs));
    };
    match wanted_in(alloc, values)? {
        Some(wanted) => Ok(Ok(Call::SearchCollection { collection, wanted })),
        None => Ok(Err(CallFault::InvalidArgs)),
    }
}

// The attributes: none if the property is missing.
fn given_attributes_in(
    alloc: Global,
    attributes: Option<&Value>,
) -> Result<Option<Attributes>, OutOfMemory>
    ensures { IfOk result (λ made. made
        ≡ given_attributes_in (option_map (λ it. value_of it.now) attributes.entry)) }
{
    match attributes {
        Some(value) => attributes_in(alloc, value),
        None => Ok(Some(Attributes::new(alloc))),
    }
}

// The label and the attributes among the properties.
fn described_by(
    alloc: Global,
    properties: &[Value],
) -> Result<Option<(Text, Attributes)>, OutOfMemory>
    ensures { IfOk result (λ described. described
        ≡ described_by (each_as (type_of_element (ElementType.Property)) properties.now)) }
{
    let Some(label) = label_in(alloc, property(properties, LABEL))? else {
        return Ok(None);
    };
    match given_attributes_in(alloc, property(properties, ATTRIBUTES))? {
        Some(attributes) => Ok(Some((label, attributes))),
        None => Ok(None),
    }
}

// The label and the attributes in a dict of properties.
fn description_in(alloc: Global, value: &Value) -> Result<Option<(Text, Attributes)>, OutOfMemory>
    ensures { IfOk result (λ described. described ≡ description_in (value_of value.now)) }
{
    match elements_in(value, ElementType::Property) {
        Some(properties) => described_by(alloc, properties),
        None => Ok(None),
    }
}

// CreateItem in the collection, with these three arguments.
fn made_with(
    alloc: Global,
    collection: ObjectName,
    properties: &Value,
    secret: &Value,
    replace: &Value,
) -> Result<Option<Call>, OutOfMemory>
    ensures { IfOk result (λ call. call ≡ made_with collection
        (value_of properties.now, value_of secret.now, value_of replace.now)) }
{
    let Some((label, attributes)) = description_in(alloc, properties)? else {
        return Ok(None);
    };
    let Some(secret) = secret_in(alloc, secret)? else {
        return Ok(None);
    };
    match truth_in(replace) {
        Some(replace) => Ok(Some(Call::CreateItem {
            collection,
            label,
            attributes,
            secret,
            replace,
        })),
        None => Ok(None),
    }
}

/// Reads a call of CreateItem. A missing property is empty, and properties other than the label and the
/// attributes are ignored.
pub fn create_item(
    alloc: Global,
    object: &Option<ObjectName>,
    values: &[Value],
) -> Result<Result<Call, CallFault>, OutOfMemory>
    ensures { IfOk result (λ call. call ≡ create_item object.now (values_of values.now)) }
{
    let Some(collection) = collection_of(object)? else {
        return Ok(Err(CallFault::InvalidArgs));
    };
    let Some((properties, secret, replace)) = three_in(values) else {
        return Ok(Err(CallFault::InvalidArgs));
    };
    match made_with(alloc, collection, properties, secret, replace)? {
        Some(call) => Ok(Ok(call)),
        None => Ok(Err(CallFault::InvalidArgs)),
    }
}

fn deleted(object: &Option<ObjectName>) -> Result<Result<Call, CallFault>, OutOfMemory>
    ensures { IfOk result (λ call. call ≡ deleted object.now) }
{
    match collection_of(object)? {
        Some(collection) => Ok(Ok(Call::DeleteCollection { collection })),
        None => Ok(Err(CallFault::InvalidArgs)),
    }
}

/// Reads a call of Delete, which takes no arguments.
pub fn delete(
    object: &Option<ObjectName>,
    values: &[Value],
) -> Result<Result<Call, CallFault>, OutOfMemory>
    ensures { IfOk result (λ call. call ≡ delete object.now (values_of values.now)) }
{
    Ok(without_arguments(deleted(object)?, values))
}
