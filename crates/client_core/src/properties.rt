// Reading the properties that calls return (D-Bus Specification, "Standard Interfaces",
// "org.freedesktop.DBus.Properties").
ghost use Rattle.std.specs.Prelude.{◌≡◌, IfOk, option_and_then, option_map};
ghost use Rattle.std.specs.List.{find};
ghost use Rattle.dbus_types.specs.ValueViews.{value_of, value_as, each_as};
ghost use Rattle.call_arguments.specs.Arguments.{type_of_element, all_in};
ghost use Rattle.client_core.specs.Replies.{all_properties, is_called, property_named, attribute_in, attributes_in, shown_in, shown_held, property_at, properties_in};

use crate::OutOfMemory;
use crate::bodies::paths_in;
use call_arguments::{
    ElementType, elements_in, entry_in, held_in, long_in, string_in, text_pair_in, truth_in,
};
use dbus_types::Value;
use kr_base::Text;
use kr_items::Items;
use secret_calls::{Attribute, Property, PropertyValue, ShownProperty};
use std::alloc::Global;

const PROPERTIES: &[Property] = &[
    Property::Collections,
    Property::Items,
    Property::Label,
    Property::Attributes,
    Property::Locked,
    Property::Created,
    Property::Modified,
];

fn is_called(name: &Text, property: Property) -> bool
    ensures { result ≡ is_called name.now property }
{
    name.as_str() == property.as_str()
}

fn first_called(properties: &[Property], name: &Text) -> Option<Property>
    ensures { result ≡ find (is_called name.now) properties.now }
{
    for property in properties {
        if is_called(name, *property) {
            return Some(*property);
        }
    }
    None
}

/// The property of this name.
pub fn property_named(name: &Text) -> Option<Property>
    ensures { result ≡ property_named name.now }
{
    first_called(PROPERTIES, name)
}

// An attribute, as an entry of a dict of texts.
fn attribute_in(value: &Value) -> Result<Option<Attribute>, OutOfMemory>
    ensures { IfOk result (λ attribute. attribute
        ≡ attribute_in (value_as (type_of_element (ElementType.TextPair)) value.now)) }
{
    match text_pair_in(value) {
        Some((name, value)) => {
            let name = name.copy()?;
            let value = value.copy()?;
            Ok(Some(Attribute { name, value }))
        }
        None => Ok(None),
    }
}

// The attributes among the entries of a dict of texts.
fn attributes_among(
    alloc: Global,
    entries: &[Value],
) -> Result<Option<Items<Attribute>>, OutOfMemory>
    ensures { IfOk result (λ attributes. attributes
        ≡ all_in attribute_in (each_as (type_of_element (ElementType.TextPair)) entries.now)) }
{
    let mut attributes = Vec::with_capacity(alloc, entries.len())?;
    for entry in entries {
        match attribute_in(entry)? {
            Some(attribute) => attributes.push(attribute)?,
            None => return Ok(None),
        }
    }
    Ok(Some(Items::new(attributes)))
}

// The attributes in a value of type `a{ss}`.
fn attributes_in(alloc: Global, value: &Value) -> Result<Option<Items<Attribute>>, OutOfMemory>
    ensures { IfOk result (λ attributes. attributes ≡ attributes_in (value_of value.now)) }
{
    match elements_in(value, ElementType::TextPair) {
        Some(entries) => attributes_among(alloc, entries),
        None => Ok(None),
    }
}

// The value of a property, by its type.
fn shown_in(alloc: Global, value: &Value) -> Result<Option<PropertyValue>, OutOfMemory>
    ensures { IfOk result (λ shown. shown ≡ shown_in (value_of value.now)) }
{
    if let Some(text) = string_in(value) {
        let text = text.copy()?;
        return Ok(Some(PropertyValue::Text(text)));
    }
    if let Some(truth) = truth_in(value) {
        return Ok(Some(PropertyValue::Truth(truth)));
    }
    if let Some(seconds) = long_in(value) {
        return Ok(Some(PropertyValue::Moment(seconds)));
    }
    if let Some(objects) = paths_in(alloc, value)? {
        return Ok(Some(PropertyValue::Objects(objects)));
    }
    match attributes_in(alloc, value)? {
        Some(attributes) => Ok(Some(PropertyValue::Attributes(attributes))),
        None => Ok(None),
    }
}

/// The value of a property in a variant.
pub fn shown_held(alloc: Global, value: &Value) -> Result<Option<PropertyValue>, OutOfMemory>
    ensures { IfOk result (λ shown. shown ≡ shown_held (value_of value.now)) }
{
    match held_in(value) {
        Some(value) => shown_in(alloc, value),
        None => Ok(None),
    }
}

// The property and its value in an entry of a dict.
fn property_at(alloc: Global, value: &Value) -> Result<Option<ShownProperty>, OutOfMemory>
    ensures { IfOk result (λ property. property
        ≡ property_at (value_as (type_of_element (ElementType.Property)) value.now)) }
{
    let Some((key, held)) = entry_in(value) else {
        return Ok(None);
    };
    let Some(name) = string_in(key) else {
        return Ok(None);
    };
    let Some(property) = property_named(name) else {
        return Ok(None);
    };
    match shown_held(alloc, held)? {
        Some(value) => Ok(Some(ShownProperty { property, value })),
        None => Ok(None),
    }
}

// The properties and their values among the entries of a dict.
fn properties_among(
    alloc: Global,
    entries: &[Value],
) -> Result<Option<Items<ShownProperty>>, OutOfMemory>
    ensures { IfOk result (λ properties. properties
        ≡ all_in property_at (each_as (type_of_element (ElementType.Property)) entries.now)) }
{
    let mut properties = Vec::with_capacity(alloc, entries.len())?;
    for entry in entries {
        match property_at(alloc, entry)? {
            Some(property) => properties.push(property)?,
            None => return Ok(None),
        }
    }
    Ok(Some(Items::new(properties)))
}

/// The properties and their values in a value of type `a{sv}`.
pub fn properties_in(
    alloc: Global,
    value: &Value,
) -> Result<Option<Items<ShownProperty>>, OutOfMemory>
    ensures { IfOk result (λ properties. properties ≡ properties_in (value_of value.now)) }
{
    match elements_in(value, ElementType::Property) {
        Some(entries) => properties_among(alloc, entries),
        None => Ok(None),
    }
}
