// The interface by which properties are read and set (D-Bus Specification, "Standard Interfaces",
// "org.freedesktop.DBus.Properties"), and the properties of each interface, as one table (docs/SERVICE.md, "Properties").
ghost use Rattle.std.specs.Prelude.{◌≡◌, IfOk, map, ok_or, option_map};
ghost use Rattle.std.specs.List.{find};
ghost use Rattle.dbus_types.specs.ValueViews.{value_of, values_of};
ghost use Rattle.call_wire.specs.Properties.{properties, is_row_of, interface_called, property_of, property_called, names_in, got, get, all_got, get_all, call_by, set_by, set_to, set_with, set};

use crate::OutOfMemory;
use crate::collection::collection_of;
use crate::interfaces::{Interface, interface_named};
use crate::item::item_of;
use call_arguments::{attributes_in, held_in, one_string_in, string_in, three_in, two_in};
use dbus_types::Value;
use kr_base::Text;
use kr_items::Items;
use kr_names::ObjectName;
use secret_calls::{Call, CallFault, Property};
use std::alloc::Global;

/// The name of the interface.
pub const INTERFACE: &str = "org.freedesktop.DBus.Properties";

/// What reads the value that a property is set to.
#[derive(Clone, Copy)]
pub enum Setter {
    /// That of the label of a collection, `s`.
    CollectionLabel,
    /// That of the label of an item, `s`.
    ItemLabel,
    /// That of the attributes of an item, `a{ss}`.
    ItemAttributes,
}

/// A row of the table of properties.
#[derive(Clone, Copy)]
pub struct PropertyRow {
    /// The property.
    pub property: Property,
    /// What reads the value that it is set to, or None if it can't be set.
    pub setter: Option<Setter>,
}

// The properties of the service, in the order in which GetAll returns them.
const OF_THE_SERVICE: &[PropertyRow] = &[PropertyRow {
    property: Property::Collections,
    setter: None,
}];

// The properties of a collection, in the order in which GetAll returns them.
const OF_A_COLLECTION: &[PropertyRow] = &[
    PropertyRow {
        property: Property::Items,
        setter: None,
    },
    PropertyRow {
        property: Property::Label,
        setter: Some(Setter::CollectionLabel),
    },
    PropertyRow {
        property: Property::Locked,
        setter: None,
    },
    PropertyRow {
        property: Property::Created,
        setter: None,
    },
    PropertyRow {
        property: Property::Modified,
        setter: None,
    },
];

// The properties of an item, in the order in which GetAll returns them.
const OF_AN_ITEM: &[PropertyRow] = &[
    PropertyRow {
        property: Property::Label,
        setter: Some(Setter::ItemLabel),
    },
    PropertyRow {
        property: Property::Attributes,
        setter: Some(Setter::ItemAttributes),
    },
    PropertyRow {
        property: Property::Locked,
        setter: None,
    },
    PropertyRow {
        property: Property::Created,
        setter: None,
    },
    PropertyRow {
        property: Property::Modified,
        setter: None,
    },
];

// The rows of an interface. Interfaces that aren't named here have no properties.
fn properties(interface: Interface) -> &'static [PropertyRow]
    ensures { result.now ≡ properties interface }
{
    match interface {
        Interface::Service => OF_THE_SERVICE,
        Interface::Collection => OF_A_COLLECTION,
        Interface::Item => OF_AN_ITEM,
        Interface::Session => &[],
        Interface::Prompt => &[],
        Interface::Keyring => &[],
        Interface::Agent => &[],
        Interface::Properties => &[],
        Interface::Peer => &[],
    }
}

fn is_row_of(name: &Text, row: &PropertyRow) -> bool
    ensures { result ≡ is_row_of name.now row.now }
{
    name.as_str() == row.property.as_str()
}

fn first_of(rows: &[PropertyRow], name: &Text) -> Option<PropertyRow>
    ensures { result ≡ find (is_row_of name.now) rows.now }
{
    for row in rows {
        if is_row_of(name, row) {
            return Some(*row);
        }
    }
    None
}

// The property of this name, if the interface has it.
fn property_of(interface: Interface, name: &Text) -> Result<PropertyRow, CallFault>
    ensures { result ≡ property_of name.now interface }
{
    match first_of(properties(interface), name) {
        Some(row) => Ok(row),
        None => Err(CallFault::UnknownProperty),
    }
}

// The interface of this name, if the object has it.
fn interface_called(object: &Option<ObjectName>, name: &Text) -> Result<Interface, CallFault>
    ensures { result ≡ interface_called object.now name.now }
{
    match interface_named(object, name) {
        Some(interface) => Ok(interface),
        None => Err(CallFault::UnknownInterface),
    }
}

// The property that is called by the names of its interface and of itself.
fn property_called(
    object: &Option<ObjectName>,
    interface: &Text,
    name: &Text,
) -> Result<PropertyRow, CallFault>
    ensures { result ≡ property_called object.now (interface.now, name.now) }
{
    match interface_called(object, interface) {
        Ok(interface) => property_of(interface, name),
        Err(fault) => Err(fault),
    }
}

// The two names in these values.
fn names_in<'a>(interface: &'a Value, name: &'a Value) -> Option<(&'a Text, &'a Text)>
    ensures { ok_or (option_map (λ two. (two.0.now, two.1.now)) result) CallFault.InvalidArgs
        ≡ names_in (value_of interface.now, value_of name.now) }
{
    let interface = string_in(interface)?;
    let name = string_in(name)?;
    Some((interface, name))
}

fn got(
    object: &Option<ObjectName>,
    interface: &Text,
    name: &Text,
) -> Result<Result<Call, CallFault>, OutOfMemory>
    ensures { IfOk result (λ call. call ≡ got object.now (interface.now, name.now)) }
{
    let Some(on) = object else {
        return Ok(Err(CallFault::UnknownObject));
    };
    match property_called(object, interface, name) {
        Ok(row) => Ok(Ok(Call::Get {
            object: on.copy()?,
            property: row.property,
        })),
        Err(fault) => Ok(Err(fault)),
    }
}

/// Reads a call of Get.
pub fn get(
    object: &Option<ObjectName>,
    values: &[Value],
) -> Result<Result<Call, CallFault>, OutOfMemory>
    ensures { IfOk result (λ call. call ≡ get object.now (values_of values.now)) }
{
    let Some((interface, name)) = two_in(values) else {
        return Ok(Err(CallFault::InvalidArgs));
    };
    match names_in(interface, name) {
        Some((interface, name)) => got(object, interface, name),
        None => Ok(Err(CallFault::InvalidArgs)),
    }
}

// The properties of the rows.
fn listed(alloc: Global, rows: &[PropertyRow]) -> Result<Items<Property>, OutOfMemory>
    ensures { IfOk result (λ listed. listed ≡ map (λ row. row.property) rows.now) }
{
    let mut listed = Vec::with_capacity(alloc, rows.len())?;
    for row in rows {
        listed.push(row.property)?;
    }
    Ok(Items::new(listed))
}

fn all_got(
    alloc: Global,
    object: &Option<ObjectName>,
    interface: &Text,
) -> Result<Result<Call, CallFault>, OutOfMemory>
    ensures { IfOk result (λ call. call ≡ all_got object.now interface.now) }
{
    let Some(on) = object else {
        return Ok(Err(CallFault::UnknownObject));
    };
    match interface_called(object, interface) {
        Ok(interface) => {
            let properties = listed(alloc, properties(interface))?;
            Ok(Ok(Call::GetAll {
                object: on.copy()?,
                properties,
            }))
        }
        Err(fault) => Ok(Err(fault)),
    }
}

/// Reads a call of GetAll.
pub fn get_all(
    alloc: Global,
    object: &Option<ObjectName>,
    values: &[Value],
) -> Result<Result<Call, CallFault>, OutOfMemory>
    ensures { IfOk result (λ call. call ≡ get_all object.now (values_of values.now)) }
{
    match one_string_in(values) {
        Some(interface) => all_got(alloc, object, interface),
        None => Ok(Err(CallFault::InvalidArgs)),
    }
}

// The call that sets the label of the collection.
fn collection_label(object: &Option<ObjectName>, value: &Value) -> Result<Option<Call>, OutOfMemory>
    ensures { IfOk result (λ call. call
        ≡ call_by (Setter.CollectionLabel) object.now (value_of value.now)) }
{
    let Some(collection) = collection_of(object)? else {
        return Ok(None);
    };
    match string_in(value) {
        Some(label) => Ok(Some(Call::SetCollectionLabel {
            collection,
            label: label.copy()?,
        })),
        None => Ok(None),
    }
}

// The call that sets the label of the item.
fn item_label(object: &Option<ObjectName>, value: &Value) -> Result<Option<Call>, OutOfMemory>
    ensures { IfOk result (λ call. call
        ≡ call_by (Setter.ItemLabel) object.now (value_of value.now)) }
{
    let Some((stem, item)) = item_of(object)? else {
        return Ok(None);
    };
    match string_in(value) {
        Some(label) => Ok(Some(Call::SetItemLabel {
            stem,
            item,
            label: label.copy()?,
        })),
        None => Ok(None),
    }
}

// The call that sets the attributes of the item.
fn item_attributes(
    alloc: Global,
    object: &Option<ObjectName>,
    value: &Value,
) -> Result<Option<Call>, OutOfMemory>
    ensures { IfOk result (λ call. call
        ≡ call_by (Setter.ItemAttributes) object.now (value_of value.now)) }
{
    let Some((stem, item)) = item_of(object)? else {
        return Ok(None);
    };
    match attributes_in(alloc, value)? {
        Some(attributes) => Ok(Some(Call::SetAttributes {
            stem,
            item,
            attributes,
        })),
        None => Ok(None),
    }
}

// The call that sets a property of the object to this value, if it is of the property's type.
fn call_by(
    alloc: Global,
    setter: Setter,
    object: &Option<ObjectName>,
    value: &Value,
) -> Result<Option<Call>, OutOfMemory>
    ensures { IfOk result (λ call. call ≡ call_by setter object.now (value_of value.now)) }
{
    match setter {
        Setter::CollectionLabel => collection_label(object, value),
        Setter::ItemLabel => item_label(object, value),
        Setter::ItemAttributes => item_attributes(alloc, object, value),
    }
}

// The same, or that the property can't be set.
fn set_by(
    alloc: Global,
    setter: Option<Setter>,
    object: &Option<ObjectName>,
    value: &Value,
) -> Result<Result<Call, CallFault>, OutOfMemory>
    ensures { IfOk result (λ call. call ≡ set_by setter object.now (value_of value.now)) }
{
    let Some(setter) = setter else {
        return Ok(Err(CallFault::PropertyReadOnly));
    };
    match call_by(alloc, setter, object, value)? {
        Some(call) => Ok(Ok(call)),
        None => Ok(Err(CallFault::InvalidArgs)),
    }
}

// Set of the property with these names to this value.
fn set_to(
    alloc: Global,
    object: &Option<ObjectName>,
    interface: &Text,
    name: &Text,
    value: &Value,
) -> Result<Result<Call, CallFault>, OutOfMemory>
    ensures { IfOk result (λ call. call
        ≡ set_to object.now (value_of value.now) (interface.now, name.now)) }
{
    match property_called(object, interface, name) {
        Ok(row) => set_by(alloc, row.setter, object, value),
        Err(fault) => Ok(Err(fault)),
    }
}

// Set with these three arguments.
fn set_with(
    alloc: Global,
    object: &Option<ObjectName>,
    interface: &Value,
    name: &Value,
    value: &Value,
) -> Result<Result<Call, CallFault>, OutOfMemory>
    ensures { IfOk result (λ call. call ≡ set_with object.now
        (value_of interface.now, value_of name.now, value_of value.now)) }
{
    let Some(value) = held_in(value) else {
        return Ok(Err(CallFault::InvalidArgs));
    };
    match names_in(interface, name) {
        Some((interface, name)) => set_to(alloc, object, interface, name, value),
        None => Ok(Err(CallFault::InvalidArgs)),
    }
}

/// Reads a call of Set. The property's faults come before that of the value.
pub fn set(
    alloc: Global,
    object: &Option<ObjectName>,
    values: &[Value],
) -> Result<Result<Call, CallFault>, OutOfMemory>
    ensures { IfOk result (λ call. call ≡ set object.now (values_of values.now)) }
{
    match three_in(values) {
        Some((interface, name, value)) => set_with(alloc, object, interface, name, value),
        None => Ok(Err(CallFault::InvalidArgs)),
    }
}
