// The properties of the service's objects (D-Bus Specification, "Standard Interfaces",
// "org.freedesktop.DBus.Properties"; Secret Service API, the interfaces' properties).
ghost use Rattle.std.specs.Prelude.{◌≡◌, ℕ, List, IfOk, OnOk};
ghost use Rattle.dbus_types.specs.declared.complete_type.BasicType.TheVariants as basics;
ghost use Rattle.dbus_types.specs.ValueViews.{bit_of};
ghost use Rattle.dbus_types.specs.Values.{Val, Vals};
ghost use Rattle.dbus_marshal.specs.Putting.{put, puts};
ghost use Rattle.secret_calls.specs.declared.out.Body.TheVariants as bodies;
ghost use Rattle.secret_calls.specs.Outs.{attribute_value, attributes_value, property_value, shown_value, values_of};

use crate::copies::{copied_attributes, copied_texts};
use crate::returns::{put_paths, put_truth};
use dbus_marshal::{Put, PutValues, pad_to, put_array, put_signature, put_text, put_u64};
use kr_base::{OutOfMemory, Text};
use kr_items::Items;
use std::alloc::Global;

/// A property. Several kinds of objects may have one of the same name.
#[derive(Clone, Copy, Debug, PartialEq, Eq)]
pub enum Property {
    /// The collections of the service.
    Collections,
    /// The items of a collection.
    Items,
    /// The label of a collection or an item.
    Label,
    /// The attributes of an item.
    Attributes,
    /// Whether a collection or an item is locked.
    Locked,
    /// When a collection or an item was created.
    Created,
    /// When a collection or an item was last changed.
    Modified,
}

impl Property {
    ghost use Rattle.secret_calls.specs.Outs.{property_text};

    /// The name of the property.
    pub fn as_str(self) -> &'static str
        ensures { result.now ≡ property_text self }
    {
        match self {
            Property::Collections => "Collections",
            Property::Items => "Items",
            Property::Label => "Label",
            Property::Attributes => "Attributes",
            Property::Locked => "Locked",
            Property::Created => "Created",
            Property::Modified => "Modified",
        }
    }
}

/// An attribute as it is shown: a number, which only a file can contain, is shown as a text.
#[derive(PartialEq, Eq, Drop)]
pub struct Attribute {
    /// Its name.
    pub name: Text,
    /// Its value.
    pub value: Text,
}

impl Attribute {
    /// A copy of the attribute.
    pub fn copy(&self) -> Result<Attribute, OutOfMemory>
        ensures { IfOk result (λ copied. copied ≡ self.now) }
    {
        let name = self.name.copy()?;
        let value = self.value.copy()?;
        Ok(Attribute { name, value })
    }
}

/// The value of a property, with one variant for each type.
#[derive(PartialEq, Eq, Drop)]
pub enum PropertyValue {
    /// Of Collections and Items, `ao`: the paths of the objects.
    Objects(Items<Text>),
    /// Of Label, `s`.
    Text(Text),
    /// Of Attributes, `a{ss}`.
    Attributes(Items<Attribute>),
    /// Of Locked, `b`.
    Truth(bool),
    /// Of Created and Modified, `t`: the seconds since 1970.
    Moment(u64),
}

impl PropertyValue {
    /// A copy of the value.
    pub fn copy(&self, alloc: Global) -> Result<PropertyValue, OutOfMemory>
        ensures { IfOk result (λ copied. copied ≡ self.now) }
    {
        match self {
            PropertyValue::Objects(objects) => {
                let objects = copied_texts(alloc, objects.as_slice())?;
                Ok(PropertyValue::Objects(objects))
            }
            PropertyValue::Text(text) => {
                let text = text.copy()?;
                Ok(PropertyValue::Text(text))
            }
            PropertyValue::Attributes(attributes) => {
                let attributes = copied_attributes(alloc, attributes.as_slice())?;
                Ok(PropertyValue::Attributes(attributes))
            }
            PropertyValue::Truth(truth) => Ok(PropertyValue::Truth(*truth)),
            PropertyValue::Moment(seconds) => Ok(PropertyValue::Moment(*seconds)),
        }
    }
}

/// A property with its value.
#[derive(PartialEq, Eq, Drop)]
pub struct ShownProperty {
    /// The property.
    pub property: Property,
    /// Its value.
    pub value: PropertyValue,
}

impl ShownProperty {
    /// A copy of the property and its value.
    pub fn copy(&self, alloc: Global) -> Result<ShownProperty, OutOfMemory>
        ensures { IfOk result (λ copied. copied ≡ self.now) }
    {
        let value = self.value.copy(alloc)?;
        Ok(ShownProperty {
            property: self.property,
            value,
        })
    }
}

// Writes an attribute, as an entry of a dict.
#[tactic(auto, using(dbus_marshal::proofs::PutLemmas::entry_put))]
fn put_attribute<P: Put>(out: &mut P, attribute: &Attribute) -> Result<(), P::Refused>
    ensures { (before : List ℕ) → P.stands out.old before
        → OnOk result (P.stands out.new (put before (attribute_value attribute.now))) }
{
    pad_to(out, 8)?;
    put_text(out, attribute.name.as_bytes())?;
    put_text(out, attribute.value.as_bytes())
}

// Attributes, as the elements of a dict.
#[derive(Clone, Copy)]
struct Attributes<'a> {
    attributes: &'a [Attribute],
}

impl PutValues for Attributes<'_> {
    ghost use Rattle.secret_calls.specs.Outs.{attribute_values};

    ghost values = { λ it. attribute_values it.attributes.now };

    fn put_to<P: Put>(&self, out: &mut P) -> Result<(), P::Refused> {
        for attribute in self.attributes {
            put_attribute(out, attribute)?;
        }
        Ok(())
    }
}

// Writes a dict of attributes.
fn put_attributes<P: Put>(out: &mut P, attributes: &[Attribute]) -> Result<(), P::Refused>
    ensures { (before : List ℕ) → P.stands out.old before
        → OnOk result (P.stands out.new (put before (attributes_value attributes.now))) }
{
    put_array(out, 8, &Attributes { attributes })
}

// Writes the value of a property, as a variant.
#[tactic(auto, using(dbus_marshal::proofs::PutLemmas::variant_put))]
fn put_value<P: Put>(out: &mut P, value: &PropertyValue) -> Result<(), P::Refused>
    ensures { (before : List ℕ) → P.stands out.old before → OnOk result
        (P.stands out.new (put before (Val.variant (property_value value.now)))) }
{
    match value {
        PropertyValue::Objects(objects) => {
            put_signature(out, b"ao")?;
            put_paths(out, objects.as_slice())
        }
        PropertyValue::Text(text) => {
            put_signature(out, b"s")?;
            put_text(out, text.as_bytes())
        }
        PropertyValue::Attributes(attributes) => {
            put_signature(out, b"a{ss}")?;
            put_attributes(out, attributes.as_slice())
        }
        PropertyValue::Truth(truth) => {
            put_signature(out, b"b")?;
            put_truth(out, *truth)
        }
        PropertyValue::Moment(seconds) => {
            put_signature(out, b"t")?;
            put_u64(out, *seconds)
        }
    }
}

/// Writes the value that Get returns.
pub fn put_property<P: Put>(out: &mut P, value: &PropertyValue) -> Result<(), P::Refused>
    ensures { (before : List ℕ) → P.stands out.old before
        → OnOk result (P.stands out.new (puts before (values_of (bodies.Property value.now)))) }
{
    put_value(out, value)
}

// Writes a property and its value, as an entry of a dict.
#[tactic(auto, using(dbus_marshal::proofs::PutLemmas::entry_put))]
fn put_shown<P: Put>(out: &mut P, shown: &ShownProperty) -> Result<(), P::Refused>
    ensures { (before : List ℕ) → P.stands out.old before
        → OnOk result (P.stands out.new (put before (shown_value shown.now))) }
{
    pad_to(out, 8)?;
    put_text(out, shown.property.as_str().as_bytes())?;
    put_value(out, &shown.value)
}

// Properties with their values, as the elements of a dict.
#[derive(Clone, Copy)]
struct Properties<'a> {
    properties: &'a [ShownProperty],
}

impl PutValues for Properties<'_> {
    ghost use Rattle.secret_calls.specs.Outs.{shown_values};

    ghost values = { λ it. shown_values it.properties.now };

    fn put_to<P: Put>(&self, out: &mut P) -> Result<(), P::Refused> {
        for property in self.properties {
            put_shown(out, property)?;
        }
        Ok(())
    }
}

/// Writes the value that GetAll returns.
pub fn put_properties<P: Put>(out: &mut P, properties: &[ShownProperty]) -> Result<(), P::Refused>
    ensures { (before : List ℕ) → P.stands out.old before → OnOk result
        (P.stands out.new (puts before (values_of (bodies.Properties properties.now)))) }
{
    put_array(out, 8, &Properties { properties })
}
