// Calls that get and set properties, from words.

use crate::secrets::{attribute, item, label, object};
use kr_items::Items;
use kr_names::ObjectName;
use secret_calls::{Call, Property};
use std::alloc::Global;

const PROPERTIES: [Property; 7] = [
    Property::Collections,
    Property::Items,
    Property::Label,
    Property::Attributes,
    Property::Locked,
    Property::Created,
    Property::Modified,
];

fn property_named(name: &str) -> Option<Property> {
    for property in PROPERTIES {
        if property.as_str() == name {
            return Some(property);
        }
    }
    None
}

// The service for `service`, and else the object with this path.
fn owner(alloc: Global, word: &str) -> Option<ObjectName> {
    if word == "service" {
        return Some(ObjectName::Service);
    }
    object(alloc, word)
}

/// Get: `service` or the path of an object, and the name of a property.
pub fn getting_one(alloc: Global, words: &str) -> Option<Call> {
    let (path, name) = words.split_once(' ')?;
    let object = owner(alloc, path)?;
    let property = property_named(name)?;
    Some(Call::Get { object, property })
}

fn put_property(properties: &mut Vec<Property>, name: &str) -> Option<()> {
    properties.push(property_named(name)?).ok()
}

fn properties_named(alloc: Global, names: &str) -> Option<Items<Property>> {
    let mut properties = Vec::new(alloc);
    for name in names.split_whitespace() {
        put_property(&mut properties, name)?;
    }
    Some(Items::new(properties))
}

/// GetAll: `service` or the path of an object, and the names of the properties of the interface.
pub fn showing(alloc: Global, words: &str) -> Option<Call> {
    let (path, names) = words.split_once(' ').unwrap_or((words, ""));
    let object = owner(alloc, path)?;
    let properties = properties_named(alloc, names)?;
    Some(Call::GetAll { object, properties })
}

/// Set of a label: the path of an item, or of any other object as a collection, and the label.
pub fn labelling(alloc: Global, words: &str) -> Option<Call> {
    let (path, words) = words.split_once(';')?;
    let label = label(alloc, words)?;
    match object(alloc, path)? {
        ObjectName::Item(stem, item) => Some(Call::SetItemLabel { stem, item, label }),
        collection => Some(Call::SetCollectionLabel { collection, label }),
    }
}

/// Set of attributes: the path of an item, and an attribute.
pub fn attributing(alloc: Global, words: &str) -> Option<Call> {
    let (path, pair) = words.split_once(';')?;
    let (stem, item) = item(alloc, path)?;
    let attributes = attribute(alloc, pair)?;
    Some(Call::SetAttributes {
        stem,
        item,
        attributes,
    })
}
