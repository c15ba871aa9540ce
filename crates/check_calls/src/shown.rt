// Properties and their values, from words and in words.

use crate::bodies::{paths_of, text_of};
use check_rows::Line;
use kr_items::Items;
use secret_calls::{Attribute, Property, PropertyValue, ShownProperty};
use std::alloc::Global;

const PROPERTIES: [Property; 7] = [
    Property::Collections,
    Property::Items,
    Property::Label,
    Property::Attributes,
    Property::Locked,
    Property::Created,
    Property::Modified,
];

fn property_named(name: &str) -> Option<Property> {
    for property in PROPERTIES {
        if property.as_str() == name {
            return Some(property);
        }
    }
    None
}

fn put_attribute(alloc: Global, made: &mut Vec<Attribute>, word: &str) -> Option<()> {
    let (name, value) = word.split_once('=')?;
    let name = text_of(alloc, name)?;
    let value = text_of(alloc, value)?;
    made.push(Attribute { name, value }).ok()
}

fn attributes(alloc: Global, words: &str) -> Option<PropertyValue> {
    let mut made = Vec::new(alloc);
    for word in words.split_whitespace() {
        put_attribute(alloc, &mut made, word)?;
    }
    Some(PropertyValue::Attributes(Items::new(made)))
}

fn objects(alloc: Global, words: &str) -> Option<PropertyValue> {
    Some(PropertyValue::Objects(paths_of(alloc, words)?))
}

fn text(alloc: Global, words: &str) -> Option<PropertyValue> {
    Some(PropertyValue::Text(text_of(alloc, words)?))
}

fn moment(words: &str) -> Option<PropertyValue> {
    Some(PropertyValue::Moment(words.parse::<u64>().ok()?))
}

/// The value of a property, after the word that says of what type it is.
pub fn value_of(alloc: Global, words: &str) -> Option<PropertyValue> {
    let (kind, words) = words.split_once(' ').unwrap_or((words, ""));
    match kind {
        "objects" => objects(alloc, words),
        "text" => text(alloc, words),
        "attributes" => attributes(alloc, words),
        "truth" => Some(PropertyValue::Truth(words == "true")),
        "moment" => moment(words),
        _ => None,
    }
}

// The name of a property, and its value.
fn put_shown(alloc: Global, made: &mut Vec<ShownProperty>, words: &str) -> Option<()> {
    let (name, words) = words.split_once(' ')?;
    let property = property_named(name)?;
    let value = value_of(alloc, words)?;
    made.push(ShownProperty { property, value }).ok()
}

/// Properties and their values, with commas between them.
pub fn properties_of(alloc: Global, words: &str) -> Option<Items<ShownProperty>> {
    let mut made = Vec::new(alloc);
    if words.is_empty() {
        return Some(Items::new(made));
    }
    for words in words.split(',') {
        put_shown(alloc, &mut made, words)?;
    }
    Some(Items::new(made))
}

fn put_name(made: &mut Vec<Property>, word: &str) -> Option<()> {
    made.push(property_named(word)?).ok()
}

/// The properties with these names.
pub fn names_of(alloc: Global, words: &str) -> Option<Items<Property>> {
    let mut made = Vec::new(alloc);
    for word in words.split_whitespace() {
        put_name(&mut made, word)?;
    }
    Some(Items::new(made))
}

/// Writes the names of properties.
pub fn write_properties(line: &mut Line, properties: &[Property]) {
    let mut between = " [";
    for property in properties {
        line.add(between);
        line.add(property.as_str());
        between = ", ";
    }
    line.add(if properties.is_empty() { " []" } else { "]" });
}
