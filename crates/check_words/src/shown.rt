// The values of properties in words.

use crate::outputs::write_paths;
use crate::signals::write_label;
use check_rows::Line;
use secret_calls::{Attribute, PropertyValue, ShownProperty};

fn write_attributes(line: &mut Line, attributes: &[Attribute]) {
    line.add("attributes");
    for attribute in attributes {
        line.add(" ");
        line.add(attribute.name.as_str());
        line.add("=");
        write_label(line, &attribute.value);
    }
}

/// Writes the value of a property. Of a hundred attributes or more it writes their number.
pub fn write_shown(line: &mut Line, value: &PropertyValue) {
    match value {
        PropertyValue::Objects(objects) => write_paths(line, "objects", objects.as_slice()),
        PropertyValue::Text(text) => {
            line.add("text ");
            write_label(line, text);
        }
        PropertyValue::Attributes(attributes) => {
            if attributes.len() < 100 {
                write_attributes(line, attributes.as_slice());
            } else {
                line.number(attributes.len() as u64);
                line.add(" attributes");
            }
        }
        PropertyValue::Truth(truth) => line.add(if *truth { "true" } else { "false" }),
        PropertyValue::Moment(seconds) => line.number(*seconds),
    }
}

/// Writes properties and their values.
pub fn write_all_shown(line: &mut Line, properties: &[ShownProperty]) {
    line.add("properties");
    let mut between = " ";
    for shown in properties {
        line.add(between);
        line.add(shown.property.as_str());
        line.add(" ");
        write_shown(line, &shown.value);
        between = ", ";
    }
}
