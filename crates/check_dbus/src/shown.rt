// Types and values in words.

use check_rows::Line;
use dbus_types::{
    BasicType, CompleteType, DictEntry, Value, element_of, fields_in, held_of, lone_in,
};

fn code(basic: BasicType) -> &'static str {
    match basic {
        BasicType::Byte => "y",
        BasicType::Boolean => "b",
        BasicType::Int16 => "n",
        BasicType::Uint16 => "q",
        BasicType::Int32 => "i",
        BasicType::Uint32 => "u",
        BasicType::Int64 => "x",
        BasicType::Uint64 => "t",
        BasicType::Double => "d",
        BasicType::UnixFd => "h",
        BasicType::String => "s",
        BasicType::ObjectPath => "o",
        BasicType::Signature => "g",
    }
}

/// Writes the letters of a type.
#[cycle(written)]
pub fn write_type(complete_type: &CompleteType, line: &mut Line) {
    match complete_type {
        CompleteType::Basic(basic) => line.add(code(*basic)),
        CompleteType::Variant => line.add("v"),
        CompleteType::Array(element) => {
            line.add("a");
            write_type(element, line);
        }
        CompleteType::Struct(fields) => {
            line.add("(");
            for each in fields {
                write_type(each, line);
            }
            line.add(")");
        }
        CompleteType::DictEntry(key, value) => {
            line.add("{");
            line.add(code(*key));
            write_type(value, line);
            line.add("}");
        }
    }
}

// Writes a name, with a number in brackets.
fn put(name: &str, number: u64, line: &mut Line) {
    line.add(name);
    line.add("(");
    line.number(number);
    line.add(")");
}

fn put_signed(name: &str, number: i64, line: &mut Line) {
    line.add(name);
    line.add(if number < 0 { "(-" } else { "(" });
    line.number(number.unsigned_abs());
    line.add(")");
}

fn write_number(value: &Value, line: &mut Line) {
    match value {
        Value::Byte(it) => put("Byte", u64::from(*it), line),
        Value::Boolean(it) => line.add(if *it {
            "Boolean(true)"
        } else {
            "Boolean(false)"
        }),
        Value::Int16(it) => put_signed("Int16", i64::from(*it), line),
        Value::Uint16(it) => put("Uint16", u64::from(*it), line),
        Value::Int32(it) => put_signed("Int32", i64::from(*it), line),
        Value::Uint32(it) => put("Uint32", u64::from(*it), line),
        Value::Int64(it) => put_signed("Int64", *it, line),
        Value::Uint64(it) => put("Uint64", *it, line),
        Value::Double(it) => put("Double", *it, line),
        Value::UnixFd(it) => put("UnixFd", u64::from(*it), line),
        _ => line.add("no number"),
    }
}

fn put_text(name: &str, text: &str, line: &mut Line) {
    line.add(name);
    line.add("(\"");
    line.add(text);
    line.add("\")");
}

fn write_signature(types: &[CompleteType], line: &mut Line) {
    line.add("Signature(");
    for each in types {
        write_type(each, line);
    }
    line.add(")");
}

fn write_bytes(bytes: &[u8], line: &mut Line) {
    line.add("Bytes(");
    line.hex(bytes);
    line.add(")");
}

// Writes a value that contains no other one.
fn write_leaf(value: &Value, line: &mut Line) {
    match value {
        Value::String(it) => put_text("String", it.as_str(), line),
        Value::ObjectPath(it) => put_text("ObjectPath", it.as_str(), line),
        Value::Signature(it) => write_signature(it.types(), line),
        Value::Bytes(it) => write_bytes(it.as_slice(), line),
        _ => write_number(value, line),
    }
}

// Writes a value whose type is known from where it is. A struct of one field, inside another value, is the field itself.
#[cycle(shown)]
fn write_value(value: &Value, known: &CompleteType, line: &mut Line) {
    let mut around = 0usize;
    let mut core = known;
    for _ in 0..64 {
        if let Some(types) = fields_in(core)
            && let Some(only) = lone_in(types, true)
        {
            line.add("Struct([");
            around = around.saturating_add(1);
            core = only;
        }
    }
    write_core(value, core, line);
    for _ in 0..around {
        line.add("])");
    }
}

#[cycle(shown)]
fn write_core(value: &Value, known: &CompleteType, line: &mut Line) {
    if let Some(fields) = value.fields() {
        return write_struct(fields, known, line);
    }
    match value {
        Value::Variant(inner) => {
            line.add("Variant(");
            write_value(inner, &CompleteType::Variant, line);
            line.add(")");
        }
        Value::Array(array) => write_array(array.values.as_slice(), &array.element, line),
        Value::InnerArray(values) => write_array(values.as_slice(), element_of(known), line),
        Value::DictEntry(entry) => write_entry(entry, known, line),
        _ => write_leaf(value, line),
    }
}

#[cycle(shown)]
fn write_array(values: &[Value], element: &CompleteType, line: &mut Line) {
    line.add("Array(");
    write_type(element, line);
    line.add(", ");
    write_each(values, element, line);
    line.add(")");
}

#[cycle(shown)]
fn write_entry(entry: &DictEntry, known: &CompleteType, line: &mut Line) {
    line.add("DictEntry(");
    write_value(&entry.key, known, line);
    line.add(", ");
    write_value(&entry.value, held_of(known), line);
    line.add(")");
}

#[cycle(shown)]
fn write_each(values: &[Value], known: &CompleteType, line: &mut Line) {
    let mut is_first = true;
    for each in values {
        line.add(if is_first { "[" } else { ", " });
        write_value(each, known, line);
        is_first = false;
    }
    line.add(if values.is_empty() { "[]" } else { "]" });
}

// The type of a struct's field.
fn field_of(known: &CompleteType, place: usize) -> &CompleteType {
    match fields_in(known) {
        Some(types) => types.get(place).unwrap_or(known),
        None => known,
    }
}

#[cycle(shown)]
fn write_struct(fields: &[Value], known: &CompleteType, line: &mut Line) {
    line.add("Struct(");
    let mut place = 0usize;
    for each in fields {
        line.add(if place == 0 { "[" } else { ", " });
        write_value(each, field_of(known, place), line);
        place = place.saturating_add(1);
    }
    line.add("])");
}

/// Writes values that aren't in an array.
pub fn write_values(values: &[Value], line: &mut Line) {
    write_each(values, &CompleteType::Variant, line);
}
