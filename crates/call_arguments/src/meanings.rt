// What values mean to the service: objects, sessions, prompts, aliases, attributes, properties and secrets (Secret
// Service API, "Attributes", "Secrets"; docs/SERVICE.md, "Names and paths"). Each reader returns None if a value isn't
// of the expected type.
ghost use Rattle.std.specs.Prelude.{◌≡◌, IfOk, option_and_then, option_map};
ghost use Rattle.dbus_types.specs.ValueViews.{value_of, values_of, value_as, each_as};
ghost use Rattle.dbus_framing.specs.Headers.{path_in, string_in};
ghost use Rattle.call_arguments.specs.Arguments.{entry_in, type_of_element, elements_in, all_in, named, object_in, objects_in, session_named, session_in, prompt_named, prompt_in, name_in, alias_named, alias_in, wanted_alias, wanted_alias_in, text_pair_in, attributes_among, attributes_in, value_for, value_named, property, label_in, four_of, kept_parts, secret_parts_in, secret_of, secret_in};

use crate::OutOfMemory;
use crate::arguments::{held_in, string_in};
use crate::values::{ElementType, bytes_in, elements_in, entry_in, four_in, parts_in, path_in};
use dbus_types::{ObjectPath, Value};
use kr_base::{Attributes, Bytes, PromptId, SessionId, Text};
use kr_items::Items;
use kr_names::{ObjectName, parse_path};
use secret_calls::{AliasName, Secret, no_label};
use std::alloc::Global;

// The object that a path names.
fn named(alloc: Global, path: &ObjectPath) -> Result<ObjectName, OutOfMemory>
    ensures { IfOk result (λ object. object ≡ named path.now) }
{
    match parse_path(alloc, path.as_str())? {
        Some(object) => Ok(object),
        None => Ok(ObjectName::Nothing),
    }
}

// The objects that the paths in an array name.
fn objects_among(alloc: Global, paths: &[Value]) -> Result<Option<Items<ObjectName>>, OutOfMemory>
    ensures { IfOk result (λ objects. objects
        ≡ all_in object_in (each_as (type_of_element (ElementType.Path)) paths.now)) }
{
    let mut objects = Vec::with_capacity(alloc, paths.len())?;
    for path in paths {
        match path_in(path) {
            Some(path) => objects.push(named(alloc, path)?)?,
            None => return Ok(None),
        }
    }
    Ok(Some(Items::new(objects)))
}

/// The objects that an array of paths names, in order.
pub fn objects_in(alloc: Global, value: &Value) -> Result<Option<Items<ObjectName>>, OutOfMemory>
    ensures { IfOk result (λ objects. objects ≡ objects_in (value_of value.now)) }
{
    match elements_in(value, ElementType::Path) {
        Some(paths) => objects_among(alloc, paths),
        None => Ok(None),
    }
}

// The session that a path names, or None if it isn't a session's.
fn session_named(alloc: Global, path: &ObjectPath) -> Result<Option<SessionId>, OutOfMemory>
    ensures { IfOk result (λ session. session ≡ session_named path.now) }
{
    match parse_path(alloc, path.as_str())? {
        Some(ObjectName::Session(session)) => Ok(Some(session)),
        _ => Ok(None),
    }
}

/// The session that a path names, or `Some(None)` if the path isn't a session's.
pub fn session_in(alloc: Global, value: &Value) -> Result<Option<Option<SessionId>>, OutOfMemory>
    ensures { IfOk result (λ session. session ≡ session_in (value_of value.now)) }
{
    match path_in(value) {
        Some(path) => Ok(Some(session_named(alloc, path)?)),
        None => Ok(None),
    }
}

// The prompt that a path names, or None if it isn't a prompt's.
fn prompt_named(alloc: Global, path: &ObjectPath) -> Result<Option<PromptId>, OutOfMemory>
    ensures { IfOk result (λ prompt. prompt ≡ prompt_named path.now) }
{
    match parse_path(alloc, path.as_str())? {
        Some(ObjectName::Prompt(prompt)) => Ok(Some(prompt)),
        _ => Ok(None),
    }
}

/// The prompt that a path names, or `Some(None)` if the path isn't a prompt's.
pub fn prompt_in(alloc: Global, value: &Value) -> Result<Option<Option<PromptId>>, OutOfMemory>
    ensures { IfOk result (λ prompt. prompt ≡ prompt_in (value_of value.now)) }
{
    match path_in(value) {
        Some(path) => Ok(Some(prompt_named(alloc, path)?)),
        None => Ok(None),
    }
}

/// The name that a path is that of, or `Some(None)` if the path isn't one of the service.
pub fn name_in(alloc: Global, value: &Value) -> Result<Option<Option<ObjectName>>, OutOfMemory>
    ensures { IfOk result (λ name. name ≡ name_in (value_of value.now)) }
{
    match path_in(value) {
        Some(path) => Ok(Some(parse_path(alloc, path.as_str())?)),
        None => Ok(None),
    }
}

// The text as the name of an alias that is to be set.
fn alias_named(text: &Text) -> Result<Option<AliasName>, OutOfMemory>
    ensures { IfOk result (λ alias. alias ≡ alias_named text.now) }
{
    Ok(AliasName::from_text(text.copy()?))
}

/// The name of an alias that is to be set.
pub fn alias_in(value: &Value) -> Result<Option<AliasName>, OutOfMemory>
    ensures { IfOk result (λ alias. alias ≡ alias_in (value_of value.now)) }
{
    match string_in(value) {
        Some(text) => alias_named(text),
        None => Ok(None),
    }
}

// The same, or `Some(None)` for the empty text.
fn wanted_alias(text: &Text) -> Result<Option<Option<AliasName>>, OutOfMemory>
    ensures { IfOk result (λ alias. alias ≡ wanted_alias text.now) }
{
    if text.as_str().is_empty() {
        return Ok(Some(None));
    }
    match alias_named(text)? {
        Some(alias) => Ok(Some(Some(alias))),
        None => Ok(None),
    }
}

/// The name of the alias that a new collection gets, or `Some(None)` if the text is empty.
pub fn wanted_alias_in(value: &Value) -> Result<Option<Option<AliasName>>, OutOfMemory>
    ensures { IfOk result (λ alias. alias ≡ wanted_alias_in (value_of value.now)) }
{
    match string_in(value) {
        Some(text) => wanted_alias(text),
        None => Ok(None),
    }
}

/// The two texts of an entry of a dict of texts.
pub fn text_pair_in(value: &Value) -> Option<(&Text, &Text)>
    ensures { option_map (λ two. (two.0.now, two.1.now)) result
        ≡ text_pair_in (value_as (type_of_element (ElementType.TextPair)) value.now) }
{
    let (key, held) = entry_in(value)?;
    let key = string_in(key)?;
    let text = string_in(held)?;
    Some((key, text))
}

// The two texts of each entry.
fn text_pairs_among(
    alloc: Global,
    entries: &[Value],
) -> Result<Option<Vec<(Text, Text)>>, OutOfMemory>
    ensures { IfOk result (λ pairs. option_map (λ them. them.items) pairs
        ≡ all_in text_pair_in (each_as (type_of_element (ElementType.TextPair)) entries.now)) }
{
    let mut pairs = Vec::with_capacity(alloc, entries.len())?;
    for entry in entries {
        match text_pair_in(entry) {
            Some((key, text)) => pairs.push((key.copy()?, text.copy()?))?,
            None => return Ok(None),
        }
    }
    Ok(Some(pairs))
}

// The attributes given as entries.
fn attributes_among(alloc: Global, entries: &[Value]) -> Result<Option<Attributes>, OutOfMemory>
    ensures { IfOk result (λ attributes. attributes
        ≡ attributes_among (each_as (type_of_element (ElementType.TextPair)) entries.now)) }
{
    match text_pairs_among(alloc, entries)? {
        Some(pairs) => Ok(Some(Attributes::from_pairs(alloc, pairs)?)),
        None => Ok(None),
    }
}

/// The attributes in a dict of texts. Of two with one name the later counts.
pub fn attributes_in(alloc: Global, value: &Value) -> Result<Option<Attributes>, OutOfMemory>
    ensures { IfOk result (λ attributes. attributes ≡ attributes_in (value_of value.now)) }
{
    match elements_in(value, ElementType::TextPair) {
        Some(entries) => attributes_among(alloc, entries),
        None => Ok(None),
    }
}

// The value of an entry, if its key is this name.
fn value_named<'a>(entry: &'a Value, wanted: &str) -> Option<&'a Value>
    ensures { option_map (λ held. value_of held.now) result
        ≡ value_named wanted.now (value_as (type_of_element (ElementType.Property)) entry.now) }
{
    let (key, held) = entry_in(entry)?;
    let key = string_in(key)?;
    let held = held_in(held)?;
    if key.as_str() != wanted {
        return None;
    }
    Some(held)
}

/// The value of the property with this name, among the entries of a dict. Of two entries with one key
/// the later counts.
pub fn property<'a>(entries: &'a [Value], wanted: &str) -> Option<&'a Value>
    ensures { option_map (λ held. value_of held.now) result ≡ property wanted.now
        (each_as (type_of_element (ElementType.Property)) entries.now) }
{
    let mut found = None;
    for entry in entries {
        if let Some(held) = value_named(entry, wanted) {
            found = Some(held);
        }
    }
    found
}

/// The label in the value of a property, which is empty if the property is missing.
pub fn label_in(alloc: Global, label: Option<&Value>) -> Result<Option<Text>, OutOfMemory>
    ensures { IfOk result (λ text. text
        ≡ label_in (option_map (λ it. value_of it.now) label.entry)) }
{
    match label {
        Some(value) => match string_in(value) {
            Some(text) => Ok(Some(text.copy()?)),
            None => Ok(None),
        },
        None => Ok(Some(no_label(alloc))),
    }
}

// The parts of a secret that are kept: its session's path, its value and its content type.
fn kept_parts(fields: &[Value]) -> Option<(&ObjectPath, &Bytes, &Text)>
    ensures { option_map (λ parts. (parts.0.now, parts.1.now, parts.2.now)) result
        ≡ option_and_then kept_parts (four_of (values_of fields.now)) }
{
    let (path, parameters, bytes, content) = four_in(fields)?;
    let path = path_in(path)?;
    let _ = bytes_in(parameters)?;
    let bytes = bytes_in(bytes)?;
    let content = string_in(content)?;
    Some((path, bytes, content))
}

// The same for a struct.
fn secret_parts_in(value: &Value) -> Option<(&ObjectPath, &Bytes, &Text)>
    ensures { option_map (λ parts. (parts.0.now, parts.1.now, parts.2.now)) result
        ≡ secret_parts_in (value_of value.now) }
{
    kept_parts(parts_in(value)?)
}

/// The secret in a struct. Its parameters are dropped.
pub fn secret_in(alloc: Global, value: &Value) -> Result<Option<Secret>, OutOfMemory>
    ensures { IfOk result (λ secret. secret ≡ secret_in (value_of value.now)) }
{
    match secret_parts_in(value) {
        Some((path, value, content)) => Ok(Some(Secret {
            session: session_named(alloc, path)?,
            value: value.copy()?,
            content: content.copy()?,
        })),
        None => Ok(None),
    }
}
