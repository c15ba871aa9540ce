// Reading what calls return (Secret Service API draft 0.2, the interfaces' methods). Each reader returns None if the
// values are others.
ghost use Rattle.std.specs.Prelude.{◌≡◌, IfOk, option_and_then, option_copied, option_map};
ghost use Rattle.dbus_types.specs.declared.complete_type.BasicType.TheVariants as basics;
ghost use Rattle.dbus_types.specs.Types.{Ty};
ghost use Rattle.dbus_types.specs.ValueViews.{value_of, values_of, each_as};
ghost use Rattle.dbus_framing.specs.Headers.{path_in};
ghost use Rattle.call_arguments.specs.Arguments.{all_in, session_named};
ghost use Rattle.client_core.specs.Replies.{session_at, prompt_of, prompt_at, paths_in, text_held, session_body, found_body, objects_and_prompt_body, objects_body, object_and_prompt_body, object_body, secret_body, secrets_body, property_body, properties_body, empty_body, body_in};

use crate::OutOfMemory;
use crate::properties::{properties_in, shown_held};
use crate::reply::Shape;
use crate::secrets::{item_secrets_in, secret_at};
use call_arguments::{ElementType, elements_in, held_in, one_in, path_in, string_in, two_in};
use dbus_types::{ObjectPath, Value};
use kr_base::{PromptId, SessionId, Text};
use kr_items::Items;
use kr_names::{ObjectName, parse_path};
use secret_calls::Body;
use std::alloc::Global;

/// The session that a path names.
pub fn session_named(alloc: Global, path: &ObjectPath) -> Result<Option<SessionId>, OutOfMemory>
    ensures { IfOk result (λ session. session ≡ session_named path.now) }
{
    match parse_path(alloc, path.as_str())? {
        Some(ObjectName::Session(session)) => Ok(Some(session)),
        _ => Ok(None),
    }
}

// The session in a value of type `o`.
fn session_at(alloc: Global, value: &Value) -> Result<Option<SessionId>, OutOfMemory>
    ensures { IfOk result (λ session. session ≡ session_at (value_of value.now)) }
{
    match path_in(value) {
        Some(path) => session_named(alloc, path),
        None => Ok(None),
    }
}

// The prompt with this path, or that none is needed.
fn prompt_of(alloc: Global, path: &ObjectPath) -> Result<Option<Option<PromptId>>, OutOfMemory>
    ensures { IfOk result (λ prompt. prompt ≡ prompt_of path.now) }
{
    if path.as_str() == "/" {
        return Ok(Some(None));
    }
    match parse_path(alloc, path.as_str())? {
        Some(ObjectName::Prompt(prompt)) => Ok(Some(Some(prompt))),
        _ => Ok(None),
    }
}

// The same for a value of type `o`.
fn prompt_at(alloc: Global, value: &Value) -> Result<Option<Option<PromptId>>, OutOfMemory>
    ensures { IfOk result (λ prompt. prompt ≡ prompt_at (value_of value.now)) }
{
    match path_in(value) {
        Some(path) => prompt_of(alloc, path),
        None => Ok(None),
    }
}

/// A copy of the path, as a text.
pub fn text_of(path: &ObjectPath) -> Result<Text, OutOfMemory>
    ensures { IfOk result (λ text. text ≡ path.now) }
{
    Ok(path.copy()?.into_text())
}

// The paths among the elements of an array of paths.
fn paths_among(alloc: Global, elements: &[Value]) -> Result<Option<Items<Text>>, OutOfMemory>
    ensures { IfOk result (λ paths. paths
        ≡ all_in path_in (each_as (Ty.basic basics.ObjectPath) elements.now)) }
{
    let mut paths = Vec::with_capacity(alloc, elements.len())?;
    for element in elements {
        match path_in(element) {
            Some(path) => paths.push(text_of(path)?)?,
            None => return Ok(None),
        }
    }
    Ok(Some(Items::new(paths)))
}

/// The paths in a value of type `ao`.
pub fn paths_in(alloc: Global, value: &Value) -> Result<Option<Items<Text>>, OutOfMemory>
    ensures { IfOk result (λ paths. paths ≡ paths_in (value_of value.now)) }
{
    match elements_in(value, ElementType::Path) {
        Some(elements) => paths_among(alloc, elements),
        None => Ok(None),
    }
}

// The text in a variant.
fn text_held(value: &Value) -> Option<&Text>
    ensures { option_copied result ≡ text_held (value_of value.now) }
{
    string_in(held_in(value)?)
}

fn empty_body(values: &[Value]) -> Option<Body>
    ensures { result ≡ empty_body (values_of values.now) }
{
    match values.split_first() {
        Some(_) => None,
        None => Some(Body::Empty),
    }
}

fn session_body(alloc: Global, values: &[Value]) -> Result<Option<Body>, OutOfMemory>
    ensures { IfOk result (λ body. body ≡ session_body (values_of values.now)) }
{
    let Some((output, path)) = two_in(values) else {
        return Ok(None);
    };
    let Some(output) = text_held(output) else {
        return Ok(None);
    };
    let Some(session) = session_at(alloc, path)? else {
        return Ok(None);
    };
    if output.as_str() != "" {
        return Ok(None);
    }
    Ok(Some(Body::Session(session)))
}

fn found_body(alloc: Global, values: &[Value]) -> Result<Option<Body>, OutOfMemory>
    ensures { IfOk result (λ body. body ≡ found_body (values_of values.now)) }
{
    let Some((first, second)) = two_in(values) else {
        return Ok(None);
    };
    let Some(unlocked) = paths_in(alloc, first)? else {
        return Ok(None);
    };
    let Some(locked) = paths_in(alloc, second)? else {
        return Ok(None);
    };
    Ok(Some(Body::Found { unlocked, locked }))
}

fn objects_and_prompt_body(alloc: Global, values: &[Value]) -> Result<Option<Body>, OutOfMemory>
    ensures { IfOk result (λ body. body ≡ objects_and_prompt_body (values_of values.now)) }
{
    let Some((first, second)) = two_in(values) else {
        return Ok(None);
    };
    let Some(objects) = paths_in(alloc, first)? else {
        return Ok(None);
    };
    let Some(prompt) = prompt_at(alloc, second)? else {
        return Ok(None);
    };
    Ok(Some(Body::ObjectsAndPrompt { objects, prompt }))
}

fn objects_body(alloc: Global, values: &[Value]) -> Result<Option<Body>, OutOfMemory>
    ensures { IfOk result (λ body. body ≡ objects_body (values_of values.now)) }
{
    let Some(value) = one_in(values) else {
        return Ok(None);
    };
    match paths_in(alloc, value)? {
        Some(objects) => Ok(Some(Body::Objects(objects))),
        None => Ok(None),
    }
}

fn object_and_prompt_body(alloc: Global, values: &[Value]) -> Result<Option<Body>, OutOfMemory>
    ensures { IfOk result (λ body. body ≡ object_and_prompt_body (values_of values.now)) }
{
    let Some((first, second)) = two_in(values) else {
        return Ok(None);
    };
    let Some(path) = path_in(first) else {
        return Ok(None);
    };
    let Some(prompt) = prompt_at(alloc, second)? else {
        return Ok(None);
    };
    let object = text_of(path)?;
    Ok(Some(Body::ObjectAndPrompt { object, prompt }))
}

fn object_body(values: &[Value]) -> Result<Option<Body>, OutOfMemory>
    ensures { IfOk result (λ body. body ≡ object_body (values_of values.now)) }
{
    let Some(value) = one_in(values) else {
        return Ok(None);
    };
    match path_in(value) {
        Some(path) => Ok(Some(Body::Object(text_of(path)?))),
        None => Ok(None),
    }
}

fn secret_body(alloc: Global, values: &[Value]) -> Result<Option<Body>, OutOfMemory>
    ensures { IfOk result (λ body. body ≡ secret_body (values_of values.now)) }
{
    let Some(value) = one_in(values) else {
        return Ok(None);
    };
    match secret_at(alloc, value)? {
        Some(secret) => Ok(Some(Body::Secret(secret))),
        None => Ok(None),
    }
}

fn secrets_body(alloc: Global, values: &[Value]) -> Result<Option<Body>, OutOfMemory>
    ensures { IfOk result (λ body. body ≡ secrets_body (values_of values.now)) }
{
    let Some(value) = one_in(values) else {
        return Ok(None);
    };
    match item_secrets_in(alloc, value)? {
        Some(secrets) => Ok(Some(Body::Secrets(secrets))),
        None => Ok(None),
    }
}

fn property_body(alloc: Global, values: &[Value]) -> Result<Option<Body>, OutOfMemory>
    ensures { IfOk result (λ body. body ≡ property_body (values_of values.now)) }
{
    let Some(value) = one_in(values) else {
        return Ok(None);
    };
    match shown_held(alloc, value)? {
        Some(value) => Ok(Some(Body::Property(value))),
        None => Ok(None),
    }
}

fn properties_body(alloc: Global, values: &[Value]) -> Result<Option<Body>, OutOfMemory>
    ensures { IfOk result (λ body. body ≡ properties_body (values_of values.now)) }
{
    let Some(value) = one_in(values) else {
        return Ok(None);
    };
    match properties_in(alloc, value)? {
        Some(properties) => Ok(Some(Body::Properties(properties))),
        None => Ok(None),
    }
}

/// The body of this shape that the values are.
pub fn body_in(alloc: Global, shape: Shape, values: &[Value]) -> Result<Option<Body>, OutOfMemory>
    ensures { IfOk result (λ body. body ≡ body_in shape (values_of values.now)) }
{
    match shape {
        Shape::Empty => Ok(empty_body(values)),
        Shape::Session => session_body(alloc, values),
        Shape::Found => found_body(alloc, values),
        Shape::ObjectsAndPrompt => objects_and_prompt_body(alloc, values),
        Shape::Objects => objects_body(alloc, values),
        Shape::ObjectAndPrompt => object_and_prompt_body(alloc, values),
        Shape::Object => object_body(values),
        Shape::Secret => secret_body(alloc, values),
        Shape::Secrets => secrets_body(alloc, values),
        Shape::Property => property_body(alloc, values),
        Shape::Properties => properties_body(alloc, values),
    }
}
