// What the tool reads in a reply. Each reader returns None if the reply is an error, or has other values than the call
// returns from a service that needs no prompt.
ghost use Rattle.std.specs.Prelude.{◌≡◌, IfOk, MatchOption, None, Some, option_map};
ghost use Rattle.tool_script.specs.Replies.{returned, session_in, found_in, value_in, made_in, deleted_in, locked_in, names_of, collections_in, item_at};

use crate::OutOfMemory;
use client_core::Reply;
use kr_base::{Bytes, ItemId, SessionId, Stem, Text};
use kr_items::Items;
use kr_names::{ObjectName, parse_path};
use secret_calls::{Body, PropertyValue};
use std::alloc::Global;

/// The session of OpenSession, whose number isn't 0.
pub fn session_in(reply: &Reply) -> Option<SessionId>
    ensures { result ≡ returned session_in reply.now }
{
    match reply {
        Reply::Return(Body::Session(session)) if session.0 > 0 => Some(*session),
        _ => None,
    }
}

/// The matches of SearchItems: the paths of those in unlocked collections, and in locked ones.
pub fn found_in(reply: &Reply) -> Option<(&[Text], &[Text])>
    ensures { option_map (λ two. (two.0.now, two.1.now)) result ≡ returned found_in reply.now }
{
    match reply {
        Reply::Return(Body::Found { unlocked, locked }) => {
            Some((unlocked.as_slice(), locked.as_slice()))
        }
        _ => None,
    }
}

/// The value of the secret of GetSecret.
pub fn value_in(reply: &Reply) -> Option<&Bytes>
    ensures { option_map (λ value. value.now) result ≡ returned value_in reply.now }
{
    match reply {
        Reply::Return(Body::Secret(secret)) => Some(&secret.value),
        _ => None,
    }
}

/// The path of the item of CreateItem.
pub fn made_in(reply: &Reply) -> Option<&Text>
    ensures { option_map (λ path. path.now) result ≡ returned made_in reply.now }
{
    match reply {
        Reply::Return(
            Body::ObjectAndPrompt {
                object,
                prompt: None,
            },
        ) => Some(object),
        _ => None,
    }
}

/// The path of no prompt, of Delete.
pub fn deleted_in(reply: &Reply) -> Option<&Text>
    ensures { option_map (λ path. path.now) result ≡ returned deleted_in reply.now }
{
    match reply {
        Reply::Return(Body::Object(prompt)) if prompt.as_str() == "/" => Some(prompt),
        _ => None,
    }
}

/// The paths of the objects of Lock.
pub fn locked_in(reply: &Reply) -> Option<&[Text]>
    ensures { option_map (λ paths. paths.now) result ≡ returned locked_in reply.now }
{
    match reply {
        Reply::Return(
            Body::ObjectsAndPrompt {
                objects,
                prompt: None,
            },
        ) => Some(objects.as_slice()),
        _ => None,
    }
}

// The names of the paths. None if a path isn't one of the service.
fn names_of(alloc: Global, paths: &[Text]) -> Result<Option<Items<ObjectName>>, OutOfMemory>
    ensures { IfOk result (λ answer. answer ≡ names_of paths.now) }
{
    let mut names = Vec::with_capacity(alloc, paths.len())?;
    let mut rest = paths;
    while let [path, more @ ..] = rest {
        match parse_path(alloc, path.as_str())? {
            Some(name) => names.push(name)?,
            None => return Ok(None),
        }
        rest = more;
    }
    Ok(Some(Items::new(names)))
}

/// The collections of Get of Collections.
pub fn collections_in(
    alloc: Global,
    reply: &Reply,
) -> Result<Option<Items<ObjectName>>, OutOfMemory>
    ensures { IfOk result (λ answer. answer ≡ returned collections_in reply.now) }
{
    match reply {
        Reply::Return(Body::Property(PropertyValue::Objects(paths))) => {
            names_of(alloc, paths.as_slice())
        }
        _ => Ok(None),
    }
}

/// The stem and the number of the item with this path. None if it isn't the path of an item.
pub fn item_at(alloc: Global, path: &Text) -> Result<Option<(Stem, ItemId)>, OutOfMemory>
    ensures { IfOk result (λ answer. answer ≡ item_at path.now) }
{
    match parse_path(alloc, path.as_str())? {
        Some(ObjectName::Item(stem, item)) => Ok(Some((stem, item))),
        _ => Ok(None),
    }
}
