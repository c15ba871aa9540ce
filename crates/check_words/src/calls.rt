// Calls from words.

use crate::prompt_calls::prompt_call;
use crate::property_calls::{attributing, getting_one, labelling, showing};
use crate::secrets::{alias, attribute, item, label, object, objects, secret, session};
use crate::values::{number, text};
use check_rows::cell;
use kr_base::{ItemId, SessionId, Stem};
use kr_names::ObjectName;
use secret_calls::{Call, CallFault};
use std::alloc::Global;

fn opening(alloc: Global, algorithm: &str) -> Option<Call> {
    let algorithm = text(alloc, algorithm)?;
    Some(Call::OpenSession { algorithm })
}

fn closing(session: &str) -> Option<Call> {
    let session = SessionId(number(session)?);
    Some(Call::CloseSession { session })
}

fn searching(alloc: Global, words: &str) -> Option<Call> {
    let wanted = attribute(alloc, words)?;
    Some(Call::SearchItems { wanted })
}

fn finding(alloc: Global, words: &str) -> Option<Call> {
    let (path, pair) = words.split_once('?')?;
    let collection = object(alloc, path)?;
    let wanted = attribute(alloc, pair)?;
    Some(Call::SearchCollection { collection, wanted })
}

fn locking(alloc: Global, words: &str) -> Option<Call> {
    let objects = objects(alloc, words)?;
    Some(Call::Lock { objects })
}

fn getting(alloc: Global, words: &str) -> Option<Call> {
    let (item, given) = words.split_once(';')?;
    let stem = Stem::new(alloc, "login").ok()??;
    let item = ItemId(item.parse::<u32>().ok()?);
    let session = session(given)?;
    Some(Call::GetSecret {
        stem,
        item,
        session,
    })
}

fn getting_all(alloc: Global, words: &str) -> Option<Call> {
    let (paths, given) = words.split_once(';')?;
    let items = objects(alloc, paths)?;
    let session = session(given)?;
    Some(Call::GetSecrets { items, session })
}

// An item in a collection, with an attribute and a secret.
fn making(alloc: Global, words: &str, replace: bool) -> Option<Call> {
    let (place, given) = words.split_once(';')?;
    let (path, pair) = place.split_once('?')?;
    let collection = object(alloc, path)?;
    let attributes = attribute(alloc, pair)?;
    let label = label(alloc, "An item")?;
    let secret = secret(alloc, given)?;
    Some(Call::CreateItem {
        collection,
        label,
        attributes,
        secret,
        replace,
    })
}

// The deletion of an item, or of any other object as a collection.
fn deleting(alloc: Global, path: &str) -> Option<Call> {
    match object(alloc, path)? {
        ObjectName::Item(stem, item) => Some(Call::DeleteItem { stem, item }),
        collection => Some(Call::DeleteCollection { collection }),
    }
}

fn setting(alloc: Global, words: &str) -> Option<Call> {
    let (path, given) = words.split_once(';')?;
    let (stem, item) = item(alloc, path)?;
    let secret = secret(alloc, given)?;
    Some(Call::SetSecret { stem, item, secret })
}

fn reading(alloc: Global, name: &str) -> Option<Call> {
    let name = text(alloc, name)?;
    Some(Call::ReadAlias { name })
}

// The object that an alias is set to: `/` for `-`, and none for `?`.
fn given(alloc: Global, path: &str) -> Option<Option<ObjectName>> {
    match path {
        "-" => Some(Some(ObjectName::Nothing)),
        "?" => Some(None),
        _ => Some(Some(object(alloc, path)?)),
    }
}

fn aliasing(alloc: Global, words: &str) -> Option<Call> {
    let (name, path) = words.split_once('=')?;
    let alias = alias(alloc, name)?;
    let object = given(alloc, path)?;
    Some(Call::SetAlias { alias, object })
}

fn call(alloc: Global, what: &str, words: &str) -> Option<Call> {
    match what {
        "open" => opening(alloc, words),
        "close" => closing(words),
        "search" => searching(alloc, words),
        "find" => finding(alloc, words),
        "lock" => locking(alloc, words),
        "secret" => getting(alloc, words),
        "secrets" => getting_all(alloc, words),
        "make" => making(alloc, words, false),
        "replace" => making(alloc, words, true),
        "delete" => deleting(alloc, words),
        "set" => setting(alloc, words),
        "read" => reading(alloc, words),
        "alias" => aliasing(alloc, words),
        "get" => getting_one(alloc, words),
        "show" => showing(alloc, words),
        "label" => labelling(alloc, words),
        "attributes" => attributing(alloc, words),
        _ => prompt_call(alloc, what, words),
    }
}

/// The call of a row: its second cell says what it does, and its third with what.
pub fn call_of(alloc: Global, row: &str) -> Option<Result<Call, CallFault>> {
    match cell(row, 1) {
        "unknown" => Some(Err(CallFault::UnknownMethod)),
        "unknown property" => Some(Err(CallFault::UnknownProperty)),
        "read only" => Some(Err(CallFault::PropertyReadOnly)),
        what => Some(Ok(call(alloc, what, cell(row, 2))?)),
    }
}
