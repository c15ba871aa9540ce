// The calls of the tool.
ghost use Rattle.std.specs.Prelude.{◌≡◌, IfOk, codes};
ghost use Rattle.secret_calls.specs.declared.call.Call.TheVariants as call;
ghost use Rattle.tool_script.specs.Script.{open_session, given, create, collections};

use crate::OutOfMemory;
use kr_base::{Attributes, Bytes, SessionId, Text};
use kr_names::ObjectName;
use secret_calls::{Call, Property, Secret};
use std::alloc::Global;

// The name of the algorithm of a session.
fn plain(alloc: Global) -> Result<Text, OutOfMemory>
    ensures { IfOk result (λ text. text ≡ codes "plain") }
{
    match Text::from_str(alloc, "plain")? {
        Some(text) => Ok(text),
        None => unreachable!(),
    }
}

// The content type of a secret.
fn content(alloc: Global) -> Result<Text, OutOfMemory>
    ensures { IfOk result (λ text. text ≡ codes "text/plain") }
{
    match Text::from_str(alloc, "text/plain")? {
        Some(text) => Ok(text),
        None => unreachable!(),
    }
}

// The alias of the collection that secrets are stored in.
fn default_alias(alloc: Global) -> Result<Text, OutOfMemory>
    ensures { IfOk result (λ text. text ≡ codes "default") }
{
    match Text::from_str(alloc, "default")? {
        Some(text) => Ok(text),
        None => unreachable!(),
    }
}

/// The call that opens a session.
pub fn open_session(alloc: Global) -> Result<Call, OutOfMemory>
    ensures { IfOk result (λ call. call ≡ open_session) }
{
    let algorithm = plain(alloc)?;
    Ok(Call::OpenSession { algorithm })
}

// The secret that is stored.
fn given(alloc: Global, value: &Bytes, session: SessionId) -> Result<Secret, OutOfMemory>
    ensures { IfOk result (λ secret. secret ≡ given value.now session) }
{
    let value = value.copy()?;
    let content = content(alloc)?;
    Ok(Secret {
        session: Some(session),
        value,
        content,
    })
}

/// The call that makes an item of the default collection, or replaces the one with these attributes.
pub fn create(
    alloc: Global,
    label: &Text,
    attributes: &Attributes,
    value: &Bytes,
    session: SessionId,
) -> Result<Call, OutOfMemory>
    ensures { IfOk result (λ call. call ≡ create label.now attributes.now value.now session) }
{
    let collection = ObjectName::Alias(default_alias(alloc)?);
    let label = label.copy()?;
    let attributes = attributes.copy()?;
    let secret = given(alloc, value, session)?;
    Ok(Call::CreateItem {
        collection,
        label,
        attributes,
        secret,
        replace: true,
    })
}

/// The call that searches for items.
pub fn search(wanted: &Attributes) -> Result<Call, OutOfMemory>
    ensures { IfOk result (λ it. it ≡ call.SearchItems wanted.now) }
{
    let wanted = wanted.copy()?;
    Ok(Call::SearchItems { wanted })
}

/// The call that asks for the collections.
pub fn collections() -> Call
    ensures { result ≡ collections }
{
    Call::Get {
        object: ObjectName::Service,
        property: Property::Collections,
    }
}
