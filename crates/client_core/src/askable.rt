// Which calls a client can make.
ghost use Rattle.std.specs.Prelude.{◌≡◌, ◌↔◌, IsTrue, IfSome};
ghost use Rattle.kr_names.specs.Path.{HasPath};
ghost use Rattle.client_core.specs.Askable.{IsCollection, IsObject, is_text_value, AreTexts, HavePaths, IsSession, IsPrompt, of_service, of_collection, of_item, has_property, own_properties, IsAskable};

use kr_base::{AttrValue, Attributes, PromptId, SessionId};
use kr_names::ObjectName;
use secret_calls::{Call, Property};

// The properties of the service, of a collection and of an item.
const OF_THE_SERVICE: &[Property] = &[Property::Collections];

const OF_A_COLLECTION: &[Property] = &[
    Property::Items,
    Property::Label,
    Property::Locked,
    Property::Created,
    Property::Modified,
];

const OF_AN_ITEM: &[Property] = &[
    Property::Label,
    Property::Attributes,
    Property::Locked,
    Property::Created,
    Property::Modified,
];

// Whether the name is that of a collection, or of an alias.
fn is_collection(name: &ObjectName) -> bool
    ensures { IsTrue result ↔ IsCollection name.now }
{
    match name {
        ObjectName::Collection(_) => true,
        ObjectName::Alias(_) => true,
        ObjectName::Nothing => false,
        ObjectName::Service => false,
        ObjectName::Agent => false,
        ObjectName::Item(_, _) => false,
        ObjectName::Session(_) => false,
        ObjectName::Prompt(_) => false,
    }
}

// Whether the value is a text.
fn is_text_value(value: &AttrValue) -> bool
    ensures { result ≡ is_text_value value.now }
{
    match value {
        AttrValue::Text(_) => true,
        AttrValue::Number(_) => false,
    }
}

// Whether each value is a text.
fn are_texts(attributes: &Attributes) -> bool
    ensures { IsTrue result ↔ AreTexts attributes.now }
{
    attributes
        .as_slice()
        .iter()
        .all(|pair| is_text_value(&pair.1))
}

// Whether each name has a path.
fn have_paths(names: &[ObjectName]) -> bool
    ensures { IsTrue result ↔ HavePaths names.now }
{
    names.iter().all(|name| name.has_path())
}

// Whether the session's number isn't 0.
fn is_session(session: Option<SessionId>) -> bool
    ensures { IsTrue result ↔ IsSession session }
{
    match session {
        Some(session) => session.0 != 0,
        None => true,
    }
}

// Whether the prompt's number isn't 0.
fn is_prompt(prompt: Option<PromptId>) -> bool
    ensures { IsTrue result ↔ IsPrompt prompt }
{
    match prompt {
        Some(prompt) => prompt.0 != 0,
        None => true,
    }
}

// Whether the object, if there is one, has a path.
fn has_path(object: &Option<ObjectName>) -> bool
    ensures { IsTrue result ↔ IfSome object.now HasPath }
{
    match object {
        Some(object) => object.has_path(),
        None => true,
    }
}

// Whether the name is that of an object.
fn is_object(name: &ObjectName) -> bool
    ensures { IsTrue result ↔ IsObject name.now }
{
    match name {
        ObjectName::Nothing => false,
        ObjectName::Service => true,
        ObjectName::Agent => true,
        ObjectName::Collection(_) => true,
        ObjectName::Item(_, _) => true,
        ObjectName::Alias(_) => true,
        ObjectName::Session(_) => true,
        ObjectName::Prompt(_) => true,
    }
}

// Whether the service has the property.
fn of_service(property: Property) -> bool
    ensures { result ≡ of_service property }
{
    match property {
        Property::Collections => true,
        _ => false,
    }
}

// Whether a collection has the property.
fn of_collection(property: Property) -> bool
    ensures { result ≡ of_collection property }
{
    match property {
        Property::Collections => false,
        Property::Attributes => false,
        _ => true,
    }
}

// Whether an item has the property.
fn of_item(property: Property) -> bool
    ensures { result ≡ of_item property }
{
    match property {
        Property::Collections => false,
        Property::Items => false,
        _ => true,
    }
}

// Whether the object has the property.
fn has_property(object: &ObjectName, property: Property) -> bool
    ensures { result ≡ has_property object.now property }
{
    match object {
        ObjectName::Service => of_service(property),
        ObjectName::Collection(_) => of_collection(property),
        ObjectName::Alias(_) => of_collection(property),
        ObjectName::Item(_, _) => of_item(property),
        ObjectName::Nothing => false,
        ObjectName::Agent => false,
        ObjectName::Session(_) => false,
        ObjectName::Prompt(_) => false,
    }
}

// The properties of the object, in the order of the table.
fn own_properties(object: &ObjectName) -> &'static [Property]
    ensures { result.now ≡ own_properties object.now }
{
    match object {
        ObjectName::Service => OF_THE_SERVICE,
        ObjectName::Collection(_) => OF_A_COLLECTION,
        ObjectName::Alias(_) => OF_A_COLLECTION,
        ObjectName::Item(_, _) => OF_AN_ITEM,
        ObjectName::Nothing => &[],
        ObjectName::Agent => &[],
        ObjectName::Session(_) => &[],
        ObjectName::Prompt(_) => &[],
    }
}

// Whether the properties are those of the object.
fn are_own(properties: &[Property], object: &ObjectName) -> bool
    ensures { IsTrue result ↔ (properties.now ≡ own_properties object.now) }
{
    properties == own_properties(object)
}

/// Whether a client can make the call: sessions and prompts have numbers other than 0, objects have
/// paths, attributes have texts, a call of a collection is made on a collection or an alias, and
/// properties are those of the object.
pub fn can_be_asked(call: &Call) -> bool
    ensures { IsTrue result ↔ IsAskable call.now }
{
    match call {
        Call::CloseSession { session } => session.0 != 0,
        Call::SearchItems { wanted } => are_texts(wanted),
        Call::Unlock { objects } => have_paths(objects.as_slice()),
        Call::Lock { objects } => have_paths(objects.as_slice()),
        Call::GetSecrets { items, session } => {
            have_paths(items.as_slice()) && is_session(*session)
        }
        Call::SetAlias { object, .. } => has_path(object),
        Call::SearchCollection { collection, wanted } => {
            is_collection(collection) && collection.has_path() && are_texts(wanted)
        }
        Call::CreateItem {
            collection,
            attributes,
            secret,
            ..
        } => {
            is_collection(collection)
                && collection.has_path()
                && are_texts(attributes)
                && is_session(secret.session)
        }
        Call::DeleteCollection { collection } => {
            is_collection(collection) && collection.has_path()
        }
        Call::ChangePassword { collection } => is_collection(collection) && collection.has_path(),
        Call::GetSecret { session, .. } => is_session(*session),
        Call::SetSecret { secret, .. } => is_session(secret.session),
        Call::Get { object, property } => object.has_path() && has_property(object, *property),
        Call::GetAll { object, properties } => {
            is_object(object) && object.has_path() && are_own(properties.as_slice(), object)
        }
        Call::SetCollectionLabel { collection, .. } => {
            is_collection(collection) && collection.has_path()
        }
        Call::SetAttributes { attributes, .. } => are_texts(attributes),
        Call::Prompt { prompt } => prompt.0 != 0,
        Call::Dismiss { prompt } => prompt.0 != 0,
        Call::Answer { prompt, .. } => is_prompt(*prompt),
        Call::Refuse { prompt, .. } => is_prompt(*prompt),
        Call::Ping => true,
        Call::OpenSession { .. } => true,
        Call::CreateCollection { .. } => true,
        Call::ReadAlias { .. } => true,
        Call::DeleteItem { .. } => true,
        Call::SetItemLabel { .. } => true,
        Call::Register => true,
        Call::Unregister => true,
    }
}
