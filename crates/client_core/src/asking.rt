// What a call is made on: its object, its interface and its method (docs/SERVICE.md, "Interfaces").
ghost use Rattle.std.specs.Prelude.{◌≡◌, [], ◌∷◌, map, IfOk, IfSome};
ghost use Rattle.kr_names.specs.Path.{HasPath, path_text, IsPathOf};
ghost use Rattle.dbus_sending.specs.HeaderViews.{seen};
ghost use Rattle.call_wire.specs.declared.interfaces.Interface.TheVariants as Interface;
ghost use Rattle.call_wire.specs.Interfaces.{interface_name};
ghost use Rattle.client_core.specs.Arguments.{object_text, own_interface, paths_among};
ghost use Rattle.client_core.specs.Askable.{HavePaths, IsAskable};
ghost use Rattle.client_core.specs.Asked.{object_of, interface_of, method_name, header_with};

use crate::OutOfMemory;
use dbus_sending::Header;
use kr_base::Text;
use kr_items::Items;
use kr_names::{ObjectName, path_of};
use secret_calls::Call;
use std::alloc::Global;

const SERVICE: &str = "org.freedesktop.Secret.Service";

const COLLECTION: &str = "org.freedesktop.Secret.Collection";

const KEYRING: &str = "org.keyringd.Keyring1";

const ITEM: &str = "org.freedesktop.Secret.Item";

const SESSION: &str = "org.freedesktop.Secret.Session";

const PROMPT: &str = "org.freedesktop.Secret.Prompt";

const AGENT: &str = "org.keyringd.Agent1";

const PROPERTIES: &str = "org.freedesktop.DBus.Properties";

const PEER: &str = "org.freedesktop.DBus.Peer";

/// The path of an object that isn't one of the service.
const STRANGE: &str = "/none";

/// The name of the interface of a collection.
pub fn collection_interface() -> &'static str
    ensures { result.now ≡ interface_name Interface.Collection }
{
    COLLECTION
}

/// The name of the interface of an item.
pub fn item_interface() -> &'static str
    ensures { result.now ≡ interface_name Interface.Item }
{
    ITEM
}

/// The name of the interface that has the object's properties, if it has any.
pub fn own_interface(object: &ObjectName) -> &'static str
    ensures { result.now ≡ interface_name (own_interface object.now) }
{
    match object {
        ObjectName::Nothing => PEER,
        ObjectName::Service => SERVICE,
        ObjectName::Agent => AGENT,
        ObjectName::Collection(_) => COLLECTION,
        ObjectName::Alias(_) => COLLECTION,
        ObjectName::Item(_, _) => ITEM,
        ObjectName::Session(_) => SESSION,
        ObjectName::Prompt(_) => PROMPT,
    }
}

// The object that the call is made on.
fn object_of(call: &Call) -> Result<ObjectName, OutOfMemory>
    ensures { IfOk result (λ object. object ≡ object_of call.now) }
{
    match call {
        Call::CloseSession { session } => Ok(ObjectName::Session(*session)),
        Call::SearchCollection { collection, .. } => collection.copy(),
        Call::CreateItem { collection, .. } => collection.copy(),
        Call::DeleteCollection { collection } => collection.copy(),
        Call::ChangePassword { collection } => collection.copy(),
        Call::DeleteItem { stem, item } => Ok(ObjectName::Item(stem.copy()?, *item)),
        Call::GetSecret { stem, item, .. } => Ok(ObjectName::Item(stem.copy()?, *item)),
        Call::SetSecret { stem, item, .. } => Ok(ObjectName::Item(stem.copy()?, *item)),
        Call::Get { object, .. } => object.copy(),
        Call::GetAll { object, .. } => object.copy(),
        Call::SetCollectionLabel { collection, .. } => collection.copy(),
        Call::SetItemLabel { stem, item, .. } => Ok(ObjectName::Item(stem.copy()?, *item)),
        Call::SetAttributes { stem, item, .. } => Ok(ObjectName::Item(stem.copy()?, *item)),
        Call::Prompt { prompt } => Ok(ObjectName::Prompt(*prompt)),
        Call::Dismiss { prompt } => Ok(ObjectName::Prompt(*prompt)),
        Call::Register => Ok(ObjectName::Agent),
        Call::Unregister => Ok(ObjectName::Agent),
        Call::Answer { .. } => Ok(ObjectName::Agent),
        Call::Refuse { .. } => Ok(ObjectName::Agent),
        Call::Ping => Ok(ObjectName::Service),
        Call::OpenSession { .. } => Ok(ObjectName::Service),
        Call::CreateCollection { .. } => Ok(ObjectName::Service),
        Call::SearchItems { .. } => Ok(ObjectName::Service),
        Call::Unlock { .. } => Ok(ObjectName::Service),
        Call::Lock { .. } => Ok(ObjectName::Service),
        Call::GetSecrets { .. } => Ok(ObjectName::Service),
        Call::ReadAlias { .. } => Ok(ObjectName::Service),
        Call::SetAlias { .. } => Ok(ObjectName::Service),
    }
}

// The object of a call that can be asked has a path.
fn object_has_path(call: &Call)
    requires { IsAskable call.now }
    ensures { HasPath (object_of call.now) }
{
    match call {
        Call::CloseSession { .. } => {}
        Call::SearchCollection { .. } => {}
        Call::CreateItem { .. } => {}
        Call::DeleteCollection { .. } => {}
        Call::ChangePassword { .. } => {}
        Call::DeleteItem { .. } => {}
        Call::GetSecret { .. } => {}
        Call::SetSecret { .. } => {}
        Call::Get { .. } => {}
        Call::GetAll { .. } => {}
        Call::SetCollectionLabel { .. } => {}
        Call::SetItemLabel { .. } => {}
        Call::SetAttributes { .. } => {}
        Call::Prompt { .. } => {}
        Call::Dismiss { .. } => {}
        Call::Register => {}
        Call::Unregister => {}
        Call::Answer { .. } => {}
        Call::Refuse { .. } => {}
        Call::Ping => {}
        Call::OpenSession { .. } => {}
        Call::CreateCollection { .. } => {}
        Call::SearchItems { .. } => {}
        Call::Unlock { .. } => {}
        Call::Lock { .. } => {}
        Call::GetSecrets { .. } => {}
        Call::ReadAlias { .. } => {}
        Call::SetAlias { .. } => {}
    }
}

/// The path of the object that the call is made on.
pub fn target_of(alloc: Global, call: &Call) -> Result<Text, OutOfMemory>
    requires { IsAskable call.now }
    ensures { IfOk result (λ path. path ≡ path_text (object_of call.now)) }
{
    object_has_path(call);
    let object = object_of(call)?;
    path_of(alloc, &object)
}

// The paths of the objects.
fn paths_of(alloc: Global, names: &[ObjectName]) -> Result<Items<Text>, OutOfMemory>
    requires { HavePaths names.now }
    ensures { IfOk result (λ paths. paths ≡ map path_text names.now) }
{
    let mut paths = Vec::with_capacity(alloc, names.len())?;
    for name in names {
        paths.push(path_of(alloc, name)?)?;
    }
    Ok(Items::new(paths))
}

// The path of an object that an alias gets.
fn path_of_object(alloc: Global, object: &Option<ObjectName>) -> Result<Text, OutOfMemory>
    requires { IfSome object.now HasPath }
    ensures { IfOk result (λ path. path ≡ object_text object.now) }
{
    match object {
        Some(object) => path_of(alloc, object),
        None => match Text::from_str(alloc, STRANGE)? {
            Some(path) => Ok(path),
            None => unreachable!(),
        },
    }
}

// The path of an object that an alias gets, as a list.
fn path_of_alias(alloc: Global, object: &Option<ObjectName>) -> Result<Items<Text>, OutOfMemory>
    requires { IfSome object.now HasPath }
    ensures { IfOk result (λ paths. paths ≡ object_text object.now ∷ []) }
{
    let path = path_of_object(alloc, object)?;
    let mut paths = Vec::with_capacity(alloc, 1)?;
    paths.push(path)?;
    Ok(Items::new(paths))
}

/// The paths of the objects among the call's arguments.
pub fn paths_among(alloc: Global, call: &Call) -> Result<Items<Text>, OutOfMemory>
    requires { IsAskable call.now }
    ensures { IfOk result (λ paths. paths ≡ paths_among call.now) }
{
    match call {
        Call::Unlock { objects } => paths_of(alloc, objects.as_slice()),
        Call::Lock { objects } => paths_of(alloc, objects.as_slice()),
        Call::GetSecrets { items, .. } => paths_of(alloc, items.as_slice()),
        Call::SetAlias { object, .. } => path_of_alias(alloc, object),
        Call::CloseSession { .. } => Ok(Items::empty(alloc)),
        Call::SearchCollection { .. } => Ok(Items::empty(alloc)),
        Call::CreateItem { .. } => Ok(Items::empty(alloc)),
        Call::DeleteCollection { .. } => Ok(Items::empty(alloc)),
        Call::ChangePassword { .. } => Ok(Items::empty(alloc)),
        Call::DeleteItem { .. } => Ok(Items::empty(alloc)),
        Call::GetSecret { .. } => Ok(Items::empty(alloc)),
        Call::SetSecret { .. } => Ok(Items::empty(alloc)),
        Call::Get { .. } => Ok(Items::empty(alloc)),
        Call::GetAll { .. } => Ok(Items::empty(alloc)),
        Call::SetCollectionLabel { .. } => Ok(Items::empty(alloc)),
        Call::SetItemLabel { .. } => Ok(Items::empty(alloc)),
        Call::SetAttributes { .. } => Ok(Items::empty(alloc)),
        Call::Prompt { .. } => Ok(Items::empty(alloc)),
        Call::Dismiss { .. } => Ok(Items::empty(alloc)),
        Call::Register => Ok(Items::empty(alloc)),
        Call::Unregister => Ok(Items::empty(alloc)),
        Call::Answer { .. } => Ok(Items::empty(alloc)),
        Call::Refuse { .. } => Ok(Items::empty(alloc)),
        Call::Ping => Ok(Items::empty(alloc)),
        Call::OpenSession { .. } => Ok(Items::empty(alloc)),
        Call::CreateCollection { .. } => Ok(Items::empty(alloc)),
        Call::SearchItems { .. } => Ok(Items::empty(alloc)),
        Call::ReadAlias { .. } => Ok(Items::empty(alloc)),
    }
}

// The interface and the name of the call's method.
fn method_of(call: &Call) -> (&'static str, &'static str)
    ensures interface { result.0.now ≡ interface_name (interface_of call.now) }
    ensures name { result.1.now ≡ method_name call.now }
{
    match call {
        Call::Ping => (PEER, "Ping"),
        Call::OpenSession { .. } => (SERVICE, "OpenSession"),
        Call::CloseSession { .. } => (SESSION, "Close"),
        Call::CreateCollection { .. } => (SERVICE, "CreateCollection"),
        Call::SearchItems { .. } => (SERVICE, "SearchItems"),
        Call::Unlock { .. } => (SERVICE, "Unlock"),
        Call::Lock { .. } => (SERVICE, "Lock"),
        Call::GetSecrets { .. } => (SERVICE, "GetSecrets"),
        Call::ReadAlias { .. } => (SERVICE, "ReadAlias"),
        Call::SetAlias { .. } => (SERVICE, "SetAlias"),
        Call::SearchCollection { .. } => (COLLECTION, "SearchItems"),
        Call::CreateItem { .. } => (COLLECTION, "CreateItem"),
        Call::DeleteCollection { .. } => (COLLECTION, "Delete"),
        Call::ChangePassword { .. } => (KEYRING, "ChangePassword"),
        Call::DeleteItem { .. } => (ITEM, "Delete"),
        Call::GetSecret { .. } => (ITEM, "GetSecret"),
        Call::SetSecret { .. } => (ITEM, "SetSecret"),
        Call::Get { .. } => (PROPERTIES, "Get"),
        Call::GetAll { .. } => (PROPERTIES, "GetAll"),
        Call::SetCollectionLabel { .. } => (PROPERTIES, "Set"),
        Call::SetItemLabel { .. } => (PROPERTIES, "Set"),
        Call::SetAttributes { .. } => (PROPERTIES, "Set"),
        Call::Prompt { .. } => (PROMPT, "Prompt"),
        Call::Dismiss { .. } => (PROMPT, "Dismiss"),
        Call::Register => (AGENT, "Register"),
        Call::Unregister => (AGENT, "Unregister"),
        Call::Answer { .. } => (AGENT, "Answer"),
        Call::Refuse { .. } => (AGENT, "Refuse"),
    }
}

/// The type METHOD_CALL (D-Bus Specification, "Message Format").
const METHOD_CALL: u8 = 1;

/// The header of the call on the object with this path. It wants a reply.
pub fn header_of<'a>(call: &Call, path: &'a Text, serial: u32) -> Header<'a>
    ensures { seen result ≡ header_with call.now path.now serial }
{
    let (interface, name) = method_of(call);
    Header {
        path: Some(path.as_str()),
        interface: Some(interface),
        member: Some(name),
        ..Header::bare(METHOD_CALL, 0, serial)
    }
}
