// The members that are implemented, as one table (docs/SERVICE.md, "Interfaces"): a call is looked up here, and
// its arguments are read by the method of its row.
ghost use Rattle.std.specs.Prelude.{◌≡◌, IfOk, map, option_map};
ghost use Rattle.std.specs.List.{find};
ghost use Rattle.dbus_types.specs.ValueViews.{values_of};
ghost use Rattle.call_wire.specs.Members.{seen, members, says, is_called, member_in, call_with};

use crate::interfaces::{Interface, is_meant};
use crate::{OutOfMemory, agent, collection, item, keyring, prompt, properties, service, session};
use dbus_types::Value;
use kr_base::Text;
use kr_names::ObjectName;
use secret_calls::{Call, CallFault};
use std::alloc::Global;

/// A method, which reads the arguments of its calls.
#[derive(Clone, Copy, PartialEq, Eq)]
pub enum Method {
    /// `Service.OpenSession`.
    OpenSession,
    /// `Service.CreateCollection`.
    CreateCollection,
    /// `Service.SearchItems`.
    SearchItems,
    /// `Service.Unlock`.
    Unlock,
    /// `Service.Lock`.
    Lock,
    /// `Service.GetSecrets`.
    GetSecrets,
    /// `Service.ReadAlias`.
    ReadAlias,
    /// `Service.SetAlias`.
    SetAlias,
    /// `Collection.SearchItems`.
    SearchCollection,
    /// `Collection.CreateItem`.
    CreateItem,
    /// `Collection.Delete`.
    DeleteCollection,
    /// `Keyring1.ChangePassword`.
    ChangePassword,
    /// `Item.Delete`.
    DeleteItem,
    /// `Item.GetSecret`.
    GetSecret,
    /// `Item.SetSecret`.
    SetSecret,
    /// `Session.Close`.
    CloseSession,
    /// `Prompt.Prompt`.
    Prompt,
    /// `Prompt.Dismiss`.
    Dismiss,
    /// `Agent1.Register`.
    Register,
    /// `Agent1.Unregister`.
    Unregister,
    /// `Agent1.Answer`.
    Answer,
    /// `Agent1.Refuse`.
    Refuse,
    /// `Properties.Get`.
    Get,
    /// `Properties.GetAll`.
    GetAll,
    /// `Properties.Set`.
    Set,
    /// `Peer.Ping`.
    Ping,
}

/// A row of the table of members.
#[derive(Clone, Copy)]
pub struct Row {
    /// The interface that has the member.
    pub interface: Interface,
    /// The member's name.
    pub name: &'static str,
    /// The signature of its arguments.
    pub arguments: &'static str,
    /// The method that reads them.
    pub method: Method,
}

// The rows of one interface are next to each other, and the interfaces that every object has come last.
const MEMBERS: &[Row] = &[
    Row {
        interface: Interface::Service,
        name: "OpenSession",
        arguments: "sv",
        method: Method::OpenSession,
    },
    Row {
        interface: Interface::Service,
        name: "CreateCollection",
        arguments: "a{sv}s",
        method: Method::CreateCollection,
    },
    Row {
        interface: Interface::Service,
        name: "SearchItems",
        arguments: "a{ss}",
        method: Method::SearchItems,
    },
    Row {
        interface: Interface::Service,
        name: "Unlock",
        arguments: "ao",
        method: Method::Unlock,
    },
    Row {
        interface: Interface::Service,
        name: "Lock",
        arguments: "ao",
        method: Method::Lock,
    },
    Row {
        interface: Interface::Service,
        name: "GetSecrets",
        arguments: "aoo",
        method: Method::GetSecrets,
    },
    Row {
        interface: Interface::Service,
        name: "ReadAlias",
        arguments: "s",
        method: Method::ReadAlias,
    },
    Row {
        interface: Interface::Service,
        name: "SetAlias",
        arguments: "so",
        method: Method::SetAlias,
    },
    Row {
        interface: Interface::Collection,
        name: "SearchItems",
        arguments: "a{ss}",
        method: Method::SearchCollection,
    },
    Row {
        interface: Interface::Collection,
        name: "CreateItem",
        arguments: "a{sv}(oayays)b",
        method: Method::CreateItem,
    },
    Row {
        interface: Interface::Collection,
        name: "Delete",
        arguments: "",
        method: Method::DeleteCollection,
    },
    Row {
        interface: Interface::Keyring,
        name: "ChangePassword",
        arguments: "",
        method: Method::ChangePassword,
    },
    Row {
        interface: Interface::Item,
        name: "Delete",
        arguments: "",
        method: Method::DeleteItem,
    },
    Row {
        interface: Interface::Item,
        name: "GetSecret",
        arguments: "o",
        method: Method::GetSecret,
    },
    Row {
        interface: Interface::Item,
        name: "SetSecret",
        arguments: "(oayays)",
        method: Method::SetSecret,
    },
    Row {
        interface: Interface::Session,
        name: "Close",
        arguments: "",
        method: Method::CloseSession,
    },
    Row {
        interface: Interface::Prompt,
        name: "Prompt",
        arguments: "s",
        method: Method::Prompt,
    },
    Row {
        interface: Interface::Prompt,
        name: "Dismiss",
        arguments: "",
        method: Method::Dismiss,
    },
    Row {
        interface: Interface::Agent,
        name: "Register",
        arguments: "",
        method: Method::Register,
    },
    Row {
        interface: Interface::Agent,
        name: "Unregister",
        arguments: "",
        method: Method::Unregister,
    },
    Row {
        interface: Interface::Agent,
        name: "Answer",
        arguments: "otay",
        method: Method::Answer,
    },
    Row {
        interface: Interface::Agent,
        name: "Refuse",
        arguments: "ot",
        method: Method::Refuse,
    },
    Row {
        interface: Interface::Properties,
        name: "Get",
        arguments: "ss",
        method: Method::Get,
    },
    Row {
        interface: Interface::Properties,
        name: "GetAll",
        arguments: "s",
        method: Method::GetAll,
    },
    Row {
        interface: Interface::Properties,
        name: "Set",
        arguments: "ssv",
        method: Method::Set,
    },
    Row {
        interface: Interface::Peer,
        name: "Ping",
        arguments: "",
        method: Method::Ping,
    },
];

#[tactic(auto, unfolding(crate::specs::Members::members))]
fn members() -> &'static [Row]
    ensures { map seen result.now ≡ members }
{
    MEMBERS
}

fn has_name(member: &Option<Text>, name: &str) -> bool
    ensures { result ≡ says member.now name.now }
{
    match member {
        Some(member) => member.as_str() == name,
        None => false,
    }
}

fn is_called(
    object: &Option<ObjectName>,
    interface: &Option<Text>,
    member: &Option<Text>,
    row: &Row,
) -> bool
    ensures { result ≡ is_called object.now interface.now member.now (seen row.now) }
{
    row.interface.is_on(object) && is_meant(interface, row.interface) && has_name(member, row.name)
}

fn first_called(
    rows: &[Row],
    object: &Option<ObjectName>,
    interface: &Option<Text>,
    member: &Option<Text>,
) -> Option<Row>
    ensures { option_map seen result
        ≡ find (is_called object.now interface.now member.now) (map seen rows.now) }
{
    for row in rows {
        if is_called(object, interface, member, row) {
            return Some(*row);
        }
    }
    None
}

/// The member that a call on the object means if it names this interface, or none, and this member.
pub fn member_called(
    object: &Option<ObjectName>,
    interface: &Option<Text>,
    member: &Option<Text>,
) -> Option<Row>
    ensures { option_map seen result ≡ member_in object.now interface.now member.now }
{
    first_called(members(), object, interface, member)
}

/// The call of a method on the object with these values, or the fault that they have.
pub fn call_with(
    alloc: Global,
    method: Method,
    object: &Option<ObjectName>,
    values: &[Value],
) -> Result<Result<Call, CallFault>, OutOfMemory>
    ensures { IfOk result (λ call. call ≡ call_with method object.now (values_of values.now)) }
{
    match method {
        Method::OpenSession => service::open_session(values),
        Method::CreateCollection => service::create_collection(alloc, values),
        Method::SearchItems => service::search_items(alloc, values),
        Method::Unlock => service::unlock(alloc, values),
        Method::Lock => service::lock(alloc, values),
        Method::GetSecrets => service::get_secrets(alloc, values),
        Method::ReadAlias => service::read_alias(values),
        Method::SetAlias => service::set_alias(alloc, values),
        Method::SearchCollection => collection::search_items(alloc, object, values),
        Method::CreateItem => collection::create_item(alloc, object, values),
        Method::DeleteCollection => collection::delete(object, values),
        Method::ChangePassword => keyring::change_password(object, values),
        Method::DeleteItem => item::delete(object, values),
        Method::GetSecret => item::get_secret(alloc, object, values),
        Method::SetSecret => item::set_secret(alloc, object, values),
        Method::CloseSession => Ok(session::close(object, values)),
        Method::Prompt => Ok(prompt::prompt(object, values)),
        Method::Dismiss => Ok(prompt::dismiss(object, values)),
        Method::Register => Ok(Ok(Call::Register)),
        Method::Unregister => Ok(Ok(Call::Unregister)),
        Method::Answer => agent::answer(alloc, values),
        Method::Refuse => agent::refuse(alloc, values),
        Method::Get => properties::get(object, values),
        Method::GetAll => properties::get_all(alloc, object, values),
        Method::Set => properties::set(alloc, object, values),
        Method::Ping => Ok(Ok(Call::Ping)),
    }
}
