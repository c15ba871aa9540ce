// The interfaces, and which objects have them (docs/SERVICE.md, "Interfaces").
ghost use Rattle.std.specs.Prelude.{◌≡◌, Some};
ghost use Rattle.std.specs.List.{filter, find};
ghost use Rattle.call_wire.specs.Interfaces.{interface_name, interfaces, is_on, means, interface_named};

use crate::{agent, collection, item, keyring, peer, prompt, properties, service, session};
use kr_base::Text;
use kr_names::ObjectName;

/// An interface with a member that is implemented.
#[derive(Clone, Copy, PartialEq, Eq)]
pub enum Interface {
    /// `org.freedesktop.Secret.Service`.
    Service,
    /// `org.freedesktop.Secret.Collection`.
    Collection,
    /// `org.keyringd.Keyring1`.
    Keyring,
    /// `org.freedesktop.Secret.Item`.
    Item,
    /// `org.freedesktop.Secret.Session`.
    Session,
    /// `org.freedesktop.Secret.Prompt`.
    Prompt,
    /// `org.keyringd.Agent1`.
    Agent,
    /// `org.freedesktop.DBus.Properties`.
    Properties,
    /// `org.freedesktop.DBus.Peer`.
    Peer,
}

// The interfaces, in the order in which a member is looked for.
const INTERFACES: &[Interface] = &[
    Interface::Service,
    Interface::Collection,
    Interface::Keyring,
    Interface::Item,
    Interface::Session,
    Interface::Prompt,
    Interface::Agent,
    Interface::Properties,
    Interface::Peer,
];

#[tactic(auto, unfolding(crate::specs::Interfaces::interfaces))]
fn interfaces() -> &'static [Interface]
    ensures { result.now ≡ interfaces }
{
    INTERFACES
}

impl Interface {
    /// The name of the interface.
    fn name(self) -> &'static str
        ensures { result.now ≡ interface_name self }
    {
        match self {
            Interface::Service => service::INTERFACE,
            Interface::Collection => collection::INTERFACE,
            Interface::Keyring => keyring::INTERFACE,
            Interface::Item => item::INTERFACE,
            Interface::Session => session::INTERFACE,
            Interface::Prompt => prompt::INTERFACE,
            Interface::Agent => agent::INTERFACE,
            Interface::Properties => properties::INTERFACE,
            Interface::Peer => peer::INTERFACE,
        }
    }

    /// Whether the object has the interface.
    pub fn is_on(self, object: &Option<ObjectName>) -> bool
        ensures { result ≡ is_on self object.now }
    {
        match (self, object) {
            (Interface::Service, Some(ObjectName::Service)) => true,
            (Interface::Collection, Some(ObjectName::Collection(_))) => true,
            (Interface::Collection, Some(ObjectName::Alias(_))) => true,
            (Interface::Keyring, Some(ObjectName::Collection(_))) => true,
            (Interface::Keyring, Some(ObjectName::Alias(_))) => true,
            (Interface::Item, Some(ObjectName::Item(_, _))) => true,
            (Interface::Session, Some(ObjectName::Session(_))) => true,
            (Interface::Prompt, Some(ObjectName::Prompt(_))) => true,
            (Interface::Agent, Some(ObjectName::Agent)) => true,
            (Interface::Properties, Some(ObjectName::Nothing)) => false,
            (Interface::Properties, Some(_)) => true,
            (Interface::Peer, _) => true,
            _ => false,
        }
    }
}

/// Whether a call that names this interface, or no interface, means `interface`.
pub fn is_meant(named: &Option<Text>, interface: Interface) -> bool
    ensures { result ≡ means named.now interface }
{
    match named {
        Some(name) => name.as_str() == interface.name(),
        None => true,
    }
}

fn has_name(interface: Interface, name: &Text) -> bool
    ensures { result ≡ means (Some name.now) interface }
{
    name.as_str() == interface.name()
}

fn first_named(
    interfaces: &[Interface],
    object: &Option<ObjectName>,
    name: &Text,
) -> Option<Interface>
    ensures { result
        ≡ find (means (Some name.now)) (filter (λ it. is_on it object.now) interfaces.now) }
{
    for interface in interfaces {
        if interface.is_on(object) && has_name(*interface, name) {
            return Some(*interface);
        }
    }
    None
}

/// The interface of this name, if the object has it.
pub fn interface_named(object: &Option<ObjectName>, name: &Text) -> Option<Interface>
    ensures { result ≡ interface_named object.now name.now }
{
    first_named(interfaces(), object, name)
}
