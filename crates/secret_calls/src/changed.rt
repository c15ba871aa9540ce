// Which properties changed, and of which object (D-Bus Specification, "Standard Interfaces",
// "org.freedesktop.DBus.Properties").
ghost use Rattle.std.specs.Prelude.{◌≡◌, ℕ, List, OnOk};
ghost use Rattle.dbus_types.specs.declared.complete_type.BasicType.TheVariants as basics;
ghost use Rattle.dbus_marshal.specs.Putting.{put, puts};
ghost use Rattle.secret_calls.specs.declared.signal.Signal.{Signal};
ghost use Rattle.secret_calls.specs.Outs.{changed_path, changed_interface, names_value, signal_values};

use crate::property::{Property, ShownProperty, put_properties};
use dbus_marshal::{Put, PutValues, put_array, put_text};
use kr_base::Text;

/// The path of the service.
pub const SERVICE: &str = "/org/freedesktop/secrets";

/// The interface of the service, which has properties.
pub const SERVICE_INTERFACE: &str = "org.freedesktop.Secret.Service";

/// The interface of a collection, which has properties.
pub const COLLECTION_INTERFACE: &str = "org.freedesktop.Secret.Collection";

/// The interface of an item, which has properties.
pub const ITEM_INTERFACE: &str = "org.freedesktop.Secret.Item";

/// An object whose properties changed.
#[derive(PartialEq, Eq, Drop)]
pub enum ChangedObject {
    /// The service.
    Service,
    /// The collection with this path.
    Collection(Text),
    /// The item with this path.
    Item(Text),
}

impl ChangedObject {
    /// Its path.
    pub fn path(&self) -> &str
        ensures { result.now ≡ changed_path self.now }
    {
        match self {
            ChangedObject::Service => SERVICE,
            ChangedObject::Collection(collection) => collection.as_str(),
            ChangedObject::Item(item) => item.as_str(),
        }
    }

    /// The interface that has the properties.
    pub fn interface(&self) -> &'static str
        ensures { result.now ≡ changed_interface self.now }
    {
        match self {
            ChangedObject::Service => SERVICE_INTERFACE,
            ChangedObject::Collection(_) => COLLECTION_INTERFACE,
            ChangedObject::Item(_) => ITEM_INTERFACE,
        }
    }
}

// The names of properties, as the elements of an array.
#[derive(Clone, Copy)]
struct Names<'a> {
    names: &'a [Property],
}

impl PutValues for Names<'_> {
    ghost use Rattle.secret_calls.specs.Outs.{name_values};

    ghost values = { λ it. name_values it.names.now };

    fn put_to<P: Put>(&self, out: &mut P) -> Result<(), P::Refused> {
        for name in self.names {
            put_text(out, name.as_str().as_bytes())?;
        }
        Ok(())
    }
}

// Writes an array of the names of properties.
fn put_names<P: Put>(out: &mut P, names: &[Property]) -> Result<(), P::Refused>
    ensures { (before : List ℕ) → P.stands out.old before
        → OnOk result (P.stands out.new (put before (names_value names.now))) }
{
    put_array(out, 4, &Names { names })
}

/// Writes the values of PropertiesChanged.
pub fn put_properties_changed<P: Put>(
    out: &mut P,
    object: &ChangedObject,
    changed: &[ShownProperty],
    invalidated: &[Property],
) -> Result<(), P::Refused>
    ensures { (before : List ℕ) → P.stands out.old before → OnOk result (P.stands out.new
        (puts before (signal_values
        (Signal.PropertiesChanged object.now changed.now invalidated.now)))) }
{
    put_text(out, object.interface().as_bytes())?;
    put_properties(out, changed)?;
    put_names(out, invalidated)
}
