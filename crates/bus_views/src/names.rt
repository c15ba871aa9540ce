// The names of the bus.
ghost use Rattle.std.specs.Prelude.{◌≡◌};
ghost use Rattle.sender_board.specs.Hear.{bus};
ghost use Rattle.bus_views.specs.Views.{bus_path, is_text, lost, owner_changed};

use kr_base::Text;

/// The name that the bus itself has as a sender, and its interface.
const BUS: &str = "org.freedesktop.DBus";

/// The object of the bus.
const BUS_PATH: &str = "/org/freedesktop/DBus";

/// Its signal that a name has another owner.
const OWNER_CHANGED: &str = "NameOwnerChanged";

/// Its signal that the link has lost a name.
const LOST: &str = "NameLost";

// Whether the field has this text.
fn is(field: &Option<Text>, text: &str) -> bool
    ensures { result ≡ is_text field.now text.now }
{
    match field {
        Some(it) => it.as_str() == text,
        None => false,
    }
}

/// Whether the field is the name of the bus.
#[tactic(auto, unfolding(sender_board::specs::Hear::bus))]
pub fn is_bus(field: &Option<Text>) -> bool
    ensures { result ≡ is_text field.now bus }
{
    is(field, BUS)
}

/// Whether the field is the path of the bus.
#[tactic(auto, unfolding(crate::specs::Views::bus_path))]
pub fn is_bus_path(field: &Option<Text>) -> bool
    ensures { result ≡ is_text field.now bus_path }
{
    is(field, BUS_PATH)
}

/// Whether the field is NameOwnerChanged.
#[tactic(auto, unfolding(crate::specs::Views::owner_changed))]
pub fn is_owner_changed(field: &Option<Text>) -> bool
    ensures { result ≡ is_text field.now owner_changed }
{
    is(field, OWNER_CHANGED)
}

/// Whether the field is NameLost.
#[tactic(auto, unfolding(crate::specs::Views::lost))]
pub fn is_lost(field: &Option<Text>) -> bool
    ensures { result ≡ is_text field.now lost }
{
    is(field, LOST)
}
