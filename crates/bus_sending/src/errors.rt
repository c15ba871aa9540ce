// The texts of errors (docs/SERVICE.md, "What is written on a message bus").
ghost use Rattle.std.specs.Prelude.{◌≡◌, ◌∷◌, ℕ, List, OnOk};
ghost use Rattle.dbus_marshal.specs.Putting.{puts};
ghost use Rattle.bus_sending.specs.ErrorTexts.{text_of};

use dbus_marshal::{Put, PutValues, put_text};
use secret_calls::ErrorName;

/// The text of an error. It isn't empty.
pub fn error_text(name: ErrorName) -> &'static str
    ensures { result.now ≡ text_of name }
{
    match name {
        ErrorName::NotSupported => "algorithm not supported",
        ErrorName::UnknownObject => "no such object",
        ErrorName::UnknownInterface => "no such interface",
        ErrorName::UnknownMethod => "no such method",
        ErrorName::UnknownProperty => "no such property",
        ErrorName::PropertyReadOnly => "property is read-only",
        ErrorName::InvalidArgs => "invalid arguments",
        ErrorName::LimitsExceeded => "limit exceeded",
        ErrorName::IOError => "file error",
        ErrorName::AccessDenied => "access denied",
        ErrorName::IsLocked => "collection is locked",
        ErrorName::NoSession => "no such session",
        ErrorName::NoSuchObject => "no such object",
        ErrorName::AgentTaken => "another agent is registered",
        ErrorName::OldRound => "not asked in this round",
    }
}

/// The body of an error: its text.
#[derive(Clone, Copy)]
pub struct ErrorBody {
    /// The name of the error.
    pub name: ErrorName,
}

impl PutValues for ErrorBody {
    ghost use Rattle.bus_sending.specs.ErrorTexts.{error_values};

    ghost values = { λ it. error_values it.name };

    fn put_to<P: Put>(&self, out: &mut P) -> Result<(), P::Refused> {
        put_text(out, error_text(self.name).as_bytes())
    }
}
