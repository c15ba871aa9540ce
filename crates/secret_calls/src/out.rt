ghost use Rattle.std.specs.Prelude.{◌≡◌, ℕ, List, [], Some, IfOk, OnOk};
ghost use Rattle.dbus_marshal.specs.Putting.{puts};
ghost use Rattle.dbus_sending.specs.HeaderViews.{seen};
ghost use Rattle.dbus_sending.specs.Sent.{bare_header};
ghost use Rattle.secret_calls.specs.Outs.{values_of, header_of, spelled};

use crate::Serial;
use crate::copies::{copied_properties, copied_secrets, copied_texts};
use crate::property::{PropertyValue, ShownProperty, put_properties, put_property};
use crate::returns::{
    put_found, put_object, put_object_and_prompt, put_objects, put_objects_and_prompt, put_secret,
    put_secrets, put_session,
};
use crate::secret::{ItemSecret, ReturnedSecret};
use crate::shared::SharedSignal;
use dbus_marshal::{Put, PutValues};
use dbus_sending::{Header, put_message};
use kr_base::{OutOfMemory, PromptId, SessionId, Text};
use kr_items::Items;
use std::alloc::Global;

/// The name of an error, from the D-Bus Specification, the Secret Service API or the agent's interface
/// (docs/SERVICE.md, "Interfaces").
#[derive(Clone, Copy, Debug, PartialEq, Eq)]
pub enum ErrorName {
    /// The algorithm of a session isn't supported.
    NotSupported,
    /// There is no object with the path.
    UnknownObject,
    /// The object has no such interface.
    UnknownInterface,
    /// The object has no such method.
    UnknownMethod,
    /// The interface has no such property.
    UnknownProperty,
    /// The property can't be set.
    PropertyReadOnly,
    /// The arguments are of other types.
    InvalidArgs,
    /// A limit of the service is reached.
    LimitsExceeded,
    /// A file can't be read, written or removed.
    IOError,
    /// Only the agent may make the call.
    AccessDenied,
    /// The collection is locked.
    IsLocked,
    /// The caller has no such session.
    NoSession,
    /// The object of a call doesn't exist.
    NoSuchObject,
    /// Another connection is the agent.
    AgentTaken,
    /// The prompt isn't asked in this round.
    OldRound,
}

impl ErrorName {
    ghost use Rattle.secret_calls.specs.Outs.{error_text};

    /// The name as it is sent.
    pub fn as_str(self) -> &'static str
        ensures { result.now ≡ error_text self }
    {
        match self {
            ErrorName::NotSupported => "org.freedesktop.DBus.Error.NotSupported",
            ErrorName::UnknownObject => "org.freedesktop.DBus.Error.UnknownObject",
            ErrorName::UnknownInterface => "org.freedesktop.DBus.Error.UnknownInterface",
            ErrorName::UnknownMethod => "org.freedesktop.DBus.Error.UnknownMethod",
            ErrorName::UnknownProperty => "org.freedesktop.DBus.Error.UnknownProperty",
            ErrorName::PropertyReadOnly => "org.freedesktop.DBus.Error.PropertyReadOnly",
            ErrorName::InvalidArgs => "org.freedesktop.DBus.Error.InvalidArgs",
            ErrorName::LimitsExceeded => "org.freedesktop.DBus.Error.LimitsExceeded",
            ErrorName::IOError => "org.freedesktop.DBus.Error.IOError",
            ErrorName::AccessDenied => "org.freedesktop.DBus.Error.AccessDenied",
            ErrorName::IsLocked => "org.freedesktop.Secret.Error.IsLocked",
            ErrorName::NoSession => "org.freedesktop.Secret.Error.NoSession",
            ErrorName::NoSuchObject => "org.freedesktop.Secret.Error.NoSuchObject",
            ErrorName::AgentTaken => "org.keyringd.Error.AgentTaken",
            ErrorName::OldRound => "org.keyringd.Error.OldRound",
        }
    }
}

/// The values of a method return, with one variant for each signature. Objects are returned as their
/// paths, and a prompt is None if none is needed, which is returned as `/`.
#[derive(PartialEq, Eq, Drop)]
pub enum Body {
    /// No values.
    Empty,
    /// Of OpenSession, `vo`: the output of `plain`, which is the empty text, and the session.
    Session(SessionId),
    /// Of Service.SearchItems, `aoao`.
    Found {
        /// The matching items in unlocked collections.
        unlocked: Items<Text>,
        /// The matching items in locked collections.
        locked: Items<Text>,
    },
    /// Of Lock and Unlock, `aoo`: the given objects whose collections are locked or unlocked, and the
    /// prompt.
    ObjectsAndPrompt {
        /// The objects.
        objects: Items<Text>,
        /// The prompt.
        prompt: Option<PromptId>,
    },
    /// Of Collection.SearchItems, `ao`: the matching items.
    Objects(Items<Text>),
    /// Of CreateItem and CreateCollection, `oo`: the item or the collection, and the prompt.
    ObjectAndPrompt {
        /// The object, or `/` if there is none before the prompt has completed.
        object: Text,
        /// The prompt.
        prompt: Option<PromptId>,
    },
    /// Of ReadAlias, `o`: the collection. Of Collection.Delete, Item.Delete and ChangePassword: the
    /// prompt.
    Object(Text),
    /// Of GetSecret, `(oayays)`.
    Secret(ReturnedSecret),
    /// Of GetSecrets, `a{o(oayays)}`: items with their secrets.
    Secrets(Items<ItemSecret>),
    /// Of Get, `v`: the value of a property.
    Property(PropertyValue),
    /// Of GetAll, `a{sv}`: properties with their values.
    Properties(Items<ShownProperty>),
}

impl Body {
    /// A copy of the body.
    pub fn copy(&self, alloc: Global) -> Result<Body, OutOfMemory>
        ensures { IfOk result (λ copied. copied ≡ self.now) }
    {
        match self {
            Body::Empty => Ok(Body::Empty),
            Body::Session(session) => Ok(Body::Session(*session)),
            Body::Found { unlocked, locked } => {
                let unlocked = copied_texts(alloc, unlocked.as_slice())?;
                let locked = copied_texts(alloc, locked.as_slice())?;
                Ok(Body::Found { unlocked, locked })
            }
            Body::ObjectsAndPrompt { objects, prompt } => {
                let objects = copied_texts(alloc, objects.as_slice())?;
                Ok(Body::ObjectsAndPrompt {
                    objects,
                    prompt: *prompt,
                })
            }
            Body::Objects(objects) => {
                let objects = copied_texts(alloc, objects.as_slice())?;
                Ok(Body::Objects(objects))
            }
            Body::ObjectAndPrompt { object, prompt } => {
                let object = object.copy()?;
                Ok(Body::ObjectAndPrompt {
                    object,
                    prompt: *prompt,
                })
            }
            Body::Object(object) => {
                let object = object.copy()?;
                Ok(Body::Object(object))
            }
            Body::Secret(secret) => {
                let secret = secret.copy()?;
                Ok(Body::Secret(secret))
            }
            Body::Secrets(secrets) => {
                let secrets = copied_secrets(alloc, secrets.as_slice())?;
                Ok(Body::Secrets(secrets))
            }
            Body::Property(value) => {
                let value = value.copy(alloc)?;
                Ok(Body::Property(value))
            }
            Body::Properties(properties) => {
                let properties = copied_properties(alloc, properties.as_slice())?;
                Ok(Body::Properties(properties))
            }
        }
    }
}

impl Body {
    ghost use Rattle.dbus_types.specs.Types.{texts_of};
    ghost use Rattle.dbus_types.specs.Values.{tys_of};

    /// The signature of the values.
    pub fn signature(&self) -> &'static str
        ensures { result.now ≡ texts_of (tys_of (values_of self.now)) }
    {
        match self {
            Body::Empty => "",
            Body::Session(_) => "vo",
            Body::Found {
                unlocked: _,
                locked: _,
            } => "aoao",
            Body::ObjectsAndPrompt { .. } => "aoo",
            Body::Objects(_) => "ao",
            Body::ObjectAndPrompt { .. } => "oo",
            Body::Object(_) => "o",
            Body::Secret(_) => "(oayays)",
            Body::Secrets(_) => "a{o(oayays)}",
            Body::Property(_) => "v",
            Body::Properties(_) => "a{sv}",
        }
    }
}

impl PutValues for Body {
    ghost use Rattle.secret_calls.specs.Outs.{values_of};

    ghost values = { λ body. values_of body };

    fn put_to<P: Put>(&self, out: &mut P) -> Result<(), P::Refused> {
        match self {
            Body::Empty => Ok(()),
            Body::Session(session) => put_session(out, *session),
            Body::Found { unlocked, locked } => {
                put_found(out, unlocked.as_slice(), locked.as_slice())
            }
            Body::ObjectsAndPrompt { objects, prompt } => {
                put_objects_and_prompt(out, objects.as_slice(), *prompt)
            }
            Body::Objects(objects) => put_objects(out, objects.as_slice()),
            Body::ObjectAndPrompt { object, prompt } => {
                put_object_and_prompt(out, object, *prompt)
            }
            Body::Object(object) => put_object(out, object),
            Body::Secret(secret) => put_secret(out, secret),
            Body::Secrets(secrets) => put_secrets(out, secrets.as_slice()),
            Body::Property(value) => put_property(out, value),
            Body::Properties(properties) => put_properties(out, properties.as_slice()),
        }
    }
}

/// The types METHOD_RETURN and ERROR, and the flag that messages of both types are sent with (D-Bus
/// Specification, "Message Format").
const METHOD_RETURN: u8 = 2;

const ERROR: u8 = 3;

const NO_REPLY_EXPECTED: u8 = 1;

// The header of a method return with this serial.
fn return_header(to: Serial, serial: u32) -> Header<'static>
    ensures { seen result ≡ record (bare_header 2 1 serial) { reply_serial = Some to.number } }
{
    Header {
        reply_serial: Some(to.number),
        ..Header::bare(METHOD_RETURN, NO_REPLY_EXPECTED, serial)
    }
}

// The header of an error with this serial.
fn error_header(to: Serial, name: ErrorName, serial: u32) -> Header<'static>
    ensures { seen result ≡ header_of (Out.Error to name) serial }
{
    Header {
        error_name: Some(name.as_str()),
        reply_serial: Some(to.number),
        ..Header::bare(ERROR, NO_REPLY_EXPECTED, serial)
    }
}

/// A message that the service sends, without its serial.
#[derive(PartialEq, Eq, Drop)]
pub enum Out {
    /// A method return.
    Return {
        /// The serial of the call that it answers.
        to: Serial,
        /// Its values.
        body: Body,
    },
    /// An error. It has no body.
    Error {
        /// The serial of the call that it answers.
        to: Serial,
        /// Its name.
        name: ErrorName,
    },
    /// A signal.
    Signal(SharedSignal),
}

impl Out {
    /// A copy of the output. One of a signal shares the signal, and takes no memory.
    pub fn copy(&self, alloc: Global) -> Result<Out, OutOfMemory>
        ensures { IfOk result (λ copied. copied ≡ self.now) }
    {
        match self {
            Out::Return { to, body } => {
                let body = body.copy(alloc)?;
                Ok(Out::Return { to: *to, body })
            }
            Out::Error { to, name } => Ok(Out::Error {
                to: *to,
                name: *name,
            }),
            Out::Signal(signal) => {
                let signal = signal.share()?;
                Ok(Out::Signal(signal))
            }
        }
    }

    /// Writes the output's message with this serial to a writer that is still empty: with the flag
    /// NO_REPLY_EXPECTED, header fields in the order of their codes, and SIGNATURE only if there is a
    /// body (D-Bus Specification, "Message Format").
    pub fn put<P: Put>(&self, serial: u32, out: &mut P) -> Result<(), P::Refused>
        ensures { P.stands out.old [] → OnOk result (P.stands out.new (spelled self.now serial)) }
    {
        match self {
            Out::Return { to, body } => {
                let header = return_header(*to, serial);
                put_message(out, &header, body.signature(), body)
            }
            Out::Error { to, name } => {
                let header = error_header(*to, *name, serial);
                put_message(out, &header, "", &Body::Empty)
            }
            Out::Signal(signal) => signal.signal().put(serial, out),
        }
    }
}
