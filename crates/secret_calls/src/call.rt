ghost use Rattle.std.specs.Prelude.{◌≡◌};

use crate::alias::AliasName;
use crate::property::Property;
use crate::secret::Secret;
use crate::{ErrorName, Serial};
use kr_base::{Attributes, Bytes, ItemId, PromptId, SessionId, Stem, Text};
use kr_items::Items;
use kr_names::ObjectName;

/// A call of the service, with what its arguments mean. The object that a call is made on is an argument
/// too, and need not exist. A list of objects has all paths in the order given, and `ObjectName::Nothing`
/// for a path that isn't one of the service. A session or a prompt is None if the path given isn't that of
/// one.
#[derive(Drop)]
pub enum Call {
    /// `org.freedesktop.DBus.Peer.Ping`, on any object.
    Ping,
    /// `Service.OpenSession`. Its second argument isn't kept: `plain` has no use for it.
    OpenSession {
        /// The algorithm for the transfer of secrets.
        algorithm: Text,
    },
    /// `Session.Close`.
    CloseSession {
        /// The session that the call is made on.
        session: SessionId,
    },
    /// `Service.CreateCollection`.
    CreateCollection {
        /// The label, which is empty if none is given.
        label: Text,
        /// The alias that the collection gets, if one is given.
        alias: Option<AliasName>,
    },
    /// `Service.SearchItems`.
    SearchItems {
        /// The attributes to search for.
        wanted: Attributes,
    },
    /// `Service.Unlock`.
    Unlock {
        /// The objects to unlock.
        objects: Items<ObjectName>,
    },
    /// `Service.Lock`.
    Lock {
        /// The objects to lock.
        objects: Items<ObjectName>,
    },
    /// `Service.GetSecrets`.
    GetSecrets {
        /// The items.
        items: Items<ObjectName>,
        /// The session to encode the secrets with.
        session: Option<SessionId>,
    },
    /// `Service.ReadAlias`.
    ReadAlias {
        /// The name, which need not be that of an alias.
        name: Text,
    },
    /// `Service.SetAlias`.
    SetAlias {
        /// The alias.
        alias: AliasName,
        /// The object that it gets, or `ObjectName::Nothing` if it is to be removed. None if the path
        /// isn't one of the service.
        object: Option<ObjectName>,
    },
    /// `Collection.SearchItems`.
    SearchCollection {
        /// The collection, or an alias that names it.
        collection: ObjectName,
        /// The attributes to search for.
        wanted: Attributes,
    },
    /// `Collection.CreateItem`.
    CreateItem {
        /// The collection, or an alias that names it.
        collection: ObjectName,
        /// The label, which is empty if none is given.
        label: Text,
        /// The attributes, which are empty if none are given.
        attributes: Attributes,
        /// The secret.
        secret: Secret,
        /// Whether to replace an item with these attributes.
        replace: bool,
    },
    /// `Collection.Delete`.
    DeleteCollection {
        /// The collection, or an alias that names it.
        collection: ObjectName,
    },
    /// `Keyring1.ChangePassword`.
    ChangePassword {
        /// The collection, or an alias that names it.
        collection: ObjectName,
    },
    /// `Item.Delete`.
    DeleteItem {
        /// The stem of the item's collection.
        stem: Stem,
        /// The item's number.
        item: ItemId,
    },
    /// `Item.GetSecret`.
    GetSecret {
        /// The stem of the item's collection.
        stem: Stem,
        /// The item's number.
        item: ItemId,
        /// The session to encode the secret with.
        session: Option<SessionId>,
    },
    /// `Item.SetSecret`.
    SetSecret {
        /// The stem of the item's collection.
        stem: Stem,
        /// The item's number.
        item: ItemId,
        /// The new secret.
        secret: Secret,
    },
    /// `Properties.Get`, of a property that the object's kind has.
    Get {
        /// The object that the call is made on.
        object: ObjectName,
        /// The property.
        property: Property,
    },
    /// `Properties.GetAll`.
    GetAll {
        /// The object that the call is made on.
        object: ObjectName,
        /// The properties of the interface that the call names, in order.
        properties: Items<Property>,
    },
    /// `Properties.Set` of the label of a collection.
    SetCollectionLabel {
        /// The collection, or an alias that names it.
        collection: ObjectName,
        /// The new label.
        label: Text,
    },
    /// `Properties.Set` of the label of an item.
    SetItemLabel {
        /// The stem of the item's collection.
        stem: Stem,
        /// The item's number.
        item: ItemId,
        /// The new label.
        label: Text,
    },
    /// `Properties.Set` of the attributes of an item.
    SetAttributes {
        /// The stem of the item's collection.
        stem: Stem,
        /// The item's number.
        item: ItemId,
        /// The new attributes.
        attributes: Attributes,
    },
    /// `Prompt.Prompt`. Its argument isn't kept: the agent needs no window of the caller.
    Prompt {
        /// The prompt that the call is made on.
        prompt: PromptId,
    },
    /// `Prompt.Dismiss`.
    Dismiss {
        /// The prompt that the call is made on.
        prompt: PromptId,
    },
    /// `Agent1.Register`: the caller becomes the agent.
    Register,
    /// `Agent1.Unregister`: the caller no longer is the agent.
    Unregister,
    /// `Agent1.Answer`.
    Answer {
        /// The prompt that is answered.
        prompt: Option<PromptId>,
        /// The round in which it was asked.
        round: u64,
        /// The password.
        password: Bytes,
    },
    /// `Agent1.Refuse`.
    Refuse {
        /// The prompt that is refused.
        prompt: Option<PromptId>,
        /// The round in which it was asked.
        round: u64,
    },
}

/// Why a message isn't a call of the service.
#[derive(Clone, Copy, Debug, PartialEq, Eq)]
pub enum CallFault {
    /// There is no object with its path.
    UnknownObject,
    /// The object has no such interface.
    UnknownInterface,
    /// The object has no such method.
    UnknownMethod,
    /// The interface has no such property.
    UnknownProperty,
    /// The property can't be set.
    PropertyReadOnly,
    /// The arguments have the wrong types.
    InvalidArgs,
}

impl CallFault {
    ghost use Rattle.secret_calls.specs.Calls.{error_of};

    /// The error that answers a call with this fault.
    pub fn error(self) -> ErrorName
        ensures { result ≡ error_of self }
    {
        match self {
            CallFault::UnknownObject => ErrorName::UnknownObject,
            CallFault::UnknownInterface => ErrorName::UnknownInterface,
            CallFault::UnknownMethod => ErrorName::UnknownMethod,
            CallFault::UnknownProperty => ErrorName::UnknownProperty,
            CallFault::PropertyReadOnly => ErrorName::PropertyReadOnly,
            CallFault::InvalidArgs => ErrorName::InvalidArgs,
        }
    }
}

/// A method call that was received.
#[derive(Drop)]
pub struct Request {
    /// The serial of its message.
    pub serial: Serial,
    /// Whether the caller wants a reply.
    pub wants_reply: bool,
    /// The number of bytes of its message.
    pub length: u32,
    /// The call, or why the message isn't one.
    pub call: Result<Call, CallFault>,
}
