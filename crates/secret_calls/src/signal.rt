// The signals of the service (docs/SERVICE.md, "Signals").
ghost use Rattle.std.specs.Prelude.{◌≡◌, ℕ, List, [], Some, OnOk};
ghost use Rattle.dbus_types.specs.declared.complete_type.BasicType.TheVariants as basics;
ghost use Rattle.dbus_types.specs.Types.{texts_of};
ghost use Rattle.dbus_types.specs.ValueViews.{bit_of};
ghost use Rattle.dbus_types.specs.Values.{Val, tys_of};
ghost use Rattle.dbus_marshal.specs.Putting.{put, puts};
ghost use Rattle.dbus_sending.specs.HeaderViews.{seen};
ghost use Rattle.dbus_sending.specs.Sent.{bare_header};
ghost use Rattle.secret_calls.specs.declared.out.Out.TheVariants as outs;
ghost use Rattle.secret_calls.specs.Outs.{completion_value, signal_values, prompt_path, spelled};

use crate::changed::{
    COLLECTION_INTERFACE, ChangedObject, SERVICE, SERVICE_INTERFACE, put_properties_changed,
};
use crate::property::{Property, ShownProperty};
use crate::returns::{PROMPTS, put_paths, put_prompt_path, put_truth};
use arrayvec::ArrayString;
use dbus_marshal::{Put, PutValues, put_path, put_signature, put_text, put_u32, put_u64};
use dbus_sending::{Header, put_message};
use itoa::Buffer;
use kr_base::{PromptId, Text};
use kr_items::Items;

/// What a password is asked for.
#[derive(Clone, Copy, Debug, PartialEq, Eq)]
pub enum AskKind {
    /// To unlock a collection.
    Unlock,
    /// To create a collection.
    Create,
    /// To change the password of a collection.
    Change,
}

impl AskKind {
    ghost use Rattle.secret_calls.specs.Outs.{kind_text};

    /// The word that Ask contains.
    pub fn as_str(self) -> &'static str
        ensures { result.now ≡ kind_text self }
    {
        match self {
            AskKind::Unlock => "unlock",
            AskKind::Create => "create",
            AskKind::Change => "change",
        }
    }
}

/// What a prompt completes with, as the paths of objects.
#[derive(PartialEq, Eq, Drop)]
pub enum Completion {
    /// Of a prompt that unlocks, `ao`: the given objects that it unlocked.
    Objects(Items<Text>),
    /// Of a prompt that creates a collection or changes its password, `o`: the collection, or `/` if
    /// the prompt was dismissed.
    Object(Text),
}

/// A signal. Ask and Completed go to one connection alone, and the others to everyone.
#[derive(PartialEq, Eq, Drop)]
pub enum Signal {
    /// `Agent1.Ask`, `otssu`, to the agent: it is asked for a password.
    Ask {
        /// The prompt.
        prompt: PromptId,
        /// The round in which an answer counts.
        round: u64,
        /// What the password is for.
        kind: AskKind,
        /// The label of the collection. See `shown_label`.
        label: Text,
        /// How many answers were wrong.
        wrong: u32,
    },
    /// `Prompt.Completed`, `bv`, to the owner of the prompt: the prompt has ended.
    Completed {
        /// The prompt, which emits the signal.
        prompt: PromptId,
        /// Whether it was dismissed.
        dismissed: bool,
        /// What it completes with.
        completion: Completion,
    },
    /// `Service.CollectionCreated`, `o`, from the service: there is a new collection.
    CollectionCreated {
        /// The path of the collection.
        collection: Text,
    },
    /// `Service.CollectionDeleted`, `o`, from the service: the collection is gone.
    CollectionDeleted {
        /// The path of the collection.
        collection: Text,
    },
    /// `Service.CollectionChanged`, `o`, from the service: the collection was locked, unlocked or
    /// named anew.
    CollectionChanged {
        /// The path of the collection.
        collection: Text,
    },
    /// `Collection.ItemCreated`, `o`, from the collection: it has a new item.
    ItemCreated {
        /// The path of the collection, which emits the signal.
        collection: Text,
        /// The path of the item.
        item: Text,
    },
    /// `Collection.ItemDeleted`, `o`, from the collection: the item is gone.
    ItemDeleted {
        /// The path of the collection, which emits the signal.
        collection: Text,
        /// The path of the item.
        item: Text,
    },
    /// `Collection.ItemChanged`, `o`, from the collection: the item's secret, label or attributes
    /// changed.
    ItemChanged {
        /// The path of the collection, which emits the signal.
        collection: Text,
        /// The path of the item.
        item: Text,
    },
    /// `Properties.PropertiesChanged`, `sa{sv}as`, from the object: its properties changed.
    PropertiesChanged {
        /// The object, which emits the signal.
        object: ChangedObject,
        /// Properties with their new values.
        changed: Items<ShownProperty>,
        /// The names of properties whose new values the signal doesn't contain.
        invalidated: Items<Property>,
    },
}

// Writes what a prompt completes with, as a variant.
#[tactic(auto, using(dbus_marshal::proofs::PutLemmas::variant_put))]
fn put_completion<P: Put>(out: &mut P, completion: &Completion) -> Result<(), P::Refused>
    ensures { (before : List ℕ) → P.stands out.old before → OnOk result (P.stands out.new
        (put before (Val.variant (completion_value completion.now)))) }
{
    match completion {
        Completion::Objects(objects) => {
            put_signature(out, b"ao")?;
            put_paths(out, objects.as_slice())
        }
        Completion::Object(object) => {
            put_signature(out, b"o")?;
            put_path(out, object.as_bytes())
        }
    }
}

// Writes the values of Ask.
fn put_ask<P: Put>(
    out: &mut P,
    prompt: PromptId,
    round: u64,
    kind: AskKind,
    label: &Text,
    wrong: u32,
) -> Result<(), P::Refused>
    ensures { (before : List ℕ) → P.stands out.old before → OnOk result (P.stands out.new
        (puts before (signal_values (Signal.Ask prompt round kind label.now wrong)))) }
{
    put_prompt_path(out, prompt)?;
    put_u64(out, round)?;
    put_text(out, kind.as_str().as_bytes())?;
    put_text(out, label.as_bytes())?;
    put_u32(out, wrong)
}

// Writes the values of Completed.
fn put_completed<P: Put>(
    out: &mut P,
    dismissed: bool,
    completion: &Completion,
) -> Result<(), P::Refused>
    ensures { (before : List ℕ) (prompt : PromptId) → P.stands out.old before
        → OnOk result (P.stands out.new
        (puts before (signal_values (Signal.Completed prompt dismissed completion.now)))) }
{
    put_truth(out, dismissed)?;
    put_completion(out, completion)
}

impl PutValues for Signal {
    ghost use Rattle.secret_calls.specs.Outs.{signal_values};

    ghost values = { λ signal. signal_values signal };

    fn put_to<P: Put>(&self, out: &mut P) -> Result<(), P::Refused> {
        match self {
            Signal::Ask {
                prompt,
                round,
                kind,
                label,
                wrong,
            } => put_ask(out, *prompt, *round, *kind, label, *wrong),
            Signal::Completed {
                prompt: _,
                dismissed,
                completion,
            } => put_completed(out, *dismissed, completion),
            Signal::CollectionCreated { collection } => put_path(out, collection.as_bytes()),
            Signal::CollectionDeleted { collection } => put_path(out, collection.as_bytes()),
            Signal::CollectionChanged { collection } => put_path(out, collection.as_bytes()),
            Signal::ItemCreated { item, .. } => put_path(out, item.as_bytes()),
            Signal::ItemDeleted { item, .. } => put_path(out, item.as_bytes()),
            Signal::ItemChanged { item, .. } => put_path(out, item.as_bytes()),
            Signal::PropertiesChanged {
                object,
                changed,
                invalidated,
            } => put_properties_changed(out, object, changed.as_slice(), invalidated.as_slice()),
        }
    }
}

/// The type SIGNAL, and the flag that signals are sent with (D-Bus Specification, "Message Format").
const SIGNAL: u8 = 4;

const NO_REPLY_EXPECTED: u8 = 1;

/// The object that emits Ask, and its interface.
const AGENT: &str = "/org/freedesktop/secrets/agent";

const AGENT_INTERFACE: &str = "org.keyringd.Agent1";

/// The interface of the prompt that emits Completed.
const PROMPT_INTERFACE: &str = "org.freedesktop.Secret.Prompt";

/// The interface of the signal PropertiesChanged.
const PROPERTIES_INTERFACE: &str = "org.freedesktop.DBus.Properties";

// The path of a prompt: the prefix has 33 bytes, and a number of 64 bits has 20 digits at most.
fn path_of_prompt(prompt: PromptId) -> ArrayString<53>
    ensures { result.bytes ≡ prompt_path prompt.0 }
{
    let mut path = ArrayString::new();
    let mut buffer = Buffer::new();
    path.push_str(PROMPTS);
    path.push_str(buffer.format(prompt.0));
    path
}

// The header of a signal that this object emits.
fn header<'a>(emitter: &'a str, interface: &'a str, name: &'a str, serial: u32) -> Header<'a>
    ensures { seen result ≡ record (bare_header 4 1 serial) {
      path = Some emitter.now;
      interface = Some interface.now;
      member = Some name.now;
    } }
{
    Header {
        path: Some(emitter),
        interface: Some(interface),
        member: Some(name),
        ..Header::bare(SIGNAL, NO_REPLY_EXPECTED, serial)
    }
}

impl Signal {
    ghost use Rattle.secret_calls.specs.Outs.{emitter, interface_of, signal_name};

    // The signature of the values.
    fn signature(&self) -> &'static str
        ensures { result.now ≡ texts_of (tys_of (signal_values self.now)) }
    {
        match self {
            Signal::Ask { .. } => "otssu",
            Signal::Completed { .. } => "bv",
            Signal::CollectionCreated { .. } => "o",
            Signal::CollectionDeleted { .. } => "o",
            Signal::CollectionChanged { .. } => "o",
            Signal::ItemCreated { .. } => "o",
            Signal::ItemDeleted { .. } => "o",
            Signal::ItemChanged { .. } => "o",
            Signal::PropertiesChanged { .. } => "sa{sv}as",
        }
    }

    /// The interface of the signal.
    pub fn interface(&self) -> &'static str
        ensures { result.now ≡ interface_of self.now }
    {
        match self {
            Signal::Ask { .. } => AGENT_INTERFACE,
            Signal::Completed { .. } => PROMPT_INTERFACE,
            Signal::CollectionCreated { .. } => SERVICE_INTERFACE,
            Signal::CollectionDeleted { .. } => SERVICE_INTERFACE,
            Signal::CollectionChanged { .. } => SERVICE_INTERFACE,
            Signal::ItemCreated { .. } => COLLECTION_INTERFACE,
            Signal::ItemDeleted { .. } => COLLECTION_INTERFACE,
            Signal::ItemChanged { .. } => COLLECTION_INTERFACE,
            Signal::PropertiesChanged { .. } => PROPERTIES_INTERFACE,
        }
    }

    /// The name of the signal.
    pub fn name(&self) -> &'static str
        ensures { result.now ≡ signal_name self.now }
    {
        match self {
            Signal::Ask { .. } => "Ask",
            Signal::Completed { .. } => "Completed",
            Signal::CollectionCreated { .. } => "CollectionCreated",
            Signal::CollectionDeleted { .. } => "CollectionDeleted",
            Signal::CollectionChanged { .. } => "CollectionChanged",
            Signal::ItemCreated { .. } => "ItemCreated",
            Signal::ItemDeleted { .. } => "ItemDeleted",
            Signal::ItemChanged { .. } => "ItemChanged",
            Signal::PropertiesChanged { .. } => "PropertiesChanged",
        }
    }

    // Writes the signal's message, given the path of the object that emits it.
    fn put_from<P: Put>(&self, path: &str, serial: u32, out: &mut P) -> Result<(), P::Refused>
        requires { path.now ≡ emitter self.now }
        ensures { P.stands out.old []
            → OnOk result (P.stands out.new (spelled (outs.Signal self.now) serial)) }
    {
        let header = header(path, self.interface(), self.name(), serial);
        put_message(out, &header, self.signature(), self)
    }

    /// Writes the signal's message with this serial to a writer that is still empty.
    pub fn put<P: Put>(&self, serial: u32, out: &mut P) -> Result<(), P::Refused>
        ensures { P.stands out.old []
            → OnOk result (P.stands out.new (spelled (outs.Signal self.now) serial)) }
    {
        match self {
            Signal::Ask { .. } => self.put_from(AGENT, serial, out),
            Signal::Completed { prompt, .. } => {
                let path = path_of_prompt(*prompt);
                self.put_from(path.as_str(), serial, out)
            }
            Signal::CollectionCreated { .. } => self.put_from(SERVICE, serial, out),
            Signal::CollectionDeleted { .. } => self.put_from(SERVICE, serial, out),
            Signal::CollectionChanged { .. } => self.put_from(SERVICE, serial, out),
            Signal::ItemCreated { collection, .. } => {
                self.put_from(collection.as_str(), serial, out)
            }
            Signal::ItemDeleted { collection, .. } => {
                self.put_from(collection.as_str(), serial, out)
            }
            Signal::ItemChanged { collection, .. } => {
                self.put_from(collection.as_str(), serial, out)
            }
            Signal::PropertiesChanged { object, .. } => self.put_from(object.path(), serial, out),
        }
    }
}
