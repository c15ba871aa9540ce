// Reading the signals of the service (D-Bus Specification, "Message Format" and "Standard Interfaces"; Secret
// Service API draft 0.2, the interfaces' signals). Each reader returns None if a message says something else.
ghost use Rattle.std.specs.Prelude.{◌≡◌, IfOk};
ghost use Rattle.std.specs.List.{find};
ghost use Rattle.dbus_types.specs.ValueViews.{value_of, values_of, value_as, each_as};
ghost use Rattle.dbus_framing.specs.Messages.{parts_of};
ghost use Rattle.call_arguments.specs.Arguments.{all_in, prompt_named, type_of_element};
ghost use Rattle.client_core.specs.Signals.{is_kind, kind_of, prompt_there, purpose_named, purpose_in, asked_with, ask_signal, result_in, result_held, completed_with, completed_signal, object_in, collection_in, item_in, changed_object, name_at, names_in, changed_with, changed_signal, signal_by, signal_at, signal_in};

use crate::OutOfMemory;
use crate::bodies::{paths_in, text_of};
use crate::properties::{properties_in, property_named};
use call_arguments::{
    ElementType, elements_in, five_in, held_in, long_in, one_in, path_in, string_in, three_in,
    truth_in, two_in, word_in,
};
use dbus_types::{Message, Value};
use kr_base::{PromptId, Text};
use kr_items::Items;
use kr_names::{ObjectName, parse_path};
use secret_calls::{AskKind, ChangedObject, Completion, Property, Signal};
use std::alloc::Global;

/// Which signal it is.
#[derive(Clone, Copy, Debug, PartialEq, Eq)]
pub enum SignalKind {
    /// `Agent1.Ask`.
    Ask,
    /// `Prompt.Completed`.
    Completed,
    /// `Service.CollectionCreated`.
    CollectionCreated,
    /// `Service.CollectionDeleted`.
    CollectionDeleted,
    /// `Service.CollectionChanged`.
    CollectionChanged,
    /// `Collection.ItemCreated`.
    ItemCreated,
    /// `Collection.ItemDeleted`.
    ItemDeleted,
    /// `Collection.ItemChanged`.
    ItemChanged,
    /// `Properties.PropertiesChanged`.
    PropertiesChanged,
}

const KINDS: &[SignalKind] = &[
    SignalKind::Ask,
    SignalKind::Completed,
    SignalKind::CollectionCreated,
    SignalKind::CollectionDeleted,
    SignalKind::CollectionChanged,
    SignalKind::ItemCreated,
    SignalKind::ItemDeleted,
    SignalKind::ItemChanged,
    SignalKind::PropertiesChanged,
];

/// The paths of the objects that emit signals and aren't named by them.
const SERVICE: &str = "/org/freedesktop/secrets";

const AGENT: &str = "/org/freedesktop/secrets/agent";

/// The interfaces that have properties.
const SERVICE_INTERFACE: &str = "org.freedesktop.Secret.Service";

const COLLECTION_INTERFACE: &str = "org.freedesktop.Secret.Collection";

const ITEM_INTERFACE: &str = "org.freedesktop.Secret.Item";

impl SignalKind {
    ghost use Rattle.client_core.specs.Signals.{kind_interface, kind_name};

    // The interface of the signal.
    fn interface(self) -> &'static str
        ensures { result.now ≡ kind_interface self }
    {
        match self {
            SignalKind::Ask => "org.keyringd.Agent1",
            SignalKind::Completed => "org.freedesktop.Secret.Prompt",
            SignalKind::CollectionCreated => SERVICE_INTERFACE,
            SignalKind::CollectionDeleted => SERVICE_INTERFACE,
            SignalKind::CollectionChanged => SERVICE_INTERFACE,
            SignalKind::ItemCreated => COLLECTION_INTERFACE,
            SignalKind::ItemDeleted => COLLECTION_INTERFACE,
            SignalKind::ItemChanged => COLLECTION_INTERFACE,
            SignalKind::PropertiesChanged => "org.freedesktop.DBus.Properties",
        }
    }

    // Its name.
    fn name(self) -> &'static str
        ensures { result.now ≡ kind_name self }
    {
        match self {
            SignalKind::Ask => "Ask",
            SignalKind::Completed => "Completed",
            SignalKind::CollectionCreated => "CollectionCreated",
            SignalKind::CollectionDeleted => "CollectionDeleted",
            SignalKind::CollectionChanged => "CollectionChanged",
            SignalKind::ItemCreated => "ItemCreated",
            SignalKind::ItemDeleted => "ItemDeleted",
            SignalKind::ItemChanged => "ItemChanged",
            SignalKind::PropertiesChanged => "PropertiesChanged",
        }
    }
}

fn is_kind(interface: &Text, name: &Text, kind: SignalKind) -> bool
    ensures { result ≡ is_kind interface.now name.now kind }
{
    interface.as_str() == kind.interface() && name.as_str() == kind.name()
}

fn first_kind(kinds: &[SignalKind], interface: &Text, name: &Text) -> Option<SignalKind>
    ensures { result ≡ find (is_kind interface.now name.now) kinds.now }
{
    for kind in kinds {
        if is_kind(interface, name, *kind) {
            return Some(*kind);
        }
    }
    None
}

// The kind with this interface and this name.
fn kind_of(interface: &Option<Text>, name: &Option<Text>) -> Option<SignalKind>
    ensures { result ≡ kind_of interface.now name.now }
{
    match (interface, name) {
        (Some(interface), Some(name)) => first_kind(KINDS, interface, name),
        (Some(_), None) => None,
        (None, _) => None,
    }
}

// The prompt that a path names.
fn prompt_named(alloc: Global, path: &str) -> Result<Option<PromptId>, OutOfMemory>
    ensures { IfOk result (λ prompt. prompt ≡ prompt_named path.now) }
{
    match parse_path(alloc, path)? {
        Some(ObjectName::Prompt(prompt)) => Ok(Some(prompt)),
        _ => Ok(None),
    }
}

// The prompt in a value of type `o`.
fn prompt_there(alloc: Global, value: &Value) -> Result<Option<PromptId>, OutOfMemory>
    ensures { IfOk result (λ prompt. prompt ≡ prompt_there (value_of value.now)) }
{
    match path_in(value) {
        Some(path) => prompt_named(alloc, path.as_str()),
        None => Ok(None),
    }
}

// What a password is asked for, by its word.
fn purpose_named(word: &Text) -> Option<AskKind>
    ensures { result ≡ purpose_named word.now }
{
    if word.as_str() == AskKind::Unlock.as_str() {
        return Some(AskKind::Unlock);
    }
    if word.as_str() == AskKind::Create.as_str() {
        return Some(AskKind::Create);
    }
    if word.as_str() == AskKind::Change.as_str() {
        return Some(AskKind::Change);
    }
    None
}

fn purpose_in(value: &Value) -> Option<AskKind>
    ensures { result ≡ purpose_in (value_of value.now) }
{
    purpose_named(string_in(value)?)
}

// Ask with these five values.
fn asked_with(
    alloc: Global,
    prompt: &Value,
    round: &Value,
    kind: &Value,
    label: &Value,
    wrong: &Value,
) -> Result<Option<Signal>, OutOfMemory>
    ensures { IfOk result (λ signal. signal ≡ asked_with (
      value_of prompt.now,
      value_of round.now,
      value_of kind.now,
      value_of label.now,
      value_of wrong.now,
    )) }
{
    let Some(prompt) = prompt_there(alloc, prompt)? else {
        return Ok(None);
    };
    let Some(round) = long_in(round) else {
        return Ok(None);
    };
    let Some(kind) = purpose_in(kind) else {
        return Ok(None);
    };
    let Some(label) = string_in(label) else {
        return Ok(None);
    };
    let Some(wrong) = word_in(wrong) else {
        return Ok(None);
    };
    let label = label.copy()?;
    Ok(Some(Signal::Ask {
        prompt,
        round,
        kind,
        label,
        wrong,
    }))
}

fn ask_signal(alloc: Global, path: &Text, values: &[Value]) -> Result<Option<Signal>, OutOfMemory>
    ensures { IfOk result (λ signal. signal ≡ ask_signal path.now (values_of values.now)) }
{
    if path.as_str() != AGENT {
        return Ok(None);
    }
    match five_in(values) {
        Some((prompt, round, kind, label, wrong)) => {
            asked_with(alloc, prompt, round, kind, label, wrong)
        }
        None => Ok(None),
    }
}

// What a prompt completes with.
fn result_in(alloc: Global, value: &Value) -> Result<Option<Completion>, OutOfMemory>
    ensures { IfOk result (λ completion. completion ≡ result_in (value_of value.now)) }
{
    if let Some(objects) = paths_in(alloc, value)? {
        return Ok(Some(Completion::Objects(objects)));
    }
    match path_in(value) {
        Some(path) => Ok(Some(Completion::Object(text_of(path)?))),
        None => Ok(None),
    }
}

fn result_held(alloc: Global, value: &Value) -> Result<Option<Completion>, OutOfMemory>
    ensures { IfOk result (λ completion. completion ≡ result_held (value_of value.now)) }
{
    match held_in(value) {
        Some(value) => result_in(alloc, value),
        None => Ok(None),
    }
}

// Completed of this prompt, with these two values.
fn completed_with(
    alloc: Global,
    prompt: PromptId,
    dismissed: &Value,
    completion: &Value,
) -> Result<Option<Signal>, OutOfMemory>
    ensures { IfOk result (λ signal.
        signal ≡ completed_with prompt (value_of dismissed.now, value_of completion.now)) }
{
    let Some(dismissed) = truth_in(dismissed) else {
        return Ok(None);
    };
    let Some(completion) = result_held(alloc, completion)? else {
        return Ok(None);
    };
    Ok(Some(Signal::Completed {
        prompt,
        dismissed,
        completion,
    }))
}

fn completed_signal(
    alloc: Global,
    path: &Text,
    values: &[Value],
) -> Result<Option<Signal>, OutOfMemory>
    ensures { IfOk result (λ signal. signal ≡ completed_signal path.now (values_of values.now)) }
{
    let Some(prompt) = prompt_named(alloc, path.as_str())? else {
        return Ok(None);
    };
    match two_in(values) {
        Some((dismissed, completion)) => completed_with(alloc, prompt, dismissed, completion),
        None => Ok(None),
    }
}

// The path that is the only value.
fn object_in(values: &[Value]) -> Result<Option<Text>, OutOfMemory>
    ensures { IfOk result (λ object. object ≡ object_in (values_of values.now)) }
{
    let Some(value) = one_in(values) else {
        return Ok(None);
    };
    match path_in(value) {
        Some(path) => Ok(Some(text_of(path)?)),
        None => Ok(None),
    }
}

// The collection of a signal that the service emits.
fn collection_in(path: &Text, values: &[Value]) -> Result<Option<Text>, OutOfMemory>
    ensures { IfOk result (λ collection.
        collection ≡ collection_in path.now (values_of values.now)) }
{
    if path.as_str() != SERVICE {
        return Ok(None);
    }
    object_in(values)
}

// The collection that emits a signal, and its item.
fn item_in(path: &Text, values: &[Value]) -> Result<Option<(Text, Text)>, OutOfMemory>
    ensures { IfOk result (λ two. two ≡ item_in path.now (values_of values.now)) }
{
    let Some(item) = object_in(values)? else {
        return Ok(None);
    };
    let collection = path.copy()?;
    Ok(Some((collection, item)))
}

// The object that emits PropertiesChanged for properties of this interface.
fn changed_object(path: &Text, interface: &Text) -> Result<Option<ChangedObject>, OutOfMemory>
    ensures { IfOk result (λ object. object ≡ changed_object path.now interface.now) }
{
    if interface.as_str() == SERVICE_INTERFACE {
        if path.as_str() != SERVICE {
            return Ok(None);
        }
        return Ok(Some(ChangedObject::Service));
    }
    if interface.as_str() == COLLECTION_INTERFACE {
        let collection = path.copy()?;
        return Ok(Some(ChangedObject::Collection(collection)));
    }
    if interface.as_str() == ITEM_INTERFACE {
        let item = path.copy()?;
        return Ok(Some(ChangedObject::Item(item)));
    }
    Ok(None)
}

// The property that an element of an array of texts names.
fn name_at(value: &Value) -> Option<Property>
    ensures { result ≡ name_at (value_as (type_of_element (ElementType.Text)) value.now) }
{
    property_named(string_in(value)?)
}

// The properties that the elements of an array of texts name.
fn names_among(alloc: Global, texts: &[Value]) -> Result<Option<Items<Property>>, OutOfMemory>
    ensures { IfOk result (λ names. names
        ≡ all_in name_at (each_as (type_of_element (ElementType.Text)) texts.now)) }
{
    let mut names = Vec::with_capacity(alloc, texts.len())?;
    for text in texts {
        match name_at(text) {
            Some(name) => names.push(name)?,
            None => return Ok(None),
        }
    }
    Ok(Some(Items::new(names)))
}

// The properties that a value of type `as` names.
fn names_in(alloc: Global, value: &Value) -> Result<Option<Items<Property>>, OutOfMemory>
    ensures { IfOk result (λ names. names ≡ names_in (value_of value.now)) }
{
    match elements_in(value, ElementType::Text) {
        Some(texts) => names_among(alloc, texts),
        None => Ok(None),
    }
}

// PropertiesChanged with these three values.
fn changed_with(
    alloc: Global,
    path: &Text,
    interface: &Value,
    changed: &Value,
    invalidated: &Value,
) -> Result<Option<Signal>, OutOfMemory>
    ensures { IfOk result (λ signal. signal ≡ changed_with path.now
        (value_of interface.now, value_of changed.now, value_of invalidated.now)) }
{
    let Some(interface) = string_in(interface) else {
        return Ok(None);
    };
    let Some(object) = changed_object(path, interface)? else {
        return Ok(None);
    };
    let Some(changed) = properties_in(alloc, changed)? else {
        return Ok(None);
    };
    let Some(invalidated) = names_in(alloc, invalidated)? else {
        return Ok(None);
    };
    Ok(Some(Signal::PropertiesChanged {
        object,
        changed,
        invalidated,
    }))
}

fn changed_signal(
    alloc: Global,
    path: &Text,
    values: &[Value],
) -> Result<Option<Signal>, OutOfMemory>
    ensures { IfOk result (λ signal. signal ≡ changed_signal path.now (values_of values.now)) }
{
    match three_in(values) {
        Some((interface, changed, invalidated)) => {
            changed_with(alloc, path, interface, changed, invalidated)
        }
        None => Ok(None),
    }
}

// The signal of this kind that an object with this path emits with these values.
fn signal_by(
    alloc: Global,
    kind: SignalKind,
    path: &Text,
    values: &[Value],
) -> Result<Option<Signal>, OutOfMemory>
    ensures { IfOk result (λ signal. signal ≡ signal_by kind path.now (values_of values.now)) }
{
    match kind {
        SignalKind::Ask => ask_signal(alloc, path, values),
        SignalKind::Completed => completed_signal(alloc, path, values),
        SignalKind::CollectionCreated => match collection_in(path, values)? {
            Some(collection) => Ok(Some(Signal::CollectionCreated { collection })),
            None => Ok(None),
        },
        SignalKind::CollectionDeleted => match collection_in(path, values)? {
            Some(collection) => Ok(Some(Signal::CollectionDeleted { collection })),
            None => Ok(None),
        },
        SignalKind::CollectionChanged => match collection_in(path, values)? {
            Some(collection) => Ok(Some(Signal::CollectionChanged { collection })),
            None => Ok(None),
        },
        SignalKind::ItemCreated => match item_in(path, values)? {
            Some((collection, item)) => Ok(Some(Signal::ItemCreated { collection, item })),
            None => Ok(None),
        },
        SignalKind::ItemDeleted => match item_in(path, values)? {
            Some((collection, item)) => Ok(Some(Signal::ItemDeleted { collection, item })),
            None => Ok(None),
        },
        SignalKind::ItemChanged => match item_in(path, values)? {
            Some((collection, item)) => Ok(Some(Signal::ItemChanged { collection, item })),
            None => Ok(None),
        },
        SignalKind::PropertiesChanged => changed_signal(alloc, path, values),
    }
}

// The signal that the message is, if it is a SIGNAL.
fn signal_at(alloc: Global, message: &Message) -> Result<Option<Signal>, OutOfMemory>
    ensures { IfOk result (λ signal. signal ≡ signal_at (parts_of message.now).path
        (parts_of message.now).interface (parts_of message.now).member
        (parts_of message.now).body) }
{
    let Some(kind) = kind_of(&message.interface, &message.member) else {
        return Ok(None);
    };
    match &message.path {
        Some(path) => signal_by(alloc, kind, path, message.body.as_slice()),
        None => Ok(None),
    }
}

/// The signal of the service that the message is; None if it isn't one. By
/// `a_signal_is_read_again` it is what the service sent.
pub fn signal_of(alloc: Global, message: &Message) -> Result<Option<Signal>, OutOfMemory>
    ensures { IfOk result (λ signal. signal ≡ signal_in (parts_of message.now)) }
{
    if message.kind != 4 {
        return Ok(None);
    }
    signal_at(alloc, message)
}
