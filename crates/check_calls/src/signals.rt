// Signals as messages, and what they contain.

use crate::bodies::{path_of, paths_of, prompt_of, text_of};
use crate::messages::message_in;
use crate::outputs::{serial_in, write_out};
use crate::shown::{names_of, properties_of};
use call_wire::message_of;
use check_rows::{Line, cell};
use client_core::signal_of;
use dbus_types::Message;
use kr_base::{PromptId, Text};
use secret_calls::{
    AliasName, AskKind, ChangedObject, Completion, Out, Serial, SharedSignal, Signal, shown_label,
};
use std::alloc::Global;

fn ask(
    alloc: Global,
    prompt: PromptId,
    kind: AskKind,
    round: &str,
    label: &str,
    wrong: &str,
) -> Option<Signal> {
    let round = round.parse::<u64>().ok()?;
    let wrong = wrong.parse::<u32>().ok()?;
    let label = text_of(alloc, label)?;
    Some(Signal::Ask {
        prompt,
        round,
        kind,
        label,
        wrong,
    })
}

// A prompt that completes, dismissed or not.
fn completed(prompt: PromptId, dismissed: &str, completion: Completion) -> Signal {
    Signal::Completed {
        prompt,
        dismissed: dismissed == "dismissed",
        completion,
    }
}

// Ask and Completed.
fn of_prompt(alloc: Global, cells: &str) -> Option<Signal> {
    let prompt = prompt_of(cell(cells, 1))?;
    let (third, fourth, fifth) = (cell(cells, 2), cell(cells, 3), cell(cells, 4));
    match cell(cells, 0) {
        "unlock" => ask(alloc, prompt, AskKind::Unlock, third, fourth, fifth),
        "create" => ask(alloc, prompt, AskKind::Create, third, fourth, fifth),
        "change" => ask(alloc, prompt, AskKind::Change, third, fourth, fifth),
        "unlocked" => {
            let objects = paths_of(alloc, fourth)?;
            Some(completed(prompt, third, Completion::Objects(objects)))
        }
        "created" => {
            let object = path_of(alloc, fourth)?;
            Some(completed(prompt, third, Completion::Object(object)))
        }
        _ => None,
    }
}

fn of_collection(alloc: Global, cells: &str) -> Option<Signal> {
    let collection = path_of(alloc, cell(cells, 1))?;
    match cell(cells, 0) {
        "CollectionCreated" => Some(Signal::CollectionCreated { collection }),
        "CollectionDeleted" => Some(Signal::CollectionDeleted { collection }),
        "CollectionChanged" => Some(Signal::CollectionChanged { collection }),
        _ => None,
    }
}

fn of_item(alloc: Global, cells: &str) -> Option<Signal> {
    let collection = path_of(alloc, cell(cells, 1))?;
    let item = path_of(alloc, cell(cells, 2))?;
    match cell(cells, 0) {
        "ItemCreated" => Some(Signal::ItemCreated { collection, item }),
        "ItemDeleted" => Some(Signal::ItemDeleted { collection, item }),
        "ItemChanged" => Some(Signal::ItemChanged { collection, item }),
        _ => None,
    }
}

// The object whose properties changed.
fn changed_object(alloc: Global, kind: &str, path: &str) -> Option<ChangedObject> {
    match kind {
        "Service" => Some(ChangedObject::Service),
        "Collection" => Some(ChangedObject::Collection(path_of(alloc, path)?)),
        "Item" => Some(ChangedObject::Item(path_of(alloc, path)?)),
        _ => None,
    }
}

fn of_properties(alloc: Global, cells: &str) -> Option<Signal> {
    let object = changed_object(alloc, cell(cells, 1), cell(cells, 2))?;
    let changed = properties_of(alloc, cell(cells, 3))?;
    let invalidated = names_of(alloc, cell(cells, 4))?;
    Some(Signal::PropertiesChanged {
        object,
        changed,
        invalidated,
    })
}

fn signal_in(alloc: Global, cells: &str) -> Option<Signal> {
    let name = cell(cells, 0);
    if name == "PropertiesChanged" {
        return of_properties(alloc, cells);
    }
    if name.starts_with("Collection") {
        return of_collection(alloc, cells);
    }
    if name.starts_with("Item") {
        return of_item(alloc, cells);
    }
    of_prompt(alloc, cells)
}

fn output_of(alloc: Global, cells: &str) -> Option<Out> {
    let signal = signal_in(alloc, cells)?;
    Some(Out::Signal(SharedSignal::new(alloc, signal).ok()?))
}

// Whether a client reads this message as the signal that was sent.
fn is_read(alloc: Global, out: &Out, message: &Message) -> bool {
    match (signal_of(alloc, message), out) {
        (Ok(Some(read)), Out::Signal(sent)) => read == *sent.signal(),
        _ => false,
    }
}

// Writes whether a client reads a signal otherwise than it was sent.
fn write_read(line: &mut Line, out: &Out, serial: Serial) {
    let Ok(bytes) = message_of(line.alloc(), out, serial.number) else {
        return line.lack();
    };
    let is_read = match message_in(line.alloc(), bytes.as_slice()) {
        Some(message) => is_read(line.alloc(), out, &message),
        None => false,
    };
    line.add(if is_read { "" } else { " read otherwise" });
}

/// Writes a signal: for Ask `unlock` or `create`, the prompt, the round, the label and how many answers were wrong; for Completed
/// `unlocked` or `created`, the prompt, whether it was dismissed, its objects, and an empty cell; for the signals of changes the name,
/// and then the path of the collection and that of the item, or for PropertiesChanged the kind of the object, its path, properties
/// with their values, and names of others; then the serial and the types. It writes also whether a client reads it as another one.
pub fn write_signal(line: &mut Line, cells: &str) {
    match (output_of(line.alloc(), cells), serial_in(cell(cells, 5))) {
        (Some(out), Some(serial)) => {
            write_out(line, &out, serial, cell(cells, 6));
            write_read(line, &out, serial);
        }
        _ => line.add("no signal"),
    }
}

// A text of this many letters.
fn letters(alloc: Global, count: &str) -> Option<Text> {
    let count = count.parse::<u16>().ok()?;
    let letters = vec![in alloc; b'a'; count as usize].ok()?;
    Text::new(String::from_utf8(letters).ok()?)
}

fn shown(alloc: Global, count: &str) -> Option<Text> {
    shown_label(alloc, &letters(alloc, count)?).ok()
}

/// Writes the number of bytes of the label that Ask has for one of so many bytes.
pub fn write_label(line: &mut Line, cells: &str) {
    match shown(line.alloc(), cells) {
        Some(label) => line.number(label.as_bytes().len() as u64),
        None => line.add("no label"),
    }
}

fn alias_of(alloc: Global, cells: &str) -> Option<AliasName> {
    AliasName::from_text(text_of(alloc, cells)?)
}

/// Writes the name of an alias, or `none` for a text that isn't one.
pub fn write_alias(line: &mut Line, cells: &str) {
    match alias_of(line.alloc(), cells) {
        Some(alias) => line.add(alias.into_text().as_str()),
        None => line.add("none"),
    }
}
