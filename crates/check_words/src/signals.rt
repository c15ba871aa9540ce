// Signals in words.

use crate::outputs::{write_path, write_paths};
use crate::shown::write_all_shown;
use check_rows::Line;
use kr_base::{PromptId, Text};
use secret_calls::{AskKind, ChangedObject, Completion, Property, ShownProperty, Signal};

/// Writes a label, or the number of its bytes if it is long.
pub fn write_label(line: &mut Line, label: &Text) {
    let length = label.as_bytes().len();
    if length > 100 {
        line.number(length as u64);
        line.add(" bytes");
    } else {
        line.add(label.as_str());
    }
}

// A prompt, its round and what a password is for.
fn write_round(line: &mut Line, prompt: PromptId, round: u64, kind: AskKind) {
    line.add("Ask ");
    line.number(prompt.0);
    line.add(", ");
    line.number(round);
    line.add(", ");
    line.add(kind.as_str());
    line.add(", ");
}

fn write_completion(line: &mut Line, completion: &Completion) {
    match completion {
        Completion::Objects(objects) => {
            write_paths(line, "[", objects.as_slice());
            line.add("]");
        }
        Completion::Object(object) => line.add(object.as_str()),
    }
}

fn write_completed(line: &mut Line, prompt: PromptId, dismissed: bool) {
    line.add("Completed ");
    line.number(prompt.0);
    line.add(if dismissed { ", true, " } else { ", false, " });
}

// A word, and the path of a collection.
fn write_collection(line: &mut Line, word: &str, collection: &Text) {
    line.add(word);
    write_path(line, collection);
}

// A word, the path of an item, and that of the collection that emits the signal.
fn write_item(line: &mut Line, word: &str, collection: &Text, item: &Text) {
    line.add(word);
    write_path(line, item);
    line.add(" from");
    write_path(line, collection);
}

fn write_object(line: &mut Line, object: &ChangedObject) {
    line.add("PropertiesChanged");
    match object {
        ChangedObject::Service => line.add(" Service"),
        ChangedObject::Collection(collection) => write_path(line, collection),
        ChangedObject::Item(item) => write_path(line, item),
    }
}

// Properties with their new values, and the names of others; no word for what there is none of.
fn write_changes(line: &mut Line, changed: &[ShownProperty], invalidated: &[Property]) {
    if !changed.is_empty() {
        line.add(", ");
        write_all_shown(line, changed);
    }
    if !invalidated.is_empty() {
        line.add(", invalidated");
    }
    for name in invalidated {
        line.add(" ");
        line.add(name.as_str());
    }
}

/// Writes a signal.
pub fn write_signal(line: &mut Line, signal: &Signal) {
    match signal {
        Signal::Ask {
            prompt,
            round,
            kind,
            label,
            wrong,
        } => {
            write_round(line, *prompt, *round, *kind);
            write_label(line, label);
            line.add(", ");
            line.number(u64::from(*wrong));
        }
        Signal::Completed {
            prompt,
            dismissed,
            completion,
        } => {
            write_completed(line, *prompt, *dismissed);
            write_completion(line, completion);
        }
        Signal::CollectionCreated { collection } => {
            write_collection(line, "CollectionCreated", collection);
        }
        Signal::CollectionDeleted { collection } => {
            write_collection(line, "CollectionDeleted", collection);
        }
        Signal::CollectionChanged { collection } => {
            write_collection(line, "CollectionChanged", collection);
        }
        Signal::ItemCreated { collection, item } => {
            write_item(line, "ItemCreated", collection, item);
        }
        Signal::ItemDeleted { collection, item } => {
            write_item(line, "ItemDeleted", collection, item);
        }
        Signal::ItemChanged { collection, item } => {
            write_item(line, "ItemChanged", collection, item);
        }
        Signal::PropertiesChanged {
            object,
            changed,
            invalidated,
        } => {
            write_object(line, object);
            write_changes(line, changed.as_slice(), invalidated.as_slice());
        }
    }
}
