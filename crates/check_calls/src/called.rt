// Calls in words: objects as their paths, sessions and prompts as their numbers, and the values of secrets and passwords in hex.

use crate::shown::write_properties;
use check_rows::Line;
use kr_base::{AttrValue, Attributes, ItemId, PromptId, SessionId, Stem};
use kr_names::{ObjectName, path_of};
use secret_calls::{AliasName, Call, Property, Secret};

fn write_path(line: &mut Line, name: &ObjectName) {
    if !name.has_path() {
        return line.add("no path");
    }
    match path_of(line.alloc(), name) {
        Ok(path) => line.add(path.as_str()),
        Err(_) => line.lack(),
    }
}

fn write_paths(line: &mut Line, word: &str, names: &[ObjectName]) {
    line.add(word);
    let mut between = " [";
    for name in names {
        line.add(between);
        write_path(line, name);
        between = ", ";
    }
    line.add(if names.is_empty() { " []" } else { "]" });
}

fn write_value(line: &mut Line, value: &AttrValue) {
    match value {
        AttrValue::Text(text) => line.add(text.as_str()),
        AttrValue::Number(_) => line.add("a number"),
    }
}

fn write_attributes(line: &mut Line, attributes: &Attributes) {
    line.add("{");
    let mut between = "";
    for (name, value) in attributes.as_slice() {
        line.add(between);
        line.add(name.as_str());
        line.add("=");
        write_value(line, value);
        between = ", ";
    }
    line.add("}");
}

fn write_session(line: &mut Line, session: &Option<SessionId>) {
    line.add(" by ");
    match session {
        Some(session) => line.number(session.0),
        None => line.add("none"),
    }
}

// A secret as its session, its value and its content type.
fn write_secret(line: &mut Line, secret: &Secret) {
    write_session(line, &secret.session);
    line.add(" ");
    line.hex(secret.value.as_slice());
    line.add(" ");
    line.add(secret.content.as_str());
}

fn write_item(line: &mut Line, word: &str, stem: &Stem, item: ItemId) {
    line.add(word);
    line.add(stem.as_str());
    line.add(" ");
    line.number(u64::from(item.0));
}

fn write_text(line: &mut Line, before: &str, text: &str, after: &str) {
    line.add(before);
    line.add(text);
    line.add(after);
}

// An object, and what of it a call reads.
fn write_object(line: &mut Line, word: &str, object: &ObjectName, after: &str) {
    line.add(word);
    write_path(line, object);
    line.add(after);
}

fn write_all(line: &mut Line, object: &ObjectName, properties: &[Property]) {
    write_object(line, "GetAll ", object, "");
    write_properties(line, properties);
}

fn write_get(line: &mut Line, object: &ObjectName, property: Property) {
    write_object(line, "Get ", object, " ");
    line.add(property.as_str());
}

// An item, and the label that it is set to.
fn write_labelled(line: &mut Line, stem: &Stem, item: ItemId, label: &str) {
    write_item(line, "SetItemLabel ", stem, item);
    write_text(line, " to \"", label, "\"");
}

fn write_search(line: &mut Line, collection: &ObjectName, wanted: &Attributes) {
    line.add("SearchCollection ");
    write_path(line, collection);
    line.add(" ");
    write_attributes(line, wanted);
}

// The front of what an item is made with, up to its secret.
fn write_making(line: &mut Line, collection: &ObjectName, label: &str, attributes: &Attributes) {
    line.add("CreateItem ");
    write_path(line, collection);
    write_text(line, " \"", label, "\" ");
    write_attributes(line, attributes);
}

fn write_alias(line: &mut Line, alias: &AliasName, object: &Option<ObjectName>) {
    write_text(line, "SetAlias ", alias.as_text().as_str(), " to ");
    match object {
        Some(object) => write_path(line, object),
        None => line.add("none"),
    }
}

fn write_collection(line: &mut Line, label: &str, alias: &Option<AliasName>) {
    write_text(line, "CreateCollection \"", label, "\" as ");
    match alias {
        Some(alias) => line.add(alias.as_text().as_str()),
        None => line.add("none"),
    }
}

// A call of the agent about a prompt in a round.
fn write_round(line: &mut Line, word: &str, prompt: &Option<PromptId>, round: u64) {
    line.add(word);
    match prompt {
        Some(prompt) => line.number(prompt.0),
        None => line.add("none"),
    }
    line.add(" in ");
    line.number(round);
}

fn write_number(line: &mut Line, word: &str, number: u64, after: &str) {
    line.add(word);
    line.number(number);
    line.add(after);
}

/// Writes a call.
pub fn write_called(line: &mut Line, call: &Call) {
    match call {
        Call::Ping => line.add("Ping"),
        Call::Register => line.add("Register"),
        Call::Unregister => line.add("Unregister"),
        Call::OpenSession { algorithm } => {
            write_text(
                line,
                "OpenSession { algorithm: \"",
                algorithm.as_str(),
                "\" }",
            );
        }
        Call::CloseSession { session } => {
            write_number(line, "CloseSession { session: SessionId(", session.0, ") }");
        }
        Call::CreateCollection { label, alias } => write_collection(line, label.as_str(), alias),
        Call::SearchItems { wanted } => {
            line.add("SearchItems ");
            write_attributes(line, wanted);
        }
        Call::Unlock { objects } => write_paths(line, "Unlock", objects.as_slice()),
        Call::Lock { objects } => write_paths(line, "Lock", objects.as_slice()),
        Call::GetSecrets { items, session } => {
            write_paths(line, "GetSecrets", items.as_slice());
            write_session(line, session);
        }
        Call::ReadAlias { name } => write_text(line, "ReadAlias \"", name.as_str(), "\""),
        Call::SetAlias { alias, object } => write_alias(line, alias, object),
        Call::SearchCollection { collection, wanted } => write_search(line, collection, wanted),
        Call::CreateItem {
            collection,
            label,
            attributes,
            secret,
            replace,
        } => {
            write_making(line, collection, label.as_str(), attributes);
            write_secret(line, secret);
            line.add(if *replace { " true" } else { " false" });
        }
        Call::DeleteCollection { collection } => {
            line.add("DeleteCollection ");
            write_path(line, collection);
        }
        Call::ChangePassword { collection } => {
            write_object(line, "ChangePassword ", collection, "");
        }
        Call::DeleteItem { stem, item } => write_item(line, "DeleteItem ", stem, *item),
        Call::GetSecret {
            stem,
            item,
            session,
        } => {
            write_item(line, "GetSecret ", stem, *item);
            write_session(line, session);
        }
        Call::SetSecret { stem, item, secret } => {
            write_item(line, "SetSecret ", stem, *item);
            write_secret(line, secret);
        }
        Call::Get { object, property } => write_get(line, object, *property),
        Call::GetAll { object, properties } => write_all(line, object, properties.as_slice()),
        Call::SetCollectionLabel { collection, label } => {
            write_object(line, "SetCollectionLabel ", collection, "");
            write_text(line, " to \"", label.as_str(), "\"");
        }
        Call::SetItemLabel { stem, item, label } => {
            write_labelled(line, stem, *item, label.as_str());
        }
        Call::SetAttributes {
            stem,
            item,
            attributes,
        } => {
            write_item(line, "SetAttributes ", stem, *item);
            line.add(" ");
            write_attributes(line, attributes);
        }
        Call::Prompt { prompt } => write_number(line, "Prompt ", prompt.0, ""),
        Call::Dismiss { prompt } => write_number(line, "Dismiss ", prompt.0, ""),
        Call::Answer {
            prompt,
            round,
            password,
        } => {
            write_round(line, "Answer ", prompt, *round);
            line.add(" with ");
            line.hex(password.as_slice());
        }
        Call::Refuse { prompt, round } => write_round(line, "Refuse ", prompt, *round),
    }
}
