// Outputs in words.

use crate::shown::{write_all_shown, write_shown};
use crate::signals::write_signal;
use check_rows::Line;
use kr_base::{PromptId, Text};
use secret_calls::{Body, ErrorName, ItemSecret, Out, ReturnedSecret};

/// Writes a path after a space, without the beginning that all objects' paths share.
pub fn write_path(line: &mut Line, path: &Text) {
    let path = path.as_str();
    line.add(" ");
    line.add(
        path.strip_prefix("/org/freedesktop/secrets/")
            .unwrap_or(path),
    );
}

// How many paths there are, the first and the last.
fn write_ends(line: &mut Line, paths: &[Text]) {
    line.add(" ");
    line.number(paths.len() as u64);
    line.add(" paths");
    if let [first, .., last] = paths {
        write_path(line, first);
        line.add(" to");
        write_path(line, last);
    }
}

/// Writes a word, and paths after it; of a hundred paths or more, their number, the first and the last.
pub fn write_paths(line: &mut Line, word: &str, paths: &[Text]) {
    line.add(word);
    if paths.len() < 100 {
        for path in paths {
            write_path(line, path);
        }
    } else {
        write_ends(line, paths);
    }
}

// The number of a prompt, if there is one.
fn write_prompt(line: &mut Line, prompt: Option<PromptId>) {
    if let Some(prompt) = prompt {
        line.add(", prompt ");
        line.number(prompt.0);
    }
}

// A secret: its session, its value in hex and its content type.
fn write_secret(line: &mut Line, secret: &ReturnedSecret) {
    line.add("secret ");
    line.number(secret.session.0);
    line.add(" ");
    line.hex(secret.value.as_slice());
    line.add(" ");
    line.add(secret.content.as_str());
}

fn write_secrets(line: &mut Line, secrets: &[ItemSecret]) {
    line.add("secrets");
    for secret in secrets {
        write_path(line, &secret.item);
        line.add(" ");
        write_secret(line, &secret.secret);
    }
}

fn write_body(line: &mut Line, body: &Body) {
    match body {
        Body::Empty => line.add("done"),
        Body::Session(session) => {
            line.add("session ");
            line.number(session.0);
        }
        Body::Found { unlocked, locked } => {
            write_paths(line, "unlocked", unlocked.as_slice());
            write_paths(line, ", locked", locked.as_slice());
        }
        Body::ObjectsAndPrompt { objects, prompt } => {
            write_paths(line, "objects", objects.as_slice());
            write_prompt(line, *prompt);
        }
        Body::Objects(objects) => write_paths(line, "found", objects.as_slice()),
        Body::ObjectAndPrompt { object, prompt } => {
            line.add("made");
            write_path(line, object);
            write_prompt(line, *prompt);
        }
        Body::Object(object) => line.add(object.as_str()),
        Body::Secret(secret) => write_secret(line, secret),
        Body::Secrets(secrets) => write_secrets(line, secrets.as_slice()),
        Body::Property(value) => write_shown(line, value),
        Body::Properties(properties) => write_all_shown(line, properties.as_slice()),
    }
}

fn error_word(name: ErrorName) -> &'static str {
    match name {
        ErrorName::NotSupported => "NotSupported",
        ErrorName::UnknownObject => "UnknownObject",
        ErrorName::UnknownInterface => "UnknownInterface",
        ErrorName::UnknownMethod => "UnknownMethod",
        ErrorName::UnknownProperty => "UnknownProperty",
        ErrorName::PropertyReadOnly => "PropertyReadOnly",
        ErrorName::InvalidArgs => "InvalidArgs",
        ErrorName::LimitsExceeded => "LimitsExceeded",
        ErrorName::IOError => "IOError",
        ErrorName::AccessDenied => "AccessDenied",
        ErrorName::NoSession => "NoSession",
        ErrorName::IsLocked => "IsLocked",
        ErrorName::NoSuchObject => "NoSuchObject",
        ErrorName::AgentTaken => "AgentTaken",
        ErrorName::OldRound => "OldRound",
    }
}

fn write_out(line: &mut Line, out: &Out) {
    match out {
        Out::Return { to: _, body } => write_body(line, body),
        Out::Error { to: _, name } => line.add(error_word(*name)),
        Out::Signal(signal) => write_signal(line, signal.signal()),
    }
}

/// Writes outputs, with `; ` between them.
pub fn write_outs(line: &mut Line, outs: &[Out]) {
    let mut between = "";
    for out in outs {
        line.add(between);
        write_out(line, out);
        between = "; ";
    }
}
