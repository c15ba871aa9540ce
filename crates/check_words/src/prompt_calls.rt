// Calls of prompts and of the agent from words.

use crate::secrets::{alias, label, object, objects};
use crate::values::{bytes_of, number};
use kr_base::{Bytes, PromptId};
use secret_calls::{AliasName, Call};
use std::alloc::Global;

// The alias with this name; none if it is empty.
fn alias_of(alloc: Global, name: &str) -> Option<Option<AliasName>> {
    if name.is_empty() {
        return Some(None);
    }
    Some(Some(alias(alloc, name)?))
}

// A collection with this label, and after `=` with this alias.
fn creating(alloc: Global, words: &str) -> Option<Call> {
    let (words, name) = words.split_once('=').unwrap_or((words, ""));
    let label = label(alloc, words)?;
    let alias = alias_of(alloc, name)?;
    Some(Call::CreateCollection { label, alias })
}

fn unlocking(alloc: Global, words: &str) -> Option<Call> {
    let objects = objects(alloc, words)?;
    Some(Call::Unlock { objects })
}

// A change of the password of this object.
fn changing(alloc: Global, path: &str) -> Option<Call> {
    let collection = object(alloc, path)?;
    Some(Call::ChangePassword { collection })
}

fn prompting(words: &str) -> Option<Call> {
    let prompt = PromptId(number(words)?);
    Some(Call::Prompt { prompt })
}

fn dismissing(words: &str) -> Option<Call> {
    let prompt = PromptId(number(words)?);
    Some(Call::Dismiss { prompt })
}

// The prompt with this number; none for `?`.
fn prompt_of(words: &str) -> Option<Option<PromptId>> {
    if words == "?" {
        return Some(None);
    }
    Some(Some(PromptId(number(words)?)))
}

// A prompt and its round, with ` in ` between them.
fn refusing(words: &str) -> Option<Call> {
    let (prompt, round) = words.split_once(" in ")?;
    let prompt = prompt_of(prompt)?;
    let round = number(round)?;
    Some(Call::Refuse { prompt, round })
}

// A prompt and its round, and after ` with ` a password.
fn answering(alloc: Global, words: &str) -> Option<Call> {
    let (asked, password) = words.split_once(" with ")?;
    let (prompt, round) = asked.split_once(" in ")?;
    let prompt = prompt_of(prompt)?;
    let round = number(round)?;
    let password = Bytes::new(bytes_of(alloc, password)?);
    Some(Call::Answer {
        prompt,
        round,
        password,
    })
}

/// A call about prompts or of the agent, or Ping. `hold` is an answer, too.
pub fn prompt_call(alloc: Global, what: &str, words: &str) -> Option<Call> {
    match what {
        "create" => creating(alloc, words),
        "unlock" => unlocking(alloc, words),
        "change" => changing(alloc, words),
        "prompt" => prompting(words),
        "dismiss" => dismissing(words),
        "register" => Some(Call::Register),
        "unregister" => Some(Call::Unregister),
        "answer" => answering(alloc, words),
        "hold" => answering(alloc, words),
        "refuse" => refusing(words),
        _ => Some(Call::Ping),
    }
}
