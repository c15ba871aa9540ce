// The paths of names, and the way back (docs/SERVICE.md, "Names and paths").
ghost use Rattle.std.specs.Prelude.{◌≡◌, ◌≢◌, ℕ, ◌++◌, List, All, MatchOption, IfOk, string_bytes};
ghost use Rattle.kr_names.specs.Escape.{IsEscapeOf};
ghost use Rattle.kr_names.specs.Naming.{name_of_path};
ghost use Rattle.kr_names.specs.Path.{service, agent, collections, aliases, sessions, prompts, HasPath, IsPathOf, IsNumber, IsNumbered, IsCut, IsNoWhole};
ghost use Rattle.kr_names.specs.Reads.{Reads};

use crate::escape::{escaped_stem, stem_of_escaped};
use crate::object_name::{ObjectName, is_alias_name};
use itoa::Buffer;
use kr_base::{ItemId, OutOfMemory, PromptId, SessionId, Stem, Text};
use std::alloc::Global;

const SERVICE: &str = "/org/freedesktop/secrets";

const AGENT: &str = "/org/freedesktop/secrets/agent";

const COLLECTIONS: &str = "/org/freedesktop/secrets/collection/";

const ALIASES: &str = "/org/freedesktop/secrets/aliases/";

const SESSIONS: &str = "/org/freedesktop/secrets/session/s";

const PROMPTS: &str = "/org/freedesktop/secrets/prompt/p";

/// The path of a name, as a string.
#[tactic(auto, unfolding(crate::specs::Path::service, crate::specs::Path::agent, crate::specs::Path::collections, crate::specs::Path::aliases, crate::specs::Path::sessions, crate::specs::Path::prompts))]
fn spelled(alloc: Global, name: &ObjectName) -> Result<String, OutOfMemory>
    requires { HasPath name.now }
    ensures { IfOk result (λ path. IsPathOf name.now (string_bytes path)) }
{
    match name {
        ObjectName::Nothing => String::from_str(alloc, "/"),
        ObjectName::Service => String::from_str(alloc, SERVICE),
        ObjectName::Agent => String::from_str(alloc, AGENT),
        ObjectName::Collection(stem) => {
            let escaped = escaped_stem(alloc, stem)?;
            format!(in alloc; "{COLLECTIONS}{escaped}")
        }
        ObjectName::Item(stem, item) => {
            let escaped = escaped_stem(alloc, stem)?;
            let number = item.0;
            format!(in alloc; "{COLLECTIONS}{escaped}/{number}")
        }
        ObjectName::Alias(name) => format!(in alloc; "{ALIASES}{name}"),
        ObjectName::Session(session) => {
            let number = session.0;
            format!(in alloc; "{SESSIONS}{number}")
        }
        ObjectName::Prompt(prompt) => {
            let number = prompt.0;
            format!(in alloc; "{PROMPTS}{number}")
        }
    }
}

/// The name with this path, among those that have no parts.
#[tactic(auto, unfolding(crate::specs::Path::service, crate::specs::Path::agent))]
fn whole(path: &str) -> Option<ObjectName>
    ensures { MatchOption result (IsNoWhole path.now) (λ name. IsPathOf name path.now) }
{
    if path == "/" {
        Some(ObjectName::Nothing)
    } else if path == SERVICE {
        Some(ObjectName::Service)
    } else if path == AGENT {
        Some(ObjectName::Agent)
    } else {
        None
    }
}

/// What follows a prefix of the path.
fn behind<'a>(path: &'a str, front: &str) -> Option<&'a str>
    ensures { MatchOption result ((rest : List ℕ) → path.now ≡ front.now ++ rest → ⊥)
        (λ rest. path.now ≡ front.now ++ rest.now) }
{
    path.strip_prefix(front)
}

/// The number that the text spells in decimal digits, without a sign or a leading zero.
fn number_of(text: &str) -> Option<u64>
    ensures { Reads (λ number. IsNumber number text.now) result }
{
    match text.parse::<u64>() {
        Ok(number) => {
            let mut buffer = Buffer::new();
            if buffer.format(number) == text {
                Some(number)
            } else {
                None
            }
        }
        Err(_) => None,
    }
}

/// The number, at least 1, whose decimal digits follow a prefix of the path.
fn numbered(path: &str, front: &str) -> Option<u64>
    ensures { Reads (IsNumbered front.now path.now) result }
{
    let Some(digits) = behind(path, front) else {
        return None;
    };
    let Some(number) = number_of(digits) else {
        return None;
    };
    if number == 0 {
        return None;
    }
    Some(number)
}

/// What comes before the first slash, and what comes after it.
fn cut(text: &str) -> Option<(&str, &str)>
    ensures { MatchOption result (All (λ byte. byte ≢ 47) text.now)
        (λ parts. IsCut text.now parts.0.now parts.1.now) }
{
    text.split_once('/')
}

/// The alias with this path.
fn alias_of(alloc: Global, path: &str) -> Result<Option<Text>, OutOfMemory>
    ensures { IfOk result (Reads (λ alias. IsPathOf (ObjectName.Alias alias) path.now)) }
{
    let Some(name) = behind(path, ALIASES) else {
        return Ok(None);
    };
    if !is_alias_name(name) {
        return Ok(None);
    }
    Text::from_str(alloc, name)
}

/// The collection with this path.
fn collection_of(alloc: Global, path: &str) -> Result<Option<Stem>, OutOfMemory>
    ensures { IfOk result (Reads (λ stem. IsPathOf (ObjectName.Collection stem) path.now)) }
{
    match behind(path, COLLECTIONS) {
        Some(escaped) => stem_of_escaped(alloc, escaped),
        None => Ok(None),
    }
}

/// The item with this path: its collection, and its number there.
fn item_of(alloc: Global, path: &str) -> Result<Option<(Stem, ItemId)>, OutOfMemory>
    ensures { IfOk result (Reads (λ it. IsPathOf (ObjectName.Item it.0 it.1) path.now)) }
{
    let Some(below) = behind(path, COLLECTIONS) else {
        return Ok(None);
    };
    let Some((escaped, digits)) = cut(below) else {
        return Ok(None);
    };
    let Some(number) = number_of(digits) else {
        return Ok(None);
    };
    let Ok(number) = u32::try_from(number) else {
        return Ok(None);
    };
    match stem_of_escaped(alloc, escaped)? {
        Some(stem) => Ok(Some((stem, ItemId(number)))),
        None => Ok(None),
    }
}

/// The name with this path.
///
/// None exactly if no name has the path: it has none of the forms, its stem isn't spelled in the
/// one way or isn't a stem, or a number has a sign, a leading zero or too many digits.
pub fn parse_path(alloc: Global, path: &str) -> Result<Option<ObjectName>, OutOfMemory>
    ensures read { IfOk result (Reads (λ name. IsPathOf name path.now)) }
    ensures named { IfOk result (λ answer. answer ≡ name_of_path path.now) }
{
    if let Some(name) = whole(path) {
        return Ok(Some(name));
    }
    if let Some(number) = numbered(path, SESSIONS) {
        return Ok(Some(ObjectName::Session(SessionId(number))));
    }
    if let Some(number) = numbered(path, PROMPTS) {
        return Ok(Some(ObjectName::Prompt(PromptId(number))));
    }
    if let Some(alias) = alias_of(alloc, path)? {
        return Ok(Some(ObjectName::Alias(alias)));
    }
    if let Some((stem, item)) = item_of(alloc, path)? {
        return Ok(Some(ObjectName::Item(stem, item)));
    }
    match collection_of(alloc, path)? {
        Some(stem) => Ok(Some(ObjectName::Collection(stem))),
        None => Ok(None),
    }
}

/// The one path that `parse_path` reads as the name.
pub fn path_of(alloc: Global, name: &ObjectName) -> Result<Text, OutOfMemory>
    requires { HasPath name.now }
    ensures { IfOk result (λ path. IsPathOf name.now path) }
{
    match Text::new(spelled(alloc, name)?) {
        Some(path) => Ok(path),
        None => unreachable!(),
    }
}
