use crate::checks::{cell, holds, number, part, same_text};
use crate::words::{joined, letters, text_of};
use kr_base::{ItemId, PromptId, SessionId, Stem};
use kr_names::{ObjectName, escaped_stem, parse_path, path_of, stem_of_escaped};
use std::alloc::{AllocGlobal, Global};
use std::process::Abort;
use std::test::Fail;

// Each stem, and how it is spelled in a path.
const STEMS: &str = "\
login|login
a_b|a_5fb
Default keyring|Default_20keyring
\u{e9}|_c3_a9
~|_7e
";

// Texts that spell no stem.
const NO_STEMS: &str = "

a_b
_5F
_6
_61
_00
_2f
_c3
a b
\u{e9}
";

fn is_spelled(rt: &(impl AllocGlobal + Abort), row: &str) -> Result<(), Fail> {
    let stem = cell(row, 0);
    let want = cell(row, 1);
    let stem = Stem::new(rt.alloc(), stem)?.ok_or("no stem")?;
    let spelling = escaped_stem(rt.alloc(), &stem)?;
    same_text(rt, spelling.as_str(), want, row);
    Ok(())
}

#[test]
fn a_stem_is_spelled_in_one_way(rt: HostRuntime) -> Result<(), Fail> {
    for row in STEMS.lines() {
        is_spelled(&rt, row)?;
    }
    for text in NO_STEMS.lines() {
        let stem = stem_of_escaped(rt.alloc(), text)?;
        holds(&rt, stem.is_none(), text);
    }
    Ok(())
}

// Whether the name's path is this one.
fn is_path_of(alloc: Global, name: &ObjectName, path: &str) -> Result<bool, Fail> {
    let copy = name.copy()?;
    if !copy.has_path() {
        return Ok(false);
    }
    Ok(path_of(alloc, &copy)?.as_str() == path)
}

fn item_told(alloc: Global, stem: &Stem, item: ItemId) -> Result<String, Fail> {
    let item = format!(in alloc; "{item:?}")?;
    let stem = stem.as_text();
    joined(
        alloc,
        &["Item(\"", stem.as_str(), "\", ", item.as_str(), ")"],
    )
}

fn debug_told(alloc: Global, name: &ObjectName) -> Result<String, Fail> {
    Ok(format!(in alloc; "{name:?}")?)
}

// A name with its texts, which `Debug` doesn't print.
fn shown(alloc: Global, name: &ObjectName) -> Result<String, Fail> {
    match name {
        ObjectName::Collection(stem) => {
            joined(alloc, &["Collection(\"", stem.as_text().as_str(), "\")"])
        }
        ObjectName::Item(stem, item) => item_told(alloc, stem, *item),
        ObjectName::Alias(alias) => joined(alloc, &["Alias(\"", alias.as_str(), "\")"]),
        other => debug_told(alloc, other),
    }
}

// Prints the name that has this path, if the path of that name is the same.
fn read(alloc: Global, path: &str) -> Result<String, Fail> {
    let Some(name) = parse_path(alloc, path)? else {
        return Ok(String::from_str(alloc, "no name")?);
    };
    if !is_path_of(alloc, &name, path)? {
        return Ok(String::from_str(alloc, "another path")?);
    }
    shown(alloc, &name)
}

fn is_read(rt: &(impl AllocGlobal + Abort), path: &str, want: &str) -> Result<(), Fail> {
    let told = read(rt.alloc(), path)?;
    same_text(rt, told.as_str(), want, path);
    Ok(())
}

fn is_read_below(rt: &(impl AllocGlobal + Abort), row: &str) -> Result<(), Fail> {
    let path = joined(rt.alloc(), &["/org/freedesktop/secrets", cell(row, 0)])?;
    is_read(rt, path.as_str(), cell(row, 1))
}

// What follows the root of a path, and its name.
const NAMES: &str = "\
|Service
/agent|Agent
/collection/login|Collection(\"login\")
/collection/a_5fb|Collection(\"a_b\")
/collection/Default_5fkeyring|Collection(\"Default_keyring\")
/collection/a/0|Item(\"a\", ItemId(0))
/collection/a_5fb/4294967295|Item(\"a_b\", ItemId(4294967295))
/aliases/default|Alias(\"default\")
/aliases/A_9|Alias(\"A_9\")
/session/s1|Session(SessionId(1))
/session/s18446744073709551615|Session(SessionId(18446744073709551615))
/prompt/p1|Prompt(PromptId(1))
/prompt/p20|Prompt(PromptId(20))
/|no name
x|no name
/agent/|no name
/agents|no name
/collection|no name
/collection/|no name
/collection/a_b|no name
/collection/_5F|no name
/collection/_61|no name
/collection/_2f|no name
/collection/_c3|no name
/collection/a/|no name
/collection/a/01|no name
/collection/a/+1|no name
/collection/a/1x|no name
/collection/a/1/2|no name
/collection//1|no name
/collection/a/4294967296|no name
/aliases/|no name
/aliases/a-b|no name
/session/s0|no name
/session/s01|no name
/session/s|no name
/session/1|no name
/session/s18446744073709551616|no name
/prompt/p0|no name
/prompt/s1|no name
";

// Whole paths, and their names.
const PATHS: &str = "\
/|Nothing
|no name
//|no name
/org|no name
org/freedesktop/secrets|no name
/org/freedesktop/secret|no name
";

#[test]
fn a_path_is_that_of_one_name_or_of_none(rt: HostRuntime) -> Result<(), Fail> {
    for row in NAMES.lines() {
        is_read_below(&rt, row)?;
    }
    for row in PATHS.lines() {
        let path = cell(row, 0);
        let want = cell(row, 1);
        is_read(&rt, path, want)?;
    }
    Ok(())
}

// Lengths of a stem and an alias, and whether they may be so long.
const LENGTHS: &str = "\
collection/243|true
collection/244|false
aliases/64|true
aliases/65|false
";

// The path of a name of this kind with this many letters.
fn long_path(alloc: Global, kind: &str, count: u32) -> Result<String, Fail> {
    let name = letters(alloc, count)?;
    joined(
        alloc,
        &["/org/freedesktop/secrets/", kind, "/", name.as_str()],
    )
}

fn is_name(alloc: Global, row: &str) -> Result<bool, Fail> {
    let count = number(part(cell(row, 0), '/', 1))?;
    let path = long_path(alloc, part(row, '/', 0), count)?;
    Ok(parse_path(alloc, path.as_str())?.is_some())
}

#[test]
fn a_name_has_its_length(rt: HostRuntime) -> Result<(), Fail> {
    for row in LENGTHS.lines() {
        let found = is_name(rt.alloc(), row)?;
        holds(&rt, found == (cell(row, 1) == "true"), row);
    }
    Ok(())
}

fn alias_has_path(alloc: Global, alias: &str) -> Result<bool, Fail> {
    Ok(ObjectName::Alias(text_of(alloc, alias)?).has_path())
}

#[test]
fn a_name_may_have_no_path(rt: HostRuntime) -> Result<(), Fail> {
    for row in "|false\na b|false\na_b|true\n".lines() {
        let alias = cell(row, 0);
        let want = cell(row, 1);
        let found = alias_has_path(rt.alloc(), alias)?;
        holds(&rt, found == (want == "true"), row);
    }
    let session = ObjectName::Session(SessionId(0));
    holds(&rt, !session.has_path(), "session 0");
    let prompt = ObjectName::Prompt(PromptId(0));
    holds(&rt, !prompt.has_path(), "prompt 0");
    let prompt = ObjectName::Prompt(PromptId(1));
    holds(&rt, prompt.has_path(), "prompt 1");
    Ok(())
}
