// Keys and changes of words.
ghost use Rattle.std.specs.Prelude.{◌≤◌, IfOk};

use crate::checks::{cell, number};
use collection_store::{Change, ChangeRefused};
use key_derivation::{Derived, derive};
use kr_base::{Attributes, Bytes, ItemId, Text};
use std::alloc::Global;
use std::test::Fail;

/// A text without zero bytes.
pub fn text_of(alloc: Global, text: &str) -> Result<Text, Fail> {
    Ok(Text::from_str(alloc, text)?.ok_or("a zero byte")?)
}

// The pair of a word.
fn pair_of(alloc: Global, word: &str) -> Result<(Text, Text), Fail> {
    let (name, value) = word.split_once('=').ok_or("pair")?;
    let name = text_of(alloc, name)?;
    Ok((name, text_of(alloc, value)?))
}

/// The attributes of these words.
pub fn attributes_of(alloc: Global, words: &str) -> Result<Attributes, Fail> {
    let mut pairs = Vec::new(alloc);
    for word in words.split_whitespace() {
        pairs.push(pair_of(alloc, word)?)?;
    }
    Ok(Attributes::from_pairs(alloc, pairs)?)
}

// The salt and the iterations that belong to a password: those of `later` differ from all others'.
fn salt_of(password: &str) -> ([u8; 8], u32)
    ensures { result.1 ≤ 1000000 }
{
    if password == "later" {
        (*b"othersal", 2)
    } else {
        (*b"saltsalt", 3)
    }
}

/// The key of a password.
pub fn key_of(alloc: Global, password: &str) -> Result<Derived, Fail>
    ensures { IfOk result (λ key. key.iterations ≤ 1000000) }
{
    let bytes = Bytes::from_slice(alloc, password.as_bytes())?;
    let (salt, iterations) = salt_of(password);
    Ok(derive(bytes, salt, iterations))
}

// An item that is added, or that replaces an equal one.
fn added(alloc: Global, words: &str, replace: bool) -> Result<Change, Fail> {
    Ok(Change::Add {
        label: text_of(alloc, "label")?,
        attributes: attributes_of(alloc, words)?,
        value: Bytes::from_slice(alloc, b"secret")?,
        content: text_of(alloc, "text/plain")?,
        replace,
    })
}

fn with_secret(alloc: Global, id: ItemId, content: &str) -> Result<Change, Fail> {
    Ok(Change::SetSecret {
        id,
        value: Bytes::from_slice(alloc, b"other")?,
        content: text_of(alloc, content)?,
    })
}

fn with_label(alloc: Global, id: ItemId, label: &str) -> Result<Change, Fail> {
    Ok(Change::SetLabel {
        id,
        label: text_of(alloc, label)?,
    })
}

fn with_attributes(alloc: Global, id: ItemId, words: &str) -> Result<Change, Fail> {
    Ok(Change::SetAttributes {
        id,
        attributes: attributes_of(alloc, words)?,
    })
}

fn with_name(alloc: Global, label: &str) -> Result<Change, Fail> {
    Ok(Change::SetName {
        label: text_of(alloc, label)?,
    })
}

/// The id in the second cell of a row.
pub fn id_of(row: &str) -> Result<ItemId, Fail> {
    Ok(ItemId(u32::try_from(number(cell(row, 1))?).ok().ok_or("an id")?))
}

// The change of one item.
fn item_change(alloc: Global, row: &str) -> Result<Change, Fail> {
    let id = id_of(row)?;
    match cell(row, 0) {
        "secret" => with_secret(alloc, id, cell(row, 2)),
        "label" => with_label(alloc, id, cell(row, 2)),
        "attributes" => with_attributes(alloc, id, cell(row, 2)),
        "remove" => Ok(Change::Remove { id }),
        _ => Err("no such change")?,
    }
}

/// The change that a row names: its name, an id, and attributes or a text.
pub fn change_of(alloc: Global, row: &str) -> Result<Change, Fail> {
    match cell(row, 0) {
        "add" => added(alloc, cell(row, 2), false),
        "replace" => added(alloc, cell(row, 2), true),
        "name" => with_name(alloc, cell(row, 2)),
        _ => item_change(alloc, row),
    }
}

/// What a refused change is called.
pub fn refusal(refused: &ChangeRefused) -> &'static str {
    match refused {
        ChangeRefused::Item(_) => "item",
        ChangeRefused::TooLarge => "too large",
        ChangeRefused::FaultBefore => "before",
        ChangeRefused::FaultUnsure => "unsure",
        ChangeRefused::OutOfMemory => "no memory",
    }
}
