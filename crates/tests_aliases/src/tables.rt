// Tables of aliases over a slot in memory, and what is done with them.

use crate::checks::{cell, joined, numbers};
use alias_table::{AliasRefused, AliasTable};
use alias_text::read_aliases;
use kr_base::{Bytes, Stem, Text};
use kr_memory_disk::MemorySlot;
use replace_slot::{FileCell, Image};
use std::alloc::Global;
use std::test::Fail;

/// The table of a file of these bytes, over a slot that fails the calls with these numbers; those named
/// again the disk does all the same.
pub fn table_of(
    alloc: Global,
    text: &[u8],
    failing: &str,
    done: &str,
) -> Result<AliasTable<MemorySlot>, Fail> {
    let aliases = read_aliases(alloc, text)?;
    let image = Bytes::from_slice(alloc, text)?;
    let failing = numbers(alloc, failing)?;
    let done = numbers(alloc, done)?;
    let slot = MemorySlot::new(alloc, Some(image), failing, done);
    let old = Image::new(alloc, text.to_vec(alloc)?)?;
    let cell = FileCell::known(slot, Some(old));
    Ok(AliasTable::new(alloc, cell, aliases))
}

/// The bytes of a text in which `;` is a line ending.
pub fn lines_of(alloc: Global, text: &str) -> Result<Vec<u8>, Fail> {
    let mut bytes = Vec::new(alloc);
    for sign in text.as_bytes() {
        bytes.push(if *sign == b';' { b'\n' } else { *sign })?;
    }
    Ok(bytes)
}

/// The way back; `?` stands for bytes that aren't a text.
pub fn signs_of(alloc: Global, bytes: &[u8]) -> Result<String, Fail> {
    let mut text = String::new(alloc);
    for byte in bytes {
        text.push(if *byte == b'\n' {
            ';'
        } else {
            char::from(*byte)
        })?;
    }
    Ok(text)
}

fn stem_of(alloc: Global, text: &str) -> Result<Stem, Fail> {
    Ok(Stem::new(alloc, text)?.ok_or("a stem")?)
}

/// The stems of a cell, with a comma between them.
pub fn stems_of(alloc: Global, cell: &str) -> Result<Vec<Stem>, Fail> {
    let mut stems = Vec::new(alloc);
    for text in cell.split(',') {
        if !text.is_empty() {
            stems.push(stem_of(alloc, text)?)?;
        }
    }
    Ok(stems)
}

// What a refusal is called.
fn refusal(refused: AliasRefused) -> &'static str {
    match refused {
        AliasRefused::BadName => "bad name",
        AliasRefused::TooMany => "too many",
        AliasRefused::FaultBefore => "before",
        AliasRefused::FaultUnsure => "unsure",
        AliasRefused::FaultRead => "read",
        AliasRefused::OutOfMemory => "memory",
    }
}

/// Sets an alias, as `A=X`, or takes it out, as `A=`, and gives what was answered.
pub fn set(
    alloc: Global,
    table: &mut AliasTable<MemorySlot>,
    change: &str,
    live: &[Stem],
) -> Result<&'static str, Fail> {
    let name = Text::from_str(alloc, cell(change, '=', 0))?.ok_or("a zero byte")?;
    let stem = match cell(change, '=', 1) {
        "" => None,
        text => Some(stem_of(alloc, text)?),
    };
    match table.prepare(name, stem, live) {
        Ok(change) => match table.set(change) {
            Ok(()) => Ok("ok"),
            Err(refused) => Ok(refusal(refused)),
        },
        Err(refused) => Ok(refusal(refused)),
    }
}

/// The aliases of the table, each as `A=X;`, with the stem as it is.
pub fn aliases_of(alloc: Global, table: &AliasTable<MemorySlot>) -> Result<String, Fail> {
    let mut text = String::new(alloc);
    for (name, stem) in table.aliases() {
        let alias = joined(alloc, &[name.as_str(), "=", stem.as_str(), ";"])?;
        text.push_str(alias.as_str())?;
    }
    Ok(text)
}

/// The table's slot.
pub fn slot_of(table: AliasTable<MemorySlot>) -> MemorySlot {
    table.into_cell().into_slot()
}
