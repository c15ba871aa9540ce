// What is printed.
ghost use Rattle.std.specs.Prelude.{◌≡◌, ◌++◌, ◌∷◌, [], IfOk, OnOk, codes};
ghost use Rattle.std.specs.List.{flat_map};
ghost use Rattle.tool_script.specs.Script.{open_line, locked_line, matches_printed, counted};

use crate::OutOfMemory;
use itoa::Buffer;
use kr_base::{Bytes, Text};
use std::alloc::Global;

// Appends a line for each path, with this ending.
fn add_open(text: &mut Vec<u8>, paths: &[Text]) -> Result<(), OutOfMemory>
    ensures { OnOk result (text.new.items ≡ text.old.items ++ flat_map open_line paths.now) }
{
    for path in paths {
        text.extend_from_slice(path.as_bytes())?;
        text.push(b'\n')?;
    }
    Ok(())
}

// The same for locked matches.
fn add_locked(text: &mut Vec<u8>, paths: &[Text]) -> Result<(), OutOfMemory>
    ensures { OnOk result (text.new.items ≡ text.old.items ++ flat_map locked_line paths.now) }
{
    for path in paths {
        text.extend_from_slice(path.as_bytes())?;
        text.extend_from_slice(b" locked\n".as_slice())?;
    }
    Ok(())
}

/// The lines of the matches, the unlocked ones first.
pub fn matches_printed(
    alloc: Global,
    unlocked: &[Text],
    locked: &[Text],
) -> Result<Bytes, OutOfMemory>
    ensures { IfOk result (λ text. text ≡ matches_printed unlocked.now locked.now) }
{
    let mut text = Vec::new(alloc);
    add_open(&mut text, unlocked)?;
    add_locked(&mut text, locked)?;
    Ok(Bytes::new(text))
}

/// A line of a word and a number.
pub fn counted(alloc: Global, word: &[u8], number: usize) -> Result<Bytes, OutOfMemory>
    ensures { IfOk result (λ text. text ≡ counted word.now number) }
{
    let mut buffer = Buffer::new();
    let mut text = Vec::new(alloc);
    text.extend_from_slice(word)?;
    text.push(b' ')?;
    text.extend_from_slice(buffer.format(number as u64).as_bytes())?;
    text.push(b'\n')?;
    Ok(Bytes::new(text))
}
