// The four lines about a load (docs/SERVICE.md, "The load").
ghost use Rattle.std.specs.Prelude.{◌≡◌, ◌++◌, IfOk, OnOk};
ghost use Rattle.load_plan.specs.Lines.{line, summary};

use crate::OutOfMemory;
use crate::counts::Counts;
use itoa::Buffer;
use std::alloc::Global;

// Appends a line: a word, a number, and its end.
fn add_line(text: &mut Vec<u8>, word: &[u8], number: u64) -> Result<(), OutOfMemory>
    ensures { OnOk result (text.new.items ≡ text.old.items ++ line word.now number) }
{
    let mut buffer = Buffer::new();
    text.extend_from_slice(word)?;
    text.extend_from_slice(buffer.format(number).as_bytes())?;
    text.push(b'\n')?;
    Ok(())
}

/// The lines `items A`, `found B`, `read C` and `errors D`, each with its ending.
pub fn summary(alloc: Global, counts: Counts) -> Result<Vec<u8>, OutOfMemory>
    ensures { IfOk result (λ text. text.items ≡ summary counts) }
{
    let mut text = Vec::new(alloc);
    add_line(&mut text, b"items ".as_slice(), counts.items)?;
    add_line(&mut text, b"found ".as_slice(), counts.found)?;
    add_line(&mut text, b"read ".as_slice(), counts.read)?;
    add_line(&mut text, b"errors ".as_slice(), counts.errors)?;
    Ok(text)
}
