// The whole text.
ghost use Rattle.std.specs.Prelude.{◌++◌, ◌∷◌, [], ℕ, List, IfOk, OnOk};
ghost use Rattle.kr_base.specs.Attributes.{Gathers};
ghost use Rattle.alias_text.specs.Pairs.{AliasesOf, Gives, LinesGive};

use crate::line::{cut_line, pair_of};
use kr_base::{OutOfMemory, Stem, Text};
use std::alloc::Global;
use std::collections::BTreeMap;

/// The most bytes that the file may have; a longer one gives no aliases.
pub const LONGEST: usize = 1_048_576;

/// The aliases that the bytes of the file give, each with the stem that it stands for, in byte order of
/// their names. A line of another form is skipped, the later of two lines with the same name counts,
/// and more than 1,048,576 bytes give no aliases.
pub fn read_aliases(alloc: Global, bytes: &[u8]) -> Result<Vec<(Text, Stem)>, OutOfMemory>
    ensures { IfOk result (λ pairs. AliasesOf bytes.now pairs.items) }
{
    if bytes.len() > LONGEST {
        return Ok(Vec::new(alloc));
    }
    aliases_in(alloc, bytes)
}

// The same for any number of bytes.
fn aliases_in(alloc: Global, bytes: &[u8]) -> Result<Vec<(Text, Stem)>, OutOfMemory>
    ensures { IfOk result (λ pairs. LinesGive bytes.now pairs.items) }
{
    let mut pairs = Vec::new(alloc);
    let mut rest = bytes;
    while let Some((line, after)) = cut_line(rest) {
        add(alloc, line, &mut pairs)?;
        rest = after;
    }
    gathered(alloc, pairs)
}

// Appends the alias that the line gives, if it gives one.
fn add(alloc: Global, line: &[u8], pairs: &mut Vec<(Text, Stem)>) -> Result<(), OutOfMemory>
    ensures { (lines : List (List ℕ)) → Gives lines pairs.old.items
        → OnOk result (Gives (lines ++ line.now ∷ []) pairs.new.items) }
{
    if let Some(pair) = pair_of(alloc, line)? {
        pairs.push(pair)?;
    }
    Ok(())
}

// The pairs in byte order of their names; of pairs with the same name, the last one.
fn gathered(alloc: Global, pairs: Vec<(Text, Stem)>) -> Result<Vec<(Text, Stem)>, OutOfMemory>
    ensures { IfOk result (λ made. Gathers pairs.items made.items) }
{
    let gathered: BTreeMap<Text, Stem> = pairs.into_iter().collect(alloc)?;
    Ok(gathered.into_iter().collect(alloc)?)
}
