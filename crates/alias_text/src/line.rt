// One line of the text.
ghost use Rattle.std.specs.Prelude.{◌≢◌, IfOk, MatchOption, All};
ghost use Rattle.kr_names.specs.Reads.{Reads};
ghost use Rattle.alias_text.specs.Line.{IsCut, IsPair};

use kr_base::{OutOfMemory, Stem, Text};
use kr_names::{is_alias_name, stem_of_escaped};
use std::alloc::Global;
use std::str;

/// The first line, without its ending, and the bytes after it. None if no line ends.
pub fn cut_line(bytes: &[u8]) -> Option<(&[u8], &[u8])>
    ensures { MatchOption result (All (λ byte. byte ≢ 10) bytes.now)
        (λ parts. IsCut 10 bytes.now parts.0.now parts.1.now) }
{
    let end = bytes.iter().position(|byte| *byte == b'\n')?;
    Some((&bytes[..end], &bytes[end + 1..]))
}

/// The alias that the line gives, and the stem that it stands for; None if it gives none.
pub fn pair_of(alloc: Global, line: &[u8]) -> Result<Option<(Text, Stem)>, OutOfMemory>
    ensures { IfOk result (Reads (λ pair. IsPair line.now pair.0 pair.1)) }
{
    match str::from_utf8(line) {
        Ok(line) => pair_in(alloc, line),
        Err(_) => Ok(None),
    }
}

// The same for a line of UTF-8.
fn pair_in(alloc: Global, line: &str) -> Result<Option<(Text, Stem)>, OutOfMemory>
    ensures { IfOk result (Reads (λ pair. IsPair line.now pair.0 pair.1)) }
{
    let Some((name, escaped)) = cut_pair(line) else {
        return Ok(None);
    };
    if !is_alias_name(name) {
        return Ok(None);
    }
    let Some(stem) = stem_of_escaped(alloc, escaped)? else {
        return Ok(None);
    };
    match Text::from_str(alloc, name)? {
        Some(name) => Ok(Some((name, stem))),
        None => Ok(None),
    }
}

// The parts of the line before and after its first `=`.
fn cut_pair(line: &str) -> Option<(&str, &str)>
    ensures { MatchOption result (All (λ byte. byte ≢ 61) line.now)
        (λ parts. IsCut 61 line.now parts.0.now parts.1.now) }
{
    line.split_once('=')
}
