// The text that is written of aliases.
ghost use Rattle.std.specs.Prelude.{◌≡◌, ◌+◌, ◌∷◌, [], ◌++◌, ◌≤◌, ◌<◌, IfOk, length, filter, vec_len, vec_capacity, false};
ghost use Rattle.std.specs.Fmt.{digit_glyph};
ghost use Rattle.kr_names.specs.Escape.{escape, escaped};
ghost use Rattle.alias_text.specs.Pairs.{longest};
ghost use Rattle.alias_text.specs.Writing.{is_odd, line_of, text_of};

use kr_base::{OutOfMemory, Stem, Text};
use std::alloc::Global;

/// The text of the aliases, a line for each, in their order. It is written into one piece of memory,
/// whose size is computed first.
#[tactic(auto, unfolding(crate::specs::Writing::text_of))]
pub fn write_aliases(alloc: Global, aliases: &[(Text, Stem)]) -> Result<Vec<u8>, OutOfMemory>
    requires { length (text_of aliases.now) ≤ longest }
    ensures { IfOk result (λ text. text.items ≡ text_of aliases.now) }
{
    let mut text = Vec::with_capacity(alloc, size_of(aliases))?;
    for alias in aliases {
        put_line(&mut text, alias);
    }
    Ok(text)
}

// The number of bytes of the text of the aliases.
#[tactic(auto, unfolding(crate::specs::Writing::text_of))]
fn size_of(aliases: &[(Text, Stem)]) -> usize
    requires { length (text_of aliases.now) ≤ longest }
    ensures { result ≡ length (text_of aliases.now) }
{
    let mut size = 0;
    for alias in aliases {
        size += line_size(alias);
    }
    size
}

// The number of bytes of the line of an alias, with its ending.
fn line_size(alias: &(Text, Stem)) -> usize
    requires { length (line_of alias.now) + 1 ≤ longest }
    ensures { result ≡ length (line_of alias.now) + 1 }
{
    alias.0.len() + escaped_size(&alias.1) + 2
}

// The number of bytes of an escaped stem: each byte that isn't a letter or a digit takes three.
#[tactic(auto, using(crate::proofs::WritingLemmas::length_escaped))]
fn escaped_size(stem: &Stem) -> usize
    ensures { result ≡ length (escaped stem.now) }
{
    let bytes = stem.as_str().as_bytes();
    bytes.len() + 2 * odd_bytes(bytes)
}

// How many of the bytes aren't letters or digits.
fn odd_bytes(bytes: &[u8]) -> usize
    ensures count { result ≡ length (filter is_odd bytes.now) }
    ensures most { result ≤ length bytes.now }
{
    bytes
        .iter()
        .filter(|byte| !byte.is_ascii_alphanumeric())
        .count()
}

// Appends the line of an alias, with its ending. There is room for it.
fn put_line(text: &mut Vec<u8>, alias: &(Text, Stem))
    requires room { vec_len text.old + (length (line_of alias.now) + 1) ≤ vec_capacity text.old }
    ensures text { text.new.items ≡ text.old.items ++ (line_of alias.now ++ 10 ∷ []) }
    ensures kept { vec_capacity text.old ≤ vec_capacity text.new }
{
    text.extend_from_slice(alias.0.as_bytes()).unwrap();
    text.push(b'=').unwrap();
    put_escaped(text, alias.1.as_str().as_bytes());
    text.push(b'\n').unwrap();
}

// Appends a stem, escaped as in a path. There is room for it.
fn put_escaped(text: &mut Vec<u8>, stem: &[u8])
    requires room { vec_len text.old + length (escaped stem.now) ≤ vec_capacity text.old }
    ensures text { text.new.items ≡ text.old.items ++ escaped stem.now }
    ensures kept { vec_capacity text.old ≤ vec_capacity text.new }
{
    for byte in stem {
        put_byte(text, *byte);
    }
}

// Appends a byte of a stem, escaped as in a path. There is room for it.
fn put_byte(text: &mut Vec<u8>, byte: u8)
    requires room { vec_len text.old + length (escape byte) ≤ vec_capacity text.old }
    ensures text { text.new.items ≡ text.old.items ++ escape byte }
    ensures kept { vec_capacity text.old ≤ vec_capacity text.new }
{
    if byte.is_ascii_alphanumeric() {
        text.push(byte).unwrap();
    } else {
        let digits = [b'_', hex_digit(byte / 16), hex_digit(byte % 16)];
        text.extend_from_slice(&digits).unwrap();
    }
}

// The lower-case hex digit of a number below 16.
fn hex_digit(number: u8) -> u8
    requires { number < 16 }
    ensures { result ≡ digit_glyph false number }
{
    if number < 10 {
        b'0' + number
    } else {
        b'a' + (number - 10)
    }
}
