ghost use Rattle.std.specs.Prelude.{◌≡◌, ◌<◌, IfOk, false};
ghost use Rattle.std.specs.Fmt.{digit_glyph};
ghost use Rattle.kr_names.specs.Escape.{escaped, hex_value, unescaped, IsEscapeOf};
ghost use Rattle.kr_names.specs.Reads.{Reads};

use kr_base::{OutOfMemory, Stem, Text};
use std::alloc::Global;

/// The lower-case hex digit of a number below 16.
fn hex_digit(number: u8) -> u8
    requires { number < 16 }
    ensures { result ≡ digit_glyph false number }
{
    if number < 10 {
        b'0' + number
    } else {
        b'a' + (number - 10)
    }
}

/// The number of a lower-case hex digit, and 0 for any other byte.
fn hex_value(digit: u8) -> u8
    ensures value { result ≡ hex_value digit }
    ensures small { result < 16 }
{
    match digit {
        b'0'..=b'9' => digit - b'0',
        b'a'..=b'f' => digit - b'a' + 10,
        _ => 0,
    }
}

/// The bytes as a path spells them.
fn escape(alloc: Global, bytes: &[u8]) -> Result<Vec<u8>, OutOfMemory>
    ensures { IfOk result (λ text. text.items ≡ escaped bytes.now) }
{
    let mut text = Vec::with_capacity(alloc, bytes.len())?;
    for byte in bytes {
        if byte.is_ascii_alphanumeric() {
            text.push(*byte)?;
        } else {
            let digits = [b'_', hex_digit(*byte / 16), hex_digit(*byte % 16)];
            text.extend_from_slice(&digits)?;
        }
    }
    Ok(text)
}

/// The bytes that a path spells like this, whether or not the text is the one that they are escaped to.
fn unescape(alloc: Global, text: &[u8]) -> Result<Vec<u8>, OutOfMemory>
    ensures { IfOk result (λ bytes. bytes.items ≡ unescaped text.now) }
{
    let mut bytes = Vec::with_capacity(alloc, text.len())?;
    let mut place = 0;
    while place < text.len() {
        if text[place] == b'_' && text.len() - place > 2 {
            bytes.push(hex_value(text[place + 1]) * 16 + hex_value(text[place + 2]))?;
            place += 3;
        } else {
            bytes.push(text[place])?;
            place += 1;
        }
    }
    Ok(bytes)
}

/// The stem as a path spells it: each byte that isn't a letter or digit becomes `_` and two
/// lower-case hex digits.
pub fn escaped_stem(alloc: Global, stem: &Stem) -> Result<Text, OutOfMemory>
    ensures { IfOk result (λ text. IsEscapeOf stem.now text) }
{
    match Text::from_utf8(escape(alloc, stem.as_str().as_bytes())?) {
        Some(text) => Ok(text),
        None => unreachable!(),
    }
}

/// The stem that a path spells like this.
///
/// None if no stem is spelled in this way: the text isn't in that form, or the bytes that it spells
/// aren't a stem.
pub fn stem_of_escaped(alloc: Global, text: &str) -> Result<Option<Stem>, OutOfMemory>
    ensures { IfOk result (Reads (λ stem. IsEscapeOf stem text.now)) }
{
    let Some(read) = Text::from_utf8(unescape(alloc, text.as_bytes())?) else {
        return Ok(None);
    };
    let Some(stem) = Stem::from_text(read) else {
        return Ok(None);
    };
    // Several texts are read as this stem, but only one is its spelling.
    let spelled = escape(alloc, stem.as_str().as_bytes())?;
    if spelled.as_slice() == text.as_bytes() {
        Ok(Some(stem))
    } else {
        Ok(None)
    }
}
