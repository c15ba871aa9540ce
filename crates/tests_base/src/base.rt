use crate::checks::{cell, holds, number, part, same_number, same_text};
use crate::words::{joined, letters, text_of};
use kr_base::{
    AttrValue, Attributes, Bytes, ConnId, HashedPair, HashedValue, ItemId, PromptId, SessionId,
    Stem, Text,
};
use std::alloc::{AllocGlobal, Global};
use std::fmt::Display;
use std::process::Abort;
use std::test::Fail;

// Bytes in hex, and whether they are a text: the Unicode Standard, table 3-7 (well-formed UTF-8),
// and D-Bus Specification, "Type System".
const TEXTS: &str = "\
|text
706c61696e|text
c3a9|text
efbfbe|text
f48fbfbf|text
00|no text
706c61696e00|no text
00706c61696e|no text
c3|no text
a9|no text
ff|no text
c080|no text
eda080|no text
f4908080|no text
";

// What the bytes are made into.
fn made_of(alloc: Global, bytes: &[u8]) -> Result<&'static str, Fail> {
    match Text::from_utf8(bytes.to_vec(alloc)?) {
        Some(text) if text.as_bytes() == bytes => Ok("text"),
        Some(_) => Ok("another text"),
        None => Ok("no text"),
    }
}

#[test]
fn a_text_is_utf8_without_a_zero_byte(rt: HostRuntime) -> Result<(), Fail> {
    for row in TEXTS.lines() {
        let digits = cell(row, 0);
        let want = cell(row, 1);
        let bytes = hex::decode(rt.alloc(), digits).ok().ok_or("hex")?;
        same_text(&rt, made_of(rt.alloc(), bytes.as_slice())?, want, digits);
    }
    Ok(())
}

// Texts, and the number of bytes of each.
const MADE: &str = "\
|0
plain|5
\u{e9}t\u{e9}|5
";

fn new_text(alloc: Global, text: &str) -> Result<Option<Text>, Fail> {
    Ok(Text::new(String::from_str(alloc, text)?))
}

// Whether the text that was made is this one, and so is its copy.
fn is_text(made: &Text, text: &str, alloc: Global) -> Result<bool, Fail> {
    let is_same = made.copy()? == text_of(alloc, text)?;
    Ok(is_same && made.as_str() == text)
}

fn is_made_and_read(rt: &(impl AllocGlobal + Abort), row: &str) -> Result<(), Fail> {
    let text = cell(row, 0);
    let len = cell(row, 1);
    let made = new_text(rt.alloc(), text)?.ok_or("a zero byte")?;
    holds(rt, is_text(&made, text, rt.alloc())?, row);
    same_number(rt, made.len(), number(len)? as usize, row);
    Ok(())
}

#[test]
fn a_text_is_made_and_read(rt: HostRuntime) -> Result<(), Fail> {
    for row in MADE.lines() {
        is_made_and_read(&rt, row)?;
    }
    let inside = new_text(rt.alloc(), "a\0b")?;
    holds(&rt, inside.is_none(), "a zero byte inside");
    let alone = Text::from_str(rt.alloc(), "\0")?;
    holds(&rt, alone.is_none(), "a zero byte alone");
    Ok(())
}

// A text of 24 bytes is kept in the value itself, and one of 25 in memory of its own.
#[test]
fn a_text_is_the_same_wherever_it_lies(rt: HostRuntime) -> Result<(), Fail> {
    let short = text_of(rt.alloc(), "org.freedesktop.Secrets.")?;
    let copy = short.copy()?;
    same_text(&rt, copy.as_str(), "org.freedesktop.Secrets.", "24 bytes");
    let long = text_of(rt.alloc(), "org.freedesktop.Secrets.x")?;
    let copy = long.copy()?;
    same_text(&rt, copy.as_str(), "org.freedesktop.Secrets.x", "25 bytes");
    holds(&rt, short < long, "the order");
    holds(&rt, short != long, "the difference");
    Ok(())
}

// The byte, repeated `count` times.
fn repeated(alloc: Global, count: u32, byte: u8) -> Result<Vec<u8>, Fail> {
    let mut bytes = Vec::new(alloc);
    for _ in 0..count {
        bytes.push(byte)?;
    }
    Ok(bytes)
}

// The bytes of a row, which gives their number and the one byte that they all are.
fn bytes_in(alloc: Global, row: &str) -> Result<Vec<u8>, Fail> {
    let count = number(cell(row, 0))?;
    let byte = number(cell(row, 1))?;
    repeated(alloc, count, u8::try_from(byte).ok().ok_or("a byte")?)
}

// The bytes, copied and made anew from their vector.
fn copy_of(made: &Bytes) -> Result<Bytes, Fail> {
    Ok(Bytes::new(made.copy()?.into_vec()?))
}

// Asserts that the bytes of a row are above the last ones and equal to their copy, and
// returns the copy.
fn copy_above(rt: &(impl AllocGlobal + Abort), last: &Bytes, row: &str) -> Result<Bytes, Fail> {
    let bytes = bytes_in(rt.alloc(), row)?;
    let made = Bytes::from_slice(rt.alloc(), bytes.as_slice())?;
    holds(rt, *last < made && *last != made, row);
    let copy = copy_of(&made)?;
    let is_long = copy.len() == bytes.len();
    holds(rt, copy == made && is_long, row);
    holds(rt, copy.as_slice() == bytes.as_slice(), row);
    Ok(copy)
}

// 32 bytes are kept in the value itself, and 33 in memory of their own.
#[test]
fn bytes_are_the_same_wherever_they_lie(rt: HostRuntime) -> Result<(), Fail> {
    let mut last = Bytes::from_slice(rt.alloc(), &[])?;
    for row in "1|0\n7|255\n32|255\n33|255\n".lines() {
        last = copy_above(&rt, &last, row)?;
    }
    Ok(())
}

fn is_printed(rt: &(impl AllocGlobal + Abort), it: &impl Display, want: &str) -> Result<(), Fail> {
    let printed = it.to_string(rt.alloc())?;
    same_text(rt, printed.as_str(), want, want);
    Ok(())
}

#[test]
fn numbers_are_printed(rt: HostRuntime) -> Result<(), Fail> {
    is_printed(&rt, &ConnId(0), "0")?;
    is_printed(&rt, &SessionId(u64::MAX), "18446744073709551615")?;
    is_printed(&rt, &PromptId(10), "10")?;
    is_printed(&rt, &ItemId(u32::MAX), "4294967295")
}

fn shown_text(alloc: Global) -> Result<String, Fail> {
    let text = text_of(alloc, "a \"b\"")?;
    Ok(format!(in alloc; "{text}|{text:?}|{text:>8}")?)
}

fn shown_stem(alloc: Global) -> Result<String, Fail> {
    let stem = Stem::new(alloc, "My keys")?.ok_or("no stem")?;
    Ok(format!(in alloc; "{stem}|{stem:?}")?)
}

fn shown_secret(alloc: Global) -> Result<String, Fail> {
    let secret = Bytes::from_slice(alloc, b"hunter2")?;
    Ok(format!(in alloc; "{secret:?}")?)
}

#[test]
fn texts_are_shown_as_they_are_and_for_debugging_by_their_length(
    rt: HostRuntime,
) -> Result<(), Fail> {
    let text = shown_text(rt.alloc())?;
    same_text(&rt, text.as_str(), "a \"b\"|5 bytes|   a \"b\"", "a text");
    let stem = shown_stem(rt.alloc())?;
    same_text(&rt, stem.as_str(), "My keys|7 bytes", "a stem");
    let secret = shown_secret(rt.alloc())?;
    same_text(&rt, secret.as_str(), "7 bytes", "a secret");
    Ok(())
}

fn value_of(alloc: Global, text: &str) -> Result<AttrValue, Fail> {
    Ok(AttrValue::Text(text_of(alloc, text)?))
}

// Whether a text is below another one, and that one below a number.
fn are_in_order(alloc: Global, row: &str) -> Result<bool, Fail> {
    let low = cell(row, 0);
    let high = cell(row, 1);
    let low = value_of(alloc, low)?;
    let high = value_of(alloc, high)?;
    Ok(low < high && high < AttrValue::Number(0))
}

// Texts are ordered by the first byte that differs, and a text comes before each longer one that
// begins with it.
#[test]
fn texts_are_in_order(rt: HostRuntime) -> Result<(), Fail> {
    for row in "|Z\nZ|a\na|ab\nab|\u{e9}\n".lines() {
        holds(&rt, are_in_order(rt.alloc(), row)?, row);
    }
    Ok(())
}

// Texts, and whether they are stems; a number means that many letters.
const STEMS: &str = "\
a|stem
My Keys|stem
\u{e9}|stem
.|stem
|no stem
a/b|no stem
a\0|no stem
243|stem
244|no stem
";

// As many letters as the number says, or the word itself.
fn word_of(alloc: Global, word: &str) -> Result<String, Fail> {
    match word.parse::<u32>() {
        Ok(count) => letters(alloc, count),
        Err(_) => Ok(String::from_str(alloc, word)?),
    }
}

// Whether the stem is this text, and so is its copy, and its text makes a stem again.
fn is_stem_of(stem: Stem, text: &str) -> Result<bool, Fail> {
    let is_same = stem.as_text().as_str() == text && stem.copy()? == stem;
    Ok(is_same && Stem::from_text(stem.into_text()).is_some())
}

fn is_stem(alloc: Global, text: &str) -> Result<bool, Fail> {
    match Stem::new(alloc, text)? {
        Some(stem) => is_stem_of(stem, text),
        None => Ok(false),
    }
}

#[test]
fn a_stem_can_be_a_file_name(rt: HostRuntime) -> Result<(), Fail> {
    for row in STEMS.lines() {
        let word = cell(row, 0);
        let want = cell(row, 1);
        let text = word_of(rt.alloc(), word)?;
        let found = is_stem(rt.alloc(), text.as_str())?;
        holds(&rt, found == (want == "stem"), word);
    }
    Ok(())
}

fn pair_of(alloc: Global, pair: &str) -> Result<(Text, Text), Fail> {
    let name = text_of(alloc, part(pair, '=', 0))?;
    Ok((name, text_of(alloc, part(pair, '=', 1))?))
}

// Pairs as `name=value`, each followed by a comma.
fn pairs_of(alloc: Global, text: &str) -> Result<Vec<(Text, Text)>, Fail> {
    let mut pairs = Vec::new(alloc);
    for pair in text.split_terminator(',') {
        pairs.push(pair_of(alloc, pair)?)?;
    }
    Ok(pairs)
}

fn number_told(alloc: Global, name: &str, number: u32) -> Result<String, Fail> {
    let number = number.to_string(alloc)?;
    joined(alloc, &[name, "#", number.as_str(), ","])
}

fn pair_told(alloc: Global, name: &str, value: &AttrValue) -> Result<String, Fail> {
    match value {
        AttrValue::Text(value) => joined(alloc, &[name, "=", value.as_str(), ","]),
        AttrValue::Number(number) => number_told(alloc, name, *number),
    }
}

// Attributes as pairs, each followed by a comma.
fn told(alloc: Global, attributes: &Attributes) -> Result<String, Fail> {
    let mut told = String::new(alloc);
    for (name, value) in attributes.as_slice() {
        told.push_str(pair_told(alloc, name.as_str(), value)?.as_str())?;
    }
    Ok(told)
}

// Pairs, and the attributes that they make.
const GATHERED: &str = "\
|
a=b,|a=b,
b=1,a=2,|a=2,b=1,
a=1,a=2,|a=2,
a=1,b=2,a=3,b=,|a=3,b=,
ab=1,a=2,Z=3,=4,\u{e9}=5,|=4,Z=3,a=2,ab=1,\u{e9}=5,
";

fn is_gathered(rt: &(impl AllocGlobal + Abort), row: &str) -> Result<(), Fail> {
    let pairs = cell(row, 0);
    let want = cell(row, 1);
    let made = Attributes::from_pairs(rt.alloc(), pairs_of(rt.alloc(), pairs)?)?;
    holds(rt, made.copy()? == made, pairs);
    holds(rt, made.len() == made.as_slice().len(), pairs);
    let text = told(rt.alloc(), &made)?;
    same_text(rt, text.as_str(), want, pairs);
    Ok(())
}

#[test]
fn of_equal_names_the_later_pair_counts(rt: HostRuntime) -> Result<(), Fail> {
    for row in GATHERED.lines() {
        is_gathered(&rt, row)?;
    }
    Ok(())
}

fn number_pair(alloc: Global, row: &str) -> Result<(Text, AttrValue), Fail> {
    let name = cell(row, 0);
    let value = cell(row, 1);
    let name = text_of(alloc, name)?;
    Ok((name, AttrValue::Number(number(value)?)))
}

fn numbered(alloc: Global) -> Result<Attributes, Fail> {
    let mut pairs = Vec::new(alloc);
    for row in "b|1\nd|2\na|3\nb|4\n".lines() {
        pairs.push(number_pair(alloc, row)?)?;
    }
    Ok(Attributes::from_values(alloc, pairs)?)
}

fn value_text(alloc: Global, found: Option<&AttrValue>) -> Result<String, Fail> {
    match found {
        Some(AttrValue::Number(number)) => Ok(number.to_string(alloc)?),
        Some(AttrValue::Text(_)) => Ok(String::from_str(alloc, "text")?),
        None => Ok(String::from_str(alloc, "none")?),
    }
}

#[test]
fn a_value_is_found_by_its_name(rt: HostRuntime) -> Result<(), Fail> {
    let held = numbered(rt.alloc())?;
    for row in "a|3\nb|4\nd|2\n|none\nc|none\ne|none\n".lines() {
        let name = cell(row, 0);
        let want = cell(row, 1);
        let found = value_text(rt.alloc(), held.get(name))?;
        same_text(&rt, found.as_str(), want, name);
    }
    holds(&rt, Attributes::new(rt.alloc()) != held, "no attributes");
    Ok(())
}

// Whether a pair with a copy of this value has this value, and equals its own copy.
fn is_copied(alloc: Global, value: HashedValue) -> Result<bool, Fail> {
    let name = text_of(alloc, "a")?;
    let value_copy = value.copy()?;
    let pair = HashedPair {
        name,
        value: value_copy,
    };
    Ok(pair.value == value && pair.copy()? == pair)
}

#[test]
fn a_hashed_pair_is_copied(rt: HostRuntime) -> Result<(), Fail> {
    let hash = Bytes::from_slice(rt.alloc(), b"900150983cd24fb0d6963f7d28e17f72")?;
    let text = HashedValue::Text(hash);
    holds(&rt, is_copied(rt.alloc(), text)?, "a text");
    let number = HashedValue::Number(0x18273645);
    holds(&rt, is_copied(rt.alloc(), number)?, "a number");
    Ok(())
}
