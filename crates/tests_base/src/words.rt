// Values from words, and parts joined to one text.

use kr_base::Text;
use std::alloc::Global;
use std::test::Fail;

/// The text of a cell, which has no zero byte.
pub fn text_of(alloc: Global, text: &str) -> Result<Text, Fail> {
    Ok(Text::from_str(alloc, text)?.ok_or("a zero byte")?)
}

/// The parts as one text.
pub fn joined(alloc: Global, parts: &[&str]) -> Result<String, Fail> {
    let mut text = String::new(alloc);
    for part in parts {
        text.push_str(part)?;
    }
    Ok(text)
}

/// This many letters.
pub fn letters(alloc: Global, count: u32) -> Result<String, Fail> {
    let mut text = String::new(alloc);
    for _ in 0..count {
        text.push('a')?;
    }
    Ok(text)
}
