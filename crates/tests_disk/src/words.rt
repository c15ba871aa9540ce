// Values in words.

use kr_base::Text;
use std::alloc::Global;
use std::test::Fail;

/// A text without zero bytes.
pub fn text_of(alloc: Global, text: &str) -> Result<Text, Fail> {
    Ok(Text::from_str(alloc, text)?.ok_or("a zero byte")?)
}

/// The parts as one text.
pub fn joined(alloc: Global, parts: &[&str]) -> Result<String, Fail> {
    let mut text = String::new(alloc);
    for part in parts {
        text.push_str(part)?;
    }
    Ok(text)
}

/// A number in decimal.
pub fn decimal(alloc: Global, number: usize) -> Result<String, Fail> {
    Ok(format!(in alloc; "{number}")?)
}
