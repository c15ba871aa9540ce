ghost use Rattle.std.specs.Prelude.{◌≡◌};
ghost use Rattle.attribute_match.specs.Match.{number_of as number_in, text_of};

use itoa::Buffer;
use kr_base::AttrValue;

/// The text that the API shows for a value. The digits of a number are written into the buffer.
pub fn shown<'a>(value: &'a AttrValue, digits: &'a mut Buffer) -> &'a str
    ensures { result.now ≡ text_of value.now }
{
    match value {
        AttrValue::Text(text) => text.as_str(),
        AttrValue::Number(number) => digits.format(*number),
    }
}

/// The 32-bit number that this text is in decimal, without leading zeros; None if it isn't one.
pub fn number_of(text: &str) -> Option<u32>
    ensures { result ≡ number_in text.now }
{
    match text.parse::<u32>() {
        Ok(number) => {
            let mut digits = Buffer::new();
            if digits.format(number) == text {
                Some(number)
            } else {
                None
            }
        }
        Err(_) => None,
    }
}
