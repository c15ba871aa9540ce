// The value of a key, with its escapes.
ghost use Rattle.std.specs.Prelude.{◌≡◌, ◌<◌, [], IsTrue, IfOk, MatchOption};
ghost use Rattle.std.specs.Char.{is_ascii_hexdigit, digit_value};
ghost use Rattle.bus_address.specs.Values.{is_plain, is_value, unescaped, IsStep};

use kr_base::OutOfMemory;
use std::alloc::Global;

/// Whether the byte stands for itself.
fn is_plain(byte: u8) -> bool
    ensures { result ≡ is_plain byte }
{
    byte.is_ascii_alphanumeric() || matches!(byte, b'-' | b'_' | b'/' | b'.' | b'\\' | b'*')
}

/// Whether the text is a value.
#[tactic(auto, using(crate::proofs::ValueLemmas::value_other, crate::proofs::ValueLemmas::value_short))]
pub fn is_value(text: &[u8]) -> bool
    ensures { result ≡ is_value text.now }
{
    let mut left = text;
    while let Some((byte, rest)) = left.split_first() {
        if *byte == b'%' {
            let [high, low, more @ ..] = rest else {
                return false;
            };
            if !high.is_ascii_hexdigit() || !low.is_ascii_hexdigit() {
                return false;
            }
            left = more;
        } else {
            if !is_plain(*byte) {
                return false;
            }
            left = rest;
        }
    }
    true
}

/// The number of a hex digit.
fn digit_of(digit: u8) -> u8
    requires { IsTrue (is_ascii_hexdigit digit) }
    ensures value { result ≡ digit_value digit }
    ensures small { result < 16 }
{
    match char::from(digit).to_digit(16) {
        Some(number) => number as u8,
        None => unreachable!(),
    }
}

/// The first byte that a value stands for, and the rest of the value. None if it is empty.
#[tactic(auto, using(crate::proofs::ValueLemmas::step_other, crate::proofs::ValueLemmas::step_escape, crate::proofs::ValueLemmas::high_digit, crate::proofs::ValueLemmas::low_digit, crate::proofs::ValueLemmas::one_byte, crate::proofs::ValueLemmas::two_bytes))]
fn next_byte(text: &[u8]) -> Option<(u8, &[u8])>
    requires { IsTrue (is_value text.now) }
    ensures { MatchOption result (text.now ≡ []) (λ step. IsStep text.now step.0 step.1.now) }
{
    let Some((first, rest)) = text.split_first() else {
        return None;
    };
    let byte = *first;
    if byte != b'%' {
        return Some((byte, rest));
    }
    let Some((high, after)) = rest.split_first() else {
        unreachable!();
    };
    let Some((low, more)) = after.split_first() else {
        unreachable!();
    };
    let escaped = digit_of(*high) * 16 + digit_of(*low);
    Some((escaped, more))
}

/// The bytes that a value stands for.
#[tactic(auto, using(crate::proofs::ValueLemmas::one_more))]
pub fn unescape(alloc: Global, text: &[u8]) -> Result<Vec<u8>, OutOfMemory>
    requires { IsTrue (is_value text.now) }
    ensures { IfOk result (λ bytes. bytes.items ≡ unescaped text.now) }
{
    let mut bytes = Vec::with_capacity(alloc, text.len())?;
    let mut left = text;
    while let Some((byte, more)) = next_byte(left) {
        bytes.push(byte)?;
        left = more;
    }
    Ok(bytes)
}
