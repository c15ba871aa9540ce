// The pairs of a key and a value in an entry, joined by `,`.
ghost use Rattle.std.specs.Prelude.{◌≡◌, MatchOption, None, Some};
ghost use Rattle.std.specs.Str.{bytes_eq};
ghost use Rattle.bus_address.specs.Pairs.{key_of, value_of, is_pair, has_key, are_pairs, value_in};
ghost use Rattle.bus_address.specs.Pieces.{pieces};

use crate::pieces::{cut, front};
use crate::value::is_value;

/// The key of a pair.
fn key_of(pair: &[u8]) -> &[u8]
    ensures { result.now ≡ key_of pair.now }
{
    front(pair, b'=')
}

/// Whether the pair has this key.
fn is_key(pair: &[u8], key: &[u8]) -> bool
    ensures { result ≡ bytes_eq (key_of pair.now) key.now }
{
    key_of(pair) == key
}

/// The value of a pair, as it is written.
#[tactic(auto, using(crate::proofs::PieceLemmas::after_cut, crate::proofs::PieceLemmas::after_none))]
fn value_of(pair: &[u8]) -> &[u8]
    ensures { result.now ≡ value_of pair.now }
{
    match cut(pair, b'=') {
        Some((_, value)) => value,
        None => &[],
    }
}

/// Whether the text is KEY=VALUE.
#[tactic(auto, using(crate::proofs::PieceLemmas::has_cut, crate::proofs::PieceLemmas::has_none, crate::proofs::PieceLemmas::after_cut))]
fn is_pair(text: &[u8]) -> bool
    ensures { result ≡ is_pair text.now }
{
    match cut(text, b'=') {
        Some((_, value)) => is_value(value),
        None => false,
    }
}

/// Whether one of the pairs has the key.
#[tactic(auto, using(crate::proofs::PieceLemmas::pieces_cut, crate::proofs::PieceLemmas::pieces_none, crate::proofs::PieceLemmas::cut_shorter))]
fn has_key(key: &[u8], pairs: &[u8]) -> bool
    ensures { result ≡ has_key key.now (pieces 44 pairs.now) }
{
    let mut rest = pairs;
    while let Some((pair, more)) = cut(rest, b',') {
        if is_key(pair, key) {
            return true;
        }
        rest = more;
    }
    is_key(rest, key)
}

/// Whether these are pairs, with no key twice.
#[tactic(auto, using(crate::proofs::PieceLemmas::pieces_cut, crate::proofs::PieceLemmas::pieces_none, crate::proofs::PieceLemmas::cut_shorter))]
pub fn are_pairs(pairs: &[u8]) -> bool
    ensures { result ≡ are_pairs (pieces 44 pairs.now) }
{
    let mut rest = pairs;
    while let Some((pair, more)) = cut(rest, b',') {
        if !is_pair(pair) || has_key(key_of(pair), more) {
            return false;
        }
        rest = more;
    }
    is_pair(rest)
}

/// The value of a key, as it is written. None if no pair has the key.
#[tactic(auto, using(crate::proofs::PieceLemmas::pieces_cut, crate::proofs::PieceLemmas::pieces_none, crate::proofs::PieceLemmas::cut_shorter))]
pub fn value_in<'a>(key: &[u8], pairs: &'a [u8]) -> Option<&'a [u8]>
    ensures { MatchOption result (value_in key.now (pieces 44 pairs.now) ≡ None)
        (λ value. value_in key.now (pieces 44 pairs.now) ≡ Some value.now) }
{
    let mut rest = pairs;
    while let Some((pair, more)) = cut(rest, b',') {
        if is_key(pair, key) {
            return Some(value_of(pair));
        }
        rest = more;
    }
    if is_key(rest, key) {
        Some(value_of(rest))
    } else {
        None
    }
}
