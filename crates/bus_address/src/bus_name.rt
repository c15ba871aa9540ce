// Well-known bus names.
ghost use Rattle.std.specs.Prelude.{◌≡◌};
ghost use Rattle.std.specs.List.{list_all};
ghost use Rattle.bus_address.specs.BusNames.{is_element, is_name_byte, is_well_known_name};
ghost use Rattle.bus_address.specs.Pieces.{has_separator, pieces};

use crate::pieces::cut;

/// The most bytes of a name (D-Bus Specification, "Valid Names").
const NAME_LIMIT: usize = 255;

/// Whether the byte may be in an element.
fn is_name_byte(byte: u8) -> bool
    ensures { result ≡ is_name_byte byte }
{
    byte.is_ascii_alphanumeric() || matches!(byte, b'_' | b'-')
}

/// Whether each byte may be in an element.
fn are_name_bytes(text: &[u8]) -> bool
    ensures { result ≡ list_all is_name_byte text.now }
{
    text.iter().all(|byte| is_name_byte(*byte))
}

/// Whether the text is an element.
#[tactic(auto, using(crate::proofs::EntryLemmas::element_is))]
fn is_element(text: &[u8]) -> bool
    ensures { result ≡ is_element text.now }
{
    match text.split_first() {
        Some((first, _)) => !first.is_ascii_digit() && are_name_bytes(text),
        None => false,
    }
}

/// Whether the elements that dots join are all elements of a name.
#[tactic(auto, using(crate::proofs::PieceLemmas::pieces_cut, crate::proofs::PieceLemmas::pieces_none, crate::proofs::PieceLemmas::cut_shorter))]
fn are_elements(text: &[u8]) -> bool
    ensures { result ≡ list_all is_element (pieces 46 text.now) }
{
    let mut rest = text;
    while let Some((element, more)) = cut(rest, b'.') {
        if !is_element(element) {
            return false;
        }
        rest = more;
    }
    is_element(rest)
}

/// Whether the bytes contain a dot.
fn has_dot(text: &[u8]) -> bool
    ensures { result ≡ has_separator 46 text.now }
{
    text.iter().any(|byte| *byte == b'.')
}

/// Whether the bytes are a well-known bus name: two or more elements of `[A-Za-z0-9_-]`, joined by
/// dots, none of which is empty or begins with a digit, in at most 255 bytes (D-Bus Specification,
/// "Bus names"). The unique name of a connection, which begins with `:`, isn't one.
pub fn is_well_known_name(name: &[u8]) -> bool
    ensures { result ≡ is_well_known_name name.now }
{
    name.len() <= NAME_LIMIT && has_dot(name) && are_elements(name)
}
