// A whole address: entries joined by `;`.
ghost use Rattle.std.specs.Prelude.{◌≡◌, ◌++◌, IsTrue, IfOk, OnOk, OnErr, MatchOption, option_to_list, false};
ghost use Rattle.bus_address.specs.Addresses.{is_part, is_address, places_of};
ghost use Rattle.bus_address.specs.Entries.{place_of};
ghost use Rattle.bus_address.specs.Pieces.{pieces};
ghost use Rattle.std.specs.List.{list_all};

use crate::entry::{Place, is_entry, place_of};
use crate::pieces::cut;
use kr_base::OutOfMemory;
use std::alloc::Global;

/// Whether the text is an entry, or is empty, which counts as nothing.
fn is_part(text: &[u8]) -> bool
    ensures { result ≡ is_part text.now }
{
    text.is_empty() || is_entry(text)
}

/// Whether the pieces that `;` joins are all such texts.
#[tactic(auto, using(crate::proofs::PieceLemmas::pieces_cut, crate::proofs::PieceLemmas::pieces_none, crate::proofs::PieceLemmas::cut_shorter))]
fn are_parts(text: &[u8]) -> bool
    ensures { result ≡ list_all is_part (pieces 59 text.now) }
{
    let mut rest = text;
    while let Some((entry, more)) = cut(rest, b';') {
        if !is_part(entry) {
            return false;
        }
        rest = more;
    }
    is_part(rest)
}

/// Whether the text is an address.
fn is_address(text: &[u8]) -> bool
    ensures { result ≡ is_address text.now }
{
    !text.is_empty() && are_parts(text)
}

/// Appends the place of an entry, if it has one.
#[tactic(auto, using(crate::proofs::EntryLemmas::added_nothing, crate::proofs::EntryLemmas::added_some, crate::proofs::EntryLemmas::added_none, crate::proofs::EntryLemmas::part_entry))]
fn add(alloc: Global, entry: &[u8], places: &mut Vec<Place>) -> Result<(), OutOfMemory>
    requires { IsTrue (is_part entry.now) }
    ensures { OnOk result (places.new.items
        ≡ places.old.items ++ option_to_list (place_of entry.now)) }
{
    if entry.is_empty() {
        return Ok(());
    }
    if let Some(place) = place_of(alloc, entry)? {
        places.push(place)?;
    }
    Ok(())
}

/// The places of an address, in order.
#[tactic(auto, using(crate::proofs::PieceLemmas::pieces_cut, crate::proofs::PieceLemmas::pieces_none, crate::proofs::PieceLemmas::cut_shorter, crate::proofs::EntryLemmas::parts_of))]
fn places_of(alloc: Global, text: &[u8]) -> Result<Vec<Place>, OutOfMemory>
    requires { IsTrue (is_address text.now) }
    ensures { IfOk result (λ places. places.items ≡ places_of text.now) }
{
    let mut places = Vec::new(alloc);
    let mut rest = text;
    while let Some((entry, more)) = cut(rest, b';') {
        add(alloc, entry, &mut places)?;
        rest = more;
    }
    add(alloc, rest, &mut places)?;
    Ok(places)
}

/// The places that an address of a message bus names, in order: those of its entries with the
/// transport `unix` and exactly one of the keys `path` and `abstract` (D-Bus Specification, "Server
/// Addresses"). Other entries and other keys count as nothing, and so does an entry that is empty.
///
/// None exactly if the text isn't an address: it is empty, an entry isn't a transport, `:` and pairs
/// KEY=VALUE joined by `,`, an entry has a key twice, or a byte of a value is neither one of
/// `[-0-9A-Za-z_/.\*]` nor `%` with two hex digits after it. Memory is needed for places alone, so
/// `OutOfMemory` comes only if the text is an address.
pub fn read_address(alloc: Global, text: &[u8]) -> Result<Option<Vec<Place>>, OutOfMemory>
    ensures read { IfOk result (λ read. MatchOption read (is_address text.now ≡ false)
        (λ places. IsTrue (is_address text.now) × (places.items ≡ places_of text.now))) }
    ensures memory { OnErr result (IsTrue (is_address text.now)) }
{
    if !is_address(text) {
        return Ok(None);
    }
    Ok(Some(places_of(alloc, text)?))
}
