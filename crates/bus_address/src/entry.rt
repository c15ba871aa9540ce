// One entry of an address: a transport, and pairs of a key and a value.
ghost use Rattle.std.specs.Prelude.{◌≡◌, IsTrue, IfOk, MatchOption, None, Some};
ghost use Rattle.bus_address.specs.Entries.{pairs_in, is_entry, place_among, place_of, unix, path, abstract_name};
ghost use Rattle.bus_address.specs.Pairs.{are_pairs, value_in};
ghost use Rattle.std.specs.Str.{bytes_eq};

use crate::pairs::{are_pairs, value_in};
use crate::pieces::cut;
use crate::value::unescape;
use kr_base::{Bytes, OutOfMemory};
use std::alloc::Global;

/// Where a bus may listen: a Unix domain socket (D-Bus Specification, "Unix Domain Sockets").
#[derive(Debug, Drop, PartialEq, Eq)]
pub enum Place {
    /// The path of a socket in the file system.
    Path(Bytes),
    /// The name of a socket in the abstract namespace, without the zero byte in front of it.
    Abstract(Bytes),
}

/// Whether the text is an entry.
#[tactic(auto, using(crate::proofs::PieceLemmas::has_cut, crate::proofs::PieceLemmas::has_none, crate::proofs::PieceLemmas::after_cut, crate::proofs::EntryLemmas::listed, crate::proofs::EntryLemmas::is_listed))]
pub fn is_entry(text: &[u8]) -> bool
    ensures { result ≡ is_entry text.now }
{
    match cut(text, b':') {
        Some((_, pairs)) => pairs.is_empty() || are_pairs(pairs),
        None => false,
    }
}

/// The value of a key among the pairs in a text, as it is written. None if no pair has the key.
#[tactic(auto, using(crate::proofs::EntryLemmas::nothing_in, crate::proofs::EntryLemmas::value_listed))]
fn value_of<'a>(key: &[u8], pairs: &'a [u8]) -> Option<&'a [u8]>
    ensures { MatchOption result (value_in key.now (pairs_in pairs.now) ≡ None)
        (λ value. value_in key.now (pairs_in pairs.now) ≡ Some value.now) }
{
    if pairs.is_empty() {
        return None;
    }
    match value_in(key, pairs) {
        Some(value) => Some(value),
        None => None,
    }
}

/// Whether the transport is that of Unix domain sockets.
#[tactic(auto, unfolding(crate::specs::Entries::unix))]
fn is_unix(transport: &[u8]) -> bool
    ensures { result ≡ bytes_eq transport.now unix }
{
    transport == b"unix".as_slice()
}

/// The value of the key `path`, as it is written.
#[tactic(auto, unfolding(crate::specs::Entries::path))]
fn path_in(pairs: &[u8]) -> Option<&[u8]>
    ensures { MatchOption result (value_in path (pairs_in pairs.now) ≡ None)
        (λ value. value_in path (pairs_in pairs.now) ≡ Some value.now) }
{
    value_of(b"path", pairs)
}

/// The value of the key `abstract`, as it is written.
#[tactic(auto, unfolding(crate::specs::Entries::abstract_name))]
fn name_in(pairs: &[u8]) -> Option<&[u8]>
    ensures { MatchOption result (value_in abstract_name (pairs_in pairs.now) ≡ None)
        (λ value. value_in abstract_name (pairs_in pairs.now) ≡ Some value.now) }
{
    value_of(b"abstract", pairs)
}

/// The place of an entry with the transport `unix` and these pairs.
#[tactic(auto, using(crate::proofs::EntryLemmas::value_is, crate::proofs::EntryLemmas::among_path, crate::proofs::EntryLemmas::among_name, crate::proofs::EntryLemmas::among_neither, crate::proofs::EntryLemmas::among_both))]
fn unix_place(alloc: Global, pairs: &[u8]) -> Result<Option<Place>, OutOfMemory>
    requires { IsTrue (are_pairs (pairs_in pairs.now)) }
    ensures { IfOk result (λ place. place ≡ place_among (value_in path (pairs_in pairs.now))
        (value_in abstract_name (pairs_in pairs.now))) }
{
    match (path_in(pairs), name_in(pairs)) {
        (Some(path), None) => Ok(Some(Place::Path(Bytes::new(unescape(alloc, path)?)))),
        (None, Some(name)) => Ok(Some(Place::Abstract(Bytes::new(unescape(alloc, name)?)))),
        (Some(_), Some(_)) => Ok(None),
        (None, None) => Ok(None),
    }
}

/// The place of an entry: there is one if the transport is `unix`, and exactly one of the keys `path`
/// and `abstract` is there.
#[tactic(auto, using(crate::proofs::EntryLemmas::unix_cut, crate::proofs::EntryLemmas::other_cut, crate::proofs::EntryLemmas::no_cut, crate::proofs::EntryLemmas::pairs_cut))]
pub fn place_of(alloc: Global, entry: &[u8]) -> Result<Option<Place>, OutOfMemory>
    requires { IsTrue (is_entry entry.now) }
    ensures { IfOk result (λ place. place ≡ place_of entry.now) }
{
    let Some((transport, pairs)) = cut(entry, b':') else {
        return Ok(None);
    };
    if !is_unix(transport) {
        return Ok(None);
    }
    let place = unix_place(alloc, pairs)?;
    Ok(place)
}
