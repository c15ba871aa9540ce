// The names in a folder.
ghost use Rattle.std.specs.Prelude.{◌≡◌, ◌↔◌, ◌++◌, ℕ, List, Contains, IfOk, MatchOption};
ghost use Rattle.std.specs.Cmp.Lexicographic.{slice_cmp};
ghost use Rattle.std.specs.List.Sorted.{IsStrictlySortedBy};
ghost use Rattle.std.specs.Ordering.{nat_cmp};
ghost use Rattle.kr_names.specs.Reads.{Reads};
ghost use Rattle.folder_store.specs.Names.{IsRingName};

use kr_base::{OutOfMemory, Stem, Text};
use std::alloc::Global;
use std::collections::BTreeSet;

/// How the name of a keyring file ends.
const ENDING: &str = ".keyring";

/// The stem of the collection whose file has this name; None if it isn't the name of a keyring
/// file.
pub fn stem_of_name(alloc: Global, name: &str) -> Result<Option<Stem>, OutOfMemory>
    ensures { IfOk result (Reads (λ stem. IsRingName name.now stem)) }
{
    match front_of(name, ENDING) {
        Some(front) => match Stem::new(alloc, front)? {
            Some(stem) => {
                // Brings in what the type guarantees of a stem.
                let _text = stem.as_str();
                Ok(Some(stem))
            }
            None => Ok(None),
        },
        None => Ok(None),
    }
}

// What comes before the ending; None if the name doesn't end with it.
fn front_of<'a>(name: &'a str, end: &str) -> Option<&'a str>
    ensures { MatchOption result ((front : List ℕ) → ¬ (name.now ≡ front ++ end.now))
        (λ front. name.now ≡ front.now ++ end.now) }
{
    name.strip_suffix(end)
}

/// The names in byte order, each once.
pub fn in_order(alloc: Global, names: Vec<Text>) -> Result<Vec<Text>, OutOfMemory>
    ensures sorted { IfOk result (λ sorted. IsStrictlySortedBy (slice_cmp nat_cmp) sorted.items) }
    ensures same { IfOk result (λ sorted. (name : List ℕ)
        → Contains sorted.items name ↔ Contains names.items name) }
{
    let sorted: BTreeSet<Text> = names.into_iter().collect(alloc)?;
    Ok(sorted.into_iter().collect(alloc)?)
}
