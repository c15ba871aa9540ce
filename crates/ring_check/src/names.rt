// The names of the files that a check reads.
ghost use Rattle.std.specs.Prelude.{◌≡◌, ◌↔◌, ℕ, List, [], Contains, IsTrue, IsSome, IfOk, IsErrOf, filter};
ghost use Rattle.std.specs.Cmp.Lexicographic.{slice_cmp};
ghost use Rattle.std.specs.List.Sorted.{IsStrictlySortedBy};
ghost use Rattle.std.specs.Ordering.{nat_cmp};
ghost use Rattle.kr_outside.specs.Folder.{Stays};
ghost use Rattle.kr_outside.specs.Slot.{KeepsNature};
ghost use Rattle.ring_check.specs.Folder.{is_checked};

use crate::ending::Stop;
use kr_base::{OutOfMemory, Text};
use kr_outside::{Folder, OutsideRefused};
use std::alloc::Global;
use std::collections::BTreeSet;

/// How the name of a keyring file ends.
const ENDING: &str = ".keyring";

/// Whether the check reads a file of this name.
#[tactic(auto, unfolding(folder_store::specs::Names::ending))]
fn is_checked(name: &Text) -> bool
    ensures { result ≡ is_checked name.now }
{
    name.as_bytes().ends_with(ENDING.as_bytes())
}

/// Keeps the names whose files the check reads.
fn keep_checked(names: &mut Vec<Text>)
    ensures { names.new.items ≡ filter is_checked names.old.items }
{
    names.retain(|name| is_checked(name));
}

/// The names in byte order, each once.
fn in_order(alloc: Global, names: Vec<Text>) -> Result<Vec<Text>, OutOfMemory>
    ensures sorted { IfOk result (λ sorted. IsStrictlySortedBy (slice_cmp nat_cmp) sorted.items) }
    ensures same { IfOk result (λ sorted. (name : List ℕ)
        → Contains sorted.items name ↔ Contains names.items name) }
{
    let sorted: BTreeSet<Text> = names.into_iter().collect(alloc)?;
    Ok(sorted.into_iter().collect(alloc)?)
}

/// Those of these names whose files the check reads, in byte order.
fn checked_in_order(alloc: Global, names: Vec<Text>) -> Result<Vec<Text>, OutOfMemory>
    ensures sorted { IfOk result (λ sorted. IsStrictlySortedBy (slice_cmp nat_cmp) sorted.items) }
    ensures same { IfOk result (λ sorted. (name : List ℕ) → Contains sorted.items name
        ↔ Contains names.items name × IsTrue (is_checked name)) }
{
    let mut names = names;
    keep_checked(&mut names);
    in_order(alloc, names)
}

/// Settles the folder, and returns the names whose files the check reads, in byte order.
pub fn checked_names<F: Folder>(alloc: Global, folder: &mut F) -> Result<Vec<Text>, Stop>
    requires fresh { F.made folder.old ≡ [] }
    ensures sorted { IfOk result (λ names. IsStrictlySortedBy (slice_cmp nat_cmp) names.items) }
    ensures named { IfOk result (λ names. (name : List ℕ)
        → Contains names.items name → IsTrue (is_checked name)) }
    ensures listed { IsTrue (F.is_honest folder.old) → IfOk result (λ names. (name : List ℕ)
        → IsTrue (is_checked name) → IsSome (F.images folder.old name)
        → Contains names.items name) }
    ensures same { IsTrue (F.is_honest folder.old) → (name : List ℕ)
        → F.images folder.new name ≡ F.images folder.old name }
    ensures stays { IsTrue (F.is_honest folder.old)
        → Stays F.images F.may_leave (F.made folder.old) folder.old folder.new }
    ensures made { F.made folder.new ≡ [] }
    ensures kept { KeepsNature F.is_honest F.is_steady F.faults (IsErrOf result Stop.Folder)
        folder.old folder.new }
    ensures no_write { ¬ (IsErrOf result Stop.Write) }
{
    if folder.sync().is_err() {
        return Err(Stop::Folder);
    }
    match folder.names() {
        Ok(names) => Ok(checked_in_order(alloc, names)?),
        Err(OutsideRefused::Failed) => Err(Stop::Folder),
        Err(OutsideRefused::OutOfMemory) => Err(Stop::Memory),
    }
}
