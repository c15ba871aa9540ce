ghost use Rattle.std.specs.Prelude.{◌≡◌, ◌≤◌, ◌⊎◌, ◌↔◌, ◌∷◌, ℕ, List, Option, None, Some, [], IsTrue, Contains, IsSome, IfOk, IfErr, OnOk, OnErr, IsErrOf};
ghost use Rattle.std.specs.Cmp.Lexicographic.{slice_cmp};
ghost use Rattle.std.specs.List.Sorted.{IsStrictlySortedBy};
ghost use Rattle.std.specs.Ordering.{nat_cmp};
ghost use Rattle.kr_outside.specs.Faults.{KeepsSteady, Rose};
ghost use Rattle.kr_outside.specs.Folder.{IsSettled, Stays};
ghost use Rattle.kr_outside.specs.RenameDisk.{Only};
ghost use Rattle.kr_outside.specs.Slot.{KeepsNature};
ghost use Rattle.folder_store.specs.Aliases.{AreFound, alias_slot};
ghost use Rattle.folder_store.specs.Limits.{the_limits};
ghost use Rattle.folder_store.specs.Loads.{Loads};
ghost use Rattle.folder_store.specs.Names.{aliases, IsRingName};
ghost use Rattle.folder_store.specs.Ring.{HasFailedSlot, IsAsFound, HandsBack, MakesOneAtMost, NoneFailed, ReturnsAll};
ghost use Rattle.folder_store.specs.Walk.{Visits, Walk, plain};

use crate::found_aliases::{FoundAliases, found_by};
use crate::limits::{LIMITS, Limits};
use crate::names::{in_order, stem_of_name};
use crate::opening::{LeftAlone, Opening};
use crate::reading::look_at;
use crate::refused::{LoadRefused, NotLoaded};
use crate::ring::Ring;
use alias_text::LONGEST;
use kr_base::{Stem, Text};
use kr_outside::{Folder, OutsideRefused, Slot};
use std::alloc::Global;
use std::mem;

/// What is found in a folder at startup.
#[derive(Drop)]
pub struct Loaded<S: Slot> {
    /// The collections that are listed, in byte order of their stems.
    pub rings: Vec<Ring<S>>,
    /// The stems of all keyring files, including those that were left alone, in byte order of the files' names.
    /// An honest folder has no keyring file with any other stem.
    pub used: Vec<Stem>,
    /// The keyring files that were looked at and left alone, in byte order of their names.
    pub left_alone: Vec<LeftAlone<S>>,
    /// The aliases.
    pub aliases: FoundAliases<S>,
}

/// Loads a folder for which no slot has been made yet: settles it, then settles the file of the aliases and, as
/// long as more can be listed, each keyring file, and reads each of these once unless it is too long. No file
/// is changed, created or removed at any moment, and each slot that was made is returned, also by a refusal.
///
/// Refused with `Folder` only if the folder's count of faults or that of a slot rose, and with `OutOfMemory`.
pub fn load<F: Folder>(alloc: Global, folder: &mut F) -> Result<Loaded<F::Cell>, NotLoaded<F::Cell>>
    requires fresh { F.made folder.old ≡ [] }
    ensures loaded { IfOk result (Loads the_limits (IsAsFound F.Cell.seen F.Cell.temporary
        F.Cell.may_leave F.Cell.left_since F.Cell.is_honest F.Cell.is_steady
        (F.is_honest folder.old) (F.is_steady folder.old))
        (F.is_honest folder.old) F.images F.may_leave F.made folder.old folder.new) }

    // Whatever the result, no name is changed: a name without a slot is as it was, and after a refusal each
    // slot is returned as it was found.
    ensures others { IsTrue (F.is_honest folder.old)
        → Stays F.images F.may_leave (F.made folder.new) folder.old folder.new }
    ensures returned { IfErr result (λ not_loaded. ReturnsAll (IsAsFound
        F.Cell.seen F.Cell.temporary F.Cell.may_leave F.Cell.left_since
        F.Cell.is_honest F.Cell.is_steady
        (F.is_honest folder.old) (F.is_steady folder.old))
        (F.images folder.old) (F.made folder.new)
        not_loaded.rings.items not_loaded.left_alone.items not_loaded.last) }

    ensures honest { F.is_honest folder.new ≡ F.is_honest folder.old }
    ensures steady { KeepsSteady (F.is_steady folder.old) (F.is_steady folder.new)
        (F.faults folder.old) (F.faults folder.new) }
    ensures later { F.faults folder.old ≤ F.faults folder.new }
    ensures cause { IfErr result (λ not_loaded. not_loaded.refused ≡ LoadRefused.Folder
        → Rose (F.faults folder.old) (F.faults folder.new)
        ⊎ HasFailedSlot (IsAsFound F.Cell.seen F.Cell.temporary
        F.Cell.may_leave F.Cell.left_since F.Cell.is_honest F.Cell.is_steady
        (F.is_honest folder.old) (F.is_steady folder.old))
        (F.images folder.old) (F.made folder.new) F.Cell.faults F.Cell.failed
        (F.is_steady folder.old)) }
    ensures never { IsTrue (F.is_steady folder.old) → IfErr result (λ not_loaded.
        ¬ (not_loaded.refused ≡ LoadRefused.Folder)) }

    // A slot that failed is a reason to refuse: unless the load is refused with `Folder`, no slot that was
    // made failed in its last call.
    ensures fine { IfOk result (λ loaded. NoneFailed F.Cell.failed loaded.rings.items
        loaded.left_alone.items (Some (alias_slot loaded.aliases))) }
    ensures fault { IfErr result (λ not_loaded. ¬ (not_loaded.refused ≡ LoadRefused.Folder)
        → NoneFailed F.Cell.failed not_loaded.rings.items not_loaded.left_alone.items
        not_loaded.last) }
{
    load_within(alloc, folder, &LIMITS)
}

/// Loads a folder as `load` does, with other limits.
pub fn load_within<F: Folder>(
    alloc: Global,
    folder: &mut F,
    limits: &Limits,
) -> Result<Loaded<F::Cell>, NotLoaded<F::Cell>>
    requires fresh { F.made folder.old ≡ [] }
    ensures loaded { IfOk result (Loads limits.now (IsAsFound F.Cell.seen F.Cell.temporary
        F.Cell.may_leave F.Cell.left_since F.Cell.is_honest F.Cell.is_steady
        (F.is_honest folder.old) (F.is_steady folder.old))
        (F.is_honest folder.old) F.images F.may_leave F.made folder.old folder.new) }

    // Whatever the result, no name is changed: a name without a slot is as it was, and after a refusal each
    // slot is returned as it was found.
    ensures others { IsTrue (F.is_honest folder.old)
        → Stays F.images F.may_leave (F.made folder.new) folder.old folder.new }
    ensures returned { IfErr result (λ not_loaded. ReturnsAll (IsAsFound
        F.Cell.seen F.Cell.temporary F.Cell.may_leave F.Cell.left_since
        F.Cell.is_honest F.Cell.is_steady
        (F.is_honest folder.old) (F.is_steady folder.old))
        (F.images folder.old) (F.made folder.new)
        not_loaded.rings.items not_loaded.left_alone.items not_loaded.last) }

    ensures honest { F.is_honest folder.new ≡ F.is_honest folder.old }
    ensures steady { KeepsSteady (F.is_steady folder.old) (F.is_steady folder.new)
        (F.faults folder.old) (F.faults folder.new) }
    ensures later { F.faults folder.old ≤ F.faults folder.new }
    ensures cause { IfErr result (λ not_loaded. not_loaded.refused ≡ LoadRefused.Folder
        → Rose (F.faults folder.old) (F.faults folder.new)
        ⊎ HasFailedSlot (IsAsFound F.Cell.seen F.Cell.temporary
        F.Cell.may_leave F.Cell.left_since F.Cell.is_honest F.Cell.is_steady
        (F.is_honest folder.old) (F.is_steady folder.old))
        (F.images folder.old) (F.made folder.new) F.Cell.faults F.Cell.failed
        (F.is_steady folder.old)) }
    ensures never { IsTrue (F.is_steady folder.old) → IfErr result (λ not_loaded.
        ¬ (not_loaded.refused ≡ LoadRefused.Folder)) }

    // A slot that failed is a reason to refuse: unless the load is refused with `Folder`, no slot that was
    // made failed in its last call.
    ensures fine { IfOk result (λ loaded. NoneFailed F.Cell.failed loaded.rings.items
        loaded.left_alone.items (Some (alias_slot loaded.aliases))) }
    ensures fault { IfErr result (λ not_loaded. ¬ (not_loaded.refused ≡ LoadRefused.Folder)
        → NoneFailed F.Cell.failed not_loaded.rings.items not_loaded.left_alone.items
        not_loaded.last) }
{
    let mut opening = Opening::new(alloc);
    match load_into(alloc, folder, limits, &mut opening) {
        Ok(loaded) => Ok(loaded),
        Err(refused) => Err(opening.into_refusal(refused)),
    }
}

// Loads a folder. After a refusal the slots that were made are in `opening`.
fn load_into<F: Folder>(
    alloc: Global,
    folder: &mut F,
    limits: &Limits,
    opening: &mut Opening<F::Cell>,
) -> Result<Loaded<F::Cell>, LoadRefused>
    requires fresh { F.made folder.old ≡ [] }
    requires empty { opening.old ≡ record { rings = []; used = []; left = []; last = None } }
    ensures loaded { IfOk result (Loads limits.now (IsAsFound F.Cell.seen F.Cell.temporary
        F.Cell.may_leave F.Cell.left_since F.Cell.is_honest F.Cell.is_steady
        (F.is_honest folder.old) (F.is_steady folder.old))
        (F.is_honest folder.old) F.images F.may_leave F.made folder.old folder.new) }

    ensures others { IsTrue (F.is_honest folder.old)
        → Stays F.images F.may_leave (F.made folder.new) folder.old folder.new }
    ensures returned { OnErr result (ReturnsAll (IsAsFound
        F.Cell.seen F.Cell.temporary F.Cell.may_leave F.Cell.left_since
        F.Cell.is_honest F.Cell.is_steady
        (F.is_honest folder.old) (F.is_steady folder.old))
        (F.images folder.old) (F.made folder.new)
        opening.new.rings opening.new.left opening.new.last) }

    ensures honest { F.is_honest folder.new ≡ F.is_honest folder.old }
    ensures steady { KeepsSteady (F.is_steady folder.old) (F.is_steady folder.new)
        (F.faults folder.old) (F.faults folder.new) }
    ensures later { F.faults folder.old ≤ F.faults folder.new }
    ensures cause { IsErrOf result LoadRefused.Folder
        → Rose (F.faults folder.old) (F.faults folder.new)
        ⊎ HasFailedSlot (IsAsFound F.Cell.seen F.Cell.temporary
        F.Cell.may_leave F.Cell.left_since F.Cell.is_honest F.Cell.is_steady
        (F.is_honest folder.old) (F.is_steady folder.old))
        (F.images folder.old) (F.made folder.new) F.Cell.faults F.Cell.failed
        (F.is_steady folder.old) }
    ensures never { IsTrue (F.is_steady folder.old) → ¬ (IsErrOf result LoadRefused.Folder) }
    ensures fine { IfOk result (λ loaded. NoneFailed F.Cell.failed loaded.rings.items
        loaded.left_alone.items (Some (alias_slot loaded.aliases))) }
    ensures fault { ¬ (IsErrOf result LoadRefused.Folder) → OnErr result
        (NoneFailed F.Cell.failed opening.new.rings opening.new.left opening.new.last) }
{
    let names = settled_names(alloc, folder)?;
    walk(alloc, folder, limits, &names, opening)?;
    let aliases = load_aliases(alloc, folder, opening)?;
    let (rings, used, left_alone) = mem::replace(opening, Opening::new(alloc)).into_parts();
    Ok(Loaded {
        rings,
        used,
        left_alone,
        aliases,
    })
}

// Settles the folder, and returns its names in byte order. It is settled first, so that a crash leaves no file
// under any other name.
fn settled_names<F: Folder>(alloc: Global, folder: &mut F) -> Result<Vec<Text>, LoadRefused>
    requires fresh { F.made folder.old ≡ [] }
    ensures sorted { IfOk result (λ names. IsStrictlySortedBy (slice_cmp nat_cmp) names.items) }
    ensures listed { IsTrue (F.is_honest folder.old) → IfOk result (λ names. (name : List ℕ)
        → Contains names.items name ↔ IsSome (F.images folder.new name)) }
    ensures settled { IsTrue (F.is_honest folder.old)
        → OnOk result (IsSettled [] (F.images folder.new) (F.may_leave folder.new)) }

    ensures same { IsTrue (F.is_honest folder.old) → (name : List ℕ)
        → F.images folder.new name ≡ F.images folder.old name }
    ensures others { IsTrue (F.is_honest folder.old)
        → Stays F.images F.may_leave (F.made folder.old) folder.old folder.new }
    ensures made { F.made folder.new ≡ [] }
    ensures kept { KeepsNature F.is_honest F.is_steady F.faults (IsErrOf result LoadRefused.Folder)
        folder.old folder.new }
{
    if folder.sync().is_err() {
        return Err(LoadRefused::Folder);
    }
    match folder.names() {
        Ok(names) => Ok(in_order(alloc, names)?),
        Err(OutsideRefused::Failed) => Err(LoadRefused::Folder),
        Err(OutsideRefused::OutOfMemory) => Err(LoadRefused::OutOfMemory),
    }
}

// Takes the keyring files among these names, one after the other.
fn walk<F: Folder>(
    alloc: Global,
    folder: &mut F,
    limits: &Limits,
    names: &[Text],
    opening: &mut Opening<F::Cell>,
) -> Result<(), LoadRefused>
    requires fresh { F.made folder.old ≡ [] }
    requires empty { opening.old ≡ record { rings = []; used = []; left = []; last = None } }
    requires sorted { IsStrictlySortedBy (slice_cmp nat_cmp) names.now }
    requires listed { IsTrue (F.is_honest folder.old) → (name : List ℕ)
        → Contains names.now name → IsSome (F.images folder.old name) }
    requires settled { IsTrue (F.is_honest folder.old)
        → IsSettled [] (F.images folder.old) (F.may_leave folder.old) }
    ensures walked { OnOk result (Walk limits.now (F.is_honest folder.old)
        F.images F.may_leave F.made folder.old folder.new names.now (plain opening.new)) }
    ensures handed { (images : List ℕ → Option (List ℕ)) → (IsTrue (F.is_honest folder.old)
        → (name : List ℕ) → images name ≡ F.images folder.old name)
        → OnOk result (HandsBack (IsAsFound F.Cell.seen F.Cell.temporary
        F.Cell.may_leave F.Cell.left_since F.Cell.is_honest F.Cell.is_steady
        (F.is_honest folder.old) (F.is_steady folder.old))
        images (F.made folder.new) opening.new.rings opening.new.left) }
    ensures returned { (images : List ℕ → Option (List ℕ)) → (IsTrue (F.is_honest folder.old)
        → (name : List ℕ) → images name ≡ F.images folder.old name)
        → OnErr result (ReturnsAll (IsAsFound
        F.Cell.seen F.Cell.temporary F.Cell.may_leave F.Cell.left_since
        F.Cell.is_honest F.Cell.is_steady
        (F.is_honest folder.old) (F.is_steady folder.old))
        images (F.made folder.new) opening.new.rings opening.new.left opening.new.last) }
    ensures others { IsTrue (F.is_honest folder.old)
        → Stays F.images F.may_leave (F.made folder.new) folder.old folder.new }
    ensures last { OnOk result (opening.new.last ≡ None) }

    ensures honest { F.is_honest folder.new ≡ F.is_honest folder.old }
    ensures count { F.faults folder.new ≡ F.faults folder.old }
    ensures steady { F.is_steady folder.new ≡ F.is_steady folder.old }
    ensures cause { (images : List ℕ → Option (List ℕ)) → (IsTrue (F.is_honest folder.old)
        → (name : List ℕ) → images name ≡ F.images folder.old name)
        → IsErrOf result LoadRefused.Folder → HasFailedSlot (IsAsFound F.Cell.seen F.Cell.temporary
        F.Cell.may_leave F.Cell.left_since F.Cell.is_honest F.Cell.is_steady
        (F.is_honest folder.old) (F.is_steady folder.old))
        images (F.made folder.new) F.Cell.faults F.Cell.failed
        (F.is_steady folder.old) }
    ensures fault { NoneFailed F.Cell.failed opening.old.rings opening.old.left opening.old.last
        → ¬ (IsErrOf result LoadRefused.Folder)
        → NoneFailed F.Cell.failed opening.new.rings opening.new.left opening.new.last }
{
    for name in names {
        visit(alloc, folder, limits, name.as_str(), opening)?;
    }
    Ok(())
}

// Takes the file with this name, if it is the name of a keyring file.
fn visit<F: Folder>(
    alloc: Global,
    folder: &mut F,
    limits: &Limits,
    name: &str,
    opening: &mut Opening<F::Cell>,
) -> Result<(), LoadRefused>
    requires settled { IsTrue (F.is_honest folder.old) → ¬ (Contains (F.made folder.old) name.now)
        × Only (F.images folder.old name.now) (F.may_leave folder.old name.now) }
    ensures visited { OnOk result (Visits limits.now (F.is_honest folder.old)
        (F.images folder.old name.now) name.now (F.made folder.old) (F.made folder.new)
        opening.old opening.new) }
    ensures stays { IsTrue (F.is_honest folder.old)
        → Stays F.images F.may_leave (F.made folder.new) folder.old folder.new }
    ensures handed { (images : List ℕ → Option (List ℕ)) → (IsTrue (F.is_honest folder.old)
        → images name.now ≡ F.images folder.old name.now)
        → HandsBack (IsAsFound F.Cell.seen F.Cell.temporary
        F.Cell.may_leave F.Cell.left_since F.Cell.is_honest F.Cell.is_steady
        (F.is_honest folder.old) (F.is_steady folder.old))
        images (F.made folder.old) opening.old.rings opening.old.left
        → OnOk result (HandsBack (IsAsFound F.Cell.seen F.Cell.temporary
        F.Cell.may_leave F.Cell.left_since F.Cell.is_honest F.Cell.is_steady
        (F.is_honest folder.old) (F.is_steady folder.old))
        images (F.made folder.new) opening.new.rings opening.new.left) }
    ensures returned { (images : List ℕ → Option (List ℕ)) → (IsTrue (F.is_honest folder.old)
        → images name.now ≡ F.images folder.old name.now)
        → HandsBack (IsAsFound F.Cell.seen F.Cell.temporary
        F.Cell.may_leave F.Cell.left_since F.Cell.is_honest F.Cell.is_steady
        (F.is_honest folder.old) (F.is_steady folder.old))
        images (F.made folder.old) opening.old.rings opening.old.left
        → opening.old.last ≡ None → OnErr result (ReturnsAll (IsAsFound
        F.Cell.seen F.Cell.temporary F.Cell.may_leave F.Cell.left_since
        F.Cell.is_honest F.Cell.is_steady
        (F.is_honest folder.old) (F.is_steady folder.old))
        images (F.made folder.new) opening.new.rings opening.new.left opening.new.last) }
    ensures made { MakesOneAtMost name.now (F.made folder.old) (F.made folder.new) }
    ensures last { OnOk result (opening.new.last ≡ opening.old.last) }

    ensures honest { F.is_honest folder.new ≡ F.is_honest folder.old }
    ensures count { F.faults folder.new ≡ F.faults folder.old }
    ensures steady { F.is_steady folder.new ≡ F.is_steady folder.old }
    ensures cause { (images : List ℕ → Option (List ℕ)) → (IsTrue (F.is_honest folder.old)
        → images name.now ≡ F.images folder.old name.now) → IsErrOf result LoadRefused.Folder
        → HasFailedSlot (IsAsFound F.Cell.seen F.Cell.temporary
        F.Cell.may_leave F.Cell.left_since F.Cell.is_honest F.Cell.is_steady
        (F.is_honest folder.old) (F.is_steady folder.old))
        images (F.made folder.new) F.Cell.faults F.Cell.failed
        (F.is_steady folder.old) }
    ensures fault { NoneFailed F.Cell.failed opening.old.rings opening.old.left opening.old.last
        → ¬ (IsErrOf result LoadRefused.Folder)
        → NoneFailed F.Cell.failed opening.new.rings opening.new.left opening.new.last }
{
    match stem_of_name(alloc, name)? {
        Some(stem) => take_file(alloc, folder, limits, name, stem, opening),
        None => Ok(()),
    }
}

// Takes the keyring file with this name and stem. It isn't read if no more files can be listed.
fn take_file<F: Folder>(
    alloc: Global,
    folder: &mut F,
    limits: &Limits,
    name: &str,
    stem: Stem,
    opening: &mut Opening<F::Cell>,
) -> Result<(), LoadRefused>
    requires named { IsRingName name.now stem }
    requires settled { IsTrue (F.is_honest folder.old) → ¬ (Contains (F.made folder.old) name.now)
        × Only (F.images folder.old name.now) (F.may_leave folder.old name.now) }
    ensures visited { OnOk result (Visits limits.now (F.is_honest folder.old)
        (F.images folder.old name.now) name.now (F.made folder.old) (F.made folder.new)
        opening.old opening.new) }
    ensures stays { IsTrue (F.is_honest folder.old)
        → Stays F.images F.may_leave (F.made folder.new) folder.old folder.new }
    ensures handed { (images : List ℕ → Option (List ℕ)) → (IsTrue (F.is_honest folder.old)
        → images name.now ≡ F.images folder.old name.now)
        → HandsBack (IsAsFound F.Cell.seen F.Cell.temporary
        F.Cell.may_leave F.Cell.left_since F.Cell.is_honest F.Cell.is_steady
        (F.is_honest folder.old) (F.is_steady folder.old))
        images (F.made folder.old) opening.old.rings opening.old.left
        → OnOk result (HandsBack (IsAsFound F.Cell.seen F.Cell.temporary
        F.Cell.may_leave F.Cell.left_since F.Cell.is_honest F.Cell.is_steady
        (F.is_honest folder.old) (F.is_steady folder.old))
        images (F.made folder.new) opening.new.rings opening.new.left) }
    ensures returned { (images : List ℕ → Option (List ℕ)) → (IsTrue (F.is_honest folder.old)
        → images name.now ≡ F.images folder.old name.now)
        → HandsBack (IsAsFound F.Cell.seen F.Cell.temporary
        F.Cell.may_leave F.Cell.left_since F.Cell.is_honest F.Cell.is_steady
        (F.is_honest folder.old) (F.is_steady folder.old))
        images (F.made folder.old) opening.old.rings opening.old.left
        → opening.old.last ≡ None → OnErr result (ReturnsAll (IsAsFound
        F.Cell.seen F.Cell.temporary F.Cell.may_leave F.Cell.left_since
        F.Cell.is_honest F.Cell.is_steady
        (F.is_honest folder.old) (F.is_steady folder.old))
        images (F.made folder.new) opening.new.rings opening.new.left opening.new.last) }
    ensures made { MakesOneAtMost name.now (F.made folder.old) (F.made folder.new) }
    ensures last { OnOk result (opening.new.last ≡ opening.old.last) }

    ensures honest { F.is_honest folder.new ≡ F.is_honest folder.old }
    ensures count { F.faults folder.new ≡ F.faults folder.old }
    ensures steady { F.is_steady folder.new ≡ F.is_steady folder.old }
    ensures cause { (images : List ℕ → Option (List ℕ)) → (IsTrue (F.is_honest folder.old)
        → images name.now ≡ F.images folder.old name.now) → IsErrOf result LoadRefused.Folder
        → HasFailedSlot (IsAsFound F.Cell.seen F.Cell.temporary
        F.Cell.may_leave F.Cell.left_since F.Cell.is_honest F.Cell.is_steady
        (F.is_honest folder.old) (F.is_steady folder.old))
        images (F.made folder.new) F.Cell.faults F.Cell.failed
        (F.is_steady folder.old) }
    ensures fault { NoneFailed F.Cell.failed opening.old.rings opening.old.left opening.old.last
        → ¬ (IsErrOf result LoadRefused.Folder)
        → NoneFailed F.Cell.failed opening.new.rings opening.new.left opening.new.last }
{
    let Some(room) = opening.room(limits) else {
        return opening.leave(stem);
    };
    let (slot, look) = look_at(alloc, folder, name, room, opening)?;
    match look.into_bytes() {
        Some(image) => opening.take(alloc, limits, stem, slot, image),
        None => opening.leave_slot(stem, slot),
    }
}

// Reads the file of the aliases, or leaves it alone if it is too long.
fn load_aliases<F: Folder>(
    alloc: Global,
    folder: &mut F,
    opening: &mut Opening<F::Cell>,
) -> Result<FoundAliases<F::Cell>, LoadRefused>
    requires settled { IsTrue (F.is_honest folder.old) → ¬ (Contains (F.made folder.old) aliases)
        × Only (F.images folder.old aliases) (F.may_leave folder.old aliases) }
    ensures found { IfOk result (AreFound (F.is_honest folder.old) (F.images folder.old aliases)) }
    ensures slot { IfOk result (λ found. IsAsFound F.Cell.seen F.Cell.temporary
        F.Cell.may_leave F.Cell.left_since F.Cell.is_honest F.Cell.is_steady
        (F.is_honest folder.old) (F.is_steady folder.old)
        (F.images folder.old aliases) (alias_slot found)) }
    ensures made { OnOk result (F.made folder.new ≡ aliases ∷ F.made folder.old) }
    ensures one { MakesOneAtMost aliases (F.made folder.old) (F.made folder.new) }
    ensures returned { (images : List ℕ → Option (List ℕ)) → (IsTrue (F.is_honest folder.old)
        → images aliases ≡ F.images folder.old aliases)
        → HandsBack (IsAsFound F.Cell.seen F.Cell.temporary
        F.Cell.may_leave F.Cell.left_since F.Cell.is_honest F.Cell.is_steady
        (F.is_honest folder.old) (F.is_steady folder.old))
        images (F.made folder.old) opening.old.rings opening.old.left
        → opening.old.last ≡ None → OnErr result (ReturnsAll (IsAsFound
        F.Cell.seen F.Cell.temporary F.Cell.may_leave F.Cell.left_since
        F.Cell.is_honest F.Cell.is_steady
        (F.is_honest folder.old) (F.is_steady folder.old))
        images (F.made folder.new) opening.new.rings opening.new.left opening.new.last) }
    ensures opening { OnOk result (opening.new ≡ opening.old) }
    ensures stays { IsTrue (F.is_honest folder.old)
        → Stays F.images F.may_leave (F.made folder.new) folder.old folder.new }

    ensures honest { F.is_honest folder.new ≡ F.is_honest folder.old }
    ensures count { F.faults folder.new ≡ F.faults folder.old }
    ensures steady { F.is_steady folder.new ≡ F.is_steady folder.old }
    ensures cause { (images : List ℕ → Option (List ℕ)) → (IsTrue (F.is_honest folder.old)
        → images aliases ≡ F.images folder.old aliases)
        → IsErrOf result LoadRefused.Folder → HasFailedSlot (IsAsFound F.Cell.seen F.Cell.temporary
        F.Cell.may_leave F.Cell.left_since F.Cell.is_honest F.Cell.is_steady
        (F.is_honest folder.old) (F.is_steady folder.old))
        images (F.made folder.new) F.Cell.faults F.Cell.failed
        (F.is_steady folder.old) }
    ensures fine { IfOk result (λ found. F.Cell.failed (alias_slot found) ≡ None) }
    ensures fault { NoneFailed F.Cell.failed opening.old.rings opening.old.left opening.old.last
        → ¬ (IsErrOf result LoadRefused.Folder)
        → NoneFailed F.Cell.failed opening.new.rings opening.new.left opening.new.last }
{
    let (slot, look) = look_at(alloc, folder, "aliases", LONGEST, opening)?;
    match found_by(alloc, slot, look) {
        Ok(found) => Ok(found),
        Err(failed) => Err(opening.stop(failed.value, LoadRefused::OutOfMemory)),
    }
}
