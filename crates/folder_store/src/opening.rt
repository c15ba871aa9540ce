// What is open so far, while the names of a folder are gone through.
ghost use Rattle.std.specs.Prelude.{◌≡◌, ◌<◌, ◌≤◌, ◌↔◌, ◌+◌, ◌^◌, ◌++◌, ◌∷◌, [], IsTrue, Some, None, IfOk, IfErr, IfSome, IsNone, OnOk, OnErr, length, List, ℕ};
ghost use Rattle.std.specs.Cmp.Lexicographic.{slice_cmp};
ghost use Rattle.std.specs.List.Sorted.{IsPermutation, IsSortedByKey};
ghost use Rattle.std.specs.Ordering.{nat_cmp};
ghost use Rattle.kr_outside.specs.RenameDisk.{Only};
ghost use Rattle.keyring_file.specs.Clear.{ClearPart};
ghost use Rattle.folder_store.specs.Names.{IsRingName};
ghost use Rattle.folder_store.specs.Opened.{Fits, Takes, items_in, bytes_in, leaves_alone};
ghost use Rattle.folder_store.specs.Ring.{rows_of, bytes_of};
ghost use Rattle.folder_store.specs.Walk.{plain, Keeps, StopsAt};

use crate::limits::Limits;
use crate::refused::{LoadRefused, NotLoaded};
use crate::ring::{Ring, sort_by_stem};
use keyring_file::{Clear, read_clear};
use keyring_text::ReadRefused;
use kr_base::{OutOfMemory, Stem};
use kr_outside::Slot;
use replace_slot::{FileCell, Image};
use std::alloc::Global;
use std::marker::Model;

/// A keyring file that was looked at and left alone: its stem, and its slot.
#[derive(Drop)]
pub struct LeftAlone<S: Slot> {
    /// The stem.
    pub stem: Stem,
    /// The slot.
    pub slot: S,
}

/// The collections listed so far, the stems that are used, and the files that were looked at and left
/// alone, all in the order of the names; and the slot at which the load stopped.
#[derive(Drop)]
pub struct Opening<S: Slot> {
    rings: Vec<Ring<S>>,
    used: Vec<Stem>,
    left: Vec<LeftAlone<S>>,
    last: Option<S>,
    items: usize,
    bytes: usize,
}

impl<S: Slot> Model for Opening<S> {
    ghost use Rattle.std.specs.Prelude.{◌≡◌};
    ghost use Rattle.folder_store.specs.Opened.{items_in, bytes_in};
    ghost use Rattle.folder_store.specs.Ring.{rows_of};
    ghost use Rattle.folder_store.specs.Walk.{OpeningState};

    ghost Value = { OpeningState S };

    ghost view = { λ o. record {
      rings = o.rings.items;
      used = o.used.items;
      left = o.left.items;
      last = o.last;
    } };

    ghost invariant = { λ o. (o.items ≡ items_in (rows_of o.rings.items))
        × (o.bytes ≡ bytes_in (rows_of o.rings.items)) };
}

impl<S: Slot> Opening<S> {
    /// Nothing is open.
    pub fn new(alloc: Global) -> Opening<S>
        ensures { result ≡ record { rings = []; used = []; left = []; last = None } }
    {
        Opening {
            rings: Vec::new(alloc),
            used: Vec::new(alloc),
            left: Vec::new(alloc),
            last: None,
            items: 0,
            bytes: 0,
        }
    }

    /// The collections in byte order of their stems, the used stems, and the files that were left alone.
    pub fn into_parts(self) -> (Vec<Ring<S>>, Vec<Stem>, Vec<LeftAlone<S>>)
        ensures same { IsPermutation self.rings result.0.items }
        ensures sorted { IsSortedByKey (λ ring. ring.stem) (slice_cmp nat_cmp) result.0.items }
        ensures used { result.1.items ≡ self.used }
        ensures left { result.2.items ≡ self.left }
    {
        let mut rings = self.rings;
        sort_by_stem(&mut rings);
        (rings, self.used, self.left)
    }

    /// What is returned of a load that was refused: each slot that is in here.
    pub fn into_refusal(self, refused: LoadRefused) -> NotLoaded<S>
        ensures cause { result.refused ≡ refused }
        ensures rings { result.rings.items ≡ self.rings }
        ensures left { result.left_alone.items ≡ self.left }
        ensures last { result.last ≡ self.last }
    {
        NotLoaded {
            refused,
            rings: self.rings,
            left_alone: self.left,
            last: self.last,
        }
    }

    /// Keeps the slot at which the load stops, and returns the cause.
    pub fn stop(&mut self, slot: S, refused: LoadRefused) -> LoadRefused
        ensures cause { result ≡ refused }
        ensures kept { self.new ≡ record self.old { last = Some slot } }
    {
        self.last = Some(slot);
        refused
    }

    /// The most bytes that another file may have; None if no more files can be listed.
    pub fn room(&self, limits: &Limits) -> Option<usize>
        ensures some { IfSome result (λ room. (clear : ClearPart) (image : List ℕ)
            → Fits limits.now (rows_of self.now.rings) clear image → length image ≤ room) }
        ensures none { IsNone result → (clear : ClearPart) (image : List ℕ)
            → ¬ (Fits limits.now (rows_of self.now.rings) clear image) }
    {
        if self.rings.len() >= limits.collections {
            return None;
        }
        let left = limits.all_files.saturating_sub(self.bytes);
        Some(left.min(limits.one_file))
    }

    // Whether the limits allow a file with this clear part and these bytes to be listed.
    fn fits(&self, limits: &Limits, clear: &Clear, image: &[u8]) -> bool
        ensures fits { IsTrue result
            ↔ Fits limits.now (rows_of self.now.rings) clear.now image.now }
        ensures items { IsTrue result
            → items_in (rows_of self.now.rings) + length clear.now.items < 2 ^ 64 }
        ensures bytes { IsTrue result
            → bytes_in (rows_of self.now.rings) + length image.now < 2 ^ 64 }
    {
        self.rings.len() < limits.collections
            && image.len() <= limits.one_file
            && has_room(self.items, clear.items.len(), limits.items)
            && has_room(self.bytes, image.len(), limits.all_files)
    }

    /// Leaves alone a file for which no slot was made; its stem counts as used.
    pub fn leave(&mut self, stem: Stem) -> Result<(), LoadRefused>
        ensures left { OnOk result (plain self.new ≡ leaves_alone stem (plain self.old)) }
        ensures rings { self.new.rings ≡ self.old.rings }
        ensures slots { self.new.left ≡ self.old.left }
        ensures last { self.new.last ≡ self.old.last }
        ensures memory { IfErr result (λ refused. refused ≡ LoadRefused.OutOfMemory) }
    {
        self.used.push(stem)?;
        Ok(())
    }

    /// Leaves alone a file that was looked at; its stem counts as used, and its slot is kept.
    pub fn leave_slot(&mut self, stem: Stem, slot: S) -> Result<(), LoadRefused>
        ensures left { OnOk result (plain self.new ≡ leaves_alone stem (plain self.old)) }
        ensures used { OnOk result (self.new.used ≡ self.old.used ++ stem ∷ []) }
        ensures rings { self.new.rings ≡ self.old.rings }
        ensures slots { OnOk result
            (self.new.left ≡ self.old.left ++ (record { stem = stem; slot = slot }) ∷ []) }
        ensures last { OnOk result (self.new.last ≡ self.old.last) }
        ensures stopped { OnErr result (StopsAt slot self.old self.new) }
        ensures memory { IfErr result (λ refused. refused ≡ LoadRefused.OutOfMemory) }
    {
        if self.count_used(&stem).is_err() {
            return Err(self.stop(slot, LoadRefused::OutOfMemory));
        }
        match self.left.push(LeftAlone { stem, slot }) {
            Ok(()) => Ok(()),
            Err(failed) => Err(self.stop(failed.value.slot, LoadRefused::OutOfMemory)),
        }
    }

    // Counts the stem as used.
    fn count_used(&mut self, stem: &Stem) -> Result<(), OutOfMemory>
        ensures used { OnOk result (self.new.used ≡ self.old.used ++ stem.now ∷ []) }
        ensures rings { self.new.rings ≡ self.old.rings }
        ensures left { self.new.left ≡ self.old.left }
        ensures last { self.new.last ≡ self.old.last }
    {
        let used = stem.copy()?;
        self.used.push(used)?;
        Ok(())
    }

    // Lists a collection, and counts this stem as used.
    fn list(&mut self, stem: &Stem, ring: Ring<S>) -> Result<(), LoadRefused>
        requires items { items_in (rows_of self.old.rings) + length ring.clear.items < 2 ^ 64 }
        requires bytes { bytes_in (rows_of self.old.rings) + length (bytes_of ring.cell.file)
            < 2 ^ 64 }
        ensures rings { OnOk result (self.new.rings ≡ self.old.rings ++ ring ∷ []) }
        ensures used { OnOk result (self.new.used ≡ self.old.used ++ stem.now ∷ []) }
        ensures left { self.new.left ≡ self.old.left }
        ensures last { OnOk result (self.new.last ≡ self.old.last) }
        ensures stopped { OnErr result (StopsAt ring.cell.slot self.old self.new) }
        ensures memory { IfErr result (λ refused. refused ≡ LoadRefused.OutOfMemory) }
    {
        if self.count_used(stem).is_err() {
            return Err(self.stop(ring.into_slot(), LoadRefused::OutOfMemory));
        }
        self.push(ring)
    }

    // Lists a collection.
    fn push(&mut self, ring: Ring<S>) -> Result<(), LoadRefused>
        requires items { items_in (rows_of self.old.rings) + length ring.clear.items < 2 ^ 64 }
        requires bytes { bytes_in (rows_of self.old.rings) + length (bytes_of ring.cell.file)
            < 2 ^ 64 }
        ensures rings { OnOk result (self.new.rings ≡ self.old.rings ++ ring ∷ []) }
        ensures used { self.new.used ≡ self.old.used }
        ensures left { self.new.left ≡ self.old.left }
        ensures last { OnOk result (self.new.last ≡ self.old.last) }
        ensures stopped { OnErr result (StopsAt ring.cell.slot self.old self.new) }
        ensures memory { IfErr result (λ refused. refused ≡ LoadRefused.OutOfMemory) }
    {
        let clear = ring.clear().items.len();
        let bytes = ring.image().bytes().len();
        match self.rings.push(ring) {
            Ok(()) => {
                self.items += clear;
                self.bytes += bytes;
                Ok(())
            }
            Err(failed) => { Err(self.stop(failed.value.into_slot(), LoadRefused::OutOfMemory)) }
        }
    }

    /// Takes one more file: lists it if it is a keyring file and the limits allow it, and otherwise
    /// leaves it alone. Its slot is kept.
    pub fn take(
        &mut self,
        alloc: Global,
        limits: &Limits,
        stem: Stem,
        slot: S,
        image: Vec<u8>,
    ) -> Result<(), LoadRefused>
        requires { IsTrue (S.is_honest slot) → Only (Some image.items) (S.may_leave slot) }
        ensures taken { (name : List ℕ) → IsRingName name stem → OnOk result
            (Takes limits.now name image.items (plain self.old) (plain self.new)) }
        ensures used { OnOk result (self.new.used ≡ self.old.used ++ stem ∷ []) }
        ensures kept { OnOk result (Keeps stem slot self.old self.new) }
        ensures last { OnOk result (self.new.last ≡ self.old.last) }
        ensures stopped { OnErr result (StopsAt slot self.old self.new) }
        ensures memory { IfErr result (λ refused. refused ≡ LoadRefused.OutOfMemory) }
    {
        match read_clear(alloc, &image) {
            Ok((clear, _)) => {
                if !self.fits(limits, &clear, &image) {
                    return self.leave_slot(stem, slot);
                }
                match used_and_image(alloc, &stem, image) {
                    Ok((used, image)) => {
                        let cell = FileCell::known(slot, Some(image));
                        self.list(&used, Ring::new(stem, cell, clear))
                    }
                    Err(_) => Err(self.stop(slot, LoadRefused::OutOfMemory)),
                }
            }
            Err(ReadRefused::OutOfMemory) => Err(self.stop(slot, LoadRefused::OutOfMemory)),
            Err(ReadRefused::Fault(_)) => self.leave_slot(stem, slot),
        }
    }
}

// A copy of the stem, and the image with these bytes.
fn used_and_image(alloc: Global, stem: &Stem, image: Vec<u8>) -> Result<(Stem, Image), OutOfMemory>
    ensures used { IfOk result (λ both. both.0 ≡ stem.now) }
    ensures image { IfOk result (λ both. both.1 ≡ image.items) }
{
    let used = stem.copy()?;
    let image = Image::new(alloc, image)?;
    Ok((used, image))
}

// Whether this many more are within the limit.
fn has_room(so_far: usize, more: usize, limit: usize) -> bool
    ensures { IsTrue result ↔ (so_far + more ≤ limit) }
{
    more <= limit && so_far <= limit - more
}
