ghost use Rattle.std.specs.Prelude.{◌≡◌};
ghost use Rattle.std.specs.Cmp.Lexicographic.{slice_cmp};
ghost use Rattle.std.specs.List.Sorted.{IsPermutation, IsSortedByKey};
ghost use Rattle.std.specs.Ordering.{nat_cmp};
ghost use Rattle.keyring_file.specs.ClearText.{HasClear};
ghost use Rattle.replace_slot.specs.Cell.{IsKnownFile};
ghost use Rattle.folder_store.specs.Ring.{bytes_of};

use keyring_file::Clear;
use kr_base::Stem;
use kr_outside::Slot;
use replace_slot::{FileCell, Image};
use std::marker::Model;

/// A collection that is listed: its stem, the cell of its file, and the clear part. The file is known,
/// and the clear part is that of its image.
#[derive(Drop)]
pub struct Ring<S: Slot> {
    stem: Stem,
    cell: FileCell<S>,
    clear: Clear,
}

impl<S: Slot> Model for Ring<S> {
    ghost use Rattle.keyring_file.specs.ClearText.{HasClear};
    ghost use Rattle.replace_slot.specs.Cell.{IsKnownFile};
    ghost use Rattle.folder_store.specs.Ring.{RingState};

    ghost Value = { RingState S };

    ghost view = { λ r. record { stem = r.stem; cell = r.cell; clear = r.clear } };

    ghost invariant = { λ r. IsKnownFile (λ file. HasClear file r.clear) r.cell.file };
}

impl<S: Slot> Ring<S> {
    /// The collection of this file.
    pub fn new(stem: Stem, cell: FileCell<S>, clear: Clear) -> Ring<S>
        requires { IsKnownFile (λ file. HasClear file clear) cell.file }
        ensures { result ≡ record { stem = stem; cell = cell; clear = clear } }
    {
        Ring { stem, cell, clear }
    }

    /// The stem.
    pub fn stem(&self) -> &Stem
        ensures { result.now ≡ self.now.stem }
    {
        &self.stem
    }

    /// The clear part of the file.
    pub fn clear(&self) -> &Clear
        ensures value { result.now ≡ self.now.clear }
        ensures shown { IsKnownFile (λ file. HasClear file self.now.clear) self.now.cell.file }
    {
        &self.clear
    }

    /// The file's image.
    pub fn image(&self) -> &Image
        ensures { result.now ≡ bytes_of self.now.cell.file }
    {
        match self.cell.image() {
            Some(image) => image,
            None => unreachable!(),
        }
    }

    /// The slot. It takes no memory.
    pub fn into_slot(self) -> S
        ensures { result ≡ self.cell.slot }
    {
        self.cell.into_slot()
    }

    /// The stem, the cell and the clear part. It takes no memory.
    pub fn into_parts(self) -> (Stem, FileCell<S>, Clear)
        ensures stem { result.0 ≡ self.stem }
        ensures cell { result.1 ≡ self.cell }
        ensures clear { result.2 ≡ self.clear }
        ensures shown { IsKnownFile (λ file. HasClear file self.clear) self.cell.file }
    {
        (self.stem, self.cell, self.clear)
    }
}

/// Puts collections in byte order of their stems. It takes no memory.
pub fn sort_by_stem<S: Slot>(rings: &mut Vec<Ring<S>>)
    ensures same { IsPermutation rings.old.items rings.new.items }
    ensures sorted { IsSortedByKey (λ ring. ring.stem) (slice_cmp nat_cmp) rings.new.items }
{
    rings.sort_unstable_by(|one, other| one.stem().cmp(other.stem()));
}
