ghost use Rattle.std.specs.Prelude.{◌≡◌, ◌≢◌, ◌+◌, ◌≤◌, ◌<◌, ◌⊎◌, ◌↔◌, IsTrue, None, Some, length, IfOk, OnOk, OnErr, IsErr, IsErrOf};
ghost use Rattle.std.specs.Option.{option_map};
ghost use Rattle.kr_outside.specs.Moments.{LeavesOnly};
ghost use Rattle.kr_outside.specs.RenameDisk.{Only, FitsIn};
ghost use Rattle.kr_outside.specs.Slot.{KeepsNature};
ghost use Rattle.replace_slot.specs.Cell.{Known, Doubt, IsKnown, HasFile, old_image, new_image, IsOneOf, LeavesFile, length_of, longest_of, FailedBefore, FailedAfter, FailedRead};
ghost use Rattle.replace_slot.specs.Found.{Gave, found_file, Shows, IsFoundBy, IsFoundOf};

use crate::image::Image;
use crate::images::{Found, Images};
use crate::steps::{prepare, publish, retire, settle};
use kr_outside::{DeviceCall, Slot};
use std::marker::Model;
use thiserror::Error;

/// Why a file wasn't replaced.
#[derive(Clone, Copy, Debug, PartialEq, Eq, Error)]
pub enum ReplaceFault {
    /// The temporary file couldn't be written or synced. The file is as before.
    #[error("the new file could not be written")]
    FaultBefore,
    /// The temporary file couldn't take the name, or the folder couldn't be synced. The file is in
    /// doubt.
    #[error("the file was replaced or it was not")]
    FaultUnsure,
}

/// Why a file wasn't removed.
#[derive(Clone, Copy, Debug, PartialEq, Eq, Error)]
pub enum RemoveFault {
    /// The name couldn't be removed, or the folder couldn't be synced. The file is in doubt.
    #[error("the file was removed or it was not")]
    FaultUnsure,
}

/// The folder couldn't be synced or the file couldn't be read. The file stays in doubt.
#[derive(Clone, Copy, Debug, PartialEq, Eq, Error)]
#[error("the file could not be read again")]
pub struct FaultRead;

/// A slot, and what is known of its file: the image that it has, or the two of which it has one.
#[derive(Drop)]
pub struct FileCell<S: Slot> {
    slot: S,
    file: Images,
}

impl<S: Slot> Model for FileCell<S> {
    ghost use Rattle.std.specs.Prelude.{IsTrue};
    ghost use Rattle.replace_slot.specs.Cell.{CellState, LeavesFile};

    ghost Value = { CellState S };

    ghost view = { λ c. record { slot = c.slot; file = c.file } };

    ghost invariant = { λ c. IsTrue (S.is_honest c.slot) → LeavesFile c.file (S.may_leave c.slot) };
}

impl<S: Slot> FileCell<S> {
    /// A cell whose file is known to have this image, or not to exist.
    pub fn known(slot: S, image: Option<Image>) -> FileCell<S>
        requires { IsTrue (S.is_honest slot) → Only image (S.may_leave slot) }
        ensures { result ≡ record { slot = slot; file = Known image } }
    {
        FileCell {
            slot,
            file: Images::known(image),
        }
    }

    /// Whether the image is known.
    pub fn is_known(&self) -> bool
        ensures known { IsTrue result ↔ IsKnown self.now.file }
        ensures crash { IsTrue (S.is_honest self.now.slot)
            → LeavesFile self.now.file (S.may_leave self.now.slot) }
    {
        self.file.is_known()
    }

    /// The number of bytes of the longest image; 0 for no file.
    pub fn longest(&self) -> usize
        ensures { result ≡ longest_of self.now.file }
    {
        self.file.longest()
    }

    /// The known image, or the older of the two; None for no file.
    pub fn image(&self) -> Option<&Image>
        ensures { option_map (λ image. image.now) result ≡ old_image self.now.file }
    {
        self.file.image()
    }

    /// The known image, or the newer of the two; None for no file.
    pub fn newer(&self) -> Option<&Image>
        ensures { option_map (λ image. image.now) result ≡ new_image self.now.file }
    {
        self.file.newer()
    }

    /// A law: while nothing is done with the cell, a crash leaves one of the file's images at each
    /// moment, and if the file is known, exactly its image. The call does nothing.
    pub fn untouched(&self)
        ensures any_moment { IsTrue (S.is_honest self.now.slot)
            → LeavesOnly S.moment S.left_since self.now.slot self.now.slot
            (IsOneOf self.now.file) }
    {
        // Shows what the type keeps of the cell.
        let _known = self.is_known();
    }

    /// The slot. What is known of its file is lost.
    pub fn into_slot(self) -> S
        ensures slot { result ≡ self.slot }
        ensures crash { IsTrue (S.is_honest self.slot)
            → LeavesFile self.file (S.may_leave self.slot) }
    {
        self.slot
    }

    /// Replaces the file: the new bytes go into the temporary file, which is synced and takes the
    /// name, and the folder is synced. At `Ok` each crash leaves the new image. It takes no memory.
    ///
    /// Refused with `FaultBefore` if the temporary file couldn't be written or synced, and with
    /// `FaultUnsure` if it couldn't take the name or the folder couldn't be synced.
    pub fn replace(&mut self, image: Image) -> Result<(), ReplaceFault>
        requires { IsKnown self.old.file }

        ensures stored { OnOk result (self.new.file ≡ Known (Some image)) }
        ensures before { IsErrOf result ReplaceFault.FaultBefore → self.new.file ≡ self.old.file }
        ensures unsure { IsErrOf result ReplaceFault.FaultUnsure
            → self.new.file ≡ Doubt (old_image self.old.file) (Some image) }

        // A crash afterwards leaves one of the file's images, and a crash at any moment of the call
        // the old one or the new one: only the old one if the call ends with `FaultBefore`.
        ensures crash { IsTrue (S.is_honest self.new.slot)
            → LeavesFile self.new.file (S.may_leave self.new.slot) }
        ensures any_moment { IsTrue (S.is_honest self.old.slot)
            → LeavesOnly S.moment S.left_since self.old.slot self.new.slot
            (IsOneOf (Doubt (old_image self.old.file) (Some image))) }
        ensures old_alone { IsTrue (S.is_honest self.old.slot)
            → IsErrOf result ReplaceFault.FaultBefore
            → LeavesOnly S.moment S.left_since self.old.slot self.new.slot
            (IsOneOf self.old.file) }

        // Each fault has its cause, which is a call of the device, and two calls succeed before one
        // that leaves the file in doubt.
        ensures kept { KeepsNature S.is_honest S.is_steady S.faults (IsErr result)
            self.old.slot self.new.slot }
        ensures before_call { IsErrOf result ReplaceFault.FaultBefore
            → FailedBefore (S.failed self.new.slot) }
        ensures unsure_call { IsErrOf result ReplaceFault.FaultUnsure
            → FailedAfter DeviceCall.Rename (IsTrue (S.is_honest self.old.slot)
            → S.seen self.new.slot ≡ Some image) (S.failed self.new.slot) }
        ensures staged { IsTrue (S.is_honest self.old.slot)
            → IsErrOf result ReplaceFault.FaultUnsure
            → S.moment self.old.slot + 2 ≤ S.moment self.new.slot }
    {
        if let Err(_) = prepare(&mut self.slot, image.bytes()) {
            return Err(ReplaceFault::FaultBefore);
        }
        match publish(&mut self.slot) {
            Ok(()) => {
                self.file.set(Some(image));
                Ok(())
            }
            Err(_) => {
                self.file.doubt(Some(image));
                Err(ReplaceFault::FaultUnsure)
            }
        }
    }

    /// Removes the file: the name is removed, and the folder is synced. At `Ok` each crash leaves
    /// no file. It takes no memory.
    ///
    /// Refused with `FaultUnsure` if the name couldn't be removed or the folder couldn't be synced.
    pub fn remove(&mut self) -> Result<(), RemoveFault>
        requires { HasFile self.old.file }

        ensures removed { OnOk result (self.new.file ≡ Known None) }
        ensures unsure { OnErr result (self.new.file ≡ Doubt (old_image self.old.file) None) }

        // A crash afterwards leaves one of the file's images, and a crash at any moment of the call
        // the old one or none.
        ensures crash { IsTrue (S.is_honest self.new.slot)
            → LeavesFile self.new.file (S.may_leave self.new.slot) }
        ensures any_moment { IsTrue (S.is_honest self.old.slot)
            → LeavesOnly S.moment S.left_since self.old.slot self.new.slot
            (IsOneOf (Doubt (old_image self.old.file) None)) }

        // A fault has its cause, which is one of the two calls.
        ensures kept { KeepsNature S.is_honest S.is_steady S.faults (IsErr result)
            self.old.slot self.new.slot }
        ensures unsure_call { IsErr result → FailedAfter DeviceCall.Remove (IsTrue
            (S.is_honest self.old.slot) → S.seen self.new.slot ≡ None) (S.failed self.new.slot) }
    {
        match retire(&mut self.slot) {
            Ok(()) => {
                self.file.set(None);
                Ok(())
            }
            Err(_) => {
                self.file.doubt(None);
                Err(RemoveFault::FaultUnsure)
            }
        }
    }

    /// Ends a doubt: the folder is synced, and the file is read into the buffer. The file is then
    /// known to have the image that was found, or the old one if neither was. It takes no memory.
    ///
    /// Refused with `FaultRead` if the folder couldn't be synced or the file couldn't be read;
    /// the doubt stays.
    pub fn resolve(&mut self, buffer: &mut [u8]) -> Result<Found, FaultRead>
        requires doubt { ¬ (IsKnown self.old.file) }
        requires room { longest_of self.old.file < length buffer.old }

        ensures found { IfOk result (λ found. self.new.file ≡ found_file found self.old.file) }
        ensures shown { IfOk result (λ found. Shows found self.old.file buffer.new) }
        ensures unchanged { OnErr result (self.new.file ≡ self.old.file) }

        // What is found is what the read returned. With an honest slot it is the image that the name
        // stands for, before the call as well as after it, and so one of the two.
        ensures by_read { IfOk result (λ found.
            IsFoundBy (S.answered self.new.slot) buffer.new found self.old.file) }
        ensures by_name { IsTrue (S.is_honest self.old.slot)
            → IfOk result (λ found. IsFoundOf (S.seen self.old.slot) found self.old.file) }
        ensures same { IsTrue (S.is_honest self.old.slot)
            → S.seen self.new.slot ≡ S.seen self.old.slot }
        ensures one { IsTrue (S.is_honest self.old.slot)
            → IfOk result (λ found. found ≢ Found.Other) }

        // A crash afterwards leaves the image that was found, and a crash at any moment of the call
        // one of the two.
        ensures crash { IsTrue (S.is_honest self.new.slot)
            → LeavesFile self.new.file (S.may_leave self.new.slot) }
        ensures any_moment { IsTrue (S.is_honest self.old.slot)
            → LeavesOnly S.moment S.left_since self.old.slot self.new.slot
            (IsOneOf self.old.file) }

        // A fault has its cause, which is one of the two calls.
        ensures kept { KeepsNature S.is_honest S.is_steady S.faults (IsErr result)
            self.old.slot self.new.slot }
        ensures read_call { IsErr result → FailedRead (S.failed self.new.slot) }
    {
        match settle(&mut self.slot, buffer) {
            Ok(seen) => Ok(self.file.find(seen, buffer)),
            Err(_) => Err(FaultRead),
        }
    }
}
