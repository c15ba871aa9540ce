ghost use Rattle.std.specs.Prelude.{◌≡◌, ℕ, ◌≤◌, ◌⊎◌, Bool, IsTrue, List, Option, None, Some, length, IfOk, OnOk, OnErr};
ghost use Rattle.kr_outside.specs.Faults.{IsBelowLast};
ghost use Rattle.kr_outside.specs.RenameDisk.{Temporary, Unsynced, synced, GivesTemporary, LeavesTemporary, Only, LeavesAnyBytes, LeavesNoMore, LeavesAlso, size_of, FitsIn, Reads};
ghost use Rattle.kr_outside.specs.Slot.{IsOneCall, OnlyLooks};

use crate::Failed;

/// What a read of a slot found.
#[derive(Clone, Copy, PartialEq, Eq)]
pub enum Seen {
    /// The name stands for no file.
    Missing,
    /// The file has this many bytes, and they are at the start of the buffer.
    Whole(usize),
    /// The file is longer than the buffer.
    Longer,
}

/// A call of the device that a slot is made on.
#[derive(Clone, Copy, PartialEq, Eq)]
pub enum DeviceCall {
    /// `size`.
    Size,
    /// `read`.
    Read,
    /// `put_temp`.
    PutTemp,
    /// `sync_temp`.
    SyncTemp,
    /// `rename`.
    Rename,
    /// `sync_folder`.
    SyncFolder,
    /// `remove`.
    Remove,
}

/// One name of a folder, and the temporary file beside it that may take the name.
///
/// What the clauses say of content, time and crashes is about an honest slot, one that behaves as
/// the rename disk does. No call takes memory.
pub trait Slot: Drop {
    ghost use Rattle.kr_outside.specs.declared.slot.DeviceCall.{DeviceCall};
    ghost use Rattle.kr_outside.specs.declared.slot.Seen.{Seen};

    /// What a read returns: the bytes of a file, or no file.
    ghost seen: { Self → Option (List ℕ) };

    /// What is known of the temporary file.
    ghost temporary: { Self → Temporary };

    /// The images that a crash at this moment may leave under the name.
    ghost may_leave: { Self → Option (List ℕ) → Type 0 };

    /// The present moment, as a number of the slot's own clock.
    ghost moment: { Self → ℕ };

    /// The images that a crash at some moment from the given one on might have left, within a call
    /// or between two.
    ghost left_since: { Self → ℕ → Option (List ℕ) → Type 0 };

    /// How often the slot has failed. The count never falls, and stays at 2^64 - 1.
    ghost faults: { Self → ℕ };

    /// The last call, if it failed.
    ghost failed: { Self → Option DeviceCall };

    /// What the last successful read returned.
    ghost answered: { Self → Option Seen };

    /// Whether the slot behaves as the rename disk does, and nobody else writes its folder.
    ghost is_honest: { Self → Bool };

    /// Whether the slot never fails, so that its count never rises.
    ghost is_steady: { Self → Bool };

    /// The number of bytes of the file, or None if the name stands for no file.
    fn size(&mut self) -> Result<Option<u64>, Failed>
        ensures answer { IsTrue (is_honest self.old)
            → IfOk result (λ size. size ≡ size_of (seen self.old)) }
        ensures look { OnlyLooks seen temporary may_leave is_honest self.old self.new }
        ensures call { IsOneCall moment left_since may_leave is_honest is_steady faults failed
            DeviceCall.Size self.old self.new result };

    /// Reads the file to the start of the buffer. It returns `Longer` exactly if the file is longer
    /// than the buffer.
    ///
    /// Refused with `Failed` only if the count of faults rose; nothing is known of the buffer then.
    fn read(&mut self, buffer: &mut [u8]) -> Result<Seen, Failed>
        ensures fits { IfOk result (FitsIn (length buffer.new)) }
        ensures answer { IsTrue (is_honest self.old)
            → IfOk result (Reads (seen self.old) buffer.new) }
        ensures told { IfOk result (λ found. answered self.new ≡ Some found) }
        ensures look { OnlyLooks seen temporary may_leave is_honest self.old self.new }
        ensures call { IsOneCall moment left_since may_leave is_honest is_steady faults failed
            DeviceCall.Read self.old self.new result };

    /// Makes the temporary file anew with these bytes. Until a sync of it succeeds, a crash may
    /// leave any bytes in it.
    ///
    /// Refused with `Failed` only if the count of faults rose; what the name stands for is unchanged.
    fn put_temp(&mut self, bytes: &[u8]) -> Result<(), Failed>
        ensures put { IsTrue (is_honest self.old)
            → OnOk result (temporary self.new ≡ Unsynced bytes.now) }
        ensures same { IsTrue (is_honest self.old) → seen self.new ≡ seen self.old }
        ensures crash { IsTrue (is_honest self.old)
            → LeavesNoMore (may_leave self.old) (may_leave self.new) }
        ensures call { IsOneCall moment left_since may_leave is_honest is_steady faults failed
            DeviceCall.PutTemp self.old self.new result };

    /// Puts the bytes of the temporary file on the disk, so that a crash leaves them in it.
    ///
    /// Refused with `Failed` only if the count of faults rose; what the name stands for is unchanged.
    fn sync_temp(&mut self) -> Result<(), Failed>
        ensures synced { IsTrue (is_honest self.old)
            → OnOk result (temporary self.new ≡ synced (temporary self.old)) }
        ensures same { IsTrue (is_honest self.old) → seen self.new ≡ seen self.old }
        ensures crash { IsTrue (is_honest self.old)
            → LeavesNoMore (may_leave self.old) (may_leave self.new) }
        ensures call { IsOneCall moment left_since may_leave is_honest is_steady faults failed
            DeviceCall.SyncTemp self.old self.new result };

    /// Makes the name stand for the temporary file. Until a sync of the folder succeeds, a crash may
    /// leave what the name stood for before or what it stands for now.
    ///
    /// Refused with `Failed` only if the count of faults rose; a read from then on returns the old
    /// image or the new one, as the disk chose, and a crash may leave either.
    fn rename(&mut self) -> Result<(), Failed>
        ensures renamed { IsTrue (is_honest self.old)
            → OnOk result (GivesTemporary (temporary self.old) (seen self.new)) }
        ensures unsure { IsTrue (is_honest self.old) → OnErr result ((seen self.new ≡ seen self.old)
            ⊎ GivesTemporary (temporary self.old) (seen self.new)) }
        ensures crash { IsTrue (is_honest self.old) → LeavesAlso (may_leave self.old)
            (LeavesTemporary (temporary self.old)) (may_leave self.new) }
        ensures call { IsOneCall moment left_since may_leave is_honest is_steady faults failed
            DeviceCall.Rename self.old self.new result };

    /// Puts on the disk what this name stands for; nothing is said of other names. After it a crash
    /// leaves what a read returns, unless the name stands for a file whose bytes weren't synced.
    ///
    /// Refused with `Failed` only if the count of faults rose; a crash may leave only what it
    /// could leave before.
    fn sync_folder(&mut self) -> Result<(), Failed>
        ensures settled { IsTrue (is_honest self.old)
            → OnOk result (LeavesAnyBytes (may_leave self.old)
            ⊎ Only (seen self.old) (may_leave self.new)) }
        ensures look { OnlyLooks seen temporary may_leave is_honest self.old self.new }
        ensures call { IsOneCall moment left_since may_leave is_honest is_steady faults failed
            DeviceCall.SyncFolder self.old self.new result };

    /// Makes the name stand for no file. Until a sync of the folder succeeds, a crash may leave what
    /// the name stood for before, or no file.
    ///
    /// Refused with `Failed` only if the count of faults rose; a read from then on returns the old
    /// image or no file, as the disk chose, and a crash may leave either.
    fn remove(&mut self) -> Result<(), Failed>
        ensures removed { IsTrue (is_honest self.old) → OnOk result (seen self.new ≡ None) }
        ensures unsure { IsTrue (is_honest self.old)
            → OnErr result ((seen self.new ≡ seen self.old) ⊎ (seen self.new ≡ None)) }
        ensures crash { IsTrue (is_honest self.old) → LeavesAlso (may_leave self.old)
            (λ image. image ≡ None) (may_leave self.new) }
        ensures call { IsOneCall moment left_since may_leave is_honest is_steady faults failed
            DeviceCall.Remove self.old self.new result };

    /// What a read returns is one of the images that a crash now may leave.
    ghost may_leave_seen: { (slot : Self) → IsTrue (is_honest slot) → may_leave slot (seen slot) };

    /// What a crash now may leave is among what it might have left since any moment up to now.
    ghost counts_now: { (slot : Self) (t : ℕ) (image : Option (List ℕ)) → IsTrue (is_honest slot)
        → t ≤ moment slot → may_leave slot image → left_since slot t image };

    /// What a crash might have left since the present moment is what it may leave now.
    ghost only_now: { (slot : Self) (image : Option (List ℕ)) → IsTrue (is_honest slot)
        → left_since slot (moment slot) image → may_leave slot image };

    /// The count of a steady slot isn't at its maximum: as it never rises, no call fails.
    ghost steady_below: { (slot : Self) → IsBelowLast (is_steady slot) (faults slot) };
}
