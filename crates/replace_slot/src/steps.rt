ghost use Rattle.std.specs.Prelude.{◌≡◌, ℕ, ◌+◌, ◌≤◌, ◌⊎◌, IsTrue, List, Option, None, Some, length, IfOk, OnOk, IsErr};
ghost use Rattle.kr_outside.specs.Moments.{LeavesOnly};
ghost use Rattle.replace_slot.specs.Cell.{FailedBefore, FailedAfter, FailedRead};
ghost use Rattle.kr_outside.specs.RenameDisk.{Synced, GivesTemporary, Only, LeavesAnyBytes, LeavesNoMore, FitsIn, Reads};
ghost use Rattle.kr_outside.specs.Slot.{KeepsNature, OnlyLooks};

use kr_outside::{DeviceCall, Failed, Seen, Slot};

/// Writes the bytes into the temporary file, and syncs it.
pub fn prepare<S: Slot>(slot: &mut S, bytes: &[u8]) -> Result<(), Failed>
    ensures staged { IsTrue (S.is_honest slot.old)
        → OnOk result (S.temporary slot.new ≡ Synced bytes.now) }

    // What the name stands for doesn't change, at any moment.
    ensures crash { IsTrue (S.is_honest slot.old)
        → LeavesNoMore (S.may_leave slot.old) (S.may_leave slot.new) }
    ensures any_moment { IsTrue (S.is_honest slot.old)
        → LeavesOnly S.moment S.left_since slot.old slot.new (S.may_leave slot.old) }
    ensures rises { IsTrue (S.is_honest slot.old)
        → OnOk result (S.moment slot.old + 2 ≤ S.moment slot.new) }

    ensures kept { KeepsNature S.is_honest S.is_steady S.faults (IsErr result) slot.old slot.new }
    ensures call { IsErr result → FailedBefore (S.failed slot.new) }
{
    slot.put_temp(bytes)?;
    slot.sync_temp()
}

/// Makes the name stand for the temporary file, so that no crash undoes it.
pub fn publish<S: Slot>(slot: &mut S) -> Result<(), Failed>
    ensures stored { (old : Option (List ℕ)) (bytes : List ℕ) → IsTrue (S.is_honest slot.old)
        → Only old (S.may_leave slot.old) → S.temporary slot.old ≡ Synced bytes
        → OnOk result (Only (Some bytes) (S.may_leave slot.new)) }

    // At each moment a crash leaves the old image or the temporary file.
    ensures any_moment { (old : Option (List ℕ)) (bytes : List ℕ) → IsTrue (S.is_honest slot.old)
        → Only old (S.may_leave slot.old) → S.temporary slot.old ≡ Synced bytes
        → LeavesOnly S.moment S.left_since slot.old slot.new
        (λ left. (left ≡ old) ⊎ (left ≡ Some bytes)) }
    ensures crash { (old : Option (List ℕ)) (bytes : List ℕ) → IsTrue (S.is_honest slot.old)
        → Only old (S.may_leave slot.old) → S.temporary slot.old ≡ Synced bytes
        → (left : Option (List ℕ)) → S.may_leave slot.new left
        → (left ≡ old) ⊎ (left ≡ Some bytes) }

    ensures kept { KeepsNature S.is_honest S.is_steady S.faults (IsErr result) slot.old slot.new }
    ensures call { IsErr result → FailedAfter DeviceCall.Rename (IsTrue (S.is_honest slot.old)
        → GivesTemporary (S.temporary slot.old) (S.seen slot.new)) (S.failed slot.new) }
{
    slot.rename()?;
    slot.sync_folder()
}

/// Makes the name stand for no file, so that no crash undoes it.
pub fn retire<S: Slot>(slot: &mut S) -> Result<(), Failed>
    ensures removed { (old : Option (List ℕ)) → IsTrue (S.is_honest slot.old)
        → Only old (S.may_leave slot.old) → OnOk result (Only None (S.may_leave slot.new)) }

    // At each moment a crash leaves the old image or no file.
    ensures any_moment { (old : Option (List ℕ)) → IsTrue (S.is_honest slot.old)
        → Only old (S.may_leave slot.old)
        → LeavesOnly S.moment S.left_since slot.old slot.new
        (λ left. (left ≡ old) ⊎ (left ≡ None)) }
    ensures crash { (old : Option (List ℕ)) → IsTrue (S.is_honest slot.old)
        → Only old (S.may_leave slot.old) → (left : Option (List ℕ)) → S.may_leave slot.new left
        → (left ≡ old) ⊎ (left ≡ None) }

    ensures kept { KeepsNature S.is_honest S.is_steady S.faults (IsErr result) slot.old slot.new }
    ensures call { IsErr result → FailedAfter DeviceCall.Remove (IsTrue (S.is_honest slot.old)
        → S.seen slot.new ≡ None) (S.failed slot.new) }
    ensures rises { IsTrue (S.is_honest slot.old) → IsErr result
        → S.failed slot.new ≡ Some DeviceCall.SyncFolder
        → S.moment slot.old + 1 ≤ S.moment slot.new }
{
    slot.remove()?;
    slot.sync_folder()
}

/// Puts on the disk what the name stands for, and reads it.
pub fn settle<S: Slot>(slot: &mut S, buffer: &mut [u8]) -> Result<Seen, Failed>
    ensures fits { IfOk result (FitsIn (length buffer.new)) }
    ensures answer { IsTrue (S.is_honest slot.old)
        → IfOk result (Reads (S.seen slot.new) buffer.new) }
    ensures told { IfOk result (λ seen. S.answered slot.new ≡ Some seen) }
    ensures settled { IsTrue (S.is_honest slot.old)
        → OnOk result (LeavesAnyBytes (S.may_leave slot.old)
        ⊎ Only (S.seen slot.new) (S.may_leave slot.new)) }

    // At each moment a crash leaves only what it might have left before.
    ensures look { OnlyLooks S.seen S.temporary S.may_leave S.is_honest slot.old slot.new }
    ensures any_moment { IsTrue (S.is_honest slot.old)
        → LeavesOnly S.moment S.left_since slot.old slot.new (S.may_leave slot.old) }

    ensures kept { KeepsNature S.is_honest S.is_steady S.faults (IsErr result) slot.old slot.new }
    ensures call { IsErr result → FailedRead (S.failed slot.new) }
{
    slot.sync_folder()?;
    slot.read(buffer)
}
