// Settling, measuring and reading one file.
ghost use Rattle.std.specs.Prelude.{◌≡◌, ◌⊎◌, ◌∷◌, ℕ, List, Option, Contains, IsTrue, None, Some, IfOk, OnOk, OnErr, IsErr, IsErrOf};
ghost use Rattle.kr_outside.specs.Folder.{Stays};
ghost use Rattle.kr_outside.specs.Moments.{LeavesOnly};
ghost use Rattle.kr_outside.specs.RenameDisk.{Only, LeavesAnyBytes, size_of};
ghost use Rattle.kr_outside.specs.Slot.{KeepsNature, OnlyLooks};
ghost use Rattle.folder_store.specs.Names.{IsLoadName};
ghost use Rattle.folder_store.specs.Ring.{HasFailedSlot, IsAsFound, IsLook, HandsBack, MakesOneAtMost, NoneFailed, ReturnsAll};
ghost use Rattle.folder_store.specs.Walk.{Looks, ReadsWithin, image_of};

use crate::opening::Opening;
use crate::refused::LoadRefused;
use kr_outside::{Failed, Folder, Seen, Slot};
use std::alloc::Global;

/// Puts on the disk what the name stands for, and returns the number of bytes of the file, or None if
/// there is no file.
pub fn settled_size<S: Slot>(slot: &mut S) -> Result<Option<u64>, Failed>
    ensures answer { IsTrue (S.is_honest slot.old)
        → IfOk result (λ size. size ≡ size_of (S.seen slot.new)) }
    ensures settled { IsTrue (S.is_honest slot.old)
        → OnOk result (LeavesAnyBytes (S.may_leave slot.old)
        ⊎ Only (S.seen slot.new) (S.may_leave slot.new)) }

    ensures look { OnlyLooks S.seen S.temporary S.may_leave S.is_honest slot.old slot.new }
    ensures any_moment { IsTrue (S.is_honest slot.old)
        → LeavesOnly S.moment S.left_since slot.old slot.new (S.may_leave slot.old) }
    ensures kept { KeepsNature S.is_honest S.is_steady S.faults (IsErr result) slot.old slot.new }
    ensures call { IsErr result → IsLook (S.failed slot.new) }
    ensures fine { OnOk result (S.failed slot.new ≡ None) }
{
    slot.sync_folder()?;
    slot.size()
}

/// Reads a file of `size` bytes into one buffer of that size; None if the slot shows no file or a
/// longer one, which an honest slot never does.
pub fn read_sized<S: Slot>(
    alloc: Global,
    slot: &mut S,
    size: u64,
) -> Result<Option<Vec<u8>>, LoadRefused>
    requires { IsTrue (S.is_honest slot.old) → size_of (S.seen slot.old) ≡ Some size }
    ensures read { IsTrue (S.is_honest slot.old)
        → IfOk result (λ found. image_of found ≡ S.seen slot.new) }

    ensures look { OnlyLooks S.seen S.temporary S.may_leave S.is_honest slot.old slot.new }
    ensures any_moment { IsTrue (S.is_honest slot.old)
        → LeavesOnly S.moment S.left_since slot.old slot.new (S.may_leave slot.old) }
    ensures kept { KeepsNature S.is_honest S.is_steady S.faults (IsErrOf result LoadRefused.Folder)
        slot.old slot.new }
    ensures call { IsErrOf result LoadRefused.Folder → IsLook (S.failed slot.new) }
    ensures fine { S.failed slot.old ≡ None → ¬ (IsErrOf result LoadRefused.Folder)
        → S.failed slot.new ≡ None }
{
    let mut bytes = Vec::new(alloc);
    bytes.resize(size as usize, 0)?;
    match slot.read(&mut bytes) {
        Ok(Seen::Whole(count)) => {
            bytes.truncate(count);
            Ok(Some(bytes))
        }
        Ok(Seen::Missing | Seen::Longer) => Ok(None),
        Err(_) => Err(LoadRefused::Folder),
    }
}

/// What a look at a file showed.
#[derive(Drop)]
pub enum Look {
    /// The file's bytes; None if there is no file.
    Whole(Option<Vec<u8>>),
    /// A file with more bytes than allowed; it wasn't read.
    Longer,
}

impl Look {
    /// The bytes of the file; None if there is no file, or a longer one.
    pub fn into_bytes(self) -> Option<Vec<u8>>
        ensures { (most : ℕ) (seen : Option (List ℕ)) → Looks most seen self
            → ReadsWithin most seen result }
    {
        match self {
            Look::Whole(bytes) => bytes,
            Look::Longer => None,
        }
    }
}

/// Settles a file, and reads it if it has at most `most` bytes.
pub fn read_settled<S: Slot>(alloc: Global, slot: &mut S, most: usize) -> Result<Look, LoadRefused>
    ensures read { IsTrue (S.is_honest slot.old)
        → IfOk result (Looks most (S.seen slot.new)) }
    ensures settled { IsTrue (S.is_honest slot.old)
        → OnOk result (LeavesAnyBytes (S.may_leave slot.old)
        ⊎ Only (S.seen slot.new) (S.may_leave slot.new)) }

    ensures look { OnlyLooks S.seen S.temporary S.may_leave S.is_honest slot.old slot.new }
    ensures any_moment { IsTrue (S.is_honest slot.old)
        → LeavesOnly S.moment S.left_since slot.old slot.new (S.may_leave slot.old) }
    ensures kept { KeepsNature S.is_honest S.is_steady S.faults (IsErrOf result LoadRefused.Folder)
        slot.old slot.new }
    ensures call { IsErrOf result LoadRefused.Folder → IsLook (S.failed slot.new) }
    ensures fine { ¬ (IsErrOf result LoadRefused.Folder) → S.failed slot.new ≡ None }
{
    match settled_size(slot) {
        Ok(Some(size)) => {
            if size > most as u64 {
                return Ok(Look::Longer);
            }
            let bytes = read_sized(alloc, slot, size)?;
            Ok(Look::Whole(bytes))
        }
        Ok(None) => Ok(Look::Whole(None)),
        Err(_) => Err(LoadRefused::Folder),
    }
}

/// Makes the slot of a name, settles its file, and reads it if it has at most `most` bytes. After a refusal the
/// slot is in `opening`, if it was made.
pub fn look_at<F: Folder>(
    alloc: Global,
    folder: &mut F,
    name: &str,
    most: usize,
    opening: &mut Opening<F::Cell>,
) -> Result<(F::Cell, Look), LoadRefused>
    requires settled { IsTrue (F.is_honest folder.old) → ¬ (Contains (F.made folder.old) name.now)
        × Only (F.images folder.old name.now) (F.may_leave folder.old name.now) }
    ensures looked { IsTrue (F.is_honest folder.old) → IfOk result (λ found.
        Looks most (F.images folder.old name.now) found.1) }
    ensures found { (image : Option (List ℕ)) → (IsTrue (F.is_honest folder.old)
        → image ≡ F.images folder.old name.now) → IfOk result (λ found.
        IsAsFound F.Cell.seen F.Cell.temporary F.Cell.may_leave F.Cell.left_since
        F.Cell.is_honest F.Cell.is_steady (F.is_honest folder.old) (F.is_steady folder.old)
        image found.0) }
    ensures made { OnOk result (F.made folder.new ≡ name.now ∷ F.made folder.old) }
    ensures opening { OnOk result (opening.new ≡ opening.old) }

    ensures returned { (images : List ℕ → Option (List ℕ)) → (IsTrue (F.is_honest folder.old)
        → images name.now ≡ F.images folder.old name.now) → IsLoadName name.now
        → HandsBack (IsAsFound F.Cell.seen F.Cell.temporary
        F.Cell.may_leave F.Cell.left_since F.Cell.is_honest F.Cell.is_steady
        (F.is_honest folder.old) (F.is_steady folder.old))
        images (F.made folder.old) opening.old.rings opening.old.left
        → opening.old.last ≡ None → OnErr result (ReturnsAll (IsAsFound
        F.Cell.seen F.Cell.temporary F.Cell.may_leave F.Cell.left_since
        F.Cell.is_honest F.Cell.is_steady
        (F.is_honest folder.old) (F.is_steady folder.old))
        images (F.made folder.new) opening.new.rings opening.new.left opening.new.last) }
    ensures one { MakesOneAtMost name.now (F.made folder.old) (F.made folder.new) }
    ensures stays { IsTrue (F.is_honest folder.old)
        → Stays F.images F.may_leave (F.made folder.new) folder.old folder.new }

    ensures honest { F.is_honest folder.new ≡ F.is_honest folder.old }
    ensures count { F.faults folder.new ≡ F.faults folder.old }
    ensures steady { F.is_steady folder.new ≡ F.is_steady folder.old }
    ensures cause { (images : List ℕ → Option (List ℕ)) → (IsTrue (F.is_honest folder.old)
        → images name.now ≡ F.images folder.old name.now) → IsErrOf result LoadRefused.Folder
        → HasFailedSlot (IsAsFound F.Cell.seen F.Cell.temporary
        F.Cell.may_leave F.Cell.left_since F.Cell.is_honest F.Cell.is_steady
        (F.is_honest folder.old) (F.is_steady folder.old))
        images (F.made folder.new) F.Cell.faults F.Cell.failed
        (F.is_steady folder.old) }
    ensures fine { IfOk result (λ found. F.Cell.failed found.0 ≡ None) }
    ensures fault { NoneFailed F.Cell.failed opening.old.rings opening.old.left opening.old.last
        → ¬ (IsErrOf result LoadRefused.Folder)
        → NoneFailed F.Cell.failed opening.new.rings opening.new.left opening.new.last }
{
    let mut slot = folder.slot(name)?;
    match read_settled(alloc, &mut slot, most) {
        Ok(look) => Ok((slot, look)),
        Err(refused) => Err(opening.stop(slot, refused)),
    }
}
