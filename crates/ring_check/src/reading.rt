// Looking at one file of a folder.
ghost use Rattle.std.specs.Prelude.{◌≡◌, Contains, IsTrue, Some, IfOk, OnOk, IsErrOf, List, ℕ};
ghost use Rattle.kr_outside.specs.Folder.{Stays};
ghost use Rattle.kr_outside.specs.RenameDisk.{size_of};
ghost use Rattle.kr_outside.specs.Slot.{KeepsNature, OnlyLooks};
ghost use Rattle.ring_check.specs.Looks.{Shows, HasFailed, IsUntouched, LooksOnce};

use crate::ending::Stop;
use keyring_file::FILE_LIMIT;
use kr_base::{Bytes, Text};
use kr_outside::{Folder, Seen, Slot};
use std::alloc::Global;

/// What a look at a file found.
#[derive(Drop)]
pub enum Found {
    /// A file with these bytes.
    Whole(Bytes),
    /// A file of more than 67,108,864 bytes; it wasn't read.
    TooLarge,
}

/// A slot that was looked at, and its name.
#[derive(Drop)]
pub struct Looked<S: Slot> {
    /// The name.
    pub name: Text,
    /// The slot.
    pub slot: S,
}

/// Reads a file of `size` bytes into one buffer of that size. None if the slot shows no file.
fn read_sized<S: Slot>(alloc: Global, slot: &mut S, size: u64) -> Result<Option<Found>, Stop>
    requires { IsTrue (S.is_honest slot.old) → size_of (S.seen slot.old) ≡ Some size }
    ensures found { IsTrue (S.is_honest slot.old) → IfOk result (Shows (S.seen slot.old)) }
    ensures look { OnlyLooks S.seen S.temporary S.may_leave S.is_honest slot.old slot.new }
    ensures kept { KeepsNature S.is_honest S.is_steady S.faults (IsErrOf result Stop.Folder)
        slot.old slot.new }
    ensures no_write { ¬ (IsErrOf result Stop.Write) }
{
    let mut bytes = Vec::new(alloc);
    bytes.resize(size as usize, 0)?;
    match slot.read(&mut bytes) {
        Ok(Seen::Whole(count)) => {
            bytes.truncate(count);
            Ok(Some(Found::Whole(Bytes::new(bytes))))
        }
        Ok(Seen::Missing) => Ok(None),
        Ok(Seen::Longer) => Ok(Some(Found::TooLarge)),
        Err(_) => Err(Stop::Folder),
    }
}

/// Measures a file, and reads it unless it is too large. None if there is no file.
fn read_file<S: Slot>(alloc: Global, slot: &mut S) -> Result<Option<Found>, Stop>
    ensures found { IsTrue (S.is_honest slot.old) → IfOk result (Shows (S.seen slot.old)) }
    ensures look { OnlyLooks S.seen S.temporary S.may_leave S.is_honest slot.old slot.new }
    ensures kept { KeepsNature S.is_honest S.is_steady S.faults (IsErrOf result Stop.Folder)
        slot.old slot.new }
    ensures no_write { ¬ (IsErrOf result Stop.Write) }
{
    match slot.size() {
        Ok(Some(size)) => {
            if size > FILE_LIMIT as u64 {
                return Ok(Some(Found::TooLarge));
            }
            read_sized(alloc, slot, size)
        }
        Ok(None) => Ok(None),
        Err(_) => Err(Stop::Folder),
    }
}

/// Makes the slot of a name and looks at its file. The slot is kept in `looked`.
pub fn look_at<F: Folder>(
    alloc: Global,
    folder: &mut F,
    name: &Text,
    looked: &mut Vec<Looked<F::Cell>>,
) -> Result<Option<Found>, Stop>
    requires fresh { IsTrue (F.is_honest folder.old) → ¬ (Contains (F.made folder.old) name.now) }
    ensures found { IsTrue (F.is_honest folder.old)
        → IfOk result (Shows (F.images folder.old name.now)) }
    ensures looks { LooksOnce name.now (IsUntouched F.Cell.seen F.Cell.temporary F.Cell.may_leave
        F.Cell.is_honest F.Cell.is_steady (F.is_honest folder.old) (F.is_steady folder.old)
        (F.images folder.old name.now) (F.may_leave folder.old name.now))
        (F.made folder.old) looked.old.items (F.made folder.new) looked.new.items }
    ensures stays { IsTrue (F.is_honest folder.old)
        → Stays F.images F.may_leave (F.made folder.new) folder.old folder.new }
    ensures honest { F.is_honest folder.new ≡ F.is_honest folder.old }
    ensures count { F.faults folder.new ≡ F.faults folder.old }
    ensures steady { F.is_steady folder.new ≡ F.is_steady folder.old }
    ensures cause { IsErrOf result Stop.Folder → HasFailed F.Cell.faults looked.new.items
        × ¬ (IsTrue (F.is_steady folder.old)) }
    ensures no_write { ¬ (IsErrOf result Stop.Write) }
{
    looked.reserve(1)?;
    let label = name.copy()?;
    let mut slot = folder.slot(name.as_str())?;
    let found = read_file(alloc, &mut slot);
    looked.push(Looked { name: label, slot }).unwrap();
    found
}
