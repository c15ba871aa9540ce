use crate::Collection;
use item_store::ItemFault;
use keyring_file::AreaFault;
use kr_outside::Slot;
use replace_slot::FileCell;

/// Why a collection wasn't unlocked.
#[derive(Clone, Copy, Drop, PartialEq, Eq)]
pub enum UnlockRefused {
    /// The decrypted area doesn't match its MD5: the password is wrong.
    WrongPassword,
    /// The MD5 is right, but the area is malformed.
    Damaged(AreaFault),
    /// No memory was left.
    OutOfMemory,
}

/// Why a collection wasn't changed.
#[derive(Drop, PartialEq, Eq)]
pub enum ChangeRefused {
    /// The items can't be changed this way.
    Item(ItemFault),
    /// The file would be longer than 67,108,864 bytes, or grow by more than `room`.
    TooLarge,
    /// The new file couldn't be written. Everything is as before.
    FaultBefore,
    /// The file may have been replaced or not. The collection is locked, and its file in doubt.
    FaultUnsure,
    /// No memory was left.
    OutOfMemory,
}

/// Why a collection wasn't made.
#[derive(Drop)]
pub enum CreateRefused<S: Slot> {
    /// The file would be longer than `room`, or longer than 67,108,864 bytes. The cell is as it was.
    TooLarge(FileCell<S>),
    /// The file couldn't be written. The cell has no file, as before.
    FaultBefore(FileCell<S>),
    /// The file may have been written or not. The collection is locked, and its file in doubt.
    FaultUnsure(Collection<S>),
    /// No memory was left. The cell is as it was.
    OutOfMemory(FileCell<S>),
}
