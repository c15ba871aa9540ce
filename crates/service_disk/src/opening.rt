// A locked collection is unlocked with a key that was derived outside the service.
ghost use Rattle.std.specs.Prelude.{◌≡◌, IfOk, OnErr, OnOk};
ghost use Rattle.service_tables.specs.collection_table.specs.Entries.{row_of};
ghost use Rattle.service_disk.specs.Opening.{opening_in, opening_of, row_opened, rows_opened};
ghost use Rattle.service_tables.specs.Disk.{contents_in, disk_state};

use key_derivation::Derived;
use kr_base::{OutOfMemory, Stem};
use kr_outside::{Folder, Slot};
use service_tables::Disk;
use service_tables::collection_store::{Collection, UnlockRefused};
use std::alloc::AllocError;

/// How an attempt to unlock a collection ended.
#[derive(Clone, Copy, PartialEq, Eq)]
pub enum Opening {
    /// There is no such collection, or it is unlocked already.
    Settled,
    /// Its file is in doubt, or the key was derived with another salt or other iterations.
    Unfit,
    /// The decrypted area doesn't match its MD5: the password is wrong.
    WrongPassword,
    /// The MD5 is right, but the area is malformed.
    Damaged,
    /// The collection is unlocked.
    Opened,
}

// Unlocks a collection that is locked, if the key opens its file.
fn unlock_in<S: Slot>(collection: &mut Collection<S>, key: Derived) -> Result<Opening, OutOfMemory>
    ensures opening { IfOk result (λ opening.
        opening ≡ opening_in key (row_of collection.old)) }
    ensures row { OnOk result (row_of collection.new ≡ row_opened key (row_of collection.old)) }
    ensures slot { collection.new.slot ≡ collection.old.slot }
    ensures unchanged { OnErr result (collection.new ≡ collection.old) }
{
    if collection.is_open() {
        return Ok(Opening::Settled);
    }
    if !collection.fits(&key) {
        return Ok(Opening::Unfit);
    }
    match collection.unlock(key) {
        Ok(()) => Ok(Opening::Opened),
        Err(UnlockRefused::WrongPassword) => Ok(Opening::WrongPassword),
        Err(UnlockRefused::Damaged(_)) => Ok(Opening::Damaged),
        Err(UnlockRefused::OutOfMemory) => Err(AllocError),
    }
}

/// Unlocks the collection of a stem, if the key opens its file, and returns how that ended (GNOME keyring
/// file format). No call of a device is made. Refused with `OutOfMemory` alone: then nothing changes.
pub fn unlock<F: Folder>(
    disk: &mut Disk<F>,
    stem: &Stem,
    key: Derived,
) -> Result<Opening, OutOfMemory>
    ensures opening { IfOk result (λ opening.
        opening ≡ opening_of key stem.now (contents_in disk.old).collections) }
    ensures opened { OnOk result (contents_in disk.new ≡ record (contents_in disk.old) {
      collections = rows_opened key stem.now (contents_in disk.old).collections;
    }) }
    ensures disk { disk_state disk.new ≡ disk_state disk.old }
    ensures unchanged { OnErr result (contents_in disk.new ≡ contents_in disk.old) }
{
    let _ordered = disk.collections.entries();
    let Some(collection) = disk.collections.get_mut(stem) else {
        return Ok(Opening::Settled);
    };
    unlock_in(collection, key)
}
