// An unlocked collection is stored under another key, which was derived outside the service.
ghost use Rattle.std.specs.Prelude.{◌≡◌, ◌≤◌, ℕ, IfNone, IfOk, IfSome, OnErr, Some, false, true};
ghost use Rattle.key_derivation.specs.Kdf.{Inputs, key_of, vector_of};
ghost use Rattle.keyring_file.specs.ClearText.{most_iterations};
ghost use Rattle.service_disk.specs.Rekeying.{can_rekey, can_rekey_row, row_rekeyed, rows_rekeyed};
ghost use Rattle.service_tables.specs.Disk.{contents_in, disk_state};
ghost use Rattle.service_tables.specs.Slots.{StoresAt, StoresIn};
ghost use Rattle.service_tables.specs.collection_store.specs.State.{Held};
ghost use Rattle.service_tables.specs.collection_table.specs.Entries.{row_of};
ghost use Rattle.service_tables.specs.collection_table.specs.Rows.{CollectionRow};
ghost use Rattle.service_tables.specs.declared.fate.StoreFate.TheVariants as StoreFates;

use key_derivation::Derived;
use kr_base::{OutOfMemory, Stem};
use kr_outside::{Folder, Slot};
use service_tables::collection_store::{ChangeRefused, Collection};
use service_tables::{Disk, Fate, StoreFate};
use std::alloc::AllocError;

// Stores a collection under another key, and returns how that ended. None if it is locked, or its file would be too
// large.
fn rekey_in<S: Slot>(
    collection: &mut Collection<S>,
    key: Derived,
    now: u64,
    room: u64,
) -> Result<Option<StoreFate>, OutOfMemory>
    requires { key.iterations ≤ most_iterations }
    ensures row { IfOk result (λ fate. IfSome fate (λ fate.
        row_of collection.new ≡ row_rekeyed key now fate (row_of collection.old))) }
    ensures slot { IfOk result (λ fate. IfSome fate (λ fate.
        StoresIn S.is_honest S.is_steady S.faults S.moment S.left_since S.may_leave
        (Fate.Store fate) collection.old.file collection.new.file
        collection.old.slot collection.new.slot)) }
    ensures fits { IfOk result (λ fate. IfSome fate (λ _.
        can_rekey_row key now room (row_of collection.old) ≡ true)) }

    // Nothing changes if the device wasn't asked.
    ensures measured { IfOk result (λ fate. IfNone fate
        (can_rekey_row key now room (row_of collection.old) ≡ false)) }
    ensures unasked { IfOk result (λ fate. IfNone fate (collection.new ≡ collection.old)) }
    ensures unchanged { OnErr result (collection.new ≡ collection.old) }
{
    if !collection.is_open() {
        return Ok(None);
    }
    match collection.rekey(key, now, room) {
        Ok(()) => Ok(Some(StoreFate::Stored)),
        Err(ChangeRefused::FaultBefore) => Ok(Some(StoreFate::Before)),
        Err(ChangeRefused::FaultUnsure) => Ok(Some(StoreFate::Unsure)),
        Err(ChangeRefused::TooLarge) => Ok(None),
        Err(ChangeRefused::OutOfMemory) => Err(AllocError),
        Err(ChangeRefused::Item(_)) => unreachable!(),
    }
}

/// Stores the collection of a stem under another key, and returns how that ended: it is unlocked under
/// this key if it was stored, locked and in doubt if that isn't known, and as before if nothing was
/// stored. None if there is no such collection, it is locked, or its file would be longer than 67,108,864
/// bytes, or all files together would have more than 268,435,456: then nothing changes. All memory is
/// taken before the first call of the device.
///
/// Refused with `OutOfMemory` alone: then nothing changes.
pub fn rekey<F: Folder>(
    disk: &mut Disk<F>,
    stem: &Stem,
    key: Derived,
    now: u64,
) -> Result<Option<StoreFate>, OutOfMemory>
    requires { key.iterations ≤ most_iterations }
    ensures stored { IfOk result (λ fate. IfSome fate (λ fate.
        contents_in disk.new ≡ record (contents_in disk.old) {
          collections = rows_rekeyed stem.now key now fate (contents_in disk.old).collections;
        })) }
    ensures disk { IfOk result (λ fate. IfSome fate (λ fate.
        StoresAt F.Cell.is_honest F.Cell.is_steady F.Cell.faults F.Cell.moment
        F.Cell.left_since F.Cell.may_leave stem.now (Fate.Store fate)
        (contents_in disk.old).collections (contents_in disk.new).collections
        (disk_state disk.old) (disk_state disk.new))) }
    ensures fits { IfOk result (λ fate. IfSome fate (λ _.
        can_rekey key now stem.now (contents_in disk.old).collections ≡ true)) }

    // Nothing changes if the device wasn't asked.
    ensures measured { IfOk result (λ fate. IfNone fate
        (can_rekey key now stem.now (contents_in disk.old).collections ≡ false)) }
    ensures unasked { IfOk result (λ fate. IfNone fate ((contents_in disk.new
        ≡ contents_in disk.old) × (disk_state disk.new ≡ disk_state disk.old))) }
    ensures unchanged { OnErr result ((contents_in disk.new ≡ contents_in disk.old)
        × (disk_state disk.new ≡ disk_state disk.old)) }
{
    let _ordered = disk.collections.entries();
    let room = disk.collections.room();
    let Some(collection) = disk.collections.get_mut(stem) else {
        return Ok(None);
    };
    rekey_in(collection, key, now, room)
}

/// A collection that was stored under another key has the items that it had, with their content types, and
/// is unlocked under that key, whatever it was unlocked under before.
pub fn a_new_key_keeps_the_items()
    ensures { (key : Inputs) (now : ℕ) (row : CollectionRow) (held : Held)
        → row.held ≡ Some held → (row_rekeyed key now StoreFates.Stored row).held
        ≡ Some (record { key = key_of key; vector = vector_of key; rows = held.rows }) }
{}
