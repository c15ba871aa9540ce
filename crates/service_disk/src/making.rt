// A collection is made under a stem that isn't used.
ghost use Rattle.std.specs.Prelude.{◌≡◌, ◌+◌, ◌<◌, ◌≤◌, ℕ, false, true, Contains, IfOk, OnErr, OnOk, length, min, nat_le, string_bytes, vec_capacity, vec_len};
ghost use Rattle.folder_store.specs.Names.{IsRingName};
ghost use Rattle.key_derivation.specs.Kdf.{Inputs};
ghost use Rattle.keyring_file.specs.ClearText.{most_iterations};
ghost use Rattle.service_tables.specs.collection_table.specs.Rows.{has};
ghost use Rattle.service_tables.specs.keyring_seal.specs.Whole.{most_bytes};
ghost use Rattle.service_disk.specs.Making.{AreFree, KeepsSlot, MakesAt, has_room, rows_made};
ghost use Rattle.stem_choice.specs.UsedStems.{with_stem};
ghost use Rattle.service_tables.specs.Disk.{contents_in, disk_state};

use crate::taking::{keep, keep_used, list, take_cell};
use key_derivation::Derived;
use keyring_file::FILE_LIMIT;
use kr_base::{OutOfMemory, Stem, Text};
use kr_outside::Folder;
use service_tables::collection_store::{Collection, CreateRefused};
use service_tables::{Disk, StoreFate};
use std::alloc::{AllocError, Global};

/// The bytes of the file of a collection without items, beside its label.
const EMPTY_FILE: usize = 100;

// Whether a file with so many bytes more than one without a label keeps within the limit of one file, and
// within the room that is left in all files.
fn is_within(bytes: usize, room: u64) -> bool
    ensures { result ≡ nat_le (100 + bytes) (min most_bytes room) }
{
    let most = room.min(FILE_LIMIT as u64);
    (bytes.saturating_add(EMPTY_FILE) as u64) <= most
}

/// Whether the file of a new collection with this label keeps within the limits of one file and of all
/// files together. It takes no memory.
pub fn has_room<F: Folder>(disk: &Disk<F>, label: &Text) -> bool
    ensures { (key : Inputs) (now : ℕ) → length key.salt ≡ 8
        → result ≡ has_room (record { label = label.now; key = key; now = now })
        (contents_in disk.now).collections }
{
    is_within(label.len(), disk.collections.room())
}

/// The name of the file of a stem.
#[tactic(auto, unfolding(folder_store::specs::Names::ending))]
fn file_name(alloc: Global, stem: &Stem) -> Result<String, OutOfMemory>
    ensures { IfOk result (λ name. IsRingName (string_bytes name) stem.now) }
{
    let mut name = String::from_str(alloc, stem.as_str())?;
    name.push_str(".keyring")?;
    Ok(name)
}

// Makes room for a new collection of a stem, for its slot and for the stem among those that are used. Returns the
// name of its file, and a copy of the stem.
fn prepare<F: Folder>(
    alloc: Global,
    disk: &mut Disk<F>,
    stem: &Stem,
) -> Result<(String, Stem), OutOfMemory>
    ensures name { IfOk result (λ made. IsRingName (string_bytes made.0) stem.now) }
    ensures copy { IfOk result (λ made. made.1 ≡ stem.now) }
    ensures collections { OnOk result (0 < disk.new.collections.room) }
    ensures used { OnOk result (0 < disk.new.used.room) }
    ensures spare { OnOk result (vec_len disk.new.spare < vec_capacity disk.new.spare) }
    ensures contents { contents_in disk.new ≡ contents_in disk.old }
    ensures disk { disk_state disk.new ≡ disk_state disk.old }
{
    let name = file_name(alloc, stem)?;
    let copy = stem.copy()?;
    disk.reserve_spare()?;
    disk.collections.reserve()?;
    disk.used.reserve()?;
    Ok((name, copy))
}

/// Makes a collection without items under a stem that isn't used, stores it, and returns how that ended:
/// it is there and unlocked if it was stored, there and locked if that isn't known, and not there if
/// nothing was stored. The stem is used from then on, and the disk keeps its slot. All memory is taken
/// before the first call of the device.
///
/// Refused with `OutOfMemory` alone: then no call of the device was made, and if a slot was made already,
/// the next making under this stem takes it.
pub fn make<F: Folder>(
    alloc: Global,
    disk: &mut Disk<F>,
    stem: Stem,
    label: Text,
    key: Derived,
    now: u64,
) -> Result<StoreFate, OutOfMemory>
    requires unused { ¬ (Contains (disk_state disk.old).used stem) }
    requires unlisted { has stem (contents_in disk.old).collections ≡ false }
    requires free { AreFree F.is_honest F.images F.may_leave F.made F.Cell.is_honest
        F.Cell.may_leave (disk_state disk.old) }
    requires iterations { key.iterations ≤ most_iterations }
    requires room { has_room (record { label = label; key = key; now = now })
        (contents_in disk.old).collections ≡ true }
    ensures made { IfOk result (λ fate. contents_in disk.new ≡ record (contents_in disk.old) {
      collections = rows_made stem (record { label = label; key = key; now = now }) fate
          (contents_in disk.old).collections;
      used = with_stem stem (contents_in disk.old).used;
    }) }
    ensures disk { IfOk result (λ fate. MakesAt F.is_honest F.is_steady F.faults F.images
        F.may_leave F.made F.Cell.is_honest F.Cell.is_steady F.Cell.faults F.Cell.moment
        F.Cell.left_since F.Cell.may_leave stem fate
        (contents_in disk.old).collections (contents_in disk.new).collections
        (disk_state disk.old) (disk_state disk.new)) }
    ensures free { AreFree F.is_honest F.images F.may_leave F.made F.Cell.is_honest
        F.Cell.may_leave (disk_state disk.new) }

    // After a refusal the collections are as before, and the disk too, except for a slot that it keeps.
    ensures unchanged { OnErr result (contents_in disk.new ≡ contents_in disk.old) }
    ensures kept { OnErr result (KeepsSlot F.is_honest F.is_steady F.faults F.images F.may_leave
        F.made F.Cell.is_honest F.Cell.is_steady F.Cell.faults F.Cell.left_since stem
        (disk_state disk.old) (disk_state disk.new)) }
{
    let (name, copy) = prepare(alloc, disk, &stem)?;
    let room = disk.collections.room();
    let cell = take_cell(disk, &stem, name.as_str())?;
    match Collection::create(alloc, cell, label, key, now, room) {
        Ok(collection) => {
            collection.untouched();
            list(disk, stem, copy, collection);
            Ok(StoreFate::Stored)
        }
        Err(CreateRefused::FaultUnsure(collection)) => {
            list(disk, stem, copy, collection);
            Ok(StoreFate::Unsure)
        }
        Err(CreateRefused::FaultBefore(cell)) => {
            keep_used(disk, stem, copy, cell);
            Ok(StoreFate::Before)
        }
        Err(CreateRefused::OutOfMemory(cell)) => {
            keep(disk, stem, cell);
            Err(AllocError)
        }
        Err(CreateRefused::TooLarge(_)) => unreachable!(),
    }
}
