// The file of a collection in doubt is read again.
ghost use Rattle.std.specs.Prelude.{◌≡◌, ◌<◌, true, IfOk, OnOk, length, vec_capacity, vec_len};
ghost use Rattle.std.specs.Option.{is_some};
ghost use Rattle.service_tables.specs.collection_table.specs.Entries.{row_of};
ghost use Rattle.replace_slot.specs.Cell.{IsKnown, longest_of, old_image};
ghost use Rattle.service_disk.specs.Resolving.{fate_in, is_doubtful, is_left, row_resolved, rows_resolved, stays};
ghost use Rattle.service_tables.specs.Disk.{contents_in, disk_state};
ghost use Rattle.service_tables.specs.Slots.{StoresAt, StoresIn, file_at};

use kr_base::{OutOfMemory, Stem};
use kr_outside::{Folder, Slot};
use replace_slot::Found;
use service_tables::collection_store::Collection;
use service_tables::{Disk, Fate, ReadFate};
use std::alloc::{AllocError, Global};

/// Whether there is a collection of the stem, and two images of its file are known, of which it has
/// one. It takes no memory.
pub fn is_doubtful<F: Folder>(disk: &Disk<F>, stem: &Stem) -> bool
    ensures { result ≡ is_doubtful stem.now (contents_in disk.now).collections }
{
    match disk.collections.get(stem) {
        Some(collection) => !collection.is_known(),
        None => false,
    }
}

// A buffer that is longer than each image of a collection's file.
fn buffer_in<S: Slot>(alloc: Global, collection: &Collection<S>) -> Result<Vec<u8>, OutOfMemory>
    ensures { IfOk result (λ buffer. longest_of collection.now.file < length buffer.items) }
{
    let Some(room) = collection.longest().checked_add(1) else {
        return Err(AllocError);
    };
    let mut buffer = Vec::new(alloc);
    buffer.resize(room, 0)?;
    Ok(buffer)
}

// The same for the collection of a stem, which is there.
fn buffer_for<F: Folder>(alloc: Global, disk: &Disk<F>, stem: &Stem) -> Result<Vec<u8>, OutOfMemory>
    requires { is_doubtful stem.now (contents_in disk.now).collections ≡ true }
    ensures { IfOk result (λ buffer. longest_of (file_at stem.now
        (contents_in disk.now).collections) < length buffer.items) }
{
    match disk.collections.get(stem) {
        Some(collection) => buffer_in(alloc, collection),
        None => unreachable!(),
    }
}

/// Prepares a resolve of the file of a stem, which is in doubt: the buffer that the file is read into is
/// made, and there is room for the slot of the collection if it goes. Refused with `OutOfMemory` alone.
pub fn prepare_resolve<F: Folder>(
    alloc: Global,
    disk: &mut Disk<F>,
    stem: &Stem,
) -> Result<Vec<u8>, OutOfMemory>
    requires { is_doubtful stem.now (contents_in disk.old).collections ≡ true }
    ensures buffer { IfOk result (λ buffer. longest_of (file_at stem.now
        (contents_in disk.old).collections) < length buffer.items) }
    ensures room { OnOk result (vec_len disk.new.spare < vec_capacity disk.new.spare) }
    ensures contents { contents_in disk.new ≡ contents_in disk.old }
    ensures disk { disk_state disk.new ≡ disk_state disk.old }
{
    let buffer = buffer_for(alloc, disk, stem)?;
    disk.reserve_spare()?;
    Ok(buffer)
}

// Whether a locked collection, whose file is known, has one.
fn has_file<S: Slot>(collection: &Collection<S>) -> bool
    requires { IsKnown collection.now.file }
    ensures { result ≡ is_some (old_image collection.now.file) }
{
    // Shows that a file begins with the clear part that is shown, so that it isn't empty.
    let _shown = collection.is_open();
    collection.longest() > 0
}

/// How a resolve of one collection's file ended.
#[derive(Clone, Copy)]
pub enum Reread {
    /// The collection is still there.
    Stays(ReadFate),
    /// It has no file, or neither of its two images, so it goes.
    Goes(ReadFate),
}

// The way in which a resolve ended, with whether the collection is still there.
fn ended(fate: ReadFate, left: bool) -> Reread
    ensures fate { fate_in result ≡ fate }
    ensures left { is_left result ≡ left }
{
    if left {
        Reread::Stays(fate)
    } else {
        Reread::Goes(fate)
    }
}

// Reads the file of a collection in doubt again.
fn resolve_in<S: Slot>(collection: &mut Collection<S>, buffer: &mut [u8]) -> Reread
    requires doubt { ¬ (IsKnown collection.old.file) }
    requires room { longest_of collection.old.file < length buffer.old }
    ensures row { row_of collection.new ≡ row_resolved (fate_in result) (row_of collection.old) }
    ensures stays { is_left result ≡ stays (fate_in result) collection.old.file }
    ensures slot { StoresIn S.is_honest S.is_steady S.faults S.moment S.left_since S.may_leave
        (Fate.Read (fate_in result)) collection.old.file collection.new.file
        collection.old.slot collection.new.slot }
{
    match collection.resolve(buffer) {
        Ok(Found::Old) => ended(ReadFate::Old, has_file(collection)),
        Ok(Found::New) => ended(ReadFate::New, has_file(collection)),
        Ok(Found::Other) => Reread::Goes(ReadFate::Other),
        Err(_) => Reread::Stays(ReadFate::ReadFailed),
    }
}

/// Reads the file of a stem again, which is in doubt, and returns how that ended. The collection goes if it
/// is found to have no file, or neither of its two images; the disk keeps its slot then. The buffer and the
/// room for that slot are those of `prepare_resolve`. It takes no memory.
pub fn resolve<F: Folder>(disk: &mut Disk<F>, stem: Stem, buffer: &mut [u8]) -> ReadFate
    requires doubt { is_doubtful stem (contents_in disk.old).collections ≡ true }
    requires buffer { longest_of (file_at stem (contents_in disk.old).collections)
        < length buffer.old }
    requires room { vec_len disk.old.spare < vec_capacity disk.old.spare }
    ensures resolved { contents_in disk.new ≡ record (contents_in disk.old) {
      collections = rows_resolved stem result (contents_in disk.old).collections;
    } }
    ensures disk { StoresAt F.Cell.is_honest F.Cell.is_steady F.Cell.faults F.Cell.moment
        F.Cell.left_since F.Cell.may_leave stem (Fate.Read result)
        (contents_in disk.old).collections (contents_in disk.new).collections
        (disk_state disk.old) (disk_state disk.new) }
{
    let _ordered = disk.collections.entries();
    let Some(collection) = disk.collections.get_mut(&stem) else {
        unreachable!();
    };
    match resolve_in(collection, buffer) {
        Reread::Stays(fate) => fate,
        Reread::Goes(fate) => {
            disk.put_aside(stem);
            fate
        }
    }
}
