// Changes of collections, and of their files.
ghost use Rattle.std.specs.Prelude.{◌≡◌, ◌<◌, ℕ, IfSome, IfNone, ◌∷◌, true, IfOk, OnOk, OnErr, IsOk, IsSome, IsTrue, Some, None, Err, vec_capacity, vec_len};
ghost use Rattle.collection_store.specs.Changes.{content_changed};
ghost use Rattle.collection_store.specs.Storable.{answer_of, storable};
ghost use Rattle.collection_store.specs.declared.refused.ChangeRefused.TheVariants as ChangeRefused;
ghost use Rattle.collection_table.specs.Entries.{row_of, without};
ghost use Rattle.kr_base.specs.Attributes.{value_at};
ghost use Rattle.kr_outside.specs.RenameDisk.{Only};
ghost use Rattle.collection_table.specs.Rows.{is_open};
ghost use Rattle.service_tables.specs.Disk.{contents_in, disk_state};
ghost use Rattle.service_tables.specs.Slots.{StoresAt, StoresIn};
ghost use Rattle.service_tables.specs.Storing.{answered_at, fate_by, placed_answer, row_changed, row_erased, rows_erased, rows_stored, storable_at};

use crate::{Disk, Fate, KeptSlot, StoreFate};
use collection_store::{Change, ChangeRefused, Changed, Collection};
use kr_base::{ItemId, OutOfMemory, Stem};
use kr_outside::{Folder, Slot};
use std::alloc::AllocError;

// Stores a change of an unlocked collection. None if its file would be too large.
fn store_in<S: Slot>(
    collection: &mut Collection<S>,
    change: Change,
    now: u64,
    room: u64,
) -> Result<Option<StoreFate>, OutOfMemory>
    requires open { IsSome collection.old.held }
    requires possible { IfSome collection.old.held (λ held.
        IsOk (content_changed change now collection.old.clear held.rows)) }
    ensures row { IfOk result (λ fate. IfSome fate (λ fate.
        row_of collection.new ≡ row_changed change now fate (row_of collection.old))) }
    ensures slot { IfOk result (λ fate. IfSome fate (λ fate.
        StoresIn S.is_honest S.is_steady S.faults S.moment S.left_since S.may_leave
        (Fate.Store fate) collection.old.file collection.new.file
        collection.old.slot collection.new.slot)) }
    ensures fits { IfOk result (λ fate. IfSome fate (λ _. IfSome collection.old.held (λ held.
        IsOk (storable change now room collection.old.file collection.old.clear held)))) }

    // Nothing changes if the device wasn't asked.
    ensures measured { IfOk result (λ fate. IfNone fate (IfSome collection.old.held (λ held.
        storable change now room collection.old.file collection.old.clear held
        ≡ Err ChangeRefused.TooLarge))) }
    ensures unasked { IfOk result (λ fate. IfNone fate (collection.new ≡ collection.old)) }
    ensures unchanged { OnErr result (collection.new ≡ collection.old) }
{
    match collection.change(change, now, room) {
        Ok(_) => Ok(Some(StoreFate::Stored)),
        Err(ChangeRefused::FaultBefore) => Ok(Some(StoreFate::Before)),
        Err(ChangeRefused::FaultUnsure) => Ok(Some(StoreFate::Unsure)),
        Err(ChangeRefused::TooLarge) => Ok(None),
        Err(ChangeRefused::OutOfMemory) => Err(AllocError),
        Err(ChangeRefused::Item(_)) => unreachable!(),
    }
}

// Removes the file of an unlocked collection. False if it isn't known whether that was done.
fn erase_in<S: Slot>(collection: &mut Collection<S>) -> bool
    requires { IsSome collection.old.held }
    ensures row { row_of collection.new ≡ row_erased (fate_by result) (row_of collection.old) }
    ensures slot { StoresIn S.is_honest S.is_steady S.faults S.moment S.left_since S.may_leave
        (Fate.Store (fate_by result)) collection.old.file collection.new.file
        collection.old.slot collection.new.slot }
{
    match collection.delete() {
        Ok(()) => true,
        Err(_) => false,
    }
}

impl<F: Folder> Disk<F> {
    // An answer, unless its item is one too many.
    fn placed(&self, answer: Changed) -> Option<Changed>
        ensures { result ≡ placed_answer answer (contents_in self.now).collections }
    {
        match answer {
            Changed::Made(_) => {
                if self.collections.is_full() {
                    None
                } else {
                    Some(answer)
                }
            }
            Changed::Changed(_) => Some(answer),
            Changed::Removed(_) => Some(answer),
            Changed::Named => Some(answer),
        }
    }

    /// What a change of the collection of a stem would do, whatever the length of its file is. None if there
    /// is no such collection or it is locked, if the change can't be made, and if it makes an item too many. It
    /// takes no memory.
    pub fn answer_to(&self, stem: &Stem, change: &Change) -> Option<Changed>
        ensures { (now : ℕ) → result
            ≡ answered_at stem.now change.now now (contents_in self.now).collections }
    {
        let Some(collection) = self.collections.get(stem) else {
            return None;
        };
        if !collection.is_open() {
            return None;
        }
        match collection.answer_to(change) {
            Ok(answer) => self.placed(answer),
            Err(_) => None,
        }
    }

    /// Stores a change of the collection of a stem, and returns how that ended. None if its file would be
    /// longer than 67,108,864 bytes, or all files together would have more than 268,435,456: then nothing
    /// changes. All memory is taken before the first call of the device.
    pub fn store(
        &mut self,
        stem: &Stem,
        change: Change,
        now: u64,
    ) -> Result<Option<StoreFate>, OutOfMemory>
        requires { IsSome (answered_at stem.now change now
            (contents_in self.old).collections) }
        ensures stored { IfOk result (λ fate. IfSome fate (λ fate.
            contents_in self.new ≡ record (contents_in self.old) {
              collections = rows_stored stem.now change now fate
                  (contents_in self.old).collections;
            })) }
        ensures disk { IfOk result (λ fate. IfSome fate (λ fate.
            StoresAt F.Cell.is_honest F.Cell.is_steady F.Cell.faults F.Cell.moment
            F.Cell.left_since F.Cell.may_leave stem.now (Fate.Store fate)
            (contents_in self.old).collections (contents_in self.new).collections
            (disk_state self.old) (disk_state self.new))) }
        ensures fits { IfOk result (λ fate. IfSome fate (λ _.
            storable_at stem.now change now (contents_in self.old).collections
            ≡ answered_at stem.now change now (contents_in self.old).collections)) }

        // Nothing changes if the device wasn't asked.
        ensures measured { IfOk result (λ fate. IfNone fate (storable_at stem.now change now
            (contents_in self.old).collections ≡ None)) }
        ensures unasked { IfOk result (λ fate. IfNone fate ((contents_in self.new
            ≡ contents_in self.old) × (disk_state self.new ≡ disk_state self.old))) }
        ensures unchanged { OnErr result ((contents_in self.new ≡ contents_in self.old)
            × (disk_state self.new ≡ disk_state self.old)) }
    {
        let _ordered = self.collections.entries();
        let room = self.collections.room();
        let Some(collection) = self.collections.get_mut(stem) else {
            unreachable!();
        };
        store_in(collection, change, now, room)
    }

    /// Makes room for the slot of one more collection that is removed.
    pub fn reserve_spare(&mut self) -> Result<(), OutOfMemory>
        ensures room { OnOk result (vec_len self.new.spare < vec_capacity self.new.spare) }
        ensures contents { contents_in self.new ≡ contents_in self.old }
        ensures disk { disk_state self.new ≡ disk_state self.old }
    {
        self.spare.reserve(1)
    }

    /// Takes the collection of a stem out of those that are there, and keeps its slot, for which there is
    /// room: a crash leaves no file of it if it is honest. Nothing changes if there is none. It takes no
    /// memory.
    pub fn put_aside(&mut self, stem: Stem)
        requires room { vec_len self.old.spare < vec_capacity self.old.spare }
        requires gone { IfSome (value_at stem (disk_state self.old).slots) (λ slot.
            IsTrue (F.Cell.is_honest slot) → Only None (F.Cell.may_leave slot)) }
        ensures contents { contents_in self.new ≡ record (contents_in self.old) {
          collections = without stem (contents_in self.old).collections;
        } }
        ensures slots { (disk_state self.new).slots ≡ without stem (disk_state self.old).slots }
        ensures spare { IfSome (value_at stem (disk_state self.old).slots) (λ slot.
            (disk_state self.new).spare ≡ (stem, slot) ∷ (disk_state self.old).spare) }
        ensures missing { IfNone (value_at stem (disk_state self.old).slots)
            (disk_state self.new ≡ disk_state self.old) }
        ensures rest { disk_state self.new ≡ record (disk_state self.old) {
          slots = (disk_state self.new).slots;
          spare = (disk_state self.new).spare;
        } }
    {
        if let Some(collection) = self.collections.remove(&stem) {
            let kept = KeptSlot::new(collection.into_cell().into_slot());
            self.spare.insert(0, (stem, kept)).unwrap();
        }
    }

    /// Removes the file of an unlocked collection, and the collection with it, and returns how that ended. It
    /// takes no memory.
    pub fn erase(&mut self, stem: Stem) -> StoreFate
        requires open { is_open stem (contents_in self.old).collections ≡ true }
        requires room { vec_len self.old.spare < vec_capacity self.old.spare }
        ensures erased { contents_in self.new ≡ record (contents_in self.old) {
          collections = rows_erased stem result (contents_in self.old).collections;
        } }
        ensures disk { StoresAt F.Cell.is_honest F.Cell.is_steady F.Cell.faults F.Cell.moment
            F.Cell.left_since F.Cell.may_leave stem (Fate.Store result)
            (contents_in self.old).collections (contents_in self.new).collections
            (disk_state self.old) (disk_state self.new) }
    {
        let _ordered = self.collections.entries();
        let Some(collection) = self.collections.get_mut(&stem) else {
            unreachable!();
        };
        if erase_in(collection) {
            self.put_aside(stem);
            return StoreFate::Stored;
        }
        StoreFate::Unsure
    }
}
