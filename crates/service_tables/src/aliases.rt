// The aliases with their file, and how one is set.
ghost use Rattle.std.specs.Prelude.{◌≡◌, ℕ, List, Option, None, Some, true, false, IfOk, IfSome, IfNone, IsSome};
ghost use Rattle.std.specs.Map.{keys_of};
ghost use Rattle.std.specs.Option.{option_copied};
ghost use Rattle.kr_base.specs.Attributes.{value_at};
ghost use Rattle.kr_names.specs.Path.{IsAliasName};
ghost use Rattle.alias_table.specs.Table.{IsFor, IsPrepared};
ghost use Rattle.collection_table.specs.Entries.{inserted};
ghost use Rattle.collection_table.specs.Rows.{CollectionRow, has};
ghost use Rattle.folder_store.specs.Aliases.{alias_slot};
ghost use Rattle.service_tables.specs.Aliases.{IsForAliases, IsPreparedFor, aliases_from, aliases_resolved, aliases_set, are_doubtful, asked_aliases, is_doubt, pairs_of, rows_in, rows_resolved, rows_set_of, slot_in};
ghost use Rattle.service_tables.specs.Disk.{contents_in, disk_state};
ghost use Rattle.service_tables.specs.Slots.{IsFault, LeavesKnown, StoresAliases, StoresIn};
ghost use Rattle.service_tables.specs.Sound.{AreSoundAliases};

use crate::{Disk, Fate, ReadFate, StoreFate};
use alias_table::{AliasChange, AliasRefused, AliasTable};
use folder_store::FoundAliases;
use kr_base::{OutOfMemory, Stem, Text};
use kr_outside::{Folder, Slot};
use replace_slot::Found;
use std::alloc::{AllocError, Global};

/// The aliases of a folder, with their file.
#[derive(Drop)]
pub enum KeptAliases<S: Slot> {
    /// The file was read: its aliases, with its cell.
    Table(AliasTable<S>),
    /// The file is too long, so it was left alone. There are no aliases, and none can be set.
    LeftAlone(S),
}

impl<S: Slot> KeptAliases<S> {
    /// The aliases that a start found. It takes no memory.
    pub fn found(alloc: Global, found: FoundAliases<S>) -> KeptAliases<S>
        ensures rows { rows_in result ≡ aliases_from found }
        ensures slot { slot_in result ≡ alias_slot found }
        ensures sound { AreSoundAliases (rows_in result) }
        ensures certain { are_doubtful (rows_in result) ≡ false }
    {
        match found {
            FoundAliases::Read(file) => {
                let (cell, pairs) = file.into_parts();
                KeptAliases::Table(AliasTable::new(alloc, cell, pairs))
            }
            FoundAliases::LeftAlone(slot) => KeptAliases::LeftAlone(slot),
        }
    }

    /// The stem that the alias of this name stands for, whether or not there is a collection of that stem.
    pub fn read(&self, name: &str) -> Option<&Stem>
        ensures { option_copied result ≡ value_at name.now (pairs_of (rows_in self.now)) }
    {
        match self {
            KeptAliases::Table(table) => table.read(name),
            KeptAliases::LeftAlone(_) => None,
        }
    }
}

// Reads the file of a table again, of which two images are known. The change is given back as it is prepared for
// the image that was found; None if the file couldn't be read.
fn resolve_in<S: Slot>(
    table: &mut AliasTable<S>,
    change: AliasChange,
) -> (ReadFate, Option<AliasChange>)
    requires doubt { is_doubt table.old.rows.file ≡ true }
    requires prepared { IsFor change table.old.rows }
    ensures rows { table.new.rows ≡ rows_resolved result.0 table.old.rows }
    ensures slot { StoresIn S.is_honest S.is_steady S.faults S.moment S.left_since S.may_leave
        (Fate.Read result.0) table.old.rows.file table.new.rows.file
        table.old.slot table.new.slot }

    // What was prepared stays so, for the file that was found.
    ensures left { IfSome result.1 (λ left. IsFor left table.new.rows) }
    ensures prepared { (name : List ℕ) (stem : Option (List ℕ)) (live : List (List ℕ))
        → IsPrepared name stem live table.old.rows change
        → IfSome result.1 (IsPrepared name stem live table.new.rows) }
    ensures failed { IfNone result.1 (result.0 ≡ ReadFate.ReadFailed) }
    ensures read { IfSome result.1 (λ _. ¬ (IsFault (Fate.Read result.0))) }
{
    match table.resolve(change) {
        Ok((Found::Old, change)) => (ReadFate::Old, Some(change)),
        Ok((Found::New, change)) => (ReadFate::New, Some(change)),
        Ok((Found::Other, change)) => (ReadFate::Other, Some(change)),
        Err(_) => (ReadFate::ReadFailed, None),
    }
}

// Stores a change in a table whose file is known. None if there would be too many aliases.
fn store_in<S: Slot>(table: &mut AliasTable<S>, change: AliasChange) -> Option<StoreFate>
    requires known { is_doubt table.old.rows.file ≡ false }
    requires prepared { IsFor change table.old.rows }
    ensures rows { IfSome result (λ fate.
        table.new.rows ≡ rows_set_of change.next fate table.old.rows) }
    ensures slot { IfSome result (λ fate.
        StoresIn S.is_honest S.is_steady S.faults S.moment S.left_since S.may_leave
        (Fate.Store fate) table.old.rows.file table.new.rows.file
        table.old.slot table.new.slot) }
    ensures few { IfSome result (λ _. IsSome change.next) }

    // Nothing changes if the device wasn't asked.
    ensures many { IfNone result (change.next ≡ None) }
    ensures unasked { IfNone result (table.new ≡ table.old) }
{
    match table.set(change) {
        Ok(()) => Some(StoreFate::Stored),
        Err(AliasRefused::FaultBefore) => Some(StoreFate::Before),
        Err(AliasRefused::FaultUnsure) => Some(StoreFate::Unsure),
        Err(AliasRefused::TooMany) => None,
        Err(AliasRefused::BadName) => unreachable!(),
        Err(AliasRefused::FaultRead) => unreachable!(),
        Err(AliasRefused::OutOfMemory) => unreachable!(),
    }
}

impl<F: Folder> Disk<F> {
    /// Whether two images of the file of the aliases are known, of which it has one. It takes no memory.
    pub fn has_doubtful_aliases(&self) -> bool
        ensures { result ≡ are_doubtful (contents_in self.now).aliases }
    {
        match &self.aliases {
            KeptAliases::Table(table) => !table.is_known(),
            KeptAliases::LeftAlone(_) => false,
        }
    }

    /// While no call runs, a crash leaves of the file of the aliases what is known of it: its image, or one
    /// of the two that it may have if it is in doubt. It does nothing.
    pub fn untouched_aliases(&self)
        ensures { IfSome (contents_in self.now).aliases (λ rows. LeavesKnown F.Cell.is_honest
            F.Cell.moment F.Cell.left_since rows.file (disk_state self.now).aliases) }
    {
        if let KeptAliases::Table(table) = &self.aliases {
            table.untouched();
        }
    }

    /// Prepares a change of the aliases: the one of this name is set to the stem, or removed if there is none,
    /// and those whose collection isn't there are dropped. All memory that storing it needs is taken here.
    /// None if the file of the aliases was left alone.
    pub fn prepare_alias(
        &self,
        name: Text,
        stem: Option<Stem>,
    ) -> Result<Option<AliasChange>, OutOfMemory>
        requires { IsAliasName name }
        ensures prepared { IfOk result (λ change.
            IfSome change (IsPreparedFor name stem (contents_in self.now))) }
        ensures left_alone { IfOk result (λ change.
            IfNone change ((contents_in self.now).aliases ≡ None)) }
    {
        let KeptAliases::Table(table) = &self.aliases else {
            return Ok(None);
        };
        let live = self.collections.stems()?;
        match table.prepare(name, stem, &live) {
            Ok(change) => Ok(Some(change)),
            Err(AliasRefused::BadName) => unreachable!(),
            Err(_) => Err(AllocError),
        }
    }

    /// The same for a collection that isn't there yet, but is once the change is stored.
    pub fn prepare_alias_of_new(
        &self,
        name: Text,
        stem: Stem,
    ) -> Result<Option<AliasChange>, OutOfMemory>
        requires name { IsAliasName name }
        requires new { has stem (contents_in self.now).collections ≡ false }
        ensures prepared { IfOk result (λ change. IfSome change (λ change. (row : CollectionRow)
            → IsPreparedFor name (Some stem) (record (contents_in self.now) {
              collections = inserted stem row (contents_in self.now).collections;
            }) change)) }
        ensures left_alone { IfOk result (λ change.
            IfNone change ((contents_in self.now).aliases ≡ None)) }
    {
        let KeptAliases::Table(table) = &self.aliases else {
            return Ok(None);
        };
        let live = self.stems_with(&stem)?;
        match table.prepare(name, Some(stem), &live) {
            Ok(change) => Ok(Some(change)),
            Err(AliasRefused::BadName) => unreachable!(),
            Err(_) => Err(AllocError),
        }
    }

    // The stems of the collections with one more, which isn't among them.
    fn stems_with(&self, stem: &Stem) -> Result<Vec<Stem>, OutOfMemory>
        requires { has stem.now (contents_in self.now).collections ≡ false }
        ensures { IfOk result (λ stems. (row : CollectionRow) → stems.items
            ≡ keys_of (inserted stem.now row (contents_in self.now).collections)) }
    {
        let _ordered = self.collections.entries();
        let mut stems = self.collections.stems()?;
        let added = stem.copy()?;
        match stems.binary_search_by(|other| other.cmp(&added)) {
            Ok(_) => {}
            Err(place) => stems.insert(place, added)?,
        }
        Ok(stems)
    }

    /// Reads the file of the aliases, which is in doubt, again, and returns what was found, with the change
    /// prepared for it. None if the file couldn't be read: then the doubt stays. It takes no memory.
    pub fn resolve_aliases(&mut self, change: AliasChange) -> (ReadFate, Option<AliasChange>)
        requires doubt { are_doubtful (contents_in self.old).aliases ≡ true }
        requires prepared { IsForAliases change (contents_in self.old).aliases }
        ensures resolved { contents_in self.new ≡ record (contents_in self.old) {
          aliases = aliases_resolved result.0 (contents_in self.old).aliases;
        } }
        ensures disk { StoresAliases F.Cell.is_honest F.Cell.is_steady F.Cell.faults
            F.Cell.moment F.Cell.left_since F.Cell.may_leave (Fate.Read result.0)
            (contents_in self.old).aliases (contents_in self.new).aliases
            (disk_state self.old) (disk_state self.new) }

        // What was prepared stays so, for the file that was found.
        ensures prepared { (name : List ℕ) (stem : Option (List ℕ))
            → IsPreparedFor name stem (contents_in self.old) change
            → IfSome result.1 (IsPreparedFor name stem (contents_in self.new)) }
        ensures failed { IfNone result.1 (result.0 ≡ ReadFate.ReadFailed) }
        ensures read { IfSome result.1 (λ _. ¬ (IsFault (Fate.Read result.0))) }
    {
        let KeptAliases::Table(table) = &mut self.aliases else {
            unreachable!();
        };
        resolve_in(table, change)
    }

    /// Stores a change of the aliases, whose file is known, and returns how that ended. None if there would be
    /// more than 1,024 aliases: then nothing changes. It takes no memory.
    pub fn store_aliases(&mut self, change: AliasChange) -> Option<StoreFate>
        requires known { are_doubtful (contents_in self.old).aliases ≡ false }
        requires prepared { IsForAliases change (contents_in self.old).aliases }
        ensures stored { (name : List ℕ) (stem : Option (List ℕ))
            → IsPreparedFor name stem (contents_in self.old) change
            → IfSome result (λ fate. contents_in self.new ≡ record (contents_in self.old) {
              aliases = aliases_set name stem fate (contents_in self.old);
            }) }
        ensures disk { IfSome result (λ fate. StoresAliases F.Cell.is_honest F.Cell.is_steady
            F.Cell.faults F.Cell.moment F.Cell.left_since F.Cell.may_leave (Fate.Store fate)
            (contents_in self.old).aliases (contents_in self.new).aliases
            (disk_state self.old) (disk_state self.new)) }
        ensures few { (name : List ℕ) (stem : Option (List ℕ))
            → IsPreparedFor name stem (contents_in self.old) change → IfSome result (λ _.
            (asked_aliases (contents_in self.old)).can_set name stem ≡ true) }

        // Nothing changes if the device wasn't asked.
        ensures many { (name : List ℕ) (stem : Option (List ℕ))
            → IsPreparedFor name stem (contents_in self.old) change → IfNone result
            ((asked_aliases (contents_in self.old)).can_set name stem ≡ false) }
        ensures unasked { IfNone result ((contents_in self.new ≡ contents_in self.old)
            × (disk_state self.new ≡ disk_state self.old)) }
    {
        let KeptAliases::Table(table) = &mut self.aliases else {
            unreachable!();
        };
        store_in(table, change)
    }
}
