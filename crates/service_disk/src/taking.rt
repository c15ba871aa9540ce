// The slot of a new collection: the one that was kept for its stem, or the first one of its name. It is taken from
// the disk or made of the folder, and put among the others again.
ghost use Rattle.std.specs.Prelude.{◌≡◌, ◌-◌, ◌<◌, ◌≤◌, ◌∷◌, ℕ, false, Contains, IfNone, IfOk, IfSome, List, None, OnErr, vec_capacity, vec_len};
ghost use Rattle.service_tables.specs.collection_table.specs.Entries.{inserted, row_of};
ghost use Rattle.service_tables.specs.collection_table.specs.Rows.{has};
ghost use Rattle.folder_store.specs.Loads.{IsFree};
ghost use Rattle.folder_store.specs.Names.{IsRingName};
ghost use Rattle.kr_base.specs.Attributes.{is_name, value_at};
ghost use Rattle.replace_slot.specs.Cell.{Known};
ghost use Rattle.service_disk.specs.Making.{IsFreeStem, KeepsFolder};
ghost use Rattle.service_disk.specs.Taking.{IsFirstOf, RefusesSlot, TakesNew, TakesSlot, without_first};
ghost use Rattle.service_tables.specs.Disk.{contents_in, disk_state};
ghost use Rattle.stem_choice.specs.UsedStems.{with_stem};

use kr_base::{OutOfMemory, Stem};
use kr_outside::{Folder, Slot};
use replace_slot::FileCell;
use service_tables::collection_store::Collection;
use service_tables::{Disk, KeptSlot};
use stem_choice::{a_used_stem_is_in_the_list, adding_a_stem_uses_it_alone};

// The place of the first slot that was kept for a stem.
fn place_of<S: Slot>(spare: &[(Stem, KeptSlot<S>)], stem: &Stem) -> Option<usize>
    ensures found { IfSome result (IsFirstOf stem.now spare.now) }
    ensures none { IfNone result (value_at stem.now spare.now ≡ None) }
{
    for place in 0..spare.len() {
        if spare[place].0 == *stem {
            return Some(place);
        }
    }
    None
}

// Takes the first slot out that was kept for a stem.
fn take_spare<S: Slot>(spare: &mut Vec<(Stem, KeptSlot<S>)>, stem: &Stem) -> Option<KeptSlot<S>>
    ensures value { result ≡ value_at stem.now spare.old.items }
    ensures rest { spare.new.items ≡ without_first stem.now spare.old.items }
    ensures room { vec_capacity spare.old - vec_len spare.old
        ≤ vec_capacity spare.new - vec_len spare.new }
{
    match place_of(spare.as_slice(), stem) {
        Some(place) => Some(spare.remove(place).1),
        None => None,
    }
}

// Makes a slot of a folder, the first one of its name, which is free: its file isn't there.
fn new_cell<F: Folder>(folder: &mut F, name: &str) -> Result<FileCell<F::Cell>, OutOfMemory>
    requires { IsFree (F.is_honest folder.old) F.images F.may_leave F.made folder.old name.now }
    ensures folder { KeepsFolder F.is_honest F.is_steady F.faults F.images F.may_leave F.made
        folder.old folder.new }
    ensures file { IfOk result (λ cell. cell.file ≡ Known None) }
    ensures made { IfOk result (λ cell. TakesNew F.is_honest F.is_steady F.made
        F.Cell.is_honest F.Cell.is_steady F.Cell.faults F.Cell.left_since F.Cell.may_leave
        name.now cell.slot folder.old folder.new) }
    ensures none { OnErr result (F.made folder.new ≡ F.made folder.old) }
{
    let slot = folder.slot(name)?;
    Ok(FileCell::known(slot, None))
}

/// The cell of a stem that has no collection and no file: it is taken from the disk, or made of the folder. The name
/// is that of its file.
pub fn take_cell<F: Folder>(
    disk: &mut Disk<F>,
    stem: &Stem,
    name: &str,
) -> Result<FileCell<F::Cell>, OutOfMemory>
    requires free { IsFreeStem F.is_honest F.images F.may_leave F.made F.Cell.is_honest
        F.Cell.may_leave stem.now (disk_state disk.old) }
    requires unlisted { has stem.now (contents_in disk.old).collections ≡ false }
    requires name { IsRingName name.now stem.now }
    ensures file { IfOk result (λ cell. cell.file ≡ Known None) }
    ensures taken { IfOk result (λ cell. TakesSlot F.is_honest F.is_steady F.faults F.images
        F.may_leave F.made F.Cell.is_honest F.Cell.is_steady F.Cell.faults F.Cell.left_since
        F.Cell.may_leave stem.now cell.slot (disk_state disk.old) (disk_state disk.new)) }
    ensures refused { OnErr result (RefusesSlot F.is_honest F.is_steady F.faults F.images
        F.may_leave F.made (disk_state disk.old) (disk_state disk.new)) }
    ensures contents { contents_in disk.new ≡ contents_in disk.old }
    ensures collections { disk.new.collections ≡ disk.old.collections }
    ensures used { disk.new.used ≡ disk.old.used }
    ensures room { vec_capacity disk.old.spare - vec_len disk.old.spare
        ≤ vec_capacity disk.new.spare - vec_len disk.new.spare }
{
    match take_spare(&mut disk.spare, stem) {
        Some(kept) => Ok(kept.into_cell()),
        None => new_cell(&mut disk.folder, name),
    }
}

// A law: of the stems that aren't used once one more is, none was used before, and none is that one.
fn others_were_unused()
    ensures { (stem other : List ℕ) (used : List (List ℕ))
        → ¬ (Contains (with_stem stem used) other)
        → (¬ (Contains used other)) × (is_name stem other ≡ false) }
{
    a_used_stem_is_in_the_list();
    adding_a_stem_uses_it_alone();
}

/// Keeps the slot of a stem that has no collection and no file. It takes no memory.
pub fn keep<F: Folder>(disk: &mut Disk<F>, stem: Stem, cell: FileCell<F::Cell>)
    requires room { vec_len disk.old.spare < vec_capacity disk.old.spare }
    requires gone { cell.file ≡ Known None }
    ensures contents { contents_in disk.new ≡ contents_in disk.old }
    ensures disk { disk_state disk.new ≡ record (disk_state disk.old) {
      spare = (stem, cell.slot) ∷ (disk_state disk.old).spare;
    } }
{
    let kept = KeptSlot::new(cell.into_slot());
    disk.spare.insert(0, (stem, kept)).unwrap();
}

/// The same once its stem, which is given with a copy, is used. It takes no memory.
pub fn keep_used<F: Folder>(disk: &mut Disk<F>, stem: Stem, copy: Stem, cell: FileCell<F::Cell>)
    requires spare { vec_len disk.old.spare < vec_capacity disk.old.spare }
    requires gone { cell.file ≡ Known None }
    requires used { 0 < disk.old.used.room }
    requires same { copy ≡ stem }
    ensures contents { contents_in disk.new ≡ record (contents_in disk.old) {
      used = with_stem stem (contents_in disk.old).used;
    } }
    ensures disk { disk_state disk.new ≡ record (disk_state disk.old) {
      spare = (stem, cell.slot) ∷ (disk_state disk.old).spare;
      used = with_stem stem (disk_state disk.old).used;
    } }
    ensures unused { (other : List ℕ)
        → ¬ (Contains (with_stem stem (disk_state disk.old).used) other)
        → (¬ (Contains (disk_state disk.old).used other)) × (is_name stem other ≡ false) }
{
    others_were_unused();
    disk.used.insert(copy);
    keep(disk, stem, cell);
}

/// Puts a new collection among the others. Its stem, which is given with a copy, is used from then on. It takes no
/// memory.
pub fn list<F: Folder>(disk: &mut Disk<F>, stem: Stem, copy: Stem, collection: Collection<F::Cell>)
    requires none { has stem (contents_in disk.old).collections ≡ false }
    requires collections { 0 < disk.old.collections.room }
    requires used { 0 < disk.old.used.room }
    requires same { copy ≡ stem }
    ensures contents { contents_in disk.new ≡ record (contents_in disk.old) {
      collections = inserted stem (row_of collection) (contents_in disk.old).collections;
      used = with_stem stem (contents_in disk.old).used;
    } }
    ensures disk { disk_state disk.new ≡ record (disk_state disk.old) {
      slots = inserted stem collection.slot (disk_state disk.old).slots;
      used = with_stem stem (disk_state disk.old).used;
    } }
    ensures unused { (other : List ℕ)
        → ¬ (Contains (with_stem stem (disk_state disk.old).used) other)
        → (¬ (Contains (disk_state disk.old).used other)) × (is_name stem other ≡ false) }
{
    others_were_unused();
    disk.used.insert(copy);
    disk.collections.insert(stem, collection);
}
