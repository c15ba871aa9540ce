// The folder of the service, and what was loaded from it.
ghost use Rattle.std.specs.Prelude.{◌≡◌, [], IsTrue, IfOk, IsErrOf};
ghost use Rattle.std.specs.List.{AllByRecursion};
ghost use Rattle.folder_store.specs.Ring.{IsAsFound};
ghost use Rattle.replace_slot.specs.Cell.{IsKnown};
ghost use Rattle.service_tables.specs.Disk.{IsLoaded, FailedToLoad, contents_in, disk_state, used_from};
ghost use Rattle.service_tables.specs.declared.disk.OpenRefused.TheVariants as OpenRefused;
ghost use Rattle.service_tables.specs.Opened.{opened_state};
ghost use Rattle.service_tables.specs.Sound.{AreSoundContents};

use crate::{KeptAliases, KeptSlot};
use collection_table::CollectionTable;
use folder_store::{LeftAlone, LoadRefused, Loaded, Ring, load};
use kr_base::{OutOfMemory, Stem};
use kr_outside::{Folder, Slot};
use std::alloc::{AllocError, Global};
use stem_choice::{UsedStems, adding_a_stem_uses_it_alone};
use thiserror::Error;

/// Why the service didn't open.
#[derive(Clone, Copy, Debug, PartialEq, Eq, Error)]
pub enum OpenRefused {
    /// The folder, or one of its slots, failed while it was loaded.
    #[error("the folder could not be loaded")]
    Folder,
    /// No memory was left.
    #[error("out of memory")]
    OutOfMemory,
}

impl From<AllocError> for OpenRefused {
    ghost from_gives = { λ _ e. e ≡ OpenRefused.OutOfMemory };

    fn from(_error: AllocError) -> Self {
        OpenRefused::OutOfMemory
    }
}

/// A folder, and what was loaded from it, with every slot that was made of the folder.
#[derive(Drop)]
pub struct Disk<F: Folder> {
    /// The folder.
    pub folder: F,
    /// The collections, each with the slot of its file.
    pub collections: CollectionTable<F::Cell>,
    /// The slots without a collection, the latest first, each with its stem: those of collections that were
    /// removed or are gone, or that couldn't be made. A crash leaves no file of an honest one.
    pub spare: Vec<(Stem, KeptSlot<F::Cell>)>,
    /// The stems that are used: those of all keyring files at the start, including those that were left
    /// alone, those that aliases stood for then, and those of all collections that were made since.
    pub used: UsedStems,
    /// The keyring files that were left alone.
    pub left_alone: Vec<LeftAlone<F::Cell>>,
    /// The aliases, with the slot of their file.
    pub aliases: KeptAliases<F::Cell>,
}

// The stems that are used once this was loaded.
fn used_from<S: Slot>(alloc: Global, loaded: &Loaded<S>) -> Result<UsedStems, OutOfMemory>
    ensures { IfOk result (λ used. used.stems ≡ used_from loaded.now) }
{
    let mut used = UsedStems::new(alloc);
    for stem in &loaded.used {
        used.add(stem)?;
    }
    let pairs = loaded.aliases.pairs();
    for pair in pairs {
        used.add(&pair.1)?;
    }
    Ok(used)
}

// The file of each collection that a start lists is known. It does nothing.
fn are_known<S: Slot>(rings: &[Ring<S>])
    ensures { AllByRecursion (λ ring. IsKnown ring.cell.file) rings.now }
{
    for ring in rings {
        ring.clear();
    }
}

impl<F: Folder> Disk<F> {
    /// Loads a folder of which no slot was made yet (docs/KEYRING_FILES.md, "A folder"). All collections are
    /// locked.
    ///
    /// Refused with `Folder` if the folder or one of its slots failed, and with `OutOfMemory`; the
    /// folder and the slots that were made of it are dropped then.
    pub fn open(alloc: Global, folder: F) -> Result<Disk<F>, OpenRefused>
        requires fresh { F.made folder ≡ [] }
        ensures loaded { IfOk result (λ disk. IsLoaded (IsAsFound F.Cell.seen F.Cell.temporary
            F.Cell.may_leave F.Cell.left_since F.Cell.is_honest F.Cell.is_steady
            (F.is_honest folder) (F.is_steady folder))
            F.is_honest F.is_steady F.faults F.images F.may_leave F.made folder (disk_state disk)
            (opened_state (contents_in disk))) }
        ensures sound { IfOk result (λ disk. AreSoundContents (contents_in disk)) }

        // The folder is at fault only if it failed, and never if it is steady.
        ensures cause { IsErrOf result OpenRefused.Folder → FailedToLoad (IsAsFound F.Cell.seen
            F.Cell.temporary F.Cell.may_leave F.Cell.left_since F.Cell.is_honest F.Cell.is_steady
            (F.is_honest folder) (F.is_steady folder))
            F.is_honest F.is_steady F.faults F.images F.made F.Cell.faults F.Cell.failed folder }
        ensures never { IsTrue (F.is_steady folder) → ¬ (IsErrOf result OpenRefused.Folder) }
    {
        let mut folder = folder;
        match load(alloc, &mut folder) {
            Ok(loaded) => {
                adding_a_stem_uses_it_alone();
                are_known(&loaded.rings);
                let used = used_from(alloc, &loaded)?;
                let _ordered = used.as_slice();
                let collections = CollectionTable::loaded(alloc, loaded.rings)?;
                Ok(Disk {
                    folder,
                    collections,
                    spare: Vec::new(alloc),
                    used,
                    left_alone: loaded.left_alone,
                    aliases: KeptAliases::found(alloc, loaded.aliases),
                })
            }
            Err(not_loaded) => match not_loaded.refused {
                LoadRefused::Folder => Err(OpenRefused::Folder),
                LoadRefused::OutOfMemory => Err(OpenRefused::OutOfMemory),
            },
        }
    }
}
