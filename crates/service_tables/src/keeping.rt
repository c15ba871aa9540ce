// What a crash leaves of the files of collections, and of the slots that are kept without one, while no call runs.
ghost use Rattle.std.specs.Prelude.{IfSome, None};
ghost use Rattle.std.specs.List.{AllByRecursion};
ghost use Rattle.replace_slot.specs.Cell.{Known};
ghost use Rattle.service_tables.specs.Disk.{contents_in, disk_state};
ghost use Rattle.service_tables.specs.Slots.{LeavesKnown, file_at, slot_at};

use crate::{Disk, KeptSlot};
use kr_base::Stem;
use kr_outside::{Folder, Slot};

// A crash leaves no file of slots that are kept. It does nothing.
fn are_untouched<S: Slot>(spare: &[(Stem, KeptSlot<S>)])
    ensures { AllByRecursion (λ kept. LeavesKnown S.is_honest S.moment S.left_since
        (Known None) kept.1) spare.now }
{
    for kept in spare {
        kept.1.untouched();
    }
}

impl<F: Folder> Disk<F> {
    /// While no call runs, a crash leaves of a collection's file what is known of it: its image, or one of
    /// the two that it may have if it is in doubt. It leaves no file of a stem without a collection whose
    /// slot is kept. It does nothing.
    pub fn untouched(&self, stem: &Stem)
        ensures { IfSome (slot_at stem.now (disk_state self.now)) (LeavesKnown
            F.Cell.is_honest F.Cell.moment F.Cell.left_since
            (file_at stem.now (contents_in self.now).collections)) }
    {
        match self.collections.get(stem) {
            Some(collection) => collection.untouched(),
            None => self.untouched_kept(),
        }
    }

    /// While no call runs, a crash leaves no file of a slot that is kept without a collection. It does
    /// nothing.
    pub fn untouched_kept(&self)
        ensures { AllByRecursion (λ kept. LeavesKnown F.Cell.is_honest F.Cell.moment
            F.Cell.left_since (Known None) kept.1) (disk_state self.now).spare }
    {
        are_untouched(&self.spare);
    }
}
