// What the types of the files of the collections guarantee, as a fact that a contract can cite. No byte of them is
// read.
ghost use Rattle.std.specs.List.{AllByRecursion};
ghost use Rattle.service_answers.specs.service_events.specs.Step.{AreByteFiles, AreByteImages};
ghost use Rattle.service_answers.specs.service_tables.specs.Disk.{contents_in};

use kr_base::Stem;
use kr_outside::{Folder, Slot};
use service_answers::collection_store::Collection;
use service_answers::service_tables::Disk;

fn known_entries<S: Slot>(entries: &[(Stem, Collection<S>)])
    ensures { AllByRecursion (λ entry. AreByteImages entry.1.file) entries.now }
{
    for entry in entries {
        entry.1.known_file();
    }
}

/// A law: what the types of the images of all files guarantee. The call passes over the collections, and does nothing.
pub fn known_files<F: Folder>(disk: &Disk<F>)
    ensures { AreByteFiles (contents_in disk.now).collections }
{
    known_entries(disk.collections.entries());
}
