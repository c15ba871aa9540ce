// The calls of the interface Collection.
ghost use Rattle.std.specs.Prelude.{◌≡◌, Some, IfOk};
ghost use Rattle.service_events.specs.CollectionCalls.{search_collection};
ghost use Rattle.service_calls.specs.Done.{reads};
ghost use Rattle.service_calls.specs.Rows.{rows_of};
ghost use Rattle.service_events.specs.service_tables.specs.Storing.{Brought};
ghost use Rattle.service_events.specs.Run.{asked};

use crate::Tables;
use crate::answer::Answer;
use kr_base::{Attributes, ConnId, OutOfMemory};
use kr_items::Items;
use kr_names::ObjectName;
use kr_outside::Folder;
use service_events::secret_calls::{Body, ErrorName};
use service_events::service_tables::item_paths;

impl<F: Folder> Tables<F> {
    /// Answers SearchItems as its row does, whatever the size of the return.
    pub fn search_collection(
        &self,
        conn: ConnId,
        collection: &ObjectName,
        wanted: &Attributes,
    ) -> Result<Answer, OutOfMemory>
        ensures { IfOk result (λ answer. (brought : Brought)
            → reads conn (rows_of self.now)
            (search_collection collection.now wanted.now (asked conn brought (rows_of self.now)))
            ≡ Some answer) }
    {
        let _ = conn;
        let Some(stem) = self.disk.collection_named(collection) else {
            return Ok(Err(ErrorName::NoSuchObject));
        };
        let ids = self.disk.found_in(self.alloc, stem, wanted)?;
        let paths = item_paths(self.alloc, stem, &ids)?;
        Ok(Ok(Body::Objects(Items::new(paths))))
    }
}
