// The calls of the interface Service that read and set aliases.
ghost use Rattle.std.specs.Prelude.{◌≡◌, ℕ, List, Option, [], None, Some, IfOk, OnErr, false};
ghost use Rattle.kr_base.specs.declared.ids.ConnId.{ConnId};
ghost use Rattle.service_events.specs.AliasCalls.{alias_body, alias_settled, alias_stored, read_alias, set_alias};
ghost use Rattle.service_events.specs.PublicBody.{body_with};
ghost use Rattle.service_calls.specs.Rows.{disk_of, rows_of};
ghost use Rattle.service_events.specs.Run.{asked};
ghost use Rattle.service_calls.specs.Done.{Leads, reads};
ghost use Rattle.service_events.specs.service_tables.specs.Aliases.{IsForAliases, IsPreparedFor, are_doubtful};
ghost use Rattle.service_events.specs.service_tables.specs.Opened.{contents_of};
ghost use Rattle.service_events.specs.service_tables.specs.TablesReading.{alias_of};
ghost use Rattle.service_events.specs.service_tables.specs.Storing.{Brought};

use crate::Tables;
use crate::answer::Answer;
use crate::storing::{Done, ended, refused, unread};
use kr_base::{ConnId, OutOfMemory, Text};
use kr_names::{ObjectName, path_of};
use kr_outside::Folder;
use service_events::alias_table::AliasChange;
use service_events::secret_calls::{AliasName, Body, ErrorName};
use service_events::service_tables::collection_path;

impl<F: Folder> Tables<F> {
    // The return for an alias.
    fn alias_body(&self, alias: &Text) -> Result<Body, OutOfMemory>
        ensures { IfOk result (λ body. body
            ≡ body_with (alias_body (alias_of alias.now (contents_of (rows_of self.now))))) }
    {
        match self.disk.alias_of(alias) {
            Some(stem) => Ok(Body::Object(collection_path(self.alloc, stem)?)),
            None => Ok(Body::Object(path_of(self.alloc, &ObjectName::Nothing)?)),
        }
    }

    /// Answers ReadAlias as its row does, whatever the size of the return.
    pub fn read_alias(&self, conn: ConnId, alias: &Text) -> Result<Answer, OutOfMemory>
        ensures { IfOk result (λ answer. (brought : Brought)
            → reads conn (rows_of self.now)
            (read_alias alias.now (asked conn brought (rows_of self.now))) ≡ Some answer) }
    {
        let _ = conn;
        let body = self.alias_body(alias)?;
        Ok(Ok(body))
    }

    // Stores a change of the aliases, whose file is known. It takes no memory.
    fn store_alias(&mut self, change: AliasChange) -> Done
        requires known { are_doubtful (rows_of self.old).aliases ≡ false }
        requires prepared { IsForAliases change (rows_of self.old).aliases }
        ensures leads { (conn : ConnId) (brought : Brought) (alias : List ℕ)
            (stem : Option (List ℕ))
            → IsPreparedFor alias stem (contents_of (rows_of self.old)) change
            → Leads F.is_honest F.is_steady F.faults F.images
            F.may_leave F.made F.Cell.is_honest F.Cell.is_steady
            F.Cell.faults F.Cell.moment
            F.Cell.left_since F.Cell.may_leave conn brought
            (alias_stored alias stem (asked conn brought (rows_of self.old)))
            (rows_of self.old) (rows_of self.new) (disk_of self.old) (disk_of self.new) result }
        ensures silent { result.sends ≡ [] }
        ensures unread { result.read ≡ None }
        ensures room { self.new.connections ≡ self.old.connections }
        ensures prompts { self.new.prompts ≡ self.old.prompts }
        ensures rest { disk_of self.new
            ≡ record (disk_of self.old) { aliases = (disk_of self.new).aliases } }
    {
        match self.disk.store_aliases(change) {
            Some(fate) => ended(Body::Empty, fate, Vec::new(self.alloc)),
            None => refused(self.alloc, ErrorName::LimitsExceeded),
        }
    }

    /// The same, after the file was read again if it is in doubt. It takes no memory.
    pub fn settle_alias(&mut self, change: AliasChange) -> Done
        requires { (alias : List ℕ) × (stem : Option (List ℕ))
            × IsPreparedFor alias stem (contents_of (rows_of self.old)) change }
        ensures leads { (conn : ConnId) (brought : Brought) (alias : List ℕ)
            (stem : Option (List ℕ))
            → IsPreparedFor alias stem (contents_of (rows_of self.old)) change
            → Leads F.is_honest F.is_steady F.faults F.images
            F.may_leave F.made F.Cell.is_honest F.Cell.is_steady
            F.Cell.faults F.Cell.moment
            F.Cell.left_since F.Cell.may_leave conn brought
            (alias_settled alias stem)
            (rows_of self.old) (rows_of self.new) (disk_of self.old) (disk_of self.new) result }
        ensures silent { result.sends ≡ [] }
        ensures room { self.new.connections ≡ self.old.connections }
        ensures prompts { self.new.prompts ≡ self.old.prompts }
        ensures rest { disk_of self.new
            ≡ record (disk_of self.old) { aliases = (disk_of self.new).aliases } }
    {
        if !self.disk.has_doubtful_aliases() {
            return self.store_alias(change);
        }
        let (read, left) = self.disk.resolve_aliases(change);
        match left {
            Some(change) => self.store_alias(change).after(read),
            None => unread(self.alloc, read),
        }
    }

    /// Performs the row of SetAlias. All memory is taken before the first call of the device.
    pub fn set_alias(
        &mut self,
        conn: ConnId,
        alias: &AliasName,
        object: &Option<ObjectName>,
    ) -> Result<Done, OutOfMemory>
        ensures leads { IfOk result (λ done. (brought : Brought)
            → Leads F.is_honest F.is_steady F.faults F.images
            F.may_leave F.made F.Cell.is_honest F.Cell.is_steady
            F.Cell.faults F.Cell.moment
            F.Cell.left_since F.Cell.may_leave conn brought
            (set_alias alias.now object.now (asked conn brought (rows_of self.old)))
            (rows_of self.old) (rows_of self.new) (disk_of self.old) (disk_of self.new) done) }
        ensures silent { IfOk result (λ done. done.sends ≡ []) }
        ensures room { self.new.connections ≡ self.old.connections }
        ensures unchanged { OnErr result ((rows_of self.new ≡ rows_of self.old)
            × (disk_of self.new ≡ disk_of self.old)) }
    {
        let _ = conn;
        let Some(stem) = self.disk.alias_target(object)? else {
            return Ok(refused(self.alloc, ErrorName::NoSuchObject));
        };
        let name = alias.as_text().copy()?;
        match self.disk.prepare_alias(name, stem)? {
            Some(change) => Ok(self.settle_alias(change)),
            None => Ok(refused(self.alloc, ErrorName::LimitsExceeded)),
        }
    }
}
