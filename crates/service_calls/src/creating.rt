// The call CreateCollection of the interface Service.
ghost use Rattle.std.specs.Prelude.{◌≡◌, [], IfOk, OnErr};
ghost use Rattle.std.specs.Option.{option_and_then, option_copied, option_map_or};
ghost use Rattle.kr_base.specs.declared.ids.ConnId.{ConnId};
ghost use Rattle.service_calls.specs.Rows.{disk_of, rows_of};
ghost use Rattle.service_events.specs.Run.{asked};
ghost use Rattle.service_events.specs.ServiceCalls.{create_collection, creating};
ghost use Rattle.service_calls.specs.Done.{HasRoomToReply, Leads};
ghost use Rattle.service_events.specs.service_tables.specs.Connections.{HasRoom};
ghost use Rattle.service_events.specs.service_tables.specs.Opened.{contents_of};
ghost use Rattle.service_events.specs.service_tables.specs.TablesReading.{asked_collections};
ghost use Rattle.service_events.specs.service_tables.specs.Storing.{Brought};

use crate::Tables;
use crate::storing::{Done, refused};
use kr_base::{ConnId, OutOfMemory, Stem, Text};
use kr_names::{ObjectName, path_of};
use kr_outside::Folder;
use prompt_state::PromptKind;
use service_events::folder_store::LIMITS;
use service_events::secret_calls::{AliasName, Body, ErrorName, no_label};
use service_events::service_tables::collection_path;

impl<F: Folder> Tables<F> {
    // The collection that an alias stands for, if one is given and it is there.
    fn stem_of(&self, alias: &Option<AliasName>) -> Option<&Stem>
        ensures { option_copied result ≡ option_and_then
            (asked_collections (contents_of (rows_of self.now))).alias alias.now }
    {
        match alias {
            Some(alias) => self.disk.alias_of(alias.as_text()),
            None => None,
        }
    }

    // The alias as a text, which is empty if none is given.
    fn alias_text(&self, alias: &Option<AliasName>) -> Result<Text, OutOfMemory>
        ensures { IfOk result (λ text. text ≡ option_map_or (λ name. name) alias.now []) }
    {
        match alias {
            Some(alias) => alias.as_text().copy(),
            None => Ok(no_label(self.alloc)),
        }
    }

    // Begins a prompt that creates a collection.
    fn begin_creating(
        &mut self,
        conn: ConnId,
        label: &Text,
        alias: &Option<AliasName>,
        salt: [u8; 8],
    ) -> Result<Done, OutOfMemory>
        requires { HasRoom 1 conn self.old.connections.rooms }
        ensures leads { IfOk result (λ done. (brought : Brought)
            → Leads F.is_honest F.is_steady F.faults F.images
            F.may_leave F.made F.Cell.is_honest F.Cell.is_steady
            F.Cell.faults F.Cell.moment
            F.Cell.left_since F.Cell.may_leave conn brought
            (creating label.now alias.now salt (asked conn brought (rows_of self.old)))
            (rows_of self.old) (rows_of self.new) (disk_of self.old) (disk_of self.new) done) }
        ensures room { IfOk result (λ done.
            HasRoomToReply conn done.sends self.new.connections.rooms) }
        ensures unchanged { OnErr result ((rows_of self.new ≡ rows_of self.old)
            × (disk_of self.new ≡ disk_of self.old)) }
    {
        if self.disk.count() >= LIMITS.collections {
            return Ok(refused(self.alloc, ErrorName::LimitsExceeded));
        }
        let kind = PromptKind::Create {
            label: label.copy()?,
            alias: self.alias_text(alias)?,
            salt,
        };
        let body = Body::ObjectAndPrompt {
            object: path_of(self.alloc, &ObjectName::Nothing)?,
            prompt: Some(self.prompts.next()),
        };
        self.begin(conn, true, body, kind)
    }

    /// Performs the row of CreateCollection. All memory is taken before a prompt begins.
    pub fn create_collection(
        &mut self,
        conn: ConnId,
        label: &Text,
        alias: &Option<AliasName>,
        salt: [u8; 8],
    ) -> Result<Done, OutOfMemory>
        requires { HasRoom 1 conn self.old.connections.rooms }
        ensures leads { IfOk result (λ done. (brought : Brought)
            → Leads F.is_honest F.is_steady F.faults F.images
            F.may_leave F.made F.Cell.is_honest F.Cell.is_steady
            F.Cell.faults F.Cell.moment
            F.Cell.left_since F.Cell.may_leave conn brought
            (create_collection label.now alias.now salt (asked conn brought (rows_of self.old)))
            (rows_of self.old) (rows_of self.new) (disk_of self.old) (disk_of self.new) done) }
        ensures room { IfOk result (λ done.
            HasRoomToReply conn done.sends self.new.connections.rooms) }
        ensures unchanged { OnErr result ((rows_of self.new ≡ rows_of self.old)
            × (disk_of self.new ≡ disk_of self.old)) }
    {
        let Some(stem) = self.stem_of(alias) else {
            return self.begin_creating(conn, label, alias, salt);
        };
        let body = Body::ObjectAndPrompt {
            object: collection_path(self.alloc, stem)?,
            prompt: None,
        };
        Ok(self.answered(Ok(body)))
    }
}
