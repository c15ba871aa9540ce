// The call of our own interface of collections.
ghost use Rattle.std.specs.Prelude.{◌≡◌, IfOk, OnErr};
ghost use Rattle.kr_base.specs.declared.ids.ConnId.{ConnId};
ghost use Rattle.kr_names.specs.Path.{path_text};
ghost use Rattle.kr_names.specs.declared.object_name.ObjectName.TheVariants as object;
ghost use Rattle.service_calls.specs.Done.{HasRoomToReply, Leads};
ghost use Rattle.service_calls.specs.Rows.{disk_of, rows_of};
ghost use Rattle.service_events.specs.KeyringCalls.{change_password};
ghost use Rattle.service_events.specs.Run.{asked};
ghost use Rattle.service_events.specs.service_tables.specs.Connections.{HasRoom};
ghost use Rattle.service_events.specs.service_tables.specs.Storing.{Brought};

use crate::Tables;
use crate::storing::{Done, refused};
use kr_base::{ConnId, OutOfMemory, Text};
use kr_names::{ObjectName, path_of};
use kr_outside::Folder;
use prompt_state::{PromptKind, PromptState};
use service_events::secret_calls::{Body, ErrorName};
use std::alloc::Global;

// The path of the prompt that begins next.
fn next_path(alloc: Global, prompts: &PromptState) -> Result<Text, OutOfMemory>
    ensures { IfOk result (λ path. path
        ≡ path_text (object.Prompt (record { 0 = prompts.now.next }))) }
{
    let prompt = prompts.next();
    // Shows that the number isn't 0, so that there is such a path.
    let _row = prompts.row(prompt);
    path_of(alloc, &ObjectName::Prompt(prompt))
}

impl<F: Folder> Tables<F> {
    /// Performs the row of ChangePassword. All memory is taken before a prompt begins.
    pub fn change_password(
        &mut self,
        conn: ConnId,
        collection: &ObjectName,
        salt: [u8; 8],
    ) -> Result<Done, OutOfMemory>
        requires { HasRoom 1 conn self.old.connections.rooms }
        ensures leads { IfOk result (λ done. (brought : Brought)
            → Leads F.is_honest F.is_steady F.faults F.images
            F.may_leave F.made F.Cell.is_honest F.Cell.is_steady
            F.Cell.faults F.Cell.moment
            F.Cell.left_since F.Cell.may_leave conn brought
            (change_password collection.now salt (asked conn brought (rows_of self.old)))
            (rows_of self.old) (rows_of self.new) (disk_of self.old) (disk_of self.new) done) }
        ensures room { IfOk result (λ done.
            HasRoomToReply conn done.sends self.new.connections.rooms) }
        ensures unchanged { OnErr result ((rows_of self.new ≡ rows_of self.old)
            × (disk_of self.new ≡ disk_of self.old)) }
    {
        let Some(stem) = self.disk.collection_named(collection) else {
            return Ok(refused(self.alloc, ErrorName::NoSuchObject));
        };
        let stem = stem.copy()?;
        if !self.disk.collections.is_open(&stem) {
            return Ok(refused(self.alloc, ErrorName::IsLocked));
        }
        let body = Body::Object(next_path(self.alloc, &self.prompts)?);
        self.begin(conn, true, body, PromptKind::Change { stem, salt })
    }
}
