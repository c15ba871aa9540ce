// The call Unlock of the interface Service.
ghost use Rattle.std.specs.Prelude.{◌≡◌, IfOk, OnErr};
ghost use Rattle.service_calls.specs.Rows.{disk_of, rows_of};
ghost use Rattle.service_events.specs.Run.{asked};
ghost use Rattle.service_events.specs.ServiceCalls.{unlock};
ghost use Rattle.service_calls.specs.Done.{HasRoomToReply, Leads};
ghost use Rattle.service_events.specs.service_tables.specs.Connections.{HasRoom};
ghost use Rattle.service_events.specs.service_tables.specs.Storing.{Brought};

use crate::Tables;
use crate::prompt::are_none;
use crate::storing::Done;
use kr_base::{ConnId, OutOfMemory};
use kr_items::Items;
use kr_names::ObjectName;
use kr_outside::Folder;
use prompt_state::{PromptKind, Targets};
use service_events::secret_calls::Body;
use service_events::service_prompts::{are_light, targets_of, unlocked_there};

impl<F: Folder> Tables<F> {
    /// Performs the row of Unlock. All memory is taken before a prompt begins.
    pub fn unlock(&mut self, conn: ConnId, objects: &[ObjectName]) -> Result<Done, OutOfMemory>
        requires { HasRoom 1 conn self.old.connections.rooms }
        ensures leads { IfOk result (λ done. (brought : Brought)
            → Leads F.is_honest F.is_steady F.faults F.images
            F.may_leave F.made F.Cell.is_honest F.Cell.is_steady
            F.Cell.faults F.Cell.moment
            F.Cell.left_since F.Cell.may_leave conn brought
            (unlock objects.now (asked conn brought (rows_of self.old)))
            (rows_of self.old) (rows_of self.new) (disk_of self.old) (disk_of self.new) done) }
        ensures room { IfOk result (λ done.
            HasRoomToReply conn done.sends self.new.connections.rooms) }
        ensures unchanged { OnErr result ((rows_of self.new ≡ rows_of self.old)
            × (disk_of self.new ≡ disk_of self.old)) }
    {
        let paths = unlocked_there(self.alloc, &self.disk, objects)?;
        let targets = targets_of(self.alloc, &self.disk, objects)?;
        if are_none(&targets) {
            return Ok(self.answered(Ok(Body::ObjectsAndPrompt {
                objects: Items::new(paths),
                prompt: None,
            })));
        }
        let fits = are_light(&targets);
        let body = Body::ObjectsAndPrompt {
            objects: Items::new(paths),
            prompt: Some(self.prompts.next()),
        };
        self.begin(conn, fits, body, PromptKind::Unlock(Targets::new(targets)))
    }
}
