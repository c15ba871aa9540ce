// The calls of the interface Service.
ghost use Rattle.std.specs.Prelude.{◌≡◌, [], Some, IfOk, OnErr};
ghost use Rattle.service_calls.specs.Done.{HasRoomToReply, Leads, reads};
ghost use Rattle.service_events.specs.service_tables.specs.Connections.{HasRoom};
ghost use Rattle.service_calls.specs.Rows.{rows_of, disk_of};
ghost use Rattle.service_events.specs.service_tables.specs.Storing.{Brought};
ghost use Rattle.service_events.specs.Run.{asked};
ghost use Rattle.service_events.specs.ServiceCalls.{is_plain, open_session, search_items, lock, get_secrets};

use crate::Tables;
use crate::announcing::in_order;
use crate::answer::Answer;
use crate::effect::Effect;
use crate::storing::{Done, refused, unstored};
use kr_base::{Attributes, ConnId, OutOfMemory, SessionId, Text};
use kr_items::Items;
use kr_names::ObjectName;
use kr_outside::Folder;
use service_events::secret_calls::{Body, ErrorName};
use service_events::service_tables::{locked_paths, unlocked_paths};
use session_table::SessionRefused;
use std::alloc::AllocError;

// Whether the algorithm needs no encryption.
fn is_plain(algorithm: &Text) -> bool
    ensures { result ≡ is_plain algorithm.now }
{
    algorithm.as_bytes() == b"plain".as_slice()
}

impl<F: Folder> Tables<F> {
    /// Performs the row of OpenSession.
    pub fn open_session(&mut self, conn: ConnId, algorithm: &Text) -> Result<Done, OutOfMemory>
        ensures leads { IfOk result (λ done. (brought : Brought)
            → Leads F.is_honest F.is_steady F.faults F.images
            F.may_leave F.made F.Cell.is_honest F.Cell.is_steady
            F.Cell.faults F.Cell.moment
            F.Cell.left_since F.Cell.may_leave conn brought
            (open_session algorithm.now (asked conn brought (rows_of self.old)))
            (rows_of self.old) (rows_of self.new) (disk_of self.old) (disk_of self.new) done) }
        ensures silent { IfOk result (λ done. done.sends ≡ []) }
        ensures room { self.new.connections ≡ self.old.connections }
        ensures unchanged { OnErr result ((rows_of self.new ≡ rows_of self.old)
            × (disk_of self.new ≡ disk_of self.old)) }
    {
        if !is_plain(algorithm) {
            return Ok(refused(self.alloc, ErrorName::NotSupported));
        }
        match self.sessions.open(conn) {
            Ok(session) => Ok(unstored(self.alloc, Ok(Body::Session(session)))),
            Err(SessionRefused::OutOfMemory) => Err(AllocError),
            Err(_) => Ok(refused(self.alloc, ErrorName::LimitsExceeded)),
        }
    }

    /// Answers SearchItems as its row does, whatever the size of the return.
    pub fn search_items(&self, conn: ConnId, wanted: &Attributes) -> Result<Answer, OutOfMemory>
        ensures { IfOk result (λ answer. (brought : Brought)
            → reads conn (rows_of self.now)
            (search_items wanted.now (asked conn brought (rows_of self.now))) ≡ Some answer) }
    {
        let _ = conn;
        let found = self.disk.collections.search(wanted)?;
        let unlocked = unlocked_paths(self.alloc, &found)?;
        let locked = locked_paths(self.alloc, &found)?;
        Ok(Ok(Body::Found {
            unlocked: Items::new(unlocked),
            locked: Items::new(locked),
        }))
    }

    /// Performs the row of Lock. All memory is taken before a collection is locked.
    pub fn lock(&mut self, conn: ConnId, objects: &[ObjectName]) -> Result<Done, OutOfMemory>
        requires { HasRoom 1 conn self.old.connections.rooms }
        ensures leads { IfOk result (λ done. (brought : Brought)
            → Leads F.is_honest F.is_steady F.faults F.images
            F.may_leave F.made F.Cell.is_honest F.Cell.is_steady
            F.Cell.faults F.Cell.moment
            F.Cell.left_since F.Cell.may_leave conn brought
            (lock objects.now (asked conn brought (rows_of self.old)))
            (rows_of self.old) (rows_of self.new) (disk_of self.old) (disk_of self.new) done) }
        ensures room { IfOk result (λ done.
            HasRoomToReply conn done.sends self.new.connections.rooms) }
        ensures unchanged { OnErr result ((rows_of self.new ≡ rows_of self.old)
            × (disk_of self.new ≡ disk_of self.old)) }
    {
        let around = self.disk.collections_around(self.alloc, objects)?;
        let stems = in_order(self.alloc, &around)?;
        let paths = self.disk.those_there(self.alloc, objects)?;
        let body = Body::ObjectsAndPrompt {
            objects: Items::new(paths),
            prompt: None,
        };
        self.perform_if_small(conn, body, Effect::Lock(stems))
    }

    /// Answers GetSecrets as its row does, whatever the size of the return.
    pub fn get_secrets(
        &self,
        conn: ConnId,
        items: &[ObjectName],
        session: Option<SessionId>,
    ) -> Result<Answer, OutOfMemory>
        ensures { IfOk result (λ answer. (brought : Brought)
            → reads conn (rows_of self.now)
            (get_secrets items.now session (asked conn brought (rows_of self.now))) ≡ Some answer) }
    {
        let Some(session) = session else {
            return Ok(Err(ErrorName::NoSession));
        };
        if !self.sessions.owned_by(session, conn) {
            return Ok(Err(ErrorName::NoSession));
        }
        let open = self.disk.open_items(self.alloc, items)?;
        let secrets = self.disk.secrets(self.alloc, session, &open)?;
        Ok(Ok(Body::Secrets(Items::new(secrets))))
    }
}
