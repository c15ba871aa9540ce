// The calls of the interface Session.
ghost use Rattle.std.specs.Prelude.{◌≡◌, []};
ghost use Rattle.service_calls.specs.Done.{Leads};
ghost use Rattle.service_calls.specs.Rows.{rows_of, disk_of};
ghost use Rattle.service_events.specs.service_tables.specs.Storing.{Brought};
ghost use Rattle.service_events.specs.Run.{asked};
ghost use Rattle.service_events.specs.SessionCalls.{close_session};

use crate::Tables;
use crate::storing::{Done, refused, unstored};
use kr_base::{ConnId, SessionId};
use kr_outside::Folder;
use service_events::secret_calls::{Body, ErrorName};

impl<F: Folder> Tables<F> {
    /// Performs the row of Close. It takes no memory.
    pub fn close_session(&mut self, conn: ConnId, session: SessionId) -> Done
        ensures leads { (brought : Brought)
            → Leads F.is_honest F.is_steady F.faults F.images
            F.may_leave F.made F.Cell.is_honest F.Cell.is_steady
            F.Cell.faults F.Cell.moment
            F.Cell.left_since F.Cell.may_leave conn brought
            (close_session session (asked conn brought (rows_of self.old)))
            (rows_of self.old) (rows_of self.new) (disk_of self.old) (disk_of self.new) result }
        ensures silent { result.sends ≡ [] }
        ensures room { self.new.connections ≡ self.old.connections }
    {
        match self.sessions.close(session, conn) {
            Ok(()) => unstored(self.alloc, Ok(Body::Empty)),
            Err(_) => refused(self.alloc, ErrorName::NoSession),
        }
    }
}
