// The calls of the interface Item.
ghost use Rattle.std.specs.Prelude.{◌≡◌, Some, IfOk};
ghost use Rattle.service_events.specs.ItemCalls.{get_secret};
ghost use Rattle.service_calls.specs.Done.{reads};
ghost use Rattle.service_calls.specs.Rows.{rows_of};
ghost use Rattle.service_events.specs.service_tables.specs.Storing.{Brought};
ghost use Rattle.service_events.specs.Run.{asked, secret_returned};

use crate::Tables;
use crate::answer::Answer;
use kr_base::{ConnId, ItemId, OutOfMemory, SessionId, Stem};
use kr_outside::Folder;
use service_events::secret_calls::{Body, ErrorName, ReturnedSecret};

// The return with a secret.
fn secret_returned(secret: Option<ReturnedSecret>) -> Answer
    ensures { result ≡ secret_returned secret }
{
    match secret {
        Some(secret) => Ok(Body::Secret(secret)),
        None => Err(ErrorName::NoSuchObject),
    }
}

impl<F: Folder> Tables<F> {
    /// Answers GetSecret as its row does, whatever the size of the return.
    pub fn get_secret(
        &self,
        conn: ConnId,
        stem: &Stem,
        item: ItemId,
        session: Option<SessionId>,
    ) -> Result<Answer, OutOfMemory>
        ensures { IfOk result (λ answer. (brought : Brought)
            → reads conn (rows_of self.now)
            (get_secret stem.now item session (asked conn brought (rows_of self.now)))
            ≡ Some answer) }
    {
        if !self.disk.collections.has_item(stem, item) {
            return Ok(Err(ErrorName::NoSuchObject));
        }
        let Some(session) = session else {
            return Ok(Err(ErrorName::NoSession));
        };
        if !self.sessions.owned_by(session, conn) {
            return Ok(Err(ErrorName::NoSession));
        }
        if !self.disk.collections.is_open(stem) {
            return Ok(Err(ErrorName::IsLocked));
        }
        let secret = self.disk.secret_of(session, stem, item)?;
        Ok(secret_returned(secret))
    }
}
