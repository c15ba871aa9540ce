// The answers of calls, and the limit on what a return may have.
ghost use Rattle.std.specs.Prelude.{◌≡◌, [], Some};
ghost use Rattle.kr_base.specs.declared.ids.ConnId.{ConnId};
ghost use Rattle.service_calls.specs.Done.{Leads, reads};
ghost use Rattle.service_calls.specs.Rows.{disk_of, rows_of};
ghost use Rattle.service_events.specs.Plan.{Plan};
ghost use Rattle.service_events.specs.Run.{bounded, is_small};
ghost use Rattle.service_events.specs.service_tables.specs.Storing.{Brought};

use crate::Tables;
use crate::storing::{Done, unstored};
use kr_outside::Folder;
use service_events::secret_calls::{Body, ErrorName, body_size};

/// The most bytes that the body of a return may have.
const MOST_BODY: u64 = 8_388_608;

/// The answer to a call: the values of a return, or the name of an error.
pub type Answer = Result<Body, ErrorName>;

// Whether a body is small enough to be returned.
fn is_small(body: &Body) -> bool
    ensures { result ≡ is_small body.now }
{
    body_size(body) <= MOST_BODY
}

/// The answer of a call, or LimitsExceeded if the return is too large. The size of a return is tested here
/// alone.
pub fn bounded(answer: Answer) -> Answer
    ensures { result ≡ bounded answer }
{
    match answer {
        Ok(body) => {
            if is_small(&body) {
                return Ok(body);
            }
            Err(ErrorName::LimitsExceeded)
        }
        Err(name) => Err(name),
    }
}

impl<F: Folder> Tables<F> {
    /// What a call led to that changes nothing and asks for nothing: this answer, or LimitsExceeded if the
    /// return is too large.
    pub fn answered(&self, answer: Answer) -> Done
        ensures leads { (conn : ConnId) (brought : Brought) (plan : Plan)
            → reads conn (rows_of self.now) plan ≡ Some answer
            → Leads F.is_honest F.is_steady F.faults F.images
            F.may_leave F.made F.Cell.is_honest F.Cell.is_steady
            F.Cell.faults F.Cell.moment
            F.Cell.left_since F.Cell.may_leave conn brought plan
            (rows_of self.now) (rows_of self.now) (disk_of self.now) (disk_of self.now) result }
        ensures silent { result.sends ≡ [] }
    {
        unstored(self.alloc, bounded(answer))
    }
}
