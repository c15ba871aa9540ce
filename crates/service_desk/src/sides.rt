ghost use Rattle.std.specs.Prelude.{◌≡◌, IfOk, OnOk, OnErr, IfErr};
ghost use Rattle.service_desk.specs.Places.{place, Looks};
ghost use Rattle.service_desk.specs.Calls.{Arrives, Finishes, IsRefusal, Leaves, Takes, Goes};

use crate::Desk;
use service_events::secret_calls::{Finished, Refused, Request, Taken, Work};

/// The desk of a connection's reader.
pub trait ReadDesk: Desk {
    /// Records a request of the connection, at `now` in seconds since 1970, with random bytes in case a
    /// prompt keeps them for a key, and how each file that it stored or removed ended. Returns the key that
    /// is to be derived and brought by `derived`, if the request is an answer that was taken.
    ///
    /// Refused with `EventsSpent` if all the events that can be counted have been recorded, then with
    /// `Gone` if the connection isn't there, then with `OutOfMemory`.
    fn arrive(&mut self, request: Request, now: u64, salt: [u8; 8]) -> Result<Option<Work>, Refused>
        ensures recorded { IfOk result (Arrives
            (place Self.told Self.has_seen self.old) (place Self.told Self.has_seen self.new)
            (record {
              conn = (Self.told self.old).conn;
              request = request;
              now = now;
              salt = salt;
            })) }
        ensures looked { OnErr result (Looks
            (place Self.told Self.has_seen self.old) (place Self.told Self.has_seen self.new)) }
        ensures cause { IfErr result (λ refused. IsRefusal refused (Self.told self.new)) };

    /// Records a key that was derived for a prompt, at `now` in seconds since 1970, and what became of the
    /// files that it was for. Refused as `arrive` is.
    fn derived(&mut self, done: Finished, now: u64) -> Result<(), Refused>
        ensures recorded { OnOk result (Finishes
            (place Self.told Self.has_seen self.old) (place Self.told Self.has_seen self.new)
            (record { conn = (Self.told self.old).conn; done = done; now = now })) }
        ensures looked { OnErr result (Looks
            (place Self.told Self.has_seen self.old) (place Self.told Self.has_seen self.new)) }
        ensures cause { IfErr result (λ refused. IsRefusal refused (Self.told self.new)) };

    /// The connection sends no more requests: a Leave is recorded if the connection is there and isn't
    /// leaving already. The call takes no memory.
    fn leave(&mut self)
        ensures { Leaves
            (place Self.told Self.has_seen self.old) (place Self.told Self.has_seen self.new) };
}

/// The desk of a connection's writer.
pub trait WriteDesk: Desk {
    /// Returns the outputs that wait for the connection, and records that they were taken. If none
    /// wait: `Overrun` if an output was lost; otherwise `Closed` if the connection is leaving, and it
    /// is gone then; otherwise `Empty`, instead of which some desks wait. `Missing` if the connection
    /// isn't there. The call takes no memory.
    fn take(&mut self) -> Taken
        ensures { Takes
            (place Self.told Self.has_seen self.old) (place Self.told Self.has_seen self.new)
            result };

    /// The connection is gone: a Gone is recorded if it is there. The call takes no memory.
    fn gone(&mut self)
        ensures { Goes
            (place Self.told Self.has_seen self.old) (place Self.told Self.has_seen self.new) };
}
