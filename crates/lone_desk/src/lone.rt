ghost use Rattle.std.specs.Prelude.{◌≡◌, ◌≢◌, ◌≤◌, ◌+◌, Err, IfOk, IsErrOf};
ghost use Rattle.service_desk.specs.service_events.specs.Step.{step, CanJoin, IsCrowded, Fits};
ghost use Rattle.service_desk.specs.service_tables.specs.Limits.{IsSpent};
ghost use Rattle.service_desk.specs.service_tables.specs.Sound.{IsSound};
ghost use Rattle.service_history.specs.Windows.{total};

use kr_base::ConnId;
use kr_outside::Folder;
use service_desk::secret_calls::{Finished, Refused, Request, Taken, Work};
use service_desk::{Desk, JoinRefused, ReadDesk, WriteDesk};
use service_history::Service;
use service_history::service_machine::{Arrival, BroughtKey, Event};

/// A connection's desk over a service that is its own.
#[derive(Drop)]
pub struct LoneDesk<F: Folder> {
    service: Service<F>,
    conn: ConnId,
}

impl<F: Folder> LoneDesk<F> {
    /// Lets a connection join the service, and returns its desk.
    ///
    /// Refused with `EventsSpent` if all events that can be counted are recorded, then with
    /// `TooManyConnections` if 256 connections are there or no number is left, then with `OutOfMemory`.
    /// The service is dropped then.
    pub fn join(service: Service<F>) -> Result<LoneDesk<F>, JoinRefused>
        ensures joined { IfOk result (λ desk.
            desk.service.history.state ≡ step service.history.state (Event.Connect desk.conn)) }
        ensures fits { IfOk result (λ desk. Fits service.history.state (Event.Connect desk.conn)) }
        ensures sound { IfOk result (λ desk. IsSound desk.service.history.state) }
        ensures disk { IfOk result (λ desk. desk.service.disk ≡ service.disk) }
        ensures count { IfOk result (λ desk.
            total desk.service.history.window ≡ total service.history.window + 1) }
        ensures spent { IsErrOf result JoinRefused.EventsSpent
            → IsSpent (total service.history.window) }
        ensures crowded { IsErrOf result JoinRefused.TooManyConnections
            → IsCrowded service.history.state }
        ensures not_spent { result ≢ Err JoinRefused.EventsSpent
            → ¬ IsSpent (total service.history.window) }
        ensures memory { IsErrOf result JoinRefused.OutOfMemory → CanJoin service.history.state }
    {
        let mut service = service;
        match service.join() {
            Ok(conn) => Ok(LoneDesk { service, conn }),
            Err(refused) => Err(refused),
        }
    }

    /// The service as it is now. It takes no memory.
    pub fn into_service(self) -> Service<F>
        ensures { result ≡ self.service }
    {
        self.service
    }
}

impl<F: Folder> Desk for LoneDesk<F> {
    ghost use Rattle.service_desk.proofs.ViewLemmas.{view-now};
    ghost use Rattle.lone_desk.specs.Lone.{told, has_seen};

    ghost told = { told F.is_steady F.Cell.is_steady };

    ghost has_seen = { has_seen };

    ghost has_view = { λ desk.
        view-now desk.service.history.state (total desk.service.history.window) };

    ghost views_lead = { λ desk view seen. seen };

    fn conn(&self) -> ConnId {
        self.conn
    }
}

impl<F: Folder> ReadDesk for LoneDesk<F> {
    fn arrive(
        &mut self,
        request: Request,
        now: u64,
        salt: [u8; 8],
    ) -> Result<Option<Work>, Refused> {
        let arrival = Arrival {
            conn: self.conn,
            request,
            now,
            salt,
        };
        self.service.arrive(arrival)
    }

    fn derived(&mut self, done: Finished, now: u64) -> Result<(), Refused> {
        let brought = BroughtKey {
            conn: self.conn,
            done,
            now,
        };
        self.service.derived(brought)
    }

    fn leave(&mut self) {
        self.service.leave(self.conn);
    }
}

impl<F: Folder> WriteDesk for LoneDesk<F> {
    fn take(&mut self) -> Taken {
        self.service.take(self.conn)
    }

    fn gone(&mut self) {
        self.service.gone(self.conn);
    }
}
