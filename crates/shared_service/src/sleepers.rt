// The writers that sleep until something waits for their connections.
ghost use Rattle.std.specs.Prelude.{◌≡◌, ◌≢◌, ◌==◌, ◌<◌, [], false, true, IfOk, IfNone, IfSome, vec_len};
ghost use Rattle.std.specs.List.{position};
ghost use Rattle.kr_base.specs.declared.ids.ConnId.{ConnId};
ghost use Rattle.service_desk.specs.service_tables.specs.State.{State};
ghost use Rattle.shared_service.specs.Sleepers.{has_work, AreAtRest, HasWorkAt, IsWatched, call_of};

use kr_base::{ConnId, OutOfMemory};
use kr_outside::Folder;
use service_desk::secret_calls::Taken;
use service_history::Service;
use std::alloc::Global;

/// For how many connections there is room at first.
const ROOM: usize = 256;

/// What a call with the turn was.
#[derive(Clone, Copy)]
pub enum Call {
    /// It may have recorded an event that tells any connection something.
    Tells,
    /// It took what waits, or found that nothing will.
    Takes,
    /// It found that nothing waits yet: its thread is going to sleep.
    Sleeps,
}

/// What a call of `take` was that returned this.
pub fn call_of(taken: &Taken) -> Call
    ensures { result ≡ call_of taken.now }
{
    match taken {
        Taken::Outs(_) | Taken::Overrun | Taken::Missing => Call::Takes,
        Taken::Closed => Call::Tells,
        Taken::Empty => Call::Sleeps,
    }
}

/// The connections whose writers sleep, the one that has slept longest first.
#[derive(Drop)]
pub struct Sleepers {
    conns: Vec<ConnId>,
    // Something may wait for one of them.
    due: bool,
    // One that isn't in the list any more, and wakes the next at the end of its turn.
    coming: Option<ConnId>,
}

// Whether a take of the connection would return something: outputs, or why there are none.
fn has_work<F: Folder>(service: &Service<F>, conn: ConnId) -> bool
    ensures { result ≡ has_work service.now.history.state conn }
{
    match service.desk(conn) {
        Some(desk) => desk.waits || desk.overrun || desk.leaving,
        None => true,
    }
}

// The place of the first connection for which a take would return something.
fn first_place<F: Folder>(service: &Service<F>, conns: &[ConnId]) -> Option<usize>
    ensures { result ≡ position (has_work service.now.history.state) conns.now }
{
    conns.iter().position(|conn| has_work(service, *conn))
}

// The place of the first connection for which something waits.
#[tactic(auto, using(crate::proofs::Rest::rest_none, crate::proofs::Rest::work_first))]
fn place_with_work<F: Folder>(service: &Service<F>, conns: &[ConnId]) -> Option<usize>
    ensures work { IfSome result (HasWorkAt service.now.history.state conns.now) }
    ensures rest { IfNone result (AreAtRest service.now.history.state conns.now) }
{
    first_place(service, conns)
}

// The place of the connection.
fn place_of(conns: &[ConnId], conn: ConnId) -> Option<usize>
    ensures { result ≡ position (λ (other : ConnId). other.0 == conn.0) conns.now }
{
    conns.iter().position(|other| other.0 == conn.0)
}

// The place of the connection, if something waits for it.
fn own_place<F: Folder>(service: &Service<F>, conns: &[ConnId], conn: ConnId) -> Option<usize>
    ensures { IfSome result (HasWorkAt service.now.history.state conns.now) }
{
    if has_work(service, conn) {
        if let Some(k) = place_of(conns, conn) {
            return Some(k);
        }
    }
    None
}

impl Sleepers {
    /// No writer sleeps.
    pub fn new(alloc: Global) -> Result<Sleepers, OutOfMemory>
        ensures { IfOk result (λ sleepers. sleepers.conns.items ≡ []) }
    {
        Ok(Sleepers {
            conns: Vec::with_capacity(alloc, ROOM)?,
            due: false,
            coming: None,
        })
    }

    // Takes the connection at a place out of the list.
    #[tactic(auto, using(crate::proofs::Rest::work_at, crate::proofs::Rest::watched_remove))]
    fn take_out(&mut self, place: usize) -> ConnId
        requires { place < vec_len self.old.conns }
        ensures work { (state : State) → HasWorkAt state self.old.conns.items place
            → has_work state result ≡ true }
        ensures watched { (state : State) → IsWatched state self.old.conns.items self.old.due
            → IsWatched state self.new.conns.items self.new.due }
        ensures due { self.new.due ≡ self.old.due }
    {
        self.conns.remove(place)
    }

    // The writer of the connection is awake, and has its turn.
    #[tactic(auto, using(crate::proofs::Rest::watched_remove))]
    fn remove(&mut self, conn: ConnId)
        ensures { (state : State) → IsWatched state self.old.conns.items self.old.due
            → IsWatched state self.new.conns.items self.new.due }
    {
        if let Some(coming) = self.coming {
            if coming.0 == conn.0 {
                self.coming = None;
            }
        }
        if let Some(k) = place_of(self.conns.as_slice(), conn) {
            self.conns.remove(k);
        }
    }

    // The writer of the connection sleeps. Returns whether it is in the list, which it isn't if no memory was left.
    #[tactic(auto, using(crate::proofs::Rest::watched_push))]
    fn add(&mut self, conn: ConnId) -> bool
        ensures { (state : State) → has_work state conn ≡ false
            → IsWatched state self.old.conns.items self.old.due
            → IsWatched state self.new.conns.items self.new.due }
    {
        self.conns.push(conn).is_ok()
    }

    // Returns the first writer for which something waits, unless one is coming already. It is in the list no more.
    fn first<F: Folder>(&mut self, service: &Service<F>) -> Option<ConnId>
        requires watched { IsWatched service.now.history.state self.old.conns.items self.old.due }
        ensures watched { IsWatched service.now.history.state self.new.conns.items self.new.due }
        ensures work { IfSome result (λ conn. has_work service.now.history.state conn ≡ true) }
        ensures rest { IfNone result (IfNone self.new.coming
            (AreAtRest service.now.history.state self.new.conns.items)) }
    {
        if self.coming.is_some() {
            return None;
        }
        let Some(k) = place_with_work(service, self.conns.as_slice()) else {
            self.due = false;
            return None;
        };
        let conn = self.take_out(k);
        self.coming = Some(conn);
        Some(conn)
    }

    // Returns the writer that is to be woken, which isn't in the list any more: that of the caller, if something
    // waits for it; otherwise the first for which something waits, unless one is coming already.
    fn next<F: Folder>(&mut self, service: &Service<F>, caller: ConnId) -> Option<ConnId>
        requires watched { IsWatched service.now.history.state self.old.conns.items self.old.due }
        ensures watched { IsWatched service.now.history.state self.new.conns.items self.new.due }
        ensures work { IfSome result (λ conn. has_work service.now.history.state conn ≡ true) }
        ensures rest { IfNone result (IfNone self.new.coming
            (AreAtRest service.now.history.state self.new.conns.items)) }
    {
        if !self.due {
            return None;
        }
        if let Some(k) = own_place(service, self.conns.as_slice(), caller) {
            return Some(self.take_out(k));
        }
        self.first(service)
    }

    // Ends a call by which something may wait for any of them.
    #[tactic(auto, using(crate::proofs::Rest::watched_due))]
    fn told<F: Folder>(&mut self, service: &Service<F>, conn: ConnId) -> Option<ConnId>
        ensures watched { IsWatched service.now.history.state self.new.conns.items self.new.due }
        ensures rest { IfNone result (IfNone self.new.coming
            (AreAtRest service.now.history.state self.new.conns.items)) }
    {
        self.due = true;
        self.next(service, conn)
    }

    // Ends a take that returned something.
    fn took<F: Folder>(&mut self, service: &Service<F>, conn: ConnId) -> Option<ConnId>
        requires watched { IsWatched service.now.history.state self.old.conns.items self.old.due }
        ensures watched { IsWatched service.now.history.state self.new.conns.items self.new.due }
        ensures rest { IfNone result (IfNone self.new.coming
            (AreAtRest service.now.history.state self.new.conns.items)) }
    {
        self.remove(conn);
        self.next(service, conn)
    }

    // Ends a take whose thread is going to sleep.
    fn slept<F: Folder>(&mut self, service: &Service<F>, conn: ConnId) -> Option<ConnId>
        requires watched { IsWatched service.now.history.state self.old.conns.items self.old.due }
        requires sleeps { has_work service.now.history.state conn ≡ false }
        ensures watched { IsWatched service.now.history.state self.new.conns.items self.new.due }
        ensures rest { IfNone result (IfNone self.new.coming
            (AreAtRest service.now.history.state self.new.conns.items)) }
    {
        self.remove(conn);
        if !self.add(conn) {
            return Some(conn);
        }
        self.next(service, conn)
    }

    /// Ends a call of the connection, and returns the writer that is to be woken: that of the connection, if it
    /// sleeps and something waits for it; otherwise the one that has slept longest of those for which something
    /// waits, unless one that was woken so hasn't had its turn yet. A writer that is going to sleep is in the list
    /// then, or is to be woken itself, since no memory was left.
    pub fn end<F: Folder>(
        &mut self,
        service: &Service<F>,
        conn: ConnId,
        call: Call,
    ) -> Option<ConnId>
        requires watched { call ≢ Call.Tells
            → IsWatched service.now.history.state self.old.conns.items self.old.due }
        requires sleeps { call ≡ Call.Sleeps → has_work service.now.history.state conn ≡ false }
        ensures watched { IsWatched service.now.history.state self.new.conns.items self.new.due }
        ensures rest { IfNone result (IfNone self.new.coming
            (AreAtRest service.now.history.state self.new.conns.items)) }
    {
        match call {
            Call::Tells => self.told(service, conn),
            Call::Takes => self.took(service, conn),
            Call::Sleeps => self.slept(service, conn),
        }
    }
}
