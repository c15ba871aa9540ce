ghost use Rattle.std.specs.Prelude.{◌≡◌, ◌≢◌, ◌+◌, ◌∷◌, [], false, true, IfOk, OnOk, OnErr, IfErr};
ghost use Rattle.service_desk.specs.service_events.specs.declared.event.Event.{Event};
ghost use Rattle.service_desk.specs.service_events.specs.declared.event.Event.TheVariants as event;
ghost use Rattle.service_desk.specs.service_events.specs.Fates.{is_steady};
ghost use Rattle.service_history.specs.History.{IsHistory};
ghost use Rattle.service_history.specs.Windows.{total};
ghost use Rattle.service_desk.specs.service_events.specs.declared.event.Output.TheVariants as output;
ghost use Rattle.service_desk.specs.Places.{Looks, Extends};
ghost use Rattle.service_desk.specs.Calls.{Arrives, Finishes, IsRefusal, Leaves, Takes, Goes};
ghost use Rattle.shared_turn.specs.Shares.{whole, IsFirst};
ghost use Rattle.shared_turn.specs.Passes.{outside, recorded};
ghost use Rattle.shared_service.specs.Sleepers.{has_work, IsWatched};
ghost use Rattle.shared_service.specs.Standing.{newest};
ghost use Rattle.shared_service.specs.Ends.{IsEnd, IsAsSteady};
ghost use Rattle.shared_service.specs.Passes.{opened, noted, left_by, giving, spot, told, IsRefused, IsGathered};
ghost use Rattle.shared_service.specs.Tries.{Tries, IsClosed, IsWhole};

use crate::bells::Bells;
use crate::kept::Kept;
use crate::pass::Pass;
use crate::sleepers::{Call, Sleepers, call_of};
use kr_base::{ConnId, OutOfMemory};
use kr_outside::Folder;
use service_desk::secret_calls::{Finished, Refused, Request, Taken, Work};
use service_history::Service;
use service_history::service_machine::{Arrival, BroughtKey, JoinRefused};
use shared_turn::Turn;
use std::alloc::{AllocError, Global};
use std::marker::Model;
use std::sync::Wait;

/// No connection has this number.
const NOBODY: ConnId = ConnId(0);

/// What threads share: the turn to use the service, and the bells that writers sleep on.
#[derive(Drop)]
pub(crate) struct Shared<F: Folder> {
    turn: Turn<Kept<F>>,
    bells: Bells,
}

/// A service that threads share. A contract sees which one it is.
#[derive(Drop)]
pub struct SharedService<F: Folder> {
    shared: Shared<F>,
}

impl<F: Folder> Model for SharedService<F> {
    ghost use Rattle.atomic_table.specs.Seated.{TableId};

    ghost Value = { TableId };

    ghost view = { λ it. it.shared.turn };
}

// How many events the run of a service has had.
fn total_of<F: Folder>(service: &Service<F>) -> u64
    ensures count { result ≡ total service.now.history.window }
    ensures history { IsHistory service.now.history }
{
    service.era() + service.events().len() as u64
}

// How many events the run has had.
fn total<F: Folder>(kept: &Kept<F>) -> u64
    ensures count { result ≡ total kept.now.service.value.history.window }
    ensures history { IsHistory kept.now.service.value.history }
{
    total_of(&kept.service)
}

// Moves a service into a box; it is dropped if no memory is left.
fn boxed<F: Folder>(alloc: Global, service: Service<F>) -> Result<Box<Service<F>>, OutOfMemory>
    ensures { IfOk result (λ made. made.value ≡ service) }
{
    match Box::new(alloc, service) {
        Ok(made) => Ok(made),
        Err(_) => Err(AllocError),
    }
}

// No writer sleeps.
fn no_sleepers(alloc: Global) -> Result<Box<Sleepers>, OutOfMemory>
    ensures { IfOk result (λ made. made.value.conns.items ≡ []) }
{
    let sleepers = Sleepers::new(alloc)?;
    match Box::new(alloc, sleepers) {
        Ok(made) => Ok(made),
        Err(_) => Err(AllocError),
    }
}

impl<F: Folder> SharedService<F> {
    /// Shares a service among threads, and returns the first pass, which has seen the stored events; they are
    /// its own.
    ///
    /// Refused with `OutOfMemory` if no memory was left; the service is dropped then.
    pub fn open(
        alloc: Global,
        service: Service<F>,
    ) -> Result<(SharedService<F>, Pass<F>), OutOfMemory>
        ensures { IfOk result (λ both. both.1 ≡ opened both.0
            (is_steady F.is_steady F.Cell.is_steady service.disk) service.history.window) }
    {
        let bells = Bells::new(alloc)?;
        let service = boxed(alloc, service)?;
        let sleepers = no_sleepers(alloc)?;
        let kept = Kept { service, sleepers };
        let count = total(&kept);
        let (turn, inner) = Turn::open(alloc, kept, count)?;
        let shared = Shared { turn, bells };
        Ok((SharedService { shared }, Pass { inner }))
    }

    // Passes the turn on after a call that recorded one event or none; the number of events says which.
    fn pass_on(&self, inner: &mut shared_turn::Pass<Kept<F>>, kept: Kept<F>, count: u64)
        requires table { inner.old.table ≡ self.now }
        requires inside { inner.old.has_turn ≡ true }
        requires ended { IsEnd kept.service.value.history count inner.old }
        requires steady { IsAsSteady (is_steady F.is_steady F.Cell.is_steady
            kept.service.value.disk) inner.old }
        requires watched { IsWatched kept.service.value.history.state
            kept.sleepers.value.conns.items kept.sleepers.value.due }
        ensures same { total kept.service.value.history.window ≡ count
            → inner.new ≡ outside inner.old }
        ensures recorded { (event : Event) → (total kept.service.value.history.window ≡ count → ⊥)
            → newest kept.service.value.history.window.events ≡ event ∷ []
            → inner.new ≡ recorded event inner.old }
    {
        if total(&kept) == count {
            self.shared.turn.give_back(inner, kept);
        } else {
            self.shared.turn.record(inner, kept);
        }
    }

    // Passes the turn on after a call of a connection, and then rings for one writer that sleeps and for which
    // something waits, the connection's own first.
    fn end(
        &self,
        inner: &mut shared_turn::Pass<Kept<F>>,
        kept: Kept<F>,
        count: u64,
        conn: ConnId,
        call: Call,
    )
        requires table { inner.old.table ≡ self.now }
        requires inside { inner.old.has_turn ≡ true }
        requires ended { IsEnd kept.service.value.history count inner.old }
        requires steady { IsAsSteady (is_steady F.is_steady F.Cell.is_steady
            kept.service.value.disk) inner.old }
        requires watched { call ≢ Call.Tells → IsWatched kept.service.value.history.state
            kept.sleepers.value.conns.items kept.sleepers.value.due }
        requires sleeps { call ≡ Call.Sleeps
            → has_work kept.service.value.history.state conn ≡ false }
        ensures same { total kept.service.value.history.window ≡ count
            → inner.new ≡ outside inner.old }
        ensures recorded { (event : Event) → (total kept.service.value.history.window ≡ count → ⊥)
            → newest kept.service.value.history.window.events ≡ event ∷ []
            → inner.new ≡ recorded event inner.old }
    {
        let Kept {
            service,
            mut sleepers,
        } = kept;
        let called = sleepers.end(&service, conn, call);
        self.pass_on(inner, Kept { service, sleepers }, count);
        if let Some(called) = called {
            self.shared.bells.ring(called);
        }
    }

    /// Waits for the turn, and records that the connection asks no more, if it is there and isn't leaving
    /// already.
    pub fn leave<R: Wait>(&self, rt: &R, pass: &mut Pass<F>, conn: ConnId)
        requires table { pass.old.home.table ≡ self.now }
        ensures same { pass.new.home ≡ pass.old.home }
        ensures steady { pass.new.steady ≡ pass.old.steady }
        ensures left { Leaves (spot conn pass.old.home pass.old.steady pass.old.view)
            (spot conn pass.old.home pass.old.steady pass.new.view) }
    {
        let mut kept = self.shared.turn.enter(rt, &mut pass.inner);
        let count = total(&kept);
        kept.service.leave(conn);
        self.end(&mut pass.inner, kept, count, conn, Call::Tells);
    }

    /// Waits for the turn, and records that the connection is gone, if it is there.
    pub fn gone<R: Wait>(&self, rt: &R, pass: &mut Pass<F>, conn: ConnId)
        requires table { pass.old.home.table ≡ self.now }
        ensures same { pass.new.home ≡ pass.old.home }
        ensures steady { pass.new.steady ≡ pass.old.steady }
        ensures gone { Goes (spot conn pass.old.home pass.old.steady pass.old.view)
            (spot conn pass.old.home pass.old.steady pass.new.view) }
    {
        let mut kept = self.shared.turn.enter(rt, &mut pass.inner);
        let count = total(&kept);
        kept.service.gone(conn);
        self.end(&mut pass.inner, kept, count, conn, Call::Tells);
    }

    // Takes once, even if nothing waits, and returns how often the connection's bell was rung besides.
    fn try_take<R: Wait>(&self, rt: &R, pass: &mut Pass<F>, conn: ConnId) -> (Taken, u64)
        requires table { pass.old.home.table ≡ self.now }
        ensures same { pass.new.home ≡ pass.old.home }
        ensures steady { pass.new.steady ≡ pass.old.steady }
        ensures tried { Tries conn pass.old.view result.0 pass.new.view }
    {
        let mut kept = self.shared.turn.enter(rt, &mut pass.inner);
        let count = total(&kept);
        let taken = kept.service.take(conn);
        let rings = self.shared.bells.count(conn);
        self.end(&mut pass.inner, kept, count, conn, call_of(&taken));
        (taken, rings)
    }

    /// Returns what waits for the connection, and records that it took it; sleeps while there is nothing.
    /// `Overrun` if nothing waits and an output was lost; `Closed` if nothing waits and the connection is
    /// leaving, which is gone then; `Missing` if it isn't there. Never `Empty`.
    pub fn take<R: Wait>(&self, rt: &R, pass: &mut Pass<F>, conn: ConnId) -> Taken
        requires table { pass.old.home.table ≡ self.now }
        ensures same { pass.new.home ≡ pass.old.home }
        ensures steady { pass.new.steady ≡ pass.old.steady }
        ensures taken { Takes (spot conn pass.old.home pass.old.steady pass.old.view)
            (spot conn pass.old.home pass.old.steady pass.new.view) result }
    {
        for _ in rt.forever() {
            let (taken, rings) = self.try_take(rt, pass, conn);
            match taken {
                Taken::Empty => self.shared.bells.sleep(rt, conn, rings),
                taken => return taken,
            }
        }
        unreachable!()
    }

    /// Waits for the turn, and records a request of the connection, at a moment in seconds since 1970 and
    /// with random bytes in case a prompt keeps them for a key. Returns the key that is to be derived, if the
    /// request is an answer that was taken: it is derived while others have the turn.
    ///
    /// Refused with `EventsSpent` if all events that can be counted are recorded, then with `Gone` if the
    /// connection isn't there, then with `OutOfMemory`.
    pub fn arrive<R: Wait>(
        &self,
        rt: &R,
        pass: &mut Pass<F>,
        conn: ConnId,
        request: Request,
        now: u64,
        salt: [u8; 8],
    ) -> Result<Option<Work>, Refused>
        requires table { pass.old.home.table ≡ self.now }
        ensures same { pass.new.home ≡ pass.old.home }
        ensures steady { pass.new.steady ≡ pass.old.steady }
        ensures recorded { IfOk result (Arrives
            (spot conn pass.old.home pass.old.steady pass.old.view)
            (spot conn pass.old.home pass.old.steady pass.new.view)
            (record { conn = conn; request = request; now = now; salt = salt })) }
        ensures looked { OnErr result (Looks
            (spot conn pass.old.home pass.old.steady pass.old.view)
            (spot conn pass.old.home pass.old.steady pass.new.view)) }
        ensures cause { IfErr result (λ refused.
            IsRefusal refused (told conn pass.old.home pass.old.steady pass.new.view)) }
    {
        let arrival = Arrival {
            conn,
            request,
            now,
            salt,
        };
        let mut kept = self.shared.turn.enter(rt, &mut pass.inner);
        let count = total(&kept);
        let arrived = kept.service.arrive(arrival);
        self.end(&mut pass.inner, kept, count, conn, Call::Tells);
        arrived
    }

    /// Waits for the turn, and records a key that was derived for a prompt, at a moment in seconds since 1970.
    /// Refused as `arrive` is.
    pub fn derived<R: Wait>(
        &self,
        rt: &R,
        pass: &mut Pass<F>,
        conn: ConnId,
        done: Finished,
        now: u64,
    ) -> Result<(), Refused>
        requires table { pass.old.home.table ≡ self.now }
        ensures same { pass.new.home ≡ pass.old.home }
        ensures steady { pass.new.steady ≡ pass.old.steady }
        ensures recorded { OnOk result (Finishes
            (spot conn pass.old.home pass.old.steady pass.old.view)
            (spot conn pass.old.home pass.old.steady pass.new.view)
            (record { conn = conn; done = done; now = now })) }
        ensures looked { OnErr result (Looks
            (spot conn pass.old.home pass.old.steady pass.old.view)
            (spot conn pass.old.home pass.old.steady pass.new.view)) }
        ensures cause { IfErr result (λ refused.
            IsRefusal refused (told conn pass.old.home pass.old.steady pass.new.view)) }
    {
        let brought = BroughtKey { conn, done, now };
        let mut kept = self.shared.turn.enter(rt, &mut pass.inner);
        let count = total(&kept);
        let derived = kept.service.derived(brought);
        self.end(&mut pass.inner, kept, count, conn, Call::Tells);
        derived
    }

    // Records that a connection joins, and returns its number.
    fn connect<R: Wait>(&self, rt: &R, pass: &mut Pass<F>) -> Result<ConnId, JoinRefused>
        requires table { pass.old.home.table ≡ self.now }
        ensures same { pass.new.home ≡ pass.old.home }
        ensures steady { pass.new.steady ≡ pass.old.steady }
        ensures joined { IfOk result (λ conn. Extends
            (spot conn pass.old.home pass.old.steady pass.old.view)
            (spot conn pass.old.home pass.old.steady pass.new.view)
            (event.Connect conn) (output.Joined conn)) }
        ensures refused { IfErr result (λ refused.
            IsRefused pass.old.home pass.old.steady refused pass.old.view pass.new.view) }
    {
        let mut kept = self.shared.turn.enter(rt, &mut pass.inner);
        let count = total(&kept);
        let joined = kept.service.join();
        self.end(&mut pass.inner, kept, count, NOBODY, Call::Tells);
        joined
    }

    /// Waits for the turn, and lets a connection join. Returns its number, a pass for its reader and one
    /// for its writer: both have seen what this one has, the joining last, and have recorded nothing. Only
    /// the first pass can note others.
    ///
    /// Refused with `EventsSpent` if all events that can be counted are recorded, then with
    /// `TooManyConnections` if 256 connections are there or no number is left, then with `OutOfMemory`.
    pub fn join<R: Wait>(
        &self,
        rt: &R,
        pass: &mut Pass<F>,
    ) -> Result<(ConnId, Pass<F>, Pass<F>), JoinRefused>
        requires table { pass.old.home.table ≡ self.now }
        requires first { IsFirst pass.old.home.share }
        ensures given { OnOk result (pass.new.home ≡ left_by 2 pass.old.home) }
        ensures kept { OnErr result (pass.new.home ≡ pass.old.home) }
        ensures steady { pass.new.steady ≡ pass.old.steady }
        ensures joined { IfOk result (λ joined. Extends
            (spot joined.0 pass.old.home pass.old.steady pass.old.view)
            (spot joined.0 pass.old.home pass.old.steady pass.new.view)
            (event.Connect joined.0) (output.Joined joined.0)) }
        ensures passes { IfOk result (λ joined.
            (joined.1 ≡ noted pass.new) × (joined.2 ≡ noted pass.new)) }
        ensures refused { IfErr result (λ refused.
            IsRefused pass.old.home pass.old.steady refused pass.old.view pass.new.view) }
    {
        let conn = self.connect(rt, pass)?;
        let reader = self.note(pass);
        let writer = self.note(pass);
        Ok((conn, reader, writer))
    }

    /// A new pass, which has seen the same and recorded nothing. Only the first pass can note others. It takes
    /// no memory and doesn't wait.
    pub fn note(&self, pass: &mut Pass<F>) -> Pass<F>
        requires table { pass.old.home.table ≡ self.now }
        requires first { IsFirst pass.old.home.share }
        ensures given { pass.new ≡ giving 1 pass.old }
        ensures noted { result ≡ noted pass.old }
    {
        let inner = self.shared.turn.note(&mut pass.inner);
        Pass { inner }
    }

    /// Adds to the pass what another pass of the same service has seen and recorded.
    /// It takes no memory and doesn't wait.
    pub fn gather(&self, pass: &mut Pass<F>, other: Pass<F>)
        requires table { pass.old.home.table ≡ self.now }
        requires other_table { other.home.table ≡ self.now }
        ensures { IsGathered pass.old other pass.new }
    {
        let Pass { inner } = other;
        self.shared.turn.gather(&mut pass.inner, inner);
    }

    /// Takes the turn, and returns the service as everything that was recorded left it. If all passes were
    /// gathered into this one, each event is its own. The turn is never passed on, so a later call waits
    /// forever.
    pub fn close<R: Wait>(&self, rt: &R, mut pass: Pass<F>) -> Service<F>
        requires table { pass.home.table ≡ self.now }
        ensures closed { IsClosed pass.view result.history }
        ensures whole { pass.home.share ≡ whole → IsWhole pass.view result.history }
        ensures steady { is_steady F.is_steady F.Cell.is_steady result.disk ≡ pass.steady }
    {
        let kept = self.shared.turn.enter(rt, &mut pass.inner);
        let Kept { service, .. } = kept;
        Box::into_inner(service)
    }
}
