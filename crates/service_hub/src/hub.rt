ghost use Rattle.std.specs.Prelude.{◌≡◌, IfOk, IfErr, OnOk, OnErr, IsSome, is_some, Some};
ghost use Rattle.std.specs.Arc.{arc_value};
ghost use Rattle.daemon.specs.Hubs.{Joins, IsNotJoined};
ghost use Rattle.shared_service.specs.shared_turn.specs.Shares.{IsFirst};
ghost use Rattle.shared_service.specs.Passes.{noted, left_by, giving};
ghost use Rattle.service_hub.specs.Lending.{of_desk, missing_in, first-prop};

use crate::clock::CommonClock;
use daemon::Hub;
use daemon::connection_worker::Salts;
use dbus_auth::Auth;
use kr_base::{ConnId, OutOfMemory};
use kr_outside::{Clock, Folder};
use shared_service::service_desk::JoinRefused;
use shared_service::{Pass, SharedDesk, SharedService};
use std::alloc::{AllocError, Global};
use std::sync::{Arc, Mutex, Wait};

/// Where links become connections of a service that threads share.
#[derive(Drop)]
pub struct ServiceHub<R: Wait, F: Folder, C: Clock> {
    rt: R,
    service: Arc<SharedService<F>, Global>,
    pass: Pass<F>,
    uid: u32,
    guid: [u8; 32],
    seed: [u8; 32],
    clock: Arc<Mutex<C>, Global>,
    // The clock of the connection that joined last, until its parts are asked for.
    next: Option<Arc<Mutex<C>, Global>>,
    refused: u64,
    ghost fits: { pass.home.table ≡ arc_value service },
    ghost first: { IsFirst pass.home.share } by { first-prop pass.home.share },
}

impl<R: Wait + Copy, F: Folder, C: Clock> ServiceHub<R, F, C> {
    /// A hub over the service of this pass, its first one, whose connections have this clock in common. Each handshake
    /// awaits this user; `guid` is the server's number as 32 hex digits, and the seed that of all salts.
    ///
    /// Refused with `OutOfMemory` if no memory was left.
    pub fn new(
        alloc: Global,
        rt: R,
        service: SharedService<F>,
        pass: Pass<F>,
        uid: u32,
        guid: [u8; 32],
        seed: [u8; 32],
        clock: C,
    ) -> Result<ServiceHub<R, F, C>, OutOfMemory>
        requires table { pass.home.table ≡ service }
        requires first { IsFirst pass.home.share }
        ensures pass { IfOk result (λ hub. hub.pass ≡ pass) }
        ensures uid { IfOk result (λ hub. hub.uid ≡ uid) }
        ensures guid { IfOk result (λ hub. hub.guid ≡ guid) }
        ensures seed { IfOk result (λ hub. hub.seed ≡ seed) }
        ensures refused { IfOk result (λ hub. hub.refused ≡ 0) }
    {
        let service = Arc::new(alloc, service)?;
        let clock = Arc::new(alloc, Mutex::new(clock))?;
        Ok(ServiceHub {
            rt,
            service,
            pass,
            uid,
            guid,
            seed,
            clock,
            next: None,
            refused: 0,
        })
    }

    // A pass that has seen what the hub has, and recorded nothing.
    pub(crate) fn note(&mut self) -> Pass<F>
        ensures noted { result ≡ noted self.old.pass }
        ensures pass { self.new.pass ≡ giving 1 self.old.pass }
        ensures uid { self.new.uid ≡ self.old.uid }
        ensures guid { self.new.guid ≡ self.old.guid }
        ensures seed { self.new.seed ≡ self.old.seed }
        ensures count { self.new.refused ≡ self.old.refused }
    {
        self.service.note(&mut self.pass)
    }

    // The service, the pass with all that the hub has seen and recorded, and how many joins were refused.
    pub(crate) fn into_parts(self) -> (Arc<SharedService<F>, Global>, Pass<F>, u64)
    where
        R: Drop,
        ensures service { result.1.home.table ≡ arc_value result.0 }
        ensures first { IsFirst result.1.home.share }
        ensures pass { result.1 ≡ self.pass }
        ensures refused { result.2 ≡ self.refused }
    {
        let ServiceHub {
            service,
            pass,
            refused,
            ..
        } = self;
        (service, pass, refused)
    }

    // What two desks of one connection need, and its clock; None if no memory was left.
    fn shares(&self) -> Result<Shares<F, C>, JoinRefused>
        ensures reader { IfOk result (λ shares.
            arc_value shares.reader ≡ arc_value self.now.service) }
        ensures writer { IfOk result (λ shares.
            arc_value shares.writer ≡ arc_value self.now.service) }
        ensures refused { IfErr result (λ refused. refused ≡ JoinRefused.OutOfMemory) }
    {
        match Shares::of(&self.service, &self.clock) {
            Ok(shares) => Ok(shares),
            Err(_) => Err(JoinRefused::OutOfMemory),
        }
    }

    // The same as `join`, without counting a refusal.
    fn admit(&mut self) -> Result<(ConnId, SharedDesk<R, F>, SharedDesk<R, F>), JoinRefused>
        ensures joined { IfOk result (λ joined.
            Joins self.old.pass.view joined.0 self.new.pass.view) }
        ensures reader { IfOk result (λ joined.
            (joined.1.conn ≡ joined.0) × (joined.1.pass ≡ noted self.new.pass)) }
        ensures writer { IfOk result (λ joined.
            (joined.2.conn ≡ joined.0) × (joined.2.pass ≡ noted self.new.pass)) }
        ensures refused { IfErr result (λ refused.
            IsNotJoined refused self.old.pass.view self.new.pass.view) }
        ensures uid { self.new.uid ≡ self.old.uid }
        ensures guid { self.new.guid ≡ self.old.guid }
        ensures seed { self.new.seed ≡ self.old.seed }
        ensures given { OnOk result (self.new.pass.home ≡ left_by 2 self.old.pass.home) }
        ensures kept { OnErr result (self.new.pass.home ≡ self.old.pass.home) }
        ensures count { self.new.refused ≡ self.old.refused }
        ensures clock { OnOk result (IsSome self.new.next) }
    {
        let shares = self.shares()?;
        let pass = &mut self.pass;
        let (conn, reader, writer) = match self.service.join(&self.rt, pass) {
            Ok(joined) => joined,
            Err(refused) => return Err(refused),
        };
        self.next = Some(shares.clock);
        Ok((
            conn,
            SharedDesk::new(self.rt, shares.reader, reader, conn),
            SharedDesk::new(self.rt, shares.writer, writer, conn),
        ))
    }
}

// Further owners of a hub's service and of its clock.
#[derive(Drop)]
struct Shares<F: Folder, C: Clock> {
    reader: Arc<SharedService<F>, Global>,
    writer: Arc<SharedService<F>, Global>,
    clock: Arc<Mutex<C>, Global>,
}

impl<F: Folder, C: Clock> Shares<F, C> {
    fn of(
        service: &Arc<SharedService<F>, Global>,
        clock: &Arc<Mutex<C>, Global>,
    ) -> Result<Shares<F, C>, AllocError>
        ensures reader { IfOk result (λ shares. arc_value shares.reader ≡ arc_value service.now) }
        ensures writer { IfOk result (λ shares. arc_value shares.writer ≡ arc_value service.now) }
    {
        Ok(Shares {
            reader: Arc::try_clone(service)?,
            writer: Arc::try_clone(service)?,
            clock: Arc::try_clone(clock)?,
        })
    }
}

impl<
    R: Wait + Copy + Send + Sync + Drop + 'static,
    F: Folder + Send + 'static,
    C: Clock + Send + 'static,
> Hub for ServiceHub<R, F, C>
where
    F::Cell: Send,
{
    type Reader = SharedDesk<R, F>;

    type Writer = SharedDesk<R, F>;

    type Time = CommonClock<R, C>;

    ghost uid = { λ hub. hub.uid };

    ghost guid = { λ hub. hub.guid };

    ghost seed = { λ hub. hub.seed };

    ghost home = { λ hub. Some (of_desk hub.pass.home) };

    ghost view = { λ hub. hub.pass.view };

    ghost lent = { λ hub. missing_in hub.pass.home.share };

    ghost refused = { λ hub. hub.refused };

    ghost is_ready = { λ hub. is_some hub.next };

    fn join(&mut self) -> Result<(ConnId, SharedDesk<R, F>, SharedDesk<R, F>), JoinRefused> {
        let joined = self.admit();
        if joined.is_err() {
            self.refused = self.refused.saturating_add(1);
        }
        joined
    }

    fn parts(&mut self, conn: ConnId) -> (Auth, CommonClock<R, C>, Salts) {
        let clock = CommonClock::new(self.rt, self.next.take().unwrap());
        (
            Auth::new(self.uid, self.guid),
            clock,
            Salts::new(self.seed, conn),
        )
    }

    fn take_back(&mut self, reader: SharedDesk<R, F>, writer: SharedDesk<R, F>) {
        self.service.gather(&mut self.pass, writer.into_pass());
        self.service.gather(&mut self.pass, reader.into_pass());
    }
}
