ghost use Rattle.std.specs.Prelude.{◌≡◌};
ghost use Rattle.std.specs.Arc.{arc_value};
ghost use Rattle.shared_service.specs.Kept.{IsLegal, legal-prop, Rises, rises-prop};

use crate::pass::Pass;
use crate::shared::SharedService;
use kr_base::ConnId;
use kr_outside::Folder;
use service_desk::secret_calls::{Finished, Refused, Request, Taken, Work};
use service_desk::{Desk, ReadDesk, WriteDesk};
use std::alloc::Global;
use std::sync::{Arc, Wait};

/// The desk of a connection's reader, or of its writer, over a service that threads share. A call of
/// `take` waits while there is nothing to take.
#[derive(Drop)]
pub struct SharedDesk<R: Wait, F: Folder> {
    rt: R,
    service: Arc<SharedService<F>, Global>,
    pass: Pass<F>,
    conn: ConnId,
    ghost fits: { pass.home.table ≡ arc_value service },
    ghost legal: { IsLegal pass.view } by { legal-prop pass.view },
    ghost places: { Rises pass.view } by { rises-prop pass.view },
}

impl<R: Wait, F: Folder> SharedDesk<R, F> {
    /// The desk of this connection, over the service of the pass.
    pub fn new(
        rt: R,
        service: Arc<SharedService<F>, Global>,
        pass: Pass<F>,
        conn: ConnId,
    ) -> SharedDesk<R, F>
        requires { pass.home.table ≡ arc_value service }
        ensures { (result.pass ≡ pass) × (result.conn ≡ conn) × (result.service ≡ service) }
    {
        pass.has_seen_a_history();
        SharedDesk {
            rt,
            service,
            pass,
            conn,
        }
    }

    /// The pass, with all that the desk has seen and recorded.
    pub fn into_pass(self) -> Pass<F>
    where
        R: Drop,
        ensures { result ≡ self.pass }
    {
        self.pass
    }
}

impl<R: Wait, F: Folder> Desk for SharedDesk<R, F> {
    ghost use Rattle.std.specs.Prelude.{refl, ◌≡◌};
    ghost use Rattle.shared_service.specs.Passes.{told};
    ghost use Rattle.shared_service.specs.Kept.{leads};

    ghost told = { λ desk. told desk.conn desk.pass.home desk.pass.steady desk.pass.view };

    ghost has_seen = { λ desk view. view ≡ desk.pass.view };

    ghost has_view = { λ desk. (desk.pass.view, refl) };

    ghost views_lead = { λ desk view same. leads desk.pass.view view desk.legal desk.places same };

    fn conn(&self) -> ConnId {
        self.conn
    }
}

impl<R: Wait, F: Folder> ReadDesk for SharedDesk<R, F> {
    fn arrive(
        &mut self,
        request: Request,
        now: u64,
        salt: [u8; 8],
    ) -> Result<Option<Work>, Refused> {
        let pass = &mut self.pass;
        let answer = self
            .service
            .arrive(&self.rt, pass, self.conn, request, now, salt);
        pass.has_seen_a_history();
        answer
    }

    fn derived(&mut self, done: Finished, now: u64) -> Result<(), Refused> {
        let pass = &mut self.pass;
        let answer = self.service.derived(&self.rt, pass, self.conn, done, now);
        pass.has_seen_a_history();
        answer
    }

    fn leave(&mut self) {
        let pass = &mut self.pass;
        self.service.leave(&self.rt, pass, self.conn);
        pass.has_seen_a_history();
    }
}

impl<R: Wait, F: Folder> WriteDesk for SharedDesk<R, F> {
    fn take(&mut self) -> Taken {
        let pass = &mut self.pass;
        let taken = self.service.take(&self.rt, pass, self.conn);
        pass.has_seen_a_history();
        taken
    }

    fn gone(&mut self) {
        let pass = &mut self.pass;
        self.service.gone(&self.rt, pass, self.conn);
        pass.has_seen_a_history();
    }
}
