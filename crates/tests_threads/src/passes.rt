// Passes are split off and gathered again, and a desk reports that its connection has left, or is gone.

use crate::checks::holds;
use crate::requests::asks;
use crate::services::{over, shared, stores};
use secret_calls::Taken;
use service_desk::{ReadDesk, WriteDesk};
use shared_service::SharedDesk;
use std::sync::Arc;
use std::test::Fail;

// Whether a desk whose connection leaves returns Closed, and then Missing.
fn ends<D: ReadDesk + WriteDesk>(desk: &mut D) -> bool {
    desk.leave();
    matches!(desk.take(), Taken::Closed) && matches!(desk.take(), Taken::Missing)
}

#[test]
fn passes_are_noted_and_gathered(rt: HostRuntime) -> Result<(), Fail> {
    let (service, mut pass) = shared(rt.alloc())?;
    let (conn, reader, writer) = service.join(&rt, &mut pass)?;
    let mut other = service.note(&mut pass);
    service.gather(&mut other, writer);
    service.gather(&mut pass, other);
    let mut desk = SharedDesk::new(rt, Arc::try_clone(&service)?, reader, conn);
    holds(&rt, ends(&mut desk), "closed, and then missing");
    over(service.close(&rt, pass), |service| stores(&rt, service, 3))
}

// Whether a desk whose connection is gone records nothing more.
fn is_gone<D: ReadDesk + WriteDesk>(desk: &mut D) -> bool {
    desk.gone();
    !asks(desk, 1, true) && matches!(desk.take(), Taken::Missing)
}

#[test]
fn a_connection_that_is_gone_is_refused(rt: HostRuntime) -> Result<(), Fail> {
    let (service, mut pass) = shared(rt.alloc())?;
    let (conn, reader, writer) = service.join(&rt, &mut pass)?;
    let other = SharedDesk::new(rt, Arc::try_clone(&service)?, reader, conn);
    service.gather(&mut pass, other.into_pass());
    let mut desk = SharedDesk::new(rt, Arc::try_clone(&service)?, writer, conn);
    holds(
        &rt,
        is_gone(&mut desk),
        "nothing is recorded, and the connection is missing",
    );
    over(service.close(&rt, pass), |service| stores(&rt, service, 2))
}
