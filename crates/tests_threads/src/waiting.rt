// A thread that takes waits for what another one brings.

use crate::checks::{holds, same_number};
use crate::keys::answers;
use crate::requests::asks;
use crate::services::shared;
use secret_calls::{Out, Taken};
use service_desk::{ReadDesk, WriteDesk};
use shared_service::SharedDesk;
use std::alloc::Global;
use std::sync::Arc;
use std::test::Fail;
use std::thread;
use std::time::{Clock, Duration};

// Takes what waits, and returns whether there were outputs.
fn takes<D: WriteDesk>(desk: &mut D) -> bool {
    matches!(desk.take(), Taken::Outs(_))
}

// Brings a request that wants a reply, a while later.
fn asks_later<D: ReadDesk>(clock: &impl Clock, desk: &mut D) -> bool {
    thread::sleep(clock, Duration::from_millis(100));
    asks(desk, 1, true)
}

#[test]
fn a_thread_that_takes_waits_for_what_another_brings(rt: HostRuntime) -> Result<(), Fail> {
    let (service, mut pass) = shared(rt.alloc())?;
    let (conn, reader, writer) = service.join(&rt, &mut pass)?;
    let mut reader = SharedDesk::new(rt, Arc::try_clone(&service)?, reader, conn);
    let mut writer = SharedDesk::new(rt, Arc::try_clone(&service)?, writer, conn);
    let (taken, asked) = thread::join(&rt, || takes(&mut writer), || asks_later(&rt, &mut reader));
    holds(&rt, taken, "the reply was taken");
    holds(&rt, asked, "the request was recorded");
    Ok(())
}

// How many of the outputs are signals.
fn signals_in(outs: &[Out]) -> u64 {
    let mut count = 0u64;
    for out in outs {
        if matches!(out, Out::Signal(_)) {
            count = count.saturating_add(1);
        }
    }
    count
}

// Takes what waits, and returns how many signals there were.
fn takes_signals<D: WriteDesk>(desk: &mut D) -> u64 {
    match desk.take() {
        Taken::Outs(outs) => signals_in(outs.as_slice()),
        _ => 0,
    }
}

// Makes a collection, a while later, and returns whether the key was recorded.
fn makes_later<D: ReadDesk>(clock: &impl Clock, alloc: Global, desk: &mut D) -> Result<bool, Fail> {
    thread::sleep(clock, Duration::from_millis(100));
    let work = answers(alloc, desk)?;
    Ok(desk.derived(work.finish(), 0).is_ok())
}

#[test]
fn a_thread_that_takes_waits_for_the_signals_of_another_connection(
    rt: HostRuntime,
) -> Result<(), Fail> {
    let (service, mut pass) = shared(rt.alloc())?;
    let (conn, reader, _) = service.join(&rt, &mut pass)?;
    let mut reader = SharedDesk::new(rt, Arc::try_clone(&service)?, reader, conn);
    let (conn, _, writer) = service.join(&rt, &mut pass)?;
    let mut writer = SharedDesk::new(rt, Arc::try_clone(&service)?, writer, conn);
    let (taken, made) = thread::join(
        &rt,
        || takes_signals(&mut writer),
        || makes_later(&rt, rt.alloc(), &mut reader),
    );
    same_number(&rt, taken, 2, "the signals of the new collection");
    holds(&rt, made?, "the key was recorded");
    Ok(())
}
