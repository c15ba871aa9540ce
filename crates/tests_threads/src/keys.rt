// A key is derived outside the service: others are served meanwhile.

use crate::checks::{holds, same_number};
use crate::requests::{asks, brings};
use crate::services::{over, shared, stores};
use kr_base::{Bytes, PromptId, Text};
use secret_calls::{Call, Taken, Work};
use service_desk::{ReadDesk, WriteDesk};
use shared_service::SharedDesk;
use std::alloc::Global;
use std::sync::Arc;
use std::test::Fail;

fn label(alloc: Global) -> Result<Text, Fail> {
    Ok(Text::from_str(alloc, "My Keys")?.ok_or("a label")?)
}

fn create(alloc: Global) -> Result<Call, Fail> {
    Ok(Call::CreateCollection {
        label: label(alloc)?,
        alias: None,
    })
}

fn answer(alloc: Global) -> Result<Call, Fail> {
    let password = Bytes::from_slice(alloc, b"sesame")?;
    Ok(Call::Answer {
        prompt: Some(PromptId(1)),
        round: 1,
        password,
    })
}

/// A connection that is its own agent creates a collection, and returns the key that is to be derived.
pub fn answers<D: ReadDesk>(alloc: Global, desk: &mut D) -> Result<Work, Fail> {
    brings(desk, Call::Register);
    brings(desk, create(alloc)?);
    brings(
        desk,
        Call::Prompt {
            prompt: PromptId(1),
        },
    );
    Ok(brings(desk, answer(alloc)?).ok_or("a key that is to be derived")?)
}

// Whether another one is served while the key is derived, and the key is recorded.
fn is_derived<D: ReadDesk, O: ReadDesk>(desk: &mut D, other: &mut O, work: Work) -> bool {
    let asked = asks(other, 1, false);
    let done = work.finish();
    asked && desk.derived(done, 0).is_ok()
}

// How many outputs wait.
fn taken<D: WriteDesk>(desk: &mut D) -> u64 {
    match desk.take() {
        Taken::Outs(outs) => outs.as_slice().len() as u64,
        _ => 0,
    }
}

#[test]
fn a_key_is_derived_while_another_connection_asks(rt: HostRuntime) -> Result<(), Fail> {
    let (service, mut pass) = shared(rt.alloc())?;
    let (conn, reader, writer) = service.join(&rt, &mut pass)?;
    let mut desk = SharedDesk::new(rt, Arc::try_clone(&service)?, reader, conn);
    let mut writer = SharedDesk::new(rt, Arc::try_clone(&service)?, writer, conn);
    let (conn, other, _) = service.join(&rt, &mut pass)?;
    let mut other = SharedDesk::new(rt, Arc::try_clone(&service)?, other, conn);
    let work = answers(rt.alloc(), &mut desk)?;
    let derived = is_derived(&mut desk, &mut other, work);
    holds(&rt, derived, "the call of another one, and the key");
    same_number(
        &rt,
        taken(&mut writer),
        4,
        "Ask, two signals of the collection, and Completed",
    );
    // The window was cut after the answer.
    over(service.close(&rt, pass), |service| stores(&rt, service, 3))
}
