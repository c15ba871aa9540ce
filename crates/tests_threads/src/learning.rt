// A thread that gathers the note of another one has seen what that one did, and its calls are answered accordingly.
ghost use Rattle.std.specs.Prelude.{◌≡◌};
ghost use Rattle.shared_turn.specs.Places.{StartsWith};
ghost use Rattle.shared_turn.specs.Shares.{IsFirst};

use crate::checks::holds;
use crate::requests::request;
use crate::services::{over, shared, stores};
use kr_base::{Attributes, Bytes, ConnId, ItemId, PromptId, SessionId, Stem, Text};
use kr_memory_disk::MemoryFolder;
use kr_names::ObjectName;
use secret_calls::{Body, Call, Out, Secret, Taken};
use shared_service::{Pass, SharedService};
use std::alloc::Global;
use std::sync::Wait;
use std::test::Fail;

type Shared = SharedService<MemoryFolder>;

fn text(alloc: Global, words: &str) -> Result<Text, Fail> {
    Ok(Text::from_str(alloc, words)?.ok_or("a text")?)
}

fn stem(alloc: Global) -> Result<Stem, Fail> {
    Ok(Stem::new(alloc, "Mine")?.ok_or("a stem")?)
}

fn open(alloc: Global) -> Result<Call, Fail> {
    let algorithm = text(alloc, "plain")?;
    Ok(Call::OpenSession { algorithm })
}

fn create(alloc: Global) -> Result<Call, Fail> {
    let label = text(alloc, "Mine")?;
    Ok(Call::CreateCollection { label, alias: None })
}

fn answer(alloc: Global) -> Result<Call, Fail> {
    let password = Bytes::from_slice(alloc, b"sesame")?;
    Ok(Call::Answer {
        prompt: Some(PromptId(1)),
        round: 1,
        password,
    })
}

fn secret(alloc: Global) -> Result<Secret, Fail> {
    let value = Bytes::from_slice(alloc, b"the value")?;
    let content = text(alloc, "text/plain")?;
    Ok(Secret {
        session: Some(SessionId(2)),
        value,
        content,
    })
}

// An item in the new collection, with a secret for the second session.
fn item(alloc: Global) -> Result<Call, Fail> {
    let collection = ObjectName::Collection(stem(alloc)?);
    let label = text(alloc, "An item")?;
    let secret = secret(alloc)?;
    Ok(Call::CreateItem {
        collection,
        label,
        attributes: Attributes::new(alloc),
        secret,
        replace: false,
    })
}

// The secret of that item, for the first session.
fn get(alloc: Global) -> Result<Call, Fail> {
    let stem = stem(alloc)?;
    Ok(Call::GetSecret {
        stem,
        item: ItemId(1),
        session: Some(SessionId(1)),
    })
}

// The calls of a connection that is its own agent: it creates a collection, and an item there.
fn making(alloc: Global) -> Result<Vec<Call>, Fail> {
    let mut calls = Vec::new(alloc);
    calls.push(open(alloc)?)?;
    calls.push(Call::Register)?;
    calls.push(create(alloc)?)?;
    calls.push(Call::Prompt {
        prompt: PromptId(1),
    })?;
    calls.push(answer(alloc)?)?;
    calls.push(item(alloc)?)?;
    Ok(calls)
}

// Brings a call, and the key if it asks for one; returns whether all was recorded.
fn brings<R: Wait>(
    rt: &R,
    service: &Shared,
    pass: &mut Pass<MemoryFolder>,
    conn: ConnId,
    call: Call,
) -> bool
    requires { pass.old.home.table ≡ service.now }
    ensures { pass.new.home ≡ pass.old.home }
{
    match service.arrive(rt, pass, conn, request(call, true), 0, [0; 8]) {
        Ok(None) => true,
        Ok(Some(work)) => service.derived(rt, pass, conn, work.finish(), 0).is_ok(),
        Err(_) => false,
    }
}

// Brings all of them.
fn brings_all<R: Wait>(
    rt: &R,
    service: &Shared,
    pass: &mut Pass<MemoryFolder>,
    conn: ConnId,
    calls: Vec<Call>,
) -> bool
    requires { pass.old.home.table ≡ service.now }
    ensures { pass.new.home ≡ pass.old.home }
{
    let mut all = true;
    for call in calls {
        all = brings(rt, service, pass, conn, call) && all;
    }
    all
}

// Gathers a note of the other pass, and brings a call. What the pass has seen then begins with what the other
// one had seen.
fn asks_after_a_note<R: Wait>(
    rt: &R,
    service: &Shared,
    other: &mut Pass<MemoryFolder>,
    pass: &mut Pass<MemoryFolder>,
    conn: ConnId,
    call: Call,
) -> bool
    requires other_table { other.old.home.table ≡ service.now }
    requires other_first { IsFirst other.old.home.share }
    requires table { pass.old.home.table ≡ service.now }
    ensures same { other.new.home.table ≡ other.old.home.table }
    ensures learnt { StartsWith pass.new.view.seen other.old.view.seen }
{
    let note = service.note(other);
    service.gather(pass, note);
    service
        .arrive(rt, pass, conn, request(call, true), 0, [0; 8])
        .is_ok()
}

// Whether the output returns this secret to the first session.
fn is_secret(out: &Out, value: &[u8]) -> bool {
    match out {
        Out::Return {
            to: _,
            body: Body::Secret(secret),
        } => secret.session == SessionId(1) && secret.value.as_slice() == value,
        _ => false,
    }
}

// Whether the last output does.
fn gives_secret(taken: &Taken, value: &[u8]) -> bool {
    match taken {
        Taken::Outs(outs) => match outs.as_slice().last() {
            Some(out) => is_secret(out, value),
            None => false,
        },
        _ => false,
    }
}

// Another connection makes an item; this one has a session, gathers a note of the other pass, and asks for the secret.
fn learns<R: Wait>(
    rt: &R,
    alloc: Global,
    service: &Shared,
    other: &mut Pass<MemoryFolder>,
    pass: &mut Pass<MemoryFolder>,
) -> Result<bool, Fail>
    requires other_table { other.old.home.table ≡ service.now }
    requires other_first { IsFirst other.old.home.share }
    requires table { pass.old.home.table ≡ service.now }
    ensures { other.new.home.table ≡ other.old.home.table }
{
    let opened = brings(rt, service, pass, ConnId(1), open(alloc)?);
    let made = brings_all(rt, service, other, ConnId(2), making(alloc)?);
    let asked = asks_after_a_note(rt, service, other, pass, ConnId(1), get(alloc)?);
    Ok(opened && made && asked)
}

#[test]
fn a_pass_that_gathers_a_note_is_answered_with_the_secret_of_another(
    rt: HostRuntime,
) -> Result<(), Fail> {
    let (service, mut pass) = shared(rt.alloc())?;
    let (conn, mut one, mut writer) = service.join(&rt, &mut pass)?;
    let _ = service.join(&rt, &mut pass)?;
    let learnt = learns(&rt, rt.alloc(), &service, &mut pass, &mut one)?;
    holds(&rt, learnt, "all calls were recorded");
    let taken = service.take(&rt, &mut writer, conn);
    holds(&rt, gives_secret(&taken, b"the value"), "the secret");
    // The window was cut after the answer, and after the item.
    over(service.close(&rt, pass), |service| stores(&rt, service, 2))
}
