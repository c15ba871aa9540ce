// Each kind of step is taken on the turn of a service: the first pass is made, others are split off, tickets are
// drawn, turns begin, events are counted, turns end, passes are gathered, and the service is closed. A pass owns
// exactly as many events as calls of it were recorded.
ghost use Rattle.std.specs.Prelude.{◌≡◌, ◌≤◌, [], OnSome};
ghost use Rattle.shared_turn.specs.Shares.{IsFirst};
ghost use Rattle.tests_threads.specs.Recorded.{Owns};

use crate::checks::same_number;
use crate::requests::request;
use crate::services::{over, shared, stores};
use kr_base::ConnId;
use kr_memory_disk::MemoryFolder;
use secret_calls::{Call, Taken};
use shared_service::{Pass, SharedService};
use std::sync::Wait;
use std::test::Fail;

type Shared = SharedService<MemoryFolder>;

// Brings a request, and returns how many events were recorded.
fn asks<R: Wait>(rt: &R, service: &Shared, pass: &mut Pass<MemoryFolder>, conn: ConnId) -> u64
    requires { pass.old.home.table ≡ service.now }
    ensures owns { Owns result pass.old pass.new }
    ensures few { result ≤ 1 }
{
    match service.arrive(rt, pass, conn, request(Call::Ping, true), 0, [0; 8]) {
        Ok(_) => 1,
        Err(_) => 0,
    }
}

// Takes what waits, and returns how many events were recorded.
fn takes<R: Wait>(rt: &R, service: &Shared, pass: &mut Pass<MemoryFolder>, conn: ConnId) -> u64
    requires { pass.old.home.table ≡ service.now }
    ensures owns { Owns result pass.old pass.new }
    ensures few { result ≤ 1 }
{
    match service.take(rt, pass, conn) {
        Taken::Outs(_) => 1,
        Taken::Closed => 1,
        Taken::Overrun => 0,
        Taken::Missing => 0,
        Taken::Empty => 0,
    }
}

// A pass that is split off asks, and is gathered; returns how many events were recorded.
fn asks_apart<R: Wait>(rt: &R, service: &Shared, pass: &mut Pass<MemoryFolder>, conn: ConnId) -> u64
    requires table { pass.old.home.table ≡ service.now }
    requires first { IsFirst pass.old.home.share }
    ensures owns { Owns result pass.old pass.new }
    ensures few { result ≤ 1 }
{
    let mut note = service.note(pass);
    let asked = asks(rt, service, &mut note, conn);
    service.gather(pass, note);
    asked
}

// A pass that is split off takes, and is gathered; returns how many events were recorded.
fn takes_apart<R: Wait>(
    rt: &R,
    service: &Shared,
    pass: &mut Pass<MemoryFolder>,
    conn: ConnId,
) -> u64
    requires table { pass.old.home.table ≡ service.now }
    requires first { IsFirst pass.old.home.share }
    ensures owns { Owns result pass.old pass.new }
    ensures few { result ≤ 1 }
{
    let mut note = service.note(pass);
    let took = takes(rt, service, &mut note, conn);
    service.gather(pass, note);
    took
}

// A connection asks and takes, each with a pass of its own; returns how many events were recorded.
fn serves<R: Wait>(rt: &R, service: &Shared, pass: &mut Pass<MemoryFolder>, conn: ConnId) -> u64
    requires table { pass.old.home.table ≡ service.now }
    requires first { IsFirst pass.old.home.share }
    ensures owns { Owns result pass.old pass.new }
    ensures few { result ≤ 2 }
{
    let asked = asks_apart(rt, service, pass, conn);
    let took = takes_apart(rt, service, pass, conn);
    asked + took
}

// A connection joins, and its number is returned.
fn joins<R: Wait>(rt: &R, service: &Shared, pass: &mut Pass<MemoryFolder>) -> Option<ConnId>
    requires table { pass.old.home.table ≡ service.now }
    requires first { IsFirst pass.old.home.share }
    ensures joined { OnSome result (Owns 1 pass.old pass.new) }
    ensures refused { result ≡ None → Owns 0 pass.old pass.new }
{
    match service.join(rt, pass) {
        Ok((conn, _, _)) => Some(conn),
        Err(_) => None,
    }
}

// A connection joins, asks and takes; returns how many events were recorded.
fn calls<R: Wait>(rt: &R, service: &Shared, pass: &mut Pass<MemoryFolder>) -> u64
    requires table { pass.old.home.table ≡ service.now }
    requires first { IsFirst pass.old.home.share }
    ensures { Owns result pass.old pass.new }
{
    match joins(rt, service, pass) {
        Some(conn) => 1 + serves(rt, service, pass, conn),
        None => 0,
    }
}

#[test]
fn a_pass_owns_an_event_for_each_call_that_was_made(rt: HostRuntime) -> Result<(), Fail> {
    let (service, mut pass) = shared(rt.alloc())?;
    let owned = calls(&rt, &service, &mut pass);
    same_number(&rt, owned, 3, "the events that the pass owns");
    over(
        service.close(&rt, pass),
        |service| stores(&rt, service, owned),
    )
}
