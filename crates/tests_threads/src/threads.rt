// Many threads call one service at once: the events of the service that is given back are, for each connection,
// the calls that its thread made, in the thread's own order and each once.
ghost use Rattle.std.specs.Prelude.{◌≡◌};
ghost use Rattle.std.specs.Arc.{arc_value};
ghost use Rattle.shared_turn.specs.Shares.{IsFirst};

use crate::checks::same_number;
use crate::requests::asks;
use crate::services::{Service, over, shared, stores};
use kr_base::ConnId;
use kr_memory_disk::MemoryFolder;
use secret_calls::{Call, Request};
use service_desk::{ReadDesk, WriteDesk};
use service_machine::Event;
use shared_service::{Pass, SharedDesk, SharedService};
use std::alloc::Global;
use std::process::Abort;
use std::sync::{Arc, Wait};
use std::test::Fail;
use std::thread;
use std::thread::Threads;

// How many threads there are, and how many requests each brings.
const THREADS: usize = 8;

const REQUESTS: u32 = 2_000;

// How many events each thread records: its connection joins, brings each request and takes the reply, and leaves.
const EVENTS: u64 = 2 * REQUESTS as u64 + 2;

// Brings all requests, takes each reply, and leaves.
fn calls_all<D: ReadDesk + WriteDesk>(desk: &mut D) {
    for serial in 1..REQUESTS + 1 {
        asks(desk, serial, true);
        desk.take();
    }
    desk.leave();
}

// Whether this is the request with that serial.
fn is_ping(request: &Request, serial: u64) -> bool {
    request.serial.number as u64 == serial
        && request.wants_reply
        && matches!(request.call, Ok(Call::Ping))
}

// Whether the event is the call that the connection's thread made at this place among its own.
fn is_call(event: &Event, place: u64) -> bool {
    match event {
        Event::Connect(_) => place == 0,
        Event::Arrive(came) => place % 2 == 1
            && is_ping(&came.get().arrival.request, place / 2 + 1),
        Event::Take(_) => place % 2 == 0 && place > 0,
        Event::Leave(_) => place == EVENTS - 1,
        _ => false,
    }
}

// The connection of the event.
fn conn_of(event: &Event) -> ConnId {
    match event {
        Event::Arrive(came) => came.get().arrival.conn,
        Event::Derived(came) => came.get().conn,
        Event::Connect(conn) | Event::Leave(conn) | Event::Take(conn) | Event::Gone(conn) => *conn,
    }
}

// How many calls of the connection the events are, if they are those that its thread made, in order; otherwise 0.
fn calls_of(events: &[Event], conn: ConnId) -> u64 {
    let mut place = 0u64;
    for event in events {
        if conn_of(event) == conn {
            if !is_call(event, place) {
                return 0;
            }
            place = place.saturating_add(1);
        }
    }
    place
}

// A desk of one more connection.
fn reader<R: Wait + Copy>(
    rt: R,
    service: &Arc<SharedService<MemoryFolder>, Global>,
    pass: &mut Pass<MemoryFolder>,
) -> Result<SharedDesk<R, MemoryFolder>, Fail>
    requires table { pass.old.home.table ≡ arc_value service.now }
    requires first { IsFirst pass.old.home.share }
    ensures table { pass.new.home.table ≡ pass.old.home.table }
    ensures first { IsFirst pass.new.home.share }
{
    let (conn, reader, _) = service.join(&rt, pass)?;
    Ok(SharedDesk::new(rt, Arc::try_clone(service)?, reader, conn))
}

// This many of them.
fn readers<R: Wait + Copy + Drop>(
    rt: R,
    alloc: Global,
    service: &Arc<SharedService<MemoryFolder>, Global>,
    pass: &mut Pass<MemoryFolder>,
) -> Result<Vec<SharedDesk<R, MemoryFolder>>, Fail>
    requires table { pass.old.home.table ≡ arc_value service.now }
    requires first { IsFirst pass.old.home.share }
    ensures table { pass.new.home.table ≡ pass.old.home.table }
    ensures first { IsFirst pass.new.home.share }
{
    let mut readers = Vec::with_capacity(alloc, THREADS)?;
    for _ in 0..THREADS {
        readers.push(reader(rt, service, pass)?)?;
    }
    Ok(readers)
}

// The threads call at once, and the service is given back.
fn served<R: Wait + Threads + Copy + Drop + Send + Sync>(
    rt: R,
    alloc: Global,
) -> Result<Service, Fail> {
    let (service, mut pass) = shared(alloc)?;
    let mut readers = readers(rt, alloc, &service, &mut pass)?;
    thread::for_each_mut(
        &rt,
        readers.as_mut_slice(),
        THREADS,
        &|_, desk| calls_all(desk),
    );
    Ok(service.close(&rt, pass))
}

// Asserts that the events are the calls of all threads.
fn stores_all(rt: &impl Abort, service: &Service) -> Result<(), Fail> {
    stores(rt, service, THREADS as u64 * EVENTS)?;
    for number in 1..THREADS as u64 + 1 {
        let found = calls_of(service.events(), ConnId(number));
        same_number(rt, found, EVENTS, "the calls of a thread");
    }
    Ok(())
}

#[test]
fn the_calls_of_eight_threads_are_in_one_history(rt: HostRuntime) -> Result<(), Fail> {
    over(served(rt, rt.alloc())?, |service| stores_all(&rt, service))
}
