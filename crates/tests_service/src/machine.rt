// The calls of the machine itself, and the history's call that takes any event.

use crate::checks::{holds, same_number};
use crate::folders::{Machine, Service, machine_over_nothing, over, service_over_nothing};
use check_words::call_of;
use kr_base::ConnId;
use lone_desk::service_history::service_machine::secret_calls::{Request, Serial};
use lone_desk::service_history::service_machine::{ApplyRefused, Arrival, Incoming, Output, Rows};
use std::alloc::Global;
use std::process::Abort;
use std::test::Fail;

// The arrival of a connection's call; the row has it in the cells 1 and 2.
fn arrival(alloc: Global, conn: ConnId, row: &str) -> Result<Arrival, Fail> {
    let call = call_of(alloc, row).ok_or("a call")?;
    let request = Request {
        serial: Serial { number: 7 },
        wants_reply: true,
        length: 128,
        call,
    };
    Ok(Arrival {
        conn,
        request,
        now: 1_700_000_000,
        salt: [1, 2, 3, 4, 5, 6, 7, 8],
    })
}

// Lets a connection join, and returns its number.
fn join(machine: &mut Machine) -> Result<u64, ApplyRefused> {
    let (output, _) = machine.apply(Incoming::Connect)?;
    match output {
        Output::Joined(conn) => Ok(conn.0),
        _ => Ok(0),
    }
}

fn gone(machine: &mut Machine, conn: ConnId) -> Result<(), ApplyRefused> {
    let _ = machine.apply(Incoming::Gone(conn))?;
    Ok(())
}

fn arrive(alloc: Global, machine: &mut Machine, conn: ConnId, row: &str) -> Result<(), Fail> {
    let arrival = arrival(alloc, conn, row)?;
    let _ = machine.apply(Incoming::Arrive(arrival))?;
    Ok(())
}

// Takes everything that waits for a connection, and returns how much that is; None if nothing waits.
fn count_taken(machine: &mut Machine, conn: ConnId) -> Option<u64> {
    let desk = machine.desk(conn)?;
    if !desk.waits {
        return None;
    }
    let (output, _) = machine.apply(Incoming::Take(conn)).ok()?;
    match output {
        Output::Taken(outs) => Some(outs.len() as u64),
        _ => None,
    }
}

// Whether outputs wait for a connection that isn't overrun and doesn't leave.
fn waits(machine: &Machine, conn: ConnId) -> Result<bool, Fail> {
    let desk = machine.desk(conn).ok_or("a desk")?;
    Ok(desk.waits && !desk.overrun && !desk.leaving)
}

// Asserts that only the second connection is left, with one session.
fn are_left(rt: &impl Abort, rows: &Rows) {
    let connections = rows.connections.rows.len() as u64;
    same_number(rt, connections, 1, "the connections");
    same_number(rt, rows.connections.next, 3, "the next connection");
    let sessions = rows.sessions.rows.len() as u64;
    same_number(rt, sessions, 1, "the sessions");
    same_number(rt, rows.sessions.next, 4, "the next session");
}

// Each connection opens a session, and the first one another.
fn open_sessions(alloc: Global, machine: &mut Machine) -> Result<(), Fail> {
    join(machine)?;
    join(machine)?;
    for conn in [1u64, 2, 1] {
        arrive(alloc, machine, ConnId(conn), "|open|plain")?;
    }
    Ok(())
}

fn leaves_rows(rt: &impl Abort, alloc: Global, machine: &mut Machine) -> Result<(), Fail> {
    open_sessions(alloc, machine)?;
    holds(rt, waits(machine, ConnId(1))?, "outputs wait");
    let count = count_taken(machine, ConnId(1)).ok_or("outputs")?;
    same_number(rt, count, 2, "the outputs");
    holds(rt, !waits(machine, ConnId(1))?, "no output waits");
    gone(machine, ConnId(1))?;
    holds(rt, machine.desk(ConnId(1)).is_none(), "it is gone");
    are_left(rt, &machine.rows()?);
    Ok(())
}

#[test]
fn a_connection_that_is_gone_leaves_no_rows(rt: HostRuntime) -> Result<(), Fail> {
    let machine = machine_over_nothing(rt.alloc())?;
    over(machine, |machine| leaves_rows(&rt, rt.alloc(), machine))
}

fn is_crowded(machine: &mut Machine) -> bool {
    matches!(join(machine), Err(ApplyRefused::TooManyConnections))
}

fn join_257_times(rt: &impl Abort, machine: &mut Machine) -> Result<(), Fail> {
    for _ in 0..256u32 {
        join(machine)?;
    }
    holds(rt, is_crowded(machine), "a 257th");
    gone(machine, ConnId(9))?;
    same_number(rt, join(machine)?, 257, "one after it");
    Ok(())
}

#[test]
fn a_257th_connection_is_refused(rt: HostRuntime) -> Result<(), Fail> {
    let machine = machine_over_nothing(rt.alloc())?;
    over(machine, |machine| join_257_times(&rt, machine))
}

fn is_joined(output: &Output) -> bool {
    matches!(output, Output::Joined(ConnId(1)))
}

// Lets a connection join, ask and take by the history's `event`.
fn records(rt: &impl Abort, alloc: Global, service: &mut Service) -> Result<(), Fail> {
    let joined = service.event(Incoming::Connect)?;
    holds(rt, is_joined(&joined), "it joined");
    let arrival = arrival(alloc, ConnId(1), "|ping|")?;
    let _ = service.event(Incoming::Arrive(arrival))?;
    same_number(rt, service.events().len() as u64, 2, "the events");
    Ok(())
}

#[test]
fn a_history_records_any_event(rt: HostRuntime) -> Result<(), Fail> {
    let service = service_over_nothing(rt.alloc())?;
    over(service, |service| records(&rt, rt.alloc(), service))
}
