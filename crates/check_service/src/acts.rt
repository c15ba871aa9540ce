// What connections do, and what they get.

use crate::clock::Clock;
use crate::play::{Service, put};
use crate::taken::{taken_word, write_fates, write_taken};
use check_rows::{Line, cell};
use check_words::{call_of, number};
use kr_base::ConnId;
use service_history::service_machine::secret_calls::{Refused, Request, Serial, Work};
use service_history::service_machine::{Arrival, BroughtKey, JoinRefused};
use std::alloc::Global;

fn join(service: &mut Service, line: &mut Line) {
    match service.join() {
        Ok(conn) => line.number(conn.0),
        Err(JoinRefused::TooManyConnections) => line.add("TooManyConnections"),
        Err(_) => line.lack(),
    }
}

// Lets this many connections join, and writes the result of the last.
fn join_all(service: &mut Service, count: u64, line: &mut Line) {
    for _ in 0..count {
        line.clear();
        join(service, line);
    }
}

// The connection of a request, and whether it wants a reply: not if the number ends with `-`.
fn caller_of(words: &str) -> (u64, bool) {
    let caller = words.strip_suffix("-");
    (
        number(caller.unwrap_or(words)).unwrap_or(0),
        caller.is_none(),
    )
}

fn request_of(alloc: Global, cells: &str, wants_reply: bool, length: u32) -> Option<Request> {
    let call = call_of(alloc, cells)?;
    Some(Request {
        serial: Serial { number: 7 },
        wants_reply,
        length,
        call,
    })
}

// The next request: its connection, its call, the words of the call, and its length, which is 128 if there is no such cell.
fn arrival(alloc: Global, clock: &mut Clock, cells: &str) -> Option<Arrival> {
    let (conn, wants_reply) = caller_of(cell(cells, 0));
    let length = cell(cells, 3).parse::<u32>().unwrap_or(128);
    let request = request_of(alloc, cells, wants_reply, length)?;
    clock.step();
    Some(Arrival {
        conn: ConnId(conn),
        request,
        now: clock.now(),
        salt: clock.salt(),
    })
}

// Brings a request, and returns the key that it asks for. A connection that is gone gets nothing.
fn ask(service: &mut Service, clock: &mut Clock, cells: &str, line: &mut Line) -> Option<Work> {
    let Some(arrival) = arrival(line.alloc(), clock, cells) else {
        line.add("no request");
        return None;
    };
    match service.arrive(arrival) {
        Ok(work) => work,
        Err(Refused::Gone) => None,
        Err(_) => {
            line.lack();
            None
        }
    }
}

fn brought_word(brought: Result<(), Refused>) -> &'static str {
    match brought {
        Ok(()) => "recorded",
        Err(Refused::Gone) => "gone",
        Err(_) => "refused",
    }
}

// Derives a key, and brings it for a connection, which may be gone.
fn bring(service: &mut Service, clock: &mut Clock, conn: u64, work: Work) -> &'static str {
    clock.step();
    let done = work.finish();
    let conn = ConnId(conn);
    let now = clock.now();
    brought_word(service.derived(BroughtKey { conn, done, now }))
}

// Brings a request, and at once the key that it asks for.
fn ask_whole(service: &mut Service, clock: &mut Clock, cells: &str, line: &mut Line) {
    if let Some(work) = ask(service, clock, cells, line) {
        let (conn, _) = caller_of(cell(cells, 0));
        if bring(service, clock, conn, work) != "recorded" {
            line.add("not recorded: ");
        }
    }
}

// Brings a request this many times. The caller takes what it gets by those before the last, and it isn't written.
fn ask_often(service: &mut Service, clock: &mut Clock, count: u64, cells: &str, line: &mut Line) {
    let (conn, _) = caller_of(cell(cells, 0));
    for done in 0..count {
        if done > 0 {
            let _ = service.take(ConnId(conn));
        }
        ask_whole(service, clock, cells, line);
    }
}

// Brings a request this many times, and nobody takes what waits.
fn flood(service: &mut Service, clock: &mut Clock, count: u64, cells: &str, line: &mut Line) {
    for _ in 0..count {
        ask_whole(service, clock, cells, line);
    }
    line.add("asked");
}

fn write_all(service: &mut Service, line: &mut Line) {
    write_taken(service.take(ConnId(1)), line);
    line.add("|");
    write_taken(service.take(ConnId(2)), line);
    line.add("|");
    write_taken(service.take(ConnId(3)), line);
}

// Brings the key that was kept.
fn bring_kept(
    service: &mut Service,
    clock: &mut Clock,
    work: Option<Work>,
    cells: &str,
    line: &mut Line,
) {
    let conn = number(cells).unwrap_or(0);
    match work {
        Some(work) => line.add(bring(service, clock, conn, work)),
        None => line.add("no key is kept"),
    }
}

// What the key that was kept is derived from, except for its password.
fn write_key(work: &Option<Work>, line: &mut Line) {
    match work {
        Some(work) => {
            line.hex(work.salt.as_slice());
            line.add(", ");
            line.number(u64::from(work.iterations));
            line.add(" times");
        }
        None => line.add("no key is kept"),
    }
}

// A count, and what it counts.
fn counted(cells: &str) -> (u64, &str) {
    let (count, cells) = cells.split_once(' ').unwrap_or(("0", cells));
    (number(count).unwrap_or(0), cells)
}

// Runs a row that reads the service, lets connections join or lets one leave; false if the row is of another kind.
fn is_short(service: &mut Service, kind: &str, cells: &str, line: &mut Line) -> bool {
    let count = number(cells).unwrap_or(1);
    match kind {
        "join" => join_all(service, count, line),
        "era" => line.number(service.era()),
        "events" => line.number(service.events().len() as u64),
        "fates" => write_fates(service.events().last(), line),
        "taken" => line.add(taken_word(service.take(ConnId(count)))),
        "outputs" => write_taken(service.take(ConnId(count)), line),
        "go" => {
            service.leave(ConnId(count));
            line.add("left");
        }
        _ => return false,
    }
    true
}

// Runs a row after which the connections take what waits.
fn talk(
    service: &mut Service,
    clock: &mut Clock,
    kept: &mut Option<Work>,
    kind: &str,
    cells: &str,
    line: &mut Line,
) {
    let (count, rest) = counted(cells);
    match kind {
        "ask" => ask_whole(service, clock, cells, line),
        "often" => ask_often(service, clock, count, rest, line),
        "hold" => put(kept, ask(service, clock, cells, line)),
        "gone" => service.gone(ConnId(number(cells).unwrap_or(0))),
        "leave" => service.leave(ConnId(number(cells).unwrap_or(0))),
        "take" => (),
        _ => line.add("no such kind"),
    }
    write_all(service, line);
}

/// Runs a row on the service.
///
/// `ask`, `often`, `hold`, `take`, `gone` and `leave` write all that the connections 1, 2 and 3 get: `ask` brings a request and
/// the key that it asks for, `often` does so this many times, and `hold` keeps the key. `bring` brings a kept key for a
/// connection, and `key` writes its salt and its iterations. `flood` brings a request this many times, and nobody takes what
/// waits; `taken` writes what kind of thing one connection takes, and `outputs` all that it takes. `join` lets this many
/// connections join, and `go` lets one leave. `era`, `events` and `fates` write the service's era, the number of its events, and
/// how each storing of the last one ended.
pub fn act(
    service: &mut Service,
    clock: &mut Clock,
    kept: &mut Option<Work>,
    kind: &str,
    cells: &str,
    line: &mut Line,
) {
    if is_short(service, kind, cells, line) {
        return;
    }
    let (count, rest) = counted(cells);
    match kind {
        "bring" => bring_kept(service, clock, kept.take(), cells, line),
        "key" => write_key(kept, line),
        "flood" => flood(service, clock, count, rest, line),
        _ => talk(service, clock, kept, kind, cells, line),
    }
}
