// The traits of a desk, over a service of one thread.

use crate::checks::{holds, same_number, same_text};
use crate::folders::{Service, lent, over, service_over_nothing};
use check_rows::cell;
use check_words::{call_of, number};
use lone_desk::LoneDesk;
use lone_desk::service_desk::{Desk, JoinRefused, ReadDesk, WriteDesk};
use lone_desk::service_history::service_machine::secret_calls::{
    Body, Call, CallFault, Out, Refused, Request, Serial, Taken, Work,
};
use std::alloc::Global;
use std::process::Abort;
use std::test::Fail;

// The serial of a row.
fn serial_of(text: &str) -> Result<Serial, Fail> {
    let number = text.parse::<u32>().ok().ok_or("serial")?;
    if number == 0 {
        return Err("serial")?;
    }
    Ok(Serial { number })
}

// A request with this serial.
fn request(serial: Serial, call: Result<Call, CallFault>) -> Request {
    Request {
        serial,
        wants_reply: true,
        length: 128,
        call,
    }
}

// A return with this serial, in words.
fn return_told(number: u32, body: &Body) -> &'static str {
    match body {
        Body::Session(_) if number == 1 => "a session",
        Body::Empty if number == 2 => "a pong",
        _ => "other outputs",
    }
}

fn out_told(out: &Out) -> &'static str {
    match out {
        Out::Return { to, body } => return_told(to.number, body),
        Out::Error { to: _, name: _ } => "other outputs",
        Out::Signal(_) => "other outputs",
    }
}

fn outs_told(outs: &[Out]) -> &'static str {
    match outs {
        [out] => out_told(out),
        _ => "other outputs",
    }
}

// What a desk returns, in words.
fn taken_told(taken: Taken) -> &'static str {
    match taken {
        Taken::Outs(outs) => outs_told(outs.as_slice()),
        Taken::Empty => "nothing yet",
        Taken::Overrun => "overrun",
        Taken::Closed => "closed",
        Taken::Missing => "missing",
    }
}

// The result of a request, in words.
fn arrived_told(arrived: Result<Option<Work>, Refused>) -> &'static str {
    match arrived {
        Ok(Some(_)) => "work",
        Ok(None) => "taken",
        Err(Refused::EventsSpent) => "spent",
        Err(Refused::Gone) => "gone",
        Err(Refused::OutOfMemory) => "out of memory",
    }
}

fn arrive<D: ReadDesk>(desk: &mut D, request: Request, now: u64) -> &'static str {
    arrived_told(desk.arrive(request, now, now.to_be_bytes()))
}

fn take<D: WriteDesk>(desk: &mut D) -> &'static str {
    taken_told(desk.take())
}

fn leave<D: ReadDesk>(desk: &mut D) -> &'static str {
    desk.leave();
    ""
}

fn gone<D: WriteDesk>(desk: &mut D) -> &'static str {
    desk.gone();
    ""
}

// Records the request of a row.
fn ask<D: ReadDesk>(alloc: Global, desk: &mut D, row: &str) -> Result<&'static str, Fail> {
    let serial = serial_of(cell(row, 0))?;
    let now = number(cell(row, 3)).ok_or("a moment")?;
    let call = call_of(alloc, row).ok_or("a call")?;
    let request = request(serial, call);
    Ok(arrive(desk, request, now))
}

// What is done through the traits of a desk: take, leave, gone or a request. A request has a serial, a
// call with its argument, and a moment; the result comes last.
const CONVERSATION: &str = "\
1|open|plain|1700000000|taken
|take|||a session
|take|||nothing yet
2|ping||1700000001|taken
|leave|||
|take|||a pong
|take|||closed
|take|||missing
|gone|||
3|ping||0|gone
";

fn does<D: ReadDesk + WriteDesk>(
    alloc: Global,
    desk: &mut D,
    row: &str,
) -> Result<&'static str, Fail> {
    match cell(row, 1) {
        "take" => Ok(take(desk)),
        "leave" => Ok(leave(desk)),
        "gone" => Ok(gone(desk)),
        _ => ask(alloc, desk, row),
    }
}

fn talks<D: ReadDesk + WriteDesk>(
    rt: &impl Abort,
    alloc: Global,
    desk: &mut D,
) -> Result<(), Fail> {
    same_number(rt, desk.conn().0, 1, "its number");
    for row in CONVERSATION.lines() {
        let told = does(alloc, desk, row)?;
        same_text(rt, told, cell(row, 4), row);
    }
    Ok(())
}

fn stores_7(rt: &impl Abort, service: &Service) -> Result<(), Fail> {
    same_number(rt, service.events().len() as u64, 7, "the events");
    Ok(())
}

#[test]
fn a_desk_is_asked_and_takes_until_it_is_closed(rt: HostRuntime) -> Result<(), Fail> {
    let desk = LoneDesk::join(service_over_nothing(rt.alloc())?)?;
    let desk = lent(desk, |desk| talks(&rt, rt.alloc(), desk))?;
    over(desk.into_service(), |service| stores_7(&rt, service))
}

fn join_256(service: &mut Service) -> Result<(), Fail> {
    for _ in 0..256u32 {
        service.join()?;
    }
    Ok(())
}

fn is_crowded(service: Service) -> bool {
    matches!(
        LoneDesk::join(service),
        Err(JoinRefused::TooManyConnections)
    )
}

#[test]
fn a_257th_connection_is_refused(rt: HostRuntime) -> Result<(), Fail> {
    let service = service_over_nothing(rt.alloc())?;
    let service = lent(service, |service| join_256(service))?;
    holds(&rt, is_crowded(service), "a 257th");
    Ok(())
}
