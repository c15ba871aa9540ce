// The requests that the threads bring.

use secret_calls::{Call, Request, Serial, Work};
use service_desk::ReadDesk;

// A Ping with this serial. A reply to it may be wanted.
fn ping(number: u32, wants_reply: bool) -> Option<Request> {
    if number == 0 {
        return None;
    }
    Some(Request {
        serial: Serial { number },
        wants_reply,
        length: 128,
        call: Ok(Call::Ping),
    })
}

/// Brings one more request, and returns whether it was recorded.
pub fn asks<D: ReadDesk>(desk: &mut D, serial: u32, wants_reply: bool) -> bool {
    match ping(serial, wants_reply) {
        Some(request) => desk.arrive(request, 0, [0; 8]).is_ok(),
        None => false,
    }
}

/// A request of this call. A reply may be wanted.
pub fn request(call: Call, wants_reply: bool) -> Request {
    Request {
        serial: Serial { number: 1 },
        wants_reply,
        length: 128,
        call: Ok(call),
    }
}

/// Brings a call, and returns the key that it asks for.
pub fn brings<D: ReadDesk>(desk: &mut D, call: Call) -> Option<Work> {
    match desk.arrive(request(call, false), 0, [0; 8]) {
        Ok(work) => work,
        Err(_) => None,
    }
}
