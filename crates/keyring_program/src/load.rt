// The command `load`.
ghost use Rattle.std.specs.Prelude.{◌≡◌, ◌≤◌, ℕ, List, IfOk, IfErr, IsFalse};
ghost use Rattle.dbus_auth.specs.Handshake.{opened};
ghost use Rattle.service_hub.specs.connection_worker.specs.Streams.{output_of};
ghost use Rattle.keyring_program.specs.Loads.{the_user, FitsLoad, HasTalked, Loads, LoadEnds};
ghost use Rattle.keyring_program.specs.Serves.{handshake_run};
ghost use Rattle.keyring_program.specs.Status.{IsLoadStatus};
ghost use Rattle.keyring_program.specs.WholeInput.{IsWholeInput};

use crate::connection::serve_client;
use crate::run_laws::each_request_has_its_reply;
use crate::status::Status;
use kr_memory::{ListedClock, MemorySink, SteadySource};
use kr_memory_disk::{Files, SteadyFolder, SteadySlot};
use kr_outside::{Failed, Sink, write_all};
use load_laws::{
    a_load_counts_all, a_load_has_few_events, a_load_is_read_whole, a_load_loses_no_output,
};
use load_plan::{conversation, count_replies, load_plan, summary};
use lone_desk::service_history::Service;
use std::alloc::AllocGlobal;
use std::sync::Wait;

// The user of the client.
const USER: u32 = 0;

// The most bytes of a file that the folder keeps. The files of a load are never read again.
const ROOM: usize = 1_048_576;

// Serves a client that sends these bytes, which are whole messages and whose outputs can wait together, as the only connection of a new service over a
// folder in memory with nothing in it, and returns what was written to it.
fn talk<R: AllocGlobal + Wait>(rt: &R, sent: Vec<u8>, seed: [u8; 32]) -> Result<MemorySink, Status>
    requires whole { IsWholeInput the_user seed sent.items }
    requires fit { (bytes : List ℕ) → (handshake_run the_user seed sent.items).end ≡ opened bytes
        → FitsLoad bytes }
    ensures served { IfOk result (λ sink. HasTalked seed sent.items sink.kept) }
    ensures memory { IfErr result (λ status. status ≡ Status.Memory) }
{
    let alloc = rt.alloc();
    let Ok(aliases) = SteadySlot::new(alloc, None, ROOM) else {
        return Err(Status::Memory);
    };
    let folder = SteadyFolder::new(alloc, Files::new(alloc), ROOM);
    let Ok(service) = Service::with_nothing(alloc, folder, aliases) else {
        return Err(Status::Memory);
    };
    let mut clock = ListedClock::new(Vec::new(alloc));
    let mut input = SteadySource::new(sent, Vec::new(alloc));
    let mut output = MemorySink::new(alloc, Vec::new(alloc), Vec::new(alloc));
    match serve_client(rt, USER, seed, &mut input, &mut output, &mut clock, service) {
        Status::Done => Ok(output),
        // The output takes memory, and fails only if there is none.
        Status::WriteFault | Status::Memory => Err(Status::Memory),
        Status::Usage
        | Status::ReadFault
        | Status::FolderFault
        | Status::ListenFault
        | Status::Damaged
        | Status::PasswordTooLong
        | Status::EventsSpent
        | Status::Overrun => unreachable!(),
        Status::Violation(_) => unreachable!(),
        Status::AuthRefused(_) => unreachable!(),
    }
}

// The four lines, or that memory ran out.
fn lines<R: AllocGlobal + Wait>(
    rt: &R,
    items: u32,
    number: u64,
    seed: [u8; 32],
) -> Result<Vec<u8>, Status>
    requires few { items ≤ 1000 }
    ensures lines { IfOk result (λ text. Loads items number seed text.items) }
    ensures memory { IfErr result (λ status. status ≡ Status.Memory) }
{
    let alloc = rt.alloc();
    // Laws of a load, on which the numbers rest.
    a_load_is_read_whole();
    a_load_has_few_events();
    a_load_counts_all();
    a_load_loses_no_output();
    each_request_has_its_reply();
    let Ok(calls) = load_plan(alloc, items, number) else {
        return Err(Status::Memory);
    };
    let Ok(sent) = conversation(alloc, USER, calls.as_slice()) else {
        return Err(Status::Memory);
    };
    let sink = match talk(rt, sent, seed) {
        Ok(sink) => sink,
        Err(status) => return Err(status),
    };
    let Ok(counts) = count_replies(rt, number, calls.as_slice(), sink.bytes()) else {
        return Err(Status::Memory);
    };
    match summary(alloc, counts) {
        Ok(text) => Ok(text),
        Err(_) => Err(Status::Memory),
    }
}

/// Runs `load N SEED`: serves a client that makes N items in a folder in memory, searches for them and reads them,
/// and writes what was counted over the replies (`load_plan`).
pub fn run_load<R: AllocGlobal + Wait, O: Sink>(
    rt: &R,
    items: u32,
    number: u64,
    output: &mut O,
    seed: [u8; 32],
) -> Status
    requires few { items ≤ 1000 }
    requires output_open { IsFalse (O.is_closed output.old) }
    ensures status { IsLoadStatus result }
    ensures loads { LoadEnds items number seed
        (output_of O.written O.faults O.is_steady O.is_closed output.old)
        (output_of O.written O.faults O.is_steady O.is_closed output.new) result }
{
    let text = match lines(rt, items, number, seed) {
        Ok(text) => text,
        Err(status) => return status,
    };
    match write_all(output, text.as_slice()) {
        Ok(()) => Status::Done,
        Err(Failed) => Status::WriteFault,
    }
}
