// The connection of the standard streams.
ghost use Rattle.std.specs.Prelude.{◌≡◌, IsFalse};
ghost use Rattle.service_hub.specs.connection_worker.specs.Streams.{input_of, output_of};
ghost use Rattle.lone_desk.specs.service_history.specs.History.{opened_history};
ghost use Rattle.lone_desk.specs.service_tables.specs.Opened.{IsOpened, contents_of};
ghost use Rattle.lone_desk.specs.service_tables.specs.Sound.{AreSoundContents};
ghost use Rattle.lone_desk.specs.service_events.specs.Fates.{is_steady};
ghost use Rattle.keyring_program.specs.Serves.{Serves};

use crate::server_number::guid_of;
use crate::status::Status;
use dbus_auth::Auth;
use kr_outside::{Clock, Folder, Sink, Source};
use lone_desk::LoneDesk;
use lone_desk::service_desk::{Desk, JoinRefused};
use lone_desk::service_history::Service;
use service_hub::connection_worker::{Salts, one_thread};
use std::alloc::AllocGlobal;
use std::sync::Wait;

/// Serves this user's client to its end, as the only connection of a new service, on one thread. The
/// seed determines the server's number and the salts. The service is dropped at the end, and its folder
/// with it.
pub fn serve_client<R: AllocGlobal + Wait, I: Source, O: Sink, C: Clock, F: Folder>(
    rt: &R,
    uid: u32,
    seed: [u8; 32],
    input: &mut I,
    output: &mut O,
    clock: &mut C,
    service: Service<F>,
) -> Status
    requires input_open { IsFalse (I.is_closed input.old) }
    requires output_open { IsFalse (O.is_closed output.old) }
    requires starts { IsOpened service.history.state }
    requires sound { AreSoundContents (contents_of service.history.state) }
    requires history { service.history ≡ opened_history service.history.state }
    ensures { Serves uid seed (C.coming clock.old)
        (input_of I.left I.faults I.is_steady I.is_closed input.old)
        (input_of I.left I.faults I.is_steady I.is_closed input.new)
        (output_of O.written O.faults O.is_steady O.is_closed output.old)
        (output_of O.written O.faults O.is_steady O.is_closed output.new)
        (is_steady F.is_steady F.Cell.is_steady service.disk)
        (contents_of service.history.state) result }
{
    let mut desk = match LoneDesk::join(service) {
        Ok(desk) => desk,
        Err(JoinRefused::OutOfMemory) => return Status::Memory,
        Err(JoinRefused::EventsSpent | JoinRefused::TooManyConnections) => unreachable!(),
    };
    let auth = Auth::new(uid, guid_of(seed));
    let mut salts = Salts::new(seed, desk.conn());
    let end = one_thread(rt, auth, input, output, &mut desk, clock, &mut salts);
    Status::of_end(end)
}
