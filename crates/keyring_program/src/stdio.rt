// The command `stdio`.
ghost use Rattle.std.specs.Prelude.{◌≡◌, ◌≤◌, ◌⊎◌, ℕ, IsTrue, IsFalse, List};
ghost use Rattle.kr_outside.specs.Faults.{KeepsSteady, Rose, StandsStill};
ghost use Rattle.kr_outside.specs.Host.{GivesOne, GivesOneAtMost};
ghost use Rattle.kr_outside.specs.RenameDisk.{Image};
ghost use Rattle.service_hub.specs.connection_worker.specs.Streams.{input_of, output_of};
ghost use Rattle.keyring_program.specs.Folder.{IsOpened, HadFolder, HasOpened};
ghost use Rattle.lone_desk.specs.service_tables.specs.Opened.{Contents};
ghost use Rattle.keyring_program.specs.Serves.{Serves};
ghost use Rattle.keyring_program.specs.Status.{IsStdioStatus};
ghost use Rattle.keyring_program.specs.WholeInput.{IsWholeInput};

use crate::connection::serve_client;
use crate::folder::open_service;
use crate::status::Status;
use kr_outside::{Host, Sink, Source};
use lone_desk::service_machine::OpenRefused;
use std::alloc::AllocGlobal;
use std::sync::Wait;

/// Runs `stdio DIR UID`: opens a service over the folder DIR, which the service loads and keeps to the
/// end, and serves the client of the user UID on these streams.
pub fn run_stdio<R: AllocGlobal + Wait, I: Source, O: Sink, H: Host>(
    rt: &R,
    folder: &str,
    uid: u32,
    input: &mut I,
    output: &mut O,
    host: &mut H,
    seed: [u8; 32],
) -> Status
    // Both streams are open.
    requires input_open { IsFalse (I.is_closed input.old) }
    requires output_open { IsFalse (O.is_closed output.old) }

    // The folder comes first: until it is open nothing is read or written, and the clock isn't taken.
    ensures status { IsStdioStatus result }
    ensures unserved { result ≡ Status.FolderFault → (input.new ≡ input.old)
        × (output.new ≡ output.old) × (H.coming host.new ≡ H.coming host.old) }

    // The host opens one folder at most, and exactly one if the run had it; the host has no fault then.
    ensures one_folder { GivesOneAtMost (H.given host.old) (H.given host.new) }
    ensures had_folder { HadFolder result → GivesOne (H.given host.old) (H.given host.new)
        × (H.faults host.new ≡ H.faults host.old) }

    // The folder is at fault only if the host's count rose, or if what the host opened may fail.
    // Otherwise this folder was loaded.
    ensures folder_fault { result ≡ Status.FolderFault
        → Rose (H.faults host.old) (H.faults host.new) ⊎ ¬ (IsTrue (H.is_steady host.old)) }
    ensures opened { (images : List ℕ → Image) → IsTrue (H.is_honest host.old)
        → H.told host.old folder.now ≡ Some images → HadFolder result → IsOpened images }
    ensures doors { H.shut_doors host.new ≡ H.shut_doors host.old }
    ensures host_later { H.faults host.old ≤ H.faults host.new }
    ensures host_honest { H.is_honest host.new ≡ H.is_honest host.old }
    ensures host_steady { KeepsSteady (H.is_steady host.old) (H.is_steady host.new)
        (H.faults host.old) (H.faults host.new) }

    // What was read, recorded and written, and why the run ended as it did; the service starts with what the
    // folder has. Over a steady host no device failed in what was recorded.
    ensures served { (result ≡ Status.FolderFault) ⊎ ((contents : Contents)
        × (HadFolder result → (images : List ℕ → Image) → IsTrue (H.is_honest host.old)
        → H.told host.old folder.now ≡ Some images → HasOpened H.Dir.Cell images contents)
        × Serves uid seed (H.coming host.old)
        (input_of I.left I.faults I.is_steady I.is_closed input.old)
        (input_of I.left I.faults I.is_steady I.is_closed input.new)
        (output_of O.written O.faults O.is_steady O.is_closed output.old)
        (output_of O.written O.faults O.is_steady O.is_closed output.new)
        (H.is_steady host.old) contents result) }

    // Over a host that never fails and streams that didn't, an open handshake and a stream of messages
    // after it are answered to their end, or to a call whose outputs can't wait together.
    ensures complete { (bytes : List ℕ) → IsWholeInput uid seed bytes
        → I.left input.old ≡ Some bytes → IsTrue (H.is_steady host.old)
        → StandsStill (I.faults input.old) (I.faults input.new)
        → StandsStill (O.faults output.old) (O.faults output.new)
        → (result ≡ Status.Done) ⊎ ((result ≡ Status.Memory) ⊎ (result ≡ Status.Overrun)) }
{
    match open_service(rt.alloc(), host, folder) {
        Ok(service) => {
            let mut clock = host.clock();
            serve_client(rt, uid, seed, input, output, &mut clock, service)
        }
        Err(OpenRefused::Folder) => Status::FolderFault,
        Err(OpenRefused::OutOfMemory) => Status::Memory,
    }
}
