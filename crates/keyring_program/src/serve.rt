// The command `serve`.
ghost use Rattle.std.specs.Prelude.{◌≡◌, ◌≤◌, ◌⊎◌, ℕ, IsTrue, List, [], IfOk};
ghost use Rattle.kr_outside.specs.Faults.{KeepsSteady, Rose};
ghost use Rattle.kr_outside.specs.Host.{GivesOne, GivesOneAtMost};
ghost use Rattle.kr_outside.specs.RenameDisk.{Image};
ghost use Rattle.lone_desk.specs.service_events.specs.Fates.{is_steady};
ghost use Rattle.lone_desk.specs.service_tables.specs.Opened.{Contents};
ghost use Rattle.service_hub.specs.shared_service.specs.Passes.{opened};
ghost use Rattle.keyring_program.specs.Doors.{HasServed, TakesBackOneAtMost};
ghost use Rattle.keyring_program.specs.Folder.{HasOpened, IsOpened, HadFolder};
ghost use Rattle.keyring_program.specs.ServerNumber.{guid};
ghost use Rattle.keyring_program.specs.ServesLinks.{IsUnserved, ServesDoor};
ghost use Rattle.keyring_program.specs.Status.{IsServeStatus};

use crate::folder::open_service;
use crate::server_number::guid_of;
use crate::status::Status;
use kr_base::OutOfMemory;
use kr_outside::{Clock, Folder, Host, Listener, OutsideRefused};
use lone_desk::service_history::Service;
use lone_desk::service_machine::OpenRefused;
use service_hub::shared_service::SharedService;
use service_hub::{LinkSpawner, ServiceHub, serve_links};
use std::alloc::{AllocGlobal, Global};
use std::sync::Wait;
use std::thread::Threads;

/// A spawner of the jobs of a daemon on this host.
pub type HostSpawner<R, H> = LinkSpawner<R, <H as Host>::Dir, <H as Host>::Time, <H as Host>::Door>;

// A hub over a service that threads share from now on.
fn hub_over<R: Wait + Copy, F: Folder, C: Clock>(
    alloc: Global,
    rt: R,
    service: Service<F>,
    uid: u32,
    seed: [u8; 32],
    clock: C,
) -> Result<ServiceHub<R, F, C>, OutOfMemory>
    ensures pass { IfOk result (λ hub. hub.pass ≡ opened hub.pass.home.table
        (is_steady F.is_steady F.Cell.is_steady service.disk) service.history.window) }
    ensures uid { IfOk result (λ hub. hub.uid ≡ uid) }
    ensures guid { IfOk result (λ hub. hub.guid ≡ guid seed) }
    ensures seed { IfOk result (λ hub. hub.seed ≡ seed) }
    ensures refused { IfOk result (λ hub. hub.refused ≡ 0) }
{
    let (shared, pass) = SharedService::open(alloc, service)?;
    ServiceHub::new(alloc, rt, shared, pass, uid, guid_of(seed), seed, clock)
}

/// Runs `serve DIR SOCKET --uid U [--connections N]`: opens a service over the folder DIR, which the service
/// loads and keeps to the end, shares it among threads, opens the door SOCKET, and serves each link at it by
/// a job of its own, for the user U; until no further link comes, or until N links were accepted, and all
/// jobs have ended. The host takes the door back at last. The standard streams aren't used.
pub fn run_serve<R: AllocGlobal + Threads + Wait + Copy + Send + Sync + Drop + 'static, H: Host>(
    rt: &R,
    folder: &str,
    socket: &str,
    uid: u32,
    connections: Option<u64>,
    host: &mut H,
    spawner: &mut HostSpawner<R, H>,
    seed: [u8; 32],
) -> Status
where
    H::Dir: Send + 'static,
    H::Time: Send + 'static,
    <H::Dir as Folder>::Cell: Send + 'static,
    <H::Door as Listener>::In: Send + 'static,
    <H::Door as Listener>::Out: Send + 'static,
    requires idle { spawner.old.started ≡ [] }
    ensures status { IsServeStatus result }
    ensures idle { spawner.new.started ≡ [] }

    // It is done only if the host took back one door more, at SOCKET, which had ended, or had given N links.
    // Otherwise the host took back one door at most.
    ensures done { result ≡ Status.Done
        → HasServed socket.now connections (H.shut_doors host.old) (H.shut_doors host.new) }
    ensures one_door { TakesBackOneAtMost (H.shut_doors host.old) (H.shut_doors host.new) }

    // The folder and the door are at fault only if the host's count rose, or if what the host opened may fail.
    ensures folder_fault { result ≡ Status.FolderFault
        → Rose (H.faults host.old) (H.faults host.new) ⊎ ¬ (IsTrue (H.is_steady host.old)) }
    ensures listen_fault { result ≡ Status.ListenFault
        → Rose (H.faults host.old) (H.faults host.new) ⊎ ¬ (IsTrue (H.is_steady host.old)) }

    ensures unserved { result ≡ Status.FolderFault → H.coming host.new ≡ H.coming host.old }

    // Over a host that never fails neither comes.
    ensures complete { IsTrue (H.is_steady host.old)
        → (result ≡ Status.Done) ⊎ (result ≡ Status.Memory) }

    // The host opens one folder at most, and exactly one if the run had it; it is the one that was loaded.
    ensures one_folder { GivesOneAtMost (H.given host.old) (H.given host.new) }
    ensures had_folder { HadFolder result → GivesOne (H.given host.old) (H.given host.new) }
    ensures opened { (images : List ℕ → Image) → IsTrue (H.is_honest host.old)
        → H.told host.old folder.now ≡ Some images → HadFolder result → IsOpened images }

    // Unless it ended before its door was open: what became of each link, what each connection read, recorded and
    // wrote, and the history that all of them have, which is legal from what the folder had.
    ensures served { IsUnserved result (H.shut_doors host.old) (H.shut_doors host.new)
        spawner.old spawner.new ⊎ ((contents : Contents)
        × ((images : List ℕ → Image) → IsTrue (H.is_honest host.old)
        → H.told host.old folder.now ≡ Some images → HasOpened H.Dir.Cell images contents)
        × ServesDoor H.Door.In.left H.Door.In.faults H.Door.In.is_steady H.Door.In.is_closed
        H.Door.Out.written H.Door.Out.faults H.Door.Out.is_steady H.Door.Out.is_closed
        uid seed socket.now connections (H.is_steady host.old) contents
        (H.shut_doors host.old) (H.shut_doors host.new) spawner.old spawner.new result) }
    ensures host_later { H.faults host.old ≤ H.faults host.new }
    ensures host_honest { H.is_honest host.new ≡ H.is_honest host.old }
    ensures host_steady { KeepsSteady (H.is_steady host.old) (H.is_steady host.new)
        (H.faults host.old) (H.faults host.new) }
{
    let service = match open_service(rt.alloc(), host, folder) {
        Ok(service) => service,
        Err(OpenRefused::Folder) => return Status::FolderFault,
        Err(OpenRefused::OutOfMemory) => return Status::Memory,
    };
    let clock = host.clock();
    let Ok(hub) = hub_over(rt.alloc(), *rt, service, uid, seed, clock) else {
        return Status::Memory;
    };
    let mut door = match host.listen(socket) {
        Ok(door) => door,
        Err(OutsideRefused::Failed) => return Status::ListenFault,
        Err(OutsideRefused::OutOfMemory) => return Status::Memory,
    };
    let served = serve_links(rt, hub, &mut door, spawner, connections);
    host.shut(door);
    Status::of_loop(served.end)
}
