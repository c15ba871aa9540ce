// The service of the program, over its folder.
ghost use Rattle.std.specs.Prelude.{◌≡◌, ◌≤◌, ◌⊎◌, IsTrue, IsErrOf, IfOk, OnOk, ℕ, List};
ghost use Rattle.kr_outside.specs.Faults.{KeepsSteady, Rose};
ghost use Rattle.kr_outside.specs.Host.{GivesOne, GivesOneAtMost};
ghost use Rattle.kr_outside.specs.RenameDisk.{Image};
ghost use Rattle.lone_desk.specs.service_history.specs.History.{opened_history};
ghost use Rattle.lone_desk.specs.service_tables.specs.Opened.{IsOpened, contents_of};
ghost use Rattle.lone_desk.specs.service_tables.specs.Sound.{AreSoundContents};
ghost use Rattle.lone_desk.specs.service_events.specs.Fates.{is_steady};
ghost use Rattle.keyring_program.specs.Folder.{HasOpened};

use kr_outside::{Host, OutsideRefused};
use lone_desk::service_history::Service;
use lone_desk::service_machine::OpenRefused;
use std::alloc::Global;

/// Opens a service over the folder at this path. The host is asked for no other folder.
///
/// Refused with `Folder` if the host's count of faults rose, or the folder or one of its slots
/// failed, and with `OutOfMemory` if no memory was left.
pub fn open_service<H: Host>(
    alloc: Global,
    host: &mut H,
    path: &str,
) -> Result<Service<H::Dir>, OpenRefused>
    ensures starts { IfOk result (λ service. IsOpened service.history.state) }
    ensures sound { IfOk result (λ service.
        AreSoundContents (contents_of service.history.state)) }
    ensures history { IfOk result (λ service.
        service.history ≡ opened_history service.history.state) }
    ensures opened { (images : List ℕ → Image) → IsTrue (H.is_honest host.old)
        → H.told host.old path.now ≡ Some images
        → IfOk result (λ service. HasOpened H.Dir.Cell images
        (contents_of service.history.state)) }
    ensures steady_disk { IfOk result (λ service.
        is_steady H.Dir.is_steady H.Dir.Cell.is_steady service.disk ≡ H.is_steady host.old) }

    ensures cause { IsErrOf result OpenRefused.Folder
        → Rose (H.faults host.old) (H.faults host.new) ⊎ ¬ (IsTrue (H.is_steady host.old)) }

    // The host opened this folder and no other, and its clock and its doors are as they were.
    ensures given { OnOk result (GivesOne (H.given host.old) (H.given host.new)) }
    ensures one { GivesOneAtMost (H.given host.old) (H.given host.new) }
    ensures still { OnOk result (H.faults host.new ≡ H.faults host.old) }
    ensures coming { H.coming host.new ≡ H.coming host.old }
    ensures doors { H.shut_doors host.new ≡ H.shut_doors host.old }
    ensures later { H.faults host.old ≤ H.faults host.new }
    ensures honest { H.is_honest host.new ≡ H.is_honest host.old }
    ensures steady { KeepsSteady (H.is_steady host.old) (H.is_steady host.new)
        (H.faults host.old) (H.faults host.new) }
{
    match host.folder(path) {
        Ok(folder) => Service::open(alloc, folder),
        Err(OutsideRefused::Failed) => Err(OpenRefused::Folder),
        Err(OutsideRefused::OutOfMemory) => Err(OpenRefused::OutOfMemory),
    }
}
