// The command `check`.
ghost use Rattle.std.specs.Prelude.{◌≡◌, ◌≤◌, ◌⊎◌, ℕ, List, Option, IsTrue, IsFalse, IsNone, IsSome, IfSome};
ghost use Rattle.kr_outside.specs.Faults.{KeepsSteady, Rose};
ghost use Rattle.kr_outside.specs.Host.{GivesOne, GivesOneAtMost};
ghost use Rattle.ring_check.specs.Batches.{KeepsOutput};
ghost use Rattle.ring_check.specs.Looks.{IsUntouched};
ghost use Rattle.ring_check.specs.Verdict.{password_in};
ghost use Rattle.keyring_program.specs.Checks.{Checks, ReadsPassword};
ghost use Rattle.keyring_program.specs.FirstLine.{TakesPassword};
ghost use Rattle.keyring_program.specs.Status.{IsCheckStatus, IsUncheckedStatus};

use crate::first_line::{LineRefused, password_of};
use crate::status::Status;
use kr_base::Bytes;
use kr_outside::{Folder, Host, OutsideRefused, Sink, Source};
use ring_check::{Looked, Progress, check_folder};
use std::alloc::AllocGlobal;
use std::thread::Threads;

/// A folder that was checked, and each slot that was made of it.
#[derive(Drop)]
pub struct CheckedFolder<F: Folder> {
    /// The folder.
    pub folder: F,
    /// The slots, in byte order of their names.
    pub looked: Vec<Looked<F::Cell>>,
}

/// How the run of a check ended.
#[derive(Drop)]
pub struct CheckRun<F: Folder> {
    /// The status of the run.
    pub status: Status,
    /// The folder, if it was opened.
    pub checked: Option<CheckedFolder<F>>,
}

/// Opens the folder at this path, and checks it by this password if there is one.
fn check_at<R: AllocGlobal + Threads + Sync, O: Sink, H: Host, P: Progress>(
    rt: &R,
    path: &str,
    password: Option<&Bytes>,
    output: &mut O,
    host: &mut H,
    progress: &mut P,
) -> CheckRun<H::Dir>
    requires is_open { IsFalse (O.is_closed output.old) }
    ensures checks { IfSome result.checked (λ checked. Checks H.Dir.images H.Dir.may_leave
        H.Dir.made H.Dir.is_honest H.Dir.is_steady H.Dir.faults H.Dir.Cell.faults
        (IsUntouched H.Dir.Cell.seen H.Dir.Cell.temporary H.Dir.Cell.may_leave
        H.Dir.Cell.is_honest H.Dir.Cell.is_steady) (H.told host.old path.now)
        (H.is_honest host.old) (H.is_steady host.old) (password_in password.entry)
        (O.written output.old) (O.written output.new) result.status checked.folder
        checked.looked.items) }
    ensures unchecked { IsNone result.checked → IsUncheckedStatus result.status
        × (output.new ≡ output.old) × (H.given host.new ≡ H.given host.old) }
    ensures given { IsSome result.checked → GivesOne (H.given host.old) (H.given host.new)
        × (H.faults host.new ≡ H.faults host.old) }
    ensures status { IsCheckStatus result.status × ¬ (result.status ≡ Status.ReadFault)
        × ¬ (result.status ≡ Status.PasswordTooLong) }
    ensures folder_fault { result.status ≡ Status.FolderFault
        → Rose (H.faults host.old) (H.faults host.new) ⊎ ¬ (IsTrue (H.is_steady host.old)) }
    ensures kept { KeepsOutput O.faults O.is_steady O.is_closed
        (result.status ≡ Status.WriteFault) output.old output.new }
    ensures coming { H.coming host.new ≡ H.coming host.old }
    ensures doors { H.shut_doors host.new ≡ H.shut_doors host.old }
    ensures later { H.faults host.old ≤ H.faults host.new }
    ensures honest { H.is_honest host.new ≡ H.is_honest host.old }
    ensures steady { KeepsSteady (H.is_steady host.old) (H.is_steady host.new)
        (H.faults host.old) (H.faults host.new) }
{
    let mut folder = match host.folder(path) {
        Ok(folder) => folder,
        Err(OutsideRefused::Failed) => {
            return CheckRun {
                status: Status::FolderFault,
                checked: None,
            };
        }
        Err(OutsideRefused::OutOfMemory) => {
            return CheckRun {
                status: Status::Memory,
                checked: None,
            };
        }
    };
    let checked = check_folder(rt, &mut folder, password, output, progress);
    CheckRun {
        status: Status::of_check(checked.end),
        checked: Some(CheckedFolder {
            folder,
            looked: checked.looked,
        }),
    }
}

/// Runs `check DIR [--password]`: reads the password from the input, if one is asked for, then opens the folder DIR,
/// and checks each file whose name ends in `.keyring`, by that password if there is one. Writes one line for each file.
/// Nothing in the folder is changed. Returns the folder that was checked, with the slots that were made of it.
pub fn run_check<R: AllocGlobal + Threads + Sync, I: Source, O: Sink, H: Host, P: Progress>(
    rt: &R,
    folder: &str,
    is_asked: bool,
    input: &mut I,
    output: &mut O,
    host: &mut H,
    progress: &mut P,
) -> CheckRun<H::Dir>
    // Both streams are open.
    requires input_open { IsFalse (I.is_closed input.old) }
    requires output_open { IsFalse (O.is_closed output.old) }
    ensures status { IsCheckStatus result.status }

    // The password comes first: until it is read nothing is written, and the host isn't asked for anything.
    ensures reads { ReadsPassword I.left I.faults I.is_steady I.is_closed is_asked
        input.old input.new result.status }
    ensures unread { (result.status ≡ Status.ReadFault) ⊎ (result.status ≡ Status.PasswordTooLong)
        → (output.new ≡ output.old) × (host.new ≡ host.old) }

    // The report of the folder, which is only looked at. If no folder was opened, nothing was written.
    ensures checks { IfSome result.checked (λ checked. (password : Option (List ℕ))
        × TakesPassword I.left is_asked input.old input.new password
        × Checks H.Dir.images H.Dir.may_leave H.Dir.made H.Dir.is_honest H.Dir.is_steady
        H.Dir.faults H.Dir.Cell.faults (IsUntouched H.Dir.Cell.seen H.Dir.Cell.temporary
        H.Dir.Cell.may_leave H.Dir.Cell.is_honest H.Dir.Cell.is_steady)
        (H.told host.old folder.now) (H.is_honest host.old) (H.is_steady host.old) password
        (O.written output.old) (O.written output.new) result.status checked.folder
        checked.looked.items) }
    ensures unchecked { IsNone result.checked → IsUncheckedStatus result.status
        × (output.new ≡ output.old) × (H.given host.new ≡ H.given host.old) }
    ensures kept { KeepsOutput O.faults O.is_steady O.is_closed
        (result.status ≡ Status.WriteFault) output.old output.new }

    // The host opens one folder at most. It is at fault only if the host's count rose, or if what the host opened may
    // fail.
    ensures given { IsSome result.checked → GivesOne (H.given host.old) (H.given host.new)
        × (H.faults host.new ≡ H.faults host.old) }
    ensures folder_fault { result.status ≡ Status.FolderFault
        → Rose (H.faults host.old) (H.faults host.new) ⊎ ¬ (IsTrue (H.is_steady host.old)) }
    ensures coming { H.coming host.new ≡ H.coming host.old }
    ensures doors { H.shut_doors host.new ≡ H.shut_doors host.old }
    ensures host_later { H.faults host.old ≤ H.faults host.new }
    ensures host_honest { H.is_honest host.new ≡ H.is_honest host.old }
    ensures host_steady { KeepsSteady (H.is_steady host.old) (H.is_steady host.new)
        (H.faults host.old) (H.faults host.new) }
{
    match password_of(rt.alloc(), is_asked, input) {
        Ok(Some(line)) => check_at(rt, folder, Some(&line), output, host, progress),
        Ok(None) => check_at(rt, folder, None, output, host, progress),
        Err(refused) => CheckRun {
            status: Status::of_line(refused),
            checked: None,
        },
    }
}
