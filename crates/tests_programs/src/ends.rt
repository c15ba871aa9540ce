// How the top call ends for a command line, and over folders that fail.
ghost use Rattle.std.specs.Prelude.{◌≡◌, [], IfOk};

use crate::checks::{begins, cell, ends, numbers, same_number};
use crate::parts::text_of;
use crate::runs::{empty_host, run_on, steady_source};
use dbus_auth::AuthFault;
use dbus_framing::Violation;
use keyring_program::Status;
use kr_base::Bytes;
use kr_memory::{ListedClock, SteadySink, SteadySource};
use kr_memory_disk::{MemoryFolder, MemoryHost};
use kr_outside::{Folder, Host, Listener};
use real_edges::RealHost;
use std::alloc::{AllocGlobal, Global};
use std::fs::{self, Permissions};
use std::os::unix::fs::PermissionsExt;
use std::process::Abort;
use std::sync::Wait;
use std::test::Fail;
use std::thread::Threads;

// The arguments of a command line, each after a `/`, and how the run over the handshake alone ends.
const COMMANDS: &str = "\
/stdio/./1000 done
/stdio/-/0 handshake refused: BeginTooSoon
/stdio//4294967295 handshake refused: BeginTooSoon
/stdio/--/-d/1000 done
/stdio/./1000/-- done
/load/1/0 done
/load/1000/01 usage
/load/1001/1 usage
/load/0/0 usage
 usage
/stdio usage
/stdio/./1000/. usage
/serve/--uid=1/./s done
/serve/./s usage
/serve/./s/--uid/1/--uid/2 usage
/stdio/-d/1000 usage
/stdio/./01000 usage
/stdio/./+1000 usage
/stdio/./4294967296 usage";

// How the run of a command line over the handshake alone ends, on this host.
fn ended<R: Abort + AllocGlobal + Threads + Wait + Copy + Send + Sync + Drop + 'static, H: Host>(
    rt: &R,
    line: &str,
    host: &mut H,
) -> Result<Status, Fail>
where
    H::Dir: Send + 'static,
    H::Time: Send + 'static,
    <H::Dir as Folder>::Cell: Send + 'static,
    <H::Door as Listener>::In: Send + 'static,
    <H::Door as Listener>::Out: Send + 'static,
{
    let mut source = steady_source(rt.alloc(), "HELLO")?;
    let mut sink = SteadySink::new(rt.alloc(), 64, Vec::new(rt.alloc()))?;
    run_on(rt, line, &mut source, &mut sink, host)
}

fn is_command<R: Abort + AllocGlobal + Threads + Wait + Copy + Send + Sync + Drop + 'static>(
    rt: &R,
    row: &str,
) -> Result<(), Fail> {
    let (line, want) = row.split_once(' ').ok_or("an end")?;
    let mut host = empty_host(rt.alloc());
    let told = ended(rt, line, &mut host)?.to_string(rt.alloc())?;
    // The text of Usage continues with the commands.
    begins(rt, told.as_str(), want, row);
    Ok(())
}

#[test]
fn words_are_one_command_or_none(rt: HostRuntime) -> Result<(), Fail> {
    for row in COMMANDS.lines() {
        is_command(&rt, row)?;
    }
    Ok(())
}

// A folder with a keyring file that isn't one; these calls of the folder fail, counted from 0.
fn memory_folder(alloc: Global, failing: Vec<u64>) -> Result<MemoryFolder, Fail>
    ensures { IfOk result (λ folder. folder.made ≡ []) }
{
    let name = text_of(alloc, "x.keyring")?;
    let mut folder = MemoryFolder::new(alloc, failing);
    folder.set(name, Some(Bytes::from_slice(alloc, b"abc")?))?;
    Ok(folder)
}

// The host of a row, whose folder is `.`.
fn memory_host(alloc: Global, row: &str) -> Result<MemoryHost<SteadySource, SteadySink>, Fail> {
    let path = text_of(alloc, ".")?;
    let host_fails = numbers(alloc, cell(row, 1))?;
    let folder = memory_folder(alloc, numbers(alloc, cell(row, 2))?)?;
    let clock = ListedClock::new(Vec::new(alloc));
    Ok(MemoryHost::new(alloc, path, folder, clock, host_fails))
}

// Asserts how the run of a command line over the handshake alone ends on this host.
fn opens_on<R: Abort + AllocGlobal + Threads + Wait + Copy + Send + Sync + Drop + 'static, H: Host>(
    rt: &R,
    line: &str,
    host: &mut H,
    told: &str,
    at: &str,
) -> Result<(), Fail>
where
    H::Dir: Send + 'static,
    H::Time: Send + 'static,
    <H::Dir as Folder>::Cell: Send + 'static,
    <H::Door as Listener>::In: Send + 'static,
    <H::Door as Listener>::Out: Send + 'static,
{
    let status = ended(rt, line, host)?;
    ends(rt, status, told, at)
}

// A command line, the calls of a host in memory and those of its folder that fail, counted from 0, and how
// the run over the handshake alone ends.
const FOLDERS: &str = "\
/stdio/./1000|||done
/stdio/there/1000|||folder failed
/stdio/./1000|0||folder failed
/stdio/./1000||0|folder failed
/stdio/./1000||1|folder failed
";

fn opens<R: Abort + AllocGlobal + Threads + Wait + Copy + Send + Sync + Drop + 'static>(
    rt: &R,
    row: &str,
) -> Result<(), Fail> {
    let mut host = memory_host(rt.alloc(), row)?;
    opens_on(rt, cell(row, 0), &mut host, cell(row, 3), row)
}

#[test]
fn a_folder_that_fails_ends_the_run(rt: HostRuntime) -> Result<(), Fail> {
    for row in FOLDERS.lines() {
        opens(&rt, row)?;
    }
    Ok(())
}

fn make_folders(rt: &HostRuntime) -> Result<(), Fail> {
    fs::create_dir(rt, "rings")?;
    fs::write(rt, "rings/x.keyring", b"abc")?;
    fs::write(rt, "file", b"no folder")?;
    fs::create_dir(rt, "closed")?;
    Ok(fs::set_permissions(rt, "closed", Permissions::from_mode(0))?)
}

// A command line, and how the run over the handshake alone ends.
const REAL_FOLDERS: &str = "\
/stdio/rings/1000|done
/stdio/missing/1000|folder failed
/stdio/file/1000|folder failed
/stdio/closed/1000|folder failed
";

#[test]
fn a_real_folder_is_opened_or_a_fault(rt: HostRuntime) -> Result<(), Fail> {
    make_folders(&rt)?;
    let mut host = RealHost::new(rt);
    for row in REAL_FOLDERS.lines() {
        opens_on(&rt, cell(row, 0), &mut host, cell(row, 1), row)?;
    }
    Ok(())
}

fn is_end(
    rt: &(impl AllocGlobal + Abort),
    status: Status,
    number: usize,
    text: &str,
) -> Result<(), Fail> {
    same_number(rt, usize::from(status.number()), number, text);
    ends(rt, status, text, text)
}

#[test]
fn each_end_has_its_number_and_its_text(rt: HostRuntime) -> Result<(), Fail> {
    is_end(&rt, Status::Done, 0, "done")?;
    is_end(&rt, Status::ReadFault, 3, "input failed")?;
    is_end(&rt, Status::WriteFault, 4, "output failed")?;
    is_end(&rt, Status::FolderFault, 5, "folder failed")?;
    let violation = Status::Violation(Violation::BadBody);
    is_end(&rt, violation, 7, "bad message: BadBody")?;
    let refused = Status::AuthRefused(AuthFault::LineTooLong);
    is_end(&rt, refused, 8, "handshake refused: LineTooLong")?;
    is_end(&rt, Status::Memory, 9, "out of memory")?;
    is_end(&rt, Status::ListenFault, 10, "socket failed")?;
    is_end(&rt, Status::EventsSpent, 11, "events spent")?;
    let command =
        "usage: keyringd stdio DIR UID | serve DIR SOCKET --uid U [--connections N] [--until-eof] | load N SEED";
    ends(&rt, Status::Usage, command, "usage")
}
