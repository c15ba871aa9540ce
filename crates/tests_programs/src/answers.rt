// Runs in which prompts are answered: over one real folder, one run after the other, and over folders in memory.
ghost use Rattle.std.specs.Prelude.{◌≡◌, [], IfOk};

use crate::answered::{ANSWERS, FAULTS, LOGIN, PASSWORDS, RUNS};
use crate::checks::{cell, ends, numbers, same_bytes};
use crate::parts::{bytes_of, change, spelled, text_of};
use crate::runs::{run_on, sink_of, source_of};
use kr_base::Bytes;
use kr_memory::{ListedClock, SteadySink, SteadySource};
use kr_memory_disk::{Files, MemoryFolder, MemoryHost, SlotPlan, SteadyHost};
use kr_outside::{Folder, Host, Listener};
use real_edges::RealHost;
use std::alloc::{AllocGlobal, Global};
use std::fs;
use std::process::Abort;
use std::sync::Wait;
use std::test::Fail;
use std::thread::Threads;

/// What a run of the command line over this input on that host writes.
pub fn written_on<
    R: Abort + AllocGlobal + Threads + Wait + Copy + Send + Sync + Drop + 'static,
    H: Host,
>(rt: &R, line: &str, host: &mut H, input: &[u8], at: &str) -> Result<Vec<u8>, Fail>
where
    H::Dir: Send + 'static,
    H::Time: Send + 'static,
    <H::Dir as Folder>::Cell: Send + 'static,
    <H::Door as Listener>::In: Send + 'static,
    <H::Door as Listener>::Out: Send + 'static,
{
    let mut source = source_of(rt.alloc(), input, &[], Vec::new(rt.alloc()))?;
    let mut sink = sink_of(rt.alloc(), Vec::new(rt.alloc()));
    let status = run_on(rt, line, &mut source, &mut sink, host)?;
    ends(rt, status, "done", at)?;
    Ok(sink.bytes().to_vec(rt.alloc())?)
}

// Asserts what that run writes; both are spelled in words.
fn is_written_on<
    R: Abort + AllocGlobal + Threads + Wait + Copy + Send + Sync + Drop + 'static,
    H: Host,
>(rt: &R, line: &str, host: &mut H, input: &str, output: &str, at: &str) -> Result<(), Fail>
where
    H::Dir: Send + 'static,
    H::Time: Send + 'static,
    <H::Dir as Folder>::Cell: Send + 'static,
    <H::Door as Listener>::In: Send + 'static,
    <H::Door as Listener>::Out: Send + 'static,
{
    let input = bytes_of(rt.alloc(), input)?;
    let wanted = bytes_of(rt.alloc(), output)?;
    let written = written_on(rt, line, host, input.as_slice(), at)?;
    same_bytes(rt, written.as_slice(), wanted.as_slice(), at);
    Ok(())
}

fn make_keys(rt: &HostRuntime) -> Result<(), Fail> {
    let login = spelled(rt.alloc(), LOGIN)?;
    fs::create_dir(rt, "keys")?;
    Ok(fs::write(rt, "keys/login.keyring", login.as_slice())?)
}

#[test]
fn a_secret_that_one_run_keeps_is_read_by_the_next(rt: HostRuntime) -> Result<(), Fail> {
    make_keys(&rt)?;
    let mut host = RealHost::new(rt);
    for row in RUNS.lines() {
        let (input, output) = (cell(row, 1), cell(row, 2));
        is_written_on(&rt, "/stdio/keys/1000", &mut host, input, output, row)?;
    }
    Ok(())
}

// A host whose folders have this file alone as `login.keyring`, and room for 4 KiB of a file.
fn host_of(alloc: Global, login: Vec<u8>) -> Result<SteadyHost<SteadySource, SteadySink>, Fail> {
    let mut files = Files::new(alloc);
    files.set(text_of(alloc, "login.keyring")?, Some(Bytes::new(login)))?;
    let clock = ListedClock::new(Vec::new(alloc));
    Ok(SteadyHost::new(alloc, files, 4096, clock))
}

fn is_answered<R: Abort + AllocGlobal + Threads + Wait + Copy + Send + Sync + Drop + 'static>(
    rt: &R,
    row: &str,
) -> Result<(), Fail> {
    let mut host = host_of(rt.alloc(), spelled(rt.alloc(), LOGIN)?)?;
    let (input, output) = (cell(row, 1), cell(row, 2));
    is_written_on(rt, "/stdio/./1000", &mut host, input, output, row)
}

fn are_answered<R: Abort + AllocGlobal + Threads + Wait + Copy + Send + Sync + Drop + 'static>(
    rt: &R,
    rows: &str,
) -> Result<(), Fail> {
    for row in rows.lines() {
        is_answered(rt, row)?;
    }
    Ok(())
}

#[test]
fn each_answer_leads_to_what_the_prompt_is_for(rt: HostRuntime) -> Result<(), Fail> {
    are_answered(&rt, ANSWERS)
}

#[test]
fn a_password_is_wrong_or_empty_or_a_million_bytes(rt: HostRuntime) -> Result<(), Fail> {
    are_answered(&rt, PASSWORDS)
}

// That file, in which the item 3 has the greatest number of all.
fn greatest_login(alloc: Global) -> Result<Vec<u8>, Fail> {
    let mut login = spelled(alloc, LOGIN)?;
    change(&mut login, 148, &[255; 4]);
    Ok(login)
}

// What the client sends over that file, and what is written.
const GREATEST: (&str, &str) = (
    "\
HELLO REGISTER PLAIN@8:02 UNLOCK@8:03@164:6c6f67696e PROMPT@8:04 ANSWERHORSE@8:05@172:7465737420706\
17373776f7264 KEEPNEW@8:06 SEARCHNEW@8:07",
    "\
OK PONG@8:01@20:01 SESSION@8:02@20:02 BEGUN@8:03@20:03 PONG@8:04@20:04 ASKOTHER@8:05@184:4c6f67696\
e PONG@8:06@20:05 CHANGELOGIN@8:07 LOCKLOGIN@8:08@224:00 OPENEDLOGIN@8:09 FULL@8:0a@76:06 FOUNDNONE\
@8:0b@20:07",
);

#[test]
fn no_item_is_made_after_the_greatest_number(rt: HostRuntime) -> Result<(), Fail> {
    let mut host = host_of(rt.alloc(), greatest_login(rt.alloc())?)?;
    let (input, output) = GREATEST;
    is_written_on(
        &rt,
        "/stdio/./1000",
        &mut host,
        input,
        output,
        "the greatest number",
    )
}

// A folder with that file, which is the default one, and the calls of a row that fail.
fn failing_folder(alloc: Global, row: &str) -> Result<MemoryFolder, Fail>
    ensures { IfOk result (λ folder. folder.made ≡ []) }
{
    let mut folder = MemoryFolder::new(alloc, Vec::new(alloc));
    let login = Bytes::new(spelled(alloc, LOGIN)?);
    let aliases = Bytes::from_slice(alloc, b"default=login\n")?;
    let plan = SlotPlan {
        name: text_of(alloc, cell(row, 0))?,
        failing: numbers(alloc, cell(row, 1))?,
        done: Vec::new(alloc),
    };
    folder.set(text_of(alloc, "login.keyring")?, Some(login))?;
    folder.set(text_of(alloc, "aliases")?, Some(aliases))?;
    folder.plan(plan)?;
    Ok(folder)
}

fn failing_host(alloc: Global, row: &str) -> Result<MemoryHost<SteadySource, SteadySink>, Fail> {
    let path = text_of(alloc, ".")?;
    let folder = failing_folder(alloc, row)?;
    let clock = ListedClock::new(Vec::new(alloc));
    Ok(MemoryHost::new(alloc, path, folder, clock, Vec::new(alloc)))
}

fn fails_so<R: Abort + AllocGlobal + Threads + Wait + Copy + Send + Sync + Drop + 'static>(
    rt: &R,
    row: &str,
) -> Result<(), Fail> {
    let mut host = failing_host(rt.alloc(), row)?;
    let (input, output) = (cell(row, 2), cell(row, 3));
    is_written_on(rt, "/stdio/./1000", &mut host, input, output, row)
}

#[test]
fn a_file_that_is_in_doubt_is_read_again_by_an_answer(rt: HostRuntime) -> Result<(), Fail> {
    for row in FAULTS.lines() {
        fails_so(&rt, row)?;
    }
    Ok(())
}
