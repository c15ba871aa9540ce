// `run check` over folders in memory: how it ends, and what it writes.
ghost use Rattle.std.specs.Prelude.{◌≡◌, [], IfOk};

use crate::checks::{cell, numbers, same_text};
use crate::parts::text_of;
use crate::runs::{run_on, sink_of, source_of};
use keyring_program::Status;
use kr_base::{Bytes, Text};
use kr_memory::{ListedClock, MemorySink, SteadySink, SteadySource};
use kr_memory_disk::{MemoryFolder, MemoryHost};
use std::alloc::{AllocGlobal, Global};
use std::process::Abort;
use std::sync::Wait;
use std::test::Fail;
use std::thread::Threads;

// A file that a program in Python wrote: `login`, without an item, with the password `test password`. It was made at
// 1,700,000,000 seconds, which is 2023-11-14T22:13:20Z, with 10,000 iterations.
const LOGIN: &str = "\
    476e6f6d654b657972696e670a0d000a00000000000000056c6f67696e000000006553f100000000006553f10000\
    00000000000000000027100001020304050607000000000000000000000000000000000000000000000010d511c9\
    424136f88fb9b0b8c15f7d2256";

// The arguments, each after a `/`; the files of the folder `.`, each as `NAME=HEX`, where `login` is the file above; the
// input; the reads of it that fail, counted from 0; how the run ends; and what it writes. In the input `;` stands for a
// line feed, and `*` for 4,095 bytes; in what is written `;` stands for a line feed.
const CHECKS: &str = "\
/check/.||||done|
/check/.|login.keyring=login|||done|login.keyring: ok 0 items, created 2023-11-14T22:13:20Z, modified 2023-11-14T22:13:20Z;
/check/.|login.keyring=login a.keyring=00|||damaged keyring|a.keyring: Magic;login.keyring: ok 0 items, created 2023-11-14T22:13:20Z, modified 2023-11-14T22:13:20Z;
/check/.|login.keyring=login|test password;|0|done|login.keyring: ok 0 items, created 2023-11-14T22:13:20Z, modified 2023-11-14T22:13:20Z;
/check/./--password|login.keyring=login|test password;||done|login.keyring: ok 0 items, created 2023-11-14T22:13:20Z, modified 2023-11-14T22:13:20Z;
/check/--password/.|login.keyring=login|test password||done|login.keyring: ok 0 items, created 2023-11-14T22:13:20Z, modified 2023-11-14T22:13:20Z;
/check/./--password|login.keyring=login|other;test password;||done|login.keyring: other password, 0 items, created 2023-11-14T22:13:20Z, modified 2023-11-14T22:13:20Z;
/check/./--password|login.keyring=login|||done|login.keyring: other password, 0 items, created 2023-11-14T22:13:20Z, modified 2023-11-14T22:13:20Z;
/check/./--password|a.keyring=00|*;||damaged keyring|a.keyring: Magic;
/check/./--password|a.keyring=00|*||damaged keyring|a.keyring: Magic;
/check/./--password|a.keyring=00|*x;||password too long|
/check/there/--password|a.keyring=00|*x||password too long|
/check/./--password|a.keyring=00|x;|0|input failed|
/check/there/--password|a.keyring=00|x;|1|input failed|
/check/there/--password|a.keyring=00|x;||folder failed|
/check/there|a.keyring=00|||folder failed|
/check/--/--password|a.keyring=00|||folder failed|
";

// The bytes of a file.
fn file_of(alloc: Global, word: &str) -> Result<Bytes, Fail> {
    let digits = if word == "login" { LOGIN } else { word };
    Ok(Bytes::new(hex::decode(alloc, digits)?))
}

// A folder of these files.
fn folder_of(alloc: Global, files: &str) -> Result<MemoryFolder, Fail>
    ensures { IfOk result (λ folder. folder.made ≡ []) }
{
    let mut folder = MemoryFolder::new(alloc, Vec::new(alloc));
    for file in files.split_whitespace() {
        let (name, word) = file.split_once('=').ok_or("a file")?;
        let image = file_of(alloc, word)?;
        folder.set(text_of(alloc, name)?, Some(image))?;
    }
    Ok(folder)
}

// A host of which this is the folder `.`.
fn host_of(alloc: Global, files: &str) -> Result<MemoryHost<SteadySource, SteadySink>, Fail> {
    let folder = folder_of(alloc, files)?;
    let clock = ListedClock::new(Vec::new(alloc));
    let path = text_of(alloc, ".")?;
    Ok(MemoryHost::new(alloc, path, folder, clock, Vec::new(alloc)))
}

// The bytes of an input.
fn input_of(alloc: Global, cell: &str) -> Result<Vec<u8>, Fail> {
    let mut input = Vec::new(alloc);
    for byte in cell.as_bytes() {
        match *byte {
            b';' => input.push(b'\n')?,
            b'*' => input.resize(input.len().saturating_add(4_095), b'x')?,
            byte => input.push(byte)?,
        }
    }
    Ok(input)
}

// What was written, with `;` for each line feed.
fn lines_of(alloc: Global, output: &MemorySink) -> Result<String, Fail> {
    let text = Text::from_utf8(output.bytes().to_vec(alloc)?).ok_or("a text")?;
    let mut lines = String::new(alloc);
    for part in text.as_str().split('\n') {
        lines.push_str(part)?;
        lines.push(';')?;
    }
    let _ = lines.pop();
    Ok(lines)
}

fn checks<R: Abort + AllocGlobal + Threads + Wait + Copy + Send + Sync + Drop + 'static>(
    rt: &R,
    row: &str,
) -> Result<(), Fail> {
    let alloc = rt.alloc();
    let input = input_of(alloc, cell(row, 2))?;
    let failing = numbers(alloc, cell(row, 3))?;
    let mut source = source_of(alloc, input.as_slice(), &[], failing)?;
    let mut sink = sink_of(alloc, Vec::new(alloc));
    let mut host = host_of(alloc, cell(row, 1))?;
    let status = run_on(rt, cell(row, 0), &mut source, &mut sink, &mut host)?;
    let told = status.to_string(alloc)?;
    same_text(rt, told.as_str(), cell(row, 4), row);
    let lines = lines_of(alloc, &sink)?;
    same_text(rt, lines.as_str(), cell(row, 5), row);
    Ok(())
}

#[test]
fn a_check_writes_a_line_for_each_file(rt: HostRuntime) -> Result<(), Fail> {
    for row in CHECKS.lines() {
        checks(&rt, row)?;
    }
    Ok(())
}

// Each status that `check` alone ends with, and its number.
#[test]
fn a_check_has_two_numbers_of_its_own(rt: HostRuntime) {
    assert_eq!(rt; Status::Damaged.number(), 6);
    assert_eq!(rt; Status::PasswordTooLong.number(), 13);
}
