// Why a check ends before its last line.
ghost use Rattle.std.specs.Prelude.{◌≡◌, [], IfOk, IsFalse};

use crate::checks::{cell, numbers, same_text};
use crate::files::{end_word, folder_of, text_of};
use crate::rows::written_told;
use kr_memory::MemorySink;
use kr_memory_disk::{MemoryFolder, SlotPlan};
use ring_check::{Unwatched, check_within};
use std::alloc::{AllocGlobal, Global};
use std::test::Fail;
use std::thread::Threads;

const FILES: &str = "a.keyring=00 b.keyring=01 c.keyring=02";

// The call that fails, of the folder, of a slot or of the output, how the check ends, and what is written. Each file is
// a batch by itself, which is written when the next file was read.
const FAULTS: &str = "\
folder 0|folder|
folder 1|folder|
folder 2|damaged|a.keyring: Magic;b.keyring: Magic;c.keyring: Magic;
a.keyring 0|folder|
a.keyring 1|folder|
a.keyring 2|damaged|a.keyring: Magic;b.keyring: Magic;c.keyring: Magic;
b.keyring 0|folder|
b.keyring 1|folder|
c.keyring 0|folder|a.keyring: Magic;
c.keyring 1|folder|a.keyring: Magic;
output 0|output|
output 1|output|a.keyring: Magic;
output 2|output|a.keyring: Magic;b.keyring: Magic;
output 3|damaged|a.keyring: Magic;b.keyring: Magic;c.keyring: Magic;
";

// The plan of a slot one of whose calls fails.
fn plan_of(alloc: Global, name: &str, call: &str) -> Result<SlotPlan, Fail> {
    Ok(SlotPlan {
        name: text_of(alloc, name.as_bytes())?,
        failing: numbers(alloc, call)?,
        done: Vec::new(alloc),
    })
}

// The folder of which this call fails, if it is one of the folder or of a slot.
fn folder_with(alloc: Global, what: &str, call: &str) -> Result<MemoryFolder, Fail>
    ensures { IfOk result (λ folder. folder.made ≡ []) }
{
    if what == "folder" {
        return folder_of(alloc, FILES, numbers(alloc, call)?);
    }
    let mut folder = folder_of(alloc, FILES, Vec::new(alloc))?;
    if what != "output" {
        folder.plan(plan_of(alloc, what, call)?)?;
    }
    Ok(folder)
}

// The output of which this call fails, if it is one of the output.
fn output_with(alloc: Global, what: &str, call: &str) -> Result<MemorySink, Fail>
    ensures { IfOk result (λ output. IsFalse output.is_closed) }
{
    let failing = if what == "output" {
        numbers(alloc, call)?
    } else {
        Vec::new(alloc)
    };
    Ok(MemorySink::new(alloc, Vec::new(alloc), failing))
}

fn told<R: AllocGlobal + Threads + Sync>(rt: &R, fault: &str) -> Result<String, Fail> {
    let alloc = rt.alloc();
    let (what, call) = fault.split_once(' ').ok_or("a fault")?;
    let mut folder = folder_with(alloc, what, call)?;
    let mut output = output_with(alloc, what, call)?;
    let checked = check_within(rt, &mut folder, None, &mut output, &mut Unwatched, 1);
    written_told(alloc, end_word(checked.end), output.bytes())
}

#[test]
fn each_call_that_fails_ends_the_check_with_its_cause(rt: HostRuntime) -> Result<(), Fail> {
    for row in FAULTS.lines() {
        let found = told(&rt, cell(row, '|', 0))?;
        let (_, want) = row.split_once('|').ok_or("a row")?;
        same_text(&rt, found.as_str(), want, row);
    }
    Ok(())
}
