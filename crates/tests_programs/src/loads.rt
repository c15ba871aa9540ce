// The command `load`.

use crate::checks::{ends, same_bytes};
use crate::runs::{empty_host, run_on, sink_of, steady_source};
use std::alloc::AllocGlobal;
use std::process::Abort;
use std::sync::Wait;
use std::test::Fail;
use std::thread::Threads;

// Asserts how the run of a command line ends, whose writes with these numbers fail, and what it writes.
fn writes<R: Abort + AllocGlobal + Threads + Wait + Copy + Send + Sync + Drop + 'static>(
    rt: &R,
    line: &str,
    failing: Vec<u64>,
    told: &str,
    wanted: &[u8],
) -> Result<(), Fail> {
    let mut source = steady_source(rt.alloc(), "HELLO")?;
    let mut sink = sink_of(rt.alloc(), failing);
    let mut host = empty_host(rt.alloc());
    let status = run_on(rt, line, &mut source, &mut sink, &mut host)?;
    ends(rt, status, told, line)?;
    same_bytes(rt, sink.bytes(), wanted, line);
    Ok(())
}

// What a load of one item writes.
const ONE: &[u8] = b"items 1\nfound 1\nread 1\nerrors 0\n";

// What a load of a hundred items writes.
const HUNDRED: &[u8] = b"items 100\nfound 100\nread 100\nerrors 0\n";

#[test]
fn a_load_makes_finds_and_reads_its_items(rt: HostRuntime) -> Result<(), Fail> {
    writes(&rt, "/load/1/0", Vec::new(rt.alloc()), "done", ONE)?;
    let last = "/load/1/18446744073709551615";
    writes(&rt, last, Vec::new(rt.alloc()), "done", ONE)?;
    writes(&rt, "/load/100/1", Vec::new(rt.alloc()), "done", HUNDRED)
}

#[test]
fn a_load_whose_output_fails_says_so(rt: HostRuntime) -> Result<(), Fail> {
    let mut failing = Vec::new(rt.alloc());
    failing.push(0)?;
    writes(&rt, "/load/1/0", failing, "output failed", b"".as_slice())
}
