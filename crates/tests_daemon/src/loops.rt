// The loop over links, with jobs in place and in threads.
ghost use Rattle.std.specs.Prelude.{◌≡◌, []};

use crate::checks::{cell, numbers, same_text};
use crate::folders::{large_folder, no_files};
use crate::links::{
    Input, Links, Output, crossed_links, links_of, links_of_which_one_is_dropped,
    links_of_which_one_is_not_read, links_that_await_a_refusal,
};
use connection_worker::End;
use daemon::{Hub, LoopEnd, Served, ServedBy, ServingSpawner, Spawner, accept_loop};
use kr_memory::ListedClock;
use kr_memory_disk::MemoryFolder;
use kr_outside::{Clock, Folder};
use service_history::Service;
use service_hub::ServiceHub;
use shared_service::SharedService;
use std::alloc::{AllocGlobal, Global};
use std::process::Abort;
use std::sync::Wait;
use std::test::Fail;
use std::thread::Threads;

type MemoryHub<R> = ServiceHub<R, MemoryFolder, ListedClock>;

// A hub over a service over this folder.
fn hub<R: AllocGlobal + Wait + Copy>(rt: R, folder: MemoryFolder) -> Result<MemoryHub<R>, Fail>
    requires { folder.made ≡ [] }
{
    let alloc = rt.alloc();
    let (service, pass) = SharedService::open(alloc, Service::open(alloc, folder)?)?;
    let guid = *b"76b8e0ada0f13d90405d6ae55386bd28";
    let clock = ListedClock::new(Vec::new(alloc));
    Ok(ServiceHub::new(alloc, rt, service, pass, 1000, guid, [0; 32], clock)?)
}

// This many connections join, and stay.
fn join<U: Hub>(hub: &mut U, count: u64) -> Result<(), Fail> {
    for _ in 0..count {
        drop(hub.join()?);
    }
    Ok(())
}

fn loop_end_told(end: LoopEnd) -> &'static str {
    match end {
        LoopEnd::Ended => "Ended",
        LoopEnd::Reached => "Reached",
        LoopEnd::ListenFault => "ListenFault",
        LoopEnd::Memory => "Memory",
    }
}

fn end_told(end: End) -> &'static str {
    match end {
        End::Done => "Done",
        End::AuthRefused(_) => "AuthRefused",
        End::OtherEnded => "OtherEnded",
        End::Overrun => "Overrun",
        _ => "another",
    }
}

// A result: the connection's number, both ends, and how many bytes were written; 8,000,000 if it were more.
fn told<A, B>(alloc: Global, served: &Served<A, B, Input, Output>) -> Result<String, Fail> {
    let (read, written) = (end_told(served.read_end), end_told(served.write_end));
    let length = served.output.sink().sink().bytes().len().min(8_000_000);
    Ok(format!(in alloc; " {} {read} {written} {length}", served.conn.0)?)
}

// Why the loop ended, and the results.
fn all_told<A, B>(
    alloc: Global,
    end: LoopEnd,
    done: &[Served<A, B, Input, Output>],
) -> Result<String, Fail> {
    let mut text = String::new(alloc);
    text.push_str(loop_end_told(end))?;
    for served in done {
        text.push_str(told(alloc, served)?.as_str())?;
    }
    Ok(text)
}

// Serves the links by a hub to which that many connections have joined already, and returns why the loop ended,
// and the results.
fn outcome<R: AllocGlobal + Threads + Wait + Copy + Send + Sync + Drop + 'static, U: Hub>(
    rt: &R,
    hub: &mut U,
    joined: u64,
    links: &mut Links,
    spawner: &mut ServingSpawner<R, U, Links>,
    most: Option<u64>,
) -> Result<String, Fail>
    requires { spawner.old.started ≡ [] }
{
    join(hub, joined)?;
    let mut done: Vec<ServedBy<U, Links>> = Vec::new(rt.alloc());
    let end = accept_loop(rt, hub, links, spawner, most, &mut done);
    all_told(rt.alloc(), end, done.as_slice())
}

// The same by jobs in place, of which these starts fail.
fn by_hub_in_place<R: AllocGlobal + Threads + Wait + Copy + Send + Sync + Drop + 'static, U: Hub>(
    rt: &R,
    hub: &mut U,
    joined: u64,
    links: &mut Links,
    failing: Vec<u64>,
    most: Option<u64>,
) -> Result<String, Fail> {
    let mut spawner = Spawner::in_place(rt.alloc(), failing);
    outcome(rt, hub, joined, links, &mut spawner, most)
}

// The same by threads.
fn by_hub_in_threads<R: AllocGlobal + Threads + Wait + Copy + Send + Sync + Drop + 'static, U: Hub>(
    rt: &R,
    hub: &mut U,
    joined: u64,
    links: &mut Links,
) -> Result<String, Fail> {
    let mut spawner = Spawner::in_threads(rt.alloc());
    outcome(rt, hub, joined, links, &mut spawner, None)
}

// Both by a hub over a service that threads share.
fn by_service_in_place<
    R: AllocGlobal + Threads + Wait + Copy + Send + Sync + Drop + 'static,
    F: Folder + Send + 'static,
    C: Clock + Send + 'static,
>(
    rt: &R,
    hub: &mut ServiceHub<R, F, C>,
    joined: u64,
    links: &mut Links,
    failing: Vec<u64>,
    most: Option<u64>,
) -> Result<String, Fail>
where
    F::Cell: Send + 'static,
{
    by_hub_in_place(rt, hub, joined, links, failing, most)
}

fn by_service_in_threads<
    R: AllocGlobal + Threads + Wait + Copy + Send + Sync + Drop + 'static,
    F: Folder + Send + 'static,
    C: Clock + Send + 'static,
>(rt: &R, hub: &mut ServiceHub<R, F, C>, joined: u64, links: &mut Links) -> Result<String, Fail>
where
    F::Cell: Send + 'static,
{
    by_hub_in_threads(rt, hub, joined, links)
}

// Both over a service without files.
fn in_place<R: AllocGlobal + Threads + Wait + Copy + Send + Sync + Drop + 'static>(
    rt: &R,
    joined: u64,
    links: &mut Links,
    failing: Vec<u64>,
    most: Option<u64>,
) -> Result<String, Fail> {
    let mut hub = hub(*rt, no_files(rt.alloc()))?;
    by_service_in_place(rt, &mut hub, joined, links, failing, most)
}

fn in_threads<R: AllocGlobal + Threads + Wait + Copy + Send + Sync + Drop + 'static>(
    rt: &R,
    joined: u64,
    links: &mut Links,
) -> Result<String, Fail> {
    let folder = no_files(rt.alloc());
    in_threads_over(rt, folder, joined, links)
}

// The latter over a service over this folder.
fn in_threads_over<R: AllocGlobal + Threads + Wait + Copy + Send + Sync + Drop + 'static>(
    rt: &R,
    folder: MemoryFolder,
    joined: u64,
    links: &mut Links,
) -> Result<String, Fail>
    requires { folder.made ≡ [] }
{
    let mut hub = hub(*rt, folder)?;
    by_service_in_threads(rt, &mut hub, joined, links)
}

// What the clients send, the calls of the listener and the starts that fail, the most links that are accepted, if
// not all, and the outcome.
const IN_PLACE: &str = "\
call call call||||Ended 1 Done Done 121 2 Done Done 121 3 Done Done 121
handshake nothing call||||Ended 1 Done Done 37 2 AuthRefused AuthRefused 0 3 Done Done 121
call call|1|||ListenFault 1 Done Done 121
call call call||0 2||Ended 2 Done Done 121
call call call|||2|Reached 1 Done Done 121 2 Done Done 121
call|||0|Reached
||||Ended
";

fn is_served_in_place<
    R: AllocGlobal + Threads + Wait + Copy + Send + Sync + Drop + Abort + 'static,
>(rt: &R, row: &str) -> Result<(), Fail> {
    let alloc = rt.alloc();
    let mut links = links_of(alloc, cell(row, 0), numbers(alloc, cell(row, 1))?)?;
    let failing = numbers(alloc, cell(row, 2))?;
    let most = cell(row, 3).parse::<u64>().ok();
    let found = in_place(rt, 0, &mut links, failing, most)?;
    same_text(rt, found.as_str(), cell(row, 4), row);
    Ok(())
}

#[test]
fn links_are_served_in_place_one_after_the_other(rt: HostRuntime) -> Result<(), Fail> {
    for row in IN_PLACE.lines() {
        is_served_in_place(&rt, row)?;
    }
    Ok(())
}

#[test]
fn links_are_served_by_threads_and_the_results_are_in_order(rt: HostRuntime) -> Result<(), Fail> {
    let words = "call handshake nothing call";
    let mut links = links_of(rt.alloc(), words, Vec::new(rt.alloc()))?;
    let found = in_threads(&rt, 0, &mut links)?;
    let want = "Ended 1 Done Done 121 2 Done Done 37 3 AuthRefused AuthRefused 0 4 Done Done 121";
    same_text(&rt, found.as_str(), want, "four links");
    Ok(())
}

// The client of the first link sends nothing until the second link's client has its reply.
#[test]
fn two_links_are_served_at_once(rt: HostRuntime) -> Result<(), Fail> {
    let mut links = crossed_links(rt.alloc(), 1_000_000_000)?;
    let found = in_threads(&rt, 0, &mut links)?;
    let want = "Ended 1 Done Done 121 2 Done Done 121";
    same_text(&rt, found.as_str(), want, "by threads");
    // One after the other, the first client gives up.
    let mut links = crossed_links(rt.alloc(), 1000)?;
    let found = in_place(&rt, 0, &mut links, Vec::new(rt.alloc()), None)?;
    let want = "Ended 1 AuthRefused AuthRefused 0 2 Done Done 121";
    same_text(&rt, found.as_str(), want, "in place");
    Ok(())
}

// 254 connections are there when the loop begins, so that the third link's connection can't join.
#[test]
fn a_257th_link_is_dropped_and_others_are_served_on(rt: HostRuntime) -> Result<(), Fail> {
    let mut links = links_that_await_a_refusal(rt.alloc())?;
    let found = in_threads(&rt, 254, &mut links)?;
    let want = "Ended 255 Done Done 121 256 Done Done 121";
    same_text(&rt, found.as_str(), want, "three links");
    Ok(())
}

// 255 connections are there when the loop begins, so that the second link's connection could not join if that of
// the first link were still there.
#[test]
fn a_link_whose_job_cannot_be_started_is_dropped_and_gone(rt: HostRuntime) -> Result<(), Fail> {
    let mut links = links_of_which_one_is_dropped(rt.alloc())?;
    let failing = Vec::from_slice(rt.alloc(), &[0u64])?;
    let found = in_place(&rt, 255, &mut links, failing, None)?;
    same_text(&rt, found.as_str(), "Ended 257 Done Done 121", "two links");
    Ok(())
}

// The replies to the first client wait until the second one has its answer. They are too many, so that some of
// them are lost; the first client receives those that waited.
#[test]
fn a_client_that_does_not_read_is_overrun_and_others_are_served(
    rt: HostRuntime,
) -> Result<(), Fail> {
    let mut links = links_of_which_one_is_not_read(rt.alloc())?;
    let folder = large_folder(rt.alloc())?;
    let found = in_threads_over(&rt, folder, 0, &mut links)?;
    let want = "Ended 1 Done Overrun 8000000 2 Done Done 121";
    same_text(&rt, found.as_str(), want, "two links");
    Ok(())
}
