// Doors that end, that are crowded, and whose files others replace.
ghost use Rattle.std.specs.Prelude.{IfOk, IsFalse, is_none};

use crate::checks::{holds, same_number, same_text};
use kr_outside::{Host, Link, Listener, Source};
use real_edges::{DoorBell, RealHost, SocketSink, SocketSource, UnixDoor};
use std::alloc::{AllocGlobal, Global};
use std::io::{Read, Write};
use std::os::unix::net::{UnixListener, UnixStream};
use std::test::Fail;
use std::thread::Threads;
use std::time::{self, Duration};
use std::{fs, thread};

type Door = UnixDoor<HostRuntime>;

type Ends = Link<SocketSource, SocketSink>;

fn is_there(rt: &HostRuntime, path: &str) -> bool {
    fs::symlink_metadata(rt, path).is_ok()
}

// What an accept returns: a link, the end, or a failure.
fn accepted(door: &mut Door) -> &'static str {
    match door.accept() {
        Ok(Some(_)) => "link",
        Ok(None) => "end",
        Err(_) => "failure",
    }
}

// What two accepts return while another thread rings the bell after a moment.
fn rung<R: Threads + time::Clock + AllocGlobal + Sync>(
    rt: &R,
    door: &mut Door,
    bell: DoorBell,
) -> Result<String, Fail> {
    let (first, ()) = thread::join(
        rt,
        || accepted(door),
        || {
            let bell = bell;
            thread::sleep(rt, Duration::from_millis(50));
            bell.ring();
        },
    );
    let second = accepted(door);
    Ok(format!(in rt.alloc(); "{first} {second}")?)
}

#[test]
fn a_door_ends_when_another_thread_asks_for_it(rt: HostRuntime) -> Result<(), Fail> {
    let mut host = RealHost::new(rt);
    let bell = host.bell()?;
    let mut door = host.listen("rung").ok().ok_or("a door")?;
    let told = rung(&rt, &mut door, bell)?;
    same_text(&rt, told.as_str(), "end end", "a door whose bell was rung");
    holds(
        &rt,
        UnixStream::connect(&rt, "rung").is_err(),
        "nobody connects any more",
    );
    host.shut(door);
    holds(&rt, !is_there(&rt, "rung"), "the file is gone");
    Ok(())
}

// How many bytes the stream has before its end; 9 if none comes within a moment.
fn bytes_before_the_end(stream: &mut UnixStream) -> Result<usize, Fail> {
    stream.set_read_timeout(Some(Duration::from_millis(200)))?;
    let mut buffer = [0; 8];
    Ok(stream.read(&mut buffer).ok().unwrap_or(9))
}

// Connects, and returns both sides.
fn met(rt: &HostRuntime, door: &mut Door, path: &str) -> Result<(UnixStream, Ends), Fail>
    ensures { IfOk result (λ both. IsFalse (is_none both.1.input.stream)) }
{
    let stream = UnixStream::connect(rt, path)?;
    let link = door.accept()?.ok_or("a link")?;
    Ok((stream, link))
}

// Connects as often as this, and keeps both sides.
fn crowd(
    rt: &HostRuntime,
    door: &mut Door,
    path: &str,
    count: usize,
) -> Result<Vec<(UnixStream, Ends)>, Fail> {
    let mut all = Vec::new(rt.alloc());
    for _ in 0..count {
        all.push(met(rt, door, path)?)?;
    }
    Ok(all)
}

// The client says BEGIN in two pieces, and the door's side reads them.
fn begin(stream: &mut UnixStream, input: &mut SocketSource) -> Result<(), Fail>
    requires is_open { IsFalse (is_none input.old.stream) }
{
    let mut buffer = [0; 64];
    stream.write_all(b"\0AUTH EXTERNAL\r\nBEG")?;
    input.read(&mut buffer)?;
    stream.write_all(b"IN\r\n")?;
    input.read(&mut buffer)?;
    Ok(())
}

// A client that has said BEGIN, with both sides of its connection.
fn begun(rt: &HostRuntime, door: &mut Door, path: &str) -> Result<(UnixStream, Ends), Fail> {
    let (mut stream, link) = met(rt, door, path)?;
    let Link { mut input, output } = link;
    begin(&mut stream, &mut input)?;
    Ok((stream, Link { input, output }))
}

// For each of the first two clients, whether its stream has come to its end.
fn ends_told(alloc: Global, all: &mut [(UnixStream, Ends)]) -> Result<String, Fail> {
    let mut told = String::new(alloc);
    for (stream, _) in all.iter_mut().take(2) {
        let count = bytes_before_the_end(stream)?;
        told.push_str(if count == 0 { "end " } else { "open " })?;
    }
    Ok(told)
}

#[test]
fn the_oldest_handshake_goes_when_there_are_128(rt: HostRuntime) -> Result<(), Fail> {
    let mut door = RealHost::new(rt).listen("crowd").ok().ok_or("a door")?;
    let (mut first, link) = begun(&rt, &mut door, "crowd")?;
    let mut all = crowd(&rt, &mut door, "crowd", 128)?;
    let told = ends_told(rt.alloc(), all.as_mut_slice())?;
    same_text(&rt, told.as_str(), "open open ", "128 handshakes");
    let more = crowd(&rt, &mut door, "crowd", 1)?;
    let told = ends_told(rt.alloc(), all.as_mut_slice())?;
    same_text(&rt, told.as_str(), "end open ", "one more");
    holds(
        &rt,
        bytes_before_the_end(&mut first)? != 0,
        "the one that said BEGIN stays",
    );
    same_number(&rt, door.given(), 130, "links");
    drop((link, more));
    Ok(())
}

#[test]
fn a_door_takes_away_its_own_file_alone(rt: HostRuntime) -> Result<(), Fail> {
    let mut host = RealHost::new(rt);
    let door = host.listen("own").ok().ok_or("a door")?;
    holds(&rt, !is_there(&rt, "own.new"), "nothing else is left");
    fs::remove_file(&rt, "own")?;
    let other = UnixListener::bind(&rt, "own")?;
    host.shut(door);
    holds(&rt, is_there(&rt, "own"), "the other's file stays");
    same_number(&rt, host.faults(), 0, "faults");
    drop(other);
    Ok(())
}

// Another process was killed after it had made the folder for its socket.
#[test]
fn what_a_killed_starter_left_is_in_nobodys_way(rt: HostRuntime) -> Result<(), Fail> {
    fs::create_dir(&rt, "killed.new")?;
    drop(UnixListener::bind(&rt, "killed.new/s")?);
    let mut host = RealHost::new(rt);
    let door = host.listen("killed").ok().ok_or("a door")?;
    holds(&rt, !is_there(&rt, "killed.new"), "nothing else is left");
    host.shut(door);
    holds(&rt, !is_there(&rt, "killed"), "the file is gone");
    Ok(())
}
