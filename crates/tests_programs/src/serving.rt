// `run serve` over a real socket, with both ends of its connections in this process.

use crate::checks::{ends, holds, same_bytes};
use crate::parts::bytes_of;
use crate::runs::{sink_of, source_of, words_of};
use daemon::Spawner;
use keyring_program::{Status, Unwatched, run};
use kr_outside::{Folder, Host, Listener};
use real_edges::RealHost;
use std::alloc::AllocGlobal;
use std::fs;
use std::io::{Read, Write};
use std::net::Shutdown;
use std::os::unix::net::UnixStream;
use std::process::Abort;
use std::sync::Wait;
use std::test::Fail;
use std::thread::{self, Threads};
use std::time::Duration;

// Serves two connections of the socket, each by threads of its own, over a folder without files.
fn serves<R: Abort + AllocGlobal + Threads + Wait + Copy + Send + Sync + Drop + 'static, H: Host>(
    rt: &R,
    host: &mut H,
) -> Result<Status, Fail>
where
    H::Dir: Send + 'static,
    H::Time: Send + 'static,
    <H::Dir as Folder>::Cell: Send + 'static,
    <H::Door as Listener>::In: Send + 'static,
    <H::Door as Listener>::Out: Send + 'static,
{
    let line = "/serve/links/socket/--uid/1000/--connections=2";
    let words = words_of(rt.alloc(), line)?;
    let mut input = source_of(rt.alloc(), b"", &[], Vec::new(rt.alloc()))?;
    let mut output = sink_of(rt.alloc(), Vec::new(rt.alloc()));
    let mut spawner = Spawner::in_threads(rt.alloc());
    Ok(run(
        rt,
        words.as_slice(),
        &mut input,
        &mut output,
        host,
        &mut spawner,
        &mut Unwatched,
        [0; 32],
    ))
}

// A connection to the socket, once it is there.
fn connected(rt: &HostRuntime) -> Option<UnixStream> {
    for _ in 0..1000 {
        if let Ok(stream) = UnixStream::connect(rt, "socket") {
            return Some(stream);
        }
        thread::sleep(rt, Duration::from_millis(10));
    }
    None
}

// What is answered to these bytes, up to the end of the connection.
fn answered(rt: &HostRuntime, stream: &mut UnixStream, input: &[u8]) -> Option<Vec<u8>> {
    stream.write_all(input).ok()?;
    stream.shutdown(Shutdown::Write).ok()?;
    let mut output = Vec::new(rt.alloc());
    let _ = stream.read_to_end(&mut output).ok()?;
    Some(output)
}

// Two connections; the one that came first is silent until the other has been served.
fn talks(rt: &HostRuntime, first_input: &[u8], second_input: &[u8]) -> Option<(Vec<u8>, Vec<u8>)> {
    let mut first = connected(rt)?;
    let mut second = connected(rt)?;
    let other = answered(rt, &mut second, second_input)?;
    let one = answered(rt, &mut first, first_input)?;
    Some((one, other))
}

#[test]
fn a_silent_connection_holds_nobody_up(rt: HostRuntime) -> Result<(), Fail> {
    fs::create_dir(&rt, "links")?;
    let ping = bytes_of(rt.alloc(), "HELLO PING")?;
    let plain = bytes_of(rt.alloc(), "HELLO PLAIN")?;
    let (ping, plain) = (ping.as_slice(), plain.as_slice());
    let mut host = RealHost::new(rt);
    let (status, said) = thread::join(&rt, || serves(&rt, &mut host), || talks(&rt, ping, plain));
    ends(&rt, status?, "done", "serve")?;
    let (one, other) = said.ok_or("both connections are answered")?;
    let session = bytes_of(rt.alloc(), "OK SESSION")?;
    same_bytes(&rt, other.as_slice(), session.as_slice(), "the second");
    let pong = bytes_of(rt.alloc(), "OK PONG@8:01")?;
    same_bytes(&rt, one.as_slice(), pong.as_slice(), "the first");
    let is_gone = fs::metadata(&rt, "socket").is_err();
    holds(&rt, is_gone, "the socket is gone");
    Ok(())
}
