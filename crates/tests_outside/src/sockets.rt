// Real sockets: both ends of a connection are in this process.
ghost use Rattle.std.specs.Prelude.{IsFalse, IfOk, is_none};

use crate::checks::{holds, same_bytes, same_number, same_text};
use kr_outside::{Host, Link, Listener, Sink, Source, write_all};
use real_edges::{RealHost, SocketSink, SocketSource, UnixDoor};
use std::fs;
use std::io::{Read, Write};
use std::os::unix::fs::PermissionsExt;
use std::os::unix::net::UnixStream;
use std::test::Fail;

fn door_at(rt: HostRuntime, path: &str) -> Result<UnixDoor<HostRuntime>, Fail> {
    Ok(RealHost::new(rt).listen(path).ok().ok_or("a door")?)
}

fn is_refused(rt: HostRuntime, path: &str) -> bool {
    let mut host = RealHost::new(rt);
    host.listen(path).is_err() && host.faults() == 1
}

fn link_of(door: &mut UnixDoor<HostRuntime>) -> Result<Link<SocketSource, SocketSink>, Fail>
    ensures input { IfOk result (λ link. IsFalse (is_none link.input.stream)) }
    ensures output { IfOk result (λ link. IsFalse (is_none link.output.stream)) }
{
    Ok(door.accept()?.ok_or("a link")?)
}

// What a read of the link returns, and whether an answer is written.
fn answered(rt: &HostRuntime, link: Link<SocketSource, SocketSink>) -> Result<Vec<u8>, Fail>
    requires input { IsFalse (is_none link.input.stream) }
    requires output { IsFalse (is_none link.output.stream) }
{
    let Link {
        mut input,
        mut output,
    } = link;
    let mut buffer = [0; 8];
    let count = input.read(&mut buffer)?;
    write_all(&mut output, b"answer")?;
    input.close();
    output.close();
    Ok(buffer[..count].to_vec(rt.alloc())?)
}

// What the other side reads up to the end of the connection.
fn read_whole(rt: &HostRuntime, stream: &mut UnixStream) -> Result<Vec<u8>, Fail> {
    let mut told = Vec::new(rt.alloc());
    stream.read_to_end(&mut told)?;
    Ok(told)
}

#[test]
fn a_link_carries_bytes_both_ways_and_is_closed(rt: HostRuntime) -> Result<(), Fail> {
    let mut door = door_at(rt, "both")?;
    let mut stream = UnixStream::connect(&rt, "both")?;
    stream.write_all(b"call")?;
    let link = link_of(&mut door)?;
    let call = answered(&rt, link)?;
    same_bytes(&rt, call.as_slice(), b"call", "the call");
    let answer = read_whole(&rt, &mut stream)?;
    same_bytes(&rt, answer.as_slice(), b"answer", "the answer");
    same_number(&rt, door.given(), 1, "links");
    Ok(())
}

// What a write to a side that went away returns, what a read returns, and the faults of both.
fn told_of_a_peer_that_went_away(
    rt: &HostRuntime,
    link: Link<SocketSource, SocketSink>,
) -> Result<String, Fail>
    requires input { IsFalse (is_none link.input.stream) }
    requires output { IsFalse (is_none link.output.stream) }
{
    let Link {
        mut input,
        mut output,
    } = link;
    let mut buffer = [0; 8];
    let is_refused = output.write(b"answer").is_err();
    let count = input.read(&mut buffer)?;
    let (read_faults, write_faults) = (input.faults(), output.faults());
    Ok(format!(in rt.alloc(); "{is_refused} {count} {read_faults} {write_faults}")?)
}

// If the write raised a signal, this process would end by it.
#[test]
fn a_peer_that_went_away_is_a_fault_and_no_signal(rt: HostRuntime) -> Result<(), Fail> {
    let mut door = door_at(rt, "away")?;
    let stream = UnixStream::connect(&rt, "away")?;
    drop(stream);
    let link = link_of(&mut door)?;
    let told = told_of_a_peer_that_went_away(&rt, link)?;
    same_text(&rt, told.as_str(), "true 0 0 1", "a peer that went away");
    Ok(())
}

#[test]
fn a_socket_file_is_made_for_its_owner_and_taken_away(rt: HostRuntime) -> Result<(), Fail> {
    let mut host = RealHost::new(rt);
    let door = host.listen("mine").ok().ok_or("a door")?;
    let mode = fs::metadata(&rt, "mine")?.permissions().mode() % 0o1000;
    same_number(&rt, mode as u64, 0o600, "the mode");
    host.shut(door);
    holds(&rt, fs::metadata(&rt, "mine").is_err(), "the file is gone");
    same_number(&rt, host.faults(), 0, "faults");
    Ok(())
}

#[test]
fn only_a_socket_file_that_was_left_over_is_replaced(rt: HostRuntime) -> Result<(), Fail> {
    let left_over = door_at(rt, "left_over")?;
    drop(left_over);
    let door = door_at(rt, "left_over")?;
    holds(&rt, is_refused(rt, "left_over"), "somebody listens");
    drop(door);
    fs::write(&rt, "plain", b"a file")?;
    holds(&rt, is_refused(rt, "plain"), "another file");
    holds(&rt, is_refused(rt, "no_folder/socket"), "no folder");
    let kept = fs::read(&rt, "plain")?;
    same_bytes(&rt, kept.as_slice(), b"a file", "the other file");
    Ok(())
}
