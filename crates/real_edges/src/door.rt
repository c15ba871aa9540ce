// A Unix socket at which others connect.
ghost use Rattle.std.specs.Prelude.{◌≡◌, None, IfOk, string_bytes, false};
ghost use Rattle.std.proofs.Common.{rules};

use crate::connection::Connection;
use crate::ending::Ending;
use crate::faults::count;
use crate::socket::{SocketSink, SocketSource};
use crate::socket_file::{self, SocketFile};
use kr_outside::{Failed, Link, Listener};
use std::alloc::{AllocGlobal, Global};
use std::fs::{File, Files};
use std::io::{self, Eprint, Error, ErrorKind};
use std::net::Net;
use std::os::fd::AsFd;
use std::os::unix::net::{UnixListener, UnixStream};
use std::sync::Arc;
use std::thread;
use std::time::{self, Duration};

// As many links are there at once as the service has connections.
const MOST_LINKS: usize = 256;

// At most half of them are of others that haven't said BEGIN yet.
const MOST_HANDSHAKES: usize = 128;

// The errors of the system that pass: too many open files in it or in the process, and no room for another socket.
const SHORTAGES: &[i32] = &[23, 24, 12, 105];

/// A Unix socket that is bound to a path. It counts its connections and the system's errors. It
/// keeps waiting for the next connection, until its bell is rung.
#[derive(Drop)]
pub struct UnixDoor<R: Copy> {
    hall: Hall<R>,
    file: SocketFile,
    has_ended: bool,
    given: u64,
    faults: u64,
}

// The links that the door gave and that are still open, the oldest first.
#[derive(Drop)]
struct Hall<R: Copy> {
    rt: R,
    listener: UnixListener,
    ending: Option<Arc<Ending, Global>>,
    links: Vec<Arc<Connection, Global>>,
    is_told: bool,
}

// What came of waiting for a connection.
#[derive(Drop)]
enum Next {
    // A connection, for its two ends.
    Made(Arc<Connection, Global>, Arc<Connection, Global>),
    // The bell was rung.
    Ended,
    // The system failed.
    Failed,
}

// What is done about an error of the system.
#[derive(Clone, Copy, PartialEq, Eq)]
enum Remedy {
    // The connection is gone again, or a signal came: the next one is awaited.
    Retry,
    // Something is short: it is awaited.
    Wait,
    // Nothing.
    Fail,
}

fn remedy_for(error: &Error) -> Remedy {
    let kind = error.kind();
    if kind == ErrorKind::Interrupted || kind == ErrorKind::ConnectionAborted {
        return Remedy::Retry;
    }
    match error.raw_os_error() {
        Some(number) => {
            if SHORTAGES.contains(&number) {
                Remedy::Wait
            } else {
                Remedy::Fail
            }
        }
        None => Remedy::Fail,
    }
}

// Whether descriptors are free for a link, and for the files of a change: four are made, and given up again.
fn has_descriptors(listener: &UnixListener) -> bool {
    let first = listener.try_clone();
    let second = listener.try_clone();
    let third = listener.try_clone();
    let fourth = listener.try_clone();
    first.is_ok() && second.is_ok() && third.is_ok() && fourth.is_ok()
}

// Whether neither end of the link is there any more.
fn is_over(link: &Arc<Connection, Global>) -> bool {
    Arc::strong_count(link) == 1
}

fn remove_those_that_are_over(links: &mut Vec<Arc<Connection, Global>>) {
    links.retain(|link| !is_over(link));
}

// The place of the oldest link of which BEGIN wasn't read, if no further link of that kind has room.
fn place_to_empty(links: &[Arc<Connection, Global>]) -> Option<usize> {
    let handshakes = links.iter().filter(|link| !link.has_begun()).count();
    if handshakes < MOST_HANDSHAKES && links.len() < MOST_LINKS {
        return None;
    }
    links.iter().position(|link| !link.has_begun())
}

impl<R: time::Clock + Eprint + AllocGlobal + Copy> Hall<R> {
    // Waits a moment for what is short. The first time that is printed.
    fn wait(&mut self) {
        if !self.is_told {
            self.is_told = true;
            let _ = eprintln!(self.rt;
                "keyringd: no descriptors or memory for a further connection: waiting until some are free"
            );
        }
        thread::sleep(&self.rt, Duration::from_millis(100));
    }

    // Makes room for one more link: if there is none, the oldest whose other side hasn't said BEGIN is ended, and
    // for a second its ends are awaited.
    fn make_room(&mut self) {
        let Some(place) = place_to_empty(self.links.as_slice()) else {
            return;
        };
        if let Some(link) = self.links.get(place) {
            link.end_input();
            link.end_output();
            for _ in 0..1000 {
                if is_over(link) {
                    break;
                }
                thread::sleep(&self.rt, Duration::from_millis(1));
            }
        }
        if place < self.links.len() {
            self.links.remove(place);
        }
    }

    // Keeps a connection, and returns it for its two ends; None if no memory was left, and it is closed.
    fn keep(
        &mut self,
        stream: UnixStream,
    ) -> Option<(Arc<Connection, Global>, Arc<Connection, Global>)> {
        self.make_room();
        self.links.reserve(1).ok()?;
        let kept = Arc::new(self.rt.alloc(), Connection::new(stream)).ok()?;
        let input = Arc::try_clone(&kept).ok()?;
        let output = Arc::try_clone(&kept).ok()?;
        self.links.push(kept).ok()?;
        Some((input, output))
    }

    fn is_rung(&self) -> bool {
        match &self.ending {
            Some(ending) => ending.is_rung(),
            None => false,
        }
    }

    // The inputs of all links come to their end.
    fn end_links(&mut self) {
        for link in &self.links {
            link.end_input();
        }
    }

    // Waits for the next connection.
    fn next(&mut self) -> Next {
        for _ in 0..u64::MAX {
            remove_those_that_are_over(&mut self.links);
            if self.is_rung() {
                self.end_links();
                return Next::Ended;
            }
            if !has_descriptors(&self.listener) {
                self.wait();
                continue;
            }
            match self.listener.accept() {
                Ok((stream, _)) => {
                    if let Some((input, output)) = self.keep(stream) {
                        return Next::Made(input, output);
                    }
                }
                Err(error) => match remedy_for(&error) {
                    Remedy::Retry => {}
                    Remedy::Wait => self.wait(),
                    Remedy::Fail => {
                        if !self.is_rung() {
                            return Next::Failed;
                        }
                    }
                },
            }
        }
        Next::Failed
    }
}

impl<R: Files<File = File> + Net + time::Clock + Eprint + AllocGlobal + Copy> UnixDoor<R> {
    /// A socket at the path, to which its owner alone may connect (mode 0600). A socket file that
    /// an ended process left there is replaced. It ends when this bell is rung, if there is one.
    ///
    /// An error if the path is another file's, or a socket's at which somebody listens.
    pub fn bind(rt: R, path: &str, ending: Option<Arc<Ending, Global>>) -> io::Result<UnixDoor<R>>
        ensures address { IfOk result (λ door. string_bytes door.file.path ≡ path.now) }
        ensures given { IfOk result (λ door. door.given ≡ 0) }
        ensures ended { IfOk result (λ door. door.has_ended ≡ false) }
    {
        let (listener, file) = socket_file::bind(&rt, path)?;
        if let Some(ending) = &ending {
            ending.watch(handle_of(&listener)?);
        }
        Ok(UnixDoor {
            hall: Hall {
                rt,
                listener,
                ending,
                links: Vec::new(rt.alloc()),
                is_told: false,
            },
            file,
            has_ended: false,
            given: 0,
            faults: 0,
        })
    }

    /// Nobody connects any more, and the socket's file is removed, unless another one has taken its place. Returns the
    /// path, and an error if the file can't be removed.
    pub fn close(self) -> (String, io::Result<()>)
        ensures { result.0 ≡ self.file.path }
    {
        let removed = self.file.remove(&self.hall.rt);
        (self.file.into_path(), removed)
    }
}

impl<R: Copy> UnixDoor<R> {
    /// How many connections it gave.
    pub fn given(&self) -> u64
        ensures { result ≡ self.now.given }
    {
        self.given
    }

    /// Whether it has ended.
    pub fn has_ended(&self) -> bool
        ensures { result ≡ self.now.has_ended }
    {
        self.has_ended
    }

    /// How often the system returned an error that didn't pass.
    pub fn faults(&self) -> u64
        ensures { result ≡ self.now.faults }
    {
        self.faults
    }
}

// A second handle of a socket that listens, by which another thread shuts it.
fn handle_of(listener: &UnixListener) -> io::Result<UnixStream> {
    Ok(UnixStream::from(listener.as_fd().try_clone_to_owned()?))
}

impl<R: Files<File = File> + Net + time::Clock + Eprint + AllocGlobal + Copy> Listener
    for UnixDoor<R> {
    type In = SocketSource;

    type Out = SocketSink;

    ghost address = { λ d. string_bytes d.file.path };

    ghost coming = { λ _. None };

    ghost given = { λ d. d.given };

    ghost has_ended = { λ d. d.has_ended };

    ghost faults = { λ d. d.faults };

    ghost is_steady = { λ _. false };

    ghost steady_below = { Prim.search rules };

    /// Waits for the next connection. One that went away again is left out, and a shortage of descriptors or memory
    /// is waited out, which is printed once. If half of the links that may be there at once, or all of them, are there
    /// and their other sides haven't said BEGIN, the oldest of these is ended for the new one.
    fn accept(&mut self) -> Result<Option<Link<SocketSource, SocketSink>>, Failed> {
        if self.has_ended {
            return Ok(None);
        }
        match self.hall.next() {
            Next::Made(input, output) => {
                self.given = self.given.saturating_add(1);
                Ok(Some(Link {
                    input: SocketSource::new(input),
                    output: SocketSink::new(output),
                }))
            }
            Next::Ended => {
                self.has_ended = true;
                Ok(None)
            }
            Next::Failed => {
                count(&mut self.faults);
                Err(Failed)
            }
        }
    }
}
