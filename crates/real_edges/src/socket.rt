// The two ends of a connection that is made at a Unix socket.
ghost use Rattle.std.specs.Prelude.{◌≡◌, None, false, is_none};
ghost use Rattle.std.proofs.Common.{rules};

use crate::connection::{BeginLine, Connection};
use crate::faults::count;
use kr_outside::{Failed, Sink, Source};
use std::alloc::Global;
use std::io::{ErrorKind, Read, Write};
use std::sync::Arc;

/// What the other side of a connection sends. It counts the system's errors.
#[derive(Drop)]
pub struct SocketSource {
    stream: Option<Arc<Connection, Global>>,
    line: BeginLine,
    faults: u64,
}

impl SocketSource {
    /// The input of a connection, with no fault so far.
    pub fn new(connection: Arc<Connection, Global>) -> SocketSource
        ensures is_open { is_none result.stream ≡ false }
        ensures faults { result.faults ≡ 0 }
    {
        SocketSource {
            stream: Some(connection),
            line: BeginLine::new(),
            faults: 0,
        }
    }

    /// How often the system returned an error.
    pub fn faults(&self) -> u64
        ensures { result ≡ self.now.faults }
    {
        self.faults
    }
}

// Notes whether the line BEGIN was read with these bytes.
fn note(line: &mut BeginLine, connection: &Connection, bytes: &[u8]) {
    if line.is_read() {
        return;
    }
    line.read(bytes);
    if line.is_read() {
        connection.begin();
    }
}

impl Source for SocketSource {
    ghost left = { λ _. None };

    ghost faults = { λ s. s.faults };

    ghost is_steady = { λ _. false };

    ghost is_closed = { λ s. is_none s.stream };

    ghost steady_below = { Prim.search rules };

    fn read(&mut self, buffer: &mut [u8]) -> Result<usize, Failed> {
        if let Some(connection) = &self.stream {
            for _ in 0..u64::MAX {
                let mut stream = &connection.stream;
                match stream.read(buffer) {
                    Ok(count) => {
                        note(&mut self.line, connection, &buffer[..count]);
                        return Ok(count);
                    }
                    Err(error) => {
                        if error.kind() != ErrorKind::Interrupted {
                            break;
                        }
                    }
                }
            }
        }
        count(&mut self.faults);
        Err(Failed)
    }

    /// The other side can't send any more. Once both halves are closed, so is the connection.
    fn close(&mut self) {
        if let Some(connection) = self.stream.take() {
            connection.end_input();
        }
    }
}

/// What the other side of a connection receives. It counts the system's errors.
#[derive(Drop)]
pub struct SocketSink {
    stream: Option<Arc<Connection, Global>>,
    faults: u64,
}

impl SocketSink {
    /// The output of a connection, with no fault so far.
    pub fn new(connection: Arc<Connection, Global>) -> SocketSink
        ensures is_open { is_none result.stream ≡ false }
        ensures faults { result.faults ≡ 0 }
    {
        SocketSink {
            stream: Some(connection),
            faults: 0,
        }
    }

    /// How often the system returned an error.
    pub fn faults(&self) -> u64
        ensures { result ≡ self.now.faults }
    {
        self.faults
    }
}

impl Sink for SocketSink {
    ghost written = { λ _. None };

    ghost faults = { λ s. s.faults };

    ghost is_steady = { λ _. false };

    ghost is_closed = { λ s. is_none s.stream };

    ghost steady_below = { Prim.search rules };

    /// Writes the first bytes of the piece. If the other side is gone, that is a failure like any
    /// other, and no signal is raised.
    fn write(&mut self, piece: &[u8]) -> Result<usize, Failed> {
        if let Some(connection) = &self.stream {
            for _ in 0..u64::MAX {
                let mut stream = &connection.stream;
                match stream.write(piece) {
                    Ok(count) => {
                        if count == 0 && !piece.is_empty() {
                            break;
                        }
                        return Ok(count);
                    }
                    Err(error) => {
                        if error.kind() != ErrorKind::Interrupted {
                            break;
                        }
                    }
                }
            }
        }
        count(&mut self.faults);
        Err(Failed)
    }

    /// The other side reads what was written, and then the end. Once both halves are closed, so is
    /// the connection.
    fn close(&mut self) {
        if let Some(connection) = self.stream.take() {
            connection.end_output();
        }
    }
}
