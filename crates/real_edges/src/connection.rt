// What the two ends of a connection and its door share.
use std::net::Shutdown;
use std::os::unix::net::UnixStream;
use std::sync::atomic::{AtomicBool, Ordering};

// The line that ends a handshake (D-Bus Specification, "Authentication Protocol"), after the end of another line.
const BEGIN: &[u8] = b"\r\nBEGIN\r\n";

/// A connection. It is closed once neither end nor the door has it any more.
#[derive(Drop)]
pub struct Connection {
    /// The stream of both ends.
    pub stream: UnixStream,
    has_begun: AtomicBool,
}

impl Connection {
    /// The connection of this stream, in which nothing was read yet.
    pub fn new(stream: UnixStream) -> Connection {
        Connection {
            stream,
            has_begun: AtomicBool::new(false),
        }
    }

    /// Notes that the line BEGIN was read.
    pub fn begin(&self) {
        self.has_begun.store(true, Ordering::SeqCst);
    }

    /// Whether the line BEGIN was read.
    pub fn has_begun(&self) -> bool {
        self.has_begun.load(Ordering::SeqCst)
    }

    /// The other side sends nothing more: what it has sent can still be read, and then comes the end.
    pub fn end_input(&self) {
        // A connection that is gone already needs no shutdown.
        let _ = self.stream.shutdown(Shutdown::Read);
    }

    /// The other side reads what was written, and then the end.
    pub fn end_output(&self) {
        // A connection that is gone already needs no shutdown.
        let _ = self.stream.shutdown(Shutdown::Write);
    }
}

/// How much of the line BEGIN, and of the end of the line before it, was read last. It stays at the whole once that
/// was read.
#[derive(Drop)]
pub struct BeginLine {
    read: usize,
}

impl BeginLine {
    /// Nothing was read yet.
    pub fn new() -> BeginLine {
        BeginLine { read: 0 }
    }

    /// Whether the line was read.
    pub fn is_read(&self) -> bool {
        self.read == BEGIN.len()
    }

    /// Reads these bytes.
    pub fn read(&mut self, bytes: &[u8]) {
        for byte in bytes {
            self.read = after(self.read, *byte);
        }
    }
}

// How much of the line was read after one more byte. No part of it but its first byte is in it twice, before its end.
fn after(read: usize, byte: u8) -> usize {
    if read == BEGIN.len() || BEGIN.get(read) == Some(&byte) {
        BEGIN.len().min(read.saturating_add(1))
    } else if byte == b'\r' {
        1
    } else {
        0
    }
}
