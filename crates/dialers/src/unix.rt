// A Unix stream socket to which the program connects.
ghost use Rattle.std.specs.Prelude.{◌≡◌, None, option_map, string_bytes, false};
ghost use Rattle.std.proofs.Common.{rules};

use kr_dialer::Dialer;
use kr_outside::{Failed, OutsideRefused};
use std::alloc::AllocGlobal;
use std::io::{self, ErrorKind, Read, Write};
use std::net::Net;
use std::os::unix::net::UnixStream;

// A connection, and the path at which it was made.
#[derive(Drop)]
struct Connected {
    stream: UnixStream,
    path: String,
}

/// A dialer of Unix stream sockets. It counts the system's errors, and passes on nothing else of them. A call that a
/// signal interrupts is made again.
#[derive(Drop)]
pub struct UnixDialer<R: Net + AllocGlobal + Copy> {
    rt: R,
    connected: Option<Connected>,
    faults: u64,
}

// A connection to what listens at the path.
fn connect<R: Net>(rt: &R, path: &str) -> io::Result<UnixStream> {
    for _ in 0..u64::MAX {
        match UnixStream::connect(rt, path) {
            Ok(stream) => return Ok(stream),
            Err(error) => {
                if error.kind() != ErrorKind::Interrupted {
                    return Err(error);
                }
            }
        }
    }
    Err(ErrorKind::Interrupted.into())
}

impl<R: Net + AllocGlobal + Copy> UnixDialer<R> {
    /// A dialer that has dialled nothing, with no fault so far.
    pub fn new(rt: R) -> Self
        ensures not_dialled { option_map (λ it. string_bytes it.path) result.connected ≡ None }
        ensures faults { result.faults ≡ 0 }
    {
        UnixDialer {
            rt,
            connected: None,
            faults: 0,
        }
    }
}

impl<R: Net + AllocGlobal + Copy> Dialer for UnixDialer<R> {
    ghost dialled = { λ s. option_map (λ it. string_bytes it.path) s.connected };

    ghost left = { λ _. None };

    ghost written = { λ _. None };

    ghost faults = { λ s. s.faults };

    ghost is_steady = { λ _. false };

    ghost steady_below = { Prim.search rules };

    fn dial(&mut self, path: &str) -> Result<(), OutsideRefused> {
        let Ok(kept) = String::from_str(self.rt.alloc(), path) else {
            return Err(OutsideRefused::OutOfMemory);
        };
        match connect(&self.rt, path) {
            Ok(stream) => {
                self.connected = Some(Connected { stream, path: kept });
                Ok(())
            }
            Err(_) => {
                self.faults = self.faults.saturating_add(1);
                Err(OutsideRefused::Failed)
            }
        }
    }

    fn read(&mut self, buffer: &mut [u8]) -> Result<usize, Failed> {
        if let Some(connected) = &self.connected {
            for _ in 0..u64::MAX {
                let mut stream = &connected.stream;
                match stream.read(buffer) {
                    Ok(count) => return Ok(count),
                    Err(error) => {
                        if error.kind() != ErrorKind::Interrupted {
                            break;
                        }
                    }
                }
            }
        }
        self.faults = self.faults.saturating_add(1);
        Err(Failed)
    }

    /// Writes the first bytes of the piece. If the other side is gone, that is a failure like any other, and no signal is
    /// raised.
    fn write(&mut self, piece: &[u8]) -> Result<usize, Failed> {
        if let Some(connected) = &self.connected {
            for _ in 0..u64::MAX {
                let mut stream = &connected.stream;
                match stream.write(piece) {
                    Ok(count) => {
                        if count == 0 && !piece.is_empty() {
                            break;
                        }
                        return Ok(count);
                    }
                    Err(error) => {
                        if error.kind() != ErrorKind::Interrupted {
                            break;
                        }
                    }
                }
            }
        }
        self.faults = self.faults.saturating_add(1);
        Err(Failed)
    }
}
