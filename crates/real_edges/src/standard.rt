// The standard streams as a source and a sink: any reader and writer of std, with a count of their
// errors. A call that a signal interrupts is made again.
ghost use Rattle.std.specs.Prelude.{◌≡◌, ◌^◌, ◌-◌, false};
ghost use Rattle.std.proofs.Common.{rules};
ghost use Rattle.std.proofs.lemmas.Bool.{false≢true};

use kr_outside::{Failed, Sink, Source};
use std::io::{ErrorKind, Read, Write};

/// A reader as a source. It counts the reader's errors, and passes on nothing else of them.
#[derive(Drop)]
pub struct ReaderSource<S: Read> {
    reader: S,
    faults: u64,
    is_closed: bool,
}

impl<S: Read> ReaderSource<S> {
    /// The reader, with no error so far.
    pub fn new(reader: S) -> Self
        ensures reader { result.reader ≡ reader }
        ensures faults { result.faults ≡ 0 }
        ensures is_open { result.is_closed ≡ false }
    {
        ReaderSource {
            reader,
            faults: 0,
            is_closed: false,
        }
    }

    /// How often the reader returned an error.
    pub fn faults(&self) -> u64
        ensures { result ≡ self.now.faults }
    {
        self.faults
    }
}

impl<S: Read> Source for ReaderSource<S> {
    ghost left = { λ s. S.remaining s.reader };

    ghost faults = { λ s. s.faults };

    ghost is_steady = { λ _. false };

    ghost is_closed = { λ s. s.is_closed };

    ghost steady_below = { λ s steady. absurd (false≢true steady) };

    fn read(&mut self, buffer: &mut [u8]) -> Result<usize, Failed> {
        for _ in 0..u64::MAX {
            match self.reader.read(buffer) {
                Ok(count) => return Ok(count),
                Err(error) => {
                    if error.kind() != ErrorKind::Interrupted {
                        break;
                    }
                }
            }
        }
        self.faults = self.faults.saturating_add(1);
        Err(Failed)
    }

    /// Notes that the reader isn't read any more. It is given up with the source.
    fn close(&mut self) {
        self.is_closed = true;
    }
}

/// A writer as a sink. It counts the writer's errors, and passes on nothing else of them. A write
/// that takes none of a piece is an error.
#[derive(Drop)]
pub struct WriterSink<S: Write> {
    writer: S,
    faults: u64,
    is_closed: bool,
}

impl<S: Write> WriterSink<S> {
    /// The writer, with no error so far.
    pub fn new(writer: S) -> Self
        ensures writer { result.writer ≡ writer }
        ensures faults { result.faults ≡ 0 }
        ensures is_open { result.is_closed ≡ false }
    {
        WriterSink {
            writer,
            faults: 0,
            is_closed: false,
        }
    }

    /// The writer alone.
    pub fn into_writer(self) -> S
        ensures { result ≡ self.writer }
    {
        self.writer
    }

    /// How often the writer returned an error.
    pub fn faults(&self) -> u64
        ensures { result ≡ self.now.faults }
    {
        self.faults
    }
}

impl<S: Write> Sink for WriterSink<S> {
    ghost written = { λ s. S.contents s.writer };

    ghost faults = { λ s. s.faults };

    ghost is_steady = { λ _. false };

    ghost is_closed = { λ s. s.is_closed };

    ghost steady_below = { λ s steady. absurd (false≢true steady) };

    fn write(&mut self, piece: &[u8]) -> Result<usize, Failed> {
        for _ in 0..u64::MAX {
            match self.writer.write(piece) {
                Ok(count) => {
                    if count == 0 && !piece.is_empty() {
                        break;
                    }
                    return Ok(count);
                }
                Err(error) => {
                    if error.kind() != ErrorKind::Interrupted {
                        break;
                    }
                }
            }
        }
        self.faults = self.faults.saturating_add(1);
        Err(Failed)
    }

    /// Notes that the writer isn't written any more. It is given up with the sink.
    fn close(&mut self) {
        self.is_closed = true;
    }
}
