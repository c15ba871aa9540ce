// Streams that wait for one another: a source that waits for a flag, and a sink that sets one.
ghost use Rattle.std.specs.Prelude.{◌≡◌, ℕ, ◌≤◌, Bool, List, Option, None, IsTrue, IsFalse};

use kr_outside::{Failed, Sink, Source};
use std::alloc::Global;
use std::sync::Arc;
use std::sync::atomic::{AtomicBool, Ordering};

/// How often a gated source loads its flag before it gives up, unless another number is stated.
pub const TURNS: u64 = 1_000_000_000;

// Whether the flag was seen set, in at most this many loads.
fn is_set_within(turns: u64, flag: &AtomicBool) -> bool {
    for _ in 0..turns {
        if flag.load(Ordering::Acquire) {
            return true;
        }
    }
    false
}

/// A source that gives the bytes of another one once a flag is set. Until then a read waits, by
/// loading the flag again and again; after a number of loads in vain the input is at its end for
/// good. It doesn't report its bytes.
#[derive(Drop)]
pub struct GatedSource<S: Source + Drop> {
    source: S,
    flag: Arc<AtomicBool, Global>,
    turns: u64,
    is_given: bool,
    has_given_up: bool,
}

impl<S: Source + Drop> GatedSource<S> {
    /// The source, whose bytes are given once the flag is set. A read waits for at most `TURNS`
    /// loads of it.
    pub fn new(source: S, flag: Arc<AtomicBool, Global>) -> Self
        ensures { result.source ≡ source }
    {
        GatedSource::with_turns(source, flag, TURNS)
    }

    /// The same, with this number of loads.
    pub fn with_turns(source: S, flag: Arc<AtomicBool, Global>, turns: u64) -> Self
        ensures { result.source ≡ source }
    {
        GatedSource {
            source,
            flag,
            turns,
            is_given: false,
            has_given_up: false,
        }
    }
}

impl<S: Source + Drop> Source for GatedSource<S> {
    ghost left = { λ _. None };

    ghost faults = { λ s. S.faults s.source };

    ghost is_steady = { λ s. S.is_steady s.source };

    ghost is_closed = { λ s. S.is_closed s.source };

    ghost steady_below = { λ s. S.steady_below s.source };

    fn read(&mut self, buffer: &mut [u8]) -> Result<usize, Failed> {
        if !self.is_given && !self.has_given_up {
            self.is_given = is_set_within(self.turns, &self.flag);
            self.has_given_up = !self.is_given;
        }
        if self.has_given_up {
            return Ok(0);
        }
        self.source.read(buffer)
    }

    fn close(&mut self) {
        self.source.close();
    }
}

/// A sink that sets a flag once another sink, to which it passes everything on, has taken a number
/// of bytes.
#[derive(Drop)]
pub struct FlagSink<O: Sink + Drop> {
    sink: O,
    flag: Arc<AtomicBool, Global>,
    missing: u64,
}

impl<O: Sink + Drop> FlagSink<O> {
    /// The sink, which sets the flag with the byte of this number; at once if the number is 0.
    pub fn new(sink: O, flag: Arc<AtomicBool, Global>, number: u64) -> Self
        ensures { result.sink ≡ sink }
    {
        if number == 0 {
            flag.store(true, Ordering::Release);
        }
        FlagSink {
            sink,
            flag,
            missing: number,
        }
    }

    /// The sink that takes the bytes.
    pub fn sink(&self) -> &O
        ensures { result.now ≡ self.now.sink }
    {
        &self.sink
    }
}

impl<O: Sink + Drop> Sink for FlagSink<O> {
    ghost written = { λ s. O.written s.sink };

    ghost faults = { λ s. O.faults s.sink };

    ghost is_steady = { λ s. O.is_steady s.sink };

    ghost is_closed = { λ s. O.is_closed s.sink };

    ghost steady_below = { λ s. O.steady_below s.sink };

    fn write(&mut self, piece: &[u8]) -> Result<usize, Failed> {
        let count = self.sink.write(piece)?;
        self.missing = self.missing.saturating_sub(count as u64);
        if self.missing == 0 {
            self.flag.store(true, Ordering::Release);
        }
        Ok(count)
    }

    fn close(&mut self) {
        self.sink.close();
    }
}
