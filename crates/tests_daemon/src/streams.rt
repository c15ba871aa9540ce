// A source that reports when nobody reads it any more, and a sink that holds its writer up.
ghost use Rattle.std.specs.Prelude.{◌≡◌};

use kr_outside::{Failed, Sink, Source};
use std::alloc::Global;
use std::sync::Arc;
use std::sync::atomic::{AtomicBool, Ordering};

/// A flag.
pub type Flag = Arc<AtomicBool, Global>;

/// A source that sets a flag once it has come to its end, or is dropped.
pub struct TellingSource<S: Source + Drop> {
    source: S,
    is_over: Flag,
}

impl<S: Source + Drop> Drop for TellingSource<S> {
    fn drop(self) {
        let TellingSource {
            source: _source,
            is_over,
        } = self;
        is_over.store(true, Ordering::Release);
    }
}

impl<S: Source + Drop> TellingSource<S> {
    /// The source, which sets this flag.
    pub fn new(source: S, is_over: Flag) -> Self
        ensures { result.source ≡ source }
    {
        TellingSource { source, is_over }
    }
}

impl<S: Source + Drop> Source for TellingSource<S> {
    ghost left = { λ s. S.left s.source };

    ghost faults = { λ s. S.faults s.source };

    ghost is_steady = { λ s. S.is_steady s.source };

    ghost is_closed = { λ s. S.is_closed s.source };

    ghost steady_below = { λ s. S.steady_below s.source };

    fn read(&mut self, buffer: &mut [u8]) -> Result<usize, Failed> {
        let count = self.source.read(buffer)?;
        if count == 0 {
            self.is_over.store(true, Ordering::Release);
        }
        Ok(count)
    }

    fn close(&mut self) {
        self.source.close();
    }
}

// Waits until the flag is set.
fn wait_for(flag: &AtomicBool) {
    for _ in 0..u64::MAX {
        if flag.load(Ordering::Acquire) {
            return;
        }
    }
}

/// A sink whose writes wait for a flag, except for the first one, as if the other side read nothing after it.
#[derive(Drop)]
pub struct HeldSink<O: Sink + Drop> {
    sink: O,
    is_read_on: Flag,
    has_begun: bool,
}

impl<O: Sink + Drop> HeldSink<O> {
    /// The sink, whose writes wait for this flag.
    pub fn new(sink: O, is_read_on: Flag) -> Self
        ensures { result.sink ≡ sink }
    {
        HeldSink {
            sink,
            is_read_on,
            has_begun: false,
        }
    }

    /// The sink that takes the bytes.
    pub fn sink(&self) -> &O
        ensures { result.now ≡ self.now.sink }
    {
        &self.sink
    }
}

impl<O: Sink + Drop> Sink for HeldSink<O> {
    ghost written = { λ s. O.written s.sink };

    ghost faults = { λ s. O.faults s.sink };

    ghost is_steady = { λ s. O.is_steady s.sink };

    ghost is_closed = { λ s. O.is_closed s.sink };

    ghost steady_below = { λ s. O.steady_below s.sink };

    fn write(&mut self, piece: &[u8]) -> Result<usize, Failed> {
        if self.has_begun {
            wait_for(&self.is_read_on);
        }
        self.has_begun = true;
        self.sink.write(piece)
    }

    fn close(&mut self) {
        self.sink.close();
    }
}
