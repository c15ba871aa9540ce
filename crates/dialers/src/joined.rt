// A dialer over a source and a sink.
ghost use Rattle.std.specs.Prelude.{◌≡◌, None, IsFalse, false, is_none};
ghost use Rattle.std.proofs.Common.{rules};

use kr_dialer::Dialer;
use kr_outside::{Failed, OutsideRefused, Sink, Source};
use std::alloc::Global;
use std::marker::Model;

/// A dialer that connects to a source and a sink, whatever the path. It counts their errors as its own.
#[derive(Drop)]
pub struct JoinedDialer<I: Source + Drop, O: Sink + Drop> {
    alloc: Global,
    input: I,
    output: O,
    path: Option<String>,
    refuses: bool,
    faults: u64,
}

impl<I: Source + Drop, O: Sink + Drop> Model for JoinedDialer<I, O> {
    ghost use Rattle.std.specs.Prelude.{IsFalse, option_map, string_bytes};
    ghost use Rattle.dialers.specs.Joined.{Joined};

    ghost Value = { Joined };

    ghost view = { λ s. record {
      dialled = option_map string_bytes s.path;
      left = I.left s.input;
      written = O.written s.output;
      faults = s.faults;
    } };

    ghost invariant = { λ s. IsFalse (I.is_closed s.input) × IsFalse (O.is_closed s.output) };
}

impl<I: Source + Drop, O: Sink + Drop> JoinedDialer<I, O> {
    /// A dialer of these, which has dialled nothing and has no fault so far. If `refuses` is true, its first `dial` fails.
    pub fn new(alloc: Global, input: I, output: O, refuses: bool) -> Self
        requires input_open { IsFalse (I.is_closed input) }
        requires output_open { IsFalse (O.is_closed output) }
        ensures { result ≡ record {
          dialled = None;
          left = I.left input;
          written = O.written output;
          faults = 0;
        } }
    {
        JoinedDialer {
            alloc,
            input,
            output,
            path: None,
            refuses,
            faults: 0,
        }
    }

    /// The sink, to which the dialer writes.
    pub fn output(&self) -> &O
        ensures { O.written result.now ≡ self.now.written }
    {
        &self.output
    }
}

impl<I: Source + Drop, O: Sink + Drop> Dialer for JoinedDialer<I, O> {
    ghost dialled = { λ s. s.dialled };

    ghost left = { λ s. s.left };

    ghost written = { λ s. s.written };

    ghost faults = { λ s. s.faults };

    ghost is_steady = { λ _. false };

    ghost steady_below = { Prim.search rules };

    fn dial(&mut self, path: &str) -> Result<(), OutsideRefused> {
        if self.refuses {
            self.faults = self.faults.saturating_add(1);
            return Err(OutsideRefused::Failed);
        }
        match String::from_str(self.alloc, path) {
            Ok(path) => {
                self.path = Some(path);
                Ok(())
            }
            Err(_) => Err(OutsideRefused::OutOfMemory),
        }
    }

    fn read(&mut self, buffer: &mut [u8]) -> Result<usize, Failed> {
        match self.input.read(buffer) {
            Ok(count) => Ok(count),
            Err(Failed) => {
                self.faults = self.faults.saturating_add(1);
                Err(Failed)
            }
        }
    }

    fn write(&mut self, piece: &[u8]) -> Result<usize, Failed> {
        match self.output.write(piece) {
            Ok(count) => Ok(count),
            Err(Failed) => {
                self.faults = self.faults.saturating_add(1);
                Err(Failed)
            }
        }
    }
}
