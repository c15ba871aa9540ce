// A signal as several outputs have it.
ghost use Rattle.std.specs.Prelude.{◌≡◌, ℕ, [], length, min, IfOk};
ghost use Rattle.secret_calls.specs.declared.signal.Signal.{Signal};
ghost use Rattle.secret_calls.specs.declared.out.Out.TheVariants as outs;
ghost use Rattle.secret_calls.specs.Outs.{spelled};

use crate::signal::Signal;
use dbus_marshal::{Counter, Put};
use kr_base::OutOfMemory;
use std::alloc::Global;
use std::marker::Model;
use std::sync::Arc;

// A signal with the length of its message, which is computed once.
#[derive(Drop)]
struct SizedSignal {
    signal: Signal,
    size: u64,
}

impl Model for SizedSignal {
    ghost Value = { Signal };

    ghost view = { λ s. s.signal };

    ghost invariant = { λ s. s.size
        ≡ min 18446744073709551615 (length (spelled (outs.Signal s.signal) 1)) };
}

impl SizedSignal {
    fn new(signal: Signal) -> SizedSignal
        ensures { result ≡ signal }
    {
        let mut counter = Counter::new();
        match signal.put(1, &mut counter) {
            Ok(()) => {}
            Err(never) => match never {},
        }
        SizedSignal {
            signal,
            size: counter.size(),
        }
    }

    fn signal(&self) -> &Signal
        ensures { result.now ≡ self.now }
    {
        &self.signal
    }

    fn size(&self) -> u64
        ensures { (serial : ℕ) → result
            ≡ min 18446744073709551615 (length (spelled (outs.Signal self.now) serial)) }
    {
        self.size
    }
}

/// A signal as outputs have it. However many share it, its texts are in memory once, and the length of
/// its message is computed once. A contract sees the signal.
#[derive(Drop)]
pub struct SharedSignal {
    kept: Arc<SizedSignal, Global>,
}

impl Model for SharedSignal {
    ghost use Rattle.std.specs.Arc.{arc_value};
    ghost use Rattle.secret_calls.specs.declared.signal.Signal.{Signal};

    ghost Value = { Signal };

    ghost view = { λ s. arc_value s.kept };
}

impl SharedSignal {
    /// The signal, which nothing shares yet.
    pub fn new(alloc: Global, signal: Signal) -> Result<SharedSignal, OutOfMemory>
        ensures { IfOk result (λ shared. shared ≡ signal) }
    {
        let kept = Arc::new(alloc, SizedSignal::new(signal))?;
        Ok(SharedSignal { kept })
    }

    /// One more owner of the same signal. It takes no memory.
    ///
    /// Refused with `OutOfMemory` only if there are 2^63 - 1 owners.
    pub fn share(&self) -> Result<SharedSignal, OutOfMemory>
        ensures { IfOk result (λ shared. shared ≡ self.now) }
    {
        Ok(SharedSignal {
            kept: Arc::try_clone(&self.kept)?,
        })
    }

    /// The signal.
    pub fn signal(&self) -> &Signal
        ensures { result.now ≡ self.now }
    {
        self.kept.signal()
    }

    /// The length of the signal's message, whatever serial it is sent with, or
    /// 18,446,744,073,709,551,615 if it is longer. It takes one step.
    pub fn size(&self) -> u64
        ensures { (serial : ℕ) → result
            ≡ min 18446744073709551615 (length (spelled (outs.Signal self.now) serial)) }
    {
        self.kept.size()
    }
}

impl PartialEq for SharedSignal {
    ghost use Rattle.std.specs.Cmp.{partial_equiv_from_equiv};
    ghost use Rattle.secret_calls.specs.contracts.signal.SignalEq.TheImpl.Laws.{laws-law};

    ghost eq = { ⟦<Signal as PartialEq>⟧.eq };

    ghost laws = { partial_equiv_from_equiv laws-law };

    fn eq(&self, other: &SharedSignal) -> bool {
        *self.signal() == *other.signal()
    }
}

impl Eq for SharedSignal {
    ghost use Rattle.secret_calls.specs.contracts.signal.SignalEq.TheImpl.Laws.{laws-law};

    ghost laws = { laws-law };
}
