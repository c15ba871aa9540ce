ghost use Rattle.std.specs.Prelude.{◌≡◌, None, false};
ghost use Rattle.std.proofs.Common.{rules};

use crate::faults::count;
use kr_outside::Clock;
use std::time;

/// The system's clock. If the system can't tell the time, it returns the moment that it returned
/// last, or 0 at first, and counts a fault.
#[derive(Drop)]
pub struct SystemClock<R: time::Clock + Copy> {
    rt: R,
    last: u64,
    faults: u64,
}

impl<R: time::Clock + Copy> SystemClock<R> {
    /// The clock, with no fault so far.
    pub fn new(rt: R) -> Self
        ensures { result.faults ≡ 0 }
    {
        SystemClock {
            rt,
            last: 0,
            faults: 0,
        }
    }

    /// How often the system couldn't tell the time.
    pub fn faults(&self) -> u64
        ensures { result ≡ self.now.faults }
    {
        self.faults
    }
}

impl<R: time::Clock + Copy> Clock for SystemClock<R> {
    ghost coming = { λ _. None };

    ghost faults = { λ c. c.faults };

    ghost is_steady = { λ _. false };

    ghost steady_below = { Prim.search rules };

    fn now(&mut self) -> u64 {
        match self.rt.since_1970() {
            Ok(moment) => self.last = moment.as_secs(),
            Err(_) => count(&mut self.faults),
        }
        self.last
    }
}
