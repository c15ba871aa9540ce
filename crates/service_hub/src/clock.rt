ghost use Rattle.std.specs.Prelude.{◌≡◌, ◌≤◌, None, false};
ghost use Rattle.std.proofs.Common.{rules};
ghost use Rattle.kr_outside.specs.Clock.{GivesFirst};
ghost use Rattle.kr_outside.specs.Faults.{KeepsSteady};
ghost use Rattle.service_hub.specs.Moments.{IsMoment};

use kr_outside::Clock;
use std::alloc::Global;
use std::sync::{Arc, Mutex, Wait};

/// The clock of one connection: a clock that all connections have in common, each call of which waits
/// for those of the others.
#[derive(Drop)]
pub struct CommonClock<R: Wait, C: Clock> {
    rt: R,
    clock: Arc<Mutex<C>, Global>,
}

impl<R: Wait, C: Clock> CommonClock<R, C> {
    /// The clock of a connection over the one that all have in common.
    pub fn new(rt: R, clock: Arc<Mutex<C>, Global>) -> CommonClock<R, C>
        ensures clock { result.clock ≡ clock }
    {
        CommonClock { rt, clock }
    }
}

impl<R: Wait + Drop, C: Clock> Clock for CommonClock<R, C> {
    ghost coming = { λ _. None };

    ghost faults = { λ _. 0 };

    ghost is_steady = { λ _. false };

    ghost steady_below = { Prim.search rules };

    /// The moment that the clock in common returns. Which of its moments that is isn't known, since other
    /// connections ask it, too.
    fn now(&mut self) -> u64
        // What the trait says.
        ensures first { GivesFirst None result None }
        ensures later { 0 ≤ 0 }
        ensures steady { KeepsSteady false false 0 0 }

        // The clock in common was asked, and stays the one that it is.
        ensures asked { IsMoment C.coming result }
        ensures clock { self.new.clock ≡ self.old.clock }
    {
        self.clock.lock(&self.rt).now()
    }
}
