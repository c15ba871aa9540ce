ghost use Rattle.std.specs.Prelude.{◌≡◌, ◌<◌, ◌≤◌, Some, true, length, drop, slice_index};
ghost use Rattle.kr_outside.specs.Clock.{GivesFirst};
ghost use Rattle.kr_outside.specs.Faults.{KeepsSteady};
ghost use Rattle.kr_memory.specs.Clock.{moment_at};

use kr_outside::Clock;
use std::marker::Model;

/// A clock that returns listed moments in order, and then keeps returning the last one. It is steady.
#[derive(Drop)]
pub struct ListedClock {
    moments: Vec<u64>,
    given: usize,
}

impl Model for ListedClock {
    ghost use Rattle.std.specs.Prelude.{ℕ, ◌≤◌, List, drop, vec_len};

    ghost Value = { List ℕ };

    ghost view = { λ c. drop c.given c.moments.items };

    ghost invariant = { λ c. c.given ≤ vec_len c.moments };
}

impl ListedClock {
    /// A clock that returns these moments, in seconds since 1970-01-01 00:00:00 UTC. If none is
    /// listed, it always returns 0.
    pub fn new(moments: Vec<u64>) -> ListedClock
        ensures { result ≡ moments.items }
    {
        ListedClock { moments, given: 0 }
    }
}

impl Clock for ListedClock {
    ghost use Rattle.std.proofs.Common.{rules};

    ghost coming = { λ left. Some (moment_at left) };

    ghost faults = { λ _. 0 };

    ghost is_steady = { λ _. true };

    ghost steady_below = { Prim.search rules };

    /// The first of the moments left, which is used up unless it is the last, in seconds since
    /// 1970-01-01 00:00:00 UTC; 0 if none was listed.
    fn now(&mut self) -> u64
        // What the trait says.
        ensures first { GivesFirst (Some (moment_at self.old)) result (Some (moment_at self.new)) }
        ensures later { 0 ≤ 0 }
        ensures steady { KeepsSteady true true 0 0 }

        // Each moment is used up, except the last one.
        ensures moment { result ≡ slice_index self.old 0 }
        ensures used { 1 < length self.old → self.new ≡ drop 1 self.old }
        ensures last { length self.old ≤ 1 → self.new ≡ self.old }
    {
        let left = &self.moments[self.given..];
        let moment = left.first().copied().unwrap_or(0);
        if left.len() > 1 {
            self.given += 1;
        }
        moment
    }
}
