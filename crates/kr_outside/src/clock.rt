ghost use Rattle.std.specs.Prelude.{ℕ, ◌≤◌, Bool, Option};
ghost use Rattle.kr_outside.specs.Clock.{GivesFirst};
ghost use Rattle.kr_outside.specs.Faults.{KeepsSteady, IsBelowLast};

/// The time of day. It can't be refused: a clock that doesn't know the time returns a moment all
/// the same, and may count that as a fault. Nothing is known of the order of its moments.
pub trait Clock: Drop {
    /// The moments that are still to be returned, the first at 0, if the clock reports them. They
    /// have no end.
    ghost coming: { Self → Option (ℕ → ℕ) };

    /// How often the clock didn't know the time. The count never falls, and stays at 2^64 - 1.
    ghost faults: { Self → ℕ };

    /// Whether the clock always knows the time, so that its count never rises.
    ghost is_steady: { Self → Bool };

    /// The moment, in seconds since 1970-01-01 00:00:00 UTC.
    fn now(&mut self) -> u64
        ensures first { GivesFirst (coming self.old) result (coming self.new) }
        ensures later { faults self.old ≤ faults self.new }
        ensures steady { KeepsSteady (is_steady self.old) (is_steady self.new)
            (faults self.old) (faults self.new) };

    /// The count of a steady clock isn't at its maximum: as it never rises, no call fails.
    ghost steady_below: { (clock : Self) → IsBelowLast (is_steady clock) (faults clock) };
}
