ghost use Rattle.std.specs.Prelude.{ℕ, List};

/// A value in which the events of a run are recorded, one after another.
pub trait Chronicle: Drop {
    /// What the run began with.
    type Start;

    /// What is recorded.
    type Event;

    /// The start of the history that the value keeps; the events that it still has follow it.
    ghost start: { Self → Self.Start };

    /// How many events the run had before that start.
    ghost before: { Self → ℕ };

    /// The events that it still has, in order.
    ghost events: { Self → List Self.Event };

    /// The value is what results from a run that began with this start, had this many events before
    /// it, and these events since.
    ghost stands: { Self → Self.Start → ℕ → List Self.Event → Type 0 };

    /// The event that was recorded last, alone in a list.
    ghost newest: { Self → List Self.Event };
}
