// What is reported to a plan about a collection, and the times that follow from it.
ghost use Rattle.std.specs.Prelude.{◌≡◌, List, ◌∷◌, ◌++◌, []};
ghost use Rattle.idle_lock.specs.History.{from_opening, since_closed, times_from};
ghost use Rattle.idle_lock.specs.declared.history.Told.{Told};

/// What is reported to a plan about a collection. Moments are seconds since 1970. The history of a plan is the list of
/// these reports, each with the stem of its collection, the oldest first.
#[derive(Clone, Copy)]
pub enum Told {
    /// It was unlocked at this moment.
    Opened(u64),
    /// It was changed at this moment.
    Changed(u64),
    /// It was locked, or is gone.
    Closed,
}

/// When an open collection was unlocked, and when it last changed since, in seconds since 1970.
/// Unlocking it counts as a change.
#[derive(Clone, Copy)]
pub struct Times {
    pub unlocked: u64,
    pub changed: u64,
}

/// The times of a collection after one more report about it; None if it isn't open. Unlocking a
/// collection that is open changes nothing.
pub fn times_after(times: Option<Times>, told: Told) -> Option<Times>
    ensures { (tolds : List Told) → times ≡ times_from (from_opening (since_closed tolds))
        → result ≡ times_from (from_opening (since_closed (tolds ++ told ∷ []))) }
{
    match (told, times) {
        (Told::Opened(now), None) => Some(Times {
            unlocked: now,
            changed: now,
        }),
        (Told::Opened(_), Some(times)) => Some(times),
        (Told::Changed(now), Some(times)) => Some(Times {
            unlocked: times.unlocked,
            changed: now,
        }),
        (Told::Changed(_), None) => None,
        (Told::Closed, _) => None,
    }
}
