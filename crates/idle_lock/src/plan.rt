ghost use Rattle.std.specs.Prelude.{◌≡◌, ℕ, ◌∷◌, ◌++◌, [], List, IfOk, OnOk, length};
ghost use Rattle.idle_lock.specs.Deadline.{due, due_one, is_open};
ghost use Rattle.idle_lock.specs.History.{History, IsAfter, times_in, times_of};
ghost use Rattle.idle_lock.specs.declared.history.Told.TheVariants.{Opened, Changed, Closed};

use crate::deadline::{Timer, is_due};
use crate::history::{Times, Told, times_after};
use kr_base::{OutOfMemory, Stem};
use std::alloc::Global;
use std::marker::Model;

/// The timers of collections, and since when each collection is open. It knows only what is reported to it; a
/// stem without a timer is never open in it. A contract sees the timers and the times, which follow from
/// the history of what was reported to the plan (`IsAfter`).
#[derive(Drop)]
pub struct Plan {
    timers: Vec<Timer>,
    times: Vec<Option<Times>>,
}

impl Model for Plan {
    ghost use Rattle.std.specs.Prelude.{◌≡◌, length};
    ghost use Rattle.idle_lock.specs.History.{Kept};

    ghost Value = { Kept };

    ghost view = { λ p. record { timers = p.timers.items; times = p.times.items } };

    ghost invariant = { λ p. length p.times.items ≡ length p.timers.items };
}

/// The times of a timer's collection after one more report about a stem.
fn times_told(timer: &Timer, times: &Option<Times>, stem: &Stem, told: Told) -> Option<Times>
    ensures { (history : History) → times.now ≡ times_in history timer.now.stem
        → result ≡ times_in (history ++ (stem.now, told) ∷ []) timer.now.stem }
{
    if timer.stem == *stem {
        times_after(*times, told)
    } else {
        *times
    }
}

/// The times of all timers' collections after one more report about a stem.
fn tell_all(timers: &[Timer], times: &mut [Option<Times>], stem: &Stem, told: Told)
    requires { length times.old ≡ length timers.now }
    ensures { (history : History)
        → times.old ≡ times_of history timers.now
        → times.new ≡ times_of (history ++ (stem.now, told) ∷ []) timers.now }
{
    for place in 0..timers.len() {
        times[place] = times_told(&timers[place], &times[place], stem, told);
    }
}

/// No times, of as many collections as there are timers.
fn no_times(timers: &Vec<Timer>) -> Result<Vec<Option<Times>>, OutOfMemory>
    ensures { IfOk result (λ times. times.items ≡ times_of [] timers.now.items) }
{
    timers.iter().map(|_| None).collect(*timers.allocator())
}

/// Whether the stem has a timer, and its collection is open.
fn is_open_in(timers: &[Timer], times: &[Option<Times>], stem: &Stem) -> bool
    requires { length times.now ≡ length timers.now }
    ensures { (history : History)
        → times.now ≡ times_of history timers.now
        → result ≡ is_open history stem.now timers.now }
{
    match (timers.split_first(), times.split_first()) {
        (Some((timer, timers)), Some((first, times))) => {
            if timer.stem == *stem {
                first.is_some()
            } else {
                is_open_in(timers, times, stem)
            }
        }
        _ => false,
    }
}

/// Appends a copy of the timer's stem if its collection, with these times, is due by now.
fn add_if_due(
    found: &mut Vec<Stem>,
    timer: &Timer,
    times: &Option<Times>,
    now: u64,
) -> Result<(), OutOfMemory>
    ensures { OnOk result (found.new.items
        ≡ found.old.items ++ due_one now timer.now times.now) }
{
    if is_due(timer, *times, now) {
        let stem = timer.stem.copy()?;
        found.push(stem)?;
    }
    Ok(())
}

/// Copies of the stems that are due by now, in the order of the timers.
fn due_stems(
    alloc: Global,
    timers: &[Timer],
    times: &[Option<Times>],
    now: u64,
) -> Result<Vec<Stem>, OutOfMemory>
    requires { length times.now ≡ length timers.now }
    ensures { (history : History)
        → times.now ≡ times_of history timers.now
        → IfOk result (λ found. found.items ≡ due history now timers.now) }
{
    let mut found = Vec::new(alloc);
    for place in 0..timers.len() {
        add_if_due(&mut found, &timers[place], &times[place], now)?;
    }
    Ok(found)
}

impl Plan {
    /// A plan with these timers, in their order, and no collection open.
    pub fn new(timers: Vec<Timer>) -> Result<Plan, OutOfMemory>
        ensures timers { IfOk result (λ plan. plan.timers ≡ timers.items) }
        ensures fresh { IfOk result (λ plan. IsAfter [] plan) }
    {
        let times = no_times(&timers)?;
        Ok(Plan { timers, times })
    }

    /// The collection was unlocked at this moment, in seconds since 1970. If it is open already, nothing
    /// changes: reading that a collection is unlocked is no change of it.
    pub fn opened(&mut self, stem: &Stem, now: u64)
        ensures timers { self.new.timers ≡ self.old.timers }
        ensures told { (history : History) → IsAfter history self.old
            → IsAfter (history ++ (stem.now, Opened now) ∷ []) self.new }
    {
        tell_all(
            self.timers.as_slice(),
            self.times.as_mut_slice(),
            stem,
            Told::Opened(now),
        );
    }

    /// The collection or one of its items was changed at this moment, in seconds since 1970. Nothing
    /// changes if it isn't open.
    pub fn changed(&mut self, stem: &Stem, now: u64)
        ensures timers { self.new.timers ≡ self.old.timers }
        ensures told { (history : History) → IsAfter history self.old
            → IsAfter (history ++ (stem.now, Changed now) ∷ []) self.new }
    {
        tell_all(
            self.timers.as_slice(),
            self.times.as_mut_slice(),
            stem,
            Told::Changed(now),
        );
    }

    /// The collection was locked, or is gone.
    pub fn closed(&mut self, stem: &Stem)
        ensures timers { self.new.timers ≡ self.old.timers }
        ensures told { (history : History) → IsAfter history self.old
            → IsAfter (history ++ (stem.now, Closed) ∷ []) self.new }
    {
        tell_all(
            self.timers.as_slice(),
            self.times.as_mut_slice(),
            stem,
            Told::Closed,
        );
    }

    /// The timers, in the order in which they were given.
    pub fn timers(&self) -> &[Timer]
        ensures { result.now ≡ self.now.timers }
    {
        self.timers.as_slice()
    }

    /// Whether the stem has a timer, and its collection is open: it was unlocked after it was last closed.
    pub fn is_open(&self, stem: &Stem) -> bool
        ensures { (history : History) → IsAfter history self.now
            → result ≡ is_open history stem.now self.now.timers }
    {
        is_open_in(self.timers.as_slice(), self.times.as_slice(), stem)
    }

    /// The stems that are due at this moment, in seconds since 1970: exactly those that are open with a
    /// deadline of at most `now`, in the order of the timers.
    pub fn due(&self, now: u64) -> Result<Vec<Stem>, OutOfMemory>
        ensures { (history : History) → IsAfter history self.now
            → IfOk result (λ found. found.items ≡ due history now self.now.timers) }
    {
        due_stems(
            *self.timers.allocator(),
            self.timers.as_slice(),
            self.times.as_slice(),
            now,
        )
    }
}
