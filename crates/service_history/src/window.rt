ghost use Rattle.std.specs.Prelude.{◌≡◌, ◌+◌, ◌<◌, ◌≤◌, IfOk, OnOk};
ghost use Rattle.service_machine.specs.Rows.{rows_of};
ghost use Rattle.service_machine.specs.service_events.specs.Replay.{cost_of};
ghost use Rattle.service_history.specs.Limits.{most_counted};
ghost use Rattle.service_history.specs.Room.{enough};
ghost use Rattle.service_history.specs.Windows.{begun, total, is_due, may_hide, stored};
ghost use Rattle.service_history.specs.Inside.{IsNext, IsReady, chosen};

use kr_base::OutOfMemory;
use kr_outside::Folder;
use service_machine::secret_calls::Call;
use service_machine::{Event, Machine};
use std::alloc::Global;
use std::marker::Model;
use std::snapshot::Snapshot;

/// With this many stored events a cut is due.
const MOST_EVENTS: usize = 65_536;

/// With stored events of this cost a cut is due.
const MOST_COST: u64 = 268_435_456;

/// What a stored event costs besides the bytes of its request, or of its password.
const EVENT_COST: u64 = 64;

/// Room for an event and for all that 256 connections may bring without memory: three for each.
const ROOM: usize = 769;

/// A window of a run. A contract sees its era, which is the number of all events before it, its base,
/// which is the state that these led to, the events since then, and for how many more there is room.
/// The base exists for contracts alone: it takes no memory.
#[derive(Drop)]
pub struct Window<F: Folder> {
    alloc: Global,
    era: u64,
    base: Snapshot<Machine<F>>,
    events: Vec<Event>,
    cost: u64,
    locks: bool,
}

impl<F: Folder> Model for Window<F> {
    ghost use Rattle.service_history.specs.Inside.{Held};

    ghost Value = { Held };

    ghost use Rattle.service_machine.specs.Rows.{rows_of};
    ghost use Rattle.service_history.specs.Inside.{held_of, AreStored};

    ghost view = { λ w. held_of w.era (rows_of w.base.value) w.events };

    ghost invariant = { λ w. AreStored w.era w.events.items w.cost w.locks };
}

// What a stored event costs.
fn cost_of(event: &Event) -> u64
    ensures { result ≡ cost_of event.now }
{
    match event {
        Event::Arrive(came) => EVENT_COST + came.get().arrival.request.length as u64,
        Event::Derived(came) => EVENT_COST + came.get().password.as_slice().len() as u64,
        _ => EVENT_COST,
    }
}

// Whether a stored event is a call of Lock, stored or removed a file, or has a password.
fn may_hide(event: &Event) -> bool
    ensures { result ≡ may_hide event.now }
{
    match event {
        Event::Arrive(came) => {
            let came = came.get();
            let hides = match &came.arrival.request.call {
                Ok(Call::Lock { .. }) => true,
                Ok(Call::Answer { .. }) => true,
                _ => false,
            };
            hides || came.fates.len() > 0
        }
        Event::Derived(_) => true,
        _ => false,
    }
}

impl<F: Folder> Window<F> {
    /// The first window, as it begins from this machine. It takes no memory.
    pub fn first(alloc: Global, machine: &Machine<F>) -> Window<F>
        ensures { result.window ≡ begun 0 (rows_of machine.now) }
    {
        Window {
            alloc,
            era: 0,
            base: Snapshot::of(machine),
            events: Vec::new(alloc),
            cost: 0,
            locks: false,
        }
    }

    /// The events, in order.
    pub fn events(&self) -> &[Event]
        ensures { result.now ≡ self.now.window.events }
    {
        self.events.as_slice()
    }

    /// How many events the run had before the window.
    pub fn era(&self) -> u64
        ensures { result ≡ self.now.window.era }
    {
        self.era
    }

    /// How many events the run has had.
    pub fn total(&self) -> u64
        ensures { result ≡ total self.now.window }
    {
        self.era + self.events.len() as u64
    }

    // Whether a cut is due.
    fn is_due(&self) -> bool
        ensures { result ≡ is_due self.now.window }
    {
        self.events.len() >= MOST_EVENTS || self.cost >= MOST_COST || self.locks
    }

    // Makes room for an event, and for all that are sure to come after it.
    fn reserve(&mut self) -> Result<(), OutOfMemory>
        ensures ready { OnOk result (enough ≤ self.new.spare) }
        ensures same { self.new.window ≡ self.old.window }
        ensures spare { self.old.spare ≤ self.new.spare }
    {
        self.events.reserve(ROOM)
    }

    // The window after this one, as it begins from this machine.
    fn next(&self, machine: &Machine<F>) -> Result<Window<F>, OutOfMemory>
        ensures { IfOk result (λ next. IsNext self.now.window (rows_of machine.now) next) }
    {
        Ok(Window {
            alloc: self.alloc,
            era: self.total(),
            base: Snapshot::of(machine),
            events: Vec::with_capacity(self.alloc, ROOM)?,
            cost: 0,
            locks: false,
        })
    }

    /// Prepares for one more event: takes all the memory that it will need, and changes nothing. If a
    /// cut is due, this is the next window, which begins from the machine's rows; otherwise None.
    pub fn prepare(&mut self, machine: &Machine<F>) -> Result<Option<Window<F>>, OutOfMemory>
        ensures ready { IfOk result (λ next.
            IsReady self.old.window (rows_of machine.now) self.new.spare next) }
        ensures same { self.new.window ≡ self.old.window }
        ensures spare { self.old.spare ≤ self.new.spare }
    {
        if self.is_due() {
            let next = self.next(machine)?;
            return Ok(Some(next));
        }
        self.reserve()?;
        Ok(None)
    }

    /// Stores an event. It takes no memory.
    pub fn push(&mut self, event: Event)
        requires room { 0 < self.old.spare }
        requires counted { total self.old.window < most_counted }
        ensures stored { self.new.window ≡ stored event self.old.window }
        ensures spare { self.old.spare ≤ self.new.spare + 1 }
    {
        self.cost = self.cost.saturating_add(cost_of(&event));
        self.locks = self.locks || may_hide(&event);
        self.events.push(event).unwrap();
    }

    /// Stores an event in the window that was prepared for it. It takes no memory.
    pub fn commit(&mut self, next: Option<Window<F>>, event: Event)
        requires room { 0 < (chosen self.old next).spare }
        requires counted { total (chosen self.old next).window < most_counted }
        ensures stored { self.new.window ≡ stored event (chosen self.old next).window }
        ensures spare { (chosen self.old next).spare ≤ self.new.spare + 1 }
    {
        match next {
            Some(next) => {
                *self = next;
                self.push(event);
            }
            None => self.push(event),
        }
    }
}
