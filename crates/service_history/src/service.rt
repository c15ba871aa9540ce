ghost use Rattle.std.specs.Prelude.{◌≡◌, ◌≢◌, ◌<◌, ◌≤◌, ◌&&◌, [], false, IsTrue, IfOk, IfSome, OnOk, OnErr, IsErrOf, Err, None};
ghost use Rattle.std.specs.List.{AllByRecursion};
ghost use Rattle.service_machine.specs.service_tables.specs.Aliases.{rows_in};
ghost use Rattle.replace_slot.specs.Cell.{Known};
ghost use Rattle.service_machine.specs.service_tables.specs.Slots.{LeavesKnown, file_at, slot_at};
ghost use Rattle.service_machine.specs.folder_store.specs.Ring.{IsAsFound};
ghost use Rattle.service_machine.specs.collection_table.specs.Entries.{rows_of as collections_of};
ghost use Rattle.service_machine.specs.service_tables.specs.Disk.{IsLoaded, FailedToLoad, disk_state};
ghost use Rattle.service_machine.specs.service_tables.specs.Opened.{IsOpened, contents_of};
ghost use Rattle.service_machine.specs.service_tables.specs.Sound.{AreSoundContents};
ghost use Rattle.service_machine.specs.service_tables.specs.Limits.{IsSpent, most_events};
ghost use Rattle.service_machine.specs.service_events.specs.Fates.{is_steady};
ghost use Rattle.service_machine.specs.Rows.{no_contents, rows_of};
ghost use Rattle.service_machine.specs.service_events.specs.Stored.{KeepsDisk, KeepsMaking};
ghost use Rattle.service_history.specs.Inside.{IsReady};
ghost use Rattle.service_machine.specs.service_events.specs.Incoming.{IsOfNone, IsConnect};
ghost use Rattle.service_machine.specs.service_events.specs.Step.{CanJoin, IsMissing, IsCrowded};
ghost use Rattle.service_history.specs.Windows.{total};
ghost use Rattle.service_history.specs.History.{opened_history, IsHistory, Stores, StoresKey, StoresOn, StoresRequest, RecordsOn, IsAsked, given_for, taken_by, left_by, gone_by, told};

use crate::EventRefused;
use crate::window::Window;
use kr_base::{ConnId, OutOfMemory, Stem};
use kr_outside::Folder;
use service_machine::secret_calls::{Refused, Taken, Work};
use service_machine::{
    Arrival, Arrived, BroughtKey, DeskRow, Disk, Event, Incoming, JoinRefused, Machine,
    OpenRefused, Output,
};
use std::alloc::Global;
use std::marker::Model;

/// Once this many events of a run are recorded, no more are.
const LIMIT: u64 = 18_446_744_073_709_000_000;

/// The service and the window that it is in. A contract sees its history: the state, and of the window
/// its era, its base and the stored events, which led from the base to the state; and beside it the
/// disk: the folder, and what was loaded from it.
#[derive(Drop)]
pub struct Service<F: Folder> {
    machine: Machine<F>,
    window: Window<F>,
}

impl<F: Folder> Model for Service<F> {
    ghost use Rattle.service_history.specs.History.{ServiceState};

    ghost Value = { ServiceState F F.Cell };

    ghost use Rattle.service_machine.specs.Rows.{rows_of};
    ghost use Rattle.service_history.specs.Inside.{service_of, IsKept};

    ghost view = { λ s. service_of s.machine s.window };

    ghost use Rattle.service_machine.specs.service_disk.specs.Making.{AreFree};
    ghost use Rattle.service_machine.specs.Rows.{disk_of};

    ghost invariant = { λ s. IsKept (rows_of s.machine) s.window
        × AreFree F.is_honest F.images F.may_leave F.made F.Cell.is_honest F.Cell.may_leave
        (disk_of s.machine) };
}

impl<F: Folder> Service<F> {
    /// The service as it starts, over a folder of which no slot was made yet: the folder is loaded,
    /// nothing else is there, and nothing has happened.
    ///
    /// Refused with `Folder` if the folder or one of its slots failed, and with `OutOfMemory`; the
    /// folder is dropped then.
    pub fn open(alloc: Global, folder: F) -> Result<Service<F>, OpenRefused>
        requires fresh { F.made folder ≡ [] }
        ensures opened { IfOk result (λ service. IsOpened service.history.state) }
        ensures sound { IfOk result (λ service.
            AreSoundContents (contents_of service.history.state)) }
        ensures begins { IfOk result (λ service.
            service.history ≡ opened_history service.history.state) }
        ensures loaded { IfOk result (λ service. IsLoaded (IsAsFound F.Cell.seen F.Cell.temporary
            F.Cell.may_leave F.Cell.left_since F.Cell.is_honest F.Cell.is_steady
            (F.is_honest folder) (F.is_steady folder))
            F.is_honest F.is_steady F.faults F.images F.may_leave F.made
            folder service.disk service.history.state) }
        ensures steady { IfOk result (λ service.
            is_steady F.is_steady F.Cell.is_steady service.disk ≡ F.is_steady folder) }

        // The folder is at fault only if it failed, and never if it is steady.
        ensures cause { IsErrOf result OpenRefused.Folder → FailedToLoad (IsAsFound F.Cell.seen
            F.Cell.temporary F.Cell.may_leave F.Cell.left_since F.Cell.is_honest F.Cell.is_steady
            (F.is_honest folder) (F.is_steady folder))
            F.is_honest F.is_steady F.faults F.images F.made F.Cell.faults F.Cell.failed folder }
        ensures never { IsTrue (F.is_steady folder) → ¬ (IsErrOf result OpenRefused.Folder) }
    {
        let machine = Machine::open(alloc, folder)?;
        let window = Window::first(alloc, &machine);
        Ok(Service { machine, window })
    }

    /// The service as it starts with nothing, over a folder of which no slot was made yet, and which isn't
    /// read (`Machine::with_nothing`): there is no collection, no used stem and no alias, and nothing has
    /// happened.
    pub fn with_nothing(
        alloc: Global,
        folder: F,
        aliases: F::Cell,
    ) -> Result<Service<F>, OutOfMemory>
        requires fresh { F.made folder ≡ [] }
        requires silent { F.is_honest folder ≡ false }
        ensures opened { IfOk result (λ service. IsOpened service.history.state) }
        ensures sound { IfOk result (λ service.
            AreSoundContents (contents_of service.history.state)) }
        ensures begins { IfOk result (λ service.
            service.history ≡ opened_history service.history.state) }
        ensures nothing { IfOk result (λ service.
            contents_of service.history.state ≡ no_contents) }
        ensures steady { IfOk result (λ service. is_steady F.is_steady F.Cell.is_steady service.disk
            ≡ (F.is_steady folder && F.Cell.is_steady aliases)) }
    {
        let machine = Machine::with_nothing(alloc, folder, aliases)?;
        let window = Window::first(alloc, &machine);
        Ok(Service { machine, window })
    }

    /// The folder, with its collections and aliases. It takes no memory.
    pub fn into_disk(self) -> Disk<F>
        ensures disk { disk_state result ≡ self.disk }
        ensures collections { collections_of result.collections.entries
            ≡ self.history.state.collections }
        ensures aliases { rows_in result.aliases ≡ self.history.state.aliases }
    {
        self.machine.into_disk()
    }

    /// Records that a connection joins, and gives it the next number. If a cut is due, it is made
    /// first: the state becomes the base, and the stored events are dropped.
    ///
    /// Refused with `EventsSpent` if all events that can be counted are recorded, then with
    /// `TooManyConnections` if 256 connections are there or no number is left, then with `OutOfMemory`.
    pub fn join(&mut self) -> Result<ConnId, JoinRefused>
        ensures stores { IfOk result (λ conn.
            Stores self.old.history (Event.Connect conn) self.new.history) }
        ensures history { IsHistory self.new.history }
        ensures disk { self.new.disk ≡ self.old.disk }

        // Each refusal has its cause, and the first in order is returned; nothing has changed then.
        ensures spent { IsErrOf result JoinRefused.EventsSpent
            → IsSpent (total self.old.history.window) }
        ensures not_spent { result ≢ Err JoinRefused.EventsSpent
            → ¬ IsSpent (total self.old.history.window) }
        ensures crowded { IsErrOf result JoinRefused.TooManyConnections
            → IsCrowded self.old.history.state }
        ensures memory { IsErrOf result JoinRefused.OutOfMemory
            → CanJoin self.old.history.state }
        ensures unchanged { OnErr result (self.new.history ≡ self.old.history) }
    {
        if self.window.total() >= LIMIT {
            return Err(JoinRefused::EventsSpent);
        }
        if self.machine.is_crowded() {
            return Err(JoinRefused::TooManyConnections);
        }
        let next = self.window.prepare(&self.machine)?;
        let conn = self.machine.join()?;
        self.window.commit(next, Event::Connect(conn));
        Ok(conn)
    }

    /// Records that a connection asks for something, and how each file that it stored or removed ended. A
    /// cut that is due is made first, as in `join`. Returns the key that is to be derived, if the request is
    /// an answer that was taken.
    ///
    /// Refused with `EventsSpent` if all events that can be counted are recorded, then with `Gone` if
    /// the connection isn't there, then with `OutOfMemory`.
    pub fn arrive(&mut self, arrival: Arrival) -> Result<Option<Work>, Refused>
        ensures stores { IfOk result (λ work. StoresRequest
            (is_steady F.is_steady F.Cell.is_steady self.old.disk)
            (StoresOn F.is_honest F.is_steady F.faults F.images
            F.may_leave F.made F.Cell.is_honest F.Cell.is_steady
            F.Cell.faults F.Cell.moment
            F.Cell.left_since F.Cell.may_leave self.old self.new)
            self.old.history arrival work self.new.history) }
        ensures history { IsHistory self.new.history }
        ensures steady { is_steady F.is_steady F.Cell.is_steady self.new.disk
            ≡ is_steady F.is_steady F.Cell.is_steady self.old.disk }

        // Each refusal has its cause, and the first in order is returned; nothing has changed then.
        ensures spent { IsErrOf result Refused.EventsSpent
            → IsSpent (total self.old.history.window) }
        ensures not_spent { result ≢ Err Refused.EventsSpent
            → ¬ IsSpent (total self.old.history.window) }
        ensures gone { IsErrOf result Refused.Gone → IsMissing arrival.conn self.old.history.state }
        ensures memory { IsErrOf result Refused.OutOfMemory
            → ¬ (IsMissing arrival.conn self.old.history.state) }
        ensures unchanged { OnErr result (self.new.history ≡ self.old.history) }
        ensures disk { OnErr result (self.new.disk ≡ self.old.disk) }
    {
        let next = admitted(&self.machine, &mut self.window, arrival.conn)?;
        let Ok(answer) = self.machine.apply(Incoming::Arrive(arrival)) else {
            return Err(Refused::OutOfMemory);
        };
        let (output, event) = answer;
        let Output::Arrived(arrived) = output else {
            unreachable!();
        };
        self.window.commit(next, event);
        Ok(arrived.work)
    }

    /// Records a key that was derived for a prompt, and what became of the files that it was for. A cut that
    /// is due is made first, as in `join`.
    ///
    /// Refused with `EventsSpent` if all events that can be counted are recorded, then with `Gone` if the
    /// connection isn't there, then with `OutOfMemory`.
    pub fn derived(&mut self, brought: BroughtKey) -> Result<(), Refused>
        ensures stores { OnOk result (StoresKey
            (is_steady F.is_steady F.Cell.is_steady self.old.disk)
            (StoresOn F.is_honest F.is_steady F.faults F.images
            F.may_leave F.made F.Cell.is_honest F.Cell.is_steady F.Cell.faults F.Cell.moment
            F.Cell.left_since F.Cell.may_leave self.old self.new)
            self.old.history brought self.new.history) }
        ensures history { IsHistory self.new.history }
        ensures steady { is_steady F.is_steady F.Cell.is_steady self.new.disk
            ≡ is_steady F.is_steady F.Cell.is_steady self.old.disk }

        // Each refusal has its cause, and the first in order is returned; nothing has changed then, but a slot
        // that was made for a collection by the time that memory ran out is kept.
        ensures spent { IsErrOf result Refused.EventsSpent
            → IsSpent (total self.old.history.window) }
        ensures not_spent { result ≢ Err Refused.EventsSpent
            → ¬ IsSpent (total self.old.history.window) }
        ensures gone { IsErrOf result Refused.Gone → IsMissing brought.conn self.old.history.state }
        ensures memory { IsErrOf result Refused.OutOfMemory
            → ¬ (IsMissing brought.conn self.old.history.state) }
        ensures unchanged { OnErr result (self.new.history ≡ self.old.history) }
        ensures kept { OnErr result (KeepsMaking F.is_honest F.is_steady F.faults F.images
            F.may_leave F.made F.Cell.is_honest F.Cell.is_steady F.Cell.faults
            F.Cell.left_since brought self.old.history.state self.old.disk self.new.disk) }
        ensures idle { result ≢ Err Refused.OutOfMemory
            → OnErr result (self.new.disk ≡ self.old.disk) }
    {
        let next = admitted(&self.machine, &mut self.window, brought.conn)?;
        let Ok(answer) = self.machine.apply(Incoming::Derived(brought)) else {
            return Err(Refused::OutOfMemory);
        };
        let (_, event) = answer;
        self.window.commit(next, event);
        Ok(())
    }

    /// Records an event, a connection that joins, asks or brings a derived key, and returns its answer:
    /// `join`, `arrive` and `derived` for a caller that has the event as a value.
    ///
    /// Refused with `EventsSpent` if all events that can be counted are recorded, then with
    /// `NoConnection` if the connection isn't there, and `TooManyConnections` if 256 are there or no
    /// number is left, then with `OutOfMemory`.
    pub fn event(&mut self, event: Incoming) -> Result<Output, EventRefused>
        requires { IsAsked event }

        ensures recorded { IfOk result (λ answer.
            RecordsOn (is_steady F.is_steady F.Cell.is_steady self.old.disk)
            (StoresOn F.is_honest F.is_steady F.faults F.images
            F.may_leave F.made F.Cell.is_honest F.Cell.is_steady
            F.Cell.faults F.Cell.moment
            F.Cell.left_since F.Cell.may_leave self.old self.new)
            self.old.history event answer self.new.history) }
        ensures history { IsHistory self.new.history }
        ensures steady { is_steady F.is_steady F.Cell.is_steady self.new.disk
            ≡ is_steady F.is_steady F.Cell.is_steady self.old.disk }

        // Each refusal has its cause, and the first in order is returned; nothing has changed then, but a slot
        // may be kept as by `derived`.
        ensures spent { IsErrOf result EventRefused.EventsSpent
            → IsSpent (total self.old.history.window) }
        ensures not_spent { result ≢ Err EventRefused.EventsSpent
            → ¬ IsSpent (total self.old.history.window) }
        ensures no_connection { IsErrOf result EventRefused.NoConnection
            → IsOfNone self.old.history.state event }
        ensures connects { IsErrOf result EventRefused.TooManyConnections → IsConnect event }
        ensures crowded { IsErrOf result EventRefused.TooManyConnections
            → IsCrowded self.old.history.state }
        ensures memory { IsErrOf result EventRefused.OutOfMemory
            → ¬ (IsOfNone self.old.history.state event) }
        ensures room { IsErrOf result EventRefused.OutOfMemory → IsConnect event
            → CanJoin self.old.history.state }
        ensures unchanged { OnErr result (self.new.history ≡ self.old.history) }
        ensures kept { OnErr result (KeepsDisk F.is_honest F.is_steady F.faults F.images
            F.may_leave F.made F.Cell.is_honest F.Cell.is_steady F.Cell.faults
            F.Cell.left_since event self.old.history.state self.old.disk self.new.disk) }
        ensures idle { result ≢ Err EventRefused.OutOfMemory
            → OnErr result (self.new.disk ≡ self.old.disk) }
    {
        match event {
            Incoming::Connect => Ok(Output::Joined(self.join()?)),
            Incoming::Arrive(arrival) => {
                let work = self.arrive(arrival)?;
                Ok(Output::Arrived(Arrived { work }))
            }
            Incoming::Derived(brought) => {
                self.derived(brought)?;
                Ok(Output::Derived)
            }
            _ => unreachable!(),
        }
    }

    /// Returns what waits for the connection, and records that it took it. If nothing waits: `Overrun`
    /// if an output was lost; otherwise `Closed` if the connection is leaving, which is gone then;
    /// otherwise `Empty`. `Missing` if the connection isn't there. It takes no memory.
    pub fn take(&mut self, conn: ConnId) -> Taken
        ensures given { result
            ≡ given_for conn self.old.history.state (told conn self.old.history) }
        ensures recorded { self.new.history
            ≡ taken_by conn (told conn self.old.history) self.old.history }
        ensures history { IsHistory self.new.history }
        ensures disk { self.new.disk ≡ self.old.disk }
    {
        let Some(desk) = self.machine.desk(conn) else {
            return Taken::Missing;
        };
        if desk.waits {
            let outs = self.machine.take(conn);
            self.window.push(Event::Take(conn));
            return Taken::Outs(outs);
        }
        if desk.overrun {
            return Taken::Overrun;
        }
        if !desk.leaving {
            return Taken::Empty;
        }
        self.machine.gone(conn);
        self.window.push(Event::Gone(conn));
        Taken::Closed
    }

    /// The status of a connection, by which `take` decides what it returns; None if it isn't there.
    pub fn desk(&self, conn: ConnId) -> Option<DeskRow>
        ensures { result ≡ told conn self.now.history }
    {
        self.machine.desk(conn)
    }

    /// Records that the connection makes no more requests, if it is there and isn't leaving
    /// already. It takes no memory.
    pub fn leave(&mut self, conn: ConnId)
        ensures recorded { self.new.history
            ≡ left_by conn (told conn self.old.history) self.old.history }
        ensures history { IsHistory self.new.history }
        ensures disk { self.new.disk ≡ self.old.disk }
    {
        let Some(desk) = self.machine.desk(conn) else {
            return;
        };
        if desk.leaving {
            return;
        }
        self.machine.leave(conn);
        self.window.push(Event::Leave(conn));
    }

    /// Records that the connection is gone, if it is there. It takes no memory.
    pub fn gone(&mut self, conn: ConnId)
        ensures recorded { self.new.history
            ≡ gone_by conn (told conn self.old.history) self.old.history }
        ensures history { IsHistory self.new.history }
        ensures disk { self.new.disk ≡ self.old.disk }
    {
        let Some(_) = self.machine.desk(conn) else {
            return;
        };
        self.machine.gone(conn);
        self.window.push(Event::Gone(conn));
    }

    /// While no call runs, a crash leaves of a collection's file what is known of it: its image, or one of
    /// the two that it may have if it is in doubt. It leaves no file of a stem without a collection whose
    /// slot is kept. It does nothing.
    pub fn untouched(&self, stem: &Stem)
        ensures { IfSome (slot_at stem.now self.now.disk) (LeavesKnown
            F.Cell.is_honest F.Cell.moment F.Cell.left_since
            (file_at stem.now self.now.history.state.collections)) }
    {
        self.machine.untouched(stem);
    }

    /// The same for the file of the aliases, unless it was left alone. It does nothing.
    pub fn untouched_aliases(&self)
        ensures { IfSome self.now.history.state.aliases (λ rows. LeavesKnown
            F.Cell.is_honest F.Cell.moment F.Cell.left_since rows.file self.now.disk.aliases) }
    {
        self.machine.untouched_aliases();
    }

    /// While no call runs, a crash leaves no file of a slot that is kept without a collection: one that was
    /// removed doesn't come back. It does nothing.
    pub fn untouched_kept(&self)
        ensures { AllByRecursion (λ kept. LeavesKnown F.Cell.is_honest F.Cell.moment
            F.Cell.left_since (Known None) kept.1) self.now.disk.spare }
    {
        self.machine.untouched_kept();
    }

    /// The events since the last cut, in order.
    pub fn events(&self) -> &[Event]
        ensures value { result.now ≡ self.now.history.window.events }
        ensures history { IsHistory self.now.history }
    {
        self.window.events()
    }

    /// How many events the run had before the stored ones.
    pub fn era(&self) -> u64
        ensures value { result ≡ self.now.history.window.era }
        ensures history { IsHistory self.now.history }
    {
        self.window.era()
    }
}

// Makes room for an event of an existing connection, in the next window if a cut is due.
fn admitted<F: Folder>(
    machine: &Machine<F>,
    window: &mut Window<F>,
    conn: ConnId,
) -> Result<Option<Window<F>>, Refused>
    ensures ready { IfOk result (λ next.
        IsReady window.old.window (rows_of machine.now) window.new.spare next) }
    ensures left { OnOk result (total window.old.window < most_events) }
    ensures same { window.new.window ≡ window.old.window }
    ensures spare { window.old.spare ≤ window.new.spare }
    ensures spent { IsErrOf result Refused.EventsSpent → IsSpent (total window.old.window) }
    ensures not_spent { result ≢ Err Refused.EventsSpent → ¬ IsSpent (total window.old.window) }
    ensures gone { IsErrOf result Refused.Gone → IsMissing conn (rows_of machine.now) }
    ensures there { OnOk result (¬ (IsMissing conn (rows_of machine.now))) }
    ensures memory { IsErrOf result Refused.OutOfMemory
        → ¬ (IsMissing conn (rows_of machine.now)) }
{
    if window.total() >= LIMIT {
        return Err(Refused::EventsSpent);
    }
    if !machine.has(conn) {
        return Err(Refused::Gone);
    }
    let Ok(next) = window.prepare(machine) else {
        return Err(Refused::OutOfMemory);
    };
    Ok(next)
}
