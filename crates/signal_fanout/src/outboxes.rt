// The outboxes of all connections. Finding one takes steps by the logarithm of how many there are.
ghost use Rattle.std.specs.Prelude.{◌≡◌, ◌↔◌, ◌+◌, List, [], ◌∷◌, ◌++◌, length, None, IfOk, IfSome, OnOk, OnErr};
ghost use Rattle.secret_calls.specs.declared.out.Out.{Out};
ghost use Rattle.secret_calls.specs.declared.out.Out.TheVariants as kinds;
ghost use Rattle.signal_fanout.specs.declared.rows.Delivery.{Delivery};
ghost use Rattle.signal_fanout.specs.Outboxes.{AreBelow, AreDistinct, HasRoom, HasRoomFor, KeepRooms, changed, desk_of, emptied, for_each, handed, has, is_overrun, left, new_row, waiting_for, with_out, without};

use crate::outbox::Outbox;
use crate::{ConnRow, Delivery, DeskRow, boxes};
use kr_base::{ConnId, OutOfMemory};
use secret_calls::{Out, SharedSignal};
use std::alloc::Global;
use std::collections::BTreeMap;
use std::marker::Model;

/// What waits for each connection. A contract sees the connections' rows by rising number, and for how
/// many more outputs of each there is room.
#[derive(Drop)]
pub struct Outboxes {
    alloc: Global,
    boxes: BTreeMap<u64, Outbox>,
}

impl Model for Outboxes {
    ghost use Rattle.signal_fanout.specs.Outboxes.{Waiting};

    ghost Value = { Waiting };

    ghost use Rattle.signal_fanout.specs.Boxes.{waiting_in, AreKept};

    ghost view = { λ o. waiting_in o.boxes.entries };

    ghost invariant = { λ o. AreKept o.boxes.entries };
}

impl Outboxes {
    /// No connection is there. It takes no memory.
    pub fn new(alloc: Global) -> Outboxes
        ensures { result ≡ record { rows = []; rooms = [] } }
    {
        Outboxes {
            alloc,
            boxes: BTreeMap::new(alloc),
        }
    }

    /// How many connections are there.
    pub fn len(&self) -> usize
        ensures { result ≡ length self.now.rows }
    {
        self.boxes.len()
    }

    /// Adds a connection for which nothing waits.
    pub fn add(&mut self, conn: ConnId) -> Result<(), OutOfMemory>
        requires above { AreBelow conn.0 self.old.rows }
        ensures added { OnOk result (self.new.rows ≡ self.old.rows ++ new_row conn ∷ []) }
        ensures unchanged { OnErr result (self.new.rows ≡ self.old.rows) }
    {
        boxes::add(&mut self.boxes, conn.0, Outbox::new(self.alloc))
    }

    /// Removes the connection, with all that waits for it. It takes no memory.
    pub fn gone(&mut self, conn: ConnId)
        ensures rows { self.new.rows ≡ without conn self.old.rows }
    {
        boxes::remove(&mut self.boxes, conn.0);
    }

    /// Shows that no two connections have one number.
    pub fn are_distinct(&self)
        ensures { AreDistinct self.now.rows }
    {
        boxes::are_distinct(&self.boxes);
    }

    /// Whether the connection is there.
    pub fn has(&self, conn: ConnId) -> bool
        ensures { result ≡ has conn self.now.rows }
    {
        boxes::has(&self.boxes, conn.0)
    }

    /// The connection's status, or None if it isn't there.
    pub fn desk(&self, conn: ConnId) -> Option<DeskRow>
        ensures { result ≡ desk_of conn self.now.rows }
    {
        boxes::told(&self.boxes, conn.0)
    }

    /// Whether an output of the connection was lost because too much was waiting.
    pub fn overrun(&self, conn: ConnId) -> bool
        ensures { result ≡ is_overrun conn self.now.rows }
    {
        match self.desk(conn) {
            Some(told) => told.overrun,
            None => false,
        }
    }

    /// Makes room for this many more outputs of the connection.
    pub fn reserve(&mut self, conn: ConnId, more: usize) -> Result<(), OutOfMemory>
        ensures room { OnOk result (HasRoom more conn self.new.rooms) }
        ensures kept { KeepRooms self.old.rooms self.new.rooms }
        ensures unchanged { self.new.rows ≡ self.old.rows }
    {
        boxes::reserve(&mut self.boxes, conn.0, more)
    }

    /// Makes room for one more output of the caller, and for all of these deliveries: of each
    /// connection for as many as go to it. No connection has less room than before.
    pub fn reserve_for(&mut self, caller: ConnId, outs: &[Delivery]) -> Result<(), OutOfMemory>
        ensures room { OnOk result ((reply : Out)
            → HasRoomFor (record { to = caller; out = reply } ∷ outs.now) self.new.rooms) }
        ensures kept { KeepRooms self.old.rooms self.new.rooms }
        ensures unchanged { self.new.rows ≡ self.old.rows }
    {
        boxes::reserve_for(&mut self.boxes, caller.0, outs)
    }

    /// Appends a delivery of the signal to each connection that is there, in the order of their
    /// numbers. All of them have the same signal: none of its texts is copied.
    pub fn to_everyone(
        &self,
        signal: &SharedSignal,
        deliveries: &mut Vec<Delivery>,
    ) -> Result<(), OutOfMemory>
        ensures { OnOk result (deliveries.new.items ≡ deliveries.old.items
            ++ for_each (kinds.Signal signal.now) self.now.rows) }
    {
        boxes::spread(&self.boxes, signal, deliveries)
    }

    /// Appends an output to those that wait for the connection. It takes no memory. If more than
    /// 8,912,896 bytes would wait, the output is dropped, and so are all after it.
    pub fn push(&mut self, conn: ConnId, out: Out)
        requires { HasRoom 1 conn self.old.rooms }
        ensures rows { self.new.rows ≡ changed conn (with_out out) self.old.rows }
        ensures room { (outs : List Delivery)
            → HasRoomFor (record { to = conn; out = out } ∷ outs) self.old.rooms
            → HasRoomFor outs self.new.rooms }
    {
        boxes::put(&mut self.boxes, conn.0, out);
    }

    /// Makes each of these deliveries, in order. It takes no memory.
    pub fn deliver(&mut self, outs: Vec<Delivery>)
        requires { HasRoomFor outs.items self.old.rooms }
        ensures rows { self.new.rows ≡ handed outs.items self.old.rows }
    {
        for sent in outs {
            self.push(sent.to, sent.out);
        }
    }

    /// Marks that the connection asks no more. It takes no memory.
    pub fn leave(&mut self, conn: ConnId)
        ensures rows { self.new.rows ≡ changed conn left self.old.rows }
    {
        boxes::leave(&mut self.boxes, conn.0);
    }

    /// Takes what waits for the connection, or returns None if nothing waits. It takes no memory.
    pub fn take(&mut self, conn: ConnId) -> Option<Vec<Out>>
        ensures outs { IfSome result (λ outs. outs.items ≡ waiting_for conn self.old.rows) }
        ensures nothing { (result ≡ None) ↔ (waiting_for conn self.old.rows ≡ []) }
        ensures rows { self.new.rows ≡ changed conn emptied self.old.rows }
    {
        boxes::take(self.alloc, &mut self.boxes, conn.0)
    }

    /// The connections as plain rows. One pass over them.
    pub fn rows(&self) -> Result<Vec<ConnRow>, OutOfMemory>
        ensures { IfOk result (λ rows. rows.items ≡ self.now.rows) }
    {
        boxes::rows(self.alloc, &self.boxes)
    }
}
