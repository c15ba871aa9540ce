// The connections that are there: each has a number that none had before, and an outbox.
ghost use Rattle.std.specs.Prelude.{◌≡◌, ℕ, List, ◌+◌, ◌<◌, ◌≤◌, ◌⊎◌, [], ◌∷◌, ◌++◌, length, false, true, IfOk, OnOk, OnErr};
ghost use Rattle.signal_fanout.specs.secret_calls.specs.declared.out.Out.{Out};
ghost use Rattle.signal_fanout.specs.secret_calls.specs.declared.out.Out.TheVariants as kinds;
ghost use Rattle.signal_fanout.specs.declared.rows.Delivery.{Delivery};
ghost use Rattle.service_tables.specs.Limits.{most_connections, last_connection};
ghost use Rattle.service_tables.specs.Connections.{new_row, has, changed, without, with_out, left, emptied, waiting_for, desk_of, for_each, handed, AreDistinct, HasRoom, HasRoomFor, KeepRooms};

use crate::ConnRows;
use kr_base::{ConnId, OutOfMemory};
use kr_items::Items;
use signal_fanout::secret_calls::{Out, SharedSignal};
use signal_fanout::{Delivery, DeskRow, Outboxes};
use std::alloc::Global;
use std::marker::Model;

/// How many connections may be there at once.
const MOST_CONNECTIONS: usize = 256;

/// The connections. A contract sees their rows by rising number, the number of the next one, and for
/// how many more outputs of each there is room.
#[derive(Drop)]
pub struct Connections {
    alloc: Global,
    outboxes: Outboxes,
    next: u64,
}

impl Model for Connections {
    ghost use Rattle.service_tables.specs.Desks.{Table};

    ghost Value = { Table };

    ghost use Rattle.service_tables.specs.Connections.{AreBelow};
    ghost use Rattle.service_tables.specs.Desks.{table_of};

    ghost view = { λ t. table_of t.outboxes t.next };

    ghost invariant = { λ t. AreBelow t.next t.outboxes.rows };
}

impl Connections {
    /// No connection is there, and the first gets the number 1. It takes no memory.
    pub fn new(alloc: Global) -> Connections
        ensures { result ≡ record { rows = []; next = 1; rooms = [] } }
    {
        Connections {
            alloc,
            outboxes: Outboxes::new(alloc),
            next: 1,
        }
    }

    /// Whether no further connection can join: 256 are there, or no number is left.
    pub fn is_crowded(&self) -> bool
        ensures crowded { result ≡ true → (most_connections ≤ length self.now.rows)
            ⊎ (last_connection ≤ self.now.next) }
        ensures room { result ≡ false → (length self.now.rows < most_connections)
            × (self.now.next < last_connection) }
    {
        self.outboxes.len() >= MOST_CONNECTIONS || self.next == u64::MAX
    }

    /// Adds a connection, and gives it the next number.
    pub fn join(&mut self) -> Result<ConnId, OutOfMemory>
        requires { self.old.next < last_connection }
        ensures number { IfOk result (λ conn. conn.0 ≡ self.old.next) }
        ensures joined { IfOk result (λ conn. self.new.rows ≡ self.old.rows ++ new_row conn ∷ []) }
        ensures next { OnOk result (self.new.next ≡ self.old.next + 1) }
        ensures unchanged { OnErr result ((self.new.rows ≡ self.old.rows)
            × (self.new.next ≡ self.old.next)) }
    {
        let conn = ConnId(self.next);
        self.outboxes.add(conn)?;
        self.next += 1;
        Ok(conn)
    }

    /// Shows that no two connections have one number.
    pub fn are_distinct(&self)
        ensures { AreDistinct self.now.rows }
    {
        self.outboxes.are_distinct();
    }

    /// Whether the connection is there.
    pub fn has(&self, conn: ConnId) -> bool
        ensures { result ≡ has conn self.now.rows }
    {
        self.outboxes.has(conn)
    }

    /// The connection's status, or None if it isn't there.
    pub fn desk(&self, conn: ConnId) -> Option<DeskRow>
        ensures { result ≡ desk_of conn self.now.rows }
    {
        self.outboxes.desk(conn)
    }

    /// Makes room for this many more outputs of the connection.
    pub fn reserve(&mut self, conn: ConnId, more: usize) -> Result<(), OutOfMemory>
        ensures room { OnOk result (HasRoom more conn self.new.rooms) }
        ensures kept { KeepRooms self.old.rooms self.new.rooms }
        ensures unchanged { self.new.rows ≡ self.old.rows }
        ensures next { self.new.next ≡ self.old.next }
    {
        self.outboxes.reserve(conn, more)
    }

    /// Makes room for one more output of the caller, and for all of these deliveries.
    pub fn reserve_for(&mut self, caller: ConnId, outs: &[Delivery]) -> Result<(), OutOfMemory>
        ensures room { OnOk result ((reply : Out)
            → HasRoomFor (record { to = caller; out = reply } ∷ outs.now) self.new.rooms) }
        ensures kept { KeepRooms self.old.rooms self.new.rooms }
        ensures unchanged { self.new.rows ≡ self.old.rows }
        ensures next { self.new.next ≡ self.old.next }
    {
        self.outboxes.reserve_for(caller, outs)
    }

    /// Appends a delivery of the signal to each connection. All of them have the same signal: none of
    /// its texts is copied.
    pub fn to_everyone(
        &self,
        signal: &SharedSignal,
        deliveries: &mut Vec<Delivery>,
    ) -> Result<(), OutOfMemory>
        ensures { OnOk result (deliveries.new.items ≡ deliveries.old.items
            ++ for_each (kinds.Signal signal.now) self.now.rows) }
    {
        self.outboxes.to_everyone(signal, deliveries)
    }

    /// Appends an output to those that wait for the connection. It takes no memory.
    pub fn push(&mut self, conn: ConnId, out: Out)
        requires { HasRoom 1 conn self.old.rooms }
        ensures rows { self.new.rows ≡ changed conn (with_out out) self.old.rows }
        ensures next { self.new.next ≡ self.old.next }
        ensures room { (outs : List Delivery)
            → HasRoomFor (record { to = conn; out = out } ∷ outs) self.old.rooms
            → HasRoomFor outs self.new.rooms }
    {
        self.outboxes.push(conn, out);
    }

    /// Makes each of these deliveries, in order. It takes no memory.
    pub fn deliver(&mut self, outs: Vec<Delivery>)
        requires { HasRoomFor outs.items self.old.rooms }
        ensures rows { self.new.rows ≡ handed outs.items self.old.rows }
        ensures next { self.new.next ≡ self.old.next }
    {
        self.outboxes.deliver(outs);
    }

    /// Marks that the connection asks no more. It takes no memory.
    pub fn leave(&mut self, conn: ConnId)
        ensures rows { self.new.rows ≡ changed conn left self.old.rows }
        ensures next { self.new.next ≡ self.old.next }
    {
        self.outboxes.leave(conn);
    }

    /// Takes what waits for the connection. It takes no memory.
    pub fn take(&mut self, conn: ConnId) -> Items<Out>
        ensures outs { result ≡ waiting_for conn self.old.rows }
        ensures rows { self.new.rows ≡ changed conn emptied self.old.rows }
        ensures next { self.new.next ≡ self.old.next }
    {
        match self.outboxes.take(conn) {
            Some(outs) => Items::new(outs),
            None => Items::empty(self.alloc),
        }
    }

    /// Removes the connection, with all that waits for it. It takes no memory.
    pub fn remove(&mut self, conn: ConnId)
        ensures rows { self.new.rows ≡ without conn self.old.rows }
        ensures next { self.new.next ≡ self.old.next }
    {
        self.outboxes.gone(conn);
    }

    /// The connections as plain rows. One pass over them.
    pub fn rows(&self) -> Result<ConnRows, OutOfMemory>
        ensures { IfOk result (λ connections.
            connections ≡ record { rows = self.now.rows; next = self.now.next }) }
    {
        Ok(ConnRows {
            rows: Items::new(self.outboxes.rows()?),
            next: self.next,
        })
    }
}
