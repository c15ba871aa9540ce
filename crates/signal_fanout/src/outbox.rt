// What is kept of one connection.
ghost use Rattle.std.specs.Prelude.{◌≡◌, ℕ, ◌+◌, ◌<◌, ◌≤◌, OnOk, IfOk};
ghost use Rattle.signal_fanout.specs.Outboxes.{new_row, with_out, left, emptied, told_of};
ghost use Rattle.signal_fanout.specs.Boxes.{row_of, room_in, IsCounted, IsReady};

use crate::{ConnRow, DeskRow};
use kr_base::{ConnId, OutOfMemory};
use kr_items::Items;
use secret_calls::{Out, size_of_out};
use std::alloc::{AllocError, Global};
use std::mem;

/// How many bytes may wait for a connection.
const MOST_WAITING: u64 = 8_912_896;

/// A connection, as the table keeps it.
#[derive(Drop)]
pub struct Outbox {
    /// The outputs that wait.
    pub waiting: Vec<Out>,
    /// How many bytes they have.
    pub size: u64,
    /// How many more are expected, while room is made for them.
    pub expected: usize,
    /// Whether an output was lost.
    pub overrun: bool,
    /// Whether it has left.
    pub leaving: bool,
    /// How many outputs it has taken.
    pub taken: u64,
}

// The same outputs again. Signals are shared, and the rest is copied.
fn copies(alloc: Global, outs: &[Out]) -> Result<Vec<Out>, OutOfMemory>
    ensures { IfOk result (λ copied. copied.items ≡ outs.now) }
{
    let mut copied = Vec::with_capacity(alloc, outs.len())?;
    for out in outs {
        copied.push(out.copy(alloc)?)?;
    }
    Ok(copied)
}

impl Outbox {
    /// A connection that joins. It takes no memory.
    pub fn new(alloc: Global) -> Outbox
        ensures row { (conn : ℕ) → row_of (conn, result) ≡ new_row (record { 0 = conn }) }
        ensures counts { IsCounted result }
    {
        Outbox {
            waiting: Vec::new(alloc),
            size: 0,
            expected: 0,
            overrun: false,
            leaving: false,
            taken: 0,
        }
    }

    /// Makes room for this many more outputs.
    pub fn reserve(&mut self, more: usize) -> Result<(), OutOfMemory>
        ensures room { OnOk result (more ≤ room_in self.new) }
        ensures kept { room_in self.old ≤ room_in self.new }
        ensures row { (conn : ℕ) → row_of (conn, self.new) ≡ row_of (conn, self.old) }
        ensures counts { IsCounted self.old → IsCounted self.new }
    {
        self.waiting.reserve(more)
    }

    /// Expects no output yet. It takes no memory.
    pub fn expect_none(&mut self)
        ensures ready { IsReady 0 self.new }
        ensures kept { room_in self.old ≤ room_in self.new }
        ensures row { (conn : ℕ) → row_of (conn, self.new) ≡ row_of (conn, self.old) }
        ensures counts { IsCounted self.old → IsCounted self.new }
    {
        self.expected = 0;
    }

    /// Expects one more output, and makes room for all that are expected.
    pub fn expect_one(&mut self) -> Result<(), OutOfMemory>
        ensures ready { OnOk result ((count : ℕ) → IsReady count self.old
            → IsReady (count + 1) self.new) }
        ensures kept { room_in self.old ≤ room_in self.new }
        ensures row { (conn : ℕ) → row_of (conn, self.new) ≡ row_of (conn, self.old) }
        ensures counts { IsCounted self.old → IsCounted self.new }
    {
        let Some(expected) = self.expected.checked_add(1) else {
            return Err(AllocError);
        };
        self.expected = expected;
        self.waiting.reserve(expected)
    }

    /// Adds an output after those that wait, or drops it if too much would wait. It takes no
    /// memory.
    pub fn put(&mut self, out: Out)
        requires room { 0 < room_in self.old }
        requires counts { IsCounted self.old }
        ensures row { (conn : ℕ)
            → row_of (conn, self.new) ≡ with_out out (row_of (conn, self.old)) }
        ensures left { room_in self.old ≤ room_in self.new + 1 }
        ensures counts { IsCounted self.new }
    {
        if self.overrun {
            return;
        }
        let size = size_of_out(&out);
        if size > MOST_WAITING - self.size {
            self.overrun = true;
            return;
        }
        self.size += size;
        self.waiting.push(out).unwrap();
    }

    /// Marks that it makes no more requests. It takes no memory.
    pub fn leave(&mut self)
        ensures row { (conn : ℕ) → row_of (conn, self.new) ≡ left (row_of (conn, self.old)) }
        ensures counts { IsCounted self.old → IsCounted self.new }
    {
        self.leaving = true;
    }

    /// Takes what waits, and counts it. It takes no memory.
    pub fn take(&mut self, alloc: Global) -> Vec<Out>
        ensures outs { result.items ≡ self.old.waiting.items }
        ensures row { (conn : ℕ) → row_of (conn, self.new) ≡ emptied (row_of (conn, self.old)) }
        ensures counts { IsCounted self.new }
    {
        let outs = mem::replace(&mut self.waiting, Vec::new(alloc));
        self.size = 0;
        self.taken = self.taken.saturating_add(outs.len() as u64);
        outs
    }

    /// Its status.
    pub fn told(&self) -> DeskRow
        ensures { (conn : ℕ) → result ≡ told_of (row_of (conn, self.now)) }
    {
        DeskRow {
            waits: !self.waiting.is_empty(),
            overrun: self.overrun,
            leaving: self.leaving,
        }
    }

    /// Its row.
    pub fn row(&self, alloc: Global, conn: u64) -> Result<ConnRow, OutOfMemory>
        ensures { IfOk result (λ row. row ≡ row_of (conn, self.now)) }
    {
        let waiting = copies(alloc, &self.waiting)?;
        Ok(ConnRow {
            conn: ConnId(conn),
            waiting: Items::new(waiting),
            overrun: self.overrun,
            leaving: self.leaving,
            taken: self.taken,
        })
    }
}
