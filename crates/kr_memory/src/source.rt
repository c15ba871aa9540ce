ghost use Rattle.std.specs.Prelude.{◌≡◌, ℕ, ◌<◌, ◌≤◌, ◌↔◌, ◌++◌, Bool, List, Option, Some, length, take, drop, min, IsErr, IsOk, IfOk, OnOk, OnErr, IsTrue, IsFalse, true, false};
ghost use Rattle.std.specs.Io.{ReadsAtMost};
ghost use Rattle.std.specs.Io.KnownBytes.{ReadConsumes};
ghost use Rattle.kr_outside.specs.Faults.{HasCause, KeepsSteady};
ghost use Rattle.kr_memory.specs.Plan.{pieces_at_start, plan_at_start, piece_of, after_call, FailsNow, after_success, after_failure};

use crate::plan::{Pieces, Plan};
use kr_outside::{Failed, Source};
use std::marker::Model;

// The bytes that a source was made with, and how many of them have been read.
#[derive(Drop)]
struct Unread {
    bytes: Vec<u8>,
    read: usize,
}

impl Model for Unread {
    ghost use Rattle.std.specs.Prelude.{ℕ, ◌≤◌, List, drop, vec_len};

    ghost Value = { List ℕ };

    ghost view = { λ u. drop u.read u.bytes.items };

    ghost invariant = { λ u. u.read ≤ vec_len u.bytes };
}

impl Unread {
    fn new(bytes: Vec<u8>) -> Self
        ensures { result ≡ bytes.items }
    {
        Unread { bytes, read: 0 }
    }

    fn len(&self) -> usize
        ensures { result ≡ length self.now }
    {
        self.bytes.len() - self.read
    }

    // Moves this many bytes to the start of the buffer.
    fn give(&mut self, buffer: &mut [u8], count: usize)
        requires there { count ≤ length self.old }
        requires fits { count ≤ length buffer.old }
        ensures given { buffer.new ≡ take count self.old ++ drop count buffer.old }
        ensures rest { self.new ≡ drop count self.old }
    {
        let end = self.read + count;
        buffer[..count].copy_from_slice(&self.bytes[self.read..end]);
        self.read = end;
    }
}

/// A source over bytes in memory, which returns them in planned pieces and fails at planned calls.
#[derive(Drop)]
pub struct MemorySource {
    left: Unread,
    plan: Plan,
    is_closed: bool,
}

impl Model for MemorySource {
    ghost use Rattle.kr_memory.specs.Source.{SourceState};

    ghost Value = { SourceState };

    ghost view = { λ s. record { left = s.left; plan = s.plan; is_closed = s.is_closed } };
}

impl MemorySource {
    /// A source of these bytes. Its reads are numbered from 0, including those that fail. Read
    /// number k fails if k is in `failing`; otherwise it returns at most `pieces[k]` bytes, where 0
    /// counts as 1, since a read of 0 bytes is the end of the input. After the list of pieces a
    /// read returns as much as fits. From the 2^64th read on, all have the number 2^64 - 1.
    pub fn new(bytes: Vec<u8>, pieces: Vec<usize>, failing: Vec<u64>) -> MemorySource
        ensures { result ≡ record {
          left = bytes.items;
          plan = plan_at_start pieces.items failing.items;
          is_closed = false;
        } }
    {
        MemorySource {
            left: Unread::new(bytes),
            plan: Plan::new(pieces, failing),
            is_closed: false,
        }
    }
}

impl Source for MemorySource {
    ghost use Rattle.std.proofs.Common.{rules};

    ghost left = { λ s. Some s.left };

    ghost faults = { λ s. s.plan.faults };

    ghost is_steady = { λ _. false };

    ghost is_closed = { λ s. s.is_closed };

    ghost steady_below = { Prim.search rules };

    /// Reads as many of the bytes left as the plan and the buffer allow, into the start of the buffer.
    ///
    /// Refused with `Failed` at the calls that the plan lists, and at no other.
    fn read(&mut self, buffer: &mut [u8]) -> Result<usize, Failed>
        requires is_open { IsFalse self.old.is_closed }

        // What the trait says.
        ensures within { ReadsAtMost result buffer.new }
        ensures taken { ReadConsumes (Some self.old.left) (Some self.new.left) result buffer.new }
        ensures cause { HasCause self.old.plan.faults self.new.plan.faults result }
        ensures still { OnOk result (self.new.plan.faults ≡ self.old.plan.faults) }
        ensures steady { KeepsSteady false false self.old.plan.faults self.new.plan.faults }
        ensures is_open { IsFalse self.new.is_closed }

        // Exactly the planned calls fail, and the others move the planned number of bytes.
        ensures fails { IsErr result ↔ FailsNow self.old.plan }
        ensures planned { IfOk result (λ count. count ≡
            piece_of self.old.plan.pieces (min (length buffer.old) (length self.old.left))) }
        ensures given { IfOk result (λ count.
            buffer.new ≡ take count self.old.left ++ drop count buffer.old) }
        ensures rest { IfOk result (λ count. self.new ≡ record self.old {
          left = drop count self.old.left;
          plan = after_success self.old.plan;
        }) }

        // After a failure only the counts are different.
        ensures failed { OnErr result (self.new ≡
            record self.old { plan = after_failure self.old.plan }) }
        ensures untouched { OnErr result (buffer.new ≡ buffer.old) }
    {
        if self.plan.fails_now() {
            return Err(self.plan.fail());
        }
        let count = self.plan.piece(buffer.len().min(self.left.len()));
        self.left.give(buffer, count);
        self.plan.succeed();
        Ok(count)
    }

    /// Notes that the source is closed; its bytes and its plan stay.
    fn close(&mut self)
        // What the trait says.
        ensures closed { IsTrue self.new.is_closed }
        ensures left { ◌≡◌ {A = Option (List ℕ)} (Some self.new.left) (Some self.old.left) }
        ensures count { self.new.plan.faults ≡ self.old.plan.faults }
        ensures steady { ◌≡◌ {A = Bool} false false }

        // Nothing else is different.
        ensures same { self.new ≡ record self.old { is_closed = true } }
    {
        self.is_closed = true;
    }
}

/// A source over bytes in memory, which returns them in planned pieces and never fails.
#[derive(Drop)]
pub struct SteadySource {
    left: Unread,
    pieces: Pieces,
    is_closed: bool,
}

impl Model for SteadySource {
    ghost use Rattle.kr_memory.specs.Source.{SteadySourceState};

    ghost Value = { SteadySourceState };

    ghost view = { λ s. record { left = s.left; pieces = s.pieces; is_closed = s.is_closed } };
}

impl SteadySource {
    /// A source of these bytes. Its reads are numbered from 0. Read number k returns at most
    /// `pieces[k]` bytes, where 0 counts as 1. After the list a read returns as much as fits.
    pub fn new(bytes: Vec<u8>, pieces: Vec<usize>) -> SteadySource
        ensures { result ≡ record {
          left = bytes.items;
          pieces = pieces_at_start pieces.items;
          is_closed = false;
        } }
    {
        SteadySource {
            left: Unread::new(bytes),
            pieces: Pieces::new(pieces),
            is_closed: false,
        }
    }
}

impl Source for SteadySource {
    ghost use Rattle.std.proofs.Common.{rules};

    ghost left = { λ s. Some s.left };

    ghost faults = { λ _. 0 };

    ghost is_steady = { λ _. true };

    ghost is_closed = { λ s. s.is_closed };

    ghost steady_below = { Prim.search rules };

    /// Reads as many of the bytes left as the plan and the buffer allow, into the start of the
    /// buffer. It is never refused.
    fn read(&mut self, buffer: &mut [u8]) -> Result<usize, Failed>
        requires is_open { IsFalse self.old.is_closed }

        // What the trait says.
        ensures within { ReadsAtMost result buffer.new }
        ensures taken { ReadConsumes (Some self.old.left) (Some self.new.left) result buffer.new }
        ensures cause { HasCause 0 0 result }
        ensures still { OnOk result (◌≡◌ {A = ℕ} 0 0) }
        ensures steady { KeepsSteady true true 0 0 }
        ensures is_open { IsFalse self.new.is_closed }

        // No call fails, and each moves the planned number of bytes.
        ensures answers { IsOk result }
        ensures planned { IfOk result (λ count. count ≡
            piece_of self.old.pieces (min (length buffer.old) (length self.old.left))) }
        ensures given { IfOk result (λ count.
            buffer.new ≡ take count self.old.left ++ drop count buffer.old) }
        ensures rest { IfOk result (λ count. self.new ≡ record self.old {
          left = drop count self.old.left;
          pieces = after_call self.old.pieces;
        }) }
    {
        let count = self.pieces.piece(buffer.len().min(self.left.len()));
        self.left.give(buffer, count);
        self.pieces.count();
        Ok(count)
    }

    /// Notes that the source is closed; its bytes and its pieces stay.
    fn close(&mut self)
        // What the trait says.
        ensures closed { IsTrue self.new.is_closed }
        ensures left { ◌≡◌ {A = Option (List ℕ)} (Some self.new.left) (Some self.old.left) }
        ensures count { ◌≡◌ {A = ℕ} 0 0 }
        ensures steady { ◌≡◌ {A = Bool} true true }

        // Nothing else is different.
        ensures same { self.new ≡ record self.old { is_closed = true } }
    {
        self.is_closed = true;
    }
}
