ghost use Rattle.std.specs.Prelude.{◌≡◌, ℕ, ◌+◌, ◌<◌, ◌≤◌, ◌⊎◌, ◌++◌, Bool, List, Option, [], None, Some, length, take, vec_len, vec_capacity, IsErr, IsOk, IfOk, OnOk, OnErr, IsTrue, IsFalse, true, false};
ghost use Rattle.std.specs.Io.{WritesAtMost};
ghost use Rattle.std.specs.Io.KnownBytes.{WriteAppends};
ghost use Rattle.kr_outside.specs.Faults.{HasCause, KeepsSteady};
ghost use Rattle.kr_memory.specs.Plan.{pieces_at_start, plan_at_start, piece_of, after_call, FailsNow, after_success, after_failure};

use crate::plan::{Pieces, Plan};
use kr_outside::{Failed, Sink};
use std::alloc::{AllocError, Global};
use std::marker::Model;

/// A sink that keeps all bytes in memory, takes them in planned pieces and fails at planned calls.
#[derive(Drop)]
pub struct MemorySink {
    kept: Vec<u8>,
    plan: Plan,
    is_closed: bool,
}

impl Model for MemorySink {
    ghost use Rattle.std.specs.Prelude.{◌-◌, vec_len, vec_capacity};
    ghost use Rattle.kr_memory.specs.Sink.{SinkState};

    ghost Value = { SinkState };

    ghost view = { λ s. record {
      kept = s.kept.items;
      room = vec_capacity s.kept - vec_len s.kept;
      plan = s.plan;
      is_closed = s.is_closed;
    } };
}

impl MemorySink {
    /// A sink that has no bytes yet. Its writes are numbered from 0, including those that fail.
    /// Write number k fails if k is in `failing`; otherwise it takes at most `pieces[k]` bytes,
    /// where 0 counts as 1, since a write takes at least one byte. After the list of pieces a write
    /// takes everything. From the 2^64th write on, all have the number 2^64 - 1.
    pub fn new(alloc: Global, pieces: Vec<usize>, failing: Vec<u64>) -> MemorySink
        ensures { result ≡ record {
          kept = [];
          room = 0;
          plan = plan_at_start pieces.items failing.items;
          is_closed = false;
        } }
    {
        MemorySink {
            kept: Vec::new(alloc),
            plan: Plan::new(pieces, failing),
            is_closed: false,
        }
    }

    /// The bytes that were written so far.
    pub fn bytes(&self) -> &[u8]
        ensures { result.now ≡ self.now.kept }
    {
        &self.kept
    }
}

impl Sink for MemorySink {
    ghost use Rattle.std.proofs.Common.{rules};

    ghost written = { λ s. Some s.kept };

    ghost faults = { λ s. s.plan.faults };

    ghost is_steady = { λ _. false };

    ghost is_closed = { λ s. s.is_closed };

    ghost steady_below = { Prim.search rules };

    /// Keeps as many of the first bytes of the piece as the plan allows.
    ///
    /// Refused with `Failed` at the calls that the plan lists, and if memory for the bytes is
    /// refused. Both count as a fault.
    fn write(&mut self, piece: &[u8]) -> Result<usize, Failed>
        requires is_open { IsFalse self.old.is_closed }

        // What the trait says.
        ensures within { WritesAtMost result piece.now }
        ensures some { IfOk result (λ count. 0 < length piece.now → 0 < count) }
        ensures put { WriteAppends (Some self.old.kept) (Some self.new.kept) result piece.now }
        ensures cause { HasCause self.old.plan.faults self.new.plan.faults result }
        ensures still { OnOk result (self.new.plan.faults ≡ self.old.plan.faults) }
        ensures steady { KeepsSteady false false self.old.plan.faults self.new.plan.faults }
        ensures is_open { IsFalse self.new.is_closed }

        // The planned calls fail, and other calls only if memory for their bytes was refused.
        ensures fails { FailsNow self.old.plan → IsErr result }
        ensures only { OnErr result (FailsNow self.old.plan
            ⊎ (self.old.room < piece_of self.old.plan.pieces (length piece.now))) }

        // The others move the planned number of bytes.
        ensures planned { IfOk result (λ count. count ≡
            piece_of self.old.plan.pieces (length piece.now)) }
        ensures kept { IfOk result (λ count. self.new ≡ record {
          kept = self.old.kept ++ take count piece.now;
          room = self.new.room;
          plan = after_success self.old.plan;
          is_closed = self.old.is_closed;
        }) }
        ensures room { IfOk result (λ count. self.old.room ≤ self.new.room + count) }

        // After a failure only the counts are different.
        ensures failed { OnErr result (self.new ≡ record {
          kept = self.old.kept;
          room = self.new.room;
          plan = after_failure self.old.plan;
          is_closed = self.old.is_closed;
        }) }
        ensures room_stays { OnErr result (self.old.room ≤ self.new.room) }
    {
        if self.plan.fails_now() {
            return Err(self.plan.fail());
        }
        let count = self.plan.piece(piece.len());
        if self.kept.extend_from_slice(&piece[..count]).is_err() {
            return Err(self.plan.fail());
        }
        self.plan.succeed();
        Ok(count)
    }

    /// Notes that the sink is closed; its bytes and its plan stay.
    fn close(&mut self)
        // What the trait says.
        ensures closed { IsTrue self.new.is_closed }
        ensures written { ◌≡◌ {A = Option (List ℕ)} (Some self.new.kept) (Some self.old.kept) }
        ensures count { self.new.plan.faults ≡ self.old.plan.faults }
        ensures steady { ◌≡◌ {A = Bool} false false }

        // Nothing else is different.
        ensures same { self.new ≡ record self.old { is_closed = true } }
    {
        self.is_closed = true;
    }
}

// Appends as many of the bytes as there is room for; the memory for the room is there already.
fn fill(kept: &mut Vec<u8>, room: usize, bytes: &[u8])
    requires within { vec_len kept.old ≤ room }
    requires reserved { room ≤ vec_capacity kept.old }
    ensures front { kept.new.items ≡ take room (kept.old.items ++ bytes.now) }
    ensures within { vec_len kept.new ≤ room }
    ensures reserved { room ≤ vec_capacity kept.new }
{
    let fitting = bytes.len().min(room - kept.len());
    kept.extend_from_slice(&bytes[..fitting]).unwrap();
}

/// A sink that never fails. It keeps the first bytes that are written, as many as it has room for,
/// and drops those after them.
#[derive(Drop)]
pub struct SteadySink {
    kept: Vec<u8>,
    room: usize,
    pieces: Pieces,
    is_closed: bool,
}

impl Model for SteadySink {
    ghost use Rattle.std.specs.Prelude.{◌≤◌, vec_len, vec_capacity};
    ghost use Rattle.kr_memory.specs.Sink.{SteadySinkState};

    ghost Value = { SteadySinkState };

    ghost view = { λ s. record {
      kept = s.kept.items;
      room = s.room;
      pieces = s.pieces;
      is_closed = s.is_closed;
    } };

    ghost invariant = { λ s. (vec_len s.kept ≤ s.room) × (s.room ≤ vec_capacity s.kept) };
}

impl SteadySink {
    /// A sink that keeps the first `room` bytes; its memory is taken here. Its writes are numbered
    /// from 0. Write number k takes at most `pieces[k]` bytes, where 0 counts as 1. After the list
    /// of pieces a write takes everything.
    ///
    /// Refused with `AllocError` if there is no memory for the room; a room of 0 takes none.
    pub fn new(alloc: Global, room: usize, pieces: Vec<usize>) -> Result<SteadySink, AllocError>
        ensures fresh { IfOk result (λ sink. sink ≡ record {
          kept = [];
          room = room;
          pieces = pieces_at_start pieces.items;
          is_closed = false;
        }) }
        ensures no_room { room ≡ 0 → IsOk result }
    {
        Ok(SteadySink {
            kept: Vec::with_capacity(alloc, room)?,
            room,
            pieces: Pieces::new(pieces),
            is_closed: false,
        })
    }

    /// The first of the bytes that were written so far, as many as there is room for.
    pub fn bytes(&self) -> &[u8]
        ensures kept { result.now ≡ self.now.kept }
        ensures within { length result.now ≤ self.now.room }
    {
        &self.kept
    }
}

impl Sink for SteadySink {
    ghost use Rattle.std.proofs.Common.{rules};

    ghost written = { λ _. None };

    ghost faults = { λ _. 0 };

    ghost is_steady = { λ _. true };

    ghost is_closed = { λ s. s.is_closed };

    ghost steady_below = { Prim.search rules };

    /// Takes as many of the first bytes of the piece as the plan allows, and keeps those for which
    /// there is room. It is never refused.
    fn write(&mut self, piece: &[u8]) -> Result<usize, Failed>
        requires is_open { IsFalse self.old.is_closed }

        // What the trait says.
        ensures within { WritesAtMost result piece.now }
        ensures some { IfOk result (λ count. 0 < length piece.now → 0 < count) }
        ensures put { WriteAppends None None result piece.now }
        ensures cause { HasCause 0 0 result }
        ensures still { OnOk result (◌≡◌ {A = ℕ} 0 0) }
        ensures steady { KeepsSteady true true 0 0 }
        ensures is_open { IsFalse self.new.is_closed }

        // No call fails, and each moves the planned number of bytes.
        ensures answers { IsOk result }
        ensures planned { IfOk result (λ count. count ≡
            piece_of self.old.pieces (length piece.now)) }
        ensures kept { IfOk result (λ count. self.new ≡ record {
          kept = take self.old.room (self.old.kept ++ take count piece.now);
          room = self.old.room;
          pieces = after_call self.old.pieces;
          is_closed = self.old.is_closed;
        }) }
    {
        let count = self.pieces.piece(piece.len());
        fill(&mut self.kept, self.room, &piece[..count]);
        self.pieces.count();
        Ok(count)
    }

    /// Notes that the sink is closed; its bytes and its pieces stay.
    fn close(&mut self)
        // What the trait says.
        ensures closed { IsTrue self.new.is_closed }
        ensures written { ◌≡◌ {A = Option (List ℕ)} None None }
        ensures count { ◌≡◌ {A = ℕ} 0 0 }
        ensures steady { ◌≡◌ {A = Bool} true true }

        // Nothing else is different.
        ensures same { self.new ≡ record self.old { is_closed = true } }
    {
        self.is_closed = true;
    }
}
