ghost use Rattle.std.specs.Prelude.{◌≡◌, ◌<◌, ◌≤◌, ◌↔◌, IsTrue};
ghost use Rattle.kr_outside.specs.Faults.{Rose};
ghost use Rattle.kr_memory.specs.Plan.{pieces_at_start, plan_at_start, piece_of, after_call, FailsNow, after_success, after_failure};

use kr_outside::Failed;
use std::marker::Model;

/// How many bytes each call of a stream moves, by the call's number; all calls are counted from 0.
#[derive(Drop)]
pub struct Pieces {
    lengths: Vec<usize>,
    calls: u64,
}

impl Model for Pieces {
    ghost use Rattle.kr_memory.specs.Plan.{PiecePlan};

    ghost Value = { PiecePlan };

    ghost view = { λ p. record { lengths = p.lengths.items; calls = p.calls } };
}

impl Pieces {
    /// The plan before the first call.
    pub fn new(lengths: Vec<usize>) -> Self
        ensures { result ≡ pieces_at_start lengths.items }
    {
        Pieces { lengths, calls: 0 }
    }

    /// The number of the next call. Once it is 2^64 - 1, it stays there.
    pub fn number(&self) -> u64
        ensures { result ≡ self.now.calls }
    {
        self.calls
    }

    /// How many of `bytes` bytes the next call moves.
    pub fn piece(&self, bytes: usize) -> usize
        ensures planned { result ≡ piece_of self.now bytes }
        ensures within { result ≤ bytes }
        ensures some { 0 < bytes → 0 < result }
    {
        match self.lengths.get(self.calls as usize) {
            Some(planned) => bytes.min((*planned).max(1)),
            None => bytes,
        }
    }

    /// Counts a call.
    pub fn count(&mut self)
        ensures { self.new ≡ after_call self.old }
    {
        self.calls = self.calls.saturating_add(1);
    }
}

/// The pieces of a stream, the calls that should fail, and how many have failed.
#[derive(Drop)]
pub struct Plan {
    pieces: Pieces,
    failing: Vec<u64>,
    faults: u64,
}

impl Model for Plan {
    ghost use Rattle.kr_memory.specs.Plan.{FailingPlan};

    ghost Value = { FailingPlan };

    ghost view = { λ p. record {
      pieces = p.pieces;
      failing = p.failing.items;
      faults = p.faults;
    } };
}

impl Plan {
    /// The plan before the first call.
    pub fn new(lengths: Vec<usize>, failing: Vec<u64>) -> Self
        ensures { result ≡ plan_at_start lengths.items failing.items }
    {
        Plan {
            pieces: Pieces::new(lengths),
            failing,
            faults: 0,
        }
    }

    /// Whether the next call should fail.
    pub fn fails_now(&self) -> bool
        ensures { IsTrue result ↔ FailsNow self.now }
    {
        self.failing.contains(&self.pieces.number())
    }

    /// How many of `bytes` bytes the next call moves, if it doesn't fail.
    pub fn piece(&self, bytes: usize) -> usize
        ensures planned { result ≡ piece_of self.now.pieces bytes }
        ensures within { result ≤ bytes }
        ensures some { 0 < bytes → 0 < result }
    {
        self.pieces.piece(bytes)
    }

    /// Counts a call that doesn't fail.
    pub fn succeed(&mut self)
        ensures { self.new ≡ after_success self.old }
    {
        self.pieces.count();
    }

    /// Counts a call that fails.
    pub fn fail(&mut self) -> Failed
        ensures counted { self.new ≡ after_failure self.old }
        ensures later { self.old.faults ≤ self.new.faults }
        ensures rose { Rose self.old.faults self.new.faults }
    {
        self.pieces.count();
        self.faults = self.faults.saturating_add(1);
        Failed
    }
}
