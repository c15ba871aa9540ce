ghost use Rattle.std.specs.Prelude.{◌≡◌, ℕ, ◌<◌, Bool, IsTrue, IsFalse, List, Option, length, IfOk, OnOk, OnErr};
ghost use Rattle.std.specs.Io.{WritesAtMost};
ghost use Rattle.std.specs.Io.KnownBytes.{Appends, WriteAppends};
ghost use Rattle.kr_outside.specs.Written.{AppendsFront};
ghost use Rattle.kr_outside.specs.Faults.{HasCause, KeepsSteady, IsBelowLast};

use crate::Failed;

/// A stream of bytes that goes out.
pub trait Sink {
    /// The bytes that were written so far, in order, if the sink reports them.
    ghost written: { Self → Option (List ℕ) };

    /// How often the sink has failed. The count never falls, and stays at 2^64 - 1.
    ghost faults: { Self → ℕ };

    /// Whether the sink never fails, so that its count never rises.
    ghost is_steady: { Self → Bool };

    /// Whether the sink was closed, after which it isn't written.
    ghost is_closed: { Self → Bool };

    /// Writes the first bytes of the piece, and returns how many: at least one, if the piece has
    /// any. A stream that takes none of them has failed.
    ///
    /// Refused with `Failed` only if the count of faults rose, which it does at no other write; the
    /// bytes written are then as before.
    fn write(&mut self, piece: &[u8]) -> Result<usize, Failed>
        requires is_open { IsFalse (is_closed self.old) }
        ensures within { WritesAtMost result piece.now }
        ensures some { IfOk result (λ count. 0 < length piece.now → 0 < count) }
        ensures put { WriteAppends (written self.old) (written self.new) result piece.now }
        ensures cause { HasCause (faults self.old) (faults self.new) result }
        ensures still { OnOk result (faults self.new ≡ faults self.old) }
        ensures steady { KeepsSteady (is_steady self.old) (is_steady self.new)
            (faults self.old) (faults self.new) }
        ensures is_open { IsFalse (is_closed self.new) };

    /// Gives up what the sink is made on, which nothing is written to any more. It can't be
    /// refused, and closing a closed sink changes nothing.
    fn close(&mut self)
        ensures closed { IsTrue (is_closed self.new) }
        ensures written { written self.new ≡ written self.old }
        ensures count { faults self.new ≡ faults self.old }
        ensures steady { is_steady self.new ≡ is_steady self.old };

    /// The count of a steady sink isn't at its maximum: as it never rises, no call fails.
    ghost steady_below: { (sink : Self) → IsBelowLast (is_steady sink) (faults sink) };
}

/// Writes the whole piece, by as many calls as the sink needs.
///
/// Refused with `Failed` at the first call that fails; a prefix of the piece is then written,
/// perhaps an empty one.
pub fn write_all<O: Sink>(output: &mut O, piece: &[u8]) -> Result<(), Failed>
    requires is_open { IsFalse (O.is_closed output.old) }
    ensures whole { OnOk result (Appends (O.written output.old) (O.written output.new) piece.now) }
    ensures front { OnErr result
        (AppendsFront (O.written output.old) (O.written output.new) piece.now) }
    ensures cause { HasCause (O.faults output.old) (O.faults output.new) result }
    ensures still { OnOk result (O.faults output.new ≡ O.faults output.old) }
    ensures steady { KeepsSteady (O.is_steady output.old) (O.is_steady output.new)
        (O.faults output.old) (O.faults output.new) }
    ensures is_open { IsFalse (O.is_closed output.new) }
{
    let mut rest = piece;
    while !rest.is_empty() {
        let count = output.write(rest)?;
        rest = &rest[count..];
    }
    Ok(())
}
