ghost use Rattle.std.specs.Prelude.{◌≡◌, ℕ, ◌<◌, Bool, List, Option, None, Some, length, IsTrue, IfOk, OnOk, OnErr, IsErrOf};
ghost use Rattle.std.specs.Option.{is_some};
ghost use Rattle.std.specs.Io.{ReadsAtMost, WritesAtMost};
ghost use Rattle.std.specs.Io.KnownBytes.{ReadConsumes, WriteAppends};
ghost use Rattle.kr_outside.specs.Faults.{HasCause, KeepsSteady, IsBelowLast};
ghost use Rattle.kr_outside.specs.Folder.{HasOutsideCause};

use kr_outside::{Failed, OutsideRefused};

/// What connects to a path once, and is then a stream of bytes in each direction.
pub trait Dialer {
    /// The path that was dialled, if one was.
    ghost dialled: { Self → Option (List ℕ) };

    /// The bytes that are left to be read, in order, if the dialer reports them.
    ghost left: { Self → Option (List ℕ) };

    /// The bytes that were written so far, in order, if the dialer reports them.
    ghost written: { Self → Option (List ℕ) };

    /// How often the dialer has failed, at any of its calls. The count never falls, and stays at 2^64 - 1.
    ghost faults: { Self → ℕ };

    /// Whether the dialer never fails, so that its count never rises.
    ghost is_steady: { Self → Bool };

    /// Connects to what listens at the path. It neither reads nor writes.
    ///
    /// Refused with `Failed` only if the count of faults rose, and with `OutOfMemory` if no memory was left, with the count
    /// as before; nothing was dialled then.
    fn dial(&mut self, path: &str) -> Result<(), OutsideRefused>
        requires not_dialled { dialled self.old ≡ None }
        ensures dialled { OnOk result (dialled self.new ≡ Some path.now) }
        ensures refused { OnErr result (dialled self.new ≡ None) }
        ensures left { left self.new ≡ left self.old }
        ensures written { written self.new ≡ written self.old }
        ensures cause { HasOutsideCause (faults self.old) (faults self.new) result }
        ensures still { OnOk result (faults self.new ≡ faults self.old) }
        ensures memory { IsErrOf result OutsideRefused.OutOfMemory
            → faults self.new ≡ faults self.old }
        ensures steady { KeepsSteady (is_steady self.old) (is_steady self.new)
            (faults self.old) (faults self.new) };

    /// Reads some of the bytes that are left to the start of the buffer, consumes them, and returns how many. If the
    /// buffer has room, 0 means the end: no bytes are left.
    ///
    /// Refused with `Failed` only if the count of faults rose, which it does at no other read; the bytes left are then as
    /// before, and nothing is known of the buffer.
    fn read(&mut self, buffer: &mut [u8]) -> Result<usize, Failed>
        requires has_dialled { IsTrue (is_some (dialled self.old)) }
        ensures within { ReadsAtMost result buffer.new }
        ensures taken { ReadConsumes (left self.old) (left self.new) result buffer.new }
        ensures written { written self.new ≡ written self.old }
        ensures dialled { dialled self.new ≡ dialled self.old }
        ensures cause { HasCause (faults self.old) (faults self.new) result }
        ensures still { OnOk result (faults self.new ≡ faults self.old) }
        ensures steady { KeepsSteady (is_steady self.old) (is_steady self.new)
            (faults self.old) (faults self.new) };

    /// Writes the first bytes of the piece, and returns how many: at least one, if the piece has any. A stream that takes
    /// none of them has failed.
    ///
    /// Refused with `Failed` only if the count of faults rose, which it does at no other write; the bytes written are then
    /// as before.
    fn write(&mut self, piece: &[u8]) -> Result<usize, Failed>
        requires has_dialled { IsTrue (is_some (dialled self.old)) }
        ensures within { WritesAtMost result piece.now }
        ensures some { IfOk result (λ count. 0 < length piece.now → 0 < count) }
        ensures put { WriteAppends (written self.old) (written self.new) result piece.now }
        ensures left { left self.new ≡ left self.old }
        ensures dialled { dialled self.new ≡ dialled self.old }
        ensures cause { HasCause (faults self.old) (faults self.new) result }
        ensures still { OnOk result (faults self.new ≡ faults self.old) }
        ensures steady { KeepsSteady (is_steady self.old) (is_steady self.new)
            (faults self.old) (faults self.new) };

    /// The count of a steady dialer isn't at its maximum: as it never rises, no call fails.
    ghost steady_below: { (dialer : Self) → IsBelowLast (is_steady dialer) (faults dialer) };
}
