ghost use Rattle.std.specs.Prelude.{◌≡◌, ℕ, Bool, IsTrue, IsFalse, List, Option, OnOk};
ghost use Rattle.std.specs.Io.{ReadsAtMost};
ghost use Rattle.std.specs.Io.KnownBytes.{ReadConsumes};
ghost use Rattle.kr_outside.specs.Faults.{HasCause, KeepsSteady, IsBelowLast};

use thiserror::Error;

/// A device or a stream failed in this call. The system's own error isn't passed on.
#[derive(Clone, Copy, Debug, PartialEq, Eq, Error)]
#[error("the device or stream failed")]
pub struct Failed;

/// A stream of bytes that comes in.
pub trait Source {
    /// The bytes that are left to be read, in order, if the source reports them.
    ghost left: { Self → Option (List ℕ) };

    /// How often the source has failed. The count never falls, and stays at 2^64 - 1.
    ghost faults: { Self → ℕ };

    /// Whether the source never fails, so that its count never rises.
    ghost is_steady: { Self → Bool };

    /// Whether the source was closed, after which it isn't read.
    ghost is_closed: { Self → Bool };

    /// Reads some of the bytes that are left to the start of the buffer, consumes them, and returns
    /// how many. If the buffer has room, 0 means the end of the input: no bytes are left.
    ///
    /// Refused with `Failed` only if the count of faults rose, which it does at no other read; the
    /// bytes left are then as before, and nothing is known of the buffer.
    fn read(&mut self, buffer: &mut [u8]) -> Result<usize, Failed>
        requires is_open { IsFalse (is_closed self.old) }
        ensures within { ReadsAtMost result buffer.new }
        ensures taken { ReadConsumes (left self.old) (left self.new) result buffer.new }
        ensures cause { HasCause (faults self.old) (faults self.new) result }
        ensures still { OnOk result (faults self.new ≡ faults self.old) }
        ensures steady { KeepsSteady (is_steady self.old) (is_steady self.new)
            (faults self.old) (faults self.new) }
        ensures is_open { IsFalse (is_closed self.new) };

    /// Gives up what the source is made on, which nothing is read from any more. It can't be
    /// refused, and closing a closed source changes nothing.
    fn close(&mut self)
        ensures closed { IsTrue (is_closed self.new) }
        ensures left { left self.new ≡ left self.old }
        ensures count { faults self.new ≡ faults self.old }
        ensures steady { is_steady self.new ≡ is_steady self.old };

    /// The count of a steady source isn't at its maximum: as it never rises, no call fails.
    ghost steady_below: { (source : Self) → IsBelowLast (is_steady source) (faults source) };
}
