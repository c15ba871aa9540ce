// What values are written to: a vector, or a counter of the bytes that there will be.
ghost use Rattle.std.specs.Prelude.{◌≡◌, ◌%◌, ◌<◌, ◌++◌, ℕ, List, [], length, replicate, min, OnOk};
ghost use Rattle.dbus_marshal.specs.Putting.{Counts};

use crate::OutOfMemory;

/// What bytes are put into. Contracts see the list of all bytes put so far, from a message's start
/// on, so that a contract about it applies to the bytes and to their number alike.
pub trait Put {
    ghost use Rattle.std.specs.Prelude.{◌≡◌, ◌%◌, ◌<◌, ◌++◌, ℕ, List, length, OnOk};

    ghost stands: { Self → List ℕ → Type 0 };

    /// Why bytes weren't taken.
    type Refused;

    /// Puts bytes after those that were put before.
    fn put(&mut self, bytes: &[u8]) -> Result<(), Self::Refused>
        ensures { (before : List ℕ) → stands self.old before
            → OnOk result (stands self.new (before ++ bytes.now)) };

    /// The position of the next byte, counted from the message's start modulo 8.
    fn place(&self) -> usize
        ensures place { (before : List ℕ) → stands self.now before → result ≡ length before % 8 }
        ensures below { result < 8 };
}

impl Put for Vec<u8> {
    ghost use Rattle.std.specs.Prelude.{◌≡◌};

    ghost stands = { λ out before. out.items ≡ before };

    type Refused = OutOfMemory;

    fn put(&mut self, bytes: &[u8]) -> Result<(), OutOfMemory> {
        self.extend_from_slice(bytes)
    }

    fn place(&self) -> usize {
        self.len() % 8
    }
}

/// A refusal that never comes.
#[derive(Clone, Copy)]
pub enum Never {}

/// Counts the bytes that are put, and keeps none of them. It takes no memory. Its number stays at
/// 18,446,744,073,709,551,615 once there.
#[derive(Clone, Copy)]
pub struct Counter {
    size: u64,
    /// The lower 32 bits of the number of bytes, as in an array's length.
    low: u32,
}

impl Put for Counter {
    ghost use Rattle.dbus_marshal.specs.Putting.{Counts};

    ghost stands = { λ counter before. Counts counter.size counter.low before };

    type Refused = Never;

    fn put(&mut self, bytes: &[u8]) -> Result<(), Never> {
        self.size = self.size.saturating_add(bytes.len() as u64);
        self.low = self.low.wrapping_add((bytes.len() % 4_294_967_296) as u32);
        Ok(())
    }

    fn place(&self) -> usize {
        (self.low % 8) as usize
    }
}

impl Counter {
    /// A counter into which nothing was put.
    pub fn new() -> Counter
        ensures { Counts result.size result.low [] }
    {
        Counter { size: 0, low: 0 }
    }

    /// A counter as if `place` bytes, fewer than 8, had been put.
    pub fn at(place: usize) -> Counter
        requires { place < 8 }
        ensures { Counts result.size result.low (replicate place 0) }
    {
        Counter {
            size: place as u64,
            low: place as u32,
        }
    }

    /// The number of bytes that were put.
    pub fn size(&self) -> u64
        ensures { (before : List ℕ) → Counts self.now.size self.now.low before
            → result ≡ min 18446744073709551615 (length before) }
    {
        self.size
    }

    /// The lower 32 bits of the number of bytes that were put after the first `place` bytes.
    pub fn low_after(&self, place: usize) -> u32
        requires { place < 8 }
        ensures { (before : List ℕ)
            → Counts self.now.size self.now.low (replicate place 0 ++ before)
            → result ≡ length before % 4294967296 }
    {
        self.low.wrapping_sub(place as u32)
    }
}
