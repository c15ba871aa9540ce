ghost use Rattle.std.specs.Prelude.{◌≡◌, ℕ, ◌++◌, ◌↔◌, List, [], length, IsTrue, IfOk, Some, decimal, codes, nat_eq, refl};
ghost use Rattle.std.specs.Ordering.{nat_cmp};
ghost use Rattle.std.specs.Cmp.{partial_equiv_from_equiv};
ghost use Rattle.std.specs.Cmp.Lexicographic.{pointwise, slice_cmp, nat_list_eq_equiv, nat_list_cmp_total, texts_ties, texts_po};
ghost use Rattle.kr_base.specs.Held.{held_bytes};

use crate::OutOfMemory;
use arrayvec::ArrayVec;
use std::alloc::Global;
use std::cmp::Ordering;
use std::fmt;
use std::marker::Model;

/// Where the bytes are kept. Most passwords are short, and so is each hash in a keyring file.
#[derive(Drop)]
enum Held {
    /// In the value itself: at most 32 bytes.
    Short(ArrayVec<u8, 32>),
    /// In memory of their own.
    Long(Vec<u8>),
}

/// Bytes of any kind, which may be a secret or a password. A contract sees the list of them.
#[derive(Drop)]
pub struct Bytes {
    held: Held,
    alloc: Global,
}

impl Model for Bytes {
    ghost Value = { List ℕ };

    ghost view = { λ b. held_bytes b.held };
}

impl Bytes {
    /// The bytes of the vector. It takes no memory.
    pub fn new(bytes: Vec<u8>) -> Bytes
        ensures { result ≡ bytes.items }
    {
        Bytes {
            alloc: *bytes.allocator(),
            held: Held::Long(bytes),
        }
    }

    /// A copy of the bytes. It takes no memory if there are at most 32.
    pub fn from_slice(alloc: Global, bytes: &[u8]) -> Result<Bytes, OutOfMemory>
        ensures { IfOk result (λ made. made ≡ bytes.now) }
    {
        let mut short = ArrayVec::new();
        let held = match short.try_extend_from_slice(bytes) {
            Ok(()) => Held::Short(short),
            Err(_) => Held::Long(Vec::from_slice(alloc, bytes)?),
        };
        Ok(Bytes { held, alloc })
    }

    /// The bytes, borrowed.
    pub fn as_slice(&self) -> &[u8]
        ensures { result.now ≡ self.now }
    {
        match &self.held {
            Held::Short(bytes) => bytes.as_slice(),
            Held::Long(bytes) => bytes.as_slice(),
        }
    }

    /// The bytes as a vector. It takes no memory if they are in memory of their own.
    pub fn into_vec(self) -> Result<Vec<u8>, OutOfMemory>
        ensures { IfOk result (λ vec. vec.items ≡ self) }
    {
        let Bytes { held, alloc } = self;
        match held {
            Held::Short(bytes) => Vec::from_slice(alloc, bytes.as_slice()),
            Held::Long(bytes) => Ok(bytes),
        }
    }

    /// The number of bytes.
    pub fn len(&self) -> usize
        ensures { result ≡ length self.now }
    {
        self.as_slice().len()
    }

    /// Whether there are no bytes.
    pub fn is_empty(&self) -> bool
        ensures { IsTrue result ↔ (self.now ≡ []) }
    {
        self.as_slice().is_empty()
    }

    /// A copy of the bytes, with the same allocator.
    pub fn copy(&self) -> Result<Bytes, OutOfMemory>
        ensures { IfOk result (λ copied. copied ≡ self.now) }
    {
        Bytes::from_slice(self.alloc, self.as_slice())
    }
}

impl PartialEq for Bytes {
    ghost eq = { pointwise nat_eq };

    ghost laws = { partial_equiv_from_equiv nat_list_eq_equiv };

    fn eq(&self, other: &Bytes) -> bool {
        self.as_slice() == other.as_slice()
    }
}

impl Eq for Bytes {
    ghost laws = { nat_list_eq_equiv };
}

impl PartialOrd for Bytes {
    ghost partial_cmp = { λ x y. Some (slice_cmp nat_cmp x y) };

    ghost laws = { texts_po };

    fn partial_cmp(&self, other: &Bytes) -> Option<Ordering> {
        Some(self.cmp(other))
    }
}

impl Ord for Bytes {
    ghost cmp = { slice_cmp nat_cmp };

    ghost total = { nat_list_cmp_total };

    ghost matches_partial_cmp = { λ x y. refl };

    ghost matches_eq = { texts_ties };

    fn cmp(&self, other: &Bytes) -> Ordering {
        self.as_slice().cmp(other.as_slice())
    }
}

// Bytes may be a secret, so a message or a log shows only how many there are.
impl fmt::Debug for Bytes {
    ghost debug_output = { λ b. Some (decimal (length b) ++ codes " bytes") };

    fn fmt<W: fmt::Write>(&self, f: &mut fmt::Formatter<W>) -> fmt::Result {
        let len = self.len();
        write!(f, "{len} bytes")
    }
}
