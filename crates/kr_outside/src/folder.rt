ghost use Rattle.std.specs.Prelude.{◌≡◌, ℕ, Bool, IsTrue, List, [], ◌∷◌, Contains, Option, IfOk, OnOk, OnErr, IsErr, IsErrOf};
ghost use Rattle.kr_outside.specs.Faults.{IsBelowLast};
ghost use Rattle.kr_outside.specs.Folder.{Lists, Stays, IsSettled};
ghost use Rattle.kr_outside.specs.RenameDisk.{Unknown, LeavesNoMore};
ghost use Rattle.kr_outside.specs.Slot.{KeepsNature};

use crate::{Failed, Slot};
use kr_base::{OutOfMemory, Text};
use thiserror::Error;

/// Why a call of the outside that takes memory was refused.
#[derive(Clone, Copy, Debug, PartialEq, Eq, Error)]
pub enum OutsideRefused {
    /// The device failed in this call.
    #[error("the device failed")]
    Failed,
    /// No memory was left.
    #[error("out of memory")]
    OutOfMemory,
}

/// A folder of files, each under a name of its own.
///
/// What the clauses say of names and content is about an honest folder, and about the names of
/// which no slot was made: once a slot is made of a name, the slot says what happens to it.
pub trait Folder: Drop {
    /// The slot of a name.
    type Cell: Slot;

    /// What a slot made of a name would read: the bytes of a file, or no file.
    ghost images: { Self → List ℕ → Option (List ℕ) };

    /// The images that a crash at this moment may leave under a name.
    ghost may_leave: { Self → List ℕ → Option (List ℕ) → Type 0 };

    /// The names of which slots were made.
    ghost made: { Self → List (List ℕ) };

    /// How often the folder has failed. The count never falls, and stays at 2^64 - 1.
    ghost faults: { Self → ℕ };

    /// Whether the folder behaves as the rename disk does, and nobody else writes it.
    ghost is_honest: { Self → Bool };

    /// Whether the folder never fails, so that its count never rises.
    ghost is_steady: { Self → Bool };

    /// Puts on the disk what each name stands for: from then on a crash leaves what a read returns.
    ///
    /// Refused with `Failed` only if the count of faults rose.
    fn sync(&mut self) -> Result<(), Failed>
        ensures settled { IsTrue (is_honest self.old)
            → OnOk result (IsSettled (made self.old) (images self.new) (may_leave self.new)) }
        ensures stays { IsTrue (is_honest self.old)
            → Stays images may_leave (made self.old) self.old self.new }
        ensures made { made self.new ≡ made self.old }
        ensures kept { KeepsNature is_honest is_steady faults (IsErr result) self.old self.new };

    /// The names of all files, each once, in any order.
    ///
    /// Refused with `Failed` only if the count of faults rose, and with `OutOfMemory` if no
    /// memory was left.
    fn names(&mut self) -> Result<Vec<Text>, OutsideRefused>
        ensures listed { IsTrue (is_honest self.old)
            → IfOk result (λ names. Lists (made self.old) (images self.old) names.items) }
        ensures stays { IsTrue (is_honest self.old)
            → Stays images may_leave (made self.old) self.old self.new }
        ensures made { made self.new ≡ made self.old }
        ensures kept { KeepsNature is_honest is_steady faults (IsErrOf result OutsideRefused.Failed)
            self.old self.new };

    /// The slot of a name, with no fault counted yet; nothing is known of its temporary file. A
    /// name that `names` didn't return stands for no file. At no earlier moment of the slot's clock
    /// might a crash have left what it may not leave now. A slot is made once of each name: nothing
    /// is known of a second one.
    ///
    /// Refused if no memory was left; no slot was made then.
    fn slot(&mut self, name: &str) -> Result<Self::Cell, OutOfMemory>
        ensures seen { IsTrue (is_honest self.old) → ¬ (Contains (made self.old) name.now)
            → IfOk result (λ cell. Self.Cell.seen cell ≡ images self.old name.now) }
        ensures crash { IsTrue (is_honest self.old) → ¬ (Contains (made self.old) name.now)
            → IfOk result (λ cell.
            LeavesNoMore (may_leave self.old name.now) (Self.Cell.may_leave cell)) }
        ensures any_moment { IsTrue (is_honest self.old) → ¬ (Contains (made self.old) name.now)
            → IfOk result (λ cell. LeavesNoMore (may_leave self.old name.now)
            (Self.Cell.left_since cell 0)) }
        ensures temporary { IsTrue (is_honest self.old)
            → IfOk result (λ cell. Self.Cell.temporary cell ≡ Unknown) }
        ensures fresh { IfOk result (λ cell. Self.Cell.faults cell ≡ 0) }
        ensures honest_slot { IfOk result (λ cell. Self.Cell.is_honest cell ≡ is_honest self.old) }
        ensures steady_slot { IfOk result (λ cell. Self.Cell.is_steady cell ≡ is_steady self.old) }
        ensures made { OnOk result (made self.new ≡ name.now ∷ made self.old) }
        ensures made_none { OnErr result (made self.new ≡ made self.old) }
        ensures stays { IsTrue (is_honest self.old)
            → Stays images may_leave (made self.new) self.old self.new }
        ensures honest { is_honest self.new ≡ is_honest self.old }
        ensures count { faults self.new ≡ faults self.old }
        ensures steady { is_steady self.new ≡ is_steady self.old };

    /// The count of a steady folder isn't at its maximum: as it never rises, no call fails.
    ghost steady_below: { (folder : Self) → IsBelowLast (is_steady folder) (faults folder) };
}
