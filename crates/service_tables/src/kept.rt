// The slots that a disk keeps without a collection.
ghost use Rattle.std.specs.Prelude.{◌≡◌, IsTrue, None};
ghost use Rattle.kr_outside.specs.RenameDisk.{Only};
ghost use Rattle.replace_slot.specs.Cell.{Known};
ghost use Rattle.service_tables.specs.Slots.{LeavesKnown};

use kr_outside::Slot;
use replace_slot::FileCell;
use std::marker::Model;

/// A slot without a collection: if it is honest, a crash leaves no file of it.
#[derive(Drop)]
pub struct KeptSlot<S: Slot> {
    slot: S,
}

impl<S: Slot> Model for KeptSlot<S> {
    ghost use Rattle.std.specs.Prelude.{IsTrue, None};
    ghost use Rattle.kr_outside.specs.RenameDisk.{Only};

    ghost Value = { S };

    ghost view = { λ c. c.slot };

    ghost invariant = { λ c. IsTrue (S.is_honest c.slot) → Only None (S.may_leave c.slot) };
}

impl<S: Slot> KeptSlot<S> {
    /// Keeps a slot. If it is honest, a crash leaves no file of it.
    pub fn new(slot: S) -> KeptSlot<S>
        requires { IsTrue (S.is_honest slot) → Only None (S.may_leave slot) }
        ensures { result ≡ slot }
    {
        KeptSlot { slot }
    }

    /// The cell of the slot, whose file isn't there.
    pub fn into_cell(self) -> FileCell<S>
        ensures slot { result.slot ≡ self }
        ensures file { result.file ≡ Known None }
    {
        FileCell::known(self.slot, None)
    }

    /// A law: while nothing is done with the slot, a crash leaves no file of it at any moment. The call
    /// does nothing.
    pub fn untouched(&self)
        ensures { LeavesKnown S.is_honest S.moment S.left_since (Known None) self.now }
    {
        // Shows what the type keeps of the slot.
        let _slot = &self.slot;
    }
}
