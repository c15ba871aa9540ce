ghost use Rattle.std.specs.Prelude.{◌≡◌, IsTrue, IfOk, IfErr};
ghost use Rattle.kr_outside.specs.RenameDisk.{Only};
ghost use Rattle.alias_text.specs.Pairs.{longest};
ghost use Rattle.folder_store.specs.Aliases.{AreFound, alias_slot, pairs_in};
ghost use Rattle.folder_store.specs.Walk.{Looks};

use crate::alias_file::AliasFile;
use crate::reading::Look;
use kr_base::{Stem, Text};
use kr_outside::Slot;
use std::alloc::{AllocFailed, Global};

/// What is found of the aliases at startup.
#[derive(Drop)]
pub enum FoundAliases<S: Slot> {
    /// There is no file, or one of at most 1,048,576 bytes, which was read.
    Read(AliasFile<S>),
    /// There is a longer file. It was left alone and counts as no aliases; its slot is kept here.
    LeftAlone(S),
}

impl<S: Slot> FoundAliases<S> {
    /// The aliases, borrowed, in byte order of their names; none if the file was left alone.
    pub fn pairs(&self) -> &[(Text, Stem)]
        ensures { result.now ≡ pairs_in self.now }
    {
        match self {
            FoundAliases::Read(file) => file.pairs(),
            FoundAliases::LeftAlone(_) => &[],
        }
    }
}

/// The aliases as found in a file that was settled and looked at.
///
/// Refused if no memory was left; the slot is returned then.
pub fn found_by<S: Slot>(
    alloc: Global,
    slot: S,
    look: Look,
) -> Result<FoundAliases<S>, AllocFailed<S>>
    requires looked { IsTrue (S.is_honest slot) → Looks longest (S.seen slot) look }
    requires settled { IsTrue (S.is_honest slot) → Only (S.seen slot) (S.may_leave slot) }
    ensures found { IfOk result (AreFound (S.is_honest slot) (S.seen slot)) }
    ensures slot { IfOk result (λ found. alias_slot found ≡ slot) }
    ensures returned { IfErr result (λ failed. failed.value ≡ slot) }
{
    match look {
        Look::Whole(image) => match AliasFile::read(alloc, slot, image) {
            Ok(file) => Ok(FoundAliases::Read(file)),
            Err(failed) => Err(failed),
        },
        Look::Longer => Ok(FoundAliases::LeftAlone(slot)),
    }
}
