ghost use Rattle.std.specs.Prelude.{◌≡◌, IsTrue, IfOk, IfErr};
ghost use Rattle.kr_outside.specs.RenameDisk.{Only};
ghost use Rattle.alias_text.specs.Pairs.{GivesAliases};
ghost use Rattle.replace_slot.specs.Cell.{Known, IsKnownImage};
ghost use Rattle.folder_store.specs.Walk.{image_of};

use alias_text::read_aliases;
use kr_base::{OutOfMemory, Stem, Text};
use kr_outside::Slot;
use replace_slot::{FileCell, Image};
use std::alloc::{AllocFailed, Global};
use std::marker::Model;

/// The file of the aliases: its cell, and the aliases in byte order of their names, each with its
/// stem. The file is known, and the aliases are those of its image; if there is no file, there are
/// none.
#[derive(Drop)]
pub struct AliasFile<S: Slot> {
    cell: FileCell<S>,
    pairs: Vec<(Text, Stem)>,
}

impl<S: Slot> Model for AliasFile<S> {
    ghost use Rattle.alias_text.specs.Pairs.{GivesAliases};
    ghost use Rattle.replace_slot.specs.Cell.{IsKnownImage};
    ghost use Rattle.folder_store.specs.Ring.{AliasState};

    ghost Value = { AliasState S };

    ghost view = { λ a. record { cell = a.cell; pairs = a.pairs.items } };

    ghost invariant = { λ a. IsKnownImage (λ image. GivesAliases image a.pairs.items) a.cell.file };
}

impl<S: Slot> AliasFile<S> {
    /// The aliases of a file that is known to have this image, or not to exist.
    ///
    /// Refused if no memory was left; the slot is returned then.
    pub fn read(
        alloc: Global,
        slot: S,
        image: Option<Vec<u8>>,
    ) -> Result<AliasFile<S>, AllocFailed<S>>
        requires { IsTrue (S.is_honest slot) → Only (image_of image) (S.may_leave slot) }
        ensures read { IfOk result (λ file.
            file.cell ≡ record { slot = slot; file = Known (image_of image) }) }
        ensures returned { IfErr result (λ failed. failed.value ≡ slot) }
    {
        match parsed(alloc, image) {
            Ok((pairs, image)) => Ok(AliasFile {
                cell: FileCell::known(slot, image),
                pairs,
            }),
            Err(_) => Err(AllocFailed { value: slot }),
        }
    }

    /// The aliases, borrowed, in order.
    pub fn pairs(&self) -> &[(Text, Stem)]
        ensures value { result.now ≡ self.now.pairs }
        ensures shown { IsKnownImage (λ image. GivesAliases image self.now.pairs)
            self.now.cell.file }
    {
        &self.pairs
    }

    /// The cell and the aliases. It takes no memory.
    pub fn into_parts(self) -> (FileCell<S>, Vec<(Text, Stem)>)
        ensures cell { result.0 ≡ self.cell }
        ensures pairs { result.1.items ≡ self.pairs }
        ensures shown { IsKnownImage (λ image. GivesAliases image self.pairs) self.cell.file }
    {
        (self.cell, self.pairs)
    }
}

// The aliases of an image, and the image.
fn parsed(
    alloc: Global,
    image: Option<Vec<u8>>,
) -> Result<(Vec<(Text, Stem)>, Option<Image>), OutOfMemory>
    ensures pairs { IfOk result (λ both. GivesAliases (image_of image) both.0.items) }
    ensures image { IfOk result (λ both. both.1 ≡ image_of image) }
{
    let pairs = pairs_of(alloc, &image)?;
    let image = shared(alloc, image)?;
    Ok((pairs, image))
}

// The aliases of an image.
fn pairs_of(alloc: Global, image: &Option<Vec<u8>>) -> Result<Vec<(Text, Stem)>, OutOfMemory>
    ensures { IfOk result (λ pairs. GivesAliases (image_of image.now) pairs.items) }
{
    match image {
        Some(bytes) => read_aliases(alloc, bytes),
        None => Ok(Vec::new(alloc)),
    }
}

// The image with these bytes, or no file if there are none.
fn shared(alloc: Global, bytes: Option<Vec<u8>>) -> Result<Option<Image>, OutOfMemory>
    ensures { IfOk result (λ image. image ≡ image_of bytes) }
{
    match bytes {
        Some(bytes) => Ok(Some(Image::new(alloc, bytes)?)),
        None => Ok(None),
    }
}
