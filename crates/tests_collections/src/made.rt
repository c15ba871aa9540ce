// A collection that is made, or loaded from an image.
ghost use Rattle.std.specs.Prelude.{◌≡◌, IfOk};
ghost use Rattle.keyring_file.specs.ClearText.{HasClear};
ghost use Rattle.replace_slot.specs.Cell.{IsKnownFile};

use crate::words::{key_of, text_of};
use collection_store::{Collection, CreateRefused};
use keyring_file::{Clear, read_clear};
use kr_base::Bytes;
use kr_memory_disk::MemorySlot;
use replace_slot::{FileCell, Image};
use std::alloc::Global;
use std::test::Fail;

/// A collection that was made, perhaps in doubt, or the slot of one that wasn't.
#[derive(Drop)]
pub enum Outcome {
    /// The collection.
    Collection(Collection<MemorySlot>),
    /// The slot.
    Slot(MemorySlot),
}

// The answer in a word, and what was made.
fn answered(
    made: Result<Collection<MemorySlot>, CreateRefused<MemorySlot>>,
) -> (&'static str, Outcome) {
    match made {
        Ok(collection) => ("ok", Outcome::Collection(collection)),
        Err(CreateRefused::TooLarge(cell)) => ("too large", Outcome::Slot(cell.into_slot())),
        Err(CreateRefused::FaultBefore(cell)) => ("before", Outcome::Slot(cell.into_slot())),
        Err(CreateRefused::FaultUnsure(collection)) => ("unsure", Outcome::Collection(collection)),
        Err(CreateRefused::OutOfMemory(cell)) => ("no memory", Outcome::Slot(cell.into_slot())),
    }
}

/// Makes a collection at the time 100, with this many bytes of room, over a slot without a file
/// that fails the calls with these numbers; those named again the disk performs nevertheless.
pub fn create(
    alloc: Global,
    failing: Vec<u64>,
    done: Vec<u64>,
    room: u64,
) -> Result<(&'static str, Outcome), Fail> {
    let slot = MemorySlot::new(alloc, None, failing, done);
    let cell = FileCell::known(slot, None);
    let label = text_of(alloc, "login")?;
    let key = key_of(alloc, "password")?;
    Ok(answered(Collection::create(alloc, cell, label, key, 100, room)))
}

/// A collection that is made over a slot that doesn't fail.
pub fn made(alloc: Global) -> Result<Collection<MemorySlot>, Fail> {
    let (_, made) = create(alloc, Vec::new(alloc), Vec::new(alloc), 1000)?;
    match made {
        Outcome::Collection(collection) => Ok(collection),
        Outcome::Slot(_slot) => Err("made")?,
    }
}

/// The clear part of an image.
pub fn clear_of(alloc: Global, image: &[u8]) -> Result<Clear, Fail>
    ensures { IfOk result (HasClear image.now) }
{
    match read_clear(alloc, image) {
        Ok((clear, _)) => Ok(clear),
        Err(_) => Err("clear")?,
    }
}

// A cell of an image that is the file.
fn cell_of(alloc: Global, image: Bytes) -> Result<FileCell<MemorySlot>, Fail>
    ensures { IfOk result (λ cell. IsKnownFile (λ bytes. bytes ≡ image) cell.file) }
{
    let bytes = Image::new(alloc, image.as_slice().to_vec(alloc)?)?;
    let slot = MemorySlot::new(alloc, Some(image), Vec::new(alloc), Vec::new(alloc));
    Ok(FileCell::known(slot, Some(bytes)))
}

/// A collection whose file has these bytes.
pub fn loaded(alloc: Global, image: Bytes) -> Result<Collection<MemorySlot>, Fail> {
    let clear = clear_of(alloc, image.as_slice())?;
    let cell = cell_of(alloc, image)?;
    Ok(Collection::loaded(alloc, cell, clear)?)
}
