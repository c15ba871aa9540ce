// A doubt that ends with neither of its images, over a slot that doesn't behave as the rename disk does: it
// reads a file that nobody wrote.
ghost use Rattle.std.specs.Prelude.{◌≡◌, ◌≤◌, None, Some, IfOk, IsErr, IsOk, false, length};
ghost use Rattle.std.proofs.Common.{rules};
ghost use Rattle.keyring_file.specs.ClearText.{HasClear};
ghost use Rattle.kr_outside.specs.Faults.{Rose};
ghost use Rattle.kr_outside.specs.RenameDisk.{FitsIn, Unknown};
ghost use Rattle.replace_slot.specs.Cell.{IsKnownFile};

use crate::checks::same_text;
use crate::damage::whole;
use crate::faults::lived;
use crate::made::clear_of;
use collection_store::Collection;
use kr_base::Bytes;
use kr_outside::{DeviceCall, Failed, Seen, Slot};
use replace_slot::{FileCell, Image};
use std::alloc::Global;
use std::test::Fail;

/// A slot whose renames all fail, and which has this file whatever is done.
#[derive(Drop)]
pub struct StrangeSlot {
    file: Option<Bytes>,
    faults: u64,
    failed: Option<DeviceCall>,
    answered: Option<Seen>,
}

impl StrangeSlot {
    fn pass(&mut self)
        ensures failed { self.new.failed ≡ None }
        ensures faults { self.new.faults ≡ self.old.faults }
    {
        self.failed = None;
    }

    fn fail(&mut self, call: DeviceCall) -> Failed
        ensures failed { self.new.failed ≡ Some call }
        ensures rose { Rose self.old.faults self.new.faults }
        ensures later { self.old.faults ≤ self.new.faults }
    {
        self.faults = self.faults.saturating_add(1);
        self.failed = Some(call);
        Failed
    }
}

// Reads a file to the start of a buffer.
fn fill(bytes: &[u8], buffer: &mut [u8]) -> Seen
    ensures { FitsIn (length buffer.new) result }
{
    if bytes.len() > buffer.len() {
        return Seen::Longer;
    }
    buffer[..bytes.len()].copy_from_slice(bytes);
    Seen::Whole(bytes.len())
}

impl Slot for StrangeSlot {
    ghost seen = { λ _. None };

    ghost temporary = { λ _. Unknown };

    ghost may_leave = { λ _ _. Unit {0} };

    ghost moment = { λ _. 0 };

    ghost left_since = { λ _ _ _. Unit {0} };

    ghost faults = { λ s. s.faults };

    ghost failed = { λ s. s.failed };

    ghost answered = { λ s. s.answered };

    ghost is_honest = { λ _. false };

    ghost is_steady = { λ _. false };

    ghost may_leave_seen = { λ _ _. tt };

    ghost counts_now = { λ _ _ _ _ _ _. tt };

    ghost only_now = { λ _ _ _ _. tt };

    ghost steady_below = { Prim.search rules };

    fn size(&mut self) -> Result<Option<u64>, Failed>
        ensures answers { IsOk result }
        ensures failed { self.new.failed ≡ None }
        ensures faults { self.new.faults ≡ self.old.faults }
    {
        self.pass();
        Ok(None)
    }

    fn read(&mut self, buffer: &mut [u8]) -> Result<Seen, Failed>
        ensures answers { IsOk result }
        ensures fits { IfOk result (FitsIn (length buffer.new)) }
        ensures told { IfOk result (λ seen. self.new.answered ≡ Some seen) }
        ensures failed { self.new.failed ≡ None }
        ensures faults { self.new.faults ≡ self.old.faults }
    {
        self.pass();
        let seen = match &self.file {
            None => Seen::Missing,
            Some(bytes) => fill(bytes.as_slice(), buffer),
        };
        self.answered = Some(seen);
        Ok(seen)
    }

    fn put_temp(&mut self, _bytes: &[u8]) -> Result<(), Failed>
        ensures answers { IsOk result }
        ensures failed { self.new.failed ≡ None }
        ensures faults { self.new.faults ≡ self.old.faults }
    {
        self.pass();
        Ok(())
    }

    fn sync_temp(&mut self) -> Result<(), Failed>
        ensures answers { IsOk result }
        ensures failed { self.new.failed ≡ None }
        ensures faults { self.new.faults ≡ self.old.faults }
    {
        self.pass();
        Ok(())
    }

    fn rename(&mut self) -> Result<(), Failed>
        ensures fails { IsErr result }
        ensures failed { self.new.failed ≡ Some DeviceCall.Rename }
        ensures rose { Rose self.old.faults self.new.faults }
        ensures later { self.old.faults ≤ self.new.faults }
    {
        Err(self.fail(DeviceCall::Rename))
    }

    fn sync_folder(&mut self) -> Result<(), Failed>
        ensures answers { IsOk result }
        ensures failed { self.new.failed ≡ None }
        ensures faults { self.new.faults ≡ self.old.faults }
    {
        self.pass();
        Ok(())
    }

    fn remove(&mut self) -> Result<(), Failed>
        ensures answers { IsOk result }
        ensures failed { self.new.failed ≡ None }
        ensures faults { self.new.faults ≡ self.old.faults }
    {
        self.pass();
        Ok(())
    }
}

// The file of a row: none, one that is longer than the buffer of a resolve, or one with these bytes.
fn file_of(alloc: Global, word: &str) -> Result<Option<Bytes>, Fail> {
    if word == "none" {
        return Ok(None);
    }
    if word == "longer" {
        let zeros = vec![in alloc; 0; 2000]?;
        return Ok(Some(Bytes::from_slice(alloc, zeros.as_slice())?));
    }
    Ok(Some(Bytes::from_slice(alloc, word.as_bytes())?))
}

// A cell of a strange slot, whose file is taken to be this image.
fn cell_of(alloc: Global, file: Option<Bytes>, image: &[u8]) -> Result<FileCell<StrangeSlot>, Fail>
    ensures { IfOk result (λ cell. IsKnownFile (λ bytes. bytes ≡ image.now) cell.file) }
{
    let image = Image::new(alloc, image.to_vec(alloc)?)?;
    let slot = StrangeSlot {
        file,
        faults: 0,
        failed: None,
        answered: None,
    };
    Ok(FileCell::known(slot, Some(image)))
}

// A collection over a strange slot. Its file has an item with the attributes k=v and l=w.
fn strange(alloc: Global, file: Option<Bytes>) -> Result<Collection<StrangeSlot>, Fail> {
    let image = whole(alloc)?;
    let clear = clear_of(alloc, image.as_slice())?;
    let cell = cell_of(alloc, file, image.as_slice())?;
    Ok(Collection::loaded(alloc, cell, clear)?)
}

// What a read returns after the doubt.
const FILES: &str = "none, longer, GnomeKeyring, other";

// What comes of loading the collection, of unlocking it, of a change, of ending the doubt that the change led
// to, and of unlocking it again: the answers, the states, and the ids of the items with k=v.
const FOUND: &str = "loaded locked, ok open 1, unsure doubt 1, other locked 1, ok open 1";

fn found(alloc: Global, file: &str) -> Result<String, Fail> {
    let collection = strange(alloc, file_of(alloc, file)?)?;
    let (told, _) = lived(alloc, collection, "password add resolve password", "loaded")?;
    Ok(told)
}

#[test]
fn a_doubt_that_ends_with_neither_image_leaves_the_older_one_locked(
    rt: HostRuntime,
) -> Result<(), Fail> {
    for file in FILES.split(", ") {
        let found = found(rt.alloc(), file)?;
        same_text(&rt, found.as_str(), FOUND, file);
    }
    Ok(())
}
