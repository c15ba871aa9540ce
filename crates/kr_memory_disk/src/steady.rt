// A folder that never fails, and its slots. They say nothing of crashes to the trait: keeping the bytes
// of every file takes memory, which may be refused, so a slot that never fails can't be an honest one.
ghost use Rattle.std.specs.Prelude.{◌≡◌, ◌<◌, ◌≤◌, ◌∷◌, [], Ok, None, Some, IfOk, IfErr, OnOk, OnErr, IsOk, length, max, take, true, false, vec_len, vec_capacity};
ghost use Rattle.std.proofs.Common.{rules};
ghost use Rattle.kr_outside.specs.Folder.{Lists};
ghost use Rattle.kr_outside.specs.RenameDisk.{Unknown, Reads, FitsIn, size_of};
ghost use Rattle.kr_memory_disk.specs.Files.{image_in};
ghost use Rattle.kr_memory_disk.specs.Steady.{renamed};

use crate::files::Files;
use crate::folder::names_of;
use crate::slot::fill;
use kr_base::{Bytes, OutOfMemory, Text};
use kr_outside::{Failed, Folder, OutsideRefused, Seen, Slot};
use std::alloc::Global;
use std::marker::Model;
use std::mem;

/// A slot that never fails. It keeps the first bytes of a file that is put, as many as it has room
/// for, and drops those after them.
#[derive(Drop)]
pub struct SteadySlot {
    file: Vec<u8>,
    has_file: bool,
    temporary: Vec<u8>,
    has_temporary: bool,
    room: usize,
    answered: Option<Seen>,
}

impl Model for SteadySlot {
    ghost use Rattle.std.specs.Prelude.{◌≤◌, vec_capacity};
    ghost use Rattle.kr_memory_disk.specs.Steady.{SteadySlotState, image_if};

    ghost Value = { SteadySlotState };

    ghost view = { λ s. record {
      image = image_if s.has_file s.file.items;
      temporary = image_if s.has_temporary s.temporary.items;
      room = s.room;
      answered = s.answered;
    } };

    ghost invariant = { λ s.
        (s.room ≤ vec_capacity s.file) × (s.room ≤ vec_capacity s.temporary) };
}

impl SteadySlot {
    /// A slot of a name that stands for this image, with memory for `room` bytes of a
    /// file written later.
    ///
    /// Refused if there is no memory for the room.
    pub fn new(alloc: Global, image: Option<Bytes>, room: usize) -> Result<SteadySlot, OutOfMemory>
        ensures { IfOk result (λ slot. slot ≡ record {
          image = image;
          temporary = None;
          room = room;
          answered = None;
        }) }
    {
        let temporary = Vec::with_capacity(alloc, room)?;
        let (mut file, has_file) = match image {
            None => (Vec::new(alloc), false),
            Some(bytes) => (bytes.into_vec()?, true),
        };
        file.reserve(room)?;
        Ok(SteadySlot {
            file,
            has_file,
            temporary,
            has_temporary: false,
            room,
            answered: None,
        })
    }
}

impl Slot for SteadySlot {
    ghost seen = { λ s. s.image };

    ghost temporary = { λ _. Unknown };

    ghost may_leave = { λ _ _. Unit {0} };

    ghost moment = { λ _. 0 };

    ghost left_since = { λ _ _ _. Unit {0} };

    ghost faults = { λ _. 0 };

    ghost failed = { λ _. None };

    ghost answered = { λ s. s.answered };

    ghost is_honest = { λ _. false };

    ghost is_steady = { λ _. true };

    ghost may_leave_seen = { λ _ _. tt };

    ghost counts_now = { λ _ _ _ _ _ _. tt };

    ghost only_now = { λ _ _ _ _. tt };

    ghost steady_below = { Prim.search rules };

    fn size(&mut self) -> Result<Option<u64>, Failed>
        ensures answer { result ≡ Ok (size_of self.old.image) }
        ensures unchanged { self.new ≡ self.old }
    {
        Ok(if self.has_file {
            Some(self.file.len() as u64)
        } else {
            None
        })
    }

    fn read(&mut self, buffer: &mut [u8]) -> Result<Seen, Failed>
        ensures answers { IsOk result }
        ensures answer { IfOk result (Reads self.old.image buffer.new) }
        ensures fits { IfOk result (FitsIn (length buffer.new)) }
        ensures told { IfOk result (λ seen. self.new.answered ≡ Some seen) }
        ensures same { self.new ≡ record self.old { answered = self.new.answered } }
    {
        let seen = if self.has_file {
            fill(&self.file, buffer)
        } else {
            Seen::Missing
        };
        self.answered = Some(seen);
        Ok(seen)
    }

    fn put_temp(&mut self, bytes: &[u8]) -> Result<(), Failed>
        ensures answers { IsOk result }
        ensures put { self.new
            ≡ record self.old { temporary = Some (take self.old.room bytes.now) } }
    {
        keep(&mut self.temporary, self.room, bytes);
        self.has_temporary = true;
        Ok(())
    }

    fn sync_temp(&mut self) -> Result<(), Failed>
        ensures answers { IsOk result }
        ensures unchanged { self.new ≡ self.old }
    {
        Ok(())
    }

    fn rename(&mut self) -> Result<(), Failed>
        ensures answers { IsOk result }
        ensures renamed { self.new ≡ renamed self.old }
    {
        if self.has_temporary {
            mem::swap(&mut self.file, &mut self.temporary);
            self.has_file = true;
            self.has_temporary = false;
        }
        Ok(())
    }

    fn sync_folder(&mut self) -> Result<(), Failed>
        ensures answers { IsOk result }
        ensures unchanged { self.new ≡ self.old }
    {
        Ok(())
    }

    fn remove(&mut self) -> Result<(), Failed>
        ensures answers { IsOk result }
        ensures removed { self.new ≡ record self.old { image = None } }
    {
        self.has_file = false;
        Ok(())
    }
}

// Replaces the kept bytes by the first of these, as many as there is room for; the memory for the
// room is there already.
fn keep(kept: &mut Vec<u8>, room: usize, bytes: &[u8])
    requires { room ≤ vec_capacity kept.old }
    ensures front { kept.new.items ≡ take room bytes.now }
    ensures reserved { room ≤ vec_capacity kept.new }
{
    kept.clear();
    kept.extend_from_slice(&bytes[..room.min(bytes.len())])
        .unwrap();
}

/// A folder that never fails, with slots that never do.
#[derive(Drop)]
pub struct SteadyFolder {
    alloc: Global,
    files: Files,
    room: usize,
    made: Vec<Bytes>,
}

impl Model for SteadyFolder {
    ghost use Rattle.std.specs.Prelude.{reverse};
    ghost use Rattle.kr_memory_disk.specs.Steady.{SteadyFolderState};

    ghost Value = { SteadyFolderState };

    ghost view = { λ f. record {
      files = f.files;
      room = f.room;
      made = reverse f.made.items;
    } };
}

impl SteadyFolder {
    /// A folder of these files, whose slots have memory for `room` bytes of a file written later.
    pub fn new(alloc: Global, files: Files, room: usize) -> SteadyFolder
        ensures { result ≡ record { files = files; room = room; made = [] } }
    {
        SteadyFolder {
            alloc,
            files,
            room,
            made: Vec::new(alloc),
        }
    }
}

impl Folder for SteadyFolder {
    type Cell = SteadySlot;

    ghost images = { λ f name. image_in f.files name };

    ghost may_leave = { λ _ _ _. Unit {0} };

    ghost made = { λ f. f.made };

    ghost faults = { λ _. 0 };

    ghost is_honest = { λ _. false };

    ghost is_steady = { λ _. true };

    ghost steady_below = { Prim.search rules };

    fn sync(&mut self) -> Result<(), Failed>
        ensures answers { IsOk result }
        ensures unchanged { self.new ≡ self.old }
    {
        Ok(())
    }

    fn names(&mut self) -> Result<Vec<Text>, OutsideRefused>
        ensures listed { IfOk result (λ names.
            Lists self.old.made (λ name. image_in self.old.files name) names.items) }
        ensures memory { IfErr result (λ refused. refused ≡ OutsideRefused.OutOfMemory) }
        ensures unchanged { self.new ≡ self.old }
    {
        names_of(&self.files)
    }

    fn slot(&mut self, name: &str) -> Result<SteadySlot, OutOfMemory>
        ensures slot { IfOk result (λ slot. slot ≡ record {
          image = image_in self.old.files name.now;
          temporary = None;
          room = self.old.room;
          answered = None;
        }) }
        ensures made { OnOk result
            (self.new ≡ record self.old { made = name.now ∷ self.old.made }) }
        ensures unchanged { OnErr result (self.new ≡ self.old) }
    {
        let image = self.files.copy_of(name)?;
        let slot = SteadySlot::new(self.alloc, image, self.room)?;
        let made = Bytes::from_slice(self.alloc, name.as_bytes())?;
        match self.made.push(made) {
            Ok(()) => Ok(slot),
            Err(refused) => Err(refused.into()),
        }
    }
}
