ghost use Rattle.std.specs.Prelude.{◌≡◌, ◌≤◌, ◌⊎◌, [], None, Some, IsNone, IfSome, IfOk, OnOk, OnErr, true, false, length, take};
ghost use Rattle.std.proofs.Common.{rules};
ghost use Rattle.kr_outside.specs.Faults.{Rose, HasCause, EndsAs};
ghost use Rattle.kr_outside.specs.RenameDisk.{FitsIn, Reads, Unsynced, synced, size_of, Only, GivesTemporary, LeavesTemporary, LeavesNoMore, LeavesAlso, LeavesAnyBytes};
ghost use Rattle.kr_memory_disk.specs.Slot.{IsPlanned, IsNoted, device_call, with_fault, slot_seen, slot_temporary, slot_may_leave, slot_count_left, slot_left, slot_moment, slot_left_since, IsSlotCall, SlotLooks};
ghost use Rattle.kr_memory_disk.specs.SlotLaws.{leaves_seen, counts_moment, only_moment};

use crate::left::{place_left, places_left, stood};
use crate::place::image_at;
use kr_base::{Bytes, OutOfMemory};
use kr_outside::{DeviceCall, Failed, Seen, Slot};
use std::alloc::Global;
use std::marker::Model;

/// A call of a slot.
#[derive(Drop)]
pub enum SlotCall {
    /// `size`.
    Size,
    /// `read`.
    Read,
    /// `put_temp`, with the bytes.
    PutTemp(Bytes),
    /// `sync_temp`.
    SyncTemp,
    /// `rename`.
    Rename,
    /// `sync_folder`.
    SyncFolder,
    /// `remove`.
    Remove,
}

impl SlotCall {
    /// The kind of this call, without its bytes.
    pub fn device_call(&self) -> DeviceCall
        ensures { result ≡ device_call self.now }
    {
        match self {
            SlotCall::Size => DeviceCall::Size,
            SlotCall::Read => DeviceCall::Read,
            SlotCall::PutTemp(_) => DeviceCall::PutTemp,
            SlotCall::SyncTemp => DeviceCall::SyncTemp,
            SlotCall::Rename => DeviceCall::Rename,
            SlotCall::SyncFolder => DeviceCall::SyncFolder,
            SlotCall::Remove => DeviceCall::Remove,
        }
    }
}

/// How a call of a slot ended.
#[derive(Clone, Copy, PartialEq, Eq)]
pub enum CallEnd {
    /// It was performed.
    Done,
    /// It failed.
    Failed,
    /// It failed, but a rename or a removal was performed on the disk nevertheless.
    FailedDone,
}

/// A call of a slot, with how it ended.
#[derive(Drop)]
pub struct CallRecord {
    /// The call.
    pub call: SlotCall,
    /// How it ended.
    pub end: CallEnd,
}

/// A slot in memory, which records its calls and fails those that its plan lists.
#[derive(Drop)]
pub struct MemorySlot {
    alloc: Global,
    image: Option<Bytes>,
    calls: Vec<CallRecord>,
    failing: Vec<u64>,
    done: Vec<u64>,
    faults: u64,
    failed: Option<DeviceCall>,
    answered: Option<Seen>,
}

impl Model for MemorySlot {
    ghost use Rattle.std.specs.Prelude.{◌-◌, vec_len, vec_capacity};
    ghost use Rattle.kr_memory_disk.specs.Slot.{SlotState};

    ghost Value = { SlotState };

    ghost view = { λ s. record {
      image = s.image;
      calls = s.calls.items;
      failing = s.failing.items;
      done = s.done.items;
      faults = s.faults;
      room = vec_capacity s.calls - vec_len s.calls;
      failed = s.failed;
      answered = s.answered;
    } };
}

impl MemorySlot {
    /// A slot of a name that stands for this image, which no crash undoes. Its calls are numbered
    /// from 0. Call number k fails if k is in `failing`; if k is also in `done`, a rename or a
    /// removal is performed nevertheless, and a read then returns the new image.
    pub fn new(alloc: Global, image: Option<Bytes>, failing: Vec<u64>, done: Vec<u64>) -> MemorySlot
        ensures { result ≡ record {
          image = image;
          calls = [];
          failing = failing.items;
          done = done.items;
          faults = 0;
          room = 0;
          failed = None;
          answered = None;
        } }
    {
        MemorySlot {
            alloc,
            image,
            calls: Vec::new(alloc),
            failing,
            done,
            faults: 0,
            failed: None,
            answered: None,
        }
    }

    /// The record of the calls, the first one first.
    pub fn calls(&self) -> &[CallRecord]
        ensures { result.now ≡ self.now.calls }
    {
        &self.calls
    }

    /// Undoes every call after the first ones, as if the machine had stopped there. The count
    /// of faults stays.
    pub fn cut(&mut self, calls: usize)
        ensures { self.new ≡ record self.old {
          calls = take calls self.old.calls;
          room = self.new.room;
        } }
    {
        self.calls.truncate(calls);
    }

    /// The number of images one of which a crash now leaves: what the name stands for, and what
    /// else it counts as having stood for since the folder was synced.
    ///
    /// Refused if no memory was left.
    pub fn count_left(&self) -> Result<usize, OutOfMemory>
        ensures { IfOk result (λ count. count ≡ slot_count_left self.now) }
    {
        Ok(places_left(self.alloc, &self.calls)?.len())
    }

    /// A copy of an image that a crash now may leave, picked by a number: these images are in
    /// the order in which they came to count, with what the name stands for last, and the
    /// numbers go through them from 0, again and again. Of a file that wasn't synced the image
    /// has all its bytes.
    ///
    /// Refused if no memory was left.
    pub fn left(&self, choice: u64) -> Result<Option<Bytes>, OutOfMemory>
        ensures picked { IfOk result (λ image. image ≡ slot_left self.now choice) }
        ensures may { IfOk result (λ image. slot_may_leave self.now image) }
    {
        let place = place_left(self.alloc, &self.calls, choice)?;
        match image_at(&self.image, &self.calls, place) {
            None => Ok(None),
            Some(bytes) => Ok(Some(Bytes::from_slice(self.alloc, bytes)?)),
        }
    }

    // What the name stands for: the bytes of a file, or no file.
    fn image(&self) -> Option<&[u8]>
        ensures file { IfSome result (λ bytes. slot_seen self.now ≡ Some bytes.now) }
        ensures none { IsNone result → slot_seen self.now ≡ None }
    {
        stood(&self.image, &self.calls)
    }

    // Counts a fault of this call.
    fn fail(&mut self, call: DeviceCall) -> Failed
        ensures counted { self.new ≡ with_fault call self.old }
        ensures later { self.old.faults ≤ self.new.faults }
        ensures rose { Rose self.old.faults self.new.faults }
    {
        self.faults = self.faults.saturating_add(1);
        self.failed = Some(call);
        Failed
    }

    // How the next call should end.
    fn end(&self) -> CallEnd
        ensures { IsPlanned self.now result }
    {
        let number = self.calls.len() as u64;
        if !self.failing.contains(&number) {
            return CallEnd::Done;
        }
        if self.done.contains(&number) {
            CallEnd::FailedDone
        } else {
            CallEnd::Failed
        }
    }

    // Records a call with its planned end. It also fails if there is no memory for the record.
    fn note(&mut self, call: SlotCall) -> Result<(), Failed>
        ensures noted { IsNoted self.old call self.new result }
        ensures cause { HasCause self.old.faults self.new.faults result }
        ensures call { EndsAs (device_call call) self.new.failed result }
    {
        let end = self.end();
        let device = call.device_call();
        if self.calls.reserve(1).is_err() {
            return Err(self.fail(device));
        }
        self.calls.push(CallRecord { call, end }).unwrap();
        match end {
            CallEnd::Done => {
                self.failed = None;
                Ok(())
            }
            CallEnd::Failed | CallEnd::FailedDone => Err(self.fail(device)),
        }
    }
}

impl Slot for MemorySlot {
    ghost seen = { slot_seen };

    ghost temporary = { slot_temporary };

    ghost may_leave = { slot_may_leave };

    ghost moment = { slot_moment };

    ghost left_since = { slot_left_since };

    ghost faults = { λ s. s.faults };

    ghost failed = { λ s. s.failed };

    ghost answered = { λ s. s.answered };

    ghost is_honest = { λ _. true };

    ghost is_steady = { λ _. false };

    ghost may_leave_seen = { λ slot _. leaves_seen slot };

    ghost counts_now = { λ slot t image _ le now. counts_moment slot t image le now };

    ghost only_now = { λ slot image _ left. only_moment slot image left };

    ghost steady_below = { Prim.search rules };

    fn size(&mut self) -> Result<Option<u64>, Failed>
        // What the trait says.
        ensures answer { IfOk result (λ size. size ≡ size_of (slot_seen self.old)) }
        ensures look { SlotLooks self.old self.new }
        ensures call { IsSlotCall DeviceCall.Size self.old self.new result }

        // It fails as planned, and is recorded.
        ensures noted { IsNoted self.old SlotCall.Size self.new result }
    {
        self.note(SlotCall::Size)?;
        Ok(match self.image() {
            None => None,
            Some(bytes) => Some(bytes.len() as u64),
        })
    }

    fn read(&mut self, buffer: &mut [u8]) -> Result<Seen, Failed>
        // What the trait says.
        ensures fits { IfOk result (FitsIn (length buffer.new)) }
        ensures answer { IfOk result (Reads (slot_seen self.old) buffer.new) }
        ensures told { IfOk result (λ seen. self.new.answered ≡ Some seen) }
        ensures look { SlotLooks self.old self.new }
        ensures call { IsSlotCall DeviceCall.Read self.old self.new result }

        // It fails as planned, and is recorded.
        ensures noted { IsNoted self.old SlotCall.Read self.new result }
    {
        self.note(SlotCall::Read)?;
        let seen = match self.image() {
            None => Seen::Missing,
            Some(bytes) => fill(bytes, buffer),
        };
        self.answered = Some(seen);
        Ok(seen)
    }

    fn put_temp(&mut self, bytes: &[u8]) -> Result<(), Failed>
        // What the trait says.
        ensures put { OnOk result (slot_temporary self.new ≡ Unsynced bytes.now) }
        ensures same { slot_seen self.new ≡ slot_seen self.old }
        ensures crash { LeavesNoMore (slot_may_leave self.old) (slot_may_leave self.new) }
        ensures call { IsSlotCall DeviceCall.PutTemp self.old self.new result }

        // It fails as planned, and is recorded.
        ensures noted { IsNoted self.old (SlotCall.PutTemp bytes.now) self.new result }
    {
        match Bytes::from_slice(self.alloc, bytes) {
            Ok(bytes) => self.note(SlotCall::PutTemp(bytes)),
            Err(_) => Err(self.fail(DeviceCall::PutTemp)),
        }
    }

    fn sync_temp(&mut self) -> Result<(), Failed>
        // What the trait says.
        ensures synced { OnOk result
            (slot_temporary self.new ≡ synced (slot_temporary self.old)) }
        ensures same { slot_seen self.new ≡ slot_seen self.old }
        ensures crash { LeavesNoMore (slot_may_leave self.old) (slot_may_leave self.new) }
        ensures call { IsSlotCall DeviceCall.SyncTemp self.old self.new result }

        // It fails as planned, and is recorded.
        ensures noted { IsNoted self.old SlotCall.SyncTemp self.new result }
    {
        self.note(SlotCall::SyncTemp)
    }

    fn rename(&mut self) -> Result<(), Failed>
        // What the trait says.
        ensures renamed { OnOk result
            (GivesTemporary (slot_temporary self.old) (slot_seen self.new)) }
        ensures unsure { OnErr result ((slot_seen self.new ≡ slot_seen self.old)
            ⊎ GivesTemporary (slot_temporary self.old) (slot_seen self.new)) }
        ensures crash { LeavesAlso (slot_may_leave self.old)
            (LeavesTemporary (slot_temporary self.old)) (slot_may_leave self.new) }
        ensures call { IsSlotCall DeviceCall.Rename self.old self.new result }

        // It fails as planned, and is recorded.
        ensures noted { IsNoted self.old SlotCall.Rename self.new result }
    {
        self.note(SlotCall::Rename)
    }

    fn sync_folder(&mut self) -> Result<(), Failed>
        // What the trait says.
        ensures settled { OnOk result (LeavesAnyBytes (slot_may_leave self.old)
            ⊎ Only (slot_seen self.old) (slot_may_leave self.new)) }
        ensures look { SlotLooks self.old self.new }
        ensures call { IsSlotCall DeviceCall.SyncFolder self.old self.new result }

        // It fails as planned, and is recorded.
        ensures noted { IsNoted self.old SlotCall.SyncFolder self.new result }
    {
        self.note(SlotCall::SyncFolder)
    }

    fn remove(&mut self) -> Result<(), Failed>
        // What the trait says.
        ensures removed { OnOk result (slot_seen self.new ≡ None) }
        ensures unsure { OnErr result ((slot_seen self.new ≡ slot_seen self.old)
            ⊎ (slot_seen self.new ≡ None)) }
        ensures crash { LeavesAlso (slot_may_leave self.old) (λ image. image ≡ None)
            (slot_may_leave self.new) }
        ensures call { IsSlotCall DeviceCall.Remove self.old self.new result }

        // It fails as planned, and is recorded.
        ensures noted { IsNoted self.old SlotCall.Remove self.new result }
    {
        self.note(SlotCall::Remove)
    }
}

/// Reads the bytes of a file to the start of a buffer.
pub fn fill(bytes: &[u8], buffer: &mut [u8]) -> Seen
    ensures fits { FitsIn (length buffer.new) result }
    ensures reads { Reads (Some bytes.now) buffer.new result }
{
    if bytes.len() > buffer.len() {
        buffer.copy_from_slice(&bytes[..buffer.len()]);
        return Seen::Longer;
    }
    buffer[..bytes.len()].copy_from_slice(bytes);
    Seen::Whole(bytes.len())
}
