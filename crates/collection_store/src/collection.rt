ghost use Rattle.std.specs.Prelude.{◌≡◌, ◌≢◌, ℕ, ◌+◌, ◌≤◌, ◌<◌, ◌⊎◌, ◌↔◌, IsTrue, IsSome, IfSome, IfOk, OnOk, OnErr, IsErr, IsErrOf, Some, None, Ok, Err, map, length};
ghost use Rattle.std.specs.Option.{option_copied, option_map};
ghost use Rattle.item_store.specs.declared.fault.ItemFault.{ItemFault as Fault};
ghost use Rattle.key_derivation.specs.Kdf.{key_of, vector_of};
ghost use Rattle.kr_outside.specs.Moments.{LeavesOnly};
ghost use Rattle.kr_outside.specs.Slot.{KeepsNature};
ghost use Rattle.keyring_text.specs.Fields.{IsBytes};
ghost use Rattle.keyring_file.specs.ClearText.{HasClear, most_iterations};
ghost use Rattle.keyring_seal.specs.Arranged.{arranged_rows};
ghost use Rattle.keyring_seal.specs.Whole.{opened, sealed};
ghost use Rattle.replace_slot.specs.Cell.{Known, Doubt, FailedAfter, FailedBefore, FailedRead, IsKnown, IsKnownFile, IsOneOf, LeavesFile, longest_of, new_image, old_image};
ghost use Rattle.replace_slot.specs.Found.{IsFoundBy, IsFoundOf, Shows as ShowsBytes, found_file};
ghost use Rattle.collection_store.specs.Changes.{content_created, content_rekeyed};
ghost use Rattle.collection_store.specs.Outcomes.{IfFaultBefore, IfFaultUnsure, IfNoMemory, IfTooLarge, IsChanged, IsCreateFault, IsFault, IsNewImage, IsOldOrNew, IsOldOrSealed, IsSame, IsStored, IsTooLarge, IsTooLargeOrNoMemory, IsUnsure, MayBeChanged, made_of, most_for, slot_of};
ghost use Rattle.collection_store.specs.CollectionReading.{Fits, Opens, Unlocks, content_at, found as found_in, item_at};
ghost use Rattle.collection_store.specs.State.{HasMostItems, IsHeld, IsNewer, Shows, by_id, has_image as has_image_of, most_items, shown_image, shown_of, told_after};
ghost use Rattle.collection_store.specs.Storable.{EndsAs, answer_of, storable};

use crate::answering::answer_in;
use crate::candidate::Frame;
use crate::holding::{Open, answered, frame_of, prepare_in, prepare_key, show_again, store};
use crate::opening::opened_parts;
use crate::sealing::image_of;
use crate::told::Told;
use crate::{Change, ChangeRefused, Changed, CreateRefused, UnlockRefused};
use item_store::{ItemFault, ItemStore};
use key_derivation::Derived;
use keyring_file::{Clear, FullItem, a_file_that_is_spelled_so_is_read};
use keyring_seal::SealRefused;
use keyring_text::known_bytes;
use kr_base::{Attributes, ItemId, OutOfMemory, Text};
use kr_items::Items;
use kr_outside::{DeviceCall, Slot};
use replace_slot::{FaultRead, FileCell, Found, Image, RemoveFault, ReplaceFault};
use std::alloc::Global;
use std::marker::Model;

/// A collection: its file, the clear part that is shown, and while it is unlocked its key and its items.
/// The file of an unlocked collection is known, and decrypts under the key to the items.
#[derive(Drop)]
pub struct Collection<S: Slot> {
    alloc: Global,
    cell: FileCell<S>,
    // The clear part that is shown. While the collection is unlocked, its hashes are those of the items' own
    // attributes.
    told: Told,
    // In doubt, the clear part of the newer image, which is shown once that image is found.
    newer: Option<Told>,
    held: Option<Open>,
}

impl<S: Slot> Model for Collection<S> {
    ghost use Rattle.std.specs.Option.{option_map};
    ghost use Rattle.collection_store.specs.State.{CollectionState, IsKept, held_of, shown_of};
    ghost use Rattle.collection_store.specs.Storing.{parts_of};

    ghost Value = { CollectionState S };

    ghost view = { λ c. record {
      slot = c.cell.slot;
      file = c.cell.file;
      clear = shown_of c.told
          (option_map parts_of c.held);
      other = c.newer;
      held = held_of c.told
          (option_map parts_of c.held);
    } };

    ghost invariant = { λ c. IsKept c.cell.file c.told c.newer
        (option_map parts_of c.held) };
}

// What the type of an image guarantees, if there is one.
fn known_image(image: Option<&Image>)
    ensures { IfSome (option_map (λ image. image.now) image.entry) IsBytes }
{
    if let Some(image) = image {
        known_bytes(image.bytes());
    }
}

impl<S: Slot> Collection<S> {
    /// A locked collection whose file has been read.
    pub fn loaded(
        alloc: Global,
        cell: FileCell<S>,
        clear: Clear,
    ) -> Result<Collection<S>, OutOfMemory>
        requires { IsKnownFile (λ bytes. HasClear bytes clear) cell.file }
        ensures slot { IfOk result (λ made. made.slot ≡ cell.slot) }
        ensures file { IfOk result (λ made. made.file ≡ cell.file) }
        ensures clear { IfOk result (λ made. made.clear ≡ by_id clear) }
        ensures other { IfOk result (λ made. made.other ≡ None) }
        ensures locked { IfOk result (λ made. made.held ≡ None) }
    {
        let told = Told::new(alloc, clear)?;
        Ok(Collection {
            alloc,
            cell,
            told,
            newer: None,
            held: None,
        })
    }

    /// Creates a collection without items and stores it. It is unlocked.
    ///
    /// Refused with `TooLarge`, before any call of the device, if its file would be longer than 67,108,864
    /// bytes or longer than `room`; with `FaultBefore` if the file couldn't be written; and with `FaultUnsure`
    /// if it may have been written or not.
    pub fn create(
        alloc: Global,
        cell: FileCell<S>,
        label: Text,
        key: Derived,
        now: u64,
        room: u64,
    ) -> Result<Collection<S>, CreateRefused<S>>
        requires none { cell.file ≡ Known None }
        requires iterations { key.iterations ≤ most_iterations }
        ensures stored { IfOk result (IsStored (content_created now label key.salt key.iterations)
            (key_of key) (vector_of key)) }

        // The refusals, in their order, and what each of them hands back.
        ensures too_large { IfTooLarge result (λ back. (back ≡ cell) × most_for room cell.file
            < length (sealed (content_created now label key.salt key.iterations)
            (key_of key) (vector_of key))) }
        ensures measured { most_for room cell.file
            < length (sealed (content_created now label key.salt key.iterations)
            (key_of key) (vector_of key)) → IsTooLargeOrNoMemory result }
        ensures before { IfFaultBefore result (λ back. back.file ≡ cell.file) }
        ensures unsure { IfFaultUnsure result (λ made. (made.file ≡ Doubt None
            (Some (sealed (content_created now label key.salt key.iterations)
            (key_of key) (vector_of key)))) × (made.held ≡ None)
            × (made.clear ≡ (content_created now label key.salt key.iterations).clear)
            × (made.other ≡ None)) }
        ensures memory { IfNoMemory result (λ back. back ≡ cell) }

        // What a crash leaves at each moment, and the cause of each fault, seen on what is handed back.
        ensures any_moment { IsTrue (S.is_honest cell.slot) → LeavesOnly S.moment S.left_since
            cell.slot (slot_of result) (IsOldOrSealed cell.file
            (content_created now label key.salt key.iterations) (key_of key) (vector_of key)) }
        ensures old_alone { IsTrue (S.is_honest cell.slot) → IfFaultBefore result (λ back.
            LeavesOnly S.moment S.left_since cell.slot back.slot (IsOneOf cell.file)) }
        ensures kept { KeepsNature S.is_honest S.is_steady S.faults (IsCreateFault result)
            cell.slot (slot_of result) }
        ensures before_call { IfFaultBefore result (λ back. FailedBefore (S.failed back.slot)) }
        ensures unsure_call { IfFaultUnsure result (λ made. FailedAfter DeviceCall.Rename (IsTrue
            (S.is_honest cell.slot) → S.seen made.slot ≡ Some (sealed
            (content_created now label key.salt key.iterations) (key_of key) (vector_of key)))
            (S.failed made.slot)) }
    {
        let clear = Clear {
            name: label,
            created: now,
            modified: now,
            flags: 0,
            timeout: 0,
            iterations: key.iterations(),
            salt: key.salt(),
            items: Items::empty(alloc),
            minor: 0,
        };
        let image = match image_of(
            alloc,
            cell.longest(),
            room,
            &clear,
            &[],
            key.key(),
            key.vector(),
        ) {
            Ok(image) => image,
            Err(SealRefused::TooLarge) => return Err(CreateRefused::TooLarge(cell)),
            Err(SealRefused::OutOfMemory) => return Err(CreateRefused::OutOfMemory(cell)),
        };
        let told = Told::rising(clear);
        let mut cell = cell;
        match cell.replace(image) {
            Ok(()) => Ok(Collection {
                alloc,
                cell,
                told,
                newer: None,
                held: Some(Open {
                    key: key.key(),
                    vector: key.vector(),
                    items: ItemStore::new(alloc),
                    written: None,
                }),
            }),
            Err(ReplaceFault::FaultBefore) => Err(CreateRefused::FaultBefore(cell)),
            Err(ReplaceFault::FaultUnsure) => Err(CreateRefused::FaultUnsure(Collection {
                alloc,
                cell,
                told,
                newer: None,
                held: None,
            })),
        }
    }

    /// Whether a key may open the file: the collection is locked, its file is known, and the key has the
    /// salt and the iterations of the file.
    pub fn fits(&self, key: &Derived) -> bool
        ensures { IsTrue result ↔ Fits self.now.file self.now.clear self.now.held key.now }
    {
        self.held.is_none()
            && self.cell.is_known()
            && self.cell.image().is_some()
            && key.salt() == self.told.clear().salt
            && key.iterations() == self.told.clear().iterations
    }

    /// Unlocks the collection with a key that fits.
    ///
    /// Refused with `WrongPassword` if the area doesn't match its MD5, and with `Damaged` if the area has
    /// another fault. The collection then stays locked.
    pub fn unlock(&mut self, key: Derived) -> Result<(), UnlockRefused>
        requires { Fits self.old.file self.old.clear self.old.held key }
        ensures unlocked { OnOk result (IsKnownFile (λ bytes. Opens bytes (key_of key)
            (vector_of key) (λ content. self.new ≡ record self.old {
              held = Some (record {
                key = key_of key;
                vector = vector_of key;
                rows = arranged_rows content;
              });
            }))
            self.old.file) }

        // Which refusal it is depends on what opening the file returns. Everything is then as before.
        ensures refused { (refused : UnlockRefused) → IsErrOf result refused
            → (refused ≡ UnlockRefused.OutOfMemory) ⊎ IsKnownFile (λ bytes.
            Unlocks (opened bytes (key_of key) (vector_of key)) refused) self.old.file }
        ensures unchanged { OnErr result (self.new ≡ self.old) }
    {
        a_file_that_is_spelled_so_is_read();
        let image = match self.cell.image() {
            Some(image) => image,
            None => unreachable!(),
        };
        let opened = opened_parts(self.alloc, image.bytes(), &mut self.told, &key);
        let (items, written) = opened?;
        self.held = Some(Open {
            key: key.key(),
            vector: key.vector(),
            items,
            written,
        });
        Ok(())
    }

    /// Locks the collection: its key and its items are dropped. It never fails for lack of memory; without the
    /// memory for the index of the hashes, a search compares each item.
    pub fn lock(&mut self)
        ensures { self.new ≡ record self.old { held = None } }
    {
        show_again(&mut self.told, &mut self.held);
        self.told.make_index(self.alloc);
    }

    /// Changes the collection or one of its items, and stores it. The file may grow by `room` bytes.
    ///
    /// Refused with `Item` if the items can't be changed this way, with `TooLarge` if the file would be longer
    /// than 67,108,864 bytes or grow by more than `room`, with `FaultBefore` if the new file couldn't be
    /// written, and with `FaultUnsure` if the file may have been replaced or not. All memory is taken before
    /// the first call of the device.
    pub fn change(&mut self, change: Change, now: u64, room: u64) -> Result<Changed, ChangeRefused>
        requires { IsSome self.old.held }
        ensures changed { IfOk result (λ answer. IfSome self.old.held (λ held.
            IsChanged change now self.old held self.new answer)) }

        // The refusals, in their order.
        ensures item { (fault : Fault) → IsErrOf result (ChangeRefused.Item fault)
            → IfSome self.old.held (λ held. made_of change now self.old held ≡ Err fault) }
        ensures known { IfSome self.old.held (λ held.
            EndsAs (storable change now room self.old.file self.old.clear held) result) }
        ensures no_item { (fault : Fault) → IfSome self.old.held (λ held.
            made_of change now self.old held ≡ Err fault
            → IsErrOf result (ChangeRefused.Item fault)
            ⊎ IsErrOf result ChangeRefused.OutOfMemory) }
        ensures too_large { IsErrOf result ChangeRefused.TooLarge → IfSome self.old.held (λ held.
            IsTooLarge change now self.old held room) }
        ensures measured { IfSome self.old.held (λ held.
            IsTooLarge change now self.old held room → IsErrOf result ChangeRefused.TooLarge
            ⊎ IsErrOf result ChangeRefused.OutOfMemory) }
        ensures unsure { IsErrOf result ChangeRefused.FaultUnsure → IfSome self.old.held (λ held.
            MayBeChanged change now self.old held self.new) }

        // After any other refusal everything is as before, and without a fault the slot is untouched.
        ensures unchanged { OnErr result (IsErrOf result ChangeRefused.FaultUnsure
            ⊎ IsSame self.old self.new) }
        ensures untouched { OnErr result (IsFault result
            ⊎ (self.new.slot ≡ self.old.slot)) }

        // A crash at any moment of the call leaves the old file or the new one, and only the old one if the
        // call ends with `FaultBefore`.
        ensures crash { IsTrue (S.is_honest self.new.slot)
            → LeavesFile self.new.file (S.may_leave self.new.slot) }
        ensures any_moment { IsTrue (S.is_honest self.old.slot) → IfSome self.old.held (λ held.
            LeavesOnly S.moment S.left_since self.old.slot self.new.slot
            (IsOldOrNew change now self.old held)) }
        ensures old_alone { IsTrue (S.is_honest self.old.slot)
            → OnErr result (IsErrOf result ChangeRefused.FaultUnsure
            ⊎ LeavesOnly S.moment S.left_since self.old.slot self.new.slot
            (IsOneOf self.old.file)) }

        // Each fault has its cause, which is a call of the device.
        ensures kept { KeepsNature S.is_honest S.is_steady S.faults (IsFault result)
            self.old.slot self.new.slot }
        ensures before_call { IsErrOf result ChangeRefused.FaultBefore
            → FailedBefore (S.failed self.new.slot) }
        ensures unsure_call { IsErrOf result ChangeRefused.FaultUnsure → IfSome self.old.held
            (λ held. FailedAfter DeviceCall.Rename (IsTrue (S.is_honest self.old.slot)
            → IsNewImage change now self.old held (S.seen self.new.slot))
            (S.failed self.new.slot)) }
    {
        let frame = frame_of(&self.held, self.cell.longest(), now, room);
        match prepare_in(self.alloc, &frame, &self.told, &mut self.held, change) {
            Ok(prepared) => store(
                &mut self.cell,
                &mut self.told,
                &mut self.newer,
                &mut self.held,
                &frame,
                prepared,
            ),
            Err(refused) => {
                self.cell.untouched();
                Err(refused)
            }
        }
    }

    /// What `change` would answer if it stored the change. It takes no memory.
    ///
    /// Refused with the fault with which `change` would be refused. Whether the file would be too large isn't
    /// known yet.
    pub fn answer_to(&self, change: &Change) -> Result<Changed, ItemFault>
        requires { IsSome self.now.held }
        ensures { (now : ℕ) → IfSome self.now.held (λ held.
            result ≡ answer_of (made_of change.now now self.now held)) }
    {
        match &self.held {
            Some(held) => answer_in(&held.items, change),
            None => unreachable!(),
        }
    }

    /// Stores the collection under another key, and uses that key from then on.
    ///
    /// Refused as `change` is, but never with `Item`.
    pub fn rekey(&mut self, key: Derived, now: u64, room: u64) -> Result<(), ChangeRefused>
        requires unlocked { IsSome self.old.held }
        requires iterations { key.iterations ≤ most_iterations }
        ensures stored { OnOk result (IfSome self.old.held (λ held. IsStored
            (content_rekeyed now key.salt key.iterations self.old.clear held.rows)
            (key_of key) (vector_of key) self.new)) }

        ensures no_item { (fault : Fault) → ¬ (IsErrOf result (ChangeRefused.Item fault)) }
        ensures too_large { IsErrOf result ChangeRefused.TooLarge → IfSome self.old.held (λ held.
            most_for room self.old.file < length (sealed
            (content_rekeyed now key.salt key.iterations self.old.clear held.rows)
            (key_of key) (vector_of key))) }
        ensures measured { IfSome self.old.held (λ held. most_for room self.old.file
            < length (sealed (content_rekeyed now key.salt key.iterations self.old.clear held.rows)
            (key_of key) (vector_of key)) → IsErrOf result ChangeRefused.TooLarge
            ⊎ IsErrOf result ChangeRefused.OutOfMemory) }
        ensures unsure { IsErrOf result ChangeRefused.FaultUnsure → IfSome self.old.held (λ held.
            IsUnsure (content_rekeyed now key.salt key.iterations self.old.clear held.rows)
            (key_of key) (vector_of key) self.old self.new) }
        ensures unchanged { OnErr result (IsErrOf result ChangeRefused.FaultUnsure
            ⊎ IsSame self.old self.new) }
        ensures untouched { OnErr result (IsFault result
            ⊎ (self.new.slot ≡ self.old.slot)) }

        // A crash at any moment of the call leaves the file under the old key or the file under the new one.
        ensures crash { IsTrue (S.is_honest self.new.slot)
            → LeavesFile self.new.file (S.may_leave self.new.slot) }
        ensures any_moment { IsTrue (S.is_honest self.old.slot) → IfSome self.old.held (λ held.
            LeavesOnly S.moment S.left_since self.old.slot self.new.slot
            (IsOldOrSealed self.old.file
            (content_rekeyed now key.salt key.iterations self.old.clear held.rows)
            (key_of key) (vector_of key))) }
        ensures old_alone { IsTrue (S.is_honest self.old.slot)
            → OnErr result (IsErrOf result ChangeRefused.FaultUnsure
            ⊎ LeavesOnly S.moment S.left_since self.old.slot self.new.slot
            (IsOneOf self.old.file)) }

        // Each fault has its cause, which is a call of the device.
        ensures kept { KeepsNature S.is_honest S.is_steady S.faults (IsFault result)
            self.old.slot self.new.slot }
        ensures before_call { IsErrOf result ChangeRefused.FaultBefore
            → FailedBefore (S.failed self.new.slot) }
        ensures unsure_call { IsErrOf result ChangeRefused.FaultUnsure → IfSome self.old.held
            (λ held. FailedAfter DeviceCall.Rename (IsTrue (S.is_honest self.old.slot)
            → S.seen self.new.slot ≡ Some (sealed
            (content_rekeyed now key.salt key.iterations self.old.clear held.rows)
            (key_of key) (vector_of key))) (S.failed self.new.slot)) }
    {
        let frame = Frame {
            time: now,
            longest: self.cell.longest(),
            room,
            key: key.key(),
            vector: key.vector(),
        };
        let prepared = prepare_key(
            self.alloc,
            &frame,
            &self.told,
            &self.held,
            key.salt(),
            key.iterations(),
        );
        match prepared {
            Ok(prepared) => answered(store(
                &mut self.cell,
                &mut self.told,
                &mut self.newer,
                &mut self.held,
                &frame,
                prepared,
            )),
            Err(refused) => {
                self.cell.untouched();
                Err(refused)
            }
        }
    }

    /// Removes the file. The collection is then locked and has no file. It takes no memory.
    ///
    /// Refused with `FaultUnsure` if the name couldn't be removed or the folder couldn't be synced: the
    /// collection is locked, and its file in doubt.
    pub fn delete(&mut self) -> Result<(), RemoveFault>
        requires { IsSome self.old.held }
        ensures removed { OnOk result (self.new.file ≡ Known None) }
        ensures unsure { OnErr result (self.new.file ≡ Doubt (old_image self.old.file) None) }
        ensures locked { self.new.held ≡ None }
        ensures clear { self.new.clear ≡ self.old.clear }
        ensures other { self.new.other ≡ None }

        ensures crash { IsTrue (S.is_honest self.new.slot)
            → LeavesFile self.new.file (S.may_leave self.new.slot) }
        ensures any_moment { IsTrue (S.is_honest self.old.slot)
            → LeavesOnly S.moment S.left_since self.old.slot self.new.slot
            (IsOneOf (Doubt (old_image self.old.file) None)) }

        // A fault has its cause, which is one of the two calls.
        ensures kept { KeepsNature S.is_honest S.is_steady S.faults (IsErr result)
            self.old.slot self.new.slot }
        ensures unsure_call { IsErr result → FailedAfter DeviceCall.Remove (IsTrue
            (S.is_honest self.old.slot) → S.seen self.new.slot ≡ None) (S.failed self.new.slot) }
    {
        show_again(&mut self.told, &mut self.held);
        self.cell.remove()
    }

    /// Ends a doubt as `FileCell::resolve` does: the file is read into the buffer, and is then known to have
    /// the image that was found. It never fails for lack of memory.
    ///
    /// Refused with `FaultRead` if the folder couldn't be synced or the file couldn't be read; the doubt stays.
    pub fn resolve(&mut self, buffer: &mut [u8]) -> Result<Found, FaultRead>
        requires doubt { ¬ (IsKnown self.old.file) }
        requires room { longest_of self.old.file < length buffer.old }

        ensures found { IfOk result (λ found. self.new.file ≡ found_file found self.old.file) }
        ensures shown { IfOk result (λ found. ShowsBytes found self.old.file buffer.new) }
        ensures shows { OnOk result (Shows (shown_image self.new.file) self.new.clear) }
        ensures clear { IfOk result (λ found.
            self.new.clear ≡ told_after found self.old.clear self.old.other) }
        ensures other { OnOk result (self.new.other ≡ None) }
        ensures locked { self.new.held ≡ None }
        ensures unchanged { OnErr result (IsSame self.old self.new) }

        // What is found is what the read returned. With an honest slot it is the image that the name stands
        // for, before the call as well as after it, and so one of the two.
        ensures by_read { IfOk result (λ found.
            IsFoundBy (S.answered self.new.slot) buffer.new found self.old.file) }
        ensures by_name { IsTrue (S.is_honest self.old.slot)
            → IfOk result (λ found. IsFoundOf (S.seen self.old.slot) found self.old.file) }
        ensures same { IsTrue (S.is_honest self.old.slot)
            → S.seen self.new.slot ≡ S.seen self.old.slot }
        ensures one { IsTrue (S.is_honest self.old.slot)
            → IfOk result (λ found. found ≢ Found.Other) }

        ensures crash { IsTrue (S.is_honest self.new.slot)
            → LeavesFile self.new.file (S.may_leave self.new.slot) }
        ensures any_moment { IsTrue (S.is_honest self.old.slot)
            → LeavesOnly S.moment S.left_since self.old.slot self.new.slot
            (IsOneOf self.old.file) }

        // A fault has its cause, which is one of the two calls.
        ensures kept { KeepsNature S.is_honest S.is_steady S.faults (IsErr result)
            self.old.slot self.new.slot }
        ensures read_call { IsErr result → FailedRead (S.failed self.new.slot) }
    {
        let found = self.cell.resolve(buffer)?;
        show_found(self.alloc, found, &mut self.told, &mut self.newer);
        Ok(found)
    }

    /// Gives up the collection and returns its cell. It takes no memory.
    pub fn into_cell(self) -> FileCell<S>
        ensures slot { result.slot ≡ self.slot }
        ensures file { result.file ≡ self.file }
    {
        self.cell
    }

    /// A law: while nothing is done with the collection, a crash at any moment leaves one of its file's
    /// images. The call does nothing.
    pub fn untouched(&self)
        ensures any_moment { IsTrue (S.is_honest self.now.slot)
            → LeavesOnly S.moment S.left_since self.now.slot self.now.slot
            (IsOneOf self.now.file) }
    {
        self.cell.untouched();
    }

    /// A law: what the type of the images of its file guarantees. The call does nothing.
    pub fn known_file(&self)
        ensures older { IfSome (old_image self.now.file) IsBytes }
        ensures newer { IfSome (new_image self.now.file) IsBytes }
    {
        known_image(self.cell.image());
        known_image(self.cell.newer());
    }

    /// Whether the collection is unlocked.
    pub fn is_open(&self) -> bool
        ensures value { IsTrue result ↔ IsSome self.now.held }
        ensures opens { IsHeld self.now.file self.now.held }
        ensures shows { Shows (shown_image self.now.file) self.now.clear }
        ensures other { IsNewer self.now.file self.now.other }
    {
        self.held.is_some()
    }

    /// Whether the file is known.
    pub fn is_known(&self) -> bool
        ensures { IsTrue result ↔ IsKnown self.now.file }
    {
        self.cell.is_known()
    }

    /// The length in bytes of the longest image; 0 for no file.
    pub fn longest(&self) -> usize
        ensures { result ≡ longest_of self.now.file }
    {
        self.cell.longest()
    }

    /// The greatest number of items in one of the images; 0 for no file.
    pub fn most_items(&self) -> usize
        ensures value { result ≡ most_items self.now.file self.now.clear self.now.other }
        ensures images { HasMostItems self.now.file result }
    {
        if !has_image(&self.cell) {
            return 0;
        }
        let count = self.told.clear().items.len();
        match &self.newer {
            Some(newer) => count.max(newer.clear().items.len()),
            None => count,
        }
    }

    /// The label.
    pub fn label(&self) -> &Text
        ensures { result.now ≡ self.now.clear.name }
    {
        &self.told.clear().name
    }

    /// The label of the newer image of a file in doubt, which is shown once that image is found.
    pub fn newer_label(&self) -> Option<&Text>
        ensures { option_copied result ≡ option_map (λ clear. clear.name) self.now.other }
    {
        match &self.newer {
            Some(newer) => Some(&newer.clear().name),
            None => None,
        }
    }

    /// When the collection was created, in seconds since 1970.
    pub fn created(&self) -> u64
        ensures { result ≡ self.now.clear.created }
    {
        self.told.clear().created
    }

    /// When the collection was last changed, in seconds since 1970.
    pub fn modified(&self) -> u64
        ensures { result ≡ self.now.clear.modified }
    {
        self.told.clear().modified
    }

    /// The salt of the file.
    pub fn salt(&self) -> [u8; 8]
        ensures { result ≡ self.now.clear.salt }
    {
        self.told.clear().salt
    }

    /// The iterations of the file.
    pub fn iterations(&self) -> u32
        ensures { result ≡ self.now.clear.iterations }
    {
        self.told.clear().iterations
    }

    /// The content type of an item, even while the collection is locked. None if there is no such item.
    pub fn content(&self, id: ItemId) -> Option<&Text>
        ensures { option_copied result ≡ content_at id.0 self.now.clear.items }
    {
        self.told.content(id)
    }

    /// An item. None exactly if the collection is locked or has no such item.
    pub fn item(&self, id: ItemId) -> Option<&FullItem>
        ensures { option_copied result ≡ item_at id.0 self.now.held }
    {
        match &self.held {
            Some(held) => held.items.item(id),
            None => None,
        }
    }

    /// The ids of the items that match the wanted attributes, in rising order. While the collection is locked,
    /// the hashes in the clear part are compared (Secret Service API, "Lookup Attributes"), and only those of the
    /// items that have the rarest wanted attribute, as far as its hash can say.
    pub fn search(&self, wanted: &Attributes) -> Result<Vec<ItemId>, OutOfMemory>
        ensures { IfOk result (λ ids. map (λ id. id.0) ids.items
            ≡ found_in wanted.now self.now.clear self.now.held) }
    {
        match &self.held {
            Some(held) => held.items.search(wanted),
            None => self.told.search(self.alloc, wanted),
        }
    }
}

/// Shows the clear part of the image that was found, with the index of its hashes if there is memory for it.
fn show_found(alloc: Global, found: Found, told: &mut Told, newer: &mut Option<Told>)
    ensures told { told.new ≡ told_after found told.old newer.old }
    ensures newer { newer.new ≡ None }
{
    match (found, newer.take()) {
        (Found::New, Some(part)) => *told = part,
        _ => {}
    }
    told.make_index(alloc);
}

/// Whether either image is a file.
fn has_image<S: Slot>(cell: &FileCell<S>) -> bool
    ensures { result ≡ has_image_of cell.now.file }
{
    cell.image().is_some() || cell.newer().is_some()
}
