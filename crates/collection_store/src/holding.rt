// What an unlocked collection keeps in memory, and how a prepared change is stored.

ghost use Rattle.std.specs.Prelude.{◌≡◌, ◌≢◌, ◌+◌, ◌≤◌, ◌<◌, ◌⊎◌, IsTrue, IsSome, IfSome, IfNone, IfOk, IfErr, OnOk, OnErr, IsErrOf, Ok, Some, None, length};
ghost use Rattle.std.specs.Option.{option_map};
ghost use Rattle.kr_outside.specs.Moments.{LeavesOnly};
ghost use Rattle.kr_outside.specs.Slot.{KeepsNature};
ghost use Rattle.replace_slot.specs.Cell.{Doubt, FailedAfter, FailedBefore, IsKnown, IsOneOf, LeavesFile, old_image};
ghost use Rattle.keyring_file.specs.ClearText.{most_iterations};
ghost use Rattle.collection_store.specs.Changes.{name_made, rows_made};
ghost use Rattle.collection_store.specs.Outcomes.{IsFault};
ghost use Rattle.collection_store.specs.Preparing.{IsInStep};
ghost use Rattle.collection_store.specs.Resting.{finished, undone};
ghost use Rattle.collection_store.specs.State.{IsById, IsKept, shown_of, without_hashes};
ghost use Rattle.collection_store.specs.Storing.{AreBefore, AreStored, AreUnsure, IsPreparedIn, IsReady, MayRefuseIn, finished_open, frame_for, without_answer, parts_of, undone_open};

use crate::candidate::Frame;
use crate::preparing::{Prepared, prepare, prepare_front};
use crate::rest::Rest;
use crate::same::have_same_hashes;
use crate::told::Told;
use crate::{Change, ChangeRefused, Changed};
use item_store::ItemStore;
use kr_outside::{DeviceCall, Slot};
use replace_slot::{FileCell, ReplaceFault};
use std::alloc::Global;
use std::mem;

/// What an unlocked collection keeps in addition to its file and the clear part.
#[derive(Drop)]
pub struct Open {
    pub key: [u8; 16],
    pub vector: [u8; 16],
    pub items: ItemStore,
    // The clear part as it is in the file, if its hashes aren't those of the items' own attributes. It is
    // shown until the first change is stored, even after the collection is locked again.
    pub written: Option<Told>,
}

/// Puts the clear part with the hashes of the items' own attributes in place of the one in the file, and
/// returns the latter, unless they have the same items: then the one in the file stays, with its index. The two
/// are the same except for the hashes, so these alone are compared.
pub fn take_own(told: &mut Told, own: Told) -> Option<Told>
    requires { without_hashes own ≡ without_hashes told.old }
    ensures told { told.new ≡ own }
    ensures apart { IfSome result (λ written. written ≡ told.old) }
    ensures same { IfNone result (own.items ≡ told.old.items) }
{
    if have_same_hashes(own.clear().items.as_slice(), told.clear().items.as_slice()) {
        return None;
    }
    let written = mem::replace(told, own);
    Some(written)
}

/// Drops the key and the items. The clear part is then the one in the file again.
pub fn show_again(told: &mut Told, held: &mut Option<Open>)
    ensures told { told.new ≡ shown_of told.old (option_map parts_of held.old) }
    ensures held { held.new ≡ None }
{
    if let Some(held) = held.take() {
        let Open { written, .. } = held;
        if let Some(written) = written {
            *told = written;
        }
    }
}

/// Turns the items into those of the new file, and keeps the key that it was encrypted with.
fn keep(held: &mut Option<Open>, frame: &Frame, rest: Rest)
    ensures { held.new ≡ option_map (finished_open frame.now rest) held.old }
{
    if let Some(open) = held {
        rest.finish(&mut open.items);
        open.key = frame.key;
        open.vector = frame.vector;
        open.written = None;
    }
}

/// Turns the items back into those of the old file.
fn bring_back(held: &mut Option<Open>, rest: Rest)
    ensures { held.new ≡ option_map (undone_open rest) held.old }
{
    if let Some(open) = held {
        rest.undo(&mut open.items);
    }
}

/// Replaces the file with the prepared one, and then shows and keeps the new content. It takes no memory.
///
/// Refused with `FaultBefore`, after which everything is as it was before the change was prepared, or with
/// `FaultUnsure`, after which the key and the items are dropped.
pub fn store<S: Slot>(
    cell: &mut FileCell<S>,
    told: &mut Told,
    newer: &mut Option<Told>,
    held: &mut Option<Open>,
    frame: &Frame,
    prepared: Prepared,
) -> Result<Changed, ChangeRefused>
    requires kept { IsKept cell.old.file told.old newer.old
        (option_map parts_of (option_map (undone_open prepared.rest) held.old)) }
    requires unlocked { IsSome held.old }
    requires ready { IfSome held.old (IsReady frame.now prepared) }

    ensures stored { IfOk result (AreStored frame.now prepared newer.old held.old
        cell.new.file told.new newer.new held.new) }
    ensures before { IsErrOf result ChangeRefused.FaultBefore → AreBefore prepared
        cell.old.file told.old newer.old held.old cell.new.file told.new newer.new held.new }
    ensures unsure { IsErrOf result ChangeRefused.FaultUnsure → AreUnsure prepared
        cell.old.file told.old held.old cell.new.file told.new newer.new held.new }
    ensures faults { OnErr result (IsFault result) }
    ensures kept { IsKept cell.new.file told.new newer.new (option_map parts_of held.new) }

    ensures crash { IsTrue (S.is_honest cell.new.slot)
        → LeavesFile cell.new.file (S.may_leave cell.new.slot) }
    ensures any_moment { IsTrue (S.is_honest cell.old.slot)
        → LeavesOnly S.moment S.left_since cell.old.slot cell.new.slot
        (IsOneOf (Doubt (old_image cell.old.file) (Some prepared.image))) }
    ensures old_alone { IsTrue (S.is_honest cell.old.slot)
        → IsErrOf result ChangeRefused.FaultBefore
        → LeavesOnly S.moment S.left_since cell.old.slot cell.new.slot
        (IsOneOf cell.old.file) }

    ensures slot_kept { KeepsNature S.is_honest S.is_steady S.faults (IsFault result)
        cell.old.slot cell.new.slot }
    ensures before_call { IsErrOf result ChangeRefused.FaultBefore
        → FailedBefore (S.failed cell.new.slot) }
    ensures unsure_call { IsErrOf result ChangeRefused.FaultUnsure
        → FailedAfter DeviceCall.Rename (IsTrue (S.is_honest cell.old.slot)
        → S.seen cell.new.slot ≡ Some prepared.image) (S.failed cell.new.slot) }
{
    let Prepared {
        next,
        image,
        rest,
        answer,
    } = prepared;
    let _rising = next.clear();
    match cell.replace(image) {
        Ok(()) => {
            keep(held, frame, rest);
            *told = next;
            Ok(answer)
        }
        Err(ReplaceFault::FaultBefore) => {
            bring_back(held, rest);
            Err(ChangeRefused::FaultBefore)
        }
        Err(ReplaceFault::FaultUnsure) => {
            show_again(told, held);
            *newer = Some(next);
            Err(ChangeRefused::FaultUnsure)
        }
    }
}

/// What a change is stored with, under the current key.
pub fn frame_of(held: &Option<Open>, longest: usize, now: u64, room: u64) -> Frame
    requires { IsSome held.now }
    ensures { option_map (frame_for now longest room) held.now ≡ Some result }
{
    match held {
        Some(held) => Frame {
            time: now,
            longest,
            room,
            key: held.key,
            vector: held.vector,
        },
        None => unreachable!(),
    }
}

/// Prepares a change of an unlocked collection.
pub fn prepare_in(
    alloc: Global,
    frame: &Frame,
    told: &Told,
    held: &mut Option<Open>,
    change: Change,
) -> Result<Prepared, ChangeRefused>
    requires unlocked { IsSome held.old }
    requires step { IfSome held.old (λ was. IsInStep told.now was.items) }
    ensures prepared { IfOk result (IsPreparedIn frame.now
        (record told.now { name = name_made change told.now.name }) told.now
        (rows_made change frame.now.time) held.old held.new) }
    ensures refused { IfErr result (MayRefuseIn frame.now
        (record told.now { name = name_made change told.now.name }) told.now
        (rows_made change frame.now.time) held.old) }
    ensures unchanged { OnErr result (held.new ≡ held.old) }
{
    match held {
        Some(open) => prepare(alloc, frame, told, &mut open.items, change),
        None => unreachable!(),
    }
}

/// Prepares storing an unlocked collection under another key.
pub fn prepare_key(
    alloc: Global,
    frame: &Frame,
    told: &Told,
    held: &Option<Open>,
    salt: [u8; 8],
    iterations: u32,
) -> Result<Prepared, ChangeRefused>
    requires unlocked { IsSome held.now }
    requires step { IfSome held.now (λ was. IsInStep told.now was.items) }
    requires iterations { iterations ≤ most_iterations }
    ensures prepared { IfOk result (IsPreparedIn frame.now
        (record told.now { salt = salt; iterations = iterations }) told.now
        (λ rows. Ok (rows, Changed.Named)) held.now held.now) }
    ensures refused { IfErr result (MayRefuseIn frame.now
        (record told.now { salt = salt; iterations = iterations }) told.now
        (λ rows. Ok (rows, Changed.Named)) held.now) }
{
    let name = match told.clear().name.copy() {
        Ok(name) => name,
        Err(_) => return Err(ChangeRefused::OutOfMemory),
    };
    match held {
        Some(open) => prepare_front(alloc, frame, told, &open.items, name, salt, iterations),
        None => unreachable!(),
    }
}

/// The same answer, without what was changed.
pub fn answered(given: Result<Changed, ChangeRefused>) -> Result<(), ChangeRefused>
    ensures { result ≡ without_answer given }
{
    match given {
        Ok(_) => Ok(()),
        Err(refused) => Err(refused),
    }
}
