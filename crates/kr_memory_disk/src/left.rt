ghost use Rattle.std.specs.Prelude.{◌≡◌, ◌<◌, ◌%◌, ◌++◌, ◌∷◌, [], ℕ, List, Option, IfOk, OnOk, IsNone, IfSome, None, Some, get_or, length, vec_len};
ghost use Rattle.kr_memory_disk.specs.Left.{image_there, LieAt, with_if_file, others_after};
ghost use Rattle.kr_memory_disk.specs.Slot.{disk_at, image_stood, image_picked};

use crate::place::{Place, Standing, after, image_at, standing_of};
use crate::slot::{CallEnd, CallRecord, SlotCall};
use kr_base::{Bytes, OutOfMemory};
use std::alloc::Global;

/// The place of the image that this number picks, among those that a crash may leave after these calls.
///
/// Refused if no memory was left.
pub fn place_left(alloc: Global, calls: &[CallRecord], choice: u64) -> Result<Place, OutOfMemory>
    ensures { (image : Option (List ℕ)) → IfOk result (λ place.
        image_there image calls.now place ≡ image_picked (disk_at image calls.now) choice) }
{
    let places = places_left(alloc, calls)?;
    Ok(picked(&places, choice))
}

/// The places of the images that a crash may leave after these calls, in order.
///
/// Refused if no memory was left.
pub fn places_left(alloc: Global, calls: &[CallRecord]) -> Result<Vec<Place>, OutOfMemory>
    ensures lie { IfOk result (λ places. LieAt calls.now places.items) }
    ensures some { IfOk result (λ places. 0 < vec_len places) }
{
    let mut places = Vec::new(alloc);
    let mut standing = Standing {
        name: Place::Start,
        temporary: Place::Missing,
    };
    for (number, call) in calls.iter().enumerate() {
        count(&mut places, call, standing)?;
        standing = after(call, number, standing);
    }
    places.push(standing.name)?;
    Ok(places)
}

// The place that this number picks; after the last one it starts again with the first.
fn picked(places: &[Place], choice: u64) -> Place
    requires { 0 < length places.now }
    ensures { result ≡ get_or places.now (choice % length places.now) Place.Missing }
{
    places[(choice % places.len() as u64) as usize]
}

// Adds the place of what else the name may have stood for from this call on: what it stood for
// before, or what it would stand for if the call hadn't failed. After a sync of the folder there
// is nothing else.
fn count(places: &mut Vec<Place>, call: &CallRecord, standing: Standing) -> Result<(), OutOfMemory>
    ensures { OnOk result (places.new.items
        ≡ others_after call.now.call call.now.end standing places.old.items) }
{
    let Standing { name, temporary } = standing;
    match (&call.call, call.end) {
        (SlotCall::Rename, CallEnd::Failed) => add_if_file(places, temporary, temporary),
        (SlotCall::Rename, _) => add_if_file(places, temporary, name),
        (SlotCall::Remove, CallEnd::Failed) => add(places, Place::Missing),
        (SlotCall::Remove, _) => add(places, name),
        (SlotCall::SyncFolder, CallEnd::Done) => {
            places.clear();
            Ok(())
        }
        _ => Ok(()),
    }
}

// Adds the place, if there is a temporary file.
fn add_if_file(places: &mut Vec<Place>, temporary: Place, place: Place) -> Result<(), OutOfMemory>
    ensures { OnOk result (places.new.items ≡ with_if_file temporary place places.old.items) }
{
    match temporary {
        Place::Start | Place::Missing => Ok(()),
        Place::Unsynced(_) | Place::Synced(_) => add(places, place),
    }
}

fn add(places: &mut Vec<Place>, place: Place) -> Result<(), OutOfMemory>
    ensures { OnOk result (places.new.items ≡ places.old.items ++ place ∷ []) }
{
    match places.push(place) {
        Ok(()) => Ok(()),
        Err(refused) => Err(refused.into()),
    }
}

/// What the name stands for after these calls.
pub fn stood<'a>(image: &'a Option<Bytes>, calls: &'a [CallRecord]) -> Option<&'a [u8]>
    ensures file { IfSome result (λ bytes.
        image_stood (disk_at image.now calls.now).name ≡ Some bytes.now) }
    ensures none { IsNone result → image_stood (disk_at image.now calls.now).name ≡ None }
{
    image_at(image, calls, standing_of(calls).name)
}
