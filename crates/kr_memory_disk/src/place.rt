ghost use Rattle.std.specs.Prelude.{◌≡◌, None, Some, IsNone, IfSome};
ghost use Rattle.kr_memory_disk.specs.Place.{bytes_at, stood_at, synced_place, taken_place, standing_after, StandsAt};
ghost use Rattle.kr_memory_disk.specs.Slot.{image_stood};

use crate::slot::{CallEnd, CallRecord, SlotCall};
use kr_base::Bytes;

/// Where the bytes of a file are in a record of calls.
#[derive(Clone, Copy, PartialEq, Eq)]
pub enum Place {
    /// The image that the name began with.
    Start,
    /// There is no file.
    Missing,
    /// The bytes that the call with this number put; they weren't synced.
    Unsynced(usize),
    /// The bytes that the call with this number put; they were synced.
    Synced(usize),
}

/// The places of a name and of its temporary file.
#[derive(Clone, Copy, PartialEq, Eq)]
pub struct Standing {
    /// What the name stands for.
    pub name: Place,
    /// The temporary file.
    pub temporary: Place,
}

/// The places of the name and of the temporary file after these calls.
pub fn standing_of(calls: &[CallRecord]) -> Standing
    ensures { StandsAt calls.now result }
{
    let mut standing = Standing {
        name: Place::Start,
        temporary: Place::Missing,
    };
    for (number, record) in calls.iter().enumerate() {
        standing = after(record, number, standing);
    }
    standing
}

/// These places after the call with this number.
pub fn after(record: &CallRecord, number: usize, standing: Standing) -> Standing
    ensures { result ≡ standing_after record.now.call record.now.end number standing }
{
    let Standing { name, temporary } = standing;
    match (&record.call, record.end) {
        (SlotCall::PutTemp(_), CallEnd::Done) => Standing {
            name,
            temporary: Place::Unsynced(number),
        },
        (SlotCall::PutTemp(_), _) => Standing {
            name,
            temporary: Place::Missing,
        },
        (SlotCall::SyncTemp, CallEnd::Done) => Standing {
            name,
            temporary: synced(temporary),
        },
        (SlotCall::SyncTemp, _) => Standing {
            name,
            temporary: Place::Missing,
        },
        (SlotCall::Rename, CallEnd::Failed) => Standing {
            name,
            temporary: Place::Missing,
        },
        (SlotCall::Rename, _) => taken(standing),
        (SlotCall::Remove, CallEnd::Failed) => standing,
        (SlotCall::Remove, _) => Standing {
            name: Place::Missing,
            temporary,
        },
        _ => standing,
    }
}

fn synced(place: Place) -> Place
    ensures { result ≡ synced_place place }
{
    match place {
        Place::Start | Place::Missing => Place::Missing,
        Place::Unsynced(number) | Place::Synced(number) => Place::Synced(number),
    }
}

// The name takes the temporary file, if there is one.
fn taken(standing: Standing) -> Standing
    ensures { result ≡ taken_place standing.temporary standing }
{
    match standing.temporary {
        Place::Start | Place::Missing => standing,
        place => Standing {
            name: place,
            temporary: Place::Missing,
        },
    }
}

/// The bytes at a place; None if there is no file.
pub fn image_at<'a>(
    image: &'a Option<Bytes>,
    calls: &'a [CallRecord],
    place: Place,
) -> Option<&'a [u8]>
    ensures file { IfSome result (λ bytes.
        image_stood (stood_at image.now calls.now place) ≡ Some bytes.now) }
    ensures none { IsNone result → image_stood (stood_at image.now calls.now place) ≡ None }
{
    match place {
        Place::Start => match image {
            None => None,
            Some(bytes) => Some(bytes.as_slice()),
        },
        Place::Missing => None,
        Place::Unsynced(number) | Place::Synced(number) => Some(bytes_put(calls, number)),
    }
}

// The bytes that the call with this number put, or no bytes if it put none.
fn bytes_put(calls: &[CallRecord], number: usize) -> &[u8]
    ensures { result.now ≡ bytes_at calls.now number }
{
    match calls.get(number) {
        Some(record) => match &record.call {
            SlotCall::PutTemp(bytes) => bytes.as_slice(),
            _ => &[],
        },
        None => &[],
    }
}
