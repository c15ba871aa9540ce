// Services that are closed: what they stored, and what a crash leaves of a collection's file.

ghost use Rattle.std.specs.Prelude.{◌≡◌, [], IfSome};

use crate::opening::{folder_with, open_over};
use crate::play::{Service, put};
use check_rows::{Line, cell};
use check_words::number;
use kr_base::{Bytes, ItemId, Stem};
use kr_memory_disk::{MemoryFolder, MemorySlot};
use kr_outside::DeviceCall;
use service_history::service_machine::Disk;
use std::alloc::Global;

fn write_moments(line: &mut Line, created: u64, modified: u64) {
    line.add("created ");
    line.number(created);
    line.add(", modified ");
    line.number(modified);
    line.add("; ");
}

// An item's number and its moments, if the collection is unlocked and has the item.
fn write_item(disk: &Disk<MemoryFolder>, stem: &Stem, id: u32, line: &mut Line) {
    if let Some(item) = disk.collections.item(stem, ItemId(id)) {
        line.add("item ");
        line.number(u64::from(id));
        line.add(" ");
        write_moments(line, item.created, item.modified);
    }
}

// A collection's salt and moments, and those of its items 1 to 3.
fn write_collection(disk: &Disk<MemoryFolder>, stem: &Stem, line: &mut Line) {
    if let Some(collection) = disk.collections.get(stem) {
        line.add("salt ");
        line.hex(collection.salt().as_slice());
        line.add(" ");
        write_moments(line, collection.created(), collection.modified());
    }
    for id in 1..4u32 {
        write_item(disk, stem, id, line);
    }
}

fn slot_of(disk: &mut Disk<MemoryFolder>, stem: &Stem) -> Option<MemorySlot> {
    let collection = disk.collections.remove(stem)?;
    Some(collection.into_cell().into_slot())
}

fn writes(call: DeviceCall) -> bool {
    matches!(
        call,
        DeviceCall::PutTemp | DeviceCall::Rename | DeviceCall::Remove
    )
}

// How many calls of the slot wrote, renamed or removed anything, and how many images a crash may leave.
fn write_slot(slot: &MemorySlot, line: &mut Line) {
    let mut count = 0u64;
    for record in slot.calls() {
        if writes(record.call.device_call()) {
            count = count.saturating_add(1);
        }
    }
    line.add("writes ");
    line.number(count);
    line.add(", images ");
    match slot.count_left() {
        Ok(count) => line.number(count as u64),
        Err(_) => line.lack(),
    }
    line.add("; ");
}

fn write_disk(disk: &Disk<MemoryFolder>, line: &mut Line) {
    line.add("collections ");
    line.number(disk.collections.len() as u64);
    line.add(", stems ");
    line.number(disk.used.len() as u64);
    line.add(", left alone ");
    line.number(disk.left_alone.len() as u64);
}

// Takes a collection out, keeps its slot, and writes what it is.
fn take_out(
    disk: &mut Disk<MemoryFolder>,
    slot: &mut Option<MemorySlot>,
    name: &str,
    line: &mut Line,
) -> Option<()> {
    let stem = Stem::new(line.alloc(), name).ok()??;
    write_collection(disk, &stem, line);
    put(slot, slot_of(disk, &stem));
    match slot {
        Some(slot) => write_slot(slot, line),
        None => line.add("no collection; "),
    }
    Some(())
}

fn take_apart(
    disk: &mut Disk<MemoryFolder>,
    slot: &mut Option<MemorySlot>,
    names: &str,
    line: &mut Line,
) {
    for name in names.split_whitespace() {
        if take_out(disk, slot, name, line).is_none() {
            line.add("no name of a collection; ");
        }
    }
    write_disk(disk, line);
}

// Lends a value, and drops it here, where its type isn't known.
fn over<T: Drop, L: FnOnce(&mut T)>(value: T, act: L)
    requires { L.IsAlwaysCallable act }
{
    let mut value = value;
    act(&mut value);
}

/// Closes the service. Writes the salt and the moments of each of these collections, those of its first items if it is unlocked,
/// and what its slot did, and then what else is on the disk. The last of the slots is kept for `crash`.
pub fn close(
    service: &mut Option<Service>,
    slot: &mut Option<MemorySlot>,
    names: &str,
    line: &mut Line,
) {
    match service.take() {
        Some(service) => over(
            service.into_disk(),
            |disk| take_apart(disk, slot, names, line),
        ),
        None => line.add("no service is open"),
    }
}

fn image_left(slot: &Option<MemorySlot>, choice: &str) -> Option<Option<Bytes>> {
    let choice = number(choice)?;
    match slot {
        Some(slot) => slot.left(choice).ok(),
        None => None,
    }
}

fn folder_left(alloc: Global, slot: &Option<MemorySlot>, cells: &str) -> Option<MemoryFolder>
    ensures { IfSome result (λ folder. folder.made ≡ []) }
{
    let image = image_left(slot, cell(cells, 1))?;
    folder_with(alloc, cell(cells, 0), image)
}

/// Opens a service over one file of this name, which is the image of this number among those that a crash may leave of the slot
/// that was kept.
pub fn reopen(
    service: &mut Option<Service>,
    slot: &Option<MemorySlot>,
    cells: &str,
    line: &mut Line,
) {
    match folder_left(line.alloc(), slot, cells) {
        Some(folder) => open_over(service, folder, line),
        None => {
            put(service, None);
            line.add("no folder");
        }
    }
}
