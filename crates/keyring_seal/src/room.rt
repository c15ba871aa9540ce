// How much of the room that a file may have its parts take. Each function returns what is left of
// the room, or None if there isn't enough.

ghost use Rattle.std.specs.Prelude.{◌≡◌, ◌+◌, length};
ghost use Rattle.attribute_hash.specs.Hash.{hashes, pair_hash, value_hash};
ghost use Rattle.std.specs.List.{flat_map, zip};
ghost use Rattle.keyring_file.specs.Canonical.{access_text, attribute_text, content_text, front_text, hashed_text, item_text, list_text, padding, pair_text, value_text};
ghost use Rattle.keyring_seal.specs.Room.{AreSizes, AreSizesOf, Takes, row_text};

use crate::content::Content;
use keyring_file::{Access, Clear, ClearItem, FullItem};
use kr_base::{AttrValue, Attributes, Text};

/// What is left after a string.
fn string_room(room: usize, len: usize) -> Option<usize>
    ensures { Takes room (4 + len) result }
{
    room.checked_sub(4)?.checked_sub(len)
}

/// What is left after a value with its kind.
#[tactic(auto, using(crate::proofs::RoomLemmas::sizes))]
fn value_room(room: usize, value: &AttrValue) -> Option<usize>
    ensures { Takes room (length (value_text value.now)) result }
{
    match value {
        AttrValue::Text(text) => string_room(room, text.as_bytes().len())?.checked_sub(4),
        AttrValue::Number(_) => room.checked_sub(8),
    }
}

/// What is left after a hashed value with its kind. The hash of a text has 32 bytes.
#[tactic(auto, using(crate::proofs::RoomLemmas::sizes))]
fn hash_room(room: usize, value: &AttrValue) -> Option<usize>
    ensures { Takes room (length (hashed_text (value_hash value.now))) result }
{
    match value {
        AttrValue::Text(_) => room.checked_sub(40),
        AttrValue::Number(_) => room.checked_sub(8),
    }
}

/// What is left after an attribute in the area.
#[tactic(auto, using(crate::proofs::RoomLemmas::sizes))]
fn attribute_room(room: usize, pair: &(Text, AttrValue)) -> Option<usize>
    ensures { Takes room (length (attribute_text pair.now)) result }
{
    let room = string_room(room, pair.0.as_bytes().len())?;
    value_room(room, &pair.1)
}

/// What is left after an attribute in the clear part.
#[tactic(auto, using(crate::proofs::RoomLemmas::sizes))]
fn hashed_room(room: usize, pair: &(Text, AttrValue)) -> Option<usize>
    ensures { Takes room (length (pair_text (pair_hash pair.now))) result }
{
    let room = string_room(room, pair.0.as_bytes().len())?;
    hash_room(room, &pair.1)
}

/// What is left after the attributes of an item in the area.
#[tactic(auto, using(crate::proofs::RoomLemmas::sizes))]
fn attributes_room(room: usize, attributes: &Attributes) -> Option<usize>
    ensures { Takes room (length (list_text attribute_text attributes.now)) result }
{
    let mut left = room.checked_sub(4)?;
    for pair in attributes.as_slice() {
        left = attribute_room(left, pair)?;
    }
    Some(left)
}

/// What is left after the attributes of an item in the clear part.
#[tactic(auto, using(crate::proofs::RoomLemmas::sizes))]
fn hashes_room(room: usize, attributes: &Attributes) -> Option<usize>
    ensures { Takes room (length (list_text pair_text (hashes attributes.now))) result }
{
    let mut left = room.checked_sub(4)?;
    for pair in attributes.as_slice() {
        left = hashed_room(left, pair)?;
    }
    Some(left)
}

/// What is left after an access entry.
#[tactic(auto, using(crate::proofs::RoomLemmas::sizes))]
fn entry_room(room: usize, entry: &Access) -> Option<usize>
    ensures { Takes room (length (access_text entry.now)) result }
{
    let room = room.checked_sub(4)?;
    let room = string_room(room, entry.display.as_bytes().len())?;
    string_room(room, entry.path.as_bytes().len())?.checked_sub(8)
}

/// What is left after the access entries of an item.
#[tactic(auto, using(crate::proofs::RoomLemmas::sizes))]
fn access_room(room: usize, entries: &[Access]) -> Option<usize>
    ensures { Takes room (length (list_text access_text entries.now)) result }
{
    let mut left = room.checked_sub(4)?;
    for entry in entries {
        left = entry_room(left, entry)?;
    }
    Some(left)
}

/// What is left after an item in the area.
#[tactic(auto, using(crate::proofs::RoomLemmas::sizes))]
fn item_room(room: usize, item: &FullItem) -> Option<usize>
    ensures { Takes room (length (item_text item.now)) result }
{
    let room = string_room(room, item.label.as_bytes().len())?;
    let room = string_room(room, item.value.len())?.checked_sub(36)?;
    let room = attributes_room(room, &item.attributes)?;
    access_room(room, item.access.as_slice())
}

/// What is left after the items in the area.
fn items_room(room: usize, items: &[FullItem]) -> Option<usize>
    ensures { Takes room (length (flat_map item_text items.now)) result }
{
    let mut left = room;
    for item in items {
        left = item_room(left, item)?;
    }
    Some(left)
}

/// What is left after the content type of an item, which version 0.0 leaves out.
#[tactic(auto, using(crate::proofs::RoomLemmas::sizes))]
fn content_room(room: usize, minor: u8, content: &Text) -> Option<usize>
    ensures { Takes room (length (content_text minor content.now)) result }
{
    if minor == 0 {
        Some(room)
    } else {
        string_room(room, content.as_bytes().len())
    }
}

/// What is left after an item in the clear part, with the hashes of its attributes.
#[tactic(auto, using(crate::proofs::RoomLemmas::sizes))]
fn clear_item_room(room: usize, minor: u8, clear_item: &ClearItem, item: &FullItem) -> Option<usize>
    ensures { Takes room (length (row_text minor (clear_item.now, item.now))) result }
{
    let room = hashes_room(room.checked_sub(8)?, &item.attributes)?;
    content_room(room, minor, &clear_item.content)
}

/// What is left after the items in the clear part.
fn clear_items_room(
    room: usize,
    minor: u8,
    clear: &[ClearItem],
    items: &[FullItem],
) -> Option<usize>
    requires { length items.now ≡ length clear.now }
    ensures { Takes room (length (flat_map (row_text minor) (zip clear.now items.now))) result }
{
    let mut left = room;
    for i in 0..clear.len() {
        left = clear_item_room(left, minor, &clear[i], &items[i])?;
    }
    Some(left)
}

/// What is left after the salt.
fn salt_room(room: usize, salt: &[u8; 8]) -> Option<usize>
    ensures { Takes room (length salt.now) result }
{
    room.checked_sub(salt.len())
}

/// What is left after the clear part without its items.
#[tactic(auto, using(crate::proofs::RoomLemmas::sizes))]
fn front_room(room: usize, clear: &Clear) -> Option<usize>
    ensures { Takes room (length (front_text clear.now) + 8) result }
{
    let room = salt_room(room, &clear.salt)?;
    string_room(room, clear.name.as_bytes().len())?.checked_sub(72)
}

/// What is left after the check of an area and its padding, if its items have `items` bytes.
fn ending_room(room: usize, items: usize) -> Option<usize>
    ensures { Takes room (16 + padding items) result }
{
    room.checked_sub(16 + (16 - items % 16) % 16)
}

/// The number of bytes of the area and of the whole file of a content. None if the file has more
/// bytes than there is room for.
#[tactic(auto, using(crate::proofs::RoomLemmas::sizes))]
pub fn sizes(room: usize, content: &Content) -> Option<(usize, usize)>
    requires { length content.now.items ≡ length content.now.clear.items }
    ensures { AreSizes content.now room result }
{
    let clear = &content.clear;
    let items = content.items.as_slice();
    let behind_front = front_room(room, clear)?;
    let behind_clear = clear_items_room(behind_front, clear.minor, clear.items.as_slice(), items)?;
    let left = items_room(behind_clear, items)?;
    let end = ending_room(left, behind_clear - left)?;
    Some((behind_clear - end, room - end))
}

/// What is left after the rows in the clear part.
fn clear_rows_room(room: usize, minor: u8, rows: &[(&ClearItem, &FullItem)]) -> Option<usize>
    ensures { Takes room
        (length (flat_map (λ row. row_text minor (row.0.now, row.1.now)) rows.now)) result }
{
    let mut left = room;
    for row in rows {
        left = clear_item_room(left, minor, row.0, row.1)?;
    }
    Some(left)
}

/// What is left after the rows in the area.
fn full_rows_room(room: usize, rows: &[(&ClearItem, &FullItem)]) -> Option<usize>
    ensures { Takes room (length (flat_map (λ row. item_text row.1.now) rows.now)) result }
{
    let mut left = room;
    for row in rows {
        left = item_room(left, row.1)?;
    }
    Some(left)
}

/// The number of bytes of the area and of the whole file of a front and rows. None if the file has
/// more bytes than there is room for.
#[tactic(auto, using(crate::proofs::RoomLemmas::sizes))]
pub fn row_sizes(
    room: usize,
    front: &Clear,
    rows: &[(&ClearItem, &FullItem)],
) -> Option<(usize, usize)>
    ensures { AreSizesOf ((length (front_text front.now) + 8)
        + length (flat_map (λ row. row_text front.now.minor (row.0.now, row.1.now)) rows.now))
        (length (flat_map (λ row. item_text row.1.now) rows.now)) room result }
{
    let behind_front = front_room(room, front)?;
    let behind_clear = clear_rows_room(behind_front, front.minor, rows)?;
    let left = full_rows_room(behind_clear, rows)?;
    let end = ending_room(left, behind_clear - left)?;
    Some((behind_clear - end, room - end))
}
