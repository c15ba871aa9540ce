// Images of files with many items that differ in their numbers alone.

use aes_cbc::Key;
use check_rows::cell;
use check_words::number;
use md5::{Digest, Md5};
use std::alloc::Global;

// Appends this many items of the clear part: the number of each, from 1 on, and these bytes.
fn put_clear_items(file: &mut Vec<u8>, count: u32, row: &[u8]) -> Option<()> {
    for before in 0..count {
        let id = before.saturating_add(1);
        file.extend_from_slice(&id.to_be_bytes()).ok()?;
        file.extend_from_slice(row).ok()?;
    }
    Some(())
}

// The text of this many items, with zeros up to the next multiple of 16.
fn text_of(alloc: Global, count: u32, item: &[u8]) -> Option<Vec<u8>> {
    let mut text = Vec::new(alloc);
    for _ in 0..count {
        text.extend_from_slice(item).ok()?;
    }
    let missing = (16 - text.len() % 16) % 16;
    for _ in 0..missing {
        text.push(0).ok()?;
    }
    Some(text)
}

// The MD5 of a text, and the text.
fn checked(alloc: Global, text: &[u8]) -> Option<Vec<u8>> {
    let digest = Md5::digest(text);
    let mut area = Vec::from_slice(alloc, digest.as_slice()).ok()?;
    area.extend_from_slice(text).ok()?;
    Some(area)
}

fn sixteen(alloc: Global, words: &str) -> Option<[u8; 16]> {
    let bytes = hex::decode(alloc, words).ok()?;
    <[u8; 16]>::try_from(bytes.as_slice()).ok()
}

// Encrypts an area under a key and a vector.
fn encrypt(area: &mut [u8], key: [u8; 16], vector: [u8; 16]) -> Option<()> {
    if area.len() % 16 != 0 {
        return None;
    }
    Key::new(key).encrypt_in_place(vector, area);
    Some(())
}

fn area_of(
    alloc: Global,
    count: u32,
    item: &str,
    key: [u8; 16],
    vector: [u8; 16],
) -> Option<Vec<u8>> {
    let item = hex::decode(alloc, item).ok()?;
    let text = text_of(alloc, count, item.as_slice())?;
    let mut area = checked(alloc, text.as_slice())?;
    encrypt(area.as_mut_slice(), key, vector)?;
    Some(area)
}

// The clear part: all before the number of its items, that number, and the items.
fn clear_of(alloc: Global, count: u32, front: &str, row: &str) -> Option<Vec<u8>> {
    let mut file = hex::decode(alloc, front).ok()?;
    let row = hex::decode(alloc, row).ok()?;
    file.extend_from_slice(&count.to_be_bytes()).ok()?;
    put_clear_items(&mut file, count, row.as_slice())?;
    Some(file)
}

/// The bytes of a file with many items, from the third cell on: the number of the items; the clear part up to that number, what
/// the clear part has of each item after its own number, and what the area has of each; the key, and the vector. All but the
/// number are hex.
pub fn many_items(alloc: Global, cells: &str) -> Option<Vec<u8>> {
    let count = u32::try_from(number(cell(cells, 2))?).ok()?;
    let key = sixteen(alloc, cell(cells, 6))?;
    let vector = sixteen(alloc, cell(cells, 7))?;
    let mut file = clear_of(alloc, count, cell(cells, 3), cell(cells, 4))?;
    let area = area_of(alloc, count, cell(cells, 5), key, vector)?;
    let length = u32::try_from(area.len()).ok()?;
    file.extend_from_slice(&length.to_be_bytes()).ok()?;
    file.extend_from_slice(area.as_slice()).ok()?;
    Some(file)
}
