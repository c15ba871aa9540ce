ghost use Rattle.std.specs.Prelude.{◌≡◌, ◌<◌, ◌≤◌, length, map, min, Ok, IfOk, OnOk, IsErrOf};
ghost use Rattle.std.specs.List.{AllByRecursion, flat_map};
ghost use Rattle.std.specs.List.Sorted.{IsStrictlyIncreasing};
ghost use Rattle.aes_cbc.specs.Cbc.{encrypted};
ghost use Rattle.attribute_hash.specs.Hash.{hashes};
ghost use Rattle.key_derivation.specs.Kdf.{key_of, vector_of};
ghost use Rattle.keyring_file.specs.Canonical.{checked, item_text, padded};
ghost use Rattle.keyring_file.specs.Short.{IsShortItem};
ghost use Rattle.keyring_file.specs.Clear.{IsOfVersion};
ghost use Rattle.keyring_file.specs.ClearText.{most_iterations};
ghost use Rattle.keyring_seal.specs.Arranged.{IsKnown, IsKnownLent, IsSealable, arranged, of_lent};
ghost use Rattle.keyring_seal.specs.Room.{Seals, area_measure, measure};
ghost use Rattle.keyring_seal.specs.Whole.{IsFileOf, most_bytes, opened, sealed};

use crate::content::{Content, known_content};
use crate::order::in_order;
use crate::room::{row_sizes, sizes};
use crate::seal_laws::what_is_sealed_opens;
use crate::writing::{put_area, put_clear, put_kept_clear};
use aes_cbc::Key;
use key_derivation::Derived;
use keyring_file::{
    Clear, ClearItem, FILE_LIMIT, FullItem, known_clear, known_clear_item, known_item,
};
use keyring_text::known_bytes;
use kr_base::OutOfMemory;
use std::alloc::Global;

const MOST_BYTES: usize = FILE_LIMIT;

/// Why a content wasn't sealed.
#[derive(Clone, Copy, Drop, PartialEq, Eq)]
pub enum SealRefused {
    /// The file would have more than 67,108,864 bytes.
    TooLarge,
    /// No memory was left.
    OutOfMemory,
}

/// The area of the items, encrypted under the key and the vector. `room` is its length.
fn encrypted_area(
    alloc: Global,
    room: usize,
    rows: &[(&ClearItem, &FullItem)],
    key: [u8; 16],
    vector: [u8; 16],
) -> Result<Vec<u8>, OutOfMemory>
    requires { AllByRecursion (λ row. IsShortItem row.1.now) rows.now }
    ensures { IfOk result (λ area. area.items ≡ encrypted key vector
        (checked (padded (flat_map (λ row. item_text row.1.now) rows.now)))) }
{
    let mut area = Vec::with_capacity(alloc, room)?;
    put_area(&mut area, rows)?;
    let cipher = Key::new(key);
    cipher.encrypt_in_place(vector, area.as_mut_slice());
    Ok(area)
}

/// The file of a content, given the lengths of its area and of the whole file.
fn content_file(
    alloc: Global,
    content: &Content,
    area_len: usize,
    len: usize,
    key: [u8; 16],
    vector: [u8; 16],
) -> Result<Vec<u8>, OutOfMemory>
    requires known { IsKnown content.now }
    requires sealable { IsSealable content.now }
    requires within { measure content.now ≤ most_bytes }
    requires area { area_len ≡ area_measure content.now }
    ensures { IfOk result (λ file. file.items ≡ sealed content.now key vector) }
{
    let clear = &content.clear;
    let rows = in_order(alloc, clear.items.as_slice(), content.items.as_slice())?;
    let area = encrypted_area(alloc, area_len, rows.as_slice(), key, vector)?;
    let mut file = Vec::with_capacity(alloc, len)?;
    put_clear(&mut file, clear, rows.as_slice(), area_len as u32)?;
    file.extend_from_slice(area.as_slice())?;
    Ok(file)
}

/// The file of a content, unless it would be too large.
fn content_sealed(
    alloc: Global,
    content: &Content,
    key: [u8; 16],
    vector: [u8; 16],
) -> Result<Vec<u8>, SealRefused>
    requires known { IsKnown content.now }
    requires sealable { IsSealable content.now }
    ensures { Seals most_bytes (sealed content.now key vector) result }
{
    let (area_len, len) = match sizes(MOST_BYTES, content) {
        Some(found) => found,
        None => return Err(SealRefused::TooLarge),
    };
    match content_file(alloc, content, area_len, len, key, vector) {
        Ok(file) => Ok(file),
        Err(_) => Err(SealRefused::OutOfMemory),
    }
}

/// The file of a content under a key. Its items are by rising number, with the hashes of their own
/// attributes; salt, key and vector are the given ones.
///
/// Refused with `TooLarge` exactly if the file would have more than 67,108,864 bytes; that
/// is measured before anything is built, so lack of memory never comes in its place. In
/// addition to the content, memory is taken for the file, for the encrypted area, and for
/// the order of the items.
pub fn seal(alloc: Global, content: &Content, key: &Derived) -> Result<Vec<u8>, SealRefused>
    requires { IsSealable content.now }
    ensures sealed { IfOk result (λ file. file.items
        ≡ sealed content.now (key_of key.now) (vector_of key.now)) }
    ensures is_file { IfOk result (λ file.
        IsFileOf file.items (key_of key.now) (vector_of key.now) (arranged content.now)) }
    ensures opens { IfOk result (λ file.
        opened file.items (key_of key.now) (vector_of key.now) ≡ Ok (arranged content.now)) }

    // It is refused exactly if the file would be too large.
    ensures fits { OnOk result
        (length (sealed content.now (key_of key.now) (vector_of key.now)) ≤ most_bytes) }
    ensures too_large { IsErrOf result SealRefused.TooLarge
        → most_bytes < length (sealed content.now (key_of key.now) (vector_of key.now)) }
    ensures measured { most_bytes < length (sealed content.now (key_of key.now) (vector_of key.now))
        → IsErrOf result SealRefused.TooLarge }
{
    known_content(content);
    known_bytes(&key.vector());
    what_is_sealed_opens();
    content_sealed(alloc, content, key.key(), key.vector())
}

/// What the types of borrowed rows guarantee of their values. The call only reads them.
fn known_rows(rows: &[(&ClearItem, &FullItem)])
    ensures { AllByRecursion IsKnownLent rows.now }
{
    for row in rows {
        known_clear_item(row.0);
        known_item(row.1);
    }
}

/// The file of a front and borrowed rows, given the lengths of its area and of the whole file.
fn rows_file(
    alloc: Global,
    front: &Clear,
    rows: &[(&ClearItem, &FullItem)],
    area_len: usize,
    len: usize,
    key: [u8; 16],
    vector: [u8; 16],
) -> Result<Vec<u8>, OutOfMemory>
    requires known { IsKnown (of_lent front.now rows.now) }
    requires rising { IsStrictlyIncreasing (map (λ row. row.0.now.id.0) rows.now) }
    requires kept { AllByRecursion (λ row. row.0.now.hashed ≡ hashes row.1.now.attributes)
        rows.now }
    requires iterations { front.now.iterations ≤ most_iterations }
    requires within { measure (of_lent front.now rows.now) ≤ most_bytes }
    requires area { area_len ≡ area_measure (of_lent front.now rows.now) }
    ensures { IfOk result (λ file. file.items ≡ sealed (of_lent front.now rows.now) key vector) }
{
    let area = encrypted_area(alloc, area_len, rows, key, vector)?;
    let mut file = Vec::with_capacity(alloc, len)?;
    put_kept_clear(&mut file, front, rows, area_len as u32)?;
    file.extend_from_slice(area.as_slice())?;
    Ok(file)
}

/// The file of a front and borrowed rows, unless there isn't room for it.
fn rows_sealed(
    alloc: Global,
    room: usize,
    front: &Clear,
    rows: &[(&ClearItem, &FullItem)],
    key: [u8; 16],
    vector: [u8; 16],
) -> Result<Vec<u8>, SealRefused>
    requires known { IsKnown (of_lent front.now rows.now) }
    requires rising { IsStrictlyIncreasing (map (λ row. row.0.now.id.0) rows.now) }
    requires kept { AllByRecursion (λ row. row.0.now.hashed ≡ hashes row.1.now.attributes)
        rows.now }
    requires iterations { front.now.iterations ≤ most_iterations }
    ensures { Seals (min room most_bytes) (sealed (of_lent front.now rows.now) key vector)
        result }
{
    let (area_len, len) = match row_sizes(room.min(MOST_BYTES), front, rows) {
        Some(found) => found,
        None => return Err(SealRefused::TooLarge),
    };
    match rows_file(alloc, front, rows, area_len, len, key, vector) {
        Ok(file) => Ok(file),
        Err(_) => Err(SealRefused::OutOfMemory),
    }
}

/// The file of a front and borrowed rows under a key and a vector: the one that `seal` returns for the same
/// content, and it opens to exactly this content. The rows are in order of their numbers and have
/// the hashes of their own attributes, which the caller keeps; the items of the front are ignored.
///
/// Refused with `TooLarge` exactly if the file would have more bytes than there is room, or more than
/// 67,108,864; that is measured before anything is built. Items are copied only into the file.
pub fn seal_rows(
    alloc: Global,
    room: usize,
    front: &Clear,
    rows: &[(&ClearItem, &FullItem)],
    key: [u8; 16],
    vector: [u8; 16],
) -> Result<Vec<u8>, SealRefused>
    requires rising { IsStrictlyIncreasing (map (λ row. row.0.now.id.0) rows.now) }
    requires version { IsOfVersion front.now.minor (map (λ row. row.0.now) rows.now) }
    requires kept { AllByRecursion (λ row. row.0.now.hashed ≡ hashes row.1.now.attributes)
        rows.now }
    requires iterations { front.now.iterations ≤ most_iterations }
    ensures sealed { IfOk result (λ file. file.items
        ≡ sealed (of_lent front.now rows.now) key vector) }
    ensures opens { IfOk result (λ file.
        opened file.items key vector ≡ Ok (of_lent front.now rows.now)) }

    // It is refused exactly if the file would be too large.
    ensures fits { OnOk result
        (length (sealed (of_lent front.now rows.now) key vector) ≤ min room most_bytes) }
    ensures too_large { IsErrOf result SealRefused.TooLarge
        → min room most_bytes < length (sealed (of_lent front.now rows.now) key vector) }
    ensures measured { min room most_bytes
        < length (sealed (of_lent front.now rows.now) key vector)
        → IsErrOf result SealRefused.TooLarge }
{
    known_clear(front);
    known_rows(rows);
    known_bytes(&vector);
    what_is_sealed_opens();
    rows_sealed(alloc, room, front, rows, key, vector)
}
