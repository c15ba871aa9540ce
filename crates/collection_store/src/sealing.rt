// The image that a change stores is encrypted before any call of the device.

ghost use Rattle.std.specs.Prelude.{◌≡◌, ◌+◌, ◌≤◌, ◌<◌, IfOk, IsErrOf, Ok, length, map, min};
ghost use Rattle.std.specs.List.{AllByRecursion};
ghost use Rattle.std.specs.List.Sorted.{IsStrictlyIncreasing};
ghost use Rattle.attribute_hash.specs.Hash.{hashes};
ghost use Rattle.keyring_file.specs.Clear.{IsOfVersion};
ghost use Rattle.keyring_file.specs.ClearText.{HasClear, most_iterations};
ghost use Rattle.keyring_seal.specs.Arranged.{of_lent};
ghost use Rattle.keyring_seal.specs.Whole.{most_bytes, opened, sealed};

use keyring_file::{Clear, ClearItem, FILE_LIMIT, FullItem, a_file_that_is_read_is_spelled_so};
use keyring_seal::{SealRefused, seal_rows};
use keyring_text::known_bytes;
use replace_slot::Image;
use std::alloc::Global;

/// How long a file may become that may grow by `room` bytes beyond its longest image.
fn room_for(longest: usize, room: u64) -> usize
    ensures { min result most_bytes ≡ min most_bytes (longest + room) }
{
    longest.saturating_add(room.min(FILE_LIMIT as u64) as usize)
}

/// The image of a clear part and borrowed rows. The file may grow by `room` bytes beyond its longest image.
///
/// Refused with `TooLarge` if the file would grow by more, or be longer than 67,108,864 bytes.
pub fn image_of(
    alloc: Global,
    longest: usize,
    room: u64,
    front: &Clear,
    rows: &[(&ClearItem, &FullItem)],
    key: [u8; 16],
    vector: [u8; 16],
) -> Result<Image, SealRefused>
    requires rising { IsStrictlyIncreasing (map (λ row. row.0.now.id.0) rows.now) }
    requires version { IsOfVersion front.now.minor (map (λ row. row.0.now) rows.now) }
    requires kept { AllByRecursion (λ row. row.0.now.hashed ≡ hashes row.1.now.attributes)
        rows.now }
    requires iterations { front.now.iterations ≤ most_iterations }
    ensures sealed { IfOk result (λ image. image ≡ sealed (of_lent front.now rows.now) key vector) }
    ensures opens { IfOk result (λ image.
        opened image key vector ≡ Ok (of_lent front.now rows.now)) }
    ensures clear { IfOk result (λ image. HasClear image (of_lent front.now rows.now).clear) }
    ensures fits { IfOk result (λ image. length image ≤ min most_bytes (longest + room)) }
    ensures too_large { IsErrOf result SealRefused.TooLarge → min most_bytes (longest + room)
        < length (sealed (of_lent front.now rows.now) key vector) }
    ensures measured { min most_bytes (longest + room)
        < length (sealed (of_lent front.now rows.now) key vector)
        → IsErrOf result SealRefused.TooLarge }
{
    a_file_that_is_read_is_spelled_so();
    let most = room_for(longest, room);
    let bytes = match seal_rows(alloc, most, front, rows, key, vector) {
        Ok(bytes) => bytes,
        Err(refused) => return Err(refused),
    };
    known_bytes(bytes.as_slice());
    match Image::new(alloc, bytes) {
        Ok(image) => Ok(image),
        Err(_) => Err(SealRefused::OutOfMemory),
    }
}
