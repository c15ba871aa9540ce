// The clear part that a change stores, built beside the one that is shown until then.

ghost use Rattle.std.specs.Prelude.{◌≡◌, ◌++◌, ◌≤◌, ◌<◌, ◌+◌, IfOk, IsErrOf, Ok, min, length, map};
ghost use Rattle.std.specs.List.{AllByRecursion, list_all};
ghost use Rattle.std.specs.List.Sorted.{IsStrictlyIncreasing};
ghost use Rattle.attribute_hash.specs.Hash.{hashes};
ghost use Rattle.kr_base.specs.Attributes.{is_name};
ghost use Rattle.keyring_file.specs.Clear.{plain_content};
ghost use Rattle.keyring_file.specs.ClearText.{HasClear, most_iterations};
ghost use Rattle.keyring_seal.specs.Arranged.{of_rows};
ghost use Rattle.keyring_seal.specs.Whole.{most_bytes, opened, sealed};
ghost use Rattle.collection_store.specs.Changes.{minor_made};
ghost use Rattle.collection_store.specs.Preparing.{left_after, lent_at, looked};
ghost use Rattle.collection_store.specs.State.{ids_of};

use crate::sealing::image_of;
use crate::told::Told;
use item_store::RowList;
use keyring_file::{Clear, ClearItem, FullItem};
use keyring_seal::SealRefused;
use kr_base::{OutOfMemory, Text};
use kr_items::Items;
use replace_slot::Image;
use std::alloc::Global;

/// What a change is stored with: the time, how long the file may become, and the key.
#[derive(Clone, Copy)]
pub struct Frame {
    /// When the change is made, in seconds since 1970.
    pub time: u64,
    /// The length in bytes of the longest image.
    pub longest: usize,
    /// How many bytes the file may grow by.
    pub room: u64,
    /// The key that the file is encrypted with.
    pub key: [u8; 16],
    /// The vector that the file is encrypted with.
    pub vector: [u8; 16],
}

/// Whether this is the plain content type.
fn is_plain(content: &Text) -> bool
    ensures { result ≡ is_name plain_content content.now }
{
    content.as_bytes() == b"text/plain".as_slice()
}

/// Whether all items have the plain content type.
fn all_plain(items: &[ClearItem]) -> bool
    ensures { result ≡ list_all (λ item. is_name plain_content item.content) items.now }
{
    for item in items {
        if !is_plain(&item.content) {
            return false;
        }
    }
    true
}

/// The minor version: the old one while all content types are plain, and 1 otherwise.
fn minor_for(minor: u8, items: &[ClearItem]) -> u8
    ensures { result ≡ minor_made minor items.now }
{
    if all_plain(items) { minor } else { 1 }
}

/// A copy of a clear part with another label, salt, number of iterations, time of the change and items.
pub fn next_told(
    clear: &Clear,
    name: Text,
    salt: [u8; 8],
    iterations: u32,
    now: u64,
    items: Vec<ClearItem>,
) -> Told
    requires { IsStrictlyIncreasing (ids_of items.items) }
    ensures { result ≡ record clear.now {
      name = name;
      salt = salt;
      iterations = iterations;
      modified = now;
      items = items.items;
      minor = minor_made clear.now.minor items.items;
    } }
{
    let minor = minor_for(clear.minor, items.as_slice());
    Told::rising(Clear {
        name,
        created: clear.created,
        modified: now,
        flags: clear.flags,
        timeout: clear.timeout,
        iterations,
        salt,
        items: Items::new(items),
        minor,
    })
}

/// Appends the first of these items of the clear part together with the full item, if they have the same
/// id, and returns the items that are left.
fn put_lent<'a>(
    lent: &mut Vec<(&'a ClearItem, &'a FullItem)>,
    left: &'a [ClearItem],
    id: u32,
    item: &'a FullItem,
) -> Result<&'a [ClearItem], OutOfMemory>
    ensures put { IfOk result (λ more. map (λ row. (row.0.now, row.1.now)) lent.new.items
        ≡ map (λ row. (row.0.now, row.1.now)) lent.old.items ++ lent_at left.now id item.now) }
    ensures left { IfOk result (λ more. more.now ≡ left_after left.now id) }
{
    let (first, more) = match left.split_first() {
        Some((first, more)) => (first, more),
        None => return Ok(left),
    };
    if first.id.0 != id {
        return Ok(left);
    }
    lent.push((first, item))?;
    Ok(more)
}

/// The items of the clear part, each with the full item that has its id. Both are in order of their ids, so
/// that one walk over them finds all.
fn lent_rows<'a>(
    alloc: Global,
    items: &'a [ClearItem],
    rows: &'a RowList,
) -> Result<Vec<(&'a ClearItem, &'a FullItem)>, OutOfMemory>
    requires rising { IsStrictlyIncreasing (ids_of items.now) }
    requires there { map (λ row. row.0) (looked items.now rows.now) ≡ items.now }
    ensures { IfOk result (λ lent. map (λ row. (row.0.now, row.1.now)) lent.items
        ≡ looked items.now rows.now) }
{
    let mut lent = Vec::with_capacity(alloc, items.len())?;
    let mut left = items;
    let rows = rows.as_slice();
    for row in rows {
        left = put_lent(&mut lent, left, row.0.0, &row.2)?;
    }
    Ok(lent)
}

/// Encrypts the file of a clear part and the items.
///
/// Refused with `TooLarge` only if the file would be longer than allowed, or longer than 67,108,864 bytes.
pub fn sealed_next(
    alloc: Global,
    frame: &Frame,
    next: &Told,
    rows: &RowList,
) -> Result<Image, SealRefused>
    requires there { map (λ row. row.0) (looked next.now.items rows.now) ≡ next.now.items }
    requires hashed { AllByRecursion (λ row. row.0.hashed ≡ hashes row.1.attributes)
        (looked next.now.items rows.now) }
    requires iterations { next.now.iterations ≤ most_iterations }
    ensures sealed { IfOk result (λ image. image ≡ sealed
        (of_rows next.now (looked next.now.items rows.now))
        frame.now.key frame.now.vector) }
    ensures opens { IfOk result (λ image. opened image frame.now.key frame.now.vector
        ≡ Ok (of_rows next.now (looked next.now.items rows.now))) }
    ensures clear { IfOk result (λ image. HasClear image
        (of_rows next.now (looked next.now.items rows.now)).clear) }
    ensures fits { IfOk result (λ image. length image
        ≤ min most_bytes (frame.now.longest + frame.now.room)) }
    ensures too_large { IsErrOf result SealRefused.TooLarge
        → min most_bytes (frame.now.longest + frame.now.room) < length (sealed
        (of_rows next.now (looked next.now.items rows.now))
        frame.now.key frame.now.vector) }
{
    let clear = next.clear();
    let lent = match lent_rows(alloc, clear.items.as_slice(), rows) {
        Ok(lent) => lent,
        Err(_) => return Err(SealRefused::OutOfMemory),
    };
    image_of(
        alloc,
        frame.longest,
        frame.room,
        clear,
        lent.as_slice(),
        frame.key,
        frame.vector,
    )
}
