ghost use Rattle.std.specs.Prelude.{◌≡◌, ◌+◌, ◌*◌, ◌<◌, ◌≤◌, ◌++◌, ◌∷◌, List, [], ℕ, length, take, drop, Ok, Err, IfOk};
ghost use Rattle.keyring_text.specs.FieldReading.{Gives};
ghost use Rattle.keyring_file.specs.FileReading as reading;
ghost use Rattle.keyring_file.specs.declared.fault.ClearFault.TheVariants as clear_fault;
ghost use Rattle.keyring_file.specs.Clear.{ClearPart, IsOfVersion, plain_content, pairs_in};
ghost use Rattle.keyring_file.specs.ClearText.{ClearText};
ghost use Rattle.keyring_file.specs.Names.{has_name, AddsName};
ghost use Rattle.keyring_file.specs.Numbers.{Keeps, has_number};
ghost use Rattle.keyring_file.specs.FileReading.{in_clear, part_and_area};

use crate::magic::begins_with_magic;
use crate::names::{Names, is_new_name, no_names};
use crate::numbers::{Numbers, is_new, no_numbers};
use crate::{Clear, ClearFault, ClearItem};
use keyring_text::{
    FieldFault, ReadRefused, name_at, number_at, span_at, string_at, text_at, time_at,
};
use kr_base::{HashedPair, HashedValue, ItemId, OutOfMemory, Text};
use kr_items::Items;
use std::alloc::Global;

/// The most times that a password may be hashed.
const MOST_ITERATIONS: u32 = 1_000_000;

/// A hashed value with its kind, and the bytes after it.
#[tactic(auto, unfolding(crate::specs::FileReading::hashed_at))]
fn hashed_at(alloc: Global, bytes: &[u8]) -> Result<(HashedValue, &[u8]), ReadRefused<FieldFault>>
    ensures { Gives (λ x. (x.0, x.1.now)) result (reading.hashed_at bytes.now) }
{
    let (kind, rest) = number_at(bytes)?;
    match kind {
        0 => {
            let (found, rest) = string_at(alloc, rest)?;
            Ok((HashedValue::Text(found), rest))
        }
        1 => {
            let (found, rest) = number_at(rest)?;
            Ok((HashedValue::Number(found), rest))
        }
        _ => Err(ReadRefused::Fault(FieldFault::BadKind)),
    }
}

/// A hashed attribute whose name isn't one of those read before, and the bytes after it.
#[tactic(auto, unfolding(crate::specs::FileReading::pair_at))]
fn new_pair_at<'a>(
    alloc: Global,
    names: &mut Names<'a>,
    bytes: &'a [u8],
) -> Result<(HashedPair, &'a [u8]), ReadRefused<FieldFault>>
    ensures read { Gives (λ x. (x.0, x.1.now)) result
        (reading.new_pair_at (has_name names.old) bytes.now) }
    ensures seen { IfOk result (λ x. AddsName names.old names.new x.0.name) }
{
    let (name, spelled, rest) = name_at(alloc, bytes)?;
    if !is_new_name(names, spelled)? {
        return Err(ReadRefused::Fault(FieldFault::DuplicateName));
    }
    let (value, rest) = hashed_at(alloc, rest)?;
    Ok((HashedPair { name, value }, rest))
}

/// This many hashed attributes of one item.
fn so_many_pairs_at(
    alloc: Global,
    count: u32,
    bytes: &[u8],
) -> Result<(Vec<HashedPair>, &[u8]), ReadRefused<FieldFault>>
    ensures { Gives (λ x. (x.0.items, x.1.now)) result (reading.so_many_pairs_at count bytes.now) }
{
    // At most what the first push would reserve: a number that is merely claimed reserves no memory.
    let mut pairs = Vec::with_capacity(alloc, if count < 4 { count as usize } else { 4 })?;
    let mut names = no_names(alloc);
    let mut rest = bytes;
    for _ in 0..count {
        let (pair, after) = new_pair_at(alloc, &mut names, rest)?;
        pairs.push(pair)?;
        rest = after;
    }
    Ok((pairs, rest))
}

/// The hashed attributes of one item.
#[tactic(auto, unfolding(crate::specs::FileReading::pairs_at))]
fn pairs_at(
    alloc: Global,
    bytes: &[u8],
) -> Result<(Vec<HashedPair>, &[u8]), ReadRefused<FieldFault>>
    ensures { Gives (λ x. (x.0.items, x.1.now)) result (reading.pairs_at bytes.now) }
{
    let (count, rest) = number_at(bytes)?;
    let (pairs, rest) = so_many_pairs_at(alloc, count, rest)?;
    Ok((pairs, rest))
}

/// The content type of version 0.0.
#[tactic(auto)]
fn plain(alloc: Global) -> Result<Text, OutOfMemory>
    ensures { IfOk result (λ text. text ≡ plain_content) }
{
    match Text::from_str(alloc, "text/plain")? {
        Some(text) => Ok(text),
        None => unreachable!(),
    }
}

/// A content type, which version 0.0 leaves out.
#[tactic(auto, unfolding(crate::specs::FileReading::content_at))]
fn content_at(
    alloc: Global,
    minor: u8,
    bytes: &[u8],
) -> Result<(Text, &[u8]), ReadRefused<FieldFault>>
    ensures { Gives (λ x. (x.0, x.1.now)) result (reading.content_at minor bytes.now) }
{
    if minor == 0 {
        return Ok((plain(alloc)?, bytes));
    }
    let (text, rest) = text_at(alloc, bytes)?;
    Ok((text, rest))
}

/// What follows the number of an item.
#[tactic(auto, unfolding(crate::specs::FileReading::clear_item_at))]
fn clear_item_at(
    alloc: Global,
    minor: u8,
    id: u32,
    bytes: &[u8],
) -> Result<(ClearItem, &[u8]), ReadRefused<FieldFault>>
    ensures { Gives (λ x. (x.0, x.1.now)) result (reading.clear_item_at minor id bytes.now) }
{
    let (kind, rest) = number_at(bytes)?;
    let (pairs, rest) = pairs_at(alloc, rest)?;
    let (content, rest) = content_at(alloc, minor, rest)?;
    let hashed = Items::new(pairs);
    Ok((
        ClearItem {
            id: ItemId(id),
            kind,
            hashed,
            content,
        },
        rest,
    ))
}

/// A fault of a field, as one of the clear part.
fn clear_fault(fault: FieldFault) -> ClearFault
    ensures { result ≡ reading.clear_fault fault }
{
    match fault {
        FieldFault::Short => ClearFault::Short,
        FieldFault::BadText => ClearFault::BadText,
        FieldFault::BadKind => ClearFault::BadKind,
        FieldFault::DuplicateName => ClearFault::DuplicateName,
    }
}

/// A refusal of a field, as one of the clear part.
fn clear_refused(refused: ReadRefused<FieldFault>) -> ReadRefused<ClearFault>
    ensures { result ≡ reading.clear_refused refused }
{
    match refused {
        ReadRefused::Fault(fault) => ReadRefused::Fault(clear_fault(fault)),
        ReadRefused::OutOfMemory => ReadRefused::OutOfMemory,
    }
}

/// The number of an item.
fn id_at(bytes: &[u8]) -> Result<(u32, &[u8]), ReadRefused<ClearFault>>
    ensures { Gives (λ x. (x.0, x.1.now)) result (reading.id_at bytes.now) }
{
    match number_at(bytes) {
        Ok((id, rest)) => Ok((id, rest)),
        Err(refused) => Err(clear_refused(refused)),
    }
}

/// What follows the number of an item.
fn item_behind(
    alloc: Global,
    minor: u8,
    id: u32,
    bytes: &[u8],
) -> Result<(ClearItem, &[u8]), ReadRefused<ClearFault>>
    ensures { Gives (λ x. (x.0, x.1.now)) result (reading.item_behind minor id bytes.now) }
{
    match clear_item_at(alloc, minor, id, bytes) {
        Ok((item, rest)) => Ok((item, rest)),
        Err(refused) => Err(clear_refused(refused)),
    }
}

/// An item whose number isn't that of an item before it, and the bytes after it.
fn new_item_at<'a>(
    alloc: Global,
    minor: u8,
    numbers: &mut Numbers,
    items: &[ClearItem],
    bytes: &'a [u8],
) -> Result<(ClearItem, &'a [u8]), ReadRefused<ClearFault>>
    requires { Keeps items.now numbers.old }
    ensures read { Gives (λ x. (x.0, x.1.now)) result
        (reading.new_item_at minor (has_number items.now) bytes.now) }
    ensures kept { IfOk result (λ x. Keeps (items.now ++ x.0 ∷ []) numbers.new) }
{
    let (id, rest) = id_at(bytes)?;
    if !is_new(alloc, numbers, items, id)? {
        return Err(ReadRefused::Fault(ClearFault::DuplicateId));
    }
    let (item, rest) = item_behind(alloc, minor, id, rest)?;
    Ok((item, rest))
}

/// This many items of the clear part.
fn so_many_items_at(
    alloc: Global,
    minor: u8,
    count: u32,
    bytes: &[u8],
) -> Result<(Vec<ClearItem>, &[u8]), ReadRefused<ClearFault>>
    ensures { Gives (λ x. (x.0.items, x.1.now)) result
        (reading.so_many_items_at minor count bytes.now) }
{
    // Room for as many as are claimed, but for no more than the bytes can contain, 12 for an item
    // here and 52 in the area: a number that is merely claimed reserves no memory.
    let mut items = Vec::with_capacity(alloc, (count as usize).min(bytes.len() / 64))?;
    let mut numbers = no_numbers(alloc);
    let mut rest = bytes;
    for _ in 0..count {
        let (item, after) = new_item_at(alloc, minor, &mut numbers, items.as_slice(), rest)?;
        items.push(item)?;
        rest = after;
    }
    Ok((items, rest))
}

/// The items of the clear part.
#[tactic(auto, unfolding(crate::specs::FileReading::clear_items_at))]
fn clear_items_at(
    alloc: Global,
    minor: u8,
    bytes: &[u8],
) -> Result<(Vec<ClearItem>, &[u8]), ReadRefused<ClearFault>>
    ensures { Gives (λ x. (x.0.items, x.1.now)) result (reading.clear_items_at minor bytes.now) }
{
    let (count, rest) = id_at(bytes)?;
    let (items, rest) = so_many_items_at(alloc, minor, count, rest)?;
    Ok((items, rest))
}

/// The bytes after the first 16, which must be those of every keyring file.
#[tactic(auto, unfolding(crate::specs::FileReading::magic_at))]
fn magic_at(bytes: &[u8]) -> Result<&[u8], ReadRefused<ClearFault>>
    ensures { Gives (λ x. (tt, x.now)) result (reading.magic_at bytes.now) }
{
    if !begins_with_magic(bytes) {
        return Err(ReadRefused::Fault(ClearFault::Magic));
    }
    if bytes.len() < 16 {
        return Err(ReadRefused::Fault(ClearFault::Short));
    }
    let (_, rest) = bytes.split_at(16);
    Ok(rest)
}

/// One byte of the version, which may be at most `most`.
fn version_byte_at(bytes: &[u8], most: u8) -> Result<(u8, &[u8]), ReadRefused<ClearFault>>
    ensures read { Gives (λ x. (x.0, x.1.now)) result (reading.version_byte_at most bytes.now) }
    ensures few { IfOk result (λ x. x.0 ≤ most) }
{
    match bytes {
        [] => Err(ReadRefused::Fault(ClearFault::Short)),
        [byte, rest @ ..] => {
            if *byte > most {
                return Err(ReadRefused::Fault(ClearFault::Version));
            }
            Ok((*byte, rest))
        }
    }
}

/// The minor number of the version.
#[tactic(auto, unfolding(crate::specs::FileReading::version_at))]
fn version_at(bytes: &[u8]) -> Result<(u8, &[u8]), ReadRefused<ClearFault>>
    ensures read { Gives (λ x. (x.0, x.1.now)) result (reading.version_at bytes.now) }
    ensures known { IfOk result (λ x. x.0 ≤ 1) }
{
    let (_, rest) = version_byte_at(bytes, 0)?;
    let (minor, rest) = version_byte_at(rest, 1)?;
    let (_, rest) = version_byte_at(rest, 0)?;
    let (_, rest) = version_byte_at(rest, 0)?;
    Ok((minor, rest))
}

/// The fields of the clear part from the name to the iterations.
#[derive(Drop)]
struct Front {
    name: Text,
    created: u64,
    modified: u64,
    flags: u32,
    timeout: u32,
    iterations: u32,
}

/// The front with this name and these times, whose three numbers are read.
#[tactic(auto, unfolding(crate::specs::FileReading::numbers_after))]
fn numbers_after(
    name: Text,
    created: u64,
    modified: u64,
    bytes: &[u8],
) -> Result<(Front, &[u8]), ReadRefused<FieldFault>>
    ensures { Gives (λ x. (x.0, x.1.now)) result
        (reading.numbers_after name created modified bytes.now) }
{
    let (flags, rest) = number_at(bytes)?;
    let (timeout, rest) = number_at(rest)?;
    let (iterations, rest) = number_at(rest)?;
    Ok((
        Front {
            name,
            created,
            modified,
            flags,
            timeout,
            iterations,
        },
        rest,
    ))
}

#[tactic(auto, unfolding(crate::specs::FileReading::front_at))]
fn front_at(alloc: Global, bytes: &[u8]) -> Result<(Front, &[u8]), ReadRefused<FieldFault>>
    ensures { Gives (λ x. (x.0, x.1.now)) result (reading.front_at bytes.now) }
{
    let (name, rest) = text_at(alloc, bytes)?;
    let (created, rest) = time_at(rest)?;
    let (modified, rest) = time_at(rest)?;
    numbers_after(name, created, modified, rest)
}

/// The front. `TooManyIterations` if there are more than 1,000,000 iterations.
#[tactic(auto, unfolding(crate::specs::FileReading::limited_at))]
fn limited_at(alloc: Global, bytes: &[u8]) -> Result<(Front, &[u8]), ReadRefused<ClearFault>>
    ensures { Gives (λ x. (x.0, x.1.now)) result (reading.limited_at bytes.now) }
{
    match front_at(alloc, bytes) {
        Ok((front, rest)) => {
            if front.iterations > MOST_ITERATIONS {
                return Err(ReadRefused::Fault(ClearFault::TooManyIterations));
            }
            Ok((front, rest))
        }
        Err(refused) => Err(clear_refused(refused)),
    }
}

/// The salt, borrowed from the file, and the bytes after the four reserved numbers that follow it.
#[tactic(auto, unfolding(crate::specs::FileReading::salt_at))]
fn salt_at(bytes: &[u8]) -> Result<(&[u8], &[u8]), ReadRefused<FieldFault>>
    ensures read { Gives (λ x. (x.0.now, x.1.now)) result (reading.salt_at bytes.now) }
    ensures eight { IfOk result (λ x. length x.0.now ≡ 8) }
{
    let (salt, rest) = span_at(bytes, 8)?;
    let (_, rest) = span_at(rest, 16)?;
    Ok((salt, rest))
}

/// The same, refused with a fault of the clear part.
fn clear_salt_at(bytes: &[u8]) -> Result<(&[u8], &[u8]), ReadRefused<ClearFault>>
    ensures read { Gives (λ x. (x.0.now, x.1.now)) result (in_clear (reading.salt_at bytes.now)) }
    ensures eight { IfOk result (λ x. length x.0.now ≡ 8) }
{
    match salt_at(bytes) {
        Ok((salt, rest)) => Ok((salt, rest)),
        Err(refused) => Err(clear_refused(refused)),
    }
}

/// Eight bytes as an array.
fn eight_of(bytes: &[u8]) -> [u8; 8]
    requires { length bytes.now ≡ 8 }
    ensures { result ≡ bytes.now }
{
    let mut eight = [0; 8];
    eight.copy_from_slice(bytes);
    eight
}

/// A clear part of these fields.
fn clear_of(minor: u8, front: Front, salt: [u8; 8], items: Items<ClearItem>) -> Clear
    requires { IsOfVersion minor items }
    ensures { result ≡ reading.clear_of minor front salt items }
{
    Clear {
        name: front.name,
        created: front.created,
        modified: front.modified,
        flags: front.flags,
        timeout: front.timeout,
        iterations: front.iterations,
        salt,
        items,
        minor,
    }
}

/// The salt and the items, which follow the version and the front.
#[tactic(auto, unfolding(crate::specs::FileReading::items_after))]
fn items_after(
    alloc: Global,
    minor: u8,
    front: Front,
    bytes: &[u8],
) -> Result<(Clear, &[u8]), ReadRefused<ClearFault>>
    requires { minor ≤ 1 }
    ensures { Gives (λ x. (x.0, x.1.now)) result (reading.items_after minor front bytes.now) }
{
    let (salt, rest) = clear_salt_at(bytes)?;
    let salt = eight_of(salt);
    let (items, rest) = clear_items_at(alloc, minor, rest)?;
    let clear = clear_of(minor, front, salt, Items::new(items));
    Ok((clear, rest))
}

/// All of the clear part except the length of the area.
#[tactic(auto, unfolding(crate::specs::FileReading::clear_at))]
fn clear_at(alloc: Global, file: &[u8]) -> Result<(Clear, &[u8]), ReadRefused<ClearFault>>
    ensures { Gives (λ x. (x.0, x.1.now)) result (reading.clear_at file.now) }
{
    let rest = magic_at(file)?;
    let (minor, rest) = version_at(rest)?;
    let (front, rest) = limited_at(alloc, rest)?;
    items_after(alloc, minor, front, rest)
}

/// The area, which is all that is left after its length.
#[tactic(auto, unfolding(crate::specs::FileReading::encrypted_at))]
fn encrypted_at(bytes: &[u8]) -> Result<&[u8], ReadRefused<ClearFault>>
    ensures { Gives (λ x. x.now) result (reading.encrypted_at bytes.now) }
{
    let (len, area) = id_at(bytes)?;
    if len < 16 || len % 16 > 0 {
        return Err(ReadRefused::Fault(ClearFault::AreaLength));
    }
    let len = len as usize;
    if area.len() < len {
        return Err(ReadRefused::Fault(ClearFault::Short));
    }
    if len < area.len() {
        return Err(ReadRefused::Fault(ClearFault::Trailing));
    }
    Ok(area)
}

/// The clear part, and the encrypted area after it.
#[tactic(auto, unfolding(crate::specs::FileReading::clear_read))]
fn parts_of(alloc: Global, file: &[u8]) -> Result<(Clear, &[u8]), ReadRefused<ClearFault>>
    ensures { Gives (λ x. (x.0, x.1.now)) result (reading.clear_read file.now) }
{
    let (clear, rest) = clear_at(alloc, file)?;
    let area = encrypted_at(rest)?;
    Ok((clear, area))
}

/// The clear part, and the place at which the encrypted area begins.
fn placed(alloc: Global, file: &[u8]) -> Result<(Clear, usize), ReadRefused<ClearFault>>
    ensures exact { Gives (part_and_area file.now) result (reading.clear_read file.now) }
    ensures place { IfOk result (λ x. x.1 ≤ length file.now) }
{
    match parts_of(alloc, file) {
        Ok((clear, area)) => {
            let place = file.len().saturating_sub(area.len());
            Ok((clear, place))
        }
        Err(refused) => Err(refused),
    }
}

/// The clear part of a keyring file, and the place at which the encrypted area begins, counted from
/// the start of the file (GNOME keyring file format). The fault is the first one from the left,
/// whatever the order of the variants; if a field goes past the end of the file, the fault is where
/// the field begins.
pub fn read_clear(alloc: Global, file: &[u8]) -> Result<(Clear, usize), ReadRefused<ClearFault>>
    // The file spells what is returned, and what it spells is returned, unless memory runs out.
    ensures found { IfOk result (λ x. ClearText file.now x.0 (drop x.1 file.now)) }
    ensures place { IfOk result (λ x. x.1 ≤ length file.now) }
    ensures only { (clear : ClearPart) (area : List ℕ) → ClearText file.now clear area
        → Gives (part_and_area file.now) result (Ok (clear, area)) }

    // Which fault is returned.
    ensures exact { Gives (part_and_area file.now) result (reading.clear_read file.now) }

    // A proper prefix of a file that can be read is `Short`.
    ensures cut { (whole area : List ℕ) (clear : ClearPart) (n : ℕ) → ClearText whole clear area
        → n < length whole → file.now ≡ take n whole
        → Gives (part_and_area file.now) result (Err clear_fault.Short) }

    // Each item and each hashed attribute takes at least 12 bytes of the file.
    ensures few { IfOk result (λ x. 12 * (length x.0.items + pairs_in x.0.items)
        ≤ length file.now) }
{
    placed(alloc, file)
}
