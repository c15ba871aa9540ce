ghost use Rattle.std.specs.Prelude.{◌≡◌, ◌*◌, ◌≤◌, List, ℕ, length, IsTrue, Ok, Err, IfOk};
ghost use Rattle.keyring_text.specs.FieldReading.{Gives};
ghost use Rattle.keyring_file.specs.FileReading as reading;
ghost use Rattle.keyring_file.specs.declared.area.FullItem.{FullItem};
ghost use Rattle.keyring_file.specs.AreaText.{AreaText};
ghost use Rattle.keyring_file.specs.Names.{has_name, AddsName};
ghost use Rattle.keyring_file.specs.Gathered.{gathered};

use crate::names::{Names, is_new_name, no_names};
use crate::{Access, AreaFault, FullItem};
use keyring_text::{
    FieldFault, ReadRefused, name_at, number_at, slice_at, span_at, string_at, text_at, time_at,
};
use kr_base::{AttrValue, Attributes, Bytes, OutOfMemory, Text};
use kr_items::Items;
use md5::{Digest, Md5};
use std::alloc::Global;

/// A value with its kind, and the bytes after it.
#[tactic(auto, unfolding(crate::specs::FileReading::value_at))]
fn value_at(alloc: Global, bytes: &[u8]) -> Result<(AttrValue, &[u8]), ReadRefused<FieldFault>>
    ensures { Gives (λ x. (x.0, x.1.now)) result (reading.value_at bytes.now) }
{
    let (kind, rest) = number_at(bytes)?;
    match kind {
        0 => {
            let (found, rest) = text_at(alloc, rest)?;
            Ok((AttrValue::Text(found), rest))
        }
        1 => {
            let (found, rest) = number_at(rest)?;
            Ok((AttrValue::Number(found), rest))
        }
        _ => Err(ReadRefused::Fault(FieldFault::BadKind)),
    }
}

/// An attribute whose name isn't one of those read before, and the bytes after it.
fn new_attribute_at<'a>(
    alloc: Global,
    names: &mut Names<'a>,
    bytes: &'a [u8],
) -> Result<((Text, AttrValue), &'a [u8]), ReadRefused<FieldFault>>
    ensures read { Gives (λ x. (x.0, x.1.now)) result
        (reading.new_attribute_at (has_name names.old) bytes.now) }
    ensures seen { IfOk result (λ x. AddsName names.old names.new x.0.0) }
{
    let (name, spelled, rest) = name_at(alloc, bytes)?;
    if !is_new_name(names, spelled)? {
        return Err(ReadRefused::Fault(FieldFault::DuplicateName));
    }
    let (value, rest) = value_at(alloc, rest)?;
    Ok(((name, value), rest))
}

/// This many attributes of one item, in the order of the file.
fn so_many_attributes_at(
    alloc: Global,
    count: u32,
    bytes: &[u8],
) -> Result<(Vec<(Text, AttrValue)>, &[u8]), ReadRefused<FieldFault>>
    ensures { Gives (λ x. (x.0.items, x.1.now)) result
        (reading.so_many_attributes_at count bytes.now) }
{
    // At most what the first push would reserve: a number that is merely claimed reserves no memory.
    let mut pairs = Vec::with_capacity(alloc, if count < 4 { count as usize } else { 4 })?;
    let mut names = no_names(alloc);
    let mut rest = bytes;
    for _ in 0..count {
        let (pair, after) = new_attribute_at(alloc, &mut names, rest)?;
        pairs.push(pair)?;
        rest = after;
    }
    Ok((pairs, rest))
}

/// The attributes of one item, in the order of the file.
#[tactic(auto, unfolding(crate::specs::FileReading::listed_attributes_at))]
fn listed_attributes_at(
    alloc: Global,
    bytes: &[u8],
) -> Result<(Vec<(Text, AttrValue)>, &[u8]), ReadRefused<FieldFault>>
    ensures { Gives (λ x. (x.0.items, x.1.now)) result (reading.listed_attributes_at bytes.now) }
{
    let (count, rest) = number_at(bytes)?;
    let (pairs, rest) = so_many_attributes_at(alloc, count, rest)?;
    Ok((pairs, rest))
}

/// The pairs as attributes, put in order.
fn in_order(alloc: Global, pairs: Vec<(Text, AttrValue)>) -> Result<Attributes, OutOfMemory>
    ensures { IfOk result (λ made. made ≡ gathered pairs.items) }
{
    kr_base::pairs_gather_one_list();
    Attributes::from_values(alloc, pairs)
}

/// The attributes of one item.
#[tactic(auto, unfolding(crate::specs::FileReading::attributes_at))]
fn attributes_at(
    alloc: Global,
    bytes: &[u8],
) -> Result<(Attributes, &[u8]), ReadRefused<FieldFault>>
    ensures { Gives (λ x. (x.0, x.1.now)) result (reading.attributes_at bytes.now) }
{
    let (pairs, rest) = listed_attributes_at(alloc, bytes)?;
    let attributes = in_order(alloc, pairs)?;
    Ok((attributes, rest))
}

/// The reserved fields that end an access entry.
#[tactic(auto, unfolding(crate::specs::FileReading::reserved_after))]
fn reserved_after(access: Access, bytes: &[u8]) -> Result<(Access, &[u8]), ReadRefused<FieldFault>>
    ensures { Gives (λ x. (x.0, x.1.now)) result (reading.reserved_after access bytes.now) }
{
    let (_, rest) = slice_at(bytes)?;
    let (_, rest) = span_at(rest, 4)?;
    Ok((access, rest))
}

/// An access entry.
#[tactic(auto, unfolding(crate::specs::FileReading::access_at))]
fn access_at(alloc: Global, bytes: &[u8]) -> Result<(Access, &[u8]), ReadRefused<FieldFault>>
    ensures { Gives (λ x. (x.0, x.1.now)) result (reading.access_at bytes.now) }
{
    let (allowed, rest) = number_at(bytes)?;
    let (display, rest) = text_at(alloc, rest)?;
    let (path, rest) = text_at(alloc, rest)?;
    reserved_after(
        Access {
            allowed,
            display,
            path,
        },
        rest,
    )
}

/// This many access entries.
fn so_many_accesses_at(
    alloc: Global,
    count: u32,
    bytes: &[u8],
) -> Result<(Vec<Access>, &[u8]), ReadRefused<FieldFault>>
    ensures { Gives (λ x. (x.0.items, x.1.now)) result
        (reading.so_many_accesses_at count bytes.now) }
{
    let mut entries = Vec::new(alloc);
    let mut rest = bytes;
    for _ in 0..count {
        let (access, after) = access_at(alloc, rest)?;
        entries.push(access)?;
        rest = after;
    }
    Ok((entries, rest))
}

/// The access entries of one item.
#[tactic(auto, unfolding(crate::specs::FileReading::accesses_at))]
fn accesses_at(alloc: Global, bytes: &[u8]) -> Result<(Vec<Access>, &[u8]), ReadRefused<FieldFault>>
    ensures { Gives (λ x. (x.0.items, x.1.now)) result (reading.accesses_at bytes.now) }
{
    let (count, rest) = number_at(bytes)?;
    let (entries, rest) = so_many_accesses_at(alloc, count, rest)?;
    Ok((entries, rest))
}

/// The item's last part: its attributes and its access entries.
#[tactic(auto, unfolding(crate::specs::FileReading::lists_at))]
fn lists_at(
    alloc: Global,
    bytes: &[u8],
) -> Result<(Attributes, Vec<Access>, &[u8]), ReadRefused<FieldFault>>
    ensures { Gives (λ x. ((x.0, x.1.items), x.2.now)) result (reading.lists_at bytes.now) }
{
    let (attributes, rest) = attributes_at(alloc, bytes)?;
    let (entries, rest) = accesses_at(alloc, rest)?;
    Ok((attributes, entries, rest))
}

/// The reserved fields and the lists, which follow an item's label, secret and times.
#[tactic(auto, unfolding(crate::specs::FileReading::lists_after))]
fn lists_after(
    alloc: Global,
    label: Text,
    value: Bytes,
    created: u64,
    modified: u64,
    bytes: &[u8],
) -> Result<(FullItem, &[u8]), ReadRefused<FieldFault>>
    ensures { Gives (λ x. (x.0, x.1.now)) result
        (reading.lists_after label value created modified bytes.now) }
{
    let (_, rest) = slice_at(bytes)?;
    let (_, rest) = span_at(rest, 16)?;
    let (attributes, entries, rest) = lists_at(alloc, rest)?;
    let access = Items::new(entries);
    Ok((
        FullItem {
            label,
            value,
            created,
            modified,
            attributes,
            access,
        },
        rest,
    ))
}

/// An item.
#[tactic(auto, unfolding(crate::specs::FileReading::item_at))]
fn item_at(alloc: Global, bytes: &[u8]) -> Result<(FullItem, &[u8]), ReadRefused<FieldFault>>
    ensures { Gives (λ x. (x.0, x.1.now)) result (reading.item_at bytes.now) }
{
    let (label, rest) = text_at(alloc, bytes)?;
    let (value, rest) = string_at(alloc, rest)?;
    let (created, rest) = time_at(rest)?;
    let (modified, rest) = time_at(rest)?;
    lists_after(alloc, label, value, created, modified, rest)
}

/// This many items; whatever follows them is padding.
#[tactic(auto, unfolding(crate::specs::FileReading::items_read))]
fn items_of(
    alloc: Global,
    count: usize,
    bytes: &[u8],
) -> Result<Vec<FullItem>, ReadRefused<FieldFault>>
    ensures { Gives (λ x. x.items) result (reading.items_read count bytes.now) }
{
    // Room for as many as are wanted, but for no more than the bytes can contain.
    let mut items = Vec::with_capacity(alloc, count.min(bytes.len() / 52))?;
    let mut rest = bytes;
    for _ in 0..count {
        let (item, after) = item_at(alloc, rest)?;
        items.push(item)?;
        rest = after;
    }
    Ok(items)
}

/// A fault of a field, as one of the area.
fn area_fault(fault: FieldFault) -> AreaFault
    ensures { result ≡ reading.area_fault fault }
{
    match fault {
        FieldFault::Short => AreaFault::Short,
        FieldFault::BadText => AreaFault::BadText,
        FieldFault::BadKind => AreaFault::BadKind,
        FieldFault::DuplicateName => AreaFault::DuplicateName,
    }
}

/// A refusal of a field, as one of the area.
fn area_refused(refused: ReadRefused<FieldFault>) -> ReadRefused<AreaFault>
    ensures { result ≡ reading.area_refused refused }
{
    match refused {
        ReadRefused::Fault(fault) => ReadRefused::Fault(area_fault(fault)),
        ReadRefused::OutOfMemory => ReadRefused::OutOfMemory,
    }
}

/// Whether the first 16 bytes are the MD5 of the rest.
#[tactic(auto, unfolding(crate::specs::FileReading::is_checked))]
fn is_checked(area: &[u8]) -> bool
    ensures test { result ≡ reading.is_checked area.now }
    ensures long { IsTrue result → 16 ≤ length area.now }
{
    if area.len() < 16 {
        return false;
    }
    let (check, rest) = area.split_at(16);
    let digest = Md5::digest(rest);
    check == digest.as_slice()
}

/// The items of a decrypted area.
#[tactic(auto, unfolding(crate::specs::FileReading::area_read))]
fn area_of(
    alloc: Global,
    area: &[u8],
    count: usize,
) -> Result<Vec<FullItem>, ReadRefused<AreaFault>>
    ensures { Gives (λ x. x.items) result (reading.area_read count area.now) }
{
    if !is_checked(area) {
        return Err(ReadRefused::Fault(AreaFault::CheckDiffers));
    }
    let (_, rest) = area.split_at(16);
    match items_of(alloc, count, rest) {
        Ok(items) => Ok(items),
        Err(refused) => Err(area_refused(refused)),
    }
}

/// The items of a decrypted area (GNOME keyring file format). `items` is their number, as the clear
/// part has it. `CheckDiffers` if the first 16 bytes aren't the MD5 of the rest; otherwise the fault
/// is the first one from the left.
pub fn read_area(
    alloc: Global,
    area: &[u8],
    items: usize,
) -> Result<Vec<FullItem>, ReadRefused<AreaFault>>
    // The area spells the items that are returned, as many as asked for; if it spells this many
    // items, these are returned, unless memory runs out.
    ensures found { IfOk result (λ v. AreaText area.now v.items) }
    ensures count { IfOk result (λ v. length v.items ≡ items) }
    ensures only { (these : List FullItem) → length these ≡ items → AreaText area.now these
        → Gives (λ v. v.items) result (Ok these) }

    // Which fault is returned.
    ensures exact { Gives (λ v. v.items) result (reading.area_read items area.now) }

    // Each item takes at least 52 bytes of the area.
    ensures few { IfOk result (λ v. 52 * length v.items ≤ length area.now) }
{
    area_of(alloc, area, items)
}
