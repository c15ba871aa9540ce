ghost use Rattle.std.specs.Prelude.{◌≡◌, ◌<◌, ◌≤◌, ◌^◌, ◌++◌, length, drop, IfOk, OnOk};
ghost use Rattle.std.specs.List.{AllByRecursion, flat_map};
ghost use Rattle.kr_base.specs.declared.attributes.AttrValue.{AttrValue};
ghost use Rattle.keyring_file.specs.Canonical as canonical;
ghost use Rattle.keyring_file.specs.Canonical.{attribute_text, access_text, item_text, area_text, checked, padded, padding, zeros, value_text};
ghost use Rattle.keyring_file.specs.Short.{IsShortValue, IsShortAttribute, IsShortAccess, IsShortItem};

use crate::{Access, FullItem};
use keyring_text::{put_number, put_string, put_time};
use kr_base::{AttrValue, OutOfMemory, Text};
use md5::{Digest, Md5};
use std::alloc::Global;

/// Writes a value with its kind.
fn put_value(out: &mut Vec<u8>, value: &AttrValue) -> Result<(), OutOfMemory>
    requires { IsShortValue value.now }
    ensures { OnOk result (out.new.items ≡ out.old.items ++ value_text value.now) }
{
    match value {
        AttrValue::Text(text) => {
            put_number(out, 0)?;
            put_string(out, text.as_bytes())
        }
        AttrValue::Number(number) => {
            put_number(out, 1)?;
            put_number(out, *number)
        }
    }
}

/// Writes an attribute.
fn put_attribute(out: &mut Vec<u8>, pair: &(Text, AttrValue)) -> Result<(), OutOfMemory>
    requires { IsShortAttribute pair.now }
    ensures { OnOk result (out.new.items ≡ out.old.items ++ attribute_text pair.now) }
{
    put_string(out, pair.0.as_bytes())?;
    put_value(out, &pair.1)
}

/// Writes attributes, without their number.
fn put_attributes(out: &mut Vec<u8>, pairs: &[(Text, AttrValue)]) -> Result<(), OutOfMemory>
    requires { AllByRecursion IsShortAttribute pairs.now }
    ensures { OnOk result (out.new.items ≡ out.old.items ++ flat_map attribute_text pairs.now) }
{
    for pair in pairs {
        put_attribute(out, pair)?;
    }
    Ok(())
}

/// Writes an access entry. The reserved string is absent, and the reserved number is 0.
fn put_access(out: &mut Vec<u8>, access: &Access) -> Result<(), OutOfMemory>
    requires { IsShortAccess access.now }
    ensures { OnOk result (out.new.items ≡ out.old.items ++ access_text access.now) }
{
    put_number(out, access.allowed)?;
    put_string(out, access.display.as_bytes())?;
    put_string(out, access.path.as_bytes())?;
    put_number(out, 0xffff_ffff)?;
    put_number(out, 0)
}

/// Writes access entries, without their number.
fn put_accesses(out: &mut Vec<u8>, entries: &[Access]) -> Result<(), OutOfMemory>
    requires { AllByRecursion IsShortAccess entries.now }
    ensures { OnOk result (out.new.items ≡ out.old.items ++ flat_map access_text entries.now) }
{
    for access in entries {
        put_access(out, access)?;
    }
    Ok(())
}

/// Writes four reserved numbers.
pub fn put_reserved(out: &mut Vec<u8>) -> Result<(), OutOfMemory>
    ensures { OnOk result (out.new.items ≡ out.old.items ++ zeros 16) }
{
    out.extend_from_slice(&[0; 16])
}

/// Writes an item's label, secret and times.
fn put_label(out: &mut Vec<u8>, item: &FullItem) -> Result<(), OutOfMemory>
    requires { IsShortItem item.now }
    ensures { OnOk result (out.new.items ≡ out.old.items ++ canonical.label_text item.now) }
{
    put_string(out, item.label.as_bytes())?;
    put_string(out, item.value.as_slice())?;
    put_time(out, item.created)?;
    put_time(out, item.modified)
}

/// Writes an item's attributes and access entries.
fn put_lists(out: &mut Vec<u8>, item: &FullItem) -> Result<(), OutOfMemory>
    requires { IsShortItem item.now }
    ensures { OnOk result (out.new.items ≡ out.old.items ++ canonical.lists_text item.now) }
{
    put_number(out, item.attributes.len() as u32)?;
    put_attributes(out, item.attributes.as_slice())?;
    put_number(out, item.access.len() as u32)?;
    put_accesses(out, item.access.as_slice())
}

/// Writes an item of the area at the end of a vector (GNOME keyring file format). The reserved string is
/// absent, and the reserved numbers are 0.
pub fn put_item(out: &mut Vec<u8>, item: &FullItem) -> Result<(), OutOfMemory>
    requires { IsShortItem item.now }
    ensures { OnOk result (out.new.items ≡ out.old.items ++ item_text item.now) }
{
    put_label(out, item)?;
    put_number(out, 0xffff_ffff)?;
    put_reserved(out)?;
    put_lists(out, item)
}

/// Writes items.
fn put_items(out: &mut Vec<u8>, items: &[FullItem]) -> Result<(), OutOfMemory>
    requires { AllByRecursion IsShortItem items.now }
    ensures { OnOk result (out.new.items ≡ out.old.items ++ flat_map item_text items.now) }
{
    for item in items {
        put_item(out, item)?;
    }
    Ok(())
}

/// Writes zero bytes up to a whole number of blocks of 16.
fn put_padding(out: &mut Vec<u8>, len: usize) -> Result<(), OutOfMemory>
    ensures { OnOk result (out.new.items ≡ out.old.items ++ zeros (padding len)) }
{
    let more = (16 - len % 16) % 16;
    for _ in 0..more {
        out.push(0)?;
    }
    Ok(())
}

/// Completes an area, whose items come after 16 bytes for the check: appends the fewest zero bytes of
/// padding, and puts the MD5 of all that follows the 16 bytes into these.
pub fn close_area(area: &mut Vec<u8>) -> Result<(), OutOfMemory>
    requires { 16 ≤ length area.old.items }
    ensures { OnOk result (area.new.items ≡ checked (padded (drop 16 area.old.items))) }
{
    let len = area.len() - 16;
    put_padding(area, len)?;
    let (check, body) = area.split_at_mut(16);
    let digest = Md5::digest(&*body);
    check.copy_from_slice(&digest);
    Ok(())
}

/// The canonical text of an area before it is encrypted (GNOME keyring file format): the MD5 of what
/// follows, the items in the order of the list, and the fewest zero bytes of padding.
pub fn write_area(alloc: Global, items: &[FullItem]) -> Result<Vec<u8>, OutOfMemory>
    requires { AllByRecursion IsShortItem items.now }
    ensures { IfOk result (λ v. v.items ≡ area_text items.now) }
{
    let mut out = Vec::from_slice(alloc, &[0; 16])?;
    put_items(&mut out, items)?;
    close_area(&mut out)?;
    Ok(out)
}
