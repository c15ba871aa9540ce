ghost use Rattle.std.specs.Prelude.{◌≡◌, ◌<◌, ◌^◌, ◌++◌, length, IfOk, OnOk};
ghost use Rattle.std.specs.List.{AllByRecursion, flat_map};
ghost use Rattle.keyring_file.specs.Canonical as canonical;
ghost use Rattle.keyring_file.specs.Canonical.{clear_item_text, pair_text, list_text, front_text, clear_text};
ghost use Rattle.keyring_file.specs.ClearText.{magic, version};
ghost use Rattle.keyring_file.specs.Short.{IsShort, IsShortHashed, IsShortPair, IsShortList, IsShortClearItem, IsShortClear};

use crate::area_writing::put_reserved;
use crate::magic::MAGIC;
use crate::{Clear, ClearItem};
use keyring_text::{put_number, put_string, put_time};
use kr_base::{HashedPair, HashedValue, OutOfMemory};
use std::alloc::Global;

/// Writes a hashed value with its kind.
fn put_hashed(out: &mut Vec<u8>, value: &HashedValue) -> Result<(), OutOfMemory>
    requires { IsShortHashed value.now }
    ensures { OnOk result (out.new.items ≡ out.old.items ++ canonical.hashed_text value.now) }
{
    match value {
        HashedValue::Text(bytes) => {
            put_number(out, 0)?;
            put_string(out, bytes.as_slice())
        }
        HashedValue::Number(number) => {
            put_number(out, 1)?;
            put_number(out, *number)
        }
    }
}

/// Writes a hashed attribute.
fn put_pair(out: &mut Vec<u8>, pair: &HashedPair) -> Result<(), OutOfMemory>
    requires { IsShortPair pair.now }
    ensures { OnOk result (out.new.items ≡ out.old.items ++ pair_text pair.now) }
{
    put_string(out, pair.name.as_bytes())?;
    put_hashed(out, &pair.value)
}

/// Writes hashed attributes, without their number.
fn put_pairs(out: &mut Vec<u8>, pairs: &[HashedPair]) -> Result<(), OutOfMemory>
    requires { AllByRecursion IsShortPair pairs.now }
    ensures { OnOk result (out.new.items ≡ out.old.items ++ flat_map pair_text pairs.now) }
{
    for pair in pairs {
        put_pair(out, pair)?;
    }
    Ok(())
}

/// Writes an item of the clear part at the end of a vector (GNOME keyring file format). Version 0.0 leaves
/// out the content type.
pub fn put_clear_item(out: &mut Vec<u8>, minor: u8, item: &ClearItem) -> Result<(), OutOfMemory>
    requires { IsShortClearItem item.now }
    ensures { OnOk result (out.new.items ≡ out.old.items ++ clear_item_text minor item.now) }
{
    put_number(out, item.id.0)?;
    put_number(out, item.kind)?;
    put_number(out, item.hashed.len() as u32)?;
    put_pairs(out, item.hashed.as_slice())?;
    if minor == 0 {
        return Ok(());
    }
    put_string(out, item.content.as_bytes())
}

/// Writes items of the clear part, without their number.
fn put_clear_items(out: &mut Vec<u8>, minor: u8, items: &[ClearItem]) -> Result<(), OutOfMemory>
    requires { AllByRecursion IsShortClearItem items.now }
    ensures { OnOk result (out.new.items ≡ out.old.items
        ++ flat_map (clear_item_text minor) items.now) }
{
    for item in items {
        put_clear_item(out, minor, item)?;
    }
    Ok(())
}

/// Writes the first 16 bytes, and the version.
fn put_version(out: &mut Vec<u8>, clear: &Clear) -> Result<(), OutOfMemory>
    ensures { OnOk result (out.new.items ≡ out.old.items ++ (magic ++ version clear.now.minor)) }
{
    out.extend_from_slice(&MAGIC)?;
    out.extend_from_slice(&[0, clear.minor, 0, 0])
}

/// Writes the name and the two times.
fn put_name(out: &mut Vec<u8>, clear: &Clear) -> Result<(), OutOfMemory>
    requires { IsShort clear.now.name }
    ensures { OnOk result (out.new.items ≡ out.old.items ++ canonical.name_text clear.now) }
{
    put_string(out, clear.name.as_bytes())?;
    put_time(out, clear.created)?;
    put_time(out, clear.modified)
}

/// Writes the flags, the timeout, the iterations, the salt and the reserved numbers after it.
fn put_limits(out: &mut Vec<u8>, clear: &Clear) -> Result<(), OutOfMemory>
    ensures { OnOk result (out.new.items ≡ out.old.items ++ canonical.limits_text clear.now) }
{
    put_number(out, clear.flags)?;
    put_number(out, clear.timeout)?;
    put_number(out, clear.iterations)?;
    out.extend_from_slice(&clear.salt)?;
    put_reserved(out)
}

/// Writes what comes before the number of items in the clear part, at the end of a vector (GNOME keyring
/// file format).
pub fn put_front(out: &mut Vec<u8>, clear: &Clear) -> Result<(), OutOfMemory>
    requires { IsShort clear.now.name }
    ensures { OnOk result (out.new.items ≡ out.old.items ++ front_text clear.now) }
{
    put_version(out, clear)?;
    put_name(out, clear)?;
    put_limits(out, clear)
}

/// The canonical text of a clear part, with the length of the encrypted area at its end (GNOME keyring
/// file format). The items are in the order of the list.
pub fn write_clear(alloc: Global, clear: &Clear, area_length: u32) -> Result<Vec<u8>, OutOfMemory>
    requires { IsShortClear clear.now }
    ensures { IfOk result (λ v. v.items ≡ clear_text clear.now area_length) }
{
    let mut out = Vec::new(alloc);
    put_front(&mut out, clear)?;
    put_number(&mut out, clear.items.len() as u32)?;
    put_clear_items(&mut out, clear.minor, clear.items.as_slice())?;
    put_number(&mut out, area_length)?;
    Ok(out)
}
