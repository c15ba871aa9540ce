// The borrowed items of a content are written, in the order that the caller chooses,
// each with the hashes of its own attributes. Nothing is copied except into the file.

ghost use Rattle.std.specs.Prelude.{◌≡◌, ◌<◌, ◌^◌, [], ◌++◌, length, map, OnOk};
ghost use Rattle.std.specs.List.{AllByRecursion, flat_map};
ghost use Rattle.attribute_hash.specs.Hash.{hashes, pair_hash, value_hash};
ghost use Rattle.keyring_file.specs.Canonical.{checked, clear_item_text, clear_text, hashed_text, item_text, list_text, padded, pair_text};
ghost use Rattle.keyring_file.specs.Short.{IsShort, IsShortClearItem, IsShortHashed, IsShortItem, IsShortList, IsShortPair};
ghost use Rattle.keyring_seal.specs.Arranged.{hashed_row};
ghost use Rattle.keyring_seal.specs.Room.{row_text};

use attribute_hash::{number_hash, text_hash};
use keyring_file::{Clear, ClearItem, FullItem, close_area, put_clear_item, put_front, put_item};
use keyring_text::{put_number, put_string};
use kr_base::{AttrValue, Attributes, OutOfMemory, Text};

/// Writes the hash of a value with its kind.
fn put_hash(out: &mut Vec<u8>, value: &AttrValue) -> Result<(), OutOfMemory>
    requires { IsShortHashed (value_hash value.now) }
    ensures { OnOk result (out.new.items ≡ out.old.items ++ hashed_text (value_hash value.now)) }
{
    match value {
        AttrValue::Text(text) => {
            put_number(out, 0)?;
            put_string(out, &text_hash(text.as_str()))
        }
        AttrValue::Number(number) => {
            put_number(out, 1)?;
            put_number(out, number_hash(*number))
        }
    }
}

/// Writes an attribute's name and the hash of its value.
fn put_hashed(out: &mut Vec<u8>, pair: &(Text, AttrValue)) -> Result<(), OutOfMemory>
    requires { IsShortPair (pair_hash pair.now) }
    ensures { OnOk result (out.new.items ≡ out.old.items ++ pair_text (pair_hash pair.now)) }
{
    put_string(out, pair.0.as_bytes())?;
    put_hash(out, &pair.1)
}

/// Writes the names and hashes of attributes, without their number.
fn put_hashes(out: &mut Vec<u8>, pairs: &[(Text, AttrValue)]) -> Result<(), OutOfMemory>
    requires { AllByRecursion (λ pair. IsShortPair (pair_hash pair)) pairs.now }
    ensures { OnOk result (out.new.items ≡ out.old.items
        ++ flat_map (λ pair. pair_text (pair_hash pair)) pairs.now) }
{
    for pair in pairs {
        put_hashed(out, pair)?;
    }
    Ok(())
}

/// Writes the number of the attributes, and their names and hashes.
fn put_hash_list(out: &mut Vec<u8>, attributes: &Attributes) -> Result<(), OutOfMemory>
    requires { IsShortList IsShortPair (hashes attributes.now) }
    ensures { OnOk result (out.new.items ≡ out.old.items
        ++ list_text pair_text (hashes attributes.now)) }
{
    put_number(out, attributes.len() as u32)?;
    put_hashes(out, attributes.as_slice())
}

/// Writes an item of the clear part, with the hashes of its attributes.
fn put_row(
    out: &mut Vec<u8>,
    minor: u8,
    clear_item: &ClearItem,
    item: &FullItem,
) -> Result<(), OutOfMemory>
    requires { IsShortClearItem (hashed_row (clear_item.now, item.now)).0 }
    ensures { OnOk result (out.new.items ≡ out.old.items
        ++ row_text minor (clear_item.now, item.now)) }
{
    put_number(out, clear_item.id.0)?;
    put_number(out, clear_item.kind)?;
    put_hash_list(out, &item.attributes)?;
    if minor == 0 {
        return Ok(());
    }
    put_string(out, clear_item.content.as_bytes())
}

/// Writes the items of the clear part, without their number.
fn put_rows(
    out: &mut Vec<u8>,
    minor: u8,
    rows: &[(&ClearItem, &FullItem)],
) -> Result<(), OutOfMemory>
    requires { AllByRecursion
        (λ row. IsShortClearItem (hashed_row (row.0.now, row.1.now)).0) rows.now }
    ensures { OnOk result (out.new.items ≡ out.old.items
        ++ flat_map (λ row. row_text minor (row.0.now, row.1.now)) rows.now) }
{
    for row in rows {
        put_row(out, minor, row.0, row.1)?;
    }
    Ok(())
}

/// Writes the number of the items, and the items of the clear part.
fn put_row_list(
    out: &mut Vec<u8>,
    minor: u8,
    rows: &[(&ClearItem, &FullItem)],
) -> Result<(), OutOfMemory>
    requires few { length rows.now < 2 ^ 32 }
    requires short { AllByRecursion
        (λ row. IsShortClearItem (hashed_row (row.0.now, row.1.now)).0) rows.now }
    ensures { OnOk result (out.new.items ≡ out.old.items ++ list_text (clear_item_text minor)
        (map (λ row. (hashed_row (row.0.now, row.1.now)).0) rows.now)) }
{
    put_number(out, rows.len() as u32)?;
    put_rows(out, minor, rows)
}

/// Writes the items of the area.
fn put_items(out: &mut Vec<u8>, rows: &[(&ClearItem, &FullItem)]) -> Result<(), OutOfMemory>
    requires { AllByRecursion (λ row. IsShortItem row.1.now) rows.now }
    ensures { OnOk result (out.new.items ≡ out.old.items
        ++ flat_map (λ row. item_text row.1.now) rows.now) }
{
    for row in rows {
        put_item(out, row.1)?;
    }
    Ok(())
}

/// Writes the area of the items before it is encrypted, into an empty vector.
pub fn put_area(area: &mut Vec<u8>, rows: &[(&ClearItem, &FullItem)]) -> Result<(), OutOfMemory>
    requires empty { area.old.items ≡ [] }
    requires short { AllByRecursion (λ row. IsShortItem row.1.now) rows.now }
    ensures { OnOk result (area.new.items
        ≡ checked (padded (flat_map (λ row. item_text row.1.now) rows.now))) }
{
    area.extend_from_slice(&[0; 16])?;
    put_items(area, rows)?;
    close_area(area)
}

/// Writes the clear part with these items and the length of the area.
pub fn put_clear(
    file: &mut Vec<u8>,
    clear: &Clear,
    rows: &[(&ClearItem, &FullItem)],
    area_length: u32,
) -> Result<(), OutOfMemory>
    requires name { IsShort clear.now.name }
    requires few { length rows.now < 2 ^ 32 }
    requires short { AllByRecursion
        (λ row. IsShortClearItem (hashed_row (row.0.now, row.1.now)).0) rows.now }
    ensures { OnOk result (file.new.items ≡ file.old.items ++ clear_text (record clear.now {
      items = map (λ row. (hashed_row (row.0.now, row.1.now)).0) rows.now;
    }) area_length) }
{
    put_front(file, clear)?;
    put_row_list(file, clear.minor, rows)?;
    put_number(file, area_length)
}

/// Writes the items of the clear part with the hashes that they have, without their number.
fn put_kept_items(
    out: &mut Vec<u8>,
    minor: u8,
    rows: &[(&ClearItem, &FullItem)],
) -> Result<(), OutOfMemory>
    requires { AllByRecursion (λ row. IsShortClearItem row.0.now) rows.now }
    ensures { OnOk result (out.new.items ≡ out.old.items
        ++ flat_map (λ row. clear_item_text minor row.0.now) rows.now) }
{
    for row in rows {
        put_clear_item(out, minor, row.0)?;
    }
    Ok(())
}

/// Writes the number of the items, and the items of the clear part with the hashes that they have.
fn put_kept_list(
    out: &mut Vec<u8>,
    minor: u8,
    rows: &[(&ClearItem, &FullItem)],
) -> Result<(), OutOfMemory>
    requires few { length rows.now < 2 ^ 32 }
    requires short { AllByRecursion (λ row. IsShortClearItem row.0.now) rows.now }
    ensures { OnOk result (out.new.items ≡ out.old.items
        ++ list_text (clear_item_text minor) (map (λ row. row.0.now) rows.now)) }
{
    put_number(out, rows.len() as u32)?;
    put_kept_items(out, minor, rows)
}

/// Writes the clear part with these items, which keep the hashes that they have, and the length of the
/// area.
pub fn put_kept_clear(
    file: &mut Vec<u8>,
    clear: &Clear,
    rows: &[(&ClearItem, &FullItem)],
    area_length: u32,
) -> Result<(), OutOfMemory>
    requires name { IsShort clear.now.name }
    requires few { length rows.now < 2 ^ 32 }
    requires short { AllByRecursion (λ row. IsShortClearItem row.0.now) rows.now }
    ensures { OnOk result (file.new.items ≡ file.old.items ++ clear_text (record clear.now {
      items = map (λ row. row.0.now) rows.now;
    }) area_length) }
{
    put_front(file, clear)?;
    put_kept_list(file, clear.minor, rows)?;
    put_number(file, area_length)
}
