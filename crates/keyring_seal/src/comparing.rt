// Comparing a file with the canonical text of a clear part, without writing that text. Each function takes the bytes
// that are left, and returns those after its part of the text, or None if they don't begin with it. No memory is taken.

ghost use Rattle.std.specs.Prelude.{◌≡◌, ◌++◌, IfSome};
ghost use Rattle.std.specs.List.{flat_map};
ghost use Rattle.keyring_file.specs.Canonical as canonical;
ghost use Rattle.keyring_file.specs.Canonical.{clear_item_text, front_text, list_text, pair_text, zeros};
ghost use Rattle.keyring_file.specs.ClearText.{ClearText, magic, version};
ghost use Rattle.keyring_file.specs.Short.{IsShortClear};
ghost use Rattle.keyring_file.specs.Sound.{IsSoundClear};
ghost use Rattle.keyring_text.specs.Fields as fields;

use keyring_file::{Clear, ClearItem, a_canonical_clear_part_is_spelled_so};
use keyring_text::{known_bytes, number_at};
use kr_base::{HashedPair, HashedValue};

// The first 16 bytes of every keyring file.
const MAGIC: [u8; 16] = *b"GnomeKeyring\n\r\0\n";

/// The bytes after these.
fn after_bytes<'a>(bytes: &'a [u8], part: &[u8]) -> Option<&'a [u8]>
    ensures { IfSome result (λ rest. bytes.now ≡ part.now ++ rest.now) }
{
    let (front, rest) = bytes.split_at_checked(part.len())?;
    if front != part {
        return None;
    }
    Some(rest)
}

/// The bytes after a number.
fn after_number(bytes: &[u8], number: u32) -> Option<&[u8]>
    ensures { IfSome result (λ rest. bytes.now ≡ fields.number number ++ rest.now) }
{
    known_bytes(bytes);
    match number_at(bytes) {
        Ok((found, rest)) if found == number => Some(rest),
        _ => None,
    }
}

/// The bytes after a time.
#[tactic(auto, unfolding(keyring_text::specs::Fields::time))]
fn after_time(bytes: &[u8], seconds: u64) -> Option<&[u8]>
    ensures { IfSome result (λ rest. bytes.now ≡ fields.time seconds ++ rest.now) }
{
    after_bytes(bytes, &seconds.to_be_bytes())
}

/// The bytes after the number of bytes of a string, or of elements of a list.
fn after_length(bytes: &[u8], length: usize) -> Option<&[u8]>
    ensures { IfSome result (λ rest. bytes.now ≡ fields.number length ++ rest.now) }
{
    after_number(bytes, u32::try_from(length).ok()?)
}

/// The bytes after a string with its length.
fn after_string<'a>(bytes: &'a [u8], string: &[u8]) -> Option<&'a [u8]>
    ensures { IfSome result (λ rest. bytes.now ≡ fields.string string.now ++ rest.now) }
{
    let rest = after_length(bytes, string.len())?;
    after_bytes(rest, string)
}

/// The bytes after a hashed value.
fn after_hashed<'a>(bytes: &'a [u8], value: &HashedValue) -> Option<&'a [u8]>
    ensures { IfSome result (λ rest. bytes.now
        ≡ canonical.hashed_text value.now ++ rest.now) }
{
    match value {
        HashedValue::Text(hash) => {
            let rest = after_number(bytes, 0)?;
            after_string(rest, hash.as_slice())
        }
        HashedValue::Number(number) => {
            let rest = after_number(bytes, 1)?;
            after_number(rest, *number)
        }
    }
}

/// The bytes after a hashed attribute.
fn after_pair<'a>(bytes: &'a [u8], pair: &HashedPair) -> Option<&'a [u8]>
    ensures { IfSome result (λ rest. bytes.now ≡ pair_text pair.now ++ rest.now) }
{
    let rest = after_string(bytes, pair.name.as_bytes())?;
    after_hashed(rest, &pair.value)
}

/// The bytes after hashed attributes, without their number.
fn after_pairs<'a>(bytes: &'a [u8], pairs: &[HashedPair]) -> Option<&'a [u8]>
    ensures { IfSome result (λ rest. bytes.now ≡ flat_map pair_text pairs.now ++ rest.now) }
{
    let mut rest = bytes;
    for pair in pairs {
        rest = after_pair(rest, pair)?;
    }
    Some(rest)
}

/// The bytes after a content type, which version 0.0 leaves out.
fn after_content<'a>(bytes: &'a [u8], minor: u8, content: &[u8]) -> Option<&'a [u8]>
    ensures { IfSome result (λ rest. bytes.now
        ≡ canonical.content_text minor content.now ++ rest.now) }
{
    if minor == 0 {
        return Some(bytes);
    }
    after_string(bytes, content)
}

/// The bytes after an item.
fn after_item<'a>(bytes: &'a [u8], minor: u8, item: &ClearItem) -> Option<&'a [u8]>
    ensures { IfSome result (λ rest. bytes.now ≡ clear_item_text minor item.now ++ rest.now) }
{
    let rest = after_number(bytes, item.id.0)?;
    let rest = after_number(rest, item.kind)?;
    let rest = after_length(rest, item.hashed.len())?;
    let rest = after_pairs(rest, item.hashed.as_slice())?;
    after_content(rest, minor, item.content.as_bytes())
}

/// The bytes after items, without their number.
fn after_items<'a>(bytes: &'a [u8], minor: u8, items: &[ClearItem]) -> Option<&'a [u8]>
    ensures { IfSome result (λ rest. bytes.now
        ≡ flat_map (clear_item_text minor) items.now ++ rest.now) }
{
    let mut rest = bytes;
    for item in items {
        rest = after_item(rest, minor, item)?;
    }
    Some(rest)
}

/// The bytes after the first 16 and the version.
fn after_version(bytes: &[u8], minor: u8) -> Option<&[u8]>
    ensures { IfSome result (λ rest. bytes.now ≡ (magic ++ version minor) ++ rest.now) }
{
    let rest = after_bytes(bytes, &MAGIC)?;
    after_bytes(rest, &[0, minor, 0, 0])
}

/// The bytes after the name and the two times.
fn after_name<'a>(bytes: &'a [u8], clear: &Clear) -> Option<&'a [u8]>
    ensures { IfSome result (λ rest. bytes.now
        ≡ canonical.name_text clear.now ++ rest.now) }
{
    let rest = after_string(bytes, clear.name.as_bytes())?;
    let rest = after_time(rest, clear.created)?;
    after_time(rest, clear.modified)
}

/// The bytes after four reserved numbers, which are 0.
fn after_reserved(bytes: &[u8]) -> Option<&[u8]>
    ensures { IfSome result (λ rest. bytes.now ≡ zeros 16 ++ rest.now) }
{
    after_bytes(bytes, &[0; 16])
}

/// The bytes after the flags, the timeout, the iterations, the salt and the reserved numbers.
fn after_limits<'a>(bytes: &'a [u8], clear: &Clear) -> Option<&'a [u8]>
    ensures { IfSome result (λ rest. bytes.now
        ≡ canonical.limits_text clear.now ++ rest.now) }
{
    let rest = after_number(bytes, clear.flags)?;
    let rest = after_number(rest, clear.timeout)?;
    let rest = after_number(rest, clear.iterations)?;
    let rest = after_bytes(rest, &clear.salt)?;
    after_reserved(rest)
}

/// The bytes after what comes before the number of items.
fn after_front<'a>(bytes: &'a [u8], clear: &Clear) -> Option<&'a [u8]>
    ensures { IfSome result (λ rest. bytes.now ≡ front_text clear.now ++ rest.now) }
{
    let rest = after_version(bytes, clear.minor)?;
    let rest = after_name(rest, clear)?;
    after_limits(rest, clear)
}

/// The bytes after the clear part, except for the length of the area.
fn after_clear<'a>(bytes: &'a [u8], clear: &Clear) -> Option<&'a [u8]>
    ensures { IfSome result (λ rest. bytes.now ≡ (front_text clear.now
        ++ list_text (clear_item_text clear.now.minor) clear.now.items) ++ rest.now) }
{
    let rest = after_front(bytes, clear)?;
    let rest = after_length(rest, clear.items.len())?;
    after_items(rest, clear.minor, clear.items.as_slice())
}

/// The encrypted area of a file that begins with the canonical text of the clear part. None if it doesn't.
pub fn hidden_after<'a>(file: &'a [u8], clear: &Clear) -> Option<&'a [u8]>
    requires sound { IsSoundClear clear.now }
    requires short { IsShortClear clear.now }
    ensures { IfSome result (λ hidden. ClearText file.now clear.now hidden.now) }
{
    a_canonical_clear_part_is_spelled_so();
    let rest = after_clear(file, clear)?;
    let area_length = u32::try_from(rest.len().checked_sub(4)?).ok()?;
    if area_length < 16 || area_length % 16 != 0 {
        return None;
    }
    after_number(rest, area_length)
}
