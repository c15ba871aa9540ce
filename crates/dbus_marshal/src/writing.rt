ghost use Rattle.std.specs.Prelude.{◌≡◌, ◌+◌, ◌<◌, ◌≤◌, ◌++◌, [], ◌∷◌, length, take, drop, true, OnOk};
ghost use Rattle.std.specs.Int.{w8, w16, w32, w64};
ghost use Rattle.dbus_types.specs.declared.complete_type.BasicType.TheVariants.{String, Signature};
ghost use Rattle.dbus_marshal.specs.Wire.{padding, behind, zeros, number_bytes};
ghost use Rattle.dbus_marshal.specs.Spelling.{aligned, text_spelled};
ghost use Rattle.dbus_marshal.specs.Writing.{Writes};

use crate::OutOfMemory;
use crate::places::padding;
use crate::refused::MarshalFault;
use dbus_types::Endian;

/// Writes zeros up to a multiple of the alignment. `phase` is the position of the first byte of
/// `out`, counted modulo 8.
pub fn pad(out: &mut Vec<u8>, phase: usize, alignment: usize) -> Result<(), OutOfMemory>
    requires some { 0 < alignment }
    requires most { alignment ≤ 8 }
    ensures { OnOk result (out.new.items
        ≡ out.old.items ++ zeros (padding alignment (behind phase (length out.old.items)))) }
{
    let place = (phase % 8 + out.len() % 8) % 8;
    let count = padding(alignment, place);
    out.extend_from_slice(&[0; 8][..count])?;
    Ok(())
}

/// The one byte of a number, which is the same in either order.
#[tactic(auto, unfolding(crate::specs::Wire::number_bytes))]
pub fn bytes_of_u8(endian: Endian, number: u8) -> [u8; 1]
    ensures { result ≡ number_bytes endian w8 number }
{
    match endian {
        Endian::Little => number.to_le_bytes(),
        Endian::Big => number.to_be_bytes(),
    }
}

/// The two bytes of a number.
#[tactic(auto, unfolding(crate::specs::Wire::number_bytes))]
fn bytes_of_u16(endian: Endian, number: u16) -> [u8; 2]
    ensures { result ≡ number_bytes endian w16 number }
{
    match endian {
        Endian::Little => number.to_le_bytes(),
        Endian::Big => number.to_be_bytes(),
    }
}

/// The four bytes of a number.
#[tactic(auto, unfolding(crate::specs::Wire::number_bytes))]
pub fn bytes_of_u32(endian: Endian, number: u32) -> [u8; 4]
    ensures { result ≡ number_bytes endian w32 number }
{
    match endian {
        Endian::Little => number.to_le_bytes(),
        Endian::Big => number.to_be_bytes(),
    }
}

/// The eight bytes of a number.
#[tactic(auto, unfolding(crate::specs::Wire::number_bytes))]
fn bytes_of_u64(endian: Endian, number: u64) -> [u8; 8]
    ensures { result ≡ number_bytes endian w64 number }
{
    match endian {
        Endian::Little => number.to_le_bytes(),
        Endian::Big => number.to_be_bytes(),
    }
}

/// Writes the four bytes of a number.
pub fn put_u32(out: &mut Vec<u8>, endian: Endian, number: u32) -> Result<(), OutOfMemory>
    ensures { OnOk result (out.new.items ≡ out.old.items ++ number_bytes endian w32 number) }
{
    out.extend_from_slice(&bytes_of_u32(endian, number))
}

/// Writes a byte.
pub fn write_u8(
    out: &mut Vec<u8>,
    phase: usize,
    endian: Endian,
    number: u8,
) -> Result<(), MarshalFault>
    ensures { Writes result
        (aligned 1 (behind phase (length out.old.items)) (number_bytes endian w8 number)) true
        out.old.items out.new.items }
{
    pad(out, phase, 1)?;
    out.extend_from_slice(&bytes_of_u8(endian, number))?;
    Ok(())
}

/// Writes a number of 16 bits with its padding.
pub fn write_u16(
    out: &mut Vec<u8>,
    phase: usize,
    endian: Endian,
    number: u16,
) -> Result<(), MarshalFault>
    ensures { Writes result
        (aligned 2 (behind phase (length out.old.items)) (number_bytes endian w16 number)) true
        out.old.items out.new.items }
{
    pad(out, phase, 2)?;
    out.extend_from_slice(&bytes_of_u16(endian, number))?;
    Ok(())
}

/// Writes a number of 32 bits with its padding.
pub fn write_u32(
    out: &mut Vec<u8>,
    phase: usize,
    endian: Endian,
    number: u32,
) -> Result<(), MarshalFault>
    ensures { Writes result
        (aligned 4 (behind phase (length out.old.items)) (number_bytes endian w32 number)) true
        out.old.items out.new.items }
{
    pad(out, phase, 4)?;
    put_u32(out, endian, number)?;
    Ok(())
}

/// Writes a number of 64 bits with its padding.
pub fn write_u64(
    out: &mut Vec<u8>,
    phase: usize,
    endian: Endian,
    number: u64,
) -> Result<(), MarshalFault>
    ensures { Writes result
        (aligned 8 (behind phase (length out.old.items)) (number_bytes endian w64 number)) true
        out.old.items out.new.items }
{
    pad(out, phase, 8)?;
    out.extend_from_slice(&bytes_of_u64(endian, number))?;
    Ok(())
}

/// Writes a string: its length, its bytes and a zero byte.
pub fn write_text(
    out: &mut Vec<u8>,
    phase: usize,
    endian: Endian,
    text: &[u8],
) -> Result<(), MarshalFault>
    ensures { Writes result
        (text_spelled endian String text.now (behind phase (length out.old.items))) true
        out.old.items out.new.items }
{
    let count = (text.len() % 4_294_967_296) as u32;
    write_u32(out, phase, endian, count)?;
    out.extend_from_slice(text)?;
    out.push(0)?;
    Ok(())
}
