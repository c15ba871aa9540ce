ghost use Rattle.std.specs.Prelude.{◌≡◌, ◌<◌, ◌≤◌, ◌++◌, IfOk};
ghost use Rattle.std.specs.Int.{w8, w16, w32, w64};
ghost use Rattle.dbus_marshal.specs.Wire.{padding, start_of, number_bytes};
ghost use Rattle.dbus_marshal.specs.Spelling.{aligned};

use crate::OutOfMemory;
use dbus_types::Endian;
use std::alloc::Global;

/// A copy of the bytes.
pub fn copied(alloc: Global, bytes: &[u8]) -> Result<Vec<u8>, OutOfMemory>
    ensures { IfOk result (λ made. made.items ≡ bytes.now) }
{
    let mut made = Vec::new(alloc);
    made.extend_from_slice(bytes)?;
    Ok(made)
}

/// Bytes, and other bytes after them.
pub fn joined(alloc: Global, front: &[u8], rest: &[u8]) -> Result<Vec<u8>, OutOfMemory>
    ensures { IfOk result (λ made. made.items ≡ front.now ++ rest.now) }
{
    let mut made = Vec::new(alloc);
    made.extend_from_slice(front)?;
    made.extend_from_slice(rest)?;
    Ok(made)
}

fn padding(alignment: usize, place: usize) -> usize
    requires { 0 < alignment }
    ensures value { result ≡ padding alignment place }
    ensures few { result < alignment }
{
    (alignment - place % alignment) % alignment
}

/// The next multiple of the alignment, modulo 8.
pub fn start_of(alignment: usize, place: usize) -> usize
    requires some { 0 < alignment }
    requires most { alignment ≤ 8 }
    requires place { place < 8 }
    ensures value { result ≡ start_of alignment place }
    ensures below { result < 8 }
{
    (place + padding(alignment, place)) % 8
}

/// Zeros up to a multiple of the alignment, and then the bytes.
pub fn aligned(
    alloc: Global,
    alignment: usize,
    place: usize,
    bytes: &[u8],
) -> Result<Vec<u8>, OutOfMemory>
    requires some { 0 < alignment }
    requires most { alignment ≤ 8 }
    ensures { IfOk result (λ made. made.items ≡ aligned alignment place bytes.now) }
{
    joined(alloc, &[0; 8][..padding(alignment, place)], bytes)
}

/// The byte of a number.
#[tactic(auto, unfolding(dbus_marshal::specs::Wire::number_bytes))]
pub fn bytes_of_u8(alloc: Global, endian: Endian, number: u8) -> Result<Vec<u8>, OutOfMemory>
    ensures { IfOk result (λ made. made.items ≡ number_bytes endian w8 number) }
{
    match endian {
        Endian::Little => copied(alloc, &number.to_le_bytes()),
        Endian::Big => copied(alloc, &number.to_be_bytes()),
    }
}

/// The two bytes of a number.
#[tactic(auto, unfolding(dbus_marshal::specs::Wire::number_bytes))]
pub fn bytes_of_u16(alloc: Global, endian: Endian, number: u16) -> Result<Vec<u8>, OutOfMemory>
    ensures { IfOk result (λ made. made.items ≡ number_bytes endian w16 number) }
{
    match endian {
        Endian::Little => copied(alloc, &number.to_le_bytes()),
        Endian::Big => copied(alloc, &number.to_be_bytes()),
    }
}

/// The four bytes of a number.
#[tactic(auto, unfolding(dbus_marshal::specs::Wire::number_bytes))]
pub fn bytes_of_u32(alloc: Global, endian: Endian, number: u32) -> Result<Vec<u8>, OutOfMemory>
    ensures { IfOk result (λ made. made.items ≡ number_bytes endian w32 number) }
{
    match endian {
        Endian::Little => copied(alloc, &number.to_le_bytes()),
        Endian::Big => copied(alloc, &number.to_be_bytes()),
    }
}

/// The eight bytes of a number.
#[tactic(auto, unfolding(dbus_marshal::specs::Wire::number_bytes))]
pub fn bytes_of_u64(alloc: Global, endian: Endian, number: u64) -> Result<Vec<u8>, OutOfMemory>
    ensures { IfOk result (λ made. made.items ≡ number_bytes endian w64 number) }
{
    match endian {
        Endian::Little => copied(alloc, &number.to_le_bytes()),
        Endian::Big => copied(alloc, &number.to_be_bytes()),
    }
}
