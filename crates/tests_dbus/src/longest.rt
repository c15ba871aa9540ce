// The longest array.
ghost use Rattle.std.specs.Prelude.{IfOk};
ghost use Rattle.dbus_types.specs.ValueViews.{values_of};
ghost use Rattle.dbus_marshal.specs.Fitting.{HaveSpelling};

use crate::checks::holds;
use dbus_marshal::{MarshalFault, marshal, unmarshal};
use dbus_types::{Endian, Signature, Value};
use std::alloc::Global;
use std::test::Fail;

// The values of an `av` that the bytes spell in little-endian order at a multiple of 8.
fn read(alloc: Global, bytes: &[u8]) -> Result<Vec<Value>, Fail>
    ensures { IfOk result (λ values. HaveSpelling (values_of values.items)) }
{
    let types = Signature::parse(alloc, b"av").ok().ok_or("signature")?;
    let read = unmarshal(alloc, &types, Endian::Little, 0, bytes);
    Ok(read.ok().ok_or("values")?)
}

// An `av` of 67,108,864 bytes at a multiple of 8: variants of many bytes, of a number of 64 bits,
// and of a byte. At a position 4 bytes further on it has 4 more bytes of padding.
fn longest_array(alloc: Global) -> Result<Vec<u8>, Fail> {
    let mut bytes = Vec::new(alloc);
    bytes.extend_from_slice(b"\0\0\0\x04\x02ay\0\xe9\xff\xff\x03")?;
    bytes.resize(12 + 67_108_841, 7)?;
    bytes.extend_from_slice(b"\x01t\0\x01\x01\x01\x01\x01\x01\x01\x01\x01y\0\x09")?;
    Ok(bytes)
}

// Whether the values are written as these bytes at a multiple of 8.
fn is_written_so(alloc: Global, values: &[Value], bytes: &[u8]) -> bool
    requires { HaveSpelling (values_of values.now) }
{
    match marshal(alloc, values, Endian::Little, 0) {
        Ok(written) => written.as_slice() == bytes,
        Err(_) => false,
    }
}

// Whether the values are too long at a position 4 bytes further on.
fn is_too_long(alloc: Global, values: &[Value]) -> bool
    requires { HaveSpelling (values_of values.now) }
{
    match marshal(alloc, values, Endian::Little, 4) {
        Ok(_) => false,
        Err(fault) => fault == MarshalFault::TooLong,
    }
}

#[test]
fn an_array_has_67_108_864_bytes_at_most(rt: HostRuntime) -> Result<(), Fail> {
    let bytes = longest_array(rt.alloc())?;
    let values = read(rt.alloc(), bytes.as_slice())?;
    holds(
        &rt,
        is_written_so(rt.alloc(), values.as_slice(), bytes.as_slice()),
        "0",
    );
    holds(&rt, is_too_long(rt.alloc(), values.as_slice()), "4");
    Ok(())
}
