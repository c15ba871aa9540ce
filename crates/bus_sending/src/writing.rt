// A header and a body as bytes.
ghost use Rattle.std.specs.Prelude.{◌≡◌, IfOk};
ghost use Rattle.dbus_types.specs.Types.{texts_of};
ghost use Rattle.dbus_types.specs.Values.{tys_of};
ghost use Rattle.dbus_sending.specs.HeaderViews.{seen};
ghost use Rattle.dbus_sending.specs.Sent.{spelled_message};

use dbus_marshal::{Counter, PutValues};
use dbus_sending::{Header, put_message};
use kr_base::OutOfMemory;
use std::alloc::Global;

// The number of bytes of the message. It takes no memory.
fn size_of<B: PutValues>(header: &Header, signature: &str, body: &B) -> u64
    requires { signature.now ≡ texts_of (tys_of (B.values body.now)) }
{
    let mut counter = Counter::new();
    match put_message(&mut counter, header, signature, body) {
        Ok(()) => {}
        Err(never) => match never {},
    }
    counter.size()
}

/// The bytes of the message. Memory for them is taken once.
pub fn message<B: PutValues>(
    alloc: Global,
    header: &Header,
    signature: &str,
    body: &B,
) -> Result<Vec<u8>, OutOfMemory>
    requires { signature.now ≡ texts_of (tys_of (B.values body.now)) }
    ensures { IfOk result (λ bytes. bytes.items ≡ spelled_message
        (record { header = seen header.now; body = B.values body.now })) }
{
    let mut bytes = Vec::with_capacity(alloc, size_of(header, signature, body) as usize)?;
    put_message(&mut bytes, header, signature, body)?;
    Ok(bytes)
}
