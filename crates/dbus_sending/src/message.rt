ghost use Rattle.std.specs.Prelude.{◌≡◌, ℕ, [], List, OnOk};
ghost use Rattle.dbus_types.specs.declared.complete_type.BasicType.TheVariants as basics;
ghost use Rattle.dbus_types.specs.Types.{texts_of};
ghost use Rattle.dbus_types.specs.Values.{Val, tys_of};
ghost use Rattle.dbus_marshal.specs.Putting.{put};
ghost use Rattle.dbus_sending.specs.Sent.{spelled_message};
ghost use Rattle.dbus_sending.specs.HeaderViews.{seen};

use crate::header::{Fields, Header};
use dbus_marshal::{Put, PutValues, count_from, pad_to, put_array, put_byte, put_u32};

// Puts what comes before the fields: byte order, type, flags, version, the body's length, the serial.
fn put_start<P: Put>(out: &mut P, header: &Header, count: u32) -> Result<(), P::Refused>
    ensures { (before : List ℕ) → P.stands out.old before → OnOk result (P.stands out.new
        (put (put (put (put (put (put before (Val.number basics.Byte 108))
        (Val.number basics.Byte header.now.kind)) (Val.number basics.Byte header.now.flags))
        (Val.number basics.Byte 1)) (Val.number basics.Uint32 count))
        (Val.number basics.Uint32 header.now.serial))) }
{
    put_byte(out, b'l')?;
    put_byte(out, header.kind)?;
    put_byte(out, header.flags)?;
    put_byte(out, 1)?;
    put_u32(out, count)?;
    put_u32(out, header.serial)
}

/// Puts a message into a writer into which nothing was put before (D-Bus Specification, "Message
/// Format"). `signature` is the signature of the body's values.
pub fn put_message<P: Put, B: PutValues>(
    out: &mut P,
    header: &Header,
    signature: &str,
    body: &B,
) -> Result<(), P::Refused>
    requires { signature.now ≡ texts_of (tys_of (B.values body.now)) }
    ensures { P.stands out.old [] → OnOk result (P.stands out.new
        (spelled_message (record { header = seen header.now; body = B.values body.now }))) }
{
    let count = count_from(body, 0);
    put_start(out, header, count)?;
    let fields = Fields {
        header: *header,
        signature,
    };
    put_array(out, 8, &fields)?;
    pad_to(out, 8)?;
    body.put_to(out)
}
