use dbus_marshal::{Counter, Put, PutValues, put_text, put_text_variant};
use dbus_sending::{Header, put_message};
use std::test::Fail;

/// The arguments of a call of OpenSession.
struct Plain;

impl PutValues for Plain {
    ghost use Rattle.std.specs.Prelude.{[], codes};
    ghost use Rattle.dbus_types.specs.declared.complete_type.BasicType.TheVariants as basics;
    ghost use Rattle.dbus_types.specs.Values.{Val, Vals};

    ghost values = { λ _. Vals.more (Val.text basics.String (codes "plain"))
        (Vals.more (Val.variant (Val.text basics.String [])) Vals.end) };

    fn put_to<P: Put>(&self, out: &mut P) -> Result<(), P::Refused> {
        put_text(out, b"plain")?;
        put_text_variant(out, b"")
    }
}

/// No values.
struct Nothing;

impl PutValues for Nothing {
    ghost use Rattle.dbus_types.specs.Values.{Vals};

    ghost values = { λ _. Vals.end };

    fn put_to<P: Put>(&self, _out: &mut P) -> Result<(), P::Refused> {
        Ok(())
    }
}

// As libdbus 1.14 marshals them: a call of OpenSession and a Ping.
const OPEN_SESSION: &str =
    "6c01000115000000010000007000000001016f00180000002f6f72672f667265656465736b746f702f736563726574730000000000000000020173001e0000006f72672e667265656465736b746f702e5365637265742e536572766963650000030173000b0000004f70656e53657373696f6e0000000000080167000273760005000000706c61696e000173000000000000000000";

const PING: &str =
    "6c01000100000000010000004500000001016f00010000002f0000000000000002017300190000006f72672e667265656465736b746f702e444275732e5065657200000000000000030173000400000050696e6700000000";

#[test]
fn calls_are_sent_as_another_program_sends_them(rt: HostRuntime) -> Result<(), Fail> {
    let open_session = Header {
        path: Some("/org/freedesktop/secrets"),
        interface: Some("org.freedesktop.Secret.Service"),
        member: Some("OpenSession"),
        ..Header::bare(1, 0, 1)
    };
    let mut bytes = Vec::new(rt.alloc());
    put_message(&mut bytes, &open_session, "sv", &Plain)?;
    let want = hex::decode(rt.alloc(), OPEN_SESSION).ok().ok_or("no hex")?;
    assert!(rt; bytes == want);

    let mut counter = Counter::new();
    match put_message(&mut counter, &open_session, "sv", &Plain) {
        Ok(()) => {}
        Err(never) => match never {},
    }
    assert_eq!(rt; counter.size(), 149);

    let ping = Header {
        path: Some("/"),
        interface: Some("org.freedesktop.DBus.Peer"),
        member: Some("Ping"),
        ..Header::bare(1, 0, 1)
    };
    let mut bytes = Vec::new(rt.alloc());
    put_message(&mut bytes, &ping, "", &Nothing)?;
    let want = hex::decode(rt.alloc(), PING).ok().ok_or("no hex")?;
    assert!(rt; bytes == want);
    Ok(())
}
