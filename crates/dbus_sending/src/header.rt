ghost use Rattle.std.specs.Prelude.{◌≡◌, ℕ, List, OnOk, option_map};
ghost use Rattle.dbus_types.specs.declared.complete_type.BasicType.TheVariants as basics;
ghost use Rattle.dbus_types.specs.Values.{Val, Vals};
ghost use Rattle.dbus_marshal.specs.Putting.{padded, put, puts};
ghost use Rattle.dbus_sending.specs.Sent.{row, rows_of, signature_of};

use dbus_marshal::{
    Put, PutValues, pad_to, put_byte, put_path, put_signature, put_text, put_text_variant, put_u32,
};

/// The header of a message that is sent (D-Bus Specification, "Message Format", "Header Fields"). A
/// field is None if the header has none; SIGNATURE comes from the message's body.
#[derive(Clone, Copy)]
pub struct Header<'a> {
    /// The type: 1 a call, 2 a return, 3 an error, 4 a signal.
    pub kind: u8,
    /// The flags.
    pub flags: u8,
    /// The number of the message. It isn't 0.
    pub serial: u32,
    /// PATH: the object of a call or a signal.
    pub path: Option<&'a str>,
    /// INTERFACE.
    pub interface: Option<&'a str>,
    /// MEMBER: the method or the signal.
    pub member: Option<&'a str>,
    /// ERROR_NAME.
    pub error_name: Option<&'a str>,
    /// REPLY_SERIAL: the serial of the call that this message answers.
    pub reply_serial: Option<u32>,
    /// DESTINATION.
    pub destination: Option<&'a str>,
    /// SENDER.
    pub sender: Option<&'a str>,
}

impl<'a> Header<'a> {
    ghost use Rattle.dbus_sending.specs.HeaderViews.{seen};
    ghost use Rattle.dbus_sending.specs.Sent.{bare_header};

    /// A header without any field.
    pub fn bare(kind: u8, flags: u8, serial: u32) -> Header<'a>
        ensures { seen result ≡ bare_header kind flags serial }
    {
        Header {
            kind,
            flags,
            serial,
            path: None,
            interface: None,
            member: None,
            error_name: None,
            reply_serial: None,
            destination: None,
            sender: None,
        }
    }
}

// Puts the start of a field: its code.
fn put_code<P: Put>(out: &mut P, code: u8) -> Result<(), P::Refused>
    ensures { (before : List ℕ) → P.stands out.old before
        → OnOk result (P.stands out.new (put (padded 8 before) (Val.number basics.Byte code))) }
{
    pad_to(out, 8)?;
    put_byte(out, code)
}

// Puts PATH, if there is one.
#[tactic(auto, using(dbus_marshal::proofs::PutLemmas::variant_put, dbus_marshal::proofs::PutLemmas::struct_of_2))]
fn put_path_field<P: Put>(out: &mut P, code: u8, path: Option<&str>) -> Result<(), P::Refused>
    ensures { (before : List ℕ) → P.stands out.old before
        → OnOk result (P.stands out.new (puts before (row code (Val.text basics.ObjectPath)
        (option_map (λ it. it.now) path.entry) Vals.end))) }
{
    let Some(path) = path else {
        return Ok(());
    };
    put_code(out, code)?;
    put_signature(out, b"o")?;
    put_path(out, path.as_bytes())
}

// Puts a field with a text, if there is one.
#[tactic(auto, using(dbus_marshal::proofs::PutLemmas::struct_of_2))]
fn put_text_field<P: Put>(out: &mut P, code: u8, text: Option<&str>) -> Result<(), P::Refused>
    ensures { (before : List ℕ) → P.stands out.old before
        → OnOk result (P.stands out.new (puts before (row code (Val.text basics.String)
        (option_map (λ it. it.now) text.entry) Vals.end))) }
{
    let Some(text) = text else {
        return Ok(());
    };
    put_code(out, code)?;
    put_text_variant(out, text.as_bytes())
}

// Puts a field with a number, if there is one.
#[tactic(auto, using(dbus_marshal::proofs::PutLemmas::variant_put, dbus_marshal::proofs::PutLemmas::struct_of_2))]
fn put_number_field<P: Put>(out: &mut P, code: u8, number: Option<u32>) -> Result<(), P::Refused>
    ensures { (before : List ℕ) → P.stands out.old before
        → OnOk result (P.stands out.new (puts before (row code (Val.number basics.Uint32) number
        Vals.end))) }
{
    let Some(number) = number else {
        return Ok(());
    };
    put_code(out, code)?;
    put_signature(out, b"u")?;
    put_u32(out, number)
}

// Puts SIGNATURE, if it lists a type.
#[tactic(auto, using(dbus_marshal::proofs::PutLemmas::variant_put, dbus_marshal::proofs::PutLemmas::struct_of_2))]
fn put_signature_field<P: Put>(out: &mut P, signature: &str) -> Result<(), P::Refused>
    ensures { (before : List ℕ) → P.stands out.old before
        → OnOk result (P.stands out.new (puts before (row 8 (Val.text basics.Signature)
        (signature_of signature.now) Vals.end))) }
{
    if signature.is_empty() {
        return Ok(());
    }
    put_code(out, 8)?;
    put_signature(out, b"g")?;
    put_signature(out, signature.as_bytes())
}

/// The fields of a header, in the order of their codes, as the elements of an array.
#[derive(Clone, Copy)]
pub struct Fields<'a> {
    pub header: Header<'a>,
    pub signature: &'a str,
}

impl PutValues for Fields<'_> {
    ghost use Rattle.dbus_sending.specs.Sent.{rows_of};
    ghost use Rattle.dbus_sending.specs.HeaderViews.{seen};

    ghost values = { λ fields. rows_of (seen fields.header) fields.signature.now };

    fn put_to<P: Put>(&self, out: &mut P) -> Result<(), P::Refused> {
        put_path_field(out, 1, self.header.path)?;
        put_text_field(out, 2, self.header.interface)?;
        put_text_field(out, 3, self.header.member)?;
        put_text_field(out, 4, self.header.error_name)?;
        put_number_field(out, 5, self.header.reply_serial)?;
        put_text_field(out, 6, self.header.destination)?;
        put_text_field(out, 7, self.header.sender)?;
        put_signature_field(out, self.signature)
    }
}
