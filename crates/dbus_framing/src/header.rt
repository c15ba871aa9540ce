ghost use Rattle.std.specs.Prelude.{◌≡◌, IsTrue, Option, option_map};
ghost use Rattle.dbus_types.specs.ValueViews.{value_of, values_of, value_as, each_as};
ghost use Rattle.dbus_framing.specs.Headers.{no_fields, kind_of, once, with_field, with_value, with_values, fields_in, has_needed, field_type};
ghost use Rattle.dbus_framing.specs.HeaderViews.{fields_of};
ghost use Rattle.dbus_framing.specs.declared.header.FieldKind.TheVariants as kinds;

use crate::opened::{
    field_in, interface_in, member_in, number_in, one_of, path_in, serial_in, signature_in,
    string_in, structs_in,
};
use dbus_types::{Signature, Value};
use kr_base::Text;

/// A header field, by its code (D-Bus Specification, "Message Format", "Header Fields").
#[derive(Clone, Copy)]
pub enum FieldKind {
    Invalid,
    Path,
    Interface,
    Member,
    ErrorName,
    ReplySerial,
    Destination,
    Sender,
    Signature,
    UnixFds,
    Unknown,
}

/// The header fields of a message. A field is None if the header has none.
#[derive(Drop)]
pub struct Header {
    /// PATH: the object of a call or a signal.
    pub path: Option<Text>,
    /// INTERFACE.
    pub interface: Option<Text>,
    /// MEMBER: the method or the signal.
    pub member: Option<Text>,
    /// ERROR_NAME.
    pub error_name: Option<Text>,
    /// REPLY_SERIAL: the serial of the call that this message answers.
    pub reply_serial: Option<u32>,
    /// DESTINATION.
    pub destination: Option<Text>,
    /// SENDER.
    pub sender: Option<Text>,
    /// SIGNATURE: the types of the body.
    pub signature: Option<Signature>,
    /// UNIX_FDS: the number of file descriptors.
    pub unix_fds: Option<u32>,
}

fn kind_of(code: u8) -> FieldKind
    ensures { result ≡ kind_of code }
{
    match code {
        0 => FieldKind::Invalid,
        1 => FieldKind::Path,
        2 => FieldKind::Interface,
        3 => FieldKind::Member,
        4 => FieldKind::ErrorName,
        5 => FieldKind::ReplySerial,
        6 => FieldKind::Destination,
        7 => FieldKind::Sender,
        8 => FieldKind::Signature,
        9 => FieldKind::UnixFds,
        _ => FieldKind::Unknown,
    }
}

// The value of a field, or None if the field had one before.
fn once<T: Drop>(before: &Option<T>, value: Option<T>) -> Option<T>
    ensures { result ≡ once before.now value }
{
    match before {
        Some(_) => None,
        None => value,
    }
}

fn empty() -> Header
    ensures { fields_of result ≡ no_fields }
{
    Header {
        path: None,
        interface: None,
        member: None,
        error_name: None,
        reply_serial: None,
        destination: None,
        sender: None,
        signature: None,
        unix_fds: None,
    }
}

fn with_path(header: &mut Header, value: Value) -> Option<()>
    ensures { option_map (λ _. fields_of header.new) result
        ≡ with_field (fields_of header.old) kinds.Path (value_of value) }
{
    header.path = Some(once(&header.path, path_in(value))?);
    Some(())
}

fn with_interface(header: &mut Header, value: Value) -> Option<()>
    ensures { option_map (λ _. fields_of header.new) result
        ≡ with_field (fields_of header.old) kinds.Interface (value_of value) }
{
    header.interface = Some(once(&header.interface, interface_in(value))?);
    Some(())
}

fn with_member(header: &mut Header, value: Value) -> Option<()>
    ensures { option_map (λ _. fields_of header.new) result
        ≡ with_field (fields_of header.old) kinds.Member (value_of value) }
{
    header.member = Some(once(&header.member, member_in(value))?);
    Some(())
}

fn with_error_name(header: &mut Header, value: Value) -> Option<()>
    ensures { option_map (λ _. fields_of header.new) result
        ≡ with_field (fields_of header.old) kinds.ErrorName (value_of value) }
{
    header.error_name = Some(once(&header.error_name, interface_in(value))?);
    Some(())
}

fn with_reply_serial(header: &mut Header, value: Value) -> Option<()>
    ensures { option_map (λ _. fields_of header.new) result
        ≡ with_field (fields_of header.old) kinds.ReplySerial (value_of value) }
{
    header.reply_serial = Some(once(&header.reply_serial, serial_in(value))?);
    Some(())
}

fn with_destination(header: &mut Header, value: Value) -> Option<()>
    ensures { option_map (λ _. fields_of header.new) result
        ≡ with_field (fields_of header.old) kinds.Destination (value_of value) }
{
    header.destination = Some(once(&header.destination, string_in(value))?);
    Some(())
}

fn with_sender(header: &mut Header, value: Value) -> Option<()>
    ensures { option_map (λ _. fields_of header.new) result
        ≡ with_field (fields_of header.old) kinds.Sender (value_of value) }
{
    header.sender = Some(once(&header.sender, string_in(value))?);
    Some(())
}

fn with_signature(header: &mut Header, value: Value) -> Option<()>
    ensures { option_map (λ _. fields_of header.new) result
        ≡ with_field (fields_of header.old) kinds.Signature (value_of value) }
{
    header.signature = Some(once(&header.signature, signature_in(value))?);
    Some(())
}

fn with_unix_fds(header: &mut Header, value: Value) -> Option<()>
    ensures { option_map (λ _. fields_of header.new) result
        ≡ with_field (fields_of header.old) kinds.UnixFds (value_of value) }
{
    header.unix_fds = Some(once(&header.unix_fds, number_in(value))?);
    Some(())
}

// Adds a field to the header, unless that makes it invalid.
fn with_field(header: &mut Header, kind: FieldKind, value: Value) -> Option<()>
    ensures { option_map (λ _. fields_of header.new) result
        ≡ with_field (fields_of header.old) kind (value_of value) }
{
    match kind {
        FieldKind::Invalid => None,
        FieldKind::Path => with_path(header, value),
        FieldKind::Interface => with_interface(header, value),
        FieldKind::Member => with_member(header, value),
        FieldKind::ErrorName => with_error_name(header, value),
        FieldKind::ReplySerial => with_reply_serial(header, value),
        FieldKind::Destination => with_destination(header, value),
        FieldKind::Sender => with_sender(header, value),
        FieldKind::Signature => with_signature(header, value),
        FieldKind::UnixFds => with_unix_fds(header, value),
        FieldKind::Unknown => Some(()),
    }
}

fn with_value(header: &mut Header, field: Value) -> Option<()>
    ensures { option_map (λ _. fields_of header.new) result
        ≡ with_value (fields_of header.old) (value_as field_type field) }
{
    let (code, value) = field_in(field)?;
    with_field(header, kind_of(code), value)
}

fn with_values(header: Header, fields: Vec<Value>) -> Option<Header>
    ensures { option_map fields_of result
        ≡ with_values (fields_of header) (each_as field_type fields.items) }
{
    let mut header = header;
    for field in fields {
        with_value(&mut header, field)?;
    }
    Some(header)
}

/// The header whose array of fields was read as these values.
///
/// None if a field is invalid: its code is 0, or a known field has another type, occurs twice, or
/// doesn't contain a valid path, name or serial.
pub fn fields_in(values: Vec<Value>) -> Option<Header>
    ensures { option_map fields_of result ≡ fields_in (values_of values.items) }
{
    with_values(empty(), structs_in(one_of(values)?)?)
}

/// Whether the header has the fields that messages of this type must have.
pub fn has_needed(kind: u8, header: &Header) -> bool
    ensures { result ≡ has_needed kind (fields_of header.now) }
{
    match kind {
        1 => header.path.is_some() && header.member.is_some(),
        2 => header.reply_serial.is_some(),
        3 => header.error_name.is_some() && header.reply_serial.is_some(),
        4 => header.path.is_some() && header.interface.is_some() && header.member.is_some(),
        _ => true,
    }
}
