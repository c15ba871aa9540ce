// What goes to one sender.
ghost use Rattle.std.specs.Prelude.{◌≡◌, ◌++◌, Some, IfOk};
ghost use Rattle.dbus_types.specs.Types.{texts_of};
ghost use Rattle.dbus_types.specs.Values.{tys_of};
ghost use Rattle.dbus_sending.specs.HeaderViews.{seen};
ghost use Rattle.dbus_sending.specs.Sent.{bare_header};
ghost use Rattle.secret_calls.specs.declared.out.Out.TheVariants as outs;
ghost use Rattle.secret_calls.specs.Outs.{emitter, error_text, prompt_path, signal_values};
ghost use Rattle.bus_sending.specs.Addressed.{spelled_to};

use crate::errors::ErrorBody;
use crate::writing::message;
use arrayvec::ArrayString;
use dbus_sending::Header;
use itoa::Buffer;
use kr_base::{OutOfMemory, PromptId};
use secret_calls::{Body, ErrorName, Out, Serial, Signal};
use std::alloc::Global;

/// The types of messages, and the flag that replies and signals are sent with (D-Bus Specification,
/// "Message Format").
const METHOD_RETURN: u8 = 2;

const ERROR: u8 = 3;

const SIGNAL: u8 = 4;

const NO_REPLY_EXPECTED: u8 = 1;

/// The object that emits Ask.
const AGENT: &str = "/org/freedesktop/secrets/agent";

/// The object that emits the signals of collections.
const SERVICE: &str = "/org/freedesktop/secrets";

/// What comes before a prompt's number in its path.
const PROMPTS: &str = "/org/freedesktop/secrets/prompt/p";

// The header of a method return.
fn return_header<'a>(destination: &'a str, to: Serial, serial: u32) -> Header<'a>
    ensures { seen result ≡ record (bare_header 2 1 serial) {
      reply_serial = Some to.number;
      destination = Some destination.now;
    } }
{
    Header {
        reply_serial: Some(to.number),
        destination: Some(destination),
        ..Header::bare(METHOD_RETURN, NO_REPLY_EXPECTED, serial)
    }
}

// The header of an error.
fn error_header<'a>(destination: &'a str, to: Serial, name: ErrorName, serial: u32) -> Header<'a>
    ensures { seen result ≡ record (bare_header 3 1 serial) {
      error_name = Some (error_text name);
      reply_serial = Some to.number;
      destination = Some destination.now;
    } }
{
    Header {
        error_name: Some(name.as_str()),
        reply_serial: Some(to.number),
        destination: Some(destination),
        ..Header::bare(ERROR, NO_REPLY_EXPECTED, serial)
    }
}

// The header of a signal that this object emits.
fn signal_header<'a>(
    destination: &'a str,
    emitter: &'a str,
    interface: &'a str,
    name: &'a str,
    serial: u32,
) -> Header<'a>
    ensures { seen result ≡ record (bare_header 4 1 serial) {
      path = Some emitter.now;
      interface = Some interface.now;
      member = Some name.now;
      destination = Some destination.now;
    } }
{
    Header {
        path: Some(emitter),
        interface: Some(interface),
        member: Some(name),
        destination: Some(destination),
        ..Header::bare(SIGNAL, NO_REPLY_EXPECTED, serial)
    }
}

// Writes a method return.
fn return_to(
    alloc: Global,
    destination: &str,
    to: Serial,
    body: &Body,
    serial: u32,
) -> Result<Vec<u8>, OutOfMemory>
    ensures { IfOk result (λ bytes. bytes.items
        ≡ spelled_to destination.now (outs.Return to body.now) serial) }
{
    let header = return_header(destination, to, serial);
    message(alloc, &header, body.signature(), body)
}

// Writes an error with its text.
fn error_to(
    alloc: Global,
    destination: &str,
    to: Serial,
    name: ErrorName,
    serial: u32,
) -> Result<Vec<u8>, OutOfMemory>
    ensures { IfOk result (λ bytes. bytes.items
        ≡ spelled_to destination.now (outs.Error to name) serial) }
{
    let header = error_header(destination, to, name, serial);
    message(alloc, &header, "s", &ErrorBody { name })
}

// The signature of a signal's values.
fn signature_of(signal: &Signal) -> &'static str
    ensures { result.now ≡ texts_of (tys_of (signal_values signal.now)) }
{
    match signal {
        Signal::Ask { .. } => "otssu",
        Signal::Completed { .. } => "bv",
        Signal::CollectionCreated { .. } => "o",
        Signal::CollectionDeleted { .. } => "o",
        Signal::CollectionChanged { .. } => "o",
        Signal::ItemCreated { .. } => "o",
        Signal::ItemDeleted { .. } => "o",
        Signal::ItemChanged { .. } => "o",
        Signal::PropertiesChanged { .. } => "sa{sv}as",
    }
}

// Writes a signal, given the path of the object that emits it.
fn signal_from(
    alloc: Global,
    destination: &str,
    path: &str,
    signal: &Signal,
    serial: u32,
) -> Result<Vec<u8>, OutOfMemory>
    requires { path.now ≡ emitter signal.now }
    ensures { IfOk result (λ bytes. bytes.items
        ≡ spelled_to destination.now (outs.Signal signal.now) serial) }
{
    let header = signal_header(destination, path, signal.interface(), signal.name(), serial);
    message(alloc, &header, signature_of(signal), signal)
}

// The path of a prompt: the prefix has 33 bytes, and a number of 64 bits has 20 digits at most.
fn path_of_prompt(prompt: PromptId) -> ArrayString<53>
    ensures { result.bytes ≡ prompt_path prompt.0 }
{
    let mut path = ArrayString::new();
    let mut buffer = Buffer::new();
    path.push_str(PROMPTS);
    path.push_str(buffer.format(prompt.0));
    path
}

// Writes a signal.
fn signal_to(
    alloc: Global,
    destination: &str,
    signal: &Signal,
    serial: u32,
) -> Result<Vec<u8>, OutOfMemory>
    ensures { IfOk result (λ bytes. bytes.items
        ≡ spelled_to destination.now (outs.Signal signal.now) serial) }
{
    match signal {
        Signal::Ask { .. } => signal_from(alloc, destination, AGENT, signal, serial),
        Signal::Completed { prompt, .. } => {
            let path = path_of_prompt(*prompt);
            signal_from(alloc, destination, path.as_str(), signal, serial)
        }
        Signal::CollectionCreated { .. } => {
            signal_from(alloc, destination, SERVICE, signal, serial)
        }
        Signal::CollectionDeleted { .. } => {
            signal_from(alloc, destination, SERVICE, signal, serial)
        }
        Signal::CollectionChanged { .. } => {
            signal_from(alloc, destination, SERVICE, signal, serial)
        }
        Signal::ItemCreated { collection, .. } => {
            signal_from(alloc, destination, collection.as_str(), signal, serial)
        }
        Signal::ItemDeleted { collection, .. } => {
            signal_from(alloc, destination, collection.as_str(), signal, serial)
        }
        Signal::ItemChanged { collection, .. } => {
            signal_from(alloc, destination, collection.as_str(), signal, serial)
        }
        Signal::PropertiesChanged { object, .. } => {
            signal_from(alloc, destination, object.path(), signal, serial)
        }
    }
}

/// The bytes of an output as a message to the sender of this name, with this serial (D-Bus
/// Specification, "Message Format"): what `message_of` of call_wire writes, with the field DESTINATION,
/// and a text if it is an error.
pub fn addressed(
    alloc: Global,
    destination: &str,
    out: &Out,
    serial: u32,
) -> Result<Vec<u8>, OutOfMemory>
    ensures { IfOk result (λ bytes. bytes.items
        ≡ spelled_to destination.now out.now serial) }
{
    match out {
        Out::Return { to, body } => return_to(alloc, destination, *to, body, serial),
        Out::Error { to, name } => error_to(alloc, destination, *to, *name, serial),
        Out::Signal(signal) => signal_to(alloc, destination, signal.signal(), serial),
    }
}
