// The calls of the bus itself (D-Bus Specification, "Message Bus Messages").
ghost use Rattle.std.specs.Prelude.{◌≡◌, ℕ, List, Some, IfOk, OnOk};
ghost use Rattle.dbus_types.specs.Types.{texts_of};
ghost use Rattle.dbus_types.specs.Values.{tys_of};
ghost use Rattle.dbus_marshal.specs.Putting.{puts};
ghost use Rattle.dbus_sending.specs.HeaderViews.{seen};
ghost use Rattle.dbus_sending.specs.Sent.{bare_header};
ghost use Rattle.bus_sending.specs.BusCalls.{arguments_of, bus, bus_path, member_of, named, rule, service, spelled_call};

use crate::writing::message;
use dbus_marshal::{Put, PutValues, put_text, put_u32};
use dbus_sending::Header;
use kr_base::OutOfMemory;
use std::alloc::Global;

/// The name of the bus, which is also its interface.
const BUS: &str = "org.freedesktop.DBus";

/// The object of the bus.
const BUS_PATH: &str = "/org/freedesktop/DBus";

/// The name of the service.
const SERVICE: &str = "org.freedesktop.secrets";

/// The rule by which the bus says which names have no owner any more.
const RULE: &str =
    "type='signal',sender='org.freedesktop.DBus',path='/org/freedesktop/DBus',interface='org.freedesktop.DBus',member='NameOwnerChanged',arg2=''";

/// The type METHOD_CALL.
const METHOD_CALL: u8 = 1;

/// The flag DO_NOT_QUEUE of RequestName.
const DO_NOT_QUEUE: u32 = 4;

// The name of the bus.
#[tactic(auto, unfolding(crate::specs::BusCalls::bus))]
fn bus() -> &'static str
    ensures { result.now ≡ bus }
{
    BUS
}

// The object of the bus.
#[tactic(auto, unfolding(crate::specs::BusCalls::bus_path))]
fn bus_path() -> &'static str
    ensures { result.now ≡ bus_path }
{
    BUS_PATH
}

// The name of the service.
#[tactic(auto, unfolding(crate::specs::BusCalls::service))]
fn service() -> &'static str
    ensures { result.now ≡ service }
{
    SERVICE
}

// The rule.
#[tactic(auto, unfolding(crate::specs::BusCalls::rule))]
fn rule() -> &'static str
    ensures { result.now ≡ rule }
{
    RULE
}

/// A call of the bus.
#[derive(Clone, Copy)]
pub enum BusCall<'a> {
    /// Hello: the link gets a unique name.
    Hello,
    /// AddMatch: the bus reports to the link which names have no owner any more.
    WatchOwners,
    /// RequestName: the link gets the name of the service, unless it has an owner; it doesn't wait for
    /// the name, and nobody may take the name away.
    OwnName,
    /// GetConnectionUnixUser: who is the user of this sender?
    AskUser(&'a str),
    /// StartServiceByName: the program that has this name is started.
    StartService(&'a str),
}

impl BusCall<'_> {
    // The method.
    fn member(&self) -> &'static str
        ensures { result.now ≡ member_of self.now }
    {
        match self {
            BusCall::Hello => "Hello",
            BusCall::WatchOwners => "AddMatch",
            BusCall::OwnName => "RequestName",
            BusCall::AskUser(_) => "GetConnectionUnixUser",
            BusCall::StartService(_) => "StartServiceByName",
        }
    }

    // The signature of its arguments.
    fn signature(&self) -> &'static str
        ensures { result.now ≡ texts_of (tys_of (arguments_of self.now)) }
    {
        match self {
            BusCall::Hello => "",
            BusCall::WatchOwners => "s",
            BusCall::OwnName => "su",
            BusCall::AskUser(_) => "s",
            BusCall::StartService(_) => "su",
        }
    }
}

// Writes a name and a number.
fn put_named<P: Put>(out: &mut P, name: &str, number: u32) -> Result<(), P::Refused>
    ensures { (before : List ℕ) → P.stands out.old before → OnOk result (P.stands out.new
        (puts before (named name.now number))) }
{
    put_text(out, name.as_bytes())?;
    put_u32(out, number)
}

impl PutValues for BusCall<'_> {
    ghost use Rattle.bus_sending.specs.BusCalls.{arguments_of};

    ghost values = { λ it. arguments_of it };

    fn put_to<P: Put>(&self, out: &mut P) -> Result<(), P::Refused> {
        match self {
            BusCall::Hello => Ok(()),
            BusCall::WatchOwners => put_text(out, rule().as_bytes()),
            BusCall::OwnName => put_named(out, service(), DO_NOT_QUEUE),
            BusCall::AskUser(sender) => put_text(out, sender.as_bytes()),
            BusCall::StartService(name) => put_named(out, name, 0),
        }
    }
}

// The header of a call of the bus.
fn header(member: &'static str, serial: u32) -> Header<'static>
    ensures { seen result ≡ record (bare_header 1 0 serial) {
      path = Some bus_path;
      interface = Some bus;
      member = Some member.now;
      destination = Some bus;
    } }
{
    Header {
        path: Some(bus_path()),
        interface: Some(bus()),
        member: Some(member),
        destination: Some(bus()),
        ..Header::bare(METHOD_CALL, 0, serial)
    }
}

/// The bytes of a call of the bus, with this serial: a method call without flags, of the object, the
/// interface and the name of the bus.
pub fn call_of_bus(alloc: Global, call: &BusCall<'_>, serial: u32) -> Result<Vec<u8>, OutOfMemory>
    ensures { IfOk result (λ bytes. bytes.items ≡ spelled_call call.now serial) }
{
    message(
        alloc,
        &header(call.member(), serial),
        call.signature(),
        call,
    )
}
