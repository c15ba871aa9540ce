// The messages that are written on a link, one after the other.
ghost use Rattle.std.specs.Prelude.{◌≡◌, ◌≢◌, ◌+◌, IfOk, OnOk, OnErr};
ghost use Rattle.bus_sending.specs.Addressed.{spelled_signal, spelled_to};
ghost use Rattle.bus_sending.specs.BusCalls.{spelled_call};
ghost use Rattle.bus_sending.specs.Texts.{nothing, with_message, written_out};

use crate::calls::{BusCall, call_of_bus};
use crate::outputs::addressed;
use kr_base::OutOfMemory;
use secret_calls::{Out, Signal};
use std::alloc::Global;
use std::marker::Model;

/// The last serial. After it comes 1 again.
const LAST_SERIAL: u32 = 4_294_967_295;

/// The room that an empty buffer may keep.
const KEPT_ROOM: usize = 65_536;

/// The messages of a link that are to be written: the n-th message of the link has the serial n. A
/// contract sees their bytes, and how many messages were put before the next one, modulo the number of
/// serials.
#[derive(Drop)]
pub struct LinkText {
    alloc: Global,
    bytes: Vec<u8>,
    taken: u32,
}

impl Model for LinkText {
    ghost use Rattle.bus_sending.specs.Texts.{Written};

    ghost Value = { Written };

    ghost view = { λ text. record { bytes = text.bytes.items; taken = text.taken } };

    ghost use Rattle.std.specs.Prelude.{◌<◌};
    ghost use Rattle.secret_calls.specs.Serials.{last_serial};

    ghost invariant = { λ text. text.taken < last_serial };
}

// A signal to everyone as a message with this serial.
#[tactic(auto, unfolding(crate::specs::Addressed::spelled_signal))]
fn signal_message(alloc: Global, signal: &Signal, serial: u32) -> Result<Vec<u8>, OutOfMemory>
    ensures { IfOk result (λ bytes. bytes.items
        ≡ spelled_signal signal.now serial) }
{
    let mut bytes = Vec::new(alloc);
    signal.put(serial, &mut bytes)?;
    Ok(bytes)
}

impl LinkText {
    /// Nothing was put yet.
    pub fn new(alloc: Global) -> LinkText
        ensures { result ≡ nothing }
    {
        LinkText {
            alloc,
            bytes: Vec::new(alloc),
            taken: 0,
        }
    }

    /// The serial of the next message.
    pub fn serial(&self) -> u32
        ensures value { result ≡ self.now.taken + 1 }
        ensures some { result ≢ 0 }
    {
        self.taken + 1
    }

    // Puts a message that has the next serial.
    fn put(&mut self, message: &[u8]) -> Result<(), OutOfMemory>
        ensures put { OnOk result (self.new ≡ with_message message.now self.old) }
        ensures unchanged { OnErr result (self.new ≡ self.old) }
    {
        self.bytes.extend_from_slice(message)?;
        let serial = self.taken + 1;
        self.taken = if serial == LAST_SERIAL { 0 } else { serial };
        Ok(())
    }

    /// Puts a call of the bus. If no memory is left, nothing has changed.
    pub fn put_call(&mut self, call: &BusCall<'_>) -> Result<(), OutOfMemory>
        ensures put { OnOk result (self.new
            ≡ with_message (spelled_call call.now (self.old.taken + 1)) self.old) }
        ensures unchanged { OnErr result (self.new ≡ self.old) }
    {
        let message = call_of_bus(self.alloc, call, self.serial())?;
        self.put(message.as_slice())
    }

    /// Puts an output to the sender of this name. If no memory is left, nothing has changed.
    pub fn put_to(&mut self, sender: &str, out: &Out) -> Result<(), OutOfMemory>
        ensures put { OnOk result (self.new
            ≡ with_message (spelled_to sender.now out.now (self.old.taken + 1)) self.old) }
        ensures unchanged { OnErr result (self.new ≡ self.old) }
    {
        let message = addressed(self.alloc, sender, out, self.serial())?;
        self.put(message.as_slice())
    }

    /// Puts a signal to everyone. If no memory is left, nothing has changed.
    pub fn put_signal(&mut self, signal: &Signal) -> Result<(), OutOfMemory>
        ensures put { OnOk result (self.new
            ≡ with_message (spelled_signal signal.now (self.old.taken + 1)) self.old) }
        ensures unchanged { OnErr result (self.new ≡ self.old) }
    {
        let message = signal_message(self.alloc, signal, self.serial())?;
        self.put(message.as_slice())
    }

    /// The bytes that are to be written.
    pub fn as_slice(&self) -> &[u8]
        ensures { result.now ≡ self.now.bytes }
    {
        self.bytes.as_slice()
    }

    /// All of them were written.
    pub fn clear(&mut self)
        ensures { self.new ≡ written_out self.old }
    {
        if self.bytes.capacity() > KEPT_ROOM {
            self.bytes = Vec::new(self.alloc);
        } else {
            self.bytes.clear();
        }
    }
}
