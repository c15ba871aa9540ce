// What becomes of a message on the board.
ghost use Rattle.std.specs.Prelude.{◌≡◌, ◌≤◌, ◌-◌, IsTrue, IsSome, IfOk, OnOk, OnErr, [], option_map};
ghost use Rattle.std.specs.List.{find};
ghost use Rattle.std.specs.Option.{option_copied};
ghost use Rattle.std.specs.Str.{bytes_eq};
ghost use Rattle.sender_board.specs.declared.message.Kind.TheVariants as kinds;
ghost use Rattle.sender_board.specs.Hear.{bus, service, has_room, begun, waited, IsFull, answered, is_user, gone, hear_bus, hear_sender, hear, joined_with, left_by};
ghost use Rattle.sender_board.specs.Rows.{rows_of, is_of, asks, is_at, is_joined_as, size_in};

use crate::action::{Action, Refusal};
use crate::board::Board;
use crate::message::{Call, Kind, Message};
use crate::rows::{
    Joined, Waiting, add_call, conn_at, has_sender, joined_at, size_of, take_conn, take_joined,
    take_question, take_sender,
};
use kr_base::{ConnId, OutOfMemory, Text};
use kr_items::Items;
use std::alloc::Global;

/// The name that the bus itself has as a sender.
const BUS: &str = "org.freedesktop.DBus";

/// The name of the service.
const SERVICE: &str = "org.freedesktop.secrets";

/// The most senders whose users are looked up at once.
const MOST_WAITING: usize = 256;

/// The most bytes of all calls that wait.
const MOST_BYTES: u64 = 16_777_216;

/// Whether the sender is the bus itself.
#[tactic(auto, unfolding(crate::specs::Hear::bus))]
fn is_bus(sender: &Text) -> bool
    ensures { result ≡ bytes_eq sender.now bus }
{
    sender.as_str() == BUS
}

/// Whether the name is that of the service.
#[tactic(auto, unfolding(crate::specs::Hear::service))]
fn is_service(name: &Text) -> bool
    ensures { result ≡ bytes_eq name.now service }
{
    name.as_str() == SERVICE
}

/// What is left of the bytes without those of the calls.
fn left_without<T>(bytes: u64, calls: &[Call<T>]) -> u64
    requires { bytes ≤ 16777216 }
    ensures value { result ≡ bytes - size_in calls.now }
    ensures less { result ≤ bytes }
{
    bytes.saturating_sub(size_of(calls))
}

impl<T: Drop> Board<T> {
    /// A board without senders. Only senders of this user get connections.
    pub fn new(alloc: Global, user: u32) -> Board<T>
        ensures none { rows_of result ≡ record { waiting = []; joined = []; bytes = 0 } }
        ensures user { result.user ≡ user }
    {
        Board {
            alloc,
            user,
            waiting: Vec::new(alloc),
            joined: Vec::new(alloc),
            bytes: 0,
        }
    }

    /// Hears a message of the link, and returns what is to be done for it (docs/SERVICE.md,
    /// "Senders"). A question about a sender's user is to be written with this serial.
    ///
    /// If no memory is left, the rows are as before, and the message is lost.
    pub fn hear(&mut self, message: Message<T>, serial: u32) -> Result<Action<T>, OutOfMemory>
        ensures action { IfOk result (λ action. action
            ≡ (hear self.old.user serial message (rows_of self.old)).action) }
        ensures rows { OnOk result (rows_of self.new
            ≡ (hear self.old.user serial message (rows_of self.old)).rows) }
        ensures unchanged { OnErr result (rows_of self.new ≡ rows_of self.old) }
        ensures user { self.new.user ≡ self.old.user }
    {
        let Message { sender, kind } = message;
        let Some(sender) = sender else {
            return Ok(Action::Nothing);
        };
        if is_bus(&sender) {
            return Ok(self.hear_bus(kind));
        }
        match kind {
            Kind::Call(call) => self.hear_call(sender, call, serial),
            _ => Ok(Action::Nothing),
        }
    }

    /// Hears a call of a sender.
    fn hear_call(
        &mut self,
        sender: Text,
        call: Call<T>,
        serial: u32,
    ) -> Result<Action<T>, OutOfMemory>
        ensures action { IfOk result (λ action. action
            ≡ (hear_sender serial sender (kinds.Call call) (rows_of self.old)).action) }
        ensures rows { OnOk result (rows_of self.new
            ≡ (hear_sender serial sender (kinds.Call call) (rows_of self.old)).rows) }
        ensures unchanged { OnErr result (rows_of self.new ≡ rows_of self.old) }
        ensures user { self.new.user ≡ self.old.user }
    {
        if let Some(row) = joined_at(self.joined.as_slice(), &sender) {
            return Ok(Action::Serve(row.conn, call));
        }
        if !has_sender(self.waiting.as_slice(), &sender) {
            return self.begin(sender, call, serial);
        }
        if self.has_room(&call) {
            return self.wait(sender, call);
        }
        Ok(self.turn_away(sender, call))
    }

    /// Whether there is room for a call.
    fn has_room(&self, call: &Call<T>) -> bool
        ensures { result ≡ has_room call.now (rows_of self.now) }
    {
        self.bytes + u64::from(call.size) <= MOST_BYTES
    }

    /// Asks for the user of a sender that is unknown, if there is room.
    fn begin(&mut self, sender: Text, call: Call<T>, serial: u32) -> Result<Action<T>, OutOfMemory>
        ensures action { IfOk result (λ action. action
            ≡ (begun serial sender call (rows_of self.old)).action) }
        ensures rows { OnOk result (rows_of self.new
            ≡ (begun serial sender call (rows_of self.old)).rows) }
        ensures unchanged { OnErr result (rows_of self.new ≡ rows_of self.old) }
        ensures user { self.new.user ≡ self.old.user }
    {
        if self.waiting.len() >= MOST_WAITING || !self.has_room(&call) {
            return Ok(Action::TurnAway {
                sender,
                refusal: Refusal::NoRoom,
                calls: Items::empty(self.alloc),
                last: Some(call),
            });
        }
        let size = u64::from(call.size);
        let asked = sender.copy()?;
        let mut calls = Items::empty(self.alloc);
        calls.push(call)?;
        self.waiting.push(Waiting {
            sender,
            question: serial,
            calls,
        })?;
        self.bytes += size;
        Ok(Action::AskUser(asked))
    }

    /// Lets a call wait for the answer about its sender's user.
    fn wait(&mut self, sender: Text, call: Call<T>) -> Result<Action<T>, OutOfMemory>
        requires { IsTrue (has_room call (rows_of self.old)) }
        ensures action { IfOk result (λ action. action ≡ Action.Nothing) }
        ensures rows { OnOk result (rows_of self.new ≡ waited sender call (rows_of self.old)) }
        ensures unchanged { OnErr result (rows_of self.new ≡ rows_of self.old) }
        ensures user { self.new.user ≡ self.old.user }
    {
        let size = u64::from(call.size);
        add_call(&mut self.waiting, &sender, call)?;
        self.bytes += size;
        Ok(Action::Nothing)
    }

    /// Turns away a sender's calls that wait, and this one.
    fn turn_away(&mut self, sender: Text, call: Call<T>) -> Action<T>
        requires { IsSome (find (is_of sender) (rows_of self.old).waiting) }
        ensures full { IsFull sender call (find (is_of sender) (rows_of self.old).waiting)
            (rows_of self.old) result (rows_of self.new) }
        ensures user { self.new.user ≡ self.old.user }
    {
        match take_sender(&mut self.waiting, &sender) {
            Some(row) => {
                self.bytes = left_without(self.bytes, row.calls.as_slice());
                Action::TurnAway {
                    sender: row.sender,
                    refusal: Refusal::NoRoom,
                    calls: row.calls,
                    last: Some(call),
                }
            }
            None => unreachable!(),
        }
    }

    /// Hears a message of the bus.
    fn hear_bus(&mut self, kind: Kind<T>) -> Action<T>
        ensures action { result ≡ (hear_bus self.old.user kind (rows_of self.old)).action }
        ensures rows { rows_of self.new ≡ (hear_bus self.old.user kind (rows_of self.old)).rows }
        ensures user { self.new.user ≡ self.old.user }
    {
        match kind {
            Kind::Answer { question, user } => self.hear_answer(question, user),
            Kind::OwnerLost(name) => self.hear_gone(&name),
            Kind::NameLost(name) => {
                if is_service(&name) {
                    Action::NameLost
                } else {
                    Action::Nothing
                }
            }
            _ => Action::Nothing,
        }
    }

    /// Hears an answer of the bus.
    fn hear_answer(&mut self, question: u32, told: Option<u32>) -> Action<T>
        ensures action { result ≡ (answered self.old.user question told
            (find (asks question) (rows_of self.old).waiting) (rows_of self.old)).action }
        ensures rows { rows_of self.new ≡ (answered self.old.user question told
            (find (asks question) (rows_of self.old).waiting) (rows_of self.old)).rows }
        ensures user { self.new.user ≡ self.old.user }
    {
        let Some(row) = take_question(&mut self.waiting, question) else {
            return Action::Nothing;
        };
        self.bytes = left_without(self.bytes, row.calls.as_slice());
        if self.is_user(told) {
            Action::Join {
                sender: row.sender,
                calls: row.calls,
            }
        } else {
            Action::TurnAway {
                sender: row.sender,
                refusal: Refusal::OtherUser,
                calls: row.calls,
                last: None,
            }
        }
    }

    /// Whether this is the user whose senders get connections.
    fn is_user(&self, told: Option<u32>) -> bool
        ensures { result ≡ is_user self.now.user told }
    {
        match told {
            Some(user) => user == self.user,
            None => false,
        }
    }

    /// Hears that a name has no owner any more.
    fn hear_gone(&mut self, name: &Text) -> Action<T>
        ensures action { result ≡ (gone name.now
            (find (is_joined_as name.now) (rows_of self.old).joined) (rows_of self.old)).action }
        ensures rows { rows_of self.new ≡ (gone name.now
            (find (is_joined_as name.now) (rows_of self.old).joined) (rows_of self.old)).rows }
        ensures user { self.new.user ≡ self.old.user }
    {
        if let Some(row) = take_joined(&mut self.joined, name) {
            return Action::Leave(row.conn);
        }
        if let Some(row) = take_sender(&mut self.waiting, name) {
            self.bytes = left_without(self.bytes, row.calls.as_slice());
        }
        Action::Nothing
    }

    /// Gives the sender of `Action::Join` the connection that it got. If no memory is left, the
    /// sender is unknown, as before.
    pub fn join(&mut self, sender: Text, conn: ConnId) -> Result<(), OutOfMemory>
        ensures joined { OnOk result (rows_of self.new
            ≡ joined_with sender conn (rows_of self.old)) }
        ensures unchanged { OnErr result (rows_of self.new ≡ rows_of self.old) }
        ensures user { self.new.user ≡ self.old.user }
    {
        self.joined.push(Joined { sender, conn })?;
        Ok(())
    }

    /// Removes a connection that was overrun: its sender is unknown then. Nothing changes if no sender
    /// has the connection.
    pub fn leave(&mut self, conn: ConnId)
        ensures left { rows_of self.new ≡ left_by conn (rows_of self.old) }
        ensures user { self.new.user ≡ self.old.user }
    {
        let _ = take_conn(&mut self.joined, conn);
    }

    /// The sender that has the connection. None if no sender has it.
    pub fn sender_of(&self, conn: ConnId) -> Option<&Text>
        ensures { option_copied result
            ≡ option_map (λ row. row.sender) (find (is_at conn) (rows_of self.now).joined) }
    {
        match conn_at(self.joined.as_slice(), conn) {
            Some(row) => Some(&row.sender),
            None => None,
        }
    }
}
