//! What waits for each connection: replies to it alone, and signals, of which most go to everyone (Secret
//! Service API draft 0.2, the interfaces' signals). A signal to everyone is one value. Each connection's
//! list has one owner of it (`SharedSignal` of secret_calls), so its texts are in memory once, and its
//! size was computed once, however many connections it waits for; taking it gives the same owner, from
//! which the writer spells its message.
//!
//! Callers may rely on these: outputs wait in order, and a call of `take` returns all of them; once there
//! is room for several of them, to whichever connections, they wait without taking memory; the room that
//! is made for a connection is for what goes to it; no more than 8,912,896 bytes wait for a connection; one
//! that has lost an output is marked, gets none after that, and keeps what waited until it is taken; and
//! what becomes of one connection's row leaves all others as they are.
#![tactic(auto)]

mod boxes;
mod outbox;
mod outboxes;
mod rows;

pub use outboxes::Outboxes;
pub use rows::{ConnRow, Delivery, DeskRow};
pub use secret_calls;
