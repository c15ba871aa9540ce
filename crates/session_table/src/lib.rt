//! The sessions that are open, each with the connection that owns it (Secret Service API, interface
//! Session). A session is looked up only among its owner's: another connection's session is refused
//! like one that was never opened. Callers may rely on these: a connection has at most 64 sessions,
//! no number is used twice, and closing a session, or all sessions of a connection that is gone,
//! takes no memory. The time of a call grows with the logarithm of the number of all sessions, and
//! with the number of its connection's.
#![tactic(auto)]

mod keys;
mod row;
mod table;

pub use row::{SessionRow, Sessions};
pub use table::{SessionRefused, SessionTable};
