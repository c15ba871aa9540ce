//! The client's half of the D-Bus authentication handshake with the mechanism EXTERNAL (D-Bus
//! Specification, "Authentication Protocol"): what the client sends first, and what each line of
//! the server leads to. Callers may rely on these: the handshake succeeds only at an `OK` with a
//! GUID of 32 hex digits, and every other end of it has a named cause; what is heard is stated as
//! a function of the whole stream, which doesn't depend on how the stream was cut; and the server's
//! half in `dbus_auth` accepts what is sent. Nothing here takes memory.
//!
//! ```text
//! client  \0AUTH EXTERNAL 31303030
//! server  OK 0123456789abcdef0123456789abcdef
//! client  BEGIN
//! ```
#![tactic(auto)]

mod client;
mod client_handshake_laws;
mod hearing;
mod sent;

pub use client::{Client, ClientFault, Turn};
pub use client_handshake_laws::{client_cut_anywhere, our_server_accepts};
pub use sent::{BEGIN_LINE, DATA_LINE, opening};
