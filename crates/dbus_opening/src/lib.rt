//! The client's half of the handshake over a link, with a server or a message bus (D-Bus Specification, "Authentication
//! Protocol"; docs/SERVICE.md, "The start on a message bus"). Callers may rely on these: what is written is the opening
//! and then the lines that the client says to the lines of the server, as `dbus_auth_client` defines them over all bytes
//! that were read, however they were cut; at a failed write and without memory it is a prefix of that; the link is open
//! exactly once the server has accepted the user, and what was read after that is returned; and each refusal has its
//! cause.
#![tactic(auto)]

mod opening;
mod refused;

pub use opening::open_link;
pub use refused::OpenRefused;
