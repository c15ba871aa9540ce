//! The client tool over any dialer: what `secret_tool` does with its words, its input, its output and its connection
//! (docs/secret_tool.1). It dials the socket, does the client's half of the handshake, makes the calls of its command one
//! after the other, each once the one before it is answered, and prints what the command says. Callers may rely on these
//! (`tool`): what is written to the dialer is the handshake and the messages of `script` of the replies, which are those
//! in the bytes that were read, in order; what is printed, and the status, are those of `print`; at any other end both
//! are prefixes of these; and each status has its cause.
#![tactic(auto)]

mod greeting;
mod printing;
mod receiving;
mod running;
mod secret;
mod sending;
mod status;
mod talking;
mod words;

pub use running::tool;
pub use status::{BadReply, ToolStatus};
