//! What the program asks of the world outside it, as traits: streams of bytes that come in and go
//! out, listeners that give such streams in pairs, the clock, folders, and the slots of their names,
//! by which a file is replaced. Contracts see an object of the outside by ghost meanings: the bytes
//! that a source has left, the bytes that a sink has taken, whether either was closed, how many
//! links a listener gave, what a slot reads and what a crash at any moment may leave of it, how
//! often an object has failed, and whether it ever will. Callers may rely on these: a call fails
//! only if the count of faults rose in that very call, a steady object never fails, only `close`
//! closes a stream, and an honest slot behaves as the rename disk does.
#![tactic(auto)]

mod clock;
mod folder;
mod host;
mod listener;
mod sink;
mod slot;
mod source;

pub use clock::Clock;
pub use folder::{Folder, OutsideRefused};
pub use host::Host;
pub use listener::{Link, Listener};
pub use sink::{Sink, write_all};
pub use slot::{DeviceCall, Seen, Slot};
pub use source::{Failed, Source};
