//! The outside on the system: files and folders, standard streams, Unix sockets, the clock. These
//! adapters are the trusted edge. They meet the traits of kr_outside and say nothing of content, so that no contract
//! claims what a real disk or terminal contains; that a real folder behaves as the rename disk does
//! is a premise of every crash claim (docs/PROOFS.md). Callers may rely on this: a call is refused
//! only if the system returned an error, and each error raises the adapter's count by one.
#![tactic(auto)]

mod clock;
mod connection;
mod door;
mod ending;
mod faults;
mod folder;
mod host;
mod opened;
mod slot;
mod socket;
mod socket_file;
mod standard;

pub use clock::SystemClock;
pub use door::UnixDoor;
pub use ending::DoorBell;
pub use folder::RealFolder;
pub use host::RealHost;
pub use slot::RealSlot;
pub use socket::{SocketSink, SocketSource};
pub use standard::{ReaderSource, WriterSink};
