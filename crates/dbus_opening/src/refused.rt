// Why a link isn't opened.
use dbus_auth_client::ClientFault;

/// Why a link isn't opened.
#[derive(Clone, Copy, Debug, PartialEq, Eq)]
pub enum OpenRefused {
    /// The server refused the handshake, or the input ended in it (`EndedEarly`).
    Handshake(ClientFault),
    /// The link failed at a read.
    ReadFault,
    /// The link failed at a write.
    WriteFault,
    /// No memory was left.
    OutOfMemory,
}
