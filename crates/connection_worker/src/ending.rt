use dbus_auth::AuthFault;
use dbus_framing::Violation;

/// Why a connection is no longer served.
#[derive(Clone, Copy, Debug, PartialEq, Eq)]
pub enum End {
    /// Everything was done.
    Done,
    /// The input isn't a stream of messages.
    Violation(Violation),
    /// The handshake was refused.
    AuthRefused(AuthFault),
    /// The source failed.
    ReadFault,
    /// The sink failed.
    WriteFault,
    /// The service has recorded as many events as it can count.
    EventsSpent,
    /// The connection isn't there any more.
    OtherEnded,
    /// An output was lost because too many were waiting.
    Overrun,
    /// No memory was left.
    Memory,
}
