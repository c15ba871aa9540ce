// The interface that every path has (D-Bus Specification, "Standard Interfaces").

/// The name of the interface.
pub const INTERFACE: &str = "org.freedesktop.DBus.Peer";
