use crate::Out;
use kr_items::Items;

/// Why a desk didn't accept a request.
#[derive(Clone, Copy, PartialEq, Eq)]
pub enum Refused {
    /// The service has recorded all the events that it can count.
    EventsSpent,
    /// The connection isn't there.
    Gone,
    /// No memory was left.
    OutOfMemory,
}

/// The result of taking what waits for a connection.
#[derive(Drop)]
pub enum Taken {
    /// Outputs, in order. They are no longer waiting.
    Outs(Items<Out>),
    /// Nothing yet.
    Empty,
    /// Nothing, and an output was lost because too much was waiting.
    Overrun,
    /// Nothing, and the connection was leaving. It is gone now.
    Closed,
    /// The connection isn't there.
    Missing,
}
