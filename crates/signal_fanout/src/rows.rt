use kr_base::ConnId;
use kr_items::Items;
use secret_calls::Out;

/// A connection.
#[derive(Drop)]
pub struct ConnRow {
    /// Its number.
    pub conn: ConnId,
    /// The outputs that wait for it, in order.
    pub waiting: Items<Out>,
    /// Whether an output was lost because too much was waiting.
    pub overrun: bool,
    /// Whether it has left: it makes no more requests, and takes what waits.
    pub leaving: bool,
    /// How many outputs it has taken.
    pub taken: u64,
}

/// The status of a connection.
#[derive(Clone, Copy, PartialEq, Eq)]
pub struct DeskRow {
    /// Whether something waits for it.
    pub waits: bool,
    /// Whether an output was lost.
    pub overrun: bool,
    /// Whether it has left.
    pub leaving: bool,
}

/// The delivery of an output to a connection.
#[derive(Drop)]
pub struct Delivery {
    /// The connection.
    pub to: ConnId,
    /// The output.
    pub out: Out,
}
