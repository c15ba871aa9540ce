use kr_base::{ConnId, SessionId};
use kr_items::Items;

/// A session that is open, and the connection that owns it.
#[derive(Clone, Copy, PartialEq, Eq)]
pub struct SessionRow {
    /// The connection that opened it.
    pub owner: ConnId,
    /// The session's number.
    pub session: SessionId,
}

/// The sessions that are open, and the number that the next one gets.
#[derive(Drop)]
pub struct Sessions {
    /// The sessions, by their owners' numbers and then their own.
    pub rows: Items<SessionRow>,
    /// The number that the next session gets.
    pub next: u64,
}
