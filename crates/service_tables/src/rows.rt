use kr_items::Items;
use prompt_state::Prompts;
use session_table::Sessions;
use signal_fanout::ConnRow;

/// The connections that are there, and the number that the next one gets.
#[derive(Drop)]
pub struct ConnRows {
    /// The connections, by rising number.
    pub rows: Items<ConnRow>,
    /// The number that the next connection gets.
    pub next: u64,
}

/// The connections, the sessions and the prompts of the service at a moment, with no trace of how they are kept.
#[derive(Drop)]
pub struct Rows {
    /// The connections.
    pub connections: ConnRows,
    /// The sessions.
    pub sessions: Sessions,
    /// The prompts, and the agent.
    pub prompts: Prompts,
}
