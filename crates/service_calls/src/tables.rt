use kr_outside::Folder;
use prompt_state::PromptState;
use service_events::service_tables::{Connections, Disk};
use session_table::SessionTable;
use std::alloc::Global;

/// What the calls of the service read and change: its connections with what waits for each, its sessions
/// and prompts, and its folder with its collections and aliases.
#[derive(Drop)]
pub struct Tables<F: Folder> {
    /// The memory that is used.
    pub alloc: Global,
    /// The connections, with what waits for each.
    pub connections: Connections,
    /// The sessions.
    pub sessions: SessionTable,
    /// The prompts and the agent.
    pub prompts: PromptState,
    /// The folder, with its collections and aliases.
    pub disk: Disk<F>,
}
